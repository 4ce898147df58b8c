// The bytes of each request, by the table of routes and the form of a player's request.
use crate::worlds::{asker, enrol, link, manifest, piece, play};
use sg_devices::MemLink;
use sg_exchange::{BatchCause, BatchEnd, EnrolCause, EnrolEnd, Heard, REPLY_ROOM};
use std::process::Abort;
use std::test::Fail;

const REQUESTS: [&str; 6] = [
    "GET /displays/7/manifest HTTP/1.1\r\nHost: signage\r\nSign-Key: k1\r\nConnection: close\r\n\r\n",
    "GET /displays/7/files/3/65536 HTTP/1.1\r\nHost: signage\r\nSign-Key: k1\r\nConnection: close\r\n\r\n",
    "POST /displays/7/plays HTTP/1.1\r\nHost: signage\r\nSign-Key: k1\r\nConnection: close\r\n\
        Content-Length: 63\r\n\r\n{\"epoch\":2,\"first\":5,\"plays\":[[1,2,10,20],[0,1,20,4102444799]]}",
    "POST /displays/7/plays HTTP/1.1\r\nHost: signage\r\nSign-Key: k1\r\nConnection: close\r\n\
        Content-Length: 63\r\n\r\n{\"epoch\":65535,\"first\":4294967294,\"plays\":[[4294967295,9,0,1]]}",
    "POST /displays/7/plays HTTP/1.1\r\nHost: signage\r\nSign-Key: k1\r\nConnection: close\r\n\
        Content-Length: 32\r\n\r\n{\"epoch\":1,\"first\":1,\"plays\":[]}",
    "POST /displays/7/enrol HTTP/1.1\r\nHost: signage\r\nSign-Key: k1\r\nConnection: close\r\n\
        Content-Length: 0\r\n\r\n",
];

#[test]
fn each_request_is_one_exchange_with_the_whole_room(rt: HostRuntime) -> Result<(), Fail> {
    let alloc = rt.alloc();
    let mut asker = asker(alloc)?;
    let mut link = link(alloc, &[])?;
    let two = [play(1, 2, 10, 20)?, play(0, 1, 20, 4_102_444_799)?];
    let one = [play(4_294_967_295, 9, 0, 1)?];
    let stays = BatchEnd::Stay(BatchCause::LinkFault);
    assert_eq!(rt; manifest(&mut asker, &mut link)?, Heard::LinkFault);
    assert_eq!(rt; piece(&mut asker, &mut link, 65_536, 10)?, Heard::LinkFault);
    assert_eq!(rt; asker.send(&mut link, 2, 5, &two, 7)?, stays);
    assert_eq!(rt;
        asker.send(&mut link, 65_535, 4_294_967_294, &one, 4_294_967_295)?,
        stays
    );
    assert_eq!(rt; asker.send(&mut link, 1, 1, &[], 1)?, stays);
    assert_eq!(rt;
        enrol(&mut asker, &mut link)?,
        EnrolEnd::Refused(EnrolCause::LinkFault)
    );
    assert_eq!(rt; link.faults(), 6);
    are_told(&rt, &link)
}

// Exactly the requests were told, each with the whole room, and no answer.
fn are_told(rt: &impl Abort, link: &MemLink) -> Result<(), Fail> {
    let Some(told) = link.told() else {
        return Err(Fail::new("nothing is told"));
    };
    assert_eq!(rt; told.len(), REQUESTS.len());
    for (exchange, request) in told.iter().zip(REQUESTS.iter()) {
        assert_eq!(rt;
            exchange.request.as_slice(),
            request.as_bytes(),
            "{request}"
        );
        assert_eq!(rt; exchange.room, REPLY_ROOM);
        assert!(rt; exchange.answer.is_none());
    }
    Ok(())
}
