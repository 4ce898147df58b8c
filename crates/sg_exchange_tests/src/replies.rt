// What the replies to a request for a manifest or a piece come to, by the order of the refusals.
use crate::worlds::{asker, link, manifest, piece, reply};
use sg_base::MediaId;
use sg_exchange::Heard;
use sg_http::Span;
use std::test::Fail;

struct Case {
    what: &'static str,
    reply: &'static str,
    heard: Heard,
}

// The head of 38 bytes of a reply of 4 bytes.
const CASES: [Case; 13] = [
    Case {
        what: "nothing came",
        reply: "",
        heard: Heard::Cut {
            got: 0,
            length: 0,
            body: Span { from: 0, to: 0 },
        },
    },
    Case {
        what: "a text that is no reply",
        reply: "hello\n",
        heard: Heard::NotHttp,
    },
    Case {
        what: "a head that was cut, of whatever status",
        reply: "HTTP/1.1 404 Not Found\r\n",
        heard: Heard::Cut {
            got: 24,
            length: 0,
            body: Span { from: 0, to: 0 },
        },
    },
    Case {
        what: "no length",
        reply: "HTTP/1.1 200 OK\r\n\r\nabcd",
        heard: Heard::NotHttp,
    },
    Case {
        what: "two lengths, of another status",
        reply: "HTTP/1.1 403 Forbidden\r\nContent-Length: 4\r\nContent-Length: 4\r\n\r\nabcd",
        heard: Heard::NotHttp,
    },
    Case {
        what: "another status",
        reply: "HTTP/1.1 403 Forbidden\r\nContent-Length: 17\r\n\r\n{\"refused\":\"Key\"}",
        heard: Heard::Status(403),
    },
    Case {
        what: "another status, cut in the body, which has another length",
        reply: "HTTP/1.1 403 Forbidden\r\nContent-Length: 17\r\n\r\n{\"ref",
        heard: Heard::Status(403),
    },
    Case {
        what: "another length",
        reply: "HTTP/1.1 200 OK\r\nContent-Length: 5\r\n\r\nabcde",
        heard: Heard::Length {
            got: 5,
            expected: 4,
        },
    },
    Case {
        what: "another length, cut in the body",
        reply: "HTTP/1.1 200 OK\r\nContent-Length: 3\r\n\r\nab",
        heard: Heard::Length {
            got: 3,
            expected: 4,
        },
    },
    Case {
        what: "cut before its body",
        reply: "HTTP/1.1 200 OK\r\nContent-Length: 4\r\n\r\n",
        heard: Heard::Cut {
            got: 0,
            length: 4,
            body: Span { from: 38, to: 38 },
        },
    },
    Case {
        what: "cut in its body",
        reply: "HTTP/1.1 200 OK\r\nContent-Length: 4\r\n\r\nabc",
        heard: Heard::Cut {
            got: 3,
            length: 4,
            body: Span { from: 38, to: 41 },
        },
    },
    Case {
        what: "whole",
        reply: "HTTP/1.1 200 OK\r\nContent-Length: 4\r\n\r\nabcd",
        heard: Heard::Whole(Span { from: 38, to: 42 }),
    },
    Case {
        what: "whole, with more after it",
        reply: "HTTP/1.0 200 OK\r\nContent-Length: 4\r\n\r\nabcdef",
        heard: Heard::Whole(Span { from: 38, to: 42 }),
    },
];

#[test]
fn the_first_refusal_is_the_answer(rt: HostRuntime) -> Result<(), Fail> {
    let alloc = rt.alloc();
    let mut asker = asker(alloc)?;
    for case in &CASES {
        let mut link = link(alloc, &[case.reply.as_bytes()])?;
        let heard = piece(&mut asker, &mut link, 0, 4)?;
        assert_eq!(rt; heard, case.heard, "{}", case.what);
        assert_eq!(rt; link.faults(), 0);
    }
    Ok(())
}

#[test]
fn the_bytes_of_a_body_stand_in_the_room(rt: HostRuntime) -> Result<(), Fail> {
    let alloc = rt.alloc();
    let mut asker = asker(alloc)?;
    let mut link = link(
        alloc,
        &[
            b"HTTP/1.1 200 OK\r\nContent-Length: 4\r\n\r\nabcd",
            b"HTTP/1.1 200 OK\r\nContent-Length: 4\r\n\r\nxy",
        ],
    )?;
    let Heard::Whole(body) = asker.piece(&mut link, MediaId(1), 0, 4)? else {
        return Err(Fail::new("not whole"));
    };
    assert_eq!(rt; asker.bytes(body), b"abcd".as_slice());
    let Heard::Cut { body, .. } = asker.piece(&mut link, MediaId(1), 0, 4)? else {
        return Err(Fail::new("not cut"));
    };
    assert_eq!(rt; asker.bytes(body), b"xy".as_slice());
    Ok(())
}

#[test]
fn a_manifest_has_at_most_1048576_bytes(rt: HostRuntime) -> Result<(), Fail> {
    let alloc = rt.alloc();
    let mut asker = asker(alloc)?;
    let whole = reply(alloc, "200 OK", "{}")?;
    let mut link = link(
        alloc,
        &[
            whole.as_bytes(),
            b"HTTP/1.1 200 OK\r\nContent-Length: 1048576\r\n\r\n{",
            b"HTTP/1.1 200 OK\r\nContent-Length: 1048577\r\n\r\n{",
        ],
    )?;
    let Heard::Whole(body) = asker.manifest(&mut link)? else {
        return Err(Fail::new("not whole"));
    };
    assert_eq!(rt; asker.bytes(body), b"{}".as_slice());
    let cut = Heard::Cut {
        got: 1,
        length: 1_048_576,
        body: Span { from: 44, to: 45 },
    };
    assert_eq!(rt; manifest(&mut asker, &mut link)?, cut);
    let too_long = Heard::Length {
        got: 1_048_577,
        expected: 1_048_576,
    };
    assert_eq!(rt; manifest(&mut asker, &mut link)?, too_long);
    assert_eq!(rt; manifest(&mut asker, &mut link)?, Heard::LinkFault);
    Ok(())
}
