// How batches and enrolments end.
use crate::worlds::{asker, enrol, link, play, reply, send};
use sg_exchange::{BatchCause, BatchEnd, EnrolCause, EnrolEnd};
use std::test::Fail;

// The bodies of replies of status 200 to a batch whose first play is 5, where the next to be recorded is 8.
const BATCHES: [(&str, Option<u32>); 14] = [
    ("{\"next\":5}", Some(5)),
    ("{\"next\":6}", Some(6)),
    ("{\"next\":8}", Some(8)),
    ("{\"next\":4}", None),
    ("{\"next\":9}", None),
    ("{\"next\":06}", None),
    ("{\"next\":+6}", None),
    ("{\"next\":-6}", None),
    ("{\"next\": 6}", None),
    ("{\"next\":6}\n", None),
    ("{\"next\":4294967302}", None),
    ("{\"next\":}", None),
    ("{\"epoch\":6}", None),
    ("", None),
];

#[test]
fn a_batch_is_sent_where_the_reply_names_a_play_of_it_or_the_next(
    rt: HostRuntime,
) -> Result<(), Fail> {
    let alloc = rt.alloc();
    let mut asker = asker(alloc)?;
    let plays = [play(0, 1, 10, 20)?];
    for (body, next) in &BATCHES {
        let whole = reply(alloc, "200 OK", body)?;
        let mut link = link(alloc, &[whole.as_bytes()])?;
        let wanted = match next {
            Some(next) => BatchEnd::Sent(*next),
            None => BatchEnd::Stay(BatchCause::BadNext),
        };
        assert_eq!(rt; send(&mut asker, &mut link, &plays)?, wanted, "{body}");
    }
    Ok(())
}

// The bodies of replies of status 200 to an enrolment.
const ENROLMENTS: [(&str, Option<u32>); 8] = [
    ("{\"epoch\":1}", Some(1)),
    ("{\"epoch\":65535}", Some(65_535)),
    ("{\"epoch\":0}", None),
    ("{\"epoch\":65536}", None),
    ("{\"epoch\":01}", None),
    ("{\"epoch\":1} ", None),
    ("{\"next\":1}", None),
    ("{\"epoch\":\"1\"}", None),
];

#[test]
fn an_enrolment_gives_an_epoch_from_1_to_65535(rt: HostRuntime) -> Result<(), Fail> {
    let alloc = rt.alloc();
    let mut asker = asker(alloc)?;
    for (body, epoch) in &ENROLMENTS {
        let whole = reply(alloc, "200 OK", body)?;
        let mut link = link(alloc, &[whole.as_bytes()])?;
        let wanted = match epoch {
            Some(epoch) => EnrolEnd::Enrolled(*epoch),
            None => EnrolEnd::Refused(EnrolCause::BadReply),
        };
        assert_eq!(rt; enrol(&mut asker, &mut link)?, wanted, "{body}");
    }
    Ok(())
}

#[test]
fn other_replies_are_refused_in_the_same_order(rt: HostRuntime) -> Result<(), Fail> {
    let alloc = rt.alloc();
    let mut asker = asker(alloc)?;
    let plays = [play(0, 1, 10, 20)?];
    let gap = reply(alloc, "409 Conflict", "{\"next\":5,\"refused\":\"Gap\"}")?;
    let cut: &[u8] = b"HTTP/1.1 200 OK\r\nContent-Length: 10\r\n\r\n{\"next\":";
    let rows: [(&[u8], BatchCause, EnrolCause); 4] = [
        (b"hello\n", BatchCause::NotHttp, EnrolCause::NotHttp),
        (
            b"HTTP/1.1 2",
            BatchCause::Cut { got: 10, length: 0 },
            EnrolCause::Cut { got: 10, length: 0 },
        ),
        (
            gap.as_bytes(),
            BatchCause::Status(409),
            EnrolCause::Status(409),
        ),
        (
            cut,
            BatchCause::Cut { got: 8, length: 10 },
            EnrolCause::Cut { got: 8, length: 10 },
        ),
    ];
    for (answer, batch, enrolment) in &rows {
        let mut link = link(alloc, &[*answer, *answer])?;
        assert_eq!(rt;
            send(&mut asker, &mut link, &plays)?,
            BatchEnd::Stay(*batch)
        );
        assert_eq!(rt;
            enrol(&mut asker, &mut link)?,
            EnrolEnd::Refused(*enrolment)
        );
    }
    Ok(())
}
