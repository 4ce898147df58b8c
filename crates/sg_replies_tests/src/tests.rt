//! Replies, with the body of each as an integrator reads it.

use sg_base::{Kind, LimitName, MediaId};
use sg_records::{FaultName, Reply};
use sg_replies::{Refusal, Saying, reply_body};
use std::process::Abort;
use std::str;
use std::test::Fail;

const LAST: u32 = 4_294_967_295;

// A reply, its status and its body.
type Case = (Saying, u16, &'static str);

const SAYINGS: [Case; 14] = [
    (Saying::Held(65_536), 200, r#"{"held":65536}"#),
    (Saying::Complete(MediaId(1)), 200, r#"{"complete":1}"#),
    (Saying::Epoch(65_535), 200, r#"{"epoch":65535}"#),
    (Saying::Next(LAST), 200, r#"{"next":4294967295}"#),
    (
        Saying::Unknown(MediaId(LAST)),
        404,
        r#"{"id":4294967295,"kind":"media","refused":"Unknown"}"#,
    ),
    (
        Saying::PieceOrder { expected: 0 },
        409,
        r#"{"expected":0,"refused":"PieceOrder"}"#,
    ),
    (
        Saying::PieceLength { expected: 65_536 },
        422,
        r#"{"expected":65536,"refused":"PieceLength"}"#,
    ),
    (
        Saying::DigestDiffers {
            found: [0, 1, 2, 3, 4, 5, 6, 7, 8, 9, 10, 15, 16, 127, 128, 255],
        },
        409,
        r#"{"found":"000102030405060708090a0f107f80ff","refused":"DigestDiffers"}"#,
    ),
    (
        Saying::TooLarge {
            name: LimitName::Campaigns,
            count: 257,
        },
        409,
        r#"{"count":257,"limit":"campaigns","refused":"TooLarge"}"#,
    ),
    (
        Saying::TooLarge {
            name: LimitName::Text,
            count: u64::MAX,
        },
        409,
        r#"{"count":18446744073709551615,"limit":"text","refused":"TooLarge"}"#,
    ),
    (
        Saying::NotListed(MediaId(8)),
        403,
        r#"{"media":8,"refused":"NotListed"}"#,
    ),
    (
        Saying::PastEnd { length: 3 },
        416,
        r#"{"length":3,"refused":"PastEnd"}"#,
    ),
    (
        Saying::Gap { next: 6 },
        409,
        r#"{"next":6,"refused":"Gap"}"#,
    ),
    (
        Saying::PlaysFull { limit: 5 },
        409,
        r#"{"limit":5,"refused":"PlaysFull"}"#,
    ),
];

fn each_says(rt: &impl Abort, cases: &[Case]) -> Result<(), Fail> {
    for (saying, status, body) in cases {
        assert_eq!(rt; str::from_utf8(saying.text().as_bytes())?, *body);
        assert_eq!(rt; saying.status(), *status, "{body}");
    }
    Ok(())
}

#[test]
fn each_reply_has_this_body(rt: HostRuntime) -> Result<(), Fail> {
    each_says(&rt, &SAYINGS)
}

const REFUSALS: [(Refusal, u16, &str); 9] = [
    (Refusal::Body, 400, r#"{"refused":"Body"}"#),
    (Refusal::Path, 404, r#"{"refused":"Path"}"#),
    (Refusal::Method, 405, r#"{"refused":"Method"}"#),
    (Refusal::Key, 403, r#"{"refused":"Key"}"#),
    (Refusal::Range, 422, r#"{"refused":"Range"}"#),
    (Refusal::NoEpoch, 409, r#"{"refused":"NoEpoch"}"#),
    (Refusal::EpochsSpent, 409, r#"{"refused":"EpochsSpent"}"#),
    (Refusal::Keeper, 503, r#"{"refused":"Keeper"}"#),
    (Refusal::Memory, 507, r#"{"refused":"Memory"}"#),
];

fn each_refuses(rt: &impl Abort, cases: &[(Refusal, u16, &str)]) -> Result<(), Fail> {
    for (refusal, status, body) in cases {
        let saying = Saying::Refused(*refusal);
        assert_eq!(rt; str::from_utf8(saying.text().as_bytes())?, *body);
        assert_eq!(rt; saying.status(), *status, "{body}");
    }
    Ok(())
}

#[test]
fn each_refusal_says_its_name(rt: HostRuntime) -> Result<(), Fail> {
    each_refuses(&rt, &REFUSALS)
}

const REPLIES: [(Reply, &str); 9] = [
    (Reply::Done(LAST), r#"{"done":4294967295}"#),
    (
        Reply::Unknown {
            kind: Kind::Media,
            id: 99,
        },
        r#"{"id":99,"kind":"media","refused":"Unknown"}"#,
    ),
    (
        Reply::Exists {
            kind: Kind::Group,
            id: 3,
        },
        r#"{"id":3,"kind":"group","refused":"Exists"}"#,
    ),
    (
        Reply::InUse {
            kind: Kind::Media,
            id: 1,
            by_kind: Kind::Layout,
            by_id: 7,
        },
        r#"{"by":{"id":7,"kind":"layout"},"id":1,"kind":"media","refused":"InUse"}"#,
    ),
    // The longest.
    (
        Reply::InUse {
            kind: Kind::Campaign,
            id: LAST,
            by_kind: Kind::Campaign,
            by_id: LAST,
        },
        r#"{"by":{"id":4294967295,"kind":"campaign"},"id":4294967295,"kind":"campaign","refused":"InUse"}"#,
    ),
    (
        Reply::Full {
            kind: Kind::Client,
            limit: 1_000,
        },
        r#"{"kind":"client","limit":1000,"refused":"Full"}"#,
    ),
    (
        Reply::Sequence { expected: 2 },
        r#"{"expected":2,"refused":"Sequence"}"#,
    ),
    (
        Reply::Invalid(FaultName::NoReplace),
        r#"{"fault":"NoReplace","refused":"Invalid"}"#,
    ),
    (
        Reply::Invalid(FaultName::Shape),
        r#"{"fault":"Shape","refused":"Invalid"}"#,
    ),
];

fn each_replies(rt: &impl Abort, cases: &[(Reply, &str)]) -> Result<(), Fail> {
    for (reply, body) in cases {
        assert_eq!(rt; str::from_utf8(reply_body(*reply).as_bytes())?, *body);
    }
    Ok(())
}

#[test]
fn each_reply_to_an_edit_has_this_body(rt: HostRuntime) -> Result<(), Fail> {
    each_replies(&rt, &REPLIES)
}
