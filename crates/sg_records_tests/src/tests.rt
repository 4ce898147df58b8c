//! Replies by their JSON and status, and rows by the bytes that a keeper has of them. The texts are those of the rules,
//! written by hand; the digest is that of `abc` (RFC 1321).

ghost use Rattle.sg_edit_rows.specs.EditRows.{IsRow};
ghost use Rattle.sg_rows.specs.declared.form.RowForm.TheVariants.{Edit};
ghost use Rattle.std.specs.Prelude.{IfOk, ◌≢◌};
ghost use Rattle.sg_base.specs.declared.kind.Kind.TheVariants as of_kind;

use serde_json::Value;
use sg_base::{Key, Kind, Listed, MediaId, Moment, PlayBody, Row};
use sg_edit_rows::read_row;
use sg_records::{
    Client, Epoch, FaultName, Reply, piece_key, play_key, read_client, read_epoch, read_saved,
    write_client, write_epoch, write_fresh, write_medium, write_play,
};
use sg_rows::RowForm;
use std::alloc::Global;
use std::test::Fail;

const DIGEST: [u8; 16] = [
    144, 1, 80, 152, 60, 210, 79, 176, 214, 150, 63, 125, 40, 225, 127, 114,
];

const FILE: &str = r#"{"id":7,"length":3,"md5":"900150983cd24fb0d6963f7d28e17f72"}"#;

const DAYPART: &str = r#"{"dates":[],"end":0,"exceptions":[],"id":9,"start":28800}"#;

const OLDER_DAYPART: &str = r#"{"end":0,"exceptions":[],"id":9,"start":28800}"#;

const UNKNOWN: Reply = Reply::Unknown {
    kind: Kind::Media,
    id: 2,
};

const IN_USE: Reply = Reply::InUse {
    kind: Kind::Layout,
    id: 1,
    by_kind: Kind::Event,
    by_id: 6,
};

const FULL: Reply = Reply::Full {
    kind: Kind::Media,
    limit: 536_870_912,
};

#[test]
fn a_reply_has_its_json_and_its_status(rt: HostRuntime) -> Result<(), Fail> {
    let replies = [
        (Reply::Done(1), 200, r#"{"done":1}"#),
        (
            UNKNOWN,
            409,
            r#"{"id":2,"kind":"media","refused":"Unknown"}"#,
        ),
        (
            IN_USE,
            409,
            r#"{"by":{"id":6,"kind":"event"},"id":1,"kind":"layout","refused":"InUse"}"#,
        ),
        (
            Reply::Exists {
                kind: Kind::Group,
                id: 3,
            },
            409,
            r#"{"id":3,"kind":"group","refused":"Exists"}"#,
        ),
        (
            FULL,
            409,
            r#"{"kind":"media","limit":536870912,"refused":"Full"}"#,
        ),
        (
            Reply::Sequence { expected: 2 },
            409,
            r#"{"expected":2,"refused":"Sequence"}"#,
        ),
        (
            Reply::Invalid(FaultName::Event),
            422,
            r#"{"fault":"Event","refused":"Invalid"}"#,
        ),
    ];
    for (reply, status, json) in replies {
        assert_eq!(rt;
            reply.write(rt.alloc())?.to_string(rt.alloc())?.as_str(),
            json
        );
        assert_eq!(rt; reply.status(), status, "{json}");
    }
    Ok(())
}

// A client's row, by its two first parts.
fn client(alloc: Global, last: &str, reply: &str, status: &str) -> Result<String, Fail> {
    Ok(format!(in alloc; "{{\"last\":{last},\"reply\":{reply},\"status\":{status}}}")?)
}

// The client of number 5 that is kept with a text.
fn kept(alloc: Global, text: &str) -> Result<Option<Client>, Fail> {
    let found = read_client(alloc, Client::key(5), text.as_bytes())?;
    Ok(found)
}

#[test]
fn a_client_is_read_from_its_row(rt: HostRuntime) -> Result<(), Fail> {
    let alloc = rt.alloc();
    let replies = [
        Reply::Done(4),
        UNKNOWN,
        IN_USE,
        FULL,
        Reply::Exists {
            kind: Kind::Campaign,
            id: 4_294_967_295,
        },
        Reply::Invalid(FaultName::NoReplace),
    ];
    for reply in replies {
        let client = Client {
            client: 5,
            last: 4,
            reply,
        };
        let text = write_client(alloc, &client)?;
        let found = read_client(alloc, Client::key(5), text.as_slice())?;
        assert_eq!(rt; found, Some(client), "{reply:?}");
    }
    let text = client(alloc, "4", r#"{"done":4}"#, "200")?;
    assert_eq!(rt;
        kept(alloc, text.as_str())?.map(|c| c.reply),
        Some(Reply::Done(4))
    );
    Ok(())
}

#[test]
fn another_row_is_no_client(rt: HostRuntime) -> Result<(), Fail> {
    let alloc = rt.alloc();
    let rows = [
        ("the reply to another number", "4", r#"{"done":3}"#, "200"),
        ("another status", "4", r#"{"done":4}"#, "409"),
        ("no number", "0", r#"{"done":0}"#, "200"),
        (
            "a number of 33 bits",
            "4294967296",
            r#"{"done":4294967296}"#,
            "200",
        ),
        ("a blank", "4", r#"{"done": 4}"#, "200"),
        (
            "a reply that isn't kept",
            "4",
            r#"{"expected":5,"refused":"Sequence"}"#,
            "409",
        ),
        (
            "a client that is one too many",
            "4",
            r#"{"kind":"client","limit":1000,"refused":"Full"}"#,
            "409",
        ),
        (
            "another limit",
            "4",
            r#"{"kind":"event","limit":5001,"refused":"Full"}"#,
            "409",
        ),
        (
            "a row of id 0",
            "4",
            r#"{"id":0,"kind":"event","refused":"Exists"}"#,
            "409",
        ),
        (
            "no such kind",
            "4",
            r#"{"id":1,"kind":"row","refused":"Exists"}"#,
            "409",
        ),
        (
            "no such fault",
            "4",
            r#"{"fault":"None","refused":"Invalid"}"#,
            "422",
        ),
    ];
    for (what, last, reply, status) in rows {
        let text = client(alloc, last, reply, status)?;
        assert_eq!(rt; kept(alloc, text.as_str())?, None, "{what}");
    }
    let text = client(alloc, "4", r#"{"done":4}"#, "200")?;
    let other = Key {
        kind: 9,
        a: 5,
        b: 0,
    };
    assert_eq!(rt; read_client(alloc, other, text.as_str().as_bytes())?, None);
    assert_eq!(rt;
        read_client(alloc, Client::key(0), text.as_str().as_bytes())?,
        None
    );
    assert_eq!(rt; kept(alloc, "{")?, None);
    Ok(())
}

fn medium() -> Listed {
    Listed {
        media: MediaId(7),
        length: 65_539,
        md5: DIGEST,
    }
}

// The row of the medium, with what has come of it.
fn medium_row(alloc: Global, complete: &str, length: &str, received: &str) -> Result<String, Fail> {
    let md5 = "900150983cd24fb0d6963f7d28e17f72";
    Ok(format!(in alloc;
        "{{\"complete\":{complete},\"id\":7,\"length\":{length},\"md5\":\"{md5}\",\"received\":{received}}}"
    )?)
}

#[test]
fn a_medium_is_kept_with_what_has_come_of_it(rt: HostRuntime) -> Result<(), Fail> {
    let alloc = rt.alloc();
    let key = Key {
        kind: 1,
        a: 7,
        b: 0,
    };
    let cases = [
        ("false", "0", true),
        ("false", "65536", true),
        ("true", "65539", true),
        ("false", "65539", false),
        ("true", "65536", false),
        ("false", "1", false),
        ("false", "131072", false),
    ];
    for (complete, received, is_kept) in cases {
        let text = medium_row(alloc, complete, "65539", received)?;
        let found = read_saved(alloc, key, text.as_str().as_bytes())?;
        assert_eq!(rt; found.is_some(), is_kept, "{complete} {received}");
    }
    let written = write_medium(alloc, &medium(), 65_536, false)?;
    let text = medium_row(alloc, "false", "65539", "65536")?;
    assert_eq!(rt; written.as_slice(), text.as_str().as_bytes());
    let empty = medium_row(alloc, "true", "0", "0")?;
    assert!(rt; read_saved(alloc, key, empty.as_str().as_bytes())?.is_none());
    Ok(())
}

fn row_of(alloc: Global, kind: Kind, text: &str) -> Result<Row, Fail>
    requires { kind ≢ of_kind.Client }
    ensures { IfOk result (λ row. IsRow Edit row) }
{
    let value = Value::from_str(alloc, text)?;
    Ok(read_row(alloc, kind, RowForm::Edit, &value)?)
}

#[test]
fn a_row_that_came_in_is_read_again(rt: HostRuntime) -> Result<(), Fail> {
    let alloc = rt.alloc();
    let daypart = write_fresh(alloc, &row_of(alloc, Kind::Daypart, DAYPART)?)?;
    assert_eq!(rt; daypart.as_slice(), DAYPART.as_bytes());
    let file = write_fresh(alloc, &row_of(alloc, Kind::Media, FILE)?)?;
    let text = medium_row(alloc, "false", "3", "0")?;
    assert_eq!(rt; file.as_slice(), text.as_str().as_bytes());
    let key = Key {
        kind: 4,
        a: 9,
        b: 0,
    };
    for (text, is_kept) in [(DAYPART, true), (OLDER_DAYPART, true), (FILE, false)] {
        let found = read_saved(alloc, key, text.as_bytes())?;
        assert_eq!(rt;
            found.map(|saved| saved.row().kind()),
            if is_kept { Some(Kind::Daypart) } else { None },
            "{text}"
        );
    }
    let other = Key {
        kind: 4,
        a: 8,
        b: 0,
    };
    assert!(rt; read_saved(alloc, other, DAYPART.as_bytes())?.is_none());
    Ok(())
}

#[test]
fn an_epoch_is_four_bytes(rt: HostRuntime) -> Result<(), Fail> {
    let epoch = Epoch {
        display: 3,
        epoch: 65_535,
        plays: 0x0102_0304,
    };
    let bytes = write_epoch(rt.alloc(), epoch)?;
    assert_eq!(rt; bytes.as_slice(), [4, 3, 2, 1].as_slice());
    let key = Epoch::key(3, 65_535);
    assert_eq!(rt; read_epoch(0x0102_0304, key, &[4, 3, 2, 1]), Some(epoch));
    assert_eq!(rt;
        read_epoch(0x0102_0303, key, &[4, 3, 2, 1]),
        None,
        "too many plays"
    );
    assert_eq!(rt; read_epoch(9, key, &[4, 0, 0]), None, "three bytes");
    assert_eq!(rt;
        read_epoch(9, Epoch::key(3, 65_536), &[4, 0, 0, 0]),
        None,
        "past the last epoch"
    );
    assert_eq!(rt;
        read_epoch(9, Epoch::key(3, 0), &[4, 0, 0, 0]),
        None,
        "epoch 0"
    );
    assert_eq!(rt;
        read_epoch(9, Epoch::key(0, 1), &[4, 0, 0, 0]),
        None,
        "display 0"
    );
    Ok(())
}

#[test]
fn a_play_is_sixteen_bytes(rt: HostRuntime) -> Result<(), Fail> {
    let play = PlayBody {
        event: 1,
        layout: 2,
        from: Moment::new(258).ok_or("late")?,
        to: Moment::new(65_536).ok_or("late")?,
    };
    let bytes = write_play(rt.alloc(), play)?;
    let wanted = [1, 0, 0, 0, 2, 0, 0, 0, 2, 1, 0, 0, 0, 0, 1, 0];
    assert_eq!(rt; bytes.as_slice(), wanted.as_slice());
    assert_eq!(rt;
        play_key(2, 3, 4),
        Key {
            kind: 10,
            a: 8_589_934_595,
            b: 4
        }
    );
    assert_eq!(rt;
        piece_key(MediaId(7), 2),
        Key {
            kind: 11,
            a: 7,
            b: 2
        }
    );
    Ok(())
}
