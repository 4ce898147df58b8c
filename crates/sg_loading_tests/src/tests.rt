//! Servers from the rows of a keeper in memory. The texts are those of the rules, written by hand; the digest is that of
//! `abc` (RFC 1321).

use sg_base::{Key, Kind, Rows};
use sg_keeper::{Change, Keeper, MapKeeper};
use sg_loading::{LoadFault, load};
use sg_records::Reply;
use std::alloc::Global;
use std::test::Fail;

// A key, and what stands there.
type Line = (u8, u64, u64, &'static [u8]);

const LIMIT: u32 = 9;

const WHOLE: Line = (
    1,
    1,
    0,
    br#"{"complete":true,"id":1,"length":3,"md5":"900150983cd24fb0d6963f7d28e17f72","received":3}"#,
);

const PART: Line = (
    1,
    2,
    0,
    br#"{"complete":false,"id":2,"length":65537,"md5":"900150983cd24fb0d6963f7d28e17f72","received":65536}"#,
);

const LAYOUT: Line = (
    2,
    1,
    0,
    br#"{"id":1,"regions":[{"id":1,"items":[{"media":1,"seconds":10}]}]}"#,
);

const CAMPAIGN: Line = (3, 4, 0, br#"{"id":4,"layouts":[1]}"#);

const DAYPART: Line = (
    4,
    9,
    0,
    br#"{"dates":[],"end":0,"exceptions":[],"id":9,"start":28800}"#,
);

const OLDER_DAYPART: Line = (
    4,
    9,
    0,
    br#"{"end":0,"exceptions":[],"id":9,"start":28800}"#,
);

const GROUP: Line = (5, 3, 0, br#"{"id":3}"#);

const DISPLAY: Line = (
    6,
    7,
    0,
    br#"{"default":1,"groups":[3],"id":7,"key":"aZ09","zone":{"offset":60}}"#,
);

const EVENT: Line = (
    7,
    2,
    0,
    br#"{"displays":[7],"groups":[3],"id":2,"layer":0,"order":3,"priority":4,"repeat":null,"share":0,"target":{"campaign":4},"when":{"date":19723,"daypart":9}}"#,
);

const OLDER_EVENT: Line = (
    7,
    2,
    0,
    br#"{"displays":[7],"groups":[3],"id":2,"order":3,"priority":4,"repeat":null,"share":0,"target":{"campaign":4},"when":{"date":19723,"daypart":9}}"#,
);

const CLIENT: Line = (8, 5, 0, br#"{"last":4,"reply":{"done":4},"status":200}"#);

const FIRST_EPOCH: Line = (9, 7, 1, &[9, 0, 0, 0]);

const NEXT_EPOCH: Line = (9, 7, 2, &[0, 0, 0, 0]);

// ---- bad rows

const BLANK: Line = (5, 3, 0, br#"{"id": 3}"#);

const OTHER_ID: Line = (5, 4, 0, br#"{"id":3}"#);

const OTHER_KIND: Line = (4, 3, 0, br#"{"id":3}"#);

const SECOND: Line = (5, 3, 1, br#"{"id":3}"#);

// A layout of a medium that isn't complete.
const EARLY: Line = (
    2,
    1,
    0,
    br#"{"id":1,"regions":[{"id":1,"items":[{"media":2,"seconds":10}]}]}"#,
);

const MORE: Line = (
    1,
    1,
    0,
    br#"{"complete":true,"id":1,"length":3,"md5":"900150983cd24fb0d6963f7d28e17f72","received":4}"#,
);

const LESS: Line = (
    1,
    1,
    0,
    br#"{"complete":true,"id":1,"length":3,"md5":"900150983cd24fb0d6963f7d28e17f72","received":0}"#,
);

const HALF: Line = (
    1,
    1,
    0,
    br#"{"complete":false,"id":1,"length":3,"md5":"900150983cd24fb0d6963f7d28e17f72","received":1}"#,
);

const STATUS: Line = (8, 5, 0, br#"{"last":4,"reply":{"done":4},"status":409}"#);

const ZERO: Line = (9, 7, 0, &[0, 0, 0, 0]);

const ABOVE: Line = (9, 7, 65_536, &[0, 0, 0, 0]);

const SHORT: Line = (9, 7, 1, &[0, 0, 0]);

// The second epoch of a display without a first.
const OTHER: Line = (9, 8, 2, &[0, 0, 0, 0]);

// More plays than the limit.
const MANY: Line = (9, 7, 2, &[10, 0, 0, 0]);

const ALL: [Line; 11] = [
    WHOLE,
    PART,
    LAYOUT,
    CAMPAIGN,
    DAYPART,
    GROUP,
    DISPLAY,
    EVENT,
    CLIENT,
    FIRST_EPOCH,
    NEXT_EPOCH,
];

fn key_of(line: Line) -> Key {
    Key {
        kind: line.0,
        a: line.1,
        b: line.2,
    }
}

fn put<K: Keeper>(alloc: Global, keeper: &mut K, line: Line) -> Result<(), Fail> {
    let bytes = Rows::from_vec(Vec::from_slice(alloc, line.3)?);
    keeper.apply(&[Change::Put(key_of(line), bytes)])?;
    Ok(())
}

fn keeper_of(alloc: Global, lines: &[Line]) -> Result<MapKeeper, Fail> {
    let mut keeper = MapKeeper::new(alloc);
    for line in lines {
        put(alloc, &mut keeper, *line)?;
    }
    Ok(keeper)
}

// Why a keeper with these rows isn't loaded.
fn fault_of(alloc: Global, lines: &[Line]) -> Result<Option<LoadFault>, Fail> {
    let mut keeper = keeper_of(alloc, lines)?;
    Ok(load(alloc, &mut keeper, LIMIT).err())
}

#[test]
fn an_empty_keeper_is_a_server_without_rows(rt: HostRuntime) -> Result<(), Fail> {
    let mut keeper = MapKeeper::new(rt.alloc());
    let parts = load(rt.alloc(), &mut keeper, LIMIT).ok().ok_or("refused")?;
    assert_eq!(rt; parts.tables.after(Kind::Media, 0), None);
    assert_eq!(rt; parts.clients.as_slice().len(), 0);
    assert_eq!(rt; parts.epochs.as_slice().len(), 0);
    assert_eq!(rt; keeper.begun(), 9);
    Ok(())
}

#[test]
fn a_row_of_each_kind_is_loaded(rt: HostRuntime) -> Result<(), Fail> {
    let mut keeper = keeper_of(rt.alloc(), &ALL)?;
    let parts = load(rt.alloc(), &mut keeper, LIMIT).ok().ok_or("refused")?;
    let ids = [
        (Kind::Media, 0, Some(1)),
        (Kind::Media, 1, Some(2)),
        (Kind::Media, 2, None),
        (Kind::Layout, 0, Some(1)),
        (Kind::Campaign, 0, Some(4)),
        (Kind::Daypart, 0, Some(9)),
        (Kind::Group, 0, Some(3)),
        (Kind::Display, 0, Some(7)),
        (Kind::Event, 0, Some(2)),
    ];
    for (kind, id, next) in ids {
        assert_eq!(rt; parts.tables.after(kind, id), next, "{kind:?} {id}");
    }
    let received = [(1, 3, true), (2, 65_536, false)];
    let media = parts.tables.rows_of(Kind::Media);
    for (entry, (id, bytes, complete)) in media.iter().zip(received) {
        assert_eq!(rt;
            (entry.received(), entry.is_complete()),
            (bytes, complete),
            "{id}"
        );
    }
    let clients = parts.clients.as_slice();
    assert_eq!(rt; clients.len(), 1);
    assert_eq!(rt;
        (clients[0].client, clients[0].last, clients[0].reply),
        (5, 4, Reply::Done(4))
    );
    let epochs = parts.epochs.as_slice();
    assert_eq!(rt; epochs.len(), 2);
    assert_eq!(rt; (epochs[0].plays, epochs[1].plays), (9, 0));
    Ok(())
}

#[test]
fn rows_of_an_older_server_are_loaded(rt: HostRuntime) -> Result<(), Fail> {
    let lines = [
        WHOLE,
        LAYOUT,
        CAMPAIGN,
        OLDER_DAYPART,
        GROUP,
        DISPLAY,
        OLDER_EVENT,
    ];
    assert_eq!(rt; fault_of(rt.alloc(), &lines)?, None);
    Ok(())
}

#[test]
fn the_first_bad_row_is_named(rt: HostRuntime) -> Result<(), Fail> {
    let cases: [(&str, &[Line], Line); 12] = [
        ("a blank", &[BLANK], BLANK),
        ("a key of another id", &[OTHER_ID], OTHER_ID),
        ("a key of another kind", &[OTHER_KIND], OTHER_KIND),
        ("a key with a second number", &[SECOND], SECOND),
        ("no medium", &[LAYOUT], LAYOUT),
        ("a medium that isn't complete", &[PART, EARLY], EARLY),
        ("no layout", &[GROUP, DISPLAY], DISPLAY),
        (
            "no daypart",
            &[WHOLE, LAYOUT, CAMPAIGN, GROUP, DISPLAY, EVENT],
            EVENT,
        ),
        ("more than all bytes", &[MORE], MORE),
        ("less than all bytes", &[LESS], LESS),
        ("no whole piece", &[HALF], HALF),
        ("another status", &[STATUS], STATUS),
    ];
    for (what, lines, bad) in cases {
        let fault = LoadFault::BadRow(key_of(bad));
        assert_eq!(rt; fault_of(rt.alloc(), lines)?, Some(fault), "{what}");
    }
    Ok(())
}

#[test]
fn an_epoch_is_bad_by_its_number_and_its_plays(rt: HostRuntime) -> Result<(), Fail> {
    let cases: [(&str, &[Line], Line); 6] = [
        ("the epoch 0", &[ZERO], ZERO),
        ("an epoch above all", &[ABOVE], ABOVE),
        ("three bytes", &[SHORT], SHORT),
        ("none before it", &[NEXT_EPOCH], NEXT_EPOCH),
        ("that of another display", &[FIRST_EPOCH, OTHER], OTHER),
        ("plays above the limit", &[FIRST_EPOCH, MANY], MANY),
    ];
    for (what, lines, bad) in cases {
        let fault = LoadFault::BadRow(key_of(bad));
        assert_eq!(rt; fault_of(rt.alloc(), lines)?, Some(fault), "{what}");
    }
    let mut keeper = keeper_of(rt.alloc(), &[FIRST_EPOCH, MANY])?;
    assert!(rt; load(rt.alloc(), &mut keeper, LIMIT + 1).is_ok());
    Ok(())
}

#[test]
fn of_two_bad_rows_the_first_by_key_is_named(rt: HostRuntime) -> Result<(), Fail> {
    let cases: [(&[Line], Line); 4] = [
        (&[STATUS, OTHER_ID], OTHER_ID),
        (&[NEXT_EPOCH, STATUS], STATUS),
        (&[OTHER_ID, LAYOUT], LAYOUT),
        (&[DISPLAY, OTHER_ID], OTHER_ID),
    ];
    for (lines, bad) in cases {
        let fault = LoadFault::BadRow(key_of(bad));
        assert_eq!(rt; fault_of(rt.alloc(), lines)?, Some(fault));
    }
    Ok(())
}

// Clients 1 to `count`.
fn with_clients(alloc: Global, count: u64) -> Result<MapKeeper, Fail> {
    let mut keeper = MapKeeper::new(alloc);
    for client in 1..=count {
        put(alloc, &mut keeper, (8, client, 0, CLIENT.3))?;
    }
    Ok(keeper)
}

#[test]
fn clients_of_more_than_one_page_are_loaded(rt: HostRuntime) -> Result<(), Fail> {
    for (count, calls) in [(255, 9), (256, 10), (257, 10), (1000, 12)] {
        let mut keeper = with_clients(rt.alloc(), count)?;
        let parts = load(rt.alloc(), &mut keeper, LIMIT).ok().ok_or("refused")?;
        assert_eq!(rt; parts.clients.as_slice().len() as u64, count);
        assert_eq!(rt; keeper.begun().saturating_sub(count), calls, "{count}");
    }
    let mut keeper = with_clients(rt.alloc(), 1002)?;
    let fault = LoadFault::BadRow(key_of((8, 1001, 0, &[])));
    assert_eq!(rt; load(rt.alloc(), &mut keeper, LIMIT).err(), Some(fault));
    Ok(())
}

#[test]
fn a_fault_of_the_keeper_ends_loading_at_each_call(rt: HostRuntime) -> Result<(), Fail> {
    let mut keeper = keeper_of(rt.alloc(), &ALL)?;
    for stop in 0..9 {
        keeper.set_stop(Some(stop));
        let fault = load(rt.alloc(), &mut keeper, LIMIT).err();
        assert_eq!(rt; fault, Some(LoadFault::Keeper), "{stop}");
        assert_eq!(rt; keeper.faults(), stop + 1);
    }
    assert!(rt; load(rt.alloc(), &mut keeper, LIMIT).is_ok());
    Ok(())
}
