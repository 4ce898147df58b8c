//! Edits, pieces, epochs and plays over a keeper in memory, with servers that are loaded again. The replies are those that
//! the rules give, worked by hand; the digests are those of `md5sum`.

use serde_json::Value;
use sg_base::limits::PLAYS_LIMIT;
use sg_base::{DisplayId, Key, Kind, MediaId, Moment, PlayBody, Rows};
use sg_edits::{Cms, PieceReply, Settings};
use sg_keeper::{Change, Keeper, MapKeeper};
use sg_loading::LoadFault;
use sg_records::{FaultName, Reply};
use sg_steps::{CmsFault, EnrolReply, PlaysReply, read_edit};
use std::alloc::Global;
use std::test::Fail;

// An edit's number, the edit and its reply.
type Sent = (u32, &'static str, Reply);

// What an edit is answered, if nothing fails.
type Answer = Result<Reply, CmsFault>;

// A piece of medium 1: its offset, its bytes and the reply.
type Piece<'a> = (u32, &'a [u8], PieceReply);

const GROUP: &str = r#"{"op":"insert","kind":"group","row":{"id":3}}"#;

const NEXT_GROUP: &str = r#"{"op":"insert","kind":"group","row":{"id":4}}"#;

const MEDIUM: &str =
    r#"{"op":"insert","kind":"media","row":{"id":1,"length":3,"md5":"900150983cd24fb0d6963f7d28e17f72"}}"#;

const LAYOUT: &str =
    r#"{"op":"insert","kind":"layout","row":{"id":7,"regions":[{"id":1,"items":[{"media":1,"seconds":10}]}]}}"#;

const OTHER_LAYOUT: &str =
    r#"{"op":"insert","kind":"layout","row":{"id":8,"regions":[{"id":1,"items":[{"media":99,"seconds":10}]}]}}"#;

const DISPLAY: &str =
    r#"{"op":"insert","kind":"display","row":{"default":7,"groups":[],"id":7,"key":"k","zone":{"offset":0}}}"#;

const OVERLAY: &str =
    r#"{"op":"insert","kind":"event","row":{"displays":[7],"groups":[],"id":2,"layer":1,"order":0,"priority":0,"repeat":null,"share":1,"target":{"layout":7},"when":{"always":true}}}"#;

const NO_MEDIUM: Reply = Reply::Unknown {
    kind: Kind::Media,
    id: 99,
};

const GROUP_EXISTS: Reply = Reply::Exists {
    kind: Kind::Group,
    id: 3,
};

const NO_GROUP: Reply = Reply::Unknown {
    kind: Kind::Group,
    id: 3,
};

const LAYOUT_EXISTS: Reply = Reply::Exists {
    kind: Kind::Layout,
    id: 7,
};

const MEDIUM_IN_USE: Reply = Reply::InUse {
    kind: Kind::Media,
    id: 1,
    by_kind: Kind::Layout,
    by_id: 7,
};

const SHAPE: Reply = Reply::Invalid(FaultName::Shape);

// A server with its keeper. Its calls promise nothing, so the tests are proved without what the server's contracts say.
#[derive(Drop)]
struct Desk {
    alloc: Global,
    settings: Settings,
    cms: Cms,
    keeper: MapKeeper,
}

impl Desk {
    // Without rows, over a keeper that has none.
    fn new(alloc: Global, settings: Settings) -> Desk {
        Desk {
            alloc,
            settings,
            cms: Cms::new(alloc, settings),
            keeper: MapKeeper::new(alloc),
        }
    }

    // Loads the server again.
    fn load(&mut self) -> Result<(), Fail> {
        let loaded = Cms::load(self.alloc, &mut self.keeper, self.settings);
        self.cms = loaded.ok().ok_or("not loaded")?;
        Ok(())
    }

    // What a client is answered to an edit of this number.
    fn edit(&mut self, client: u32, seq: u32, text: &str) -> Result<Answer, Fail> {
        let value = Value::from_str(self.alloc, text)?;
        let edit = read_edit(self.alloc, &value)?;
        Ok(self.cms.edit(&mut self.keeper, client, seq, &edit))
    }

    fn piece(&mut self, offset: u32, bytes: &[u8]) -> Result<PieceReply, CmsFault> {
        self.cms
            .put_piece(&mut self.keeper, MediaId(1), offset, bytes)
    }

    fn enrol(&mut self, display: u32) -> Result<EnrolReply, CmsFault> {
        self.cms.enrol(&mut self.keeper, DisplayId(display))
    }

    // Some plays of an epoch of display 7, at most five.
    fn plays(
        &mut self,
        epoch: u32,
        first: u32,
        count: usize,
    ) -> Result<Result<PlaysReply, CmsFault>, Fail> {
        let play = PlayBody {
            event: 0,
            layout: 1,
            from: Moment::new(0).ok_or("from")?,
            to: Moment::new(10).ok_or("to")?,
        };
        let plays = [play; 5];
        let list = &plays[..count.min(5)];
        Ok(
            self.cms
                .plays(&mut self.keeper, DisplayId(7), epoch, first, list),
        )
    }

    // The keeper's next call fails.
    fn stop(&mut self) {
        self.keeper.set_stop(Some(0));
    }

    // Whether a kind's rows are one row of this text.
    fn has_row(&mut self, kind: u8, text: &[u8]) -> Result<bool, Fail> {
        let rows = self.keeper.list(kind, None, 9)?;
        Ok(rows.len() == 1 && rows[0].1.as_slice() == text)
    }

    // How many rows of a kind there are, up to nine.
    fn count(&mut self, kind: u8) -> Result<usize, Fail> {
        Ok(self.keeper.list(kind, None, 9)?.len())
    }

    // Puts a row into the keeper, and not into the server.
    fn put(&mut self, key: Key, text: &[u8]) -> Result<(), Fail> {
        let bytes = Rows::from_vec(Vec::from_slice(self.alloc, text)?);
        self.keeper.apply(&[Change::Put(key, bytes)])?;
        Ok(())
    }

    // Why the server isn't loaded.
    fn fault(&mut self) -> Option<LoadFault> {
        Cms::load(self.alloc, &mut self.keeper, self.settings).err()
    }
}

const SETTINGS: Settings = Settings {
    plays_limit: PLAYS_LIMIT,
};

// Whether client 1 is answered so to each of its edits.
fn are_answered(desk: &mut Desk, sent: &[Sent]) -> Result<bool, Fail> {
    for (seq, text, reply) in sent {
        if desk.edit(1, *seq, text)? != Ok(*reply) {
            return Ok(false);
        }
    }
    Ok(true)
}

// ---- numbers of clients

const NUMBERS: [Sent; 5] = [
    (1, GROUP, Reply::Done(1)),
    (1, GROUP, Reply::Done(1)),
    (3, GROUP, Reply::Sequence { expected: 2 }),
    (2, GROUP, GROUP_EXISTS),
    (2, MEDIUM, GROUP_EXISTS),
];

const LATER: [Sent; 3] = [
    (2, NEXT_GROUP, GROUP_EXISTS),
    (3, NEXT_GROUP, Reply::Done(3)),
    (
        4,
        r#"{"op":"remove","kind":"group","id":4}"#,
        Reply::Done(4),
    ),
];

// Each edit that is executed is one call of the keeper.
fn numbers_go_on(desk: &mut Desk) -> Result<bool, Fail> {
    let before = desk.cms.expected(1) == 1 && are_answered(desk, &NUMBERS)?;
    let calls = desk.keeper.begun();
    desk.load()?;
    let after = desk.cms.expected(1) == 3 && are_answered(desk, &LATER)?;
    Ok(before && calls == 2 && after && desk.has_row(5, br#"{"id":3}"#)?)
}

#[test]
fn a_number_is_executed_once(rt: HostRuntime) -> Result<(), Fail> {
    let mut desk = Desk::new(rt.alloc(), SETTINGS);
    assert!(rt; numbers_go_on(&mut desk)?);
    Ok(())
}

const CLIENT: Key = Key {
    kind: 8,
    a: 1,
    b: 0,
};

const LAST: [Sent; 3] = [
    (u32::MAX, GROUP, Reply::Done(u32::MAX)),
    (u32::MAX, MEDIUM, Reply::Done(u32::MAX)),
    (1, GROUP, Reply::Sequence { expected: 0 }),
];

fn numbers_end(desk: &mut Desk) -> Result<bool, Fail> {
    desk.put(
        CLIENT,
        br#"{"last":4294967294,"reply":{"done":1},"status":200}"#,
    )?;
    let bad = desk.fault() == Some(LoadFault::BadRow(CLIENT));
    desk.put(
        CLIENT,
        br#"{"last":4294967294,"reply":{"done":4294967294},"status":200}"#,
    )?;
    desk.load()?;
    let last = desk.cms.expected(1) == u32::MAX && are_answered(desk, &LAST)?;
    Ok(bad && last && desk.cms.expected(1) == 0)
}

#[test]
fn a_client_uses_up_its_numbers(rt: HostRuntime) -> Result<(), Fail> {
    let mut desk = Desk::new(rt.alloc(), SETTINGS);
    assert!(rt; numbers_end(&mut desk)?);
    Ok(())
}

// Whether clients from 1 on, so many, are each answered so to their first edit, which removes a group that isn't there.
fn all_unknown(desk: &mut Desk, count: u32) -> Result<bool, Fail> {
    for client in 1..=count {
        let reply = desk.edit(client, 1, r#"{"op":"remove","kind":"group","id":3}"#)?;
        if reply != Ok(NO_GROUP) {
            return Ok(false);
        }
    }
    Ok(true)
}

const FULL_OF_CLIENTS: Reply = Reply::Full {
    kind: Kind::Client,
    limit: 1_000,
};

// The refusal of one client too many isn't kept, and makes no call.
fn clients_end(desk: &mut Desk) -> Result<bool, Fail> {
    let all = all_unknown(desk, 1_000)? && desk.edit(1_001, 1, GROUP)? == Ok(FULL_OF_CLIENTS);
    let unkept = desk.edit(1_001, 2, GROUP)? == Ok(Reply::Sequence { expected: 1 });
    Ok(all && unkept && desk.keeper.begun() == 1_000)
}

#[test]
fn one_client_too_many_is_refused(rt: HostRuntime) -> Result<(), Fail> {
    let mut desk = Desk::new(rt.alloc(), SETTINGS);
    assert!(rt; clients_end(&mut desk)?);
    Ok(())
}

// ---- rows

const SHOWN: [Sent; 2] = [(2, LAYOUT, Reply::Done(2)), (3, DISPLAY, Reply::Done(3))];

// Medium 1 comes whole, then layout 7, which shows it, and display 7.
fn show(desk: &mut Desk) -> Result<bool, Fail> {
    let done = desk.edit(1, 1, MEDIUM)? == Ok(Reply::Done(1))
        && desk.piece(0, b"abc") == Ok(COMPLETE);
    Ok(done && are_answered(desk, &SHOWN)?)
}

const REFUSED: [Sent; 12] = [
    (4, r#"{"op":"remove","kind":"media","id":1}"#, MEDIUM_IN_USE),
    (5, OTHER_LAYOUT, NO_MEDIUM),
    (5, GROUP, NO_MEDIUM),
    (
        6,
        r#"{"op":"insert","kind":"layout","row":{"id":7,"regions":[]}}"#,
        Reply::Invalid(FaultName::Layout),
    ),
    (
        7,
        r#"{"op":"insert","kind":"layout","row":{"id":7,"regions":[{"id":1,"items":[{"media":99,"seconds":10}]}]}}"#,
        LAYOUT_EXISTS,
    ),
    (8, OVERLAY, Reply::Invalid(FaultName::Event)),
    (9, r#"{"op":"move","kind":"group","id":3}"#, SHAPE),
    (9, GROUP, SHAPE),
    (
        10,
        r#"{"op":"insert","kind":"media","row":{"id":2,"length":3,"md5":"900150983cd24fb0d6963f7d28e17f72"}}"#,
        Reply::Done(10),
    ),
    (
        11,
        r#"{"op":"insert","kind":"layout","row":{"id":8,"regions":[{"id":1,"items":[{"media":2,"seconds":10}]}]}}"#,
        Reply::Invalid(FaultName::Incomplete),
    ),
    (
        12,
        r#"{"op":"replace","kind":"media","row":{"id":2,"length":3,"md5":"900150983cd24fb0d6963f7d28e17f72"}}"#,
        Reply::Invalid(FaultName::NoReplace),
    ),
    (
        13,
        r#"{"op":"replace","kind":"layout","row":{"id":7,"regions":[{"id":1,"items":[{"media":1,"seconds":20}]}]}}"#,
        Reply::Done(13),
    ),
];

const REMOVED: [Sent; 3] = [
    (
        14,
        r#"{"op":"remove","kind":"display","id":7}"#,
        Reply::Done(14),
    ),
    (
        15,
        r#"{"op":"remove","kind":"layout","id":7}"#,
        Reply::Done(15),
    ),
    (
        16,
        r#"{"op":"remove","kind":"media","id":1}"#,
        Reply::Done(16),
    ),
];

// A medium goes with its pieces.
fn refusals_are_kept(desk: &mut Desk) -> Result<bool, Fail> {
    let kept = show(desk)? && are_answered(desk, &REFUSED)?;
    desk.load()?;
    Ok(kept && are_answered(desk, &REMOVED)? && desk.count(11)? == 0)
}

#[test]
fn refusals_come_in_the_order_of_the_rules_and_are_kept(rt: HostRuntime) -> Result<(), Fail> {
    let mut desk = Desk::new(rt.alloc(), SETTINGS);
    assert!(rt; refusals_are_kept(&mut desk)?);
    Ok(())
}

// A kind, the most rows that it may have, and the text of an insert before the row's id and after it.
type Limited = (Kind, u32, &'static str, &'static str);

const MEDIA: Limited = (
    Kind::Media,
    2_000,
    r#"{"op":"insert","kind":"media","row":{"length":3,"md5":"900150983cd24fb0d6963f7d28e17f72","id":"#,
    "}}",
);

const OTHERS: [Limited; 6] = [
    (
        Kind::Layout,
        2_000,
        r#"{"op":"insert","kind":"layout","row":{"regions":[{"id":1,"items":[{"media":1,"seconds":10}]}],"id":"#,
        "}}",
    ),
    (
        Kind::Campaign,
        500,
        r#"{"op":"insert","kind":"campaign","row":{"layouts":[1],"id":"#,
        "}}",
    ),
    (
        Kind::Daypart,
        200,
        r#"{"op":"insert","kind":"daypart","row":{"dates":[],"end":0,"exceptions":[],"start":28800,"id":"#,
        "}}",
    ),
    (
        Kind::Group,
        500,
        r#"{"op":"insert","kind":"group","row":{"id":"#,
        "}}",
    ),
    (
        Kind::Display,
        2_000,
        r#"{"op":"insert","kind":"display","row":{"default":1,"groups":[],"key":"k","zone":{"offset":0},"id":"#,
        "}}",
    ),
    (
        Kind::Event,
        5_000,
        r#"{"op":"insert","kind":"event","row":{"displays":[1],"groups":[],"layer":0,"order":0,"priority":0,"repeat":null,"share":0,"target":{"layout":1},"when":{"always":true},"id":"#,
        "}}",
    ),
];

// Whether so many rows of a kind come in, with the ids from 1 on, and the next one is refused, since that is the limit.
fn is_full_at(desk: &mut Desk, rows: Limited) -> Result<bool, Fail> {
    let (kind, limit, front, back) = rows;
    for id in 1..6_000u32 {
        let text = format!(in desk.alloc; "{front}{id}{back}")?;
        let seq = desk.cms.expected(1);
        let reply = desk.edit(1, seq, text.as_str())?;
        if reply != Ok(Reply::Done(seq)) {
            return Ok(id - 1 == limit && reply == Ok(Reply::Full { kind, limit }));
        }
    }
    Ok(false)
}

fn all_are_full(desk: &mut Desk) -> Result<bool, Fail> {
    let mut full = is_full_at(desk, MEDIA)? && desk.piece(0, b"abc") == Ok(COMPLETE);
    for rows in OTHERS {
        full = full && is_full_at(desk, rows)?;
    }
    Ok(full)
}

#[test]
fn each_kind_has_its_limit(rt: HostRuntime) -> Result<(), Fail> {
    let mut desk = Desk::new(rt.alloc(), SETTINGS);
    assert!(rt; all_are_full(&mut desk)?);
    Ok(())
}

// The most bytes of a medium; those of all media together are 536,870,912.
const MOST: u32 = 67_108_864;

const FULL_OF_BYTES: Reply = Reply::Full {
    kind: Kind::Media,
    limit: 536_870_912,
};

// The lengths of media 1 to 11, and what is answered to each.
const LENGTHS: [(u32, Reply); 11] = [
    (MOST, Reply::Done(1)),
    (MOST, Reply::Done(2)),
    (MOST, Reply::Done(3)),
    (MOST, Reply::Done(4)),
    (MOST, Reply::Done(5)),
    (MOST, Reply::Done(6)),
    (MOST, Reply::Done(7)),
    (MOST - 1, Reply::Done(8)),
    (2, FULL_OF_BYTES),
    (1, Reply::Done(10)),
    (1, FULL_OF_BYTES),
];

fn bytes_end(desk: &mut Desk) -> Result<bool, Fail> {
    for (length, reply) in LENGTHS {
        let seq = desk.cms.expected(1);
        let text = format!(in desk.alloc;
            r#"{{"op":"insert","kind":"media","row":{{"id":{seq},"length":{length},"md5":"900150983cd24fb0d6963f7d28e17f72"}}}}"#
        )?;
        if desk.edit(1, seq, text.as_str())? != Ok(reply) {
            return Ok(false);
        }
    }
    Ok(true)
}

#[test]
fn the_bytes_of_all_media_have_their_limit(rt: HostRuntime) -> Result<(), Fail> {
    let mut desk = Desk::new(rt.alloc(), SETTINGS);
    assert!(rt; bytes_end(&mut desk)?);
    Ok(())
}

// ---- a keeper that fails

// Whether the keeper fails an edit, which is told.
fn fails(desk: &mut Desk, text: &str) -> Result<bool, Fail> {
    desk.stop();
    Ok(desk.edit(1, 1, text)? == Err(CmsFault::Keeper))
}

fn goes_on_after_faults(desk: &mut Desk) -> Result<bool, Fail> {
    let failed = fails(desk, GROUP)? && fails(desk, OTHER_LAYOUT)?;
    Ok(failed && desk.keeper.faults() == 2 && are_answered(desk, &NUMBERS)?)
}

#[test]
fn a_fault_of_the_keeper_changes_nothing(rt: HostRuntime) -> Result<(), Fail> {
    let mut desk = Desk::new(rt.alloc(), SETTINGS);
    assert!(rt; goes_on_after_faults(&mut desk)?);
    Ok(())
}

// ---- media

// Whether each piece of medium 1 is answered so.
fn are_put(desk: &mut Desk, pieces: &[Piece<'_>]) -> bool {
    for (offset, bytes, reply) in pieces {
        if desk.piece(*offset, bytes) != Ok(*reply) {
            return false;
        }
    }
    true
}

const COMPLETE: PieceReply = PieceReply::Complete(MediaId(1));

// By `printf abd | md5sum`.
const ABD: PieceReply = PieceReply::DigestDiffers {
    found: [
        0x49, 0x11, 0xe5, 0x16, 0xe5, 0xaa, 0x21, 0xd3, 0x27, 0x51, 0x2e, 0x0c, 0x8b, 0x19, 0x76,
        0x16,
    ],
};

const ABC: [Piece<'static>; 8] = [
    (0, b"abd", ABD),
    (3, b"abc", PieceReply::PieceOrder { expected: 0 }),
    (0, b"ab", PieceReply::PieceLength { expected: 3 }),
    (0, b"abcd", PieceReply::PieceLength { expected: 3 }),
    (0, b"abc", COMPLETE),
    (0, b"abc", COMPLETE),
    (0, b"abd", PieceReply::PieceOrder { expected: 3 }),
    (3, b"", PieceReply::PieceOrder { expected: 3 }),
];

const WHOLE: &[u8] =
    br#"{"complete":true,"id":1,"length":3,"md5":"900150983cd24fb0d6963f7d28e17f72","received":3}"#;

fn comes_whole(desk: &mut Desk) -> Result<bool, Fail> {
    let unknown = desk.piece(0, b"abc") == Ok(PieceReply::Unknown(MediaId(1)));
    let done = desk.edit(1, 1, MEDIUM)? == Ok(Reply::Done(1));
    desk.stop();
    let stopped = desk.piece(0, b"abc") == Err(CmsFault::Keeper) && are_put(desk, &ABC);
    Ok(unknown && done && stopped && desk.has_row(11, b"abc")? && desk.has_row(1, WHOLE)?)
}

#[test]
fn a_medium_comes_whole(rt: HostRuntime) -> Result<(), Fail> {
    let mut desk = Desk::new(rt.alloc(), SETTINGS);
    assert!(rt; comes_whole(&mut desk)?);
    Ok(())
}

// Medium 1 of 70,000 zeros, by `head -c 70000 /dev/zero | md5sum`.
const ZEROS: &str =
    r#"{"op":"insert","kind":"media","row":{"id":1,"length":70000,"md5":"874410694fa6ef97accb67ea8decd9ca"}}"#;

const HELD: PieceReply = PieceReply::Held(65_536);

const LATE: PieceReply = PieceReply::PieceOrder { expected: 65_536 };

const REST: PieceReply = PieceReply::PieceLength { expected: 4_464 };

// Whether the second of two pieces differs, so that none is held.
fn differs(desk: &mut Desk, first: &[u8], last: &[u8]) -> Result<bool, Fail> {
    let held = desk.piece(0, first) == Ok(HELD);
    let differs = matches!(
        desk.piece(65_536, last),
        Ok(PieceReply::DigestDiffers { .. })
    );
    Ok(held && differs && desk.count(11)? == 0)
}

// Whether 70,000 bytes come in two pieces: each again, out of order, too long, and with a reload between.
fn come_in_pieces(desk: &mut Desk, first: &[u8], last: &[u8]) -> Result<bool, Fail> {
    let held = [
        (0, first, HELD),
        (0, first, HELD),
        (0, last, LATE),
        (1, first, LATE),
        (65_536, first, REST),
    ];
    let rest = [
        (0, first, HELD),
        (65_536, last, COMPLETE),
        (0, first, COMPLETE),
    ];
    let came = are_put(desk, &held);
    desk.load()?;
    Ok(came && are_put(desk, &rest))
}

fn pieces_come(desk: &mut Desk) -> Result<bool, Fail> {
    let zeros = vec![in desk.alloc; 0u8; 65_536]?;
    let ones = vec![in desk.alloc; 1u8; 4_464]?;
    let (last, _) = zeros.as_slice().split_at(4_464);
    let done = desk.edit(1, 1, ZEROS)? == Ok(Reply::Done(1));
    let differs = differs(desk, zeros.as_slice(), ones.as_slice())?;
    Ok(done && differs && come_in_pieces(desk, zeros.as_slice(), last)?)
}

#[test]
fn a_medium_comes_in_pieces(rt: HostRuntime) -> Result<(), Fail> {
    let mut desk = Desk::new(rt.alloc(), SETTINGS);
    assert!(rt; pieces_come(&mut desk)?);
    Ok(())
}

// ---- displays

// Whether display 7 is given the epochs from one to before another.
fn are_given(desk: &mut Desk, start: u32, end: u32) -> bool {
    for epoch in start..end {
        if desk.enrol(7) != Ok(EnrolReply::Epoch(epoch)) {
            return false;
        }
    }
    true
}

fn all_are_given(desk: &mut Desk) -> Result<bool, Fail> {
    let first = show(desk)? && are_given(desk, 1, 3);
    desk.load()?;
    desk.stop();
    let stopped = desk.enrol(7) == Err(CmsFault::Keeper);
    let all = are_given(desk, 3, 65_536) && desk.enrol(7) == Ok(EnrolReply::EpochsSpent);
    let unknown = desk.enrol(8) == Ok(EnrolReply::Unknown(DisplayId(8)));
    let last = desk.cms.epoch_after(7, 65_534) == Some((7, 65_535, 0));
    Ok(first && stopped && all && unknown && last)
}

#[test]
fn an_epoch_is_given_once(rt: HostRuntime) -> Result<(), Fail> {
    let mut desk = Desk::new(rt.alloc(), SETTINGS);
    assert!(rt; all_are_given(&mut desk)?);
    Ok(())
}

// An epoch, the first number of a batch, how many plays it has, and the answer. The server is loaded again after each.
const BATCHES: [(u32, u32, usize, PlaysReply); 7] = [
    (1, 1, 3, PlaysReply::Next(4)),
    (1, 1, 3, PlaysReply::Next(4)),
    (1, 1, 5, PlaysReply::Next(6)),
    (1, 7, 1, PlaysReply::Gap { next: 6 }),
    (9, 1, 1, PlaysReply::NoEpoch),
    (1, 6, 1, PlaysReply::PlaysFull { limit: 5 }),
    (1, 5, 1, PlaysReply::Next(6)),
];

fn batches_are_taken(desk: &mut Desk) -> Result<bool, Fail> {
    let mut taken = show(desk)? && are_given(desk, 1, 2);
    desk.stop();
    taken = taken && desk.plays(1, 1, 3)? == Err(CmsFault::Keeper);
    for (epoch, first, count, reply) in BATCHES {
        taken = taken && desk.plays(epoch, first, count)? == Ok(reply);
        desk.load()?;
    }
    Ok(taken && desk.count(10)? == 5 && desk.cms.epoch_after(0, 0) == Some((7, 1, 5)))
}

#[test]
fn a_play_is_taken_once(rt: HostRuntime) -> Result<(), Fail> {
    let mut desk = Desk::new(rt.alloc(), Settings { plays_limit: 5 });
    assert!(rt; batches_are_taken(&mut desk)?);
    Ok(())
}
