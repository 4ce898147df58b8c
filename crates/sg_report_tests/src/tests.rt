//! The report of plays over a keeper in memory. The lines that are wanted were added up by hand.

use sg_base::{Key, Moment, PlayBody, Rows};
use sg_keeper::{Change, Keeper, KeeperFail, MapKeeper};
use sg_records::{play_key, write_play};
use sg_report::{KeptPlay, plays_csv};
use std::alloc::Global;
use std::test::Fail;

/// The first line of each report.
const HEAD: &str = "display,layout,count,seconds\n";

// A play of a display and an epoch, by its number, its layout and the moments.
#[derive(Clone, Copy)]
struct Play {
    display: u32,
    epoch: u32,
    number: u64,
    layout: u32,
    from: u32,
    to: u32,
}

fn play_of(display: u32, epoch: u32, number: u64, layout: u32, from: u32, to: u32) -> Play {
    Play {
        display,
        epoch,
        number,
        layout,
        from,
        to,
    }
}

fn body(layout: u32, from: u32, to: u32) -> Option<PlayBody> {
    Some(PlayBody {
        event: 9,
        layout,
        from: Moment::new(from)?,
        to: Moment::new(to)?,
    })
}

// The row of a play.
fn row(alloc: Global, play: Play) -> Result<Change, Fail> {
    let body = body(play.layout, play.from, play.to).ok_or("a moment")?;
    let key = play_key(play.display, play.epoch, play.number);
    Ok(Change::Put(key, write_play(alloc, body)?))
}

fn keep(alloc: Global, keeper: &mut MapKeeper, plays: &[Play]) -> Result<(), Fail> {
    let mut changes = Vec::new(alloc);
    for play in plays {
        changes.push(row(alloc, *play)?)?;
    }
    keeper.apply(changes.as_slice())?;
    Ok(())
}

fn keeper_of(alloc: Global, plays: &[Play]) -> Result<MapKeeper, Fail> {
    let mut keeper = MapKeeper::new(alloc);
    keep(alloc, &mut keeper, plays)?;
    Ok(keeper)
}

fn report(alloc: Global, keeper: &mut MapKeeper, from: u32, to: u32) -> Result<Vec<u8>, Fail> {
    let from = Moment::new(from).ok_or("a moment")?;
    let to = Moment::new(to).ok_or("a moment")?;
    Ok(plays_csv(alloc, keeper, from, to)?)
}

// Plays of one display, as a worked example has them.
fn worked() -> [Play; 3] {
    [
        play_of(7, 1, 1, 1, 0, 10),
        play_of(7, 1, 2, 2, 10, 20),
        play_of(7, 1, 3, 1, 20, 30),
    ]
}

// Plays of four displays, one of them in three epochs.
fn several() -> [Play; 8] {
    [
        play_of(8, 2, 1, 1, 40, 41),
        play_of(7, 1, 1, 2, 0, 10),
        play_of(7, 2, 1, 2, 5, 6),
        play_of(7, 65_535, 1, 1, 7, 9),
        play_of(8, 1, 4_294_967_295, 4_294_967_295, 3, 4),
        play_of(8, 1, 1, 1, 19, 4_102_444_799),
        play_of(4_294_967_295, 1, 1, 1, 0, 1),
        play_of(1, 1, 1, 10, 50, 52),
    ]
}

#[test]
fn plays_are_counted_by_display_and_layout(rt: HostRuntime) -> Result<(), Fail> {
    let mut keeper = keeper_of(rt.alloc(), &worked())?;
    let cases = [
        (0, 25, "7,1,2,20\n7,2,1,10\n"),
        (0, 0, ""),
        (25, 25, ""),
        (0, 20, "7,1,1,10\n7,2,1,10\n"),
        (0, 21, "7,1,2,20\n7,2,1,10\n"),
        (1, 21, "7,1,1,10\n7,2,1,10\n"),
        (20, 4_102_444_799, "7,1,1,10\n"),
        (21, 4_102_444_799, ""),
        (25, 0, ""),
    ];
    for (from, to, lines) in cases {
        let text = report(rt.alloc(), &mut keeper, from, to)?;
        let want = format!(in rt.alloc(); "{HEAD}{lines}")?;
        assert_eq!(rt; text.as_slice(), want.as_bytes(), "{from} to {to}");
    }
    Ok(())
}

#[test]
fn all_displays_and_epochs_are_counted(rt: HostRuntime) -> Result<(), Fail> {
    let mut keeper = keeper_of(rt.alloc(), &several())?;
    let text = report(rt.alloc(), &mut keeper, 0, 50)?;
    let want = format!(in rt.alloc();
        "{HEAD}7,1,1,2\n7,2,2,11\n8,1,2,4102444781\n8,4294967295,1,1\n4294967295,1,1,1\n"
    )?;
    assert_eq!(rt; text.as_slice(), want.as_bytes());
    Ok(())
}

// Plays of a second each, by turns of two layouts.
fn keep_many(alloc: Global, keeper: &mut MapKeeper, count: u32) -> Result<(), Fail> {
    let mut changes = Vec::new(alloc);
    for i in 0..count {
        let from = i / 2;
        changes.push(row(
            alloc,
            play_of(3, 1, u64::from(i) + 1, 1 + i % 2, from, from + 1),
        )?)?;
    }
    keeper.apply(changes.as_slice())?;
    Ok(())
}

// One row is put, and then the rows of the pages follow: 1,024 rows are a page.
#[test]
fn plays_of_all_pages_are_counted(rt: HostRuntime) -> Result<(), Fail> {
    let cases = [
        (1_023, "3,1,512,512\n3,2,511,511\n"),
        (1_024, "3,1,512,512\n3,2,512,512\n"),
        (1_025, "3,1,513,513\n3,2,512,512\n"),
        (2_048, "3,1,1024,1024\n3,2,1024,1024\n"),
        (2_500, "3,1,1250,1250\n3,2,1250,1250\n"),
    ];
    for (count, lines) in cases {
        let mut keeper = MapKeeper::new(rt.alloc());
        keep_many(rt.alloc(), &mut keeper, count)?;
        let text = report(rt.alloc(), &mut keeper, 0, 10_000)?;
        let want = format!(in rt.alloc(); "{HEAD}{lines}")?;
        assert_eq!(rt; text.as_slice(), want.as_bytes(), "{count} plays");
    }
    Ok(())
}

// The answer over a keeper whose call of this number fails, and how often it has failed then. 2,500 rows are put by call 0,
// and are three pages.
fn failing_at(alloc: Global, call: u64) -> Result<(bool, u64), Fail> {
    let mut keeper = MapKeeper::with_failing(alloc, Vec::from_slice(alloc, &[call])?);
    keep_many(alloc, &mut keeper, 2_500)?;
    let from = Moment::new(0).ok_or("a moment")?;
    let to = Moment::new(10_000).ok_or("a moment")?;
    let failed = match plays_csv(alloc, &mut keeper, from, to) {
        Ok(_) => false,
        Err(fail) => fail == KeeperFail::Failed,
    };
    Ok((failed, keeper.faults()))
}

#[test]
fn a_failing_call_is_told(rt: HostRuntime) -> Result<(), Fail> {
    for call in 1..4 {
        assert_eq!(rt; failing_at(rt.alloc(), call)?, (true, 1), "call {call}");
    }
    assert_eq!(rt; failing_at(rt.alloc(), 4)?, (false, 0));
    Ok(())
}

fn key(kind: u8, a: u64, b: u64) -> Key {
    Key { kind, a, b }
}

// What is read of the row of a play of the longest time.
fn read_back(alloc: Global) -> Result<Option<KeptPlay>, Fail> {
    let body = body(4_294_967_295, 0, 4_102_444_799).ok_or("a moment")?;
    let bytes = write_play(alloc, body)?;
    Ok(KeptPlay::read(play_key(7, 65_535, 4_294_967_295), bytes.as_slice()))
}

#[test]
fn a_play_is_read_back_from_its_row(rt: HostRuntime) -> Result<(), Fail> {
    let kept = read_back(rt.alloc())?.ok_or("no play")?;
    assert_eq!(rt;
        (kept.display, kept.epoch, kept.number),
        (7, 65_535, 4_294_967_295)
    );
    assert_eq!(rt; Some(kept.play), body(4_294_967_295, 0, 4_102_444_799));
    Ok(())
}

// The bytes of a play of a second.
const SECOND: [u8; 16] = [9, 0, 0, 0, 1, 0, 0, 0, 0, 0, 0, 0, 1, 0, 0, 0];

#[test]
fn a_key_of_no_play_has_none(rt: HostRuntime) -> Result<(), Fail> {
    assert!(rt; KeptPlay::read(key(10, 1, 1), &SECOND).is_some());
    let keys = [
        key(10, 1, 0),
        key(10, 1, 4_294_967_296),
        key(9, 1, 1),
        key(11, 1, 1),
    ];
    for key in keys {
        assert!(rt; KeptPlay::read(key, &SECOND).is_none(), "{key:?}");
    }
    Ok(())
}

#[test]
fn bytes_of_no_play_have_none(rt: HostRuntime) -> Result<(), Fail> {
    let fields: [[u8; 16]; 4] = [
        [0, 0, 0, 0, 0, 0, 0, 0, 0, 0, 0, 0, 1, 0, 0, 0],
        [0, 0, 0, 0, 1, 0, 0, 0, 1, 0, 0, 0, 1, 0, 0, 0],
        [0, 0, 0, 0, 1, 0, 0, 0, 2, 0, 0, 0, 1, 0, 0, 0],
        [0, 0, 0, 0, 1, 0, 0, 0, 0, 0, 0, 0, 255, 255, 255, 255],
    ];
    for field in fields {
        assert!(rt;
            KeptPlay::read(key(10, 1, 1), &field).is_none(),
            "{field:?}"
        );
    }
    assert!(rt; KeptPlay::read(key(10, 1, 1), &SECOND[..15]).is_none());
    let longer = [9, 0, 0, 0, 1, 0, 0, 0, 0, 0, 0, 0, 1, 0, 0, 0, 0];
    assert!(rt; KeptPlay::read(key(10, 1, 1), &longer).is_none());
    assert!(rt; KeptPlay::read(key(10, 1, 1), &[]).is_none());
    Ok(())
}

#[test]
fn a_row_of_no_play_counts_for_nothing(rt: HostRuntime) -> Result<(), Fail> {
    let alloc = rt.alloc();
    let mut keeper = keeper_of(alloc, &worked())?;
    let changes = [
        Change::Put(key(10, 1, 0), Rows::from_vec(Vec::new(alloc))),
        Change::Put(
            play_key(7, 1, 2),
            Rows::from_vec(Vec::from_slice(alloc, &[1])?),
        ),
        Change::Put(key(11, 0, 0), Rows::from_vec(Vec::new(alloc))),
    ];
    keeper.apply(&changes)?;
    let text = report(alloc, &mut keeper, 0, 25)?;
    let want = format!(in alloc; "{HEAD}7,1,2,20\n")?;
    assert_eq!(rt; text.as_slice(), want.as_bytes());
    Ok(())
}
