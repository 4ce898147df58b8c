//! What a store shows after steps, and how many calls of the disk they make.

use crate::bench::{Bench, disk_after, fresh};
use crate::steps::{Ask, File, Shown, Step, Told, shown_by};
use sg_disk::MemDisk;
use sg_store::NoSpace;
use std::alloc::Global;
use std::test::Fail;

/// What the store of a disk shows after steps, and how many calls of the disk have begun then.
pub(crate) fn outcome(alloc: Global, disk: MemDisk, steps: &[Step]) -> Result<(Shown, u64), Fail> {
    let mut bench = Bench::open(alloc, disk)?;
    bench.make_steps(alloc, steps)?;
    Ok((shown_by(&bench.store), bench.disk.begun()))
}

/// What the store of a disk answers after steps.
pub(crate) fn told(alloc: Global, disk: MemDisk, steps: &[Step], ask: &Ask) -> Result<Told, Fail> {
    let mut bench = Bench::open(alloc, disk)?;
    bench.make_steps(alloc, steps)?;
    bench.tell(alloc, ask)
}

/// The bytes of a disk with a new store, after steps.
pub(crate) fn bytes_after(alloc: Global, steps: &[Step]) -> Result<Vec<u8>, Fail> {
    let disk = disk_after(alloc, fresh(alloc)?, steps)?;
    Ok(disk.bytes().to_vec(alloc)?)
}

const FILE: File = File { media: 5, count: 7 };

pub(crate) const ONE: File = File { media: 1, count: 3 };

pub(crate) const TWO: File = File { media: 2, count: 4 };

// A file of the same length.
const OTHER: File = File { media: 6, count: 4 };

// A file is staged in three pieces.
const STAGED: [Step; 1] = [Step::Stage(FILE, 3)];

const KEPT: [Step; 2] = [Step::Stage(FILE, 3), Step::Keep(&[FILE])];

const SWITCHED: [Step; 2] = [Step::Stage(FILE, 3), Step::Switch(b"text", &[FILE])];

const SWITCHED_TWICE: [Step; 3] = [
    Step::Stage(FILE, 3),
    Step::Switch(b"text", &[FILE]),
    Step::Switch(b"next!", &[FILE]),
];

pub(crate) const NONE: Shown = Shown {
    number: 0,
    text: 0,
    files: 0,
    media: None,
    full: false,
};

pub(crate) const FIRST: Shown = Shown {
    number: 1,
    text: 4,
    files: 1,
    media: Some(5),
    full: false,
};

const SECOND: Shown = Shown {
    number: 2,
    text: 5,
    ..FIRST
};

// How many calls a `format` makes: 265. An opening: a sync, the length, the header, two slots. One call for each piece, none
// to begin, to seal and to keep. Eight for a switch.
const OUTCOMES: [(&[Step], Shown, u64); 5] = [
    (&[], NONE, 270),
    (&STAGED, NONE, 273),
    (&KEPT, NONE, 273),
    (&SWITCHED, FIRST, 281),
    (&SWITCHED_TWICE, SECOND, 289),
];

#[test]
fn each_step_makes_its_calls(rt: HostRuntime) -> Result<(), Fail> {
    let alloc = rt.alloc();
    for (steps, shown, calls) in OUTCOMES {
        assert_eq!(rt; outcome(alloc, fresh(alloc)?, steps)?, (shown, calls));
    }
    Ok(())
}

// An opening that finds two open slots reads two tables besides.
#[test]
fn an_opening_shows_the_last_switch(rt: HostRuntime) -> Result<(), Fail> {
    let alloc = rt.alloc();
    let disk = disk_after(alloc, fresh(alloc)?, &SWITCHED_TWICE)?;
    assert_eq!(rt; outcome(alloc, disk, &[])?, (SECOND, 296));
    Ok(())
}

const A: File = File {
    media: 1,
    count: 20_000,
};

const B: File = File {
    media: 2,
    count: 20_000,
};

const C: File = File {
    media: 3,
    count: 20_000,
};

const LONG: File = File {
    media: 4,
    count: 70_000,
};

const NEW: File = File {
    media: 5,
    count: 20_000,
};

// The data area of 131,072 bytes with four files: 1,072 bytes are left.
const FOUR: [Step; 4] = [
    Step::Stage(A, 7_001),
    Step::Stage(B, 7_001),
    Step::Stage(C, 7_001),
    Step::Stage(LONG, 65_536),
];

// Gaps of 20,000 bytes at the front, 20,000 between, and 1,072 at the end.
const GAPS: [Step; 5] = [
    Step::Stage(A, 7_001),
    Step::Stage(B, 7_001),
    Step::Stage(C, 7_001),
    Step::Stage(LONG, 65_536),
    Step::Keep(&[B, LONG]),
];

// A file in the gap at the front, and a switch.
const FILLED: [Step; 7] = [
    Step::Stage(A, 7_001),
    Step::Stage(B, 7_001),
    Step::Stage(C, 7_001),
    Step::Stage(LONG, 65_536),
    Step::Keep(&[B, LONG]),
    Step::Stage(NEW, 1),
    Step::Switch(b"t", &[B, LONG, NEW]),
];

const ONCE_MORE: [Step; 2] = [Step::Switch(b"once", &[]), Step::Switch(b"more", &[])];

// The manifest stands in the two slots in turn. Files read back at any offset.
const READS: [(&[Step], Ask, Told); 8] = [
    (&[], Ask::Made, Told::Made(7, 3, 131_072)),
    (&SWITCHED, Ask::Text, Told::Text(*b"text", 24_576)),
    (&ONCE_MORE, Ask::Text, Told::Text(*b"more", 1_093_632)),
    (&SWITCHED, Ask::Bytes(5, 2), Told::Bytes([5, 5])),
    (&SWITCHED, Ask::Bytes(5, 5), Told::Bytes([5, 200])),
    (&FILLED, Ask::Bytes(5, 19_998), Told::Bytes([5, 200])),
    (&FILLED, Ask::Bytes(2, 0), Told::Bytes([2, 2])),
    (&FILLED, Ask::Bytes(4, 69_998), Told::Bytes([4, 200])),
];

const NO_GAP: Told = Told::Room(Some(NoSpace {
    need: 1_073,
    largest: 1_072,
}));

const SHORT_GAPS: Told = Told::Room(Some(NoSpace {
    need: 20_001,
    largest: 20_000,
}));

// A file takes a gap that fits, and is held where its own bytes came.
const STAGES: [(&[Step], Ask, Told); 10] = [
    (&FOUR, Ask::Room(1_073), NO_GAP),
    (&FOUR, Ask::Room(1_072), Told::Room(None)),
    (&GAPS, Ask::Room(20_001), SHORT_GAPS),
    (&GAPS, Ask::Room(20_000), Told::Room(None)),
    (&FILLED, Ask::Room(20_001), SHORT_GAPS),
    (&[Step::Stage(TWO, 1)], Ask::Held(TWO), Told::Held(true)),
    (
        &[Step::Mistake(TWO, OTHER)],
        Ask::Held(TWO),
        Told::Held(false),
    ),
    (
        &[Step::Mistake(TWO, OTHER), Step::Stage(TWO, 4)],
        Ask::Held(TWO),
        Told::Held(true),
    ),
    (
        &[Step::Stage(TWO, 1), Step::Keep(&[ONE])],
        Ask::Held(TWO),
        Told::Held(false),
    ),
    (&[Step::Begin(TWO)], Ask::Come, Told::Come(Some(2))),
];

#[test]
fn a_snapshot_reads_back(rt: HostRuntime) -> Result<(), Fail> {
    let alloc = rt.alloc();
    for (steps, ask, answer) in READS {
        assert_eq!(rt; told(alloc, fresh(alloc)?, steps, &ask)?, answer);
    }
    Ok(())
}

#[test]
fn files_are_staged_where_there_is_room(rt: HostRuntime) -> Result<(), Fail> {
    let alloc = rt.alloc();
    for (steps, ask, answer) in STAGES {
        assert_eq!(rt; told(alloc, fresh(alloc)?, steps, &ask)?, answer);
    }
    Ok(())
}
