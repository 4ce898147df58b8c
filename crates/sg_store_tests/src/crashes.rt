//! A crash in a switch.

use crate::bench::{Bench, fresh};
use crate::outcomes::{FIRST, NONE, ONE, TWO};
use crate::steps::{ROOM, Shown, Step, Unmet, listed, shown_by};
use sg_disk::{Fuse, MemDisk, Pick};
use sg_store::{Format, OpenFault, Store, format};
use std::alloc::Global;
use std::test::Fail;

// The images that a crash is tried with.
const PICKS: [Pick; 5] = [
    Pick::Nothing,
    Pick::All,
    Pick::Byte(0),
    Pick::Byte(1),
    Pick::Byte(255),
];

// A store before its first switch, and one before its second. The next file is staged in both.
const UNSWITCHED: [Step; 1] = [Step::Stage(TWO, 3)];

const SWITCHED: [Step; 3] = [
    Step::Stage(ONE, 2),
    Step::Switch(b"text", &[ONE]),
    Step::Stage(TWO, 3),
];

// What an image of the disk shows.
fn image_shows(alloc: Global, disk: &MemDisk, pick: Pick) -> Result<Shown, Fail> {
    let mut image = MemDisk::new(alloc, disk.image(pick)?)?;
    let store = Store::open(alloc, &mut image)?;
    Ok(shown_by(&store))
}

fn images_show(alloc: Global, disk: &MemDisk) -> Result<[Shown; 5], Fail> {
    let mut shown = [NONE; 5];
    for (at, pick) in shown.iter_mut().zip(PICKS) {
        *at = image_shows(alloc, disk, pick)?;
    }
    Ok(shown)
}

impl Bench<MemDisk> {
    // What the images show where a crash meets the call after so many of a switch, and whether the switch passed.
    fn crash(&mut self, alloc: Global, calls: u64) -> Result<([Shown; 5], bool), Fail> {
        let files = listed(alloc, &[TWO])?;
        self.disk.set_fuse(Fuse::Crash(calls));
        let passed = self.switch(b"next!", files.as_slice())?.is_none();
        Ok((images_show(alloc, &self.disk)?, passed))
    }
}

// The same in a new store after steps.
fn shown_after(alloc: Global, steps: &[Step], calls: u64) -> Result<([Shown; 5], bool), Fail> {
    let mut bench = Bench::open(alloc, fresh(alloc)?)?;
    bench.make_steps(alloc, steps)?;
    bench.crash(alloc, calls)
}

// What is shown where a crash meets the call after so many, and whether the switch passes. Before the gate is written the old
// snapshot is shown. While the gate is written or synced its byte decides. After the last sync the new snapshot is shown.
fn expected(old: Shown, new: Shown, calls: u64) -> ([Shown; 5], bool) {
    match calls {
        0..=5 => ([old; 5], false),
        6..=7 => ([old, new, old, new, old], false),
        _ => ([new; 5], true),
    }
}

fn after_switch(number: u32) -> Shown {
    Shown {
        number,
        text: 5,
        media: Some(2),
        ..FIRST
    }
}

#[test]
fn the_gate_of_the_first_switch_decides(rt: HostRuntime) -> Result<(), Fail> {
    for calls in 0..9 {
        let shown = shown_after(rt.alloc(), &UNSWITCHED, calls)?;
        assert_eq!(rt; shown, expected(NONE, after_switch(1), calls), "{calls}");
    }
    Ok(())
}

#[test]
fn the_gate_of_a_later_switch_decides(rt: HostRuntime) -> Result<(), Fail> {
    let old = Shown {
        media: Some(1),
        ..FIRST
    };
    for calls in 0..9 {
        let shown = shown_after(rt.alloc(), &SWITCHED, calls)?;
        assert_eq!(rt; shown, expected(old, after_switch(2), calls), "{calls}");
    }
    Ok(())
}

// What an opening finds where a crash met the making of a store over an older one, while the journal was cleared.
fn found_after_format(alloc: Global, pick: Pick) -> Result<Option<OpenFault>, Fail> {
    let mut disk = fresh(alloc)?;
    disk.set_fuse(Fuse::Crash(100));
    let new = Format {
        display: 7,
        epoch: 3,
        room: ROOM,
    };
    if format(&mut disk, &new).is_ok() {
        return Err(Unmet)?;
    }
    let mut image = MemDisk::new(alloc, disk.image(pick)?)?;
    Ok(Store::open(alloc, &mut image).err())
}

#[test]
fn a_format_closes_the_old_header_first(rt: HostRuntime) -> Result<(), Fail> {
    for pick in [Pick::Nothing, Pick::All] {
        let found = found_after_format(rt.alloc(), pick)?;
        assert_eq!(rt; found, Some(OpenFault::Unformatted));
    }
    Ok(())
}
