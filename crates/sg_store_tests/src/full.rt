//! Stores that are as full as they can be, in memory and in a file. bench/store takes the time of the tests over a file.

use crate::bench::{disk_after, fresh, fresh_and_large, make};
use crate::damages::change;
use crate::outcomes::{FIRST, bytes_after, outcome, told};
use crate::steps::{Ask, File, Shown, Step, Told};
use sg_disk::{Disk, FileDisk, MemDisk};
use sg_store::Store;
use std::alloc::Global;
use std::fs;
use std::test::Fail;

// Two switches, of which slot 1 has the second one.
const SWITCHES: [Step; 2] = [Step::Switch(b"one", &[]), Step::Switch(b"two", &[])];

// A disk whose store has the last switch number.
fn with_last_number(alloc: Global) -> Result<MemDisk, Fail> {
    let mut bytes = bytes_after(alloc, &SWITCHES)?;
    change(bytes.as_mut_slice(), 1_073_156, &[255; 4])?;
    Ok(MemDisk::new(alloc, bytes)?)
}

#[test]
fn the_last_switch_number_is_the_last(rt: HostRuntime) -> Result<(), Fail> {
    let alloc = rt.alloc();
    let last = Shown {
        number: u32::MAX,
        text: 3,
        files: 0,
        media: None,
        full: false,
    };
    // The opening makes seven calls, and a switch that is spent none.
    let spent = outcome(alloc, with_last_number(alloc)?, &[Step::Spent(b"three")])?;
    assert_eq!(rt; spent, (last, 7));
    Ok(())
}

// A file of as many bytes as a file may have: 67,108,864 is the sum of the first 8,192 odd numbers.
const LARGEST: File = File {
    media: 3,
    count: 67_108_864,
};

#[test]
fn the_largest_file_comes_in_pieces_of_every_odd_size(rt: HostRuntime) -> Result<(), Fail> {
    let alloc = rt.alloc();
    let steps = [Step::StageOddly(LARGEST), Step::Switch(b"t", &[LARGEST])];
    let ask = Ask::Bytes(3, 67_108_862);
    let end = told(alloc, fresh_and_large(alloc)?, &steps, &ask)?;
    assert_eq!(rt; end, Told::Bytes([3, 200]));
    Ok(())
}

#[test]
fn a_store_is_full_until_it_is_switched(rt: HostRuntime) -> Result<(), Fail> {
    let alloc = rt.alloc();
    let (before, _) = outcome(alloc, fresh(alloc)?, &[Step::StageMany])?;
    assert_eq!(rt; (before.full, before.files), (true, 0));
    let steps = [Step::StageMany, Step::SwitchMany(4, 1)];
    let (after, _) = outcome(alloc, fresh(alloc)?, &steps)?;
    let switched = Shown {
        files: 512,
        media: Some(1),
        ..FIRST
    };
    assert_eq!(rt; after, switched);
    Ok(())
}

#[test]
fn a_snapshot_has_512_files(rt: HostRuntime) -> Result<(), Fail> {
    let alloc = rt.alloc();
    let steps = [Step::StageMany, Step::SwitchMany(4, 1)];
    for (media, bytes) in [(511, [255, 200]), (512, [0, 200])] {
        let disk = disk_after(alloc, fresh(alloc)?, &steps)?;
        let found = told(alloc, disk, &[], &Ask::Bytes(media, 0))?;
        assert_eq!(rt; found, Told::Bytes(bytes));
    }
    Ok(())
}

// The switch number that so many openings show, after all the files are staged and so many switches are made to them, with a
// manifest of the greatest length.
fn run<D: Disk + Drop>(
    alloc: Global,
    mut disk: D,
    switches: u32,
    openings: u32,
) -> Result<u32, Fail> {
    make(&mut disk, 65_536)?;
    let steps = [Step::StageMany, Step::SwitchMany(1_048_576, switches)];
    let mut disk = disk_after(alloc, disk, &steps)?;
    let mut number = 0;
    for _ in 0..openings {
        number = Store::open(alloc, &mut disk)?.number();
    }
    Ok(number)
}

// Such a run over a file of its own.
fn run_in(rt: &HostRuntime, folder: &str, switches: u32, openings: u32) -> Result<u32, Fail> {
    let _ = fs::remove_dir_all(rt, folder);
    fs::create_dir(rt, folder)?;
    let path = format!(in rt.alloc(); "{folder}/store")?;
    let disk = FileDisk::new(rt.clone()?, path);
    let number = run(rt.alloc(), disk, switches, openings)?;
    fs::remove_dir_all(rt, folder)?;
    Ok(number)
}

#[test]
fn a_file_holds_two_full_snapshots(rt: HostRuntime) -> Result<(), Fail> {
    assert_eq!(rt; run_in(&rt, "sg_store_full", 2, 1)?, 2);
    Ok(())
}

#[test]
fn a_file_is_switched_fifty_times_more(rt: HostRuntime) -> Result<(), Fail> {
    assert_eq!(rt; run_in(&rt, "sg_store_switched", 52, 1)?, 52);
    Ok(())
}

#[test]
fn a_file_is_opened_fifty_times_more(rt: HostRuntime) -> Result<(), Fail> {
    assert_eq!(rt; run_in(&rt, "sg_store_opened", 2, 51)?, 2);
    Ok(())
}
