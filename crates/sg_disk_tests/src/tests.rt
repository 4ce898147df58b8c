use sg_disk::{Disk, DiskFailed, FileDisk, Fuse, MemDisk, Pick, close_gate, write_synced};
use std::alloc::{AllocError, Global};
use std::fs;
use std::test::Fail;

// One call of a run.
#[derive(Clone, Copy)]
enum Step {
    Write(u64, &'static [u8]),
    Resize(u64),
    Sync,
}

// A run over the bytes 1 to 6.
const RUN: [Step; 7] = [
    Step::Write(1, &[7, 8]),
    Step::Sync,
    Step::Write(4, &[9, 9]),
    Step::Resize(8),
    Step::Write(6, &[5, 5]),
    Step::Resize(3),
    Step::Sync,
];

// Writes where the range is inside the length.
fn write(disk: &mut MemDisk, place: u64, bytes: &[u8]) -> Result<(), DiskFailed> {
    if place > 64 || bytes.len() > 64 || place as usize + bytes.len() > disk.bytes().len() {
        return Err(DiskFailed);
    }
    disk.write_at(place, bytes)
}

fn make(disk: &mut MemDisk, step: Step) -> Result<(), DiskFailed> {
    match step {
        Step::Write(place, bytes) => write(disk, place, bytes),
        Step::Resize(len) => disk.resize(len),
        Step::Sync => disk.sync(),
    }
}

// The disk after the run, or after the first call of it that failed.
fn disk_after(alloc: Global, fuse: Fuse) -> Result<MemDisk, AllocError> {
    let mut disk = MemDisk::new(alloc, Vec::from_slice(alloc, &[1, 2, 3, 4, 5, 6])?)?;
    disk.set_fuse(fuse);
    for next in RUN {
        if make(&mut disk, next).is_err() {
            break;
        }
    }
    Ok(disk)
}

// What a crash at a call may leave.
struct Crash {
    // The calls of the run that pass before it.
    calls: u64,
    // The image with nothing of the unsynced calls done, and with all of it.
    nothing: &'static [u8],
    all: &'static [u8],
    // Those with this byte wherever an unsynced call wrote.
    zeros: &'static [u8],
    ones: &'static [u8],
    full: &'static [u8],
}

const CRASHES: [Crash; 8] = [
    Crash {
        calls: 0,
        nothing: &[1, 2, 3, 4, 5, 6],
        all: &[1, 7, 8, 4, 5, 6],
        zeros: &[1, 0, 0, 4, 5, 6],
        ones: &[1, 1, 1, 4, 5, 6],
        full: &[1, 255, 255, 4, 5, 6],
    },
    Crash {
        calls: 1,
        nothing: &[1, 2, 3, 4, 5, 6],
        all: &[1, 7, 8, 4, 5, 6],
        zeros: &[1, 0, 0, 4, 5, 6],
        ones: &[1, 1, 1, 4, 5, 6],
        full: &[1, 255, 255, 4, 5, 6],
    },
    Crash {
        calls: 2,
        nothing: &[1, 7, 8, 4, 5, 6],
        all: &[1, 7, 8, 4, 9, 9],
        zeros: &[1, 7, 8, 4, 0, 0],
        ones: &[1, 7, 8, 4, 1, 1],
        full: &[1, 7, 8, 4, 255, 255],
    },
    Crash {
        calls: 3,
        nothing: &[1, 7, 8, 4, 5, 6],
        all: &[1, 7, 8, 4, 9, 9, 0, 0],
        zeros: &[1, 7, 8, 4, 0, 0, 0, 0],
        ones: &[1, 7, 8, 4, 1, 1, 1, 1],
        full: &[1, 7, 8, 4, 255, 255, 255, 255],
    },
    Crash {
        calls: 4,
        nothing: &[1, 7, 8, 4, 5, 6],
        all: &[1, 7, 8, 4, 9, 9, 5, 5],
        zeros: &[1, 7, 8, 4, 0, 0, 0, 0],
        ones: &[1, 7, 8, 4, 1, 1, 1, 1],
        full: &[1, 7, 8, 4, 255, 255, 255, 255],
    },
    Crash {
        calls: 5,
        nothing: &[1, 7, 8, 4, 5, 6],
        all: &[1, 7, 8],
        zeros: &[1, 7, 8],
        ones: &[1, 7, 8],
        full: &[1, 7, 8],
    },
    Crash {
        calls: 6,
        nothing: &[1, 7, 8, 4, 5, 6],
        all: &[1, 7, 8],
        zeros: &[1, 7, 8],
        ones: &[1, 7, 8],
        full: &[1, 7, 8],
    },
    Crash {
        calls: 7,
        nothing: &[1, 7, 8],
        all: &[1, 7, 8],
        zeros: &[1, 7, 8],
        ones: &[1, 7, 8],
        full: &[1, 7, 8],
    },
];

#[test]
fn a_crash_meets_each_call(rt: HostRuntime) -> Result<(), Fail> {
    for crash in &CRASHES {
        let calls = crash.calls;
        let disk = disk_after(rt.alloc(), Fuse::Crash(calls))?;
        for (pick, image) in [
            (Pick::Nothing, crash.nothing),
            (Pick::All, crash.all),
            (Pick::Byte(0), crash.zeros),
            (Pick::Byte(1), crash.ones),
            (Pick::Byte(255), crash.full),
        ] {
            assert_eq!(rt; disk.image(pick)?.as_slice(), image, "{pick:?} at {calls}");
        }
        assert_eq!(rt; disk.faults(), u64::from(calls < 7), "faults at {calls}");
        assert_eq!(rt; disk.fuse() == Fuse::Crashed, calls < 7, "fuse at {calls}");
    }
    Ok(())
}

#[test]
fn nothing_passes_behind_a_crash(rt: HostRuntime) -> Result<(), Fail> {
    let mut disk = disk_after(rt.alloc(), Fuse::Crash(2))?;
    assert!(rt; disk.sync().is_err());
    assert!(rt; disk.len().is_err());
    assert!(rt; write(&mut disk, 0, &[3]).is_err());
    assert_eq!(rt;
        disk.image(Pick::All)?.as_slice(),
        [1, 7, 8, 4, 9, 9].as_slice()
    );
    assert_eq!(rt; disk.faults(), 4);
    Ok(())
}

#[test]
fn a_fault_changes_nothing(rt: HostRuntime) -> Result<(), Fail> {
    let mut disk = disk_after(rt.alloc(), Fuse::Fault(2))?;
    assert_eq!(rt; disk.bytes(), [1, 7, 8, 4, 5, 6].as_slice());
    assert_eq!(rt;
        disk.image(Pick::All)?.as_slice(),
        [1, 7, 8, 4, 5, 6].as_slice()
    );
    assert_eq!(rt; disk.fuse(), Fuse::Idle);
    disk.fail_at(Vec::from_slice(rt.alloc(), &[4, 6])?);
    let mut passed = [false; 5];
    for slot in &mut passed {
        *slot = write(&mut disk, 5, &[3]).is_ok();
    }
    assert_eq!(rt; passed, [true, false, true, false, true]);
    assert_eq!(rt; disk.begun(), 8);
    assert_eq!(rt; disk.faults(), 3);
    assert_eq!(rt; disk.bytes(), [1, 7, 8, 4, 5, 3].as_slice());
    Ok(())
}

#[test]
fn reads_give_what_was_written(rt: HostRuntime) -> Result<(), Fail> {
    let alloc = rt.alloc();
    let mut disk = MemDisk::new(alloc, Vec::from_slice(alloc, &[4, 5, 6])?)?;
    let len = disk.len()?;
    assert_eq!(rt; len, 3);
    write_synced(&mut disk, 1, &[8])?;
    close_gate(&mut disk, 2, false)?;
    assert_eq!(rt; disk.image(Pick::Nothing)?.as_slice(), [4, 8, 6].as_slice());
    close_gate(&mut disk, 2, true)?;
    let mut found = [0; 2];
    disk.read(1, &mut found)?;
    assert_eq!(rt; found, [8, 0]);
    assert_eq!(rt; disk.begun(), 8);
    Ok(())
}

const FOLDER: &str = "sg_disk_test";

const PATH: &str = "sg_disk_test/store";

// Reads the first four bytes.
fn read_four(disk: &mut FileDisk<HostRuntime>) -> Result<[u8; 4], DiskFailed> {
    let mut found = [0; 4];
    if disk.len()? < 4 {
        return Err(DiskFailed);
    }
    disk.read(0, &mut found)?;
    Ok(found)
}

#[test]
fn a_file_keeps_what_was_synced(rt: HostRuntime) -> Result<(), Fail> {
    let _ = fs::remove_dir_all(&rt, FOLDER);
    fs::create_dir(&rt, FOLDER)?;
    let mut disk = FileDisk::new(rt.clone()?, String::from_str(rt.alloc(), PATH)?);
    assert_eq!(rt; disk.len()?, 0);
    disk.resize(6)?;
    write_synced(&mut disk, 1, &[7, 8])?;
    write_synced(&mut disk, 2, &[9])?;
    drop(disk);
    assert_eq!(rt;
        fs::read(&rt, PATH)?.as_slice(),
        [0, 7, 9, 0, 0, 0].as_slice()
    );
    let mut again = FileDisk::new(rt.clone()?, String::from_str(rt.alloc(), PATH)?);
    assert_eq!(rt; read_four(&mut again)?, [0, 7, 9, 0]);
    assert_eq!(rt; again.faults(), 0);
    fs::remove_dir_all(&rt, FOLDER)?;
    Ok(())
}

#[test]
fn a_file_that_fails_is_counted(rt: HostRuntime) -> Result<(), Fail> {
    let _ = fs::remove_dir_all(&rt, "sg_disk_faults");
    let mut nowhere = FileDisk::new(
        rt.clone()?,
        String::from_str(rt.alloc(), "sg_disk_faults/store")?,
    );
    assert!(rt; nowhere.len().is_err());
    assert!(rt; nowhere.sync().is_err());
    assert_eq!(rt; nowhere.faults(), 2);
    fs::create_dir(&rt, "sg_disk_faults")?;
    let mut disk = FileDisk::new(
        rt.clone()?,
        String::from_str(rt.alloc(), "sg_disk_faults/store")?,
    );
    disk.resize(8)?;
    fs::write(&rt, "sg_disk_faults/store", [1, 2].as_slice())?;
    assert!(rt;
        disk.read(0, &mut [0; 4]).is_err(),
        "the file is shorter than the disk was"
    );
    assert_eq!(rt; disk.faults(), 1);
    assert_eq!(rt; disk.len()?, 2);
    fs::remove_dir_all(&rt, "sg_disk_faults")?;
    Ok(())
}
