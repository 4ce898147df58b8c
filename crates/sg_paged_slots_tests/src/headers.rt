// The headers of both formats: what is read of them, and the first fault with its place and what was found there. With a data
// area of 65,536 bytes a disk of the old format has 6,402,048 bytes, and one of the new format 8,564,736.
use sg_disk::{Fuse, MemDisk};
use sg_paged_slots::read_any_header;
use sg_slots::OpenFault;
use std::alloc::Global;
use std::test::Fail;

const OLD: usize = 6_402_048;

const NEW: usize = 8_564_736;

// A header: the gate, the version's four bytes, the first and the second mark, and the least byte of display and epoch.
struct Case {
    what: &'static str,
    len: usize,
    gate: u8,
    version: [u8; 4],
    mark: &'static [u8; 8],
    second: &'static [u8; 8],
    fields: (u8, u8),
    found: Found,
}

// What is to be found: a header, of the old format or of the new one, or a fault.
#[derive(Clone, Copy, PartialEq)]
enum Found {
    Old,
    New,
    Unformatted,
    Damaged(u64, u64),
}

const SOUND: Case = Case {
    what: "a store of the new format",
    len: NEW,
    gate: 1,
    version: [2, 0, 0, 0],
    mark: b"SGNSTORE",
    second: b"SGNSTOR2",
    fields: (7, 3),
    found: Found::New,
};

const CASES: [Case; 15] = [
    SOUND,
    Case {
        what: "one whose version byte was torn",
        version: [77, 0, 0, 0],
        ..SOUND
    },
    Case {
        what: "a version byte of 0",
        version: [0, 0, 0, 0],
        ..SOUND
    },
    Case {
        what: "a store of the old format",
        len: OLD,
        version: [1, 0, 0, 0],
        second: &[9; 8],
        found: Found::Old,
        ..SOUND
    },
    Case {
        what: "one that has the new length already",
        version: [1, 0, 0, 0],
        second: &[9; 8],
        found: Found::Old,
        ..SOUND
    },
    Case {
        what: "the version 777, though the second mark stands",
        version: [9, 3, 0, 0],
        found: Found::Damaged(4, 777),
        ..SOUND
    },
    Case {
        what: "the version 2 without a second mark",
        second: &[0; 8],
        found: Found::Damaged(4, 2),
        ..SOUND
    },
    Case {
        what: "a version and a mark that are both wrong",
        version: [0, 1, 0, 0],
        mark: b"SGNSTORF",
        found: Found::Damaged(4, 256),
        ..SOUND
    },
    Case {
        what: "another first mark",
        mark: b"\x01\0\0\0\0\0\0\0",
        found: Found::Damaged(8, 1),
        ..SOUND
    },
    Case {
        what: "no display and no epoch",
        fields: (0, 0),
        found: Found::Damaged(16, 0),
        ..SOUND
    },
    Case {
        what: "no epoch, on a disk of the wrong length",
        len: NEW - 1,
        fields: (7, 0),
        found: Found::Damaged(20, 0),
        ..SOUND
    },
    Case {
        what: "the new format on a disk of the old length",
        len: OLD,
        found: Found::Damaged(24, 65_536),
        ..SOUND
    },
    Case {
        what: "the old format on a disk of neither length",
        len: OLD + 1,
        version: [1, 0, 0, 0],
        found: Found::Damaged(24, 65_536),
        ..SOUND
    },
    Case {
        what: "a closed gate before a wrong version",
        gate: 0,
        version: [9, 3, 0, 0],
        found: Found::Unformatted,
        ..SOUND
    },
    Case {
        what: "a disk that is too short for a store",
        len: 6_336_511,
        found: Found::Unformatted,
        ..SOUND
    },
];

// A disk with this header.
fn disk_of(alloc: Global, case: &Case) -> Result<MemDisk, Fail> {
    let (mark, second) = (case.mark, case.second);
    let mut bytes = Vec::new(alloc);
    bytes.push(case.gate)?;
    bytes.extend_from_slice(&[0; 3])?;
    bytes.extend_from_slice(&case.version)?;
    bytes.extend_from_slice(mark)?;
    bytes.extend_from_slice(&[case.fields.0, 0, 0, 0, case.fields.1, 0, 0, 0])?;
    bytes.extend_from_slice(&[0, 0, 1, 0, 0, 0, 0, 0])?;
    bytes.extend_from_slice(second)?;
    bytes.resize(case.len, 0)?;
    Ok(MemDisk::new(alloc, bytes)?)
}

// What is found of a case.
fn found_of(alloc: Global, case: &Case) -> Result<Found, Fail> {
    let mut disk = disk_of(alloc, case)?;
    match read_any_header(&mut disk) {
        Ok(header) if header.old => Ok(Found::Old),
        Ok(_) => Ok(Found::New),
        Err(OpenFault::Unformatted) => Ok(Found::Unformatted),
        Err(OpenFault::Damaged { place, found }) => Ok(Found::Damaged(place, found)),
        Err(fault) => Err(fault)?,
    }
}

#[test]
fn each_header_is_told_by_its_first_fault(rt: HostRuntime) -> Result<(), Fail> {
    for case in &CASES {
        let found = found_of(rt.alloc(), case)?;
        assert!(rt; found == case.found, "{}", case.what);
    }
    Ok(())
}

#[test]
fn a_header_gives_its_fields(rt: HostRuntime) -> Result<(), Fail> {
    let mut disk = disk_of(rt.alloc(), &SOUND)?;
    let header = read_any_header(&mut disk)?;
    assert_eq!(rt; header.format.display, 7);
    assert_eq!(rt; header.format.epoch, 3);
    assert_eq!(rt; header.format.room, 65_536);
    // It syncs, asks for the length and reads once.
    assert_eq!(rt; disk.begun(), 3);
    Ok(())
}

#[test]
fn a_header_isnt_read_of_a_disk_that_fails(rt: HostRuntime) -> Result<(), Fail> {
    for calls in 0..3 {
        let mut disk = disk_of(rt.alloc(), &SOUND)?;
        disk.set_fuse(Fuse::Fault(calls));
        let answer = read_any_header(&mut disk);
        assert!(rt;
            matches!(answer, Err(OpenFault::Disk)),
            "after {calls} calls"
        );
    }
    Ok(())
}
