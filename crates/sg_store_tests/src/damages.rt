//! The first fault of a store's bytes, of which some were changed.

use crate::outcomes::{ONE, TWO, bytes_after};
use crate::steps::{Step, Unmet};
use sg_disk::MemDisk;
use sg_store::{OpenFault, Store};
use std::alloc::Global;
use std::test::Fail;

// Bytes of a disk that are changed, at their place.
type Edit = (usize, &'static [u8]);

// A store with data of 131,072 bytes, and in slot 0 a text of 4 bytes and two files, of 3 bytes and of 4: media 1 and 2.
const TWO_FILES: [Step; 3] = [
    Step::Stage(ONE, 2),
    Step::Stage(TWO, 3),
    Step::Switch(b"text", &[ONE, TWO]),
];

// Both slots have the two files.
const BOTH_SLOTS: [Step; 4] = [
    Step::Stage(ONE, 2),
    Step::Stage(TWO, 3),
    Step::Switch(b"text", &[ONE, TWO]),
    Step::Switch(b"next", &[ONE, TWO]),
];

/// Writes over the bytes at a place.
pub(crate) fn change(bytes: &mut [u8], place: usize, with: &[u8]) -> Result<(), Fail> {
    if place > bytes.len() || with.len() > bytes.len() - place {
        return Err(Unmet)?;
    }
    bytes[place..place + with.len()].copy_from_slice(with);
    Ok(())
}

// The fault that the opening of these bytes answers, after some changes.
fn fault_of(alloc: Global, bytes: &[u8], edits: &[Edit]) -> Result<Option<OpenFault>, Fail> {
    let mut changed = bytes.to_vec(alloc)?;
    for (place, with) in edits {
        change(changed.as_mut_slice(), *place, with)?;
    }
    let mut disk = MemDisk::new(alloc, changed)?;
    Ok(Store::open(alloc, &mut disk).err())
}

// The same with the bytes cut, or filled with zeros, to a length.
fn fault_at(alloc: Global, bytes: &[u8], len: usize) -> Result<Option<OpenFault>, Fail> {
    let mut changed = bytes.to_vec(alloc)?;
    changed.resize(len, 0)?;
    fault_of(alloc, changed.as_slice(), &[])
}

fn damaged(place: u64, found: u64) -> Option<OpenFault> {
    Some(OpenFault::Damaged { place, found })
}

// Changes of a store, and the damage that an opening then names: a place, and what is found there.
type Case = (&'static [Edit], u64, u64);

// The first of these cases whose damage isn't named.
fn first_unnamed(
    alloc: Global,
    bytes: &[u8],
    cases: &[Case],
) -> Result<Option<(u64, Option<OpenFault>)>, Fail> {
    for (edits, place, found) in cases {
        let fault = fault_of(alloc, bytes, edits)?;
        if fault != damaged(*place, *found) {
            return Ok(Some((*place, fault)));
        }
    }
    Ok(None)
}

// Each field of the header beside the next one, which is looked at later.
const HEADER: [Case; 7] = [
    (&[(4, &[9])], 4, 9),
    (&[(4, &[9]), (8, &[0])], 4, 9),
    (&[(8, &[0]), (16, &[0])], 8, 0x4552_4F54_534E_4700),
    (&[(16, &[0]), (20, &[0])], 16, 0),
    (&[(20, &[0]), (24, &[1])], 20, 0),
    (&[(24, &[1]), (4_100, &[0])], 24, 131_073),
    (&[(24, &[0, 0, 1])], 24, 65_536),
];

// Each field of slot 0 beside the next one: the number, the text's length at both bounds, the count.
const FIELDS: [Case; 4] = [
    (&[(4_100, &[0]), (4_104, &[0])], 4_100, 0),
    (&[(4_104, &[0]), (4_108, &[1, 2])], 4_104, 0),
    (&[(4_104, &[1, 0, 16]), (4_108, &[1, 2])], 4_104, 1_048_577),
    (&[(4_108, &[1, 2]), (8_192, &[0])], 4_108, 513),
];

// Entries with a medium of 0, with the medium of the one before, with a length of 0 and of 67,108,865, one byte before the
// data area and one past its end.
const ENTRIES: [Case; 6] = [
    (&[(8_192, &[0]), (8_224, &[0])], 8_192, 0),
    (&[(8_224, &[1])], 8_224, 1),
    (&[(8_196, &[0]), (8_224, &[1])], 8_192, 1),
    (&[(8_196, &[1, 0, 0, 4]), (8_224, &[0])], 8_192, 1),
    (&[(8_216, &[255, 175]), (8_224, &[0])], 8_192, 1),
    (&[(8_216, &[254, 175, 98]), (8_224, &[0])], 8_192, 1),
];

// Slot 1 is opened over bytes that no switch wrote, and then with the number of slot 0. The second file of slot 0 begins in the
// last byte of the first one.
const PAIRS: [Case; 5] = [
    (&[(8_192, &[0]), (1_073_152, &[1])], 8_192, 0),
    (&[(1_073_152, &[1])], 1_073_156, 0),
    (&[(1_073_152, &[1, 0, 0, 0, 1, 0, 0, 0, 1])], 1_073_156, 1),
    (
        &[(1_073_152, &[1, 0, 0, 0, 1, 0, 0, 0, 1]), (8_248, &[2])],
        1_073_156,
        1,
    ),
    (&[(8_248, &[2])], 8_224, 2),
];

#[test]
fn the_first_fault_of_a_slot_is_named(rt: HostRuntime) -> Result<(), Fail> {
    let alloc = rt.alloc();
    let bytes = bytes_after(alloc, &TWO_FILES)?;
    assert_eq!(rt; fault_of(alloc, bytes.as_slice(), &[])?, None);
    let tables: [&[Case]; 4] = [&HEADER, &FIELDS, &ENTRIES, &PAIRS];
    for cases in tables {
        assert_eq!(rt; first_unnamed(alloc, bytes.as_slice(), cases)?, None);
    }
    Ok(())
}

// The second file of slot 1 begins in the last byte of the first one, and then that of slot 0 does so too.
const OVERLAPS: [Case; 2] = [
    (&[(1_077_304, &[2])], 1_077_280, 2),
    (&[(1_077_304, &[2]), (8_248, &[2])], 8_224, 2),
];

#[test]
fn overlaps_of_slot_0_come_first(rt: HostRuntime) -> Result<(), Fail> {
    let alloc = rt.alloc();
    let bytes = bytes_after(alloc, &BOTH_SLOTS)?;
    assert_eq!(rt; first_unnamed(alloc, bytes.as_slice(), &OVERLAPS)?, None);
    Ok(())
}

// Where nothing is a store, no field is looked at.
#[test]
fn a_disk_has_the_length_of_its_header(rt: HostRuntime) -> Result<(), Fail> {
    let alloc = rt.alloc();
    let bytes = bytes_after(alloc, &TWO_FILES)?;
    let table = [
        (6_467_585, damaged(24, 131_072)),
        (6_336_512, damaged(24, 131_072)),
        (6_336_511, Some(OpenFault::Unformatted)),
        (0, Some(OpenFault::Unformatted)),
    ];
    for (len, fault) in table {
        assert_eq!(rt; fault_at(alloc, bytes.as_slice(), len)?, fault, "{len}");
    }
    Ok(())
}

#[test]
fn a_closed_gate_is_no_store(rt: HostRuntime) -> Result<(), Fail> {
    let alloc = rt.alloc();
    let bytes = bytes_after(alloc, &TWO_FILES)?;
    let closed = fault_of(alloc, bytes.as_slice(), &[(0, &[0]), (4, &[9])])?;
    assert_eq!(rt; closed, Some(OpenFault::Unformatted));
    assert_eq!(rt;
        fault_at(alloc, &[], 6_402_048)?,
        Some(OpenFault::Unformatted)
    );
    Ok(())
}
