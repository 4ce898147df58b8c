// New stores on disks in memory. The bytes were worked out by the layout: with a data area of 65,536 bytes a disk has 8,564,736, of
// which the journal has those from 2,142,208 to 6,336,512, and the seals the last 2,097,152.
use sg_disk::{Fuse, MemDisk, Pick};
use sg_format::{Format, format};
use sg_paged_store::{OpenFault, Store};
use std::alloc::Global;
use std::test::Fail;

const NEW: usize = 8_564_736;

const FORMAT: Format = Format {
    display: 0x0102_0304,
    epoch: 0x0506,
    room: 65_536,
};

// From byte 4 of a header on, its fields in their order: version, mark, display, epoch, data length, and the second mark.
const FIELDS: &[u8] = b"\x02\0\0\0SGNSTORE\x04\x03\x02\x01\x06\x05\0\0\0\0\x01\0\0\0\0\0SGNSTOR2";

// A disk on which every byte is 1, so that each gate stands open.
fn foreign(alloc: Global, len: usize) -> Result<MemDisk, Fail> {
    Ok(MemDisk::new(alloc, vec![in alloc; 1; len]?)?)
}

// Whether these are the bytes of a new store: its header, two closed slots, and zeros over the journal and the seals.
fn is_new(bytes: &[u8]) -> bool {
    bytes.len() == NEW
        && bytes[0] == 1
        && &bytes[4..40] == FIELDS
        && bytes[4_096] == 0
        && bytes[1_073_152] == 0
        && bytes[2_142_208..6_336_512].iter().all(|byte| *byte == 0)
        && bytes[NEW - 2_097_152..].iter().all(|byte| *byte == 0)
}

#[test]
fn any_disk_becomes_a_new_store(rt: HostRuntime) -> Result<(), Fail> {
    // An empty one, a short one, and a longer one. The old gate is closed by two calls more where there is one.
    for (len, calls) in [(0, 393), (1, 395), (NEW + 1, 395)] {
        let mut disk = foreign(rt.alloc(), len)?;
        format(&mut disk, &FORMAT)?;
        assert!(rt;
            is_new(disk.bytes()) && disk.begun() == calls,
            "from {len} bytes"
        );
        let store = Store::open(rt.alloc(), &mut disk)?;
        assert!(rt;
            store.number() == 0 && store.display() == FORMAT.display,
            "from {len} bytes"
        );
    }
    Ok(())
}

// What an opening finds where a crash met the call after so many of a format.
fn found_after(alloc: Global, calls: u64, pick: Pick) -> Result<Option<OpenFault>, Fail> {
    let mut disk = foreign(alloc, NEW)?;
    disk.set_fuse(Fuse::Crash(calls));
    let _ = format(&mut disk, &FORMAT);
    let mut image = MemDisk::new(alloc, disk.image(pick)?)?;
    Ok(Store::open(alloc, &mut image).err())
}

#[test]
fn a_store_opens_once_its_last_gate_is_written(rt: HostRuntime) -> Result<(), Fail> {
    // In the clearing, and in the last gate, with its byte lost and written.
    let shut = Some(OpenFault::Unformatted);
    assert!(rt; found_after(rt.alloc(), 200, Pick::All)? == shut);
    assert!(rt; found_after(rt.alloc(), 393, Pick::Nothing)? == shut);
    assert!(rt; found_after(rt.alloc(), 393, Pick::All)?.is_none());
    Ok(())
}

#[test]
fn a_failure_is_answered_and_a_later_format_makes_the_store(rt: HostRuntime) -> Result<(), Fail> {
    // In the first call, in the clearing of the seals, and in the last sync.
    for calls in [0, 300, 394] {
        let mut disk = foreign(rt.alloc(), NEW)?;
        disk.set_fuse(Fuse::Fault(calls));
        assert!(rt;
            format(&mut disk, &FORMAT).is_err() && disk.faults() == 1,
            "call {calls}"
        );
        disk.set_fuse(Fuse::Idle);
        format(&mut disk, &FORMAT)?;
        assert!(rt;
            Store::open(rt.alloc(), &mut disk)?.number() == 0,
            "call {calls}"
        );
    }
    Ok(())
}
