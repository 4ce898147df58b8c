// Openings of disks in memory. The bytes were put together by the layout: with a data area of 65,536 bytes a disk of the old format
// has 6,402,048 bytes, and one of the new format 8,564,736.
ghost use Rattle.std.specs.Prelude.{◌≤◌};

use sg_base::{Listed, MediaId};
use sg_disk::{Fuse, MemDisk, Pick};
use sg_paged_store::{NoSpace, OpenFault, Store};
use std::alloc::Global;
use std::test::Fail;

const OLD: usize = 6_402_048;

const NEW: usize = 8_564_736;

// What a test can't go on with.
#[derive(Clone, Copy, Debug, Drop)]
struct Unmet;

// Writes over the bytes at a place.
fn put(bytes: &mut Vec<u8>, place: usize, with: &[u8]) -> Result<(), Fail> {
    if with.len() > bytes.len() || place > bytes.len() - with.len() {
        return Err(Unmet)?;
    }
    bytes.as_mut_slice()[place..place + with.len()].copy_from_slice(with);
    Ok(())
}

// A header behind an open gate: display 7, epoch 3, and a data area of 65,536 bytes.
fn put_header(bytes: &mut Vec<u8>, version: u8) -> Result<(), Fail> {
    put(bytes, 0, &[1, 0, 0, 0, version, 0, 0, 0])?;
    put(bytes, 8, b"SGNSTORE")?;
    put(bytes, 16, &[7, 0, 0, 0, 3, 0, 0, 0, 0, 0, 1, 0, 0, 0, 0, 0])
}

// A slot that begins at a place: an open gate, this number, a manifest of two bytes, and one file of five bytes with the id 9,
// which stands from byte 6,336,512 on, or in pages.
fn put_slot(bytes: &mut Vec<u8>, place: u32, number: u8, paged: bool) -> Result<(), Fail> {
    let place = place as usize;
    put(
        bytes,
        place,
        &[1, 0, 0, 0, number, 0, 0, 0, 2, 0, 0, 0, 1, 0, 0, 0],
    )?;
    put(bytes, place + 4_096, &[9, 0, 0, 0, 5, 0, 0, 0])?;
    if !paged {
        put(bytes, place + 4_120, &[0, 176, 96, 0, 0, 0, 0, 0])?;
    }
    put(bytes, place + 20_480, &[b'm', b'0' + number.min(9)])
}

// A disk of the old format with switch 1 in slot 0, and switch 2 in slot 1 where there is one.
fn old_store(alloc: Global, len: usize, twice: bool) -> Result<Vec<u8>, Fail> {
    let mut bytes = Vec::new(alloc);
    bytes.resize(len, 0)?;
    put_header(&mut bytes, 1)?;
    put_slot(&mut bytes, 4_096, 1, false)?;
    if twice {
        put_slot(&mut bytes, 1_073_152, 2, false)?;
    }
    Ok(bytes)
}

// One of the new format, whose files stand in pages: switch 2 is in slot 0 and switch 1 in slot 1.
fn new_store(alloc: Global, version: u8) -> Result<Vec<u8>, Fail> {
    let mut bytes = Vec::new(alloc);
    bytes.resize(NEW, 0)?;
    put_header(&mut bytes, version)?;
    put(&mut bytes, 32, b"SGNSTOR2")?;
    put_slot(&mut bytes, 4_096, 2, true)?;
    put_slot(&mut bytes, 1_073_152, 1, true)?;
    Ok(bytes)
}

// What a store shows: its switch number, how many files it has, the id of the first, and its manifest.
#[derive(Clone, Copy, Debug, PartialEq, Eq)]
struct Shown {
    number: u32,
    files: usize,
    first: u32,
    text: [u8; 2],
}

fn showing(number: u32, text: &'static [u8; 2]) -> Shown {
    Shown {
        number,
        files: 1,
        first: 9,
        text: *text,
    }
}

// The id of a store's first file, 0 where it has none.
fn first_file(store: &Store) -> u32 {
    if store.files() == 0 {
        return 0;
    }
    store.file(0).media.0
}

// Opens a disk, and reads it.
fn show(alloc: Global, disk: &mut MemDisk) -> Result<Shown, Fail> {
    let store = Store::open(alloc, disk)?;
    if store.number() == 0 || store.manifest_len() != 2 {
        return Err(Unmet)?;
    }
    let mut text = [0; 2];
    store.read_manifest(disk, &mut text)?;
    Ok(Shown {
        number: store.number(),
        files: store.files(),
        first: first_file(&store),
        text,
    })
}

// What the bytes of a disk show, and how long the disk is then.
fn show_bytes(alloc: Global, bytes: Vec<u8>) -> Result<(Shown, usize), Fail> {
    let mut disk = MemDisk::new(alloc, bytes)?;
    let shown = show(alloc, &mut disk)?;
    Ok((shown, disk.bytes().len()))
}

#[test]
fn an_older_store_is_upgraded_as_it_is_opened(rt: HostRuntime) -> Result<(), Fail> {
    for (len, twice, wanted) in [
        (OLD, false, showing(1, b"m1")),
        (OLD, true, showing(2, b"m2")),
        (NEW, true, showing(2, b"m2")),
    ] {
        let found = show_bytes(rt.alloc(), old_store(rt.alloc(), len, twice)?)?;
        assert_eq!(rt; found, (wanted, NEW), "from {len} bytes");
    }
    Ok(())
}

#[test]
fn a_store_of_the_new_format_is_read(rt: HostRuntime) -> Result<(), Fail> {
    // The version is 2, or any byte but 1 that a crash left.
    for version in [2, 0, 77, 255] {
        let found = show_bytes(rt.alloc(), new_store(rt.alloc(), version)?)?;
        assert_eq!(rt; found, (showing(2, b"m2"), NEW), "version {version}");
    }
    Ok(())
}

#[test]
fn an_opening_twice_shows_the_same(rt: HostRuntime) -> Result<(), Fail> {
    let mut disk = MemDisk::new(rt.alloc(), old_store(rt.alloc(), OLD, true)?)?;
    let first = show(rt.alloc(), &mut disk)?;
    let calls = disk.begun();
    assert_eq!(rt; show(rt.alloc(), &mut disk)?, first);
    // Three for the header, three for each slot, and one for the manifest.
    assert_eq!(rt; disk.begun().checked_sub(calls), Some(10));
    Ok(())
}

// The images that a crash is tried with.
const PICKS: [Pick; 5] = [
    Pick::Nothing,
    Pick::All,
    Pick::Byte(1),
    Pick::Byte(77),
    Pick::Byte(255),
];

// After how many calls a crash comes: in the reading of the header and of the slots, in the resize, in the first zeros, some between
// and the last, in the second mark and its sync, in the version and its sync, and behind the upgrade.
const CALLS: [u64; 11] = [0, 2, 5, 6, 7, 70, 138, 139, 140, 141, 143];

// Whether each image of a crash after so many calls shows the snapshot.
fn images_show(alloc: Global, calls: u64, wanted: Shown) -> Result<bool, Fail> {
    let mut disk = MemDisk::new(alloc, old_store(alloc, OLD, false)?)?;
    disk.set_fuse(Fuse::Crash(calls));
    if Store::open(alloc, &mut disk).is_ok() {
        return Err(Unmet)?;
    }
    for pick in PICKS {
        let (found, len) = show_bytes(alloc, disk.image(pick)?)?;
        if found != wanted || len != NEW {
            return Ok(false);
        }
    }
    Ok(true)
}

#[test]
fn a_crash_in_an_upgrade_leaves_the_snapshot(rt: HostRuntime) -> Result<(), Fail> {
    for calls in CALLS {
        let kept = images_show(rt.alloc(), calls, showing(1, b"m1"))?;
        assert!(rt; kept, "after {calls} calls");
    }
    Ok(())
}

// Why an opening of these bytes is refused.
fn fault_of(alloc: Global, bytes: Vec<u8>) -> Result<Option<OpenFault>, Fail> {
    let mut disk = MemDisk::new(alloc, bytes)?;
    Ok(Store::open(alloc, &mut disk).err())
}

#[test]
fn a_damaged_store_is_refused(rt: HostRuntime) -> Result<(), Fail> {
    // In the old format a file lies in the data area. In the new one it needn't, if it stands in pages of it.
    let mut old = old_store(rt.alloc(), OLD, false)?;
    put(&mut old, 8_216, &[0; 8])?;
    let damaged = OpenFault::Damaged {
        place: 8_192,
        found: 9,
    };
    assert_eq!(rt; fault_of(rt.alloc(), old)?, Some(damaged));

    // The data area has one page.
    let mut new = new_store(rt.alloc(), 2)?;
    put(&mut new, 6_402_048, &[1, 0])?;
    let damaged = OpenFault::Damaged {
        place: 6_402_048,
        found: 1,
    };
    assert_eq!(rt; fault_of(rt.alloc(), new)?, Some(damaged));

    let mut equal = new_store(rt.alloc(), 2)?;
    put(&mut equal, 1_073_156, &[2])?;
    let damaged = OpenFault::Damaged {
        place: 1_073_156,
        found: 2,
    };
    assert_eq!(rt; fault_of(rt.alloc(), equal)?, Some(damaged));
    Ok(())
}

// Why a file of so many bytes isn't begun in a store that was just opened.
fn refusal(alloc: Global, bytes: Vec<u8>, length: u32) -> Result<Option<NoSpace>, Fail>
    requires some { 1 ≤ length }
    requires long { length ≤ 100_000 }
{
    let mut disk = MemDisk::new(alloc, bytes)?;
    let mut store = Store::open(alloc, &mut disk)?;
    let file = Listed {
        media: MediaId(4),
        length,
        md5: [0; 16],
    };
    if store.held(&file) {
        return Err(Unmet)?;
    }
    Ok(store.stage_begin(&file).err())
}

#[test]
fn a_page_that_a_range_touches_is_not_free(rt: HostRuntime) -> Result<(), Fail> {
    // The only page of the data area has the five bytes of the file 9, in a range or as its page.
    let one = NoSpace { need: 1, free: 0 };
    let old = refusal(rt.alloc(), old_store(rt.alloc(), OLD, false)?, 65_536)?;
    assert_eq!(rt; old, Some(one));
    let new = refusal(rt.alloc(), new_store(rt.alloc(), 2)?, 1)?;
    assert_eq!(rt; new, Some(one));

    let two = NoSpace { need: 2, free: 0 };
    let longer = refusal(rt.alloc(), new_store(rt.alloc(), 2)?, 65_537)?;
    assert_eq!(rt; longer, Some(two));
    Ok(())
}

// Makes the first file of a store and a manifest of two bytes its next snapshot, and shows what the disk holds then.
fn switched(alloc: Global, bytes: Vec<u8>, text: &[u8; 2]) -> Result<(Shown, Option<u64>), Fail> {
    let mut disk = MemDisk::new(alloc, bytes)?;
    let mut store = Store::open(alloc, &mut disk)?;
    if store.files() == 0 {
        return Err(Unmet)?;
    }
    let file = store.file(0);
    if !store.held(&file) {
        return Err(Unmet)?;
    }
    let before = disk.begun();
    store.switch(&mut disk, text, &[file])?;
    let calls = disk.begun().checked_sub(before);
    Ok((show(alloc, &mut disk)?, calls))
}

#[test]
fn a_file_is_carried_along_by_a_switch(rt: HostRuntime) -> Result<(), Fail> {
    // From a range of an older store, and in pages. A switch makes nine calls.
    let old = switched(rt.alloc(), old_store(rt.alloc(), OLD, true)?, b"m3")?;
    assert_eq!(rt; old, (showing(3, b"m3"), Some(9)));
    let new = switched(rt.alloc(), new_store(rt.alloc(), 2)?, b"m3")?;
    assert_eq!(rt; new, (showing(3, b"m3"), Some(9)));
    Ok(())
}
