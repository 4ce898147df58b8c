// The table and the map of a slot: what is read of them, and the first fault with its place and what was found there. The places
// were worked out by the layout: the table of slot 0 begins at 8,192 and that of slot 1 at 1,077,248, an entry has 32 bytes, and
// the maps begin behind the data area, 32,768 bytes apart, with 2 bytes for a page.
ghost use Rattle.std.specs.Prelude.{◌≡◌, true};
ghost use Rattle.sg_disk.specs.Contents.{IsRoom};

use sg_base::limits::{MANIFEST_FILES, MAX_ROOM, ROOM_UNIT};
use sg_base::{Listed, MediaId};
use sg_disk::{DATA, ENTRY_LEN, Fuse, MemDisk, TABLE_LEN};
use sg_paged_slots::{fill_paged_slot, read_files, read_pages};
use sg_pages::{MAP_ENTRY_LEN, MAP_LEN, MAX_PAGES, PageSet, Shelf, fill_map};
use sg_placing::Placed;
use sg_slots::{OpenFault, Slot, fill_table};
use std::alloc::Global;
use std::test::Fail;

// What a test can't go on with.
#[derive(Clone, Copy, Debug, Drop)]
struct Unmet;

// A file of so many bytes: in pages, or from this byte of the data area on.
fn file(media: u32, size: u32, first: Option<u32>) -> Placed {
    let file = Listed {
        media: MediaId(media),
        length: size,
        md5: [(media & 127) as u8; 16],
    };
    match first {
        None => Placed { file, place: 0 },
        Some(first) => Placed {
            file,
            place: DATA + u64::from(first),
        },
    }
}

// A table and a map that are to be read, in a data area of so many bytes.
struct Case {
    what: &'static str,
    room: u64,
    slot: Slot,
    files: &'static [(u32, u32, Option<u32>)],
    map: &'static [u16],
    fault: Option<(u64, u64)>,
}

const CASES: [Case; 14] = [
    Case {
        what: "one page, the only one of the data area",
        room: 65_536,
        slot: Slot::Zero,
        files: &[(1, 65_536, None)],
        map: &[0],
        fault: None,
    },
    Case {
        what: "pages, a range, and pages again",
        room: 393_216,
        slot: Slot::One,
        files: &[(1, 65_537, None), (2, 1, Some(131_072)), (9, 100, None)],
        map: &[5, 0, 1],
        fault: None,
    },
    Case {
        what: "two ranges that touch, which share a page",
        room: 65_536,
        slot: Slot::Zero,
        files: &[(1, 100, Some(0)), (2, 100, Some(100))],
        map: &[],
        fault: None,
    },
    Case {
        what: "a medium of 0",
        room: 65_536,
        slot: Slot::Zero,
        files: &[(0, 1, None)],
        map: &[0],
        fault: Some((8_192, 0)),
    },
    Case {
        what: "the medium of the entry before",
        room: 131_072,
        slot: Slot::Zero,
        files: &[(3, 1, None), (3, 1, None)],
        map: &[0, 9],
        fault: Some((8_224, 3)),
    },
    Case {
        what: "a length of 0",
        room: 65_536,
        slot: Slot::Zero,
        files: &[(1, 0, None)],
        map: &[],
        fault: Some((8_192, 1)),
    },
    Case {
        what: "a page more than the data area has, before a bad page",
        room: 65_536,
        slot: Slot::One,
        files: &[(1, 1, None), (2, 1, None)],
        map: &[9, 0],
        fault: Some((1_077_280, 2)),
    },
    Case {
        what: "a range that ends behind the data area",
        room: 65_536,
        slot: Slot::Zero,
        files: &[(1, 2, Some(65_535))],
        map: &[],
        fault: Some((8_192, 1)),
    },
    Case {
        what: "a range in an earlier one, with pages between them",
        room: 196_608,
        slot: Slot::Zero,
        files: &[(1, 100, Some(0)), (2, 1, None), (7, 1, Some(99))],
        map: &[1],
        fault: Some((8_256, 7)),
    },
    Case {
        what: "a page that the data area hasn't",
        room: 65_536,
        slot: Slot::Zero,
        files: &[(1, 1, None)],
        map: &[1],
        fault: Some((6_402_048, 1)),
    },
    Case {
        what: "the same in slot 1",
        room: 65_536,
        slot: Slot::One,
        files: &[(1, 1, None)],
        map: &[256],
        fault: Some((6_434_816, 256)),
    },
    Case {
        what: "a page that stands earlier, before one that isn't there",
        room: 262_144,
        slot: Slot::Zero,
        files: &[(1, 65_537, None), (2, 65_537, None)],
        map: &[2, 0, 2, 9],
        fault: Some((6_598_660, 2)),
    },
    Case {
        what: "a page in which a later file's range ends",
        room: 262_144,
        slot: Slot::Zero,
        files: &[(1, 65_537, None), (2, 65_537, Some(1))],
        map: &[3, 1],
        fault: Some((6_598_658, 1)),
    },
    Case {
        what: "a page that a later file's range fills",
        room: 262_144,
        slot: Slot::Zero,
        files: &[(1, 65_537, None), (2, 65_537, Some(131_071))],
        map: &[2, 1],
        fault: Some((6_598_656, 2)),
    },
];

// Whether a data area may have so many bytes.
fn is_room(room: u64) -> bool
    ensures { result ≡ true → IsRoom room }
{
    ROOM_UNIT <= room && room <= MAX_ROOM && room % ROOM_UNIT == 0
}

// The table of these files, and the map of these pages.
fn table_of(alloc: Global, files: &[Placed]) -> Result<Vec<u8>, Fail> {
    if files.len() as u64 > MANIFEST_FILES {
        return Err(Unmet)?;
    }
    let mut table = Vec::with_capacity(alloc, TABLE_LEN as usize)?;
    fill_table(&mut table, files);
    Ok(table)
}

fn map_of(alloc: Global, pages: &[u16]) -> Result<Vec<u8>, Fail> {
    if pages.len() as u64 > MAX_PAGES {
        return Err(Unmet)?;
    }
    let mut map = Vec::with_capacity(alloc, MAP_LEN as usize)?;
    fill_map(&mut map, pages);
    Ok(map)
}

// The files of a case.
fn files_of(alloc: Global, case: &Case) -> Result<Vec<Placed>, Fail> {
    let mut files = Vec::new(alloc);
    for (media, size, first) in case.files {
        files.push(file(*media, *size, *first))?;
    }
    Ok(files)
}

// The fault that the reading of a case answers. Without one, the shelf has the pages of the map.
fn fault_of(alloc: Global, case: &Case) -> Result<Option<OpenFault>, Fail> {
    let files = files_of(alloc, case)?;
    let table = table_of(alloc, files.as_slice())?;
    let len = ENTRY_LEN as usize * files.len();
    if !is_room(case.room) || files.len() as u64 > MANIFEST_FILES || len > table.len() {
        return Err(Unmet)?;
    }
    let mut shelf = Shelf::reserve(alloc)?;
    let count = files.len() as u32;
    if let Err(fault) = read_files(case.room, case.slot, count, &table[..len], &mut shelf) {
        return Ok(Some(fault));
    }
    let map = map_of(alloc, case.map)?;
    let len = MAP_ENTRY_LEN as usize * case.map.len();
    if shelf.page_count() as usize != case.map.len() || len > map.len() {
        return Err(Unmet)?;
    }
    let mut set = PageSet::reserve(alloc)?;
    if let Err(fault) = read_pages(case.room, case.slot, &map[..len], &mut set, &mut shelf) {
        return Ok(Some(fault));
    }
    if shelf.files() != files.as_slice() || shelf.pages() != case.map {
        return Err(Unmet)?;
    }
    Ok(None)
}

#[test]
fn the_first_fault_of_a_slot_is_the_answer(rt: HostRuntime) -> Result<(), Fail> {
    for case in &CASES {
        let wanted = case
            .fault
            .map(|(place, found)| OpenFault::Damaged { place, found });
        assert_eq!(rt; fault_of(rt.alloc(), case)?, wanted, "{}", case.what);
    }
    Ok(())
}

// A disk with a data area of 65,536 bytes that has maps.
const WHOLE_DISK: usize = 8_564_736;

// Slot 1 of an empty disk is filled; a crash is to come after so many calls.
fn filled(alloc: Global, calls: u64) -> Result<MemDisk, Fail> {
    let mut bytes = Vec::new(alloc);
    bytes.resize(WHOLE_DISK, 0)?;
    let mut disk = MemDisk::new(alloc, bytes)?;
    disk.set_fuse(Fuse::Crash(calls));
    let done = fill_paged_slot(
        &mut disk,
        ROOM_UNIT,
        Slot::One,
        &[1, 2, 3, 4, 5, 6, 7, 8, 9, 10, 11, 12],
        &[33; 32],
        b"text",
        &[7, 0],
    );
    if done.is_ok() != (calls >= 5) {
        return Err(Unmet)?;
    }
    Ok(disk)
}

#[test]
fn a_slot_is_filled_with_its_map_in_five_calls(rt: HostRuntime) -> Result<(), Fail> {
    let disk = filled(rt.alloc(), 5)?;
    assert!(rt; disk.fuse() == Fuse::Crash(0));
    assert!(rt; filled(rt.alloc(), 4)?.fuse() == Fuse::Crashed);
    // Where each part begins.
    let parts: [(usize, &[u8]); 4] = [
        (1_073_156, &[1, 2, 3, 4, 5, 6, 7, 8, 9, 10, 11, 12]),
        (1_077_248, &[33; 32]),
        (1_093_632, b"text"),
        (6_434_816, &[7, 0]),
    ];
    let bytes = disk.bytes();
    if bytes.len() != WHOLE_DISK {
        return Err(Unmet)?;
    }
    for (place, part) in parts {
        if place > 7_000_000 || part.len() > 64 {
            return Err(Unmet)?;
        }
        assert_eq!(rt; &bytes[place..place + part.len()], part, "at {place}");
    }
    // 12, 32, 4 and 1 of these are no zeros, and nothing else was written.
    assert_eq!(rt; bytes.iter().filter(|byte| **byte != 0).count(), 49);
    Ok(())
}
