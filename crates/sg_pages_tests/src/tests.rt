// Pages that are taken and pages that are free, and the maps of slots. Page q has the bytes from 65,536 * q on, counted from the
// front of the data area; the wanted pages were worked out by that.
ghost use Rattle.std.specs.Prelude.{◌≡◌, ◌+◌, ◌≤◌, ◌<◌, ◌/◌, All, length, true};
ghost use Rattle.sg_disk.specs.declared.places.TheConstants.{PAGE};

use sg_base::limits::MAX_ROOM;
use sg_disk::{DATA, PAGE};
use sg_pages::{BadEntry, MAP_LEN, MAX_PAGES, PageSet, fill_map, read_map};
use std::alloc::{AllocError, Global};
use std::test::Fail;

// What a test can't go on with.
#[derive(Clone, Copy, Debug, Drop)]
pub(crate) struct Unmet;

// What takes room in a data area: pages, or so many bytes from one of the data area on.
#[derive(Clone, Copy)]
enum Taken {
    Pages(&'static [u16]),
    Extent(u32, u32),
}

// Whether these are pages of a data area that has so many.
pub(crate) fn are_pages(pages: &[u16], count: u64) -> bool
    ensures { result ≡ true → All (λ page. page < count) pages.now }
{
    for page in pages {
        if u64::from(*page) >= count {
            return false;
        }
    }
    true
}

// Whether so many bytes, of which the first is this one of the data area, lie in it.
fn is_inside(room: u64, first: u32, length: u32) -> bool
    ensures { result ≡ true → first + length ≤ room }
{
    u64::from(first) + u64::from(length) <= room
}

// Takes it in.
fn take(set: &mut PageSet, room: u64, taken: Taken) -> Result<(), Unmet>
    requires room { room ≤ MAX_ROOM }
    requires set { length set.old ≡ room / PAGE }
    ensures set { length set.new ≡ room / PAGE }
{
    match taken {
        Taken::Pages(pages) => {
            if !are_pages(pages, room / PAGE) {
                return Err(Unmet);
            }
            set.add_pages(pages);
        }
        Taken::Extent(first, length) => {
            if !is_inside(room / PAGE * PAGE, first, length) {
                return Err(Unmet);
            }
            set.add_extent(DATA + u64::from(first), length);
        }
    }
    Ok(())
}

// The set of what these take in a data area of so many bytes.
fn taken_in(alloc: Global, room: u64, all: &[Taken]) -> Result<PageSet, Fail> {
    if room > MAX_ROOM {
        return Err(Unmet)?;
    }
    let mut set = PageSet::reserve(alloc)?;
    set.clear(room);
    for taken in all {
        take(&mut set, room, *taken)?;
    }
    Ok(set)
}

// The lowest pages of a set, up to `need`.
pub(crate) fn lowest(alloc: Global, set: &PageSet, need: u32) -> Result<Vec<u16>, AllocError> {
    let mut pages = Vec::with_capacity(alloc, need as usize)?;
    set.put_lowest(need, &mut pages);
    Ok(pages)
}

#[test]
fn the_lowest_free_pages_are_found(rt: HostRuntime) -> Result<(), Fail> {
    let alloc = rt.alloc();
    // Three pages, of which a snapshot has none, the middle one or all.
    let empty = taken_in(alloc, 196_608, &[])?;
    assert_eq!(rt; empty.free(), 3);
    assert_eq!(rt; lowest(alloc, &empty, 3)?.as_slice(), [0, 1, 2].as_slice());
    assert_eq!(rt; lowest(alloc, &empty, 1)?.as_slice(), [0].as_slice());
    let middle = taken_in(alloc, 196_608, &[Taken::Pages(&[1])])?;
    assert_eq!(rt; middle.free(), 2);
    assert_eq!(rt; lowest(alloc, &middle, 2)?.as_slice(), [0, 2].as_slice());
    let full = taken_in(alloc, 196_608, &[Taken::Pages(&[1]), Taken::Pages(&[0, 2])])?;
    assert_eq!(rt; full.free(), 0);
    assert!(rt; lowest(alloc, &full, 1)?.is_empty());
    Ok(())
}

#[test]
fn a_range_takes_each_page_that_it_touches(rt: HostRuntime) -> Result<(), Fail> {
    let alloc = rt.alloc();
    // The first byte and the length of a range in four pages, and the pages that are left.
    let rows: [(u32, u32, &[u16]); 8] = [
        (0, 1, &[1, 2, 3]),
        (65_535, 1, &[1, 2, 3]),
        (65_535, 2, &[2, 3]),
        (65_536, 65_536, &[0, 2, 3]),
        (65_536, 65_537, &[0, 3]),
        (70_000, 61_072, &[0, 2, 3]),
        (70_000, 61_073, &[0, 3]),
        (1, 262_143, &[]),
    ];
    for (first, length, free) in rows {
        let set = taken_in(alloc, 262_144, &[Taken::Extent(first, length)])?;
        let found = lowest(alloc, &set, 4)?;
        assert_eq!(rt; found.as_slice(), free, "{length} bytes from {first} on");
        assert_eq!(rt; set.free() as usize, free.len());
    }
    Ok(())
}

#[test]
fn the_longest_data_area_has_its_last_page(rt: HostRuntime) -> Result<(), Fail> {
    let alloc = rt.alloc();
    let set = taken_in(alloc, MAX_ROOM, &[Taken::Extent(0, 1_073_676_288)])?;
    assert_eq!(rt; set.free(), 1);
    assert_eq!(rt;
        lowest(alloc, &set, 16_384)?.as_slice(),
        [16_383].as_slice()
    );
    assert!(rt; set.is_free(16_383));
    assert!(rt; !set.is_free(16_382));
    assert!(rt; !set.is_free(16_384), "it is no page");
    let all = taken_in(alloc, MAX_ROOM, &[])?;
    assert_eq!(rt; lowest(alloc, &all, 16_384)?.len(), 16_384);
    Ok(())
}

// A map of these pages.
fn map_of(alloc: Global, pages: &[u16]) -> Result<Vec<u8>, Fail> {
    let mut map = Vec::with_capacity(alloc, MAP_LEN as usize)?;
    if pages.len() > MAX_PAGES as usize {
        return Err(Unmet)?;
    }
    fill_map(&mut map, pages);
    Ok(map)
}

// What the reading of the first entries of a map answers.
fn read(alloc: Global, map: &[u8], set: &mut PageSet) -> Result<Result<Vec<u16>, BadEntry>, Fail> {
    if map.len() > MAP_LEN as usize || map.len() % 2 != 0 {
        return Err(Unmet)?;
    }
    let mut pages = Vec::with_capacity(alloc, MAX_PAGES as usize)?;
    match read_map(map, (map.len() / 2) as u32, set, &mut pages) {
        Ok(()) => Ok(Ok(pages)),
        Err(entry) => Ok(Err(entry)),
    }
}

#[test]
fn a_map_has_two_bytes_for_a_page(rt: HostRuntime) -> Result<(), Fail> {
    let alloc = rt.alloc();
    assert_eq!(rt; map_of(alloc, &[])?.as_slice(), [0, 0].as_slice());
    let map = map_of(alloc, &[3, 258, 16_383])?;
    assert_eq!(rt; map.as_slice(), [3, 0, 2, 1, 255, 63].as_slice());
    let mut set = taken_in(alloc, MAX_ROOM, &[Taken::Pages(&[0, 4])])?;
    let Ok(pages) = read(alloc, map.as_slice(), &mut set)? else {
        return Err(Unmet)?;
    };
    assert_eq!(rt; pages.as_slice(), [3, 258, 16_383].as_slice());
    assert_eq!(rt; set.free(), 16_379);
    assert!(rt; !set.is_free(258));
    Ok(())
}

#[test]
fn the_first_bad_entry_is_the_answer(rt: HostRuntime) -> Result<(), Fail> {
    let alloc = rt.alloc();
    // A map in a data area of four pages, where bytes 70,000 to 70,999 are a file's, and its first bad entry.
    let rows: [(&[u8], u32, u16); 6] = [
        (&[4, 0], 0, 4),
        (&[0, 1], 0, 256),
        (&[0, 0, 2, 0, 0, 0], 2, 0),
        (&[0, 0, 1, 0, 3, 0], 1, 1),
        (&[2, 0, 2, 0, 9, 0], 1, 2),
        (&[3, 0, 9, 0, 3, 0], 1, 9),
    ];
    for (map, index, page) in rows {
        let mut set = taken_in(alloc, 262_144, &[Taken::Extent(70_000, 1_000)])?;
        let answer = read(alloc, map, &mut set)?.err();
        assert_eq!(rt;
            answer,
            Some(BadEntry { index, page }),
            "entry {index}: {page}"
        );
    }
    Ok(())
}
