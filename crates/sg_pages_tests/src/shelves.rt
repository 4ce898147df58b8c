// Shelves by example: where the files on one stand, which of them are kept, and which pages they take.
ghost use Rattle.std.specs.Prelude.{◌≡◌, ◌+◌, ◌*◌, ◌<◌, ◌≤◌, All, length, true, IfOk};
ghost use Rattle.sg_disk.specs.declared.places.TheConstants.{PAGE};
ghost use Rattle.sg_pages.specs.Shelves.{pages_for, IsFilled, IsPlacedIn, IsShelfIn};

use crate::tests::{Unmet, are_pages, lowest};
use sg_base::{Listed, MediaId};
use sg_disk::{DATA, PAGE};
use sg_pages::{Found, MAX_PAGES, NoSpace, PageSet, Shelf, choose_pages};
use sg_placing::Placed;
use std::alloc::Global;
use std::test::Fail;

// A file of so many bytes in pages.
fn in_pages(media: u32, size: u32) -> Placed {
    Placed {
        file: Listed {
            media: MediaId(media),
            length: size,
            md5: [(media & 127) as u8; 16],
        },
        place: 0,
    }
}

// One in a range, whose first byte is this one of the data area.
fn in_range(media: u32, first: u32, size: u32) -> Placed {
    Placed {
        place: DATA + u64::from(first),
        ..in_pages(media, size)
    }
}

// How many pages a file has.
fn pages_of(file: &Placed) -> u64
    ensures { result ≡ pages_for file.now }
{
    if file.place != 0 {
        return 0;
    }
    u64::from(file.file.length).div_ceil(PAGE)
}

// Puts a file on a shelf with the pages that it has.
fn put(shelf: &mut Shelf, file: Placed, pages: &[u16]) -> Result<(), Unmet>
    requires { IsFilled shelf.old }
    ensures { IsFilled shelf.new }
{
    let few = shelf.files().len() < 512 && shelf.pages().len() < 1_000 && pages.len() < 1_000;
    if !few || pages.len() as u64 != pages_of(&file) {
        return Err(Unmet);
    }
    shelf.push(file, pages);
    Ok(())
}

// A file of one page, one in a range, one that begins its third page, and one of a single byte.
fn files() -> [Placed; 4] {
    [
        in_pages(1, 65_536),
        in_range(2, 70_000, 1_000),
        in_pages(3, 131_073),
        in_pages(4, 1),
    ]
}

// A shelf with these files.
fn shelf_of_four(alloc: Global) -> Result<Shelf, Fail>
    ensures { IfOk result IsFilled }
{
    let [one, two, three, four] = files();
    let mut shelf = Shelf::reserve(alloc)?;
    put(&mut shelf, one, &[5])?;
    put(&mut shelf, two, &[])?;
    put(&mut shelf, three, &[0, 9, 2])?;
    put(&mut shelf, four, &[7])?;
    Ok(shelf)
}

#[test]
fn a_shelf_tells_where_its_files_stand(rt: HostRuntime) -> Result<(), Fail> {
    let [one, two, three, four] = files();
    let shelf = shelf_of_four(rt.alloc())?;
    assert_eq!(rt; shelf.pages(), [5, 0, 9, 2, 7].as_slice());
    // Each file with its place among the pages.
    for (placed, first) in [(one, 0), (two, 1), (three, 1), (four, 4)] {
        assert_eq!(rt; shelf.find(&placed.file), Some(Found { placed, first }));
    }
    // The same id and length with another digest is another file.
    let other = Listed {
        md5: [9; 16],
        ..three.file
    };
    assert_eq!(rt; shelf.find(&other), None);
    Ok(())
}

#[test]
fn a_shelf_keeps_the_files_that_are_listed(rt: HostRuntime) -> Result<(), Fail> {
    let [one, _, three, four] = files();
    let other = Listed {
        md5: [9; 16],
        ..three.file
    };
    let mut shelf = shelf_of_four(rt.alloc())?;
    let mut spare = Shelf::reserve(rt.alloc())?;
    if shelf.files().len() > 512 || shelf.pages().len() as u64 > MAX_PAGES {
        return Err(Unmet)?;
    }
    shelf.keep(&[four.file, other, one.file], &mut spare);
    assert_eq!(rt; shelf.files(), [one, four].as_slice());
    assert_eq!(rt; shelf.pages(), [5, 7].as_slice());
    assert_eq!(rt; shelf.find(&three.file), None);
    shelf.clear();
    assert!(rt; shelf.files().is_empty());
    assert!(rt; shelf.pages().is_empty());
    Ok(())
}

// Where a byte of a file stands, counted from the front of the data area.
fn place_in(shelf: &Shelf, file: &Placed, offset: u32) -> Result<u64, Fail>
    requires { IsFilled shelf.now }
{
    let Some(found) = shelf.find(&file.file) else {
        return Err(Unmet)?;
    };
    if offset >= found.placed.file.length || found.placed.place > 1_000_000_000 {
        return Err(Unmet)?;
    }
    Ok(shelf.place_of(&found, offset).saturating_sub(DATA))
}

#[test]
fn a_byte_stands_in_the_page_that_it_is_in(rt: HostRuntime) -> Result<(), Fail> {
    let [one, two, three, _] = files();
    let shelf = shelf_of_four(rt.alloc())?;
    // The third file has the pages 0, 9 and 2.
    let rows = [
        (one, 65_535, 393_215),
        (two, 0, 70_000),
        (two, 999, 70_999),
        (three, 0, 0),
        (three, 65_535, 65_535),
        (three, 65_536, 589_824),
        (three, 70_000, 594_288),
        (three, 131_072, 131_072),
    ];
    for (file, offset, place) in rows {
        assert_eq!(rt; place_in(&shelf, &file, offset)?, place, "byte {offset}");
    }
    Ok(())
}

// Whether those of these files that have a place lie in a data area of so many bytes.
fn are_placed_in(files: &[Placed], room: u64) -> bool
    ensures { result ≡ true → All (IsPlacedIn room) files.now }
{
    for placed in files {
        if !is_placed_in(placed, room) {
            return false;
        }
    }
    true
}

fn is_placed_in(placed: &Placed, room: u64) -> bool
    ensures { result ≡ true → IsPlacedIn room placed.now }
{
    let size = u64::from(placed.file.length);
    room < 1_000_000_000
        && (placed.place == 0
            || placed.place >= DATA
                && placed.place < 1_000_000_000
                && placed.place + size <= DATA + room)
}

// Takes in what the files of a shelf take, where they lie in a data area of ten pages.
fn take_shelf(set: &mut PageSet, shelf: &Shelf) -> Result<(), Unmet>
    requires filled { IsFilled shelf.now }
    requires ten { length set.old ≡ 10 }
{
    if !are_placed_in(shelf.files(), 655_360) || !are_pages(shelf.pages(), 10) {
        return Err(Unmet);
    }
    set.add_shelf(shelf);
    Ok(())
}

#[test]
fn what_a_shelf_takes_is_not_free(rt: HostRuntime) -> Result<(), Fail> {
    let shelf = shelf_of_four(rt.alloc())?;
    let mut set = PageSet::reserve(rt.alloc())?;
    set.clear(655_360);
    take_shelf(&mut set, &shelf)?;
    // Bytes 70,000 to 70,999 are in page 1.
    assert_eq!(rt; set.free(), 4);
    assert_eq!(rt;
        lowest(rt.alloc(), &set, 4)?.as_slice(),
        [3, 4, 6, 8].as_slice()
    );
    Ok(())
}

#[test]
fn a_found_file_goes_to_another_shelf(rt: HostRuntime) -> Result<(), Fail> {
    let [one, two, three, _] = files();
    let shelf = shelf_of_four(rt.alloc())?;
    let mut next = Shelf::reserve(rt.alloc())?;
    for placed in [three, two, one] {
        let Some(found) = shelf.find(&placed.file) else {
            return Err(Unmet)?;
        };
        if next.files().len() >= 512 || next.pages().len() >= 10_000 {
            return Err(Unmet)?;
        }
        if u64::from(found.first) + pages_of(&found.placed) > 5_000 {
            return Err(Unmet)?;
        }
        next.push_found(&found, &shelf);
    }
    assert_eq!(rt; next.files(), [three, two, one].as_slice());
    assert_eq!(rt; next.pages(), [0, 9, 2, 5].as_slice());
    Ok(())
}

// Whether the files of a shelf stand in a data area of three pages.
fn is_in_three(shelf: &Shelf) -> bool
    requires { IsFilled shelf.now }
    ensures { result ≡ true → IsShelfIn 196608 shelf.now }
{
    are_placed_in(shelf.files(), 196_608) && are_pages(shelf.pages(), 3)
}

// The pages that a file of so many gets beside two shelves, in a data area of three pages.
fn chosen(
    alloc: Global,
    current: &Shelf,
    staged: &Shelf,
    need: u32,
) -> Result<Result<Vec<u16>, NoSpace>, Fail>
    requires current { IsFilled current.now }
    requires staged { IsFilled staged.now }
{
    if !is_in_three(current) || !is_in_three(staged) {
        return Err(Unmet)?;
    }
    let mut set = PageSet::reserve(alloc)?;
    let mut pages = Vec::with_capacity(alloc, need as usize)?;
    match choose_pages(196_608, current, staged, need, &mut set, &mut pages) {
        Ok(()) => Ok(Ok(pages)),
        Err(fault) => Ok(Err(fault)),
    }
}

#[test]
fn a_file_gets_the_lowest_free_pages(rt: HostRuntime) -> Result<(), Fail> {
    let alloc = rt.alloc();
    let mut current = Shelf::reserve(alloc)?;
    let mut staged = Shelf::reserve(alloc)?;
    let none = chosen(alloc, &current, &staged, 4)?.err();
    assert_eq!(rt; none, Some(NoSpace { need: 4, free: 3 }));
    let Ok(all) = chosen(alloc, &current, &staged, 3)? else {
        return Err(Unmet)?;
    };
    assert_eq!(rt; all.as_slice(), [0, 1, 2].as_slice());
    // A snapshot with medium 2 alone, whose page is the middle one, leaves both others to a file of two pages.
    put(&mut current, in_pages(2, 65_536), &[1])?;
    let Ok(both) = chosen(alloc, &current, &staged, 2)? else {
        return Err(Unmet)?;
    };
    assert_eq!(rt; both.as_slice(), [0, 2].as_slice());
    put(&mut staged, in_pages(4, 131_072), both.as_slice())?;
    let none = chosen(alloc, &current, &staged, 1)?.err();
    assert_eq!(rt; none, Some(NoSpace { need: 1, free: 0 }));
    Ok(())
}

#[test]
fn a_refusal_says_what_is_free(rt: HostRuntime) -> Result<(), Fail> {
    let text = format!(in rt.alloc(); "{}", NoSpace { need: 2, free: 1 })?;
    assert_eq!(rt; text.as_str(), "2 pages are needed, and 1 are free");
    Ok(())
}
