// Marks of pages, one for each page of a data area.
ghost use Rattle.std.specs.Prelude.{◌≡◌, ℕ, ◌+◌, ◌*◌, ◌<◌, ◌≤◌, List, [], ◌∷◌, ◌++◌, length, take, map, All, vec_len, vec_capacity};
ghost use Rattle.sg_disk.specs.Contents.{Segment, IsInside, page_at};
ghost use Rattle.std.specs.List.{flat_map};
ghost use Rattle.sg_pages.specs.Pages.{free_pages, Marks};
ghost use Rattle.sg_pages.specs.Shelves.{all_taken_at, extent_of, stands, IsFilled, IsPlacedIn};

use crate::page_set::MAX_PAGES;
use crate::shelf::Shelf;
use sg_disk::{DATA, PAGE};
use sg_placing::Placed;

/// Marks a page.
pub(crate) fn mark_page(marks: &mut [bool], page: u16)
    requires { page < length marks.old }
    ensures { (taken : List Segment) → Marks taken marks.old
        → Marks (taken ++ page_at page ∷ []) marks.new }
{
    marks[page as usize] = true;
}

/// Marks pages.
pub(crate) fn mark_pages(marks: &mut [bool], pages: &[u16])
    requires { All (λ page. page < length marks.old) pages.now }
    ensures { (taken : List Segment) → Marks taken marks.old
        → Marks (taken ++ map page_at pages.now) marks.new }
{
    for page in pages {
        mark_page(marks, *page);
    }
}

/// Marks each page of which `size` bytes at a place have a byte.
pub(crate) fn mark_extent(marks: &mut [bool], place: u64, size: u32)
    requires few { length marks.old ≤ MAX_PAGES }
    requires inside { IsInside (PAGE * length marks.old) (record { place = place; size = size }) }
    ensures { (taken : List Segment) → Marks taken marks.old
        → Marks (taken ++ record { place = place; size = size } ∷ []) marks.new }
{
    let begin = place - DATA;
    let first = begin / PAGE;
    let end = (begin + u64::from(size)).div_ceil(PAGE);
    for page in first as usize..end as usize {
        marks[page] = true;
    }
}

// Marks the pages that a file with a place touches.
fn mark_range_of(marks: &mut [bool], placed: &Placed)
    requires few { length marks.old ≤ MAX_PAGES }
    requires inside { IsPlacedIn (PAGE * length marks.old) placed.now }
    ensures { (taken : List Segment) → Marks taken marks.old
        → Marks (taken ++ extent_of placed.now) marks.new }
{
    if placed.place != 0 {
        mark_extent(marks, placed.place, placed.file.length);
    }
}

/// Marks the pages that those of these files touch that have a place.
pub(crate) fn mark_ranges(marks: &mut [bool], files: &[Placed])
    requires few { length marks.old ≤ MAX_PAGES }
    requires inside { All (IsPlacedIn (PAGE * length marks.old)) files.now }
    ensures { (taken : List Segment) → Marks taken marks.old
        → Marks (taken ++ flat_map extent_of files.now) marks.new }
{
    for placed in files {
        mark_range_of(marks, placed);
    }
}

/// Marks what the files of a shelf take.
pub(crate) fn mark_shelf(marks: &mut [bool], shelf: &Shelf)
    requires few { length marks.old ≤ MAX_PAGES }
    requires filled { IsFilled shelf.now }
    requires files { All (IsPlacedIn (PAGE * length marks.old)) shelf.now.files }
    requires pages { All (λ page. page < length marks.old) shelf.now.pages }
    ensures { (taken : List Segment) → Marks taken marks.old
        → Marks (taken ++ all_taken_at (stands shelf.now)) marks.new }
{
    mark_ranges(marks, shelf.files());
    mark_pages(marks, shelf.pages());
}

/// How many pages have no mark.
pub(crate) fn count_free(marks: &[bool]) -> u32
    requires { length marks.now ≤ MAX_PAGES }
    ensures { (taken : List Segment) → Marks taken marks.now
        → result ≡ length (free_pages taken (length marks.now)) }
{
    let mut free = 0;
    for page in 0..marks.len() {
        if !marks[page] {
            free += 1;
        }
    }
    free
}

/// Puts a page behind others, in room that is there.
pub(crate) fn push_page(pages: &mut Vec<u16>, page: u16)
    requires { vec_len pages.old + 1 ≤ vec_capacity pages.old }
    ensures items { pages.new.items ≡ pages.old.items ++ page ∷ [] }
    ensures len { vec_len pages.new ≡ vec_len pages.old + 1 }
    ensures room { vec_capacity pages.old ≤ vec_capacity pages.new }
{
    match pages.push(page) {
        Ok(()) => {}
        Err(_) => unreachable!(),
    }
}

/// Puts the lowest pages without a mark behind others: `need` of them, or all if there are fewer.
pub(crate) fn put_lowest(marks: &[bool], need: u32, pages: &mut Vec<u16>)
    requires few { length marks.now ≤ MAX_PAGES }
    requires room { vec_len pages.old + need ≤ vec_capacity pages.old }
    ensures pages { (taken : List Segment) → Marks taken marks.now
        → pages.new.items ≡ pages.old.items ++ take need (free_pages taken (length marks.now)) }
    ensures room { vec_capacity pages.old ≤ vec_capacity pages.new }
{
    let mut left = need;
    for page in 0..marks.len() {
        if left != 0 && !marks[page] {
            push_page(pages, page as u16);
            left -= 1;
        }
    }
}
