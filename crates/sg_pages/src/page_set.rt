// A set of pages, with room that was taken once.
ghost use Rattle.std.specs.Prelude.{◌≡◌, ℕ, ◌+◌, ◌*◌, ◌/◌, ◌<◌, ◌≤◌, List, [], ◌∷◌, ◌++◌, length, take, map, All, IfOk, vec_len, vec_capacity, nat_lt, ◌&&◌, not, true};
ghost use Rattle.sg_disk.specs.Contents.{Segment, IsInside, page_at};
ghost use Rattle.std.specs.List.{flat_map};
ghost use Rattle.sg_pages.specs.Pages.{is_taken, free_pages, Marks};
ghost use Rattle.sg_pages.specs.Shelves.{all_taken_at, extent_of, stands, IsFilled, IsPlacedIn};

use crate::marks::{
    count_free, mark_extent, mark_page, mark_pages, mark_ranges, mark_shelf, put_lowest,
};
use crate::shelf::Shelf;
use sg_base::limits::MAX_ROOM;
use sg_disk::PAGE;
use sg_placing::Placed;
use std::alloc::{AllocError, Global};
use std::marker::Model;

/// How many pages the longest data area has.
pub const MAX_PAGES: u64 = 16_384;

/// A set of pages of a data area, which are the ones that are taken. Contracts see it as the list of its marks, one for each
/// page. It is made for no data area, and `clear` gives it one.
#[derive(Debug, Drop)]
pub struct PageSet {
    marks: Vec<bool>,
}

impl Model for PageSet {
    ghost use Rattle.std.specs.Prelude.{List, Bool, vec_len, vec_capacity, ◌≤◌};
    ghost use Rattle.sg_pages.specs.declared.page_set.TheConstants.{MAX_PAGES};

    ghost Value = { List Bool };

    ghost view = { λ s. s.marks.items };

    ghost invariant = { λ s. (MAX_PAGES ≤ vec_capacity s.marks) × (vec_len s.marks ≤ MAX_PAGES) };
}

impl PageSet {
    /// The set for no data area. It takes all the memory that its later calls need.
    pub fn reserve(alloc: Global) -> Result<PageSet, AllocError>
        ensures { IfOk result (λ s. s ≡ []) }
    {
        let marks = Vec::with_capacity(alloc, MAX_PAGES as usize)?;
        Ok(PageSet { marks })
    }

    /// Makes it the set of no page, for a data area of `room` bytes.
    pub fn clear(&mut self, room: u64)
        requires { room ≤ MAX_ROOM }
        ensures long { length self.new ≡ room / PAGE }
        ensures none { Marks [] self.new }
    {
        self.marks.clear();
        match self.marks.resize((room / PAGE) as usize, false) {
            Ok(()) => {}
            Err(_) => unreachable!(),
        }
    }

    /// Takes a page in.
    pub fn add_page(&mut self, page: u16)
        requires { page < length self.old }
        ensures long { length self.new ≡ length self.old }
        ensures marks { (taken : List Segment) → Marks taken self.old
            → Marks (taken ++ page_at page ∷ []) self.new }
    {
        mark_page(self.marks.as_mut_slice(), page);
    }

    /// Takes pages in.
    pub fn add_pages(&mut self, pages: &[u16])
        requires { All (λ page. page < length self.old) pages.now }
        ensures long { length self.new ≡ length self.old }
        ensures marks { (taken : List Segment) → Marks taken self.old
            → Marks (taken ++ map page_at pages.now) self.new }
    {
        mark_pages(self.marks.as_mut_slice(), pages);
    }

    /// Takes in each page of which `size` bytes at a place, counted from the disk's start, have a byte.
    pub fn add_extent(&mut self, place: u64, size: u32)
        requires { IsInside (PAGE * length self.old) (record { place = place; size = size }) }
        ensures long { length self.new ≡ length self.old }
        ensures marks { (taken : List Segment) → Marks taken self.old
            → Marks (taken ++ record { place = place; size = size } ∷ []) self.new }
    {
        mark_extent(self.marks.as_mut_slice(), place, size);
    }

    /// Takes in each page that those of these files touch that stand in a range.
    pub fn add_ranges(&mut self, files: &[Placed])
        requires { All (IsPlacedIn (PAGE * length self.old)) files.now }
        ensures long { length self.new ≡ length self.old }
        ensures marks { (taken : List Segment) → Marks taken self.old
            → Marks (taken ++ flat_map extent_of files.now) self.new }
    {
        mark_ranges(self.marks.as_mut_slice(), files);
    }

    /// Takes in what the files of a shelf take.
    pub fn add_shelf(&mut self, shelf: &Shelf)
        requires filled { IsFilled shelf.now }
        requires files { All (IsPlacedIn (PAGE * length self.old)) shelf.now.files }
        requires pages { All (λ page. page < length self.old) shelf.now.pages }
        ensures long { length self.new ≡ length self.old }
        ensures marks { (taken : List Segment) → Marks taken self.old
            → Marks (taken ++ all_taken_at (stands shelf.now)) self.new }
    {
        mark_shelf(self.marks.as_mut_slice(), shelf);
    }

    /// Whether it is a page of the data area that isn't taken.
    pub fn is_free(&self, page: u16) -> bool
        ensures inside { result ≡ true → page < length self.now }
        ensures free { (taken : List Segment) → Marks taken self.now
            → result ≡ (nat_lt page (length self.now) && not (is_taken taken page)) }
    {
        (page as usize) < self.marks.len() && !self.marks[page as usize]
    }

    /// How many pages aren't taken.
    pub fn free(&self) -> u32
        ensures { (taken : List Segment) → Marks taken self.now
            → result ≡ length (free_pages taken (length self.now)) }
    {
        count_free(self.marks.as_slice())
    }

    /// Puts the lowest pages that aren't taken behind others: `need` of them, or all if there are fewer. It goes over all pages
    /// once.
    pub fn put_lowest(&self, need: u32, pages: &mut Vec<u16>)
        requires { vec_len pages.old + need ≤ vec_capacity pages.old }
        ensures pages { (taken : List Segment) → Marks taken self.now
            → pages.new.items ≡ pages.old.items ++ take need (free_pages taken (length self.now)) }
        ensures room { vec_capacity pages.old ≤ vec_capacity pages.new }
    {
        put_lowest(self.marks.as_slice(), need, pages);
    }
}
