// Files and where each stands, in room that was taken once.
ghost use Rattle.std.specs.Prelude.{◌≡◌, ℕ, List, ◌+◌, ◌*◌, ◌^◌, ◌<◌, ◌≤◌, [], ◌∷◌, ◌++◌, length, drop, find, filter, sum_by, option_map, map, None, Some, OnOk, IfOk, IfErr, IfSome, vec_len, vec_capacity};
ghost use Rattle.sg_placing.specs.Placing.{same_file, is_listed};
ghost use Rattle.sg_disk.specs.Contents.{Segment, page_at};
ghost use Rattle.sg_pages.specs.Pages.{Marks};
ghost use Rattle.sg_pages.specs.Maps.{pages_of, bad_entry};
ghost use Rattle.sg_pages.specs.Shelves.{pages_for, stands, stands_in, found_at, stand_in, byte_place, IsFilled};

use crate::maps::{BadEntry, MAP_ENTRY_LEN, read_map};
use crate::page_set::{MAX_PAGES, PageSet};
use sg_base::Listed;
use sg_base::limits::MANIFEST_FILES;
use sg_disk::{DATA, PAGE};
use sg_placing::{Placed, is_listed, is_same};
use std::alloc::{AllocError, Global};
use std::marker::Model;
use std::mem::swap;

/// A file that was found on a shelf.
#[derive(Clone, Copy, Debug, PartialEq, Eq)]
pub struct Found {
    pub placed: Placed,
    /// Which of the shelf's pages is its first one, if it stands in pages.
    pub first: u32,
}

/// Room for the files of a snapshot and for their pages, taken once. Contracts see it as both lists (`Shelved`), and as where
/// each file stands (`stands`).
#[derive(Debug, Drop)]
pub struct Shelf {
    files: Vec<Placed>,
    pages: Vec<u16>,
}

impl Model for Shelf {
    ghost use Rattle.std.specs.Prelude.{vec_len, vec_capacity, ◌≤◌};
    ghost use Rattle.sg_base.specs.declared.limits.TheConstants.{MANIFEST_FILES};
    ghost use Rattle.sg_pages.specs.Shelves.{Shelved};
    ghost use Rattle.sg_pages.specs.declared.page_set.TheConstants.{MAX_PAGES};

    ghost Value = { Shelved };

    ghost view = { λ s. record { files = s.files.items; pages = s.pages.items } };

    ghost invariant = { λ s. (MANIFEST_FILES ≤ vec_capacity s.files)
        × (MAX_PAGES ≤ vec_capacity s.pages) × (vec_len s.files ≤ MANIFEST_FILES) };
}

impl Shelf {
    /// An empty one. It takes all the memory that its later calls need.
    pub fn reserve(alloc: Global) -> Result<Shelf, AllocError>
        ensures { IfOk result (λ s. s ≡ record { files = []; pages = [] }) }
    {
        let files = Vec::with_capacity(alloc, MANIFEST_FILES as usize)?;
        let pages = Vec::with_capacity(alloc, MAX_PAGES as usize)?;
        Ok(Shelf { files, pages })
    }

    /// The files in it, in the order in which they came.
    pub fn files(&self) -> &[Placed]
        ensures { result.now ≡ self.now.files }
    {
        self.files.as_slice()
    }

    /// The pages of all its files, in the same order.
    pub fn pages(&self) -> &[u16]
        ensures { result.now ≡ self.now.pages }
    {
        self.pages.as_slice()
    }

    /// How many pages its files need.
    pub fn page_count(&self) -> u32
        ensures { result ≡ sum_by pages_for self.now.files }
    {
        count_pages(self.files.as_slice())
    }

    /// Reads the pages of a map behind those that it has, and takes each into a set. It stops at the first entry that names no
    /// page of the data area, or one that the set has already.
    pub fn read_map(&mut self, bytes: &[u8], count: u32, set: &mut PageSet) -> Result<(), BadEntry>
        requires bytes { length bytes.now ≡ MAP_ENTRY_LEN * count }
        requires room { length self.old.pages + count ≤ MAX_PAGES }
        ensures files { self.new.files ≡ self.old.files }
        ensures pages { OnOk result (self.new.pages
            ≡ self.old.pages ++ pages_of bytes.now count) }
        ensures marks { OnOk result ((taken : List Segment) → Marks taken set.old
            → Marks (taken ++ map page_at (pages_of bytes.now count)) set.new) }
        ensures sound { OnOk result ((taken : List Segment) → Marks taken set.old
            → bad_entry (length set.old) taken 0 (pages_of bytes.now count) ≡ None) }
        ensures bad { IfErr result (λ entry. (taken : List Segment) → Marks taken set.old
            → bad_entry (length set.old) taken 0 (pages_of bytes.now count) ≡ Some entry) }
        ensures long { length set.new ≡ length set.old }
    {
        read_map(bytes, count, set, &mut self.pages)
    }

    /// Takes all files out.
    pub fn clear(&mut self)
        ensures { self.new ≡ record { files = []; pages = [] } }
    {
        self.files.clear();
        self.pages.clear();
    }

    /// Puts a file behind the others, with the pages that it has.
    pub fn push(&mut self, file: Placed, pages: &[u16])
        requires few { length self.old.files < MANIFEST_FILES }
        requires pages { length self.old.pages + length pages.now ≤ MAX_PAGES }
        ensures both { self.new ≡ record {
          files = self.old.files ++ file ∷ [];
          pages = self.old.pages ++ pages.now;
        } }
        ensures stands { IsFilled self.old → length pages.now ≡ pages_for file
            → stands self.new ≡ stands self.old
            ++ record { file = file.file; stand = stand_in pages.now file } ∷ [] }
        ensures filled { IsFilled self.old → length pages.now ≡ pages_for file → IsFilled self.new }
    {
        push_file(&mut self.files, file);
        push_pages(&mut self.pages, pages);
    }

    /// Puts a file that was found on another shelf behind the others, with its pages.
    pub fn push_found(&mut self, found: &Found, from: &Shelf)
        requires few { length self.old.files < MANIFEST_FILES }
        requires found { found.now.first + pages_for found.now.placed ≤ length from.now.pages }
        requires pages { length self.old.pages + pages_for found.now.placed ≤ MAX_PAGES }
        ensures files { self.new.files ≡ self.old.files ++ found.now.placed ∷ [] }
        ensures pages { length self.new.pages
            ≡ length self.old.pages + pages_for found.now.placed }
        ensures stands { IsFilled self.old → stands self.new
            ≡ stands self.old ++ found_at from.now.pages found.now ∷ [] }
        ensures filled { IsFilled self.old → IsFilled self.new }
    {
        let first = found.first as usize;
        let end = first + pages_for(&found.placed) as usize;
        self.push(found.placed, &from.pages[first..end]);
    }

    /// Takes out the files that aren't among these, by means of another shelf. It goes over these once for each file in it, at
    /// most 512 by 512.
    pub fn keep(&mut self, files: &[Listed], spare: &mut Shelf)
        requires filled { IsFilled self.old }
        requires few { length self.old.files ≤ MANIFEST_FILES }
        requires pages { length self.old.pages ≤ MAX_PAGES }
        ensures stands { stands self.new
            ≡ filter (λ f. is_listed files.now f.file) (stands self.old) }
        ensures filled { IsFilled self.new }
    {
        spare.clear();
        put_kept(self, files, spare);
        swap(self, spare);
    }

    /// The place on the disk of a byte of a file that was found on this shelf. From there on stand the bytes up to the file's
    /// end, or up to the end of the page if it stands in pages.
    pub fn place_of(&self, found: &Found, offset: u32) -> u64
        requires found { found.now.first + pages_for found.now.placed ≤ length self.now.pages }
        requires offset { offset < found.now.placed.file.length }
        requires place { found.now.placed.place + found.now.placed.file.length < 2 ^ 64 }
        ensures { result ≡ byte_place
            (stand_in (drop found.now.first self.now.pages) found.now.placed) offset }
    {
        if found.placed.place != 0 {
            return found.placed.place + u64::from(offset);
        }
        let page = self.pages[found.first as usize + (u64::from(offset) / PAGE) as usize];
        DATA + PAGE * u64::from(page) + u64::from(offset) % PAGE
    }

    /// The first of its files that is the listed one. It goes over the files once.
    pub fn find(&self, file: &Listed) -> Option<Found>
        ensures found { option_map (found_at self.now.pages) result
            ≡ find (λ f. same_file f.file file.now) (stands self.now) }
        ensures inside { IfSome result (λ f. IsFilled self.now
            → f.first + pages_for f.placed ≤ length self.now.pages) }
    {
        find_from(self.files.as_slice(), file)
    }
}

// Puts a file behind others, in room that is there.
fn push_file(files: &mut Vec<Placed>, file: Placed)
    requires { vec_len files.old + 1 ≤ vec_capacity files.old }
    ensures items { files.new.items ≡ files.old.items ++ file ∷ [] }
    ensures len { vec_len files.new ≡ vec_len files.old + 1 }
    ensures room { vec_capacity files.old ≤ vec_capacity files.new }
{
    match files.push(file) {
        Ok(()) => {}
        Err(_) => unreachable!(),
    }
}

// Puts pages behind others, in room that is there.
fn push_pages(pages: &mut Vec<u16>, more: &[u16])
    requires { vec_len pages.old + length more.now ≤ vec_capacity pages.old }
    ensures items { pages.new.items ≡ pages.old.items ++ more.now }
    ensures room { vec_capacity pages.old ≤ vec_capacity pages.new }
{
    match pages.extend_from_slice(more) {
        Ok(()) => {}
        Err(_) => unreachable!(),
    }
}

/// How many pages a file has on a shelf.
pub fn pages_for(placed: &Placed) -> u32
    ensures value { result ≡ pages_for placed.now }
    ensures few { result ≤ 65536 }
{
    if placed.place != 0 {
        return 0;
    }
    u64::from(placed.file.length).div_ceil(PAGE) as u32
}

// How many pages these files need.
fn count_pages(files: &[Placed]) -> u32
    requires { length files.now ≤ MANIFEST_FILES }
    ensures { result ≡ sum_by pages_for files.now }
{
    let mut count = 0;
    for placed in files {
        count += pages_for(placed);
    }
    count
}

// The first of these files that is the listed one.
fn find_from(files: &[Placed], file: &Listed) -> Option<Found>
    requires { length files.now ≤ MANIFEST_FILES }
    ensures found { (pages : List ℕ) → option_map (found_at pages) result
        ≡ find (λ f. same_file f.file file.now) (stands_in pages files.now) }
    ensures inside { IfSome result (λ f. f.first + pages_for f.placed
        ≤ sum_by pages_for files.now) }
{
    let mut first = 0;
    for placed in files {
        if is_same(&placed.file, file) {
            return Some(Found {
                placed: *placed,
                first,
            });
        }
        first += pages_for(placed);
    }
    None
}

// Puts those files of a shelf that are among these on an empty one.
fn put_kept(from: &Shelf, files: &[Listed], kept: &mut Shelf)
    requires filled { IsFilled from.now }
    requires few { length from.now.files ≤ MANIFEST_FILES }
    requires pages { length from.now.pages ≤ MAX_PAGES }
    requires empty { kept.old ≡ record { files = []; pages = [] } }
    ensures stands { stands kept.new
        ≡ filter (λ f. is_listed files.now f.file) (stands from.now) }
    ensures filled { IsFilled kept.new }
{
    let mut first = 0;
    for placed in from.files() {
        put_if_listed(
            from,
            &Found {
                placed: *placed,
                first,
            },
            files,
            kept,
        );
        first += pages_for(placed);
    }
}

// Puts a file that was found on a shelf on another one, if it is among these.
fn put_if_listed(from: &Shelf, found: &Found, files: &[Listed], kept: &mut Shelf)
    requires few { length kept.old.files < MANIFEST_FILES }
    requires found { found.now.first + pages_for found.now.placed ≤ length from.now.pages }
    requires pages { length kept.old.pages + pages_for found.now.placed ≤ MAX_PAGES }
    requires filled { IsFilled kept.old }
    ensures stands { stands kept.new ≡ stands kept.old ++ filter (λ f. is_listed files.now f.file)
        (found_at from.now.pages found.now ∷ []) }
    ensures filled { IsFilled kept.new }
    ensures few { length kept.new.files ≤ length kept.old.files + 1 }
    ensures pages { length kept.new.pages
        ≤ length kept.old.pages + pages_for found.now.placed }
{
    if is_listed(files, &found.placed.file) {
        kept.push_found(found, from);
    }
}
