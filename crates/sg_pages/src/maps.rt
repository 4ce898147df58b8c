// The bytes of a map, and what they say.
ghost use Rattle.std.specs.Prelude.{◌≡◌, ℕ, ◌+◌, ◌*◌, ◌≤◌, List, ◌++◌, length, map, None, Some, IfErr, OnOk, vec_len, vec_capacity};
ghost use Rattle.sg_disk.specs.Contents.{Segment, page_at};
ghost use Rattle.sg_pages.specs.Pages.{Marks};
ghost use Rattle.sg_pages.specs.Maps.{le16, u16_at, map_bytes, pages_of, bad_entry};

use crate::marks::push_page;
use crate::page_set::{MAX_PAGES, PageSet};

/// The length of a map in bytes, and that of an entry of it.
pub const MAP_LEN: u64 = 32_768;

pub const MAP_ENTRY_LEN: u64 = 2;

/// An entry of a map that names no page of the data area, or one that is taken.
#[derive(Clone, Copy, Debug, PartialEq, Eq)]
pub struct BadEntry {
    /// Which entry it is, counted from 0.
    pub index: u32,
    /// The number that it has.
    pub page: u16,
}

/// Makes the map of these pages in a buffer: an entry for each, or one of zeros where there is none. It takes no memory.
pub fn fill_map(map: &mut Vec<u8>, pages: &[u16])
    requires room { MAP_LEN ≤ vec_capacity map.old }
    requires few { length pages.now ≤ MAX_PAGES }
    ensures items { map.new.items ≡ map_bytes pages.now }
    ensures len { vec_len map.new ≤ MAP_LEN }
    ensures room { MAP_LEN ≤ vec_capacity map.new }
{
    map.clear();
    if pages.is_empty() {
        put_page(map, 0);
        return;
    }
    for page in pages {
        put_page(map, *page);
    }
}

// Puts a page's entry behind the others, in room that is there.
fn put_page(map: &mut Vec<u8>, page: u16)
    requires { vec_len map.old + MAP_ENTRY_LEN ≤ vec_capacity map.old }
    ensures items { map.new.items ≡ map.old.items ++ le16 page }
    ensures len { vec_len map.new ≡ vec_len map.old + MAP_ENTRY_LEN }
    ensures room { vec_capacity map.old ≤ vec_capacity map.new }
{
    match map.extend_from_slice(&page.to_le_bytes()) {
        Ok(()) => {}
        Err(_) => unreachable!(),
    }
}

// The page of an entry of a map.
fn page_in(bytes: &[u8], index: u32) -> u16
    requires { MAP_ENTRY_LEN * index + MAP_ENTRY_LEN ≤ length bytes.now }
    ensures { result ≡ u16_at bytes.now (MAP_ENTRY_LEN * index) }
{
    let at = MAP_ENTRY_LEN as usize * index as usize;
    let mut word = [0; 2];
    word.copy_from_slice(&bytes[at..at + 2]);
    u16::from_le_bytes(word)
}

/// Reads the pages of a map, takes each into a set, and puts it behind others. It stops at the first entry that names no page
/// of the data area, or one that the set has already: from what it had before, or from an earlier entry.
pub fn read_map(
    bytes: &[u8],
    count: u32,
    set: &mut PageSet,
    pages: &mut Vec<u16>,
) -> Result<(), BadEntry>
    requires bytes { length bytes.now ≡ MAP_ENTRY_LEN * count }
    requires room { vec_len pages.old + count ≤ vec_capacity pages.old }
    ensures pages { OnOk result (pages.new.items ≡ pages.old.items ++ pages_of bytes.now count) }
    ensures marks { OnOk result ((taken : List Segment) → Marks taken set.old
        → Marks (taken ++ map page_at (pages_of bytes.now count)) set.new) }
    ensures sound { OnOk result ((taken : List Segment) → Marks taken set.old
        → bad_entry (length set.old) taken 0 (pages_of bytes.now count) ≡ None) }
    ensures bad { IfErr result (λ entry. (taken : List Segment) → Marks taken set.old
        → bad_entry (length set.old) taken 0 (pages_of bytes.now count) ≡ Some entry) }
    ensures long { length set.new ≡ length set.old }
    ensures room { vec_capacity pages.old ≤ vec_capacity pages.new }
{
    for index in 0..count {
        let page = page_in(bytes, index);
        if !set.is_free(page) {
            return Err(BadEntry { index, page });
        }
        set.add_page(page);
        push_page(pages, page);
    }
    Ok(())
}
