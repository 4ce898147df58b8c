//! Files in pages: which pages of a data area are free, the maps that say which pages a snapshot's files have, and shelves.
//!
//! A page is 65,536 bytes of the data area. What files take of it, ranges or pages, callers give as segments of sg_disk, and
//! `specs/Pages.antt` says which pages no segment touches. A `PageSet` is a mark for each page. `specs/Maps.antt` has the bytes
//! of a map, and which of its entries is the first bad one. A `Shelf` has the files of a snapshot and all their pages, and
//! `specs/Shelves.antt` says where each file stands. `choose_pages` finds the pages of a new file.
#![tactic(auto)]

mod choosing;
mod maps;
mod marks;
mod page_set;
mod shelf;

pub use choosing::{NoSpace, choose_pages};
pub use maps::{BadEntry, MAP_ENTRY_LEN, MAP_LEN, fill_map, read_map};
pub use page_set::{MAX_PAGES, PageSet};
pub use shelf::{Found, Shelf, pages_for};
