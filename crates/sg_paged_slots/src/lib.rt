//! The header of a store of either format, and the slots of one whose files stand in pages, or in ranges as older stores have
//! them.
//!
//! `read_any_header` reads the header (`specs/Headers.antt`), and `read_paged_slots` both slots with their maps
//! (`specs/PagedSlots.antt`): each makes the checks of an opening in their order.
//! `read_files` takes the entries of a table, and then `read_pages` the map behind them. Each stops at the first fault, with its
//! place and what was found there; `specs/PagedDamage.antt` has the checks in their order. Neither makes a call of the disk.
//! `fill_paged_slot` writes a slot and its map behind the closed gate. No gate is opened here.
#![tactic(auto)]

mod headers;
mod pages;
mod reads;
mod tables;
mod writes;

pub use headers::{Header, read_any_header};
pub use pages::read_pages;
pub use reads::{read_paged_slot, read_paged_slots};
pub use tables::read_files;
pub use writes::fill_paged_slot;
