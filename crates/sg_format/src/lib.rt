//! The making of a new store, whose files will stand in pages.
//!
//! `format` makes one of any disk, whatever it holds. After `Ok` the disk is settled with the contents `fresh` of `sg_disk`, of
//! which `StandsFor` of `sg_contents` speaks. `specs/Formatting.antt` has the bytes of its header.
#![tactic(auto)]

mod formatting;

pub use formatting::format;
pub use sg_slots::Format;
