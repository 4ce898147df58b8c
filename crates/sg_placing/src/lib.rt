//! Where a new file goes in the data area of a store.
//!
//! A file that is there already is a `Placed`: the file as listed, and where its bytes begin. A gap is what no placed
//! file covers. `specs/Placing.antt` says what is free and which gap is the lowest or the longest, over the list of all
//! placed files. It is the only place that knows that a file is one range of bytes.
#![tactic(auto)]

mod gaps;
mod placed;
mod shelf;

pub use gaps::{longest_gap, lowest_gap};
pub use placed::Placed;
pub use shelf::{Shelf, find_file, find_media, is_listed, is_same};
