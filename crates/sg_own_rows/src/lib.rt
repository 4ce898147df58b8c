//! A display's own rows, and the snapshot that its manifest has.
//!
//! Of all rows of the server a display has as its own the events that are for it or for one of its groups, and what these
//! and the display itself name, from row to row down to the media. `specs/Own.antt` says so as filters over all rows; the
//! code gathers what is named as ascending numbers, and looks each row up among them.
#![tactic(auto)]

mod copies;
mod names;
mod own;

pub use own::{Own, own_files, own_rows};
