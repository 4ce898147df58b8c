//! The loop of an hour: normal plays in turn, with the plays of interrupts between them, each interrupt as
//! often as its share of the hour asks for.
//!
//! Callers see a `Loop` as the list of its slots, which follow each other from second 0 to 3600.
//! `specs/Hour.antt` says which slots these are, `specs/Begin.antt` says the same by the begin of each play,
//! and `specs/Law.antt` how many seconds each interrupt and the normal plays then have.
#![tactic(auto)]

mod hour;
mod mix;
mod play;
mod rounds;

pub use hour::{Loop, build_loop, seconds_of, slot_at};
pub use play::{Interrupt, Play, Slot};
