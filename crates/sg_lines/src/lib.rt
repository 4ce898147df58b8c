//! The lines of a source, one after another.
//!
//! A line ends with a line feed, the last one possibly not; no other byte is dropped. [`Lines`] takes pieces of the source and holds
//! the bytes that it hasn't given yet. `specs/Reading.antt` says what is known after each answer.
#![tactic(auto)]

mod lines;
mod stop;

pub use lines::Lines;
pub use stop::LineStop;
