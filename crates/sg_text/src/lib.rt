//! A short text in fixed room, which takes no memory. Contracts see it as its bytes.
#![tactic(auto)]

mod text;

pub use text::{TEXT_ROOM, Text};
