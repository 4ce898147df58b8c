//! `serve`: the server as a command.
//!
//! [`serve`] loads the server from its keeper's rows, so that bad rows are told, serves the connections of a door, and
//! writes how many of them went back. `specs/Serves.antt` says its status, what it writes, and what it leaves.
#![tactic(auto)]

mod opening;
mod serving;

pub use serving::serve;
