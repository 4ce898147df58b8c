//! The server of a keeper's rows, as a command opens it before its work.
//!
//! [`open_server`] loads it, with as many plays to an epoch as the program allows. `specs/Opening.antt` says what is known of it, and why it may
//! not be opened, as the end of a command.
#![tactic(auto)]

mod opening;

pub use opening::open_server;
