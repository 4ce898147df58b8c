//! `edit`: the edits of an input, line by line, made over a keeper.
//!
//! [`edit`] opens the server of the keeper's rows, takes each line of its input as an edit's body, and prints the reply to each.
//! `specs/Asking.antt` says what a line asks, and what lines make of a server; `specs/Reading.antt` how the input is read; and
//! `specs/Edits.antt` how a run ends: its status, what it printed and the keeper's rows after it.
#![tactic(auto)]

mod answering;
mod editing;
mod saying;

pub use editing::edit;
pub use saying::Said;
