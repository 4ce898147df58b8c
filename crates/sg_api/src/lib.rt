//! The server as it answers HTTP: from a message's bytes to the step of its records and back.
//!
//! [`Server`] is an `Answerer` of sg_connection over any keeper of rows, by the rule `Answered` of `specs/Rule.antt`: a
//! step of the server and its outcome, or 503 where the keeper failed, or 507 where memory ran out, and then nothing
//! was changed. `specs/Folds.antt` says what many messages leave: the server stands for the fold of the steps that were
//! made, and no more 503s were told than the keeper has faults. [`answered_in_turn`] has these laws for each connection
//! and for the connections of a door.
#![tactic(auto)]

mod body;
mod laws;
mod message;
mod server;
mod steps;

pub use laws::answered_in_turn;
pub use server::{Gate, Server, serve_clients};
