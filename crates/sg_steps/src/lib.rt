//! The steps of the server: what an edit, an enrolment and a batch of plays make of its tables and of its keeper's rows.
//!
//! `specs/State.antt` has what a server has in memory, its `Core`, and which rows of a keeper stand for it; `specs/Step.antt`
//! what an edit is answered and which server it leaves, by cases in the order of the rules, and `specs/Epochs.antt` the same
//! of enrolments and batches. The functions here work on the tables, clients and epochs that they are lent, and on a keeper.
//! What the keeper is to change is said by what the changes make of its rows (`specs/Calls.antt`). [`make`] makes them and
//! puts an element of a table, both or neither.
#![tactic(auto)]

mod edit;
mod epochs;
mod executing;
mod fault;
mod given;
mod playing;
mod replies;

pub use edit::{Edit, read_edit};
pub use epochs::epoch_after;
pub use executing::{attempt, changes_of, drop_pieces, make, pieces_of};
pub use fault::CmsFault;
pub use given::{expected, given_reply};
pub use playing::{add_plays, give_epoch};
pub use replies::{EnrolReply, PlaysReply};
