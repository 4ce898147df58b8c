//! The bodies of messages to the server, which are JSON: edits and batches of plays.
//!
//! `specs/Bodies.antt` says what a body's JSON asks, and when it is no such body. Of an edit only whose it is and which
//! number it has is read here: what it asks of the rows is another question, with answers of its own. The module `read_back`
//! has the law that a batch which is written is read as just that.
#![tactic(auto)]

mod body;
mod edit;
mod plays;
mod read_back;

pub use body::{BodyFault, read_json};
pub use edit::{EditBody, read_edit_body};
pub use plays::{PlaysBody, read_plays_body};
pub use read_back::batches_read_back;
