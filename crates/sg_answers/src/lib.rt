//! What each message is answered, over a model of the server and not over its code.
//!
//! `specs/Keys.antt` says who may ask what, and `specs/Calls.antt` what a message asks for: a step of the server, or
//! none, and why. `specs/Answers.antt` has what becomes of it: the step with its outcome, or a fault of the keeper or
//! want of memory, which change nothing; `specs/Outcomes.antt` has the status, form and body of each outcome. The
//! functions here test keys and make outcomes and answers, none of which takes memory.
#![tactic(auto)]

mod keys;
mod outcome;
mod sayings;

pub use keys::may_ask;
pub use outcome::Outcome;
pub use sayings::{enrolled, file_found, manifest_made, piece_put, plays_taken, refused};
