//! The server's replies in JSON, as the bytes of their bodies.
//!
//! `specs/Bodies.antt` has one table: the JSON of each reply and its status. Every body is made in fixed room, so that the reply
//! to a change that was made can't want memory, and want of memory can be told.
#![tactic(auto)]

mod edit;
mod parts;
mod refusal;
mod saying;

pub use edit::reply_body;
pub use refusal::Refusal;
pub use saying::Saying;
