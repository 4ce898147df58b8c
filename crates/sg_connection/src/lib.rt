//! One connection of a server, from its first byte to its end: each message is answered in turn.
//!
//! What answers is an [`Answerer`], with a keeper beside it; of both this crate knows only the rule by which they answer. The
//! messages are those of the stream that was taken, however it came in pieces (`specs/Taking.antt`), and `specs/Serving.antt`
//! says what a connection was: the bytes taken, the messages with their answers, and how it ended.
#![tactic(auto)]

mod answer;
mod door;
mod inbox;
mod receive;
mod send;
mod serve;

pub use answer::{Answer, Answerer, Body};
pub use door::{Served, serve_door};
pub use serve::{ConnEnd, serve_connection};
