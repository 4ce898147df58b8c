//! What the server answers to edits, and its rows as a keeper has them.
//!
//! `specs/Replies.antt` has the JSON and the status of each [`Reply`]. A [`Client`] is kept with its last number and the
//! reply to it (`specs/Clients.antt`), an [`Epoch`] with the number of its plays (`specs/Numbers.antt`), and every other row
//! as JSON, a medium with what has come of it (`specs/Saved.antt`). Reading gives what is kept exactly where the key is its
//! own and the bytes are a text of it. A row that a server wrote before version 2 is read too.
#![tactic(auto)]

mod client;
mod epoch;
mod members;
mod numbers;
mod reply;
mod saved;
mod text;

pub use client::{Client, read_client, write_client};
pub use epoch::{Epoch, read_epoch, write_epoch};
pub use members::kind_named;
pub use numbers::{piece_key, play_key, write_play};
pub use reply::{FaultName, Reply};
pub use saved::{Saved, read_saved, write_fresh, write_medium};
