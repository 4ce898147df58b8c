//! The server, and its calls over any keeper of rows: edits, pieces of media, enrolments and batches of plays.
//!
//! Callers see a [`Cms`] as its `Core` of sg_steps: rows, clients and epochs by key, and how many plays an epoch may have.
//! Each call is one equation to a definition: `step`, `enrolled` and `played` there, and `piece_put` of `specs/Pieces.antt`.
//! A keeper whose rows stood for the server and its content before a call has rows that stand for both after it (`Stands`),
//! and a call that has no reply changes neither.
#![tactic(auto)]

mod cms;
mod editing;
mod enrolling;
mod piece_changes;
mod piece_reads;
mod piece_reply;
mod pieces;
mod settings;

pub use cms::Cms;
pub use piece_reply::PieceReply;
pub use settings::Settings;
