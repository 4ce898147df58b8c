//! What a display is answered: its manifest, and the pieces of its files.
//!
//! Both are defined over the display's own rows (`specs/Views.antt`), so that nothing else of the server shows in an answer:
//! [`same_answers`] has the law. The bytes of a file stand in the keeper alone, in pieces (`specs/Pieces.antt`).
#![tactic(auto)]

mod manifest;
mod piece;

pub use manifest::{ManifestReply, manifest_of, same_answers};
pub use piece::{FileReply, piece_of};
