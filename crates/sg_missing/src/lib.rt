//! Which pieces of a manifest's files are missing, and which is asked for next.
//!
//! A sync sees a store as a [`Staging`]: which files are whole, and which one is staged in part. `specs/Pieces.antt` says where
//! the missing pieces of a file begin, and `specs/Missing.antt` which are missing of a list of files. That each comes once is a
//! law of these definitions.
#![tactic(auto)]

mod law;
mod piece;
mod staging;
mod wanted;

pub use law::each_piece_comes_once;
pub use staging::Staging;
pub use wanted::{Wanted, count_missing, keeps_part, next_piece};
