//! The store of a player: one snapshot (a manifest with all its files) on a disk, the next files staged beside it, and the
//! switch from the one to the other.
//!
//! A caller sees a `Store` by what it knows of a disk: `IsReady v store p` (`specs/Ready.antt`) says that the disk with the
//! view v is settled with the contents p, and that the store knows them and what is staged. Opening gives it for what a read
//! gives, and each call takes it from contents to contents. A call that writes says by `Within` where it writes, so that
//! what another crate knows of the rest of the disk stays. Each call over a disk also says what a crash at any moment of it
//! leaves (`any_moment`), when it fails (`broke`; of an opening `ended`), and how many calls at least it makes where it
//! passes (`ran`).
//!
//! What the header and the two slots say, and what an opening refuses, belongs to `sg_slots`; where a file goes, to
//! `sg_placing`. All memory is taken by `Store::open`. The tests stand in `sg_store_tests`.
#![tactic(auto)]

mod choice;
mod faults;
mod fresh;
mod opening;
mod reading;
mod staging;
mod store;
mod switching;

pub use faults::{DigestDiffers, NoSpace, SwitchFault};
pub use fresh::format;
pub use sg_slots::{Format, OpenFault};
pub use store::Store;
