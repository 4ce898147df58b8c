//! The store of a player over the new format, whose files stand in pages: it is opened and read.
//!
//! Contracts see a `Store` as what it keeps in memory, the record `State` of `sg_store_state`. `IsReady v s p` there says that the
//! disk with the view v is settled with the contents p, and that the store s knows them.
//! `Store::open` opens one of either format: a store of the old format is upgraded first, and its files stay where they
//! stand. The calls that read leave disk and store as they are, and those that stage leave the contents; `Store::switch` makes what is
//! staged a part of the snapshot. What is staged is kept by `sg_staging`, and a switch is written by `sg_switching`.
#![tactic(auto)]

mod faults;
mod opening;
mod reading;
mod renewal;
mod staging;
mod store;
mod switching;

pub use faults::SwitchFault;
pub use sg_slots::{Format, OpenFault};
pub use sg_staging::{DigestDiffers, NoSpace};
pub use store::Store;
