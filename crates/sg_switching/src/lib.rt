//! The writing of a snapshot beside the current one, and its taking over by one byte.
//!
//! `write_snapshot` closes the gate of the spare slot, fills the slot and its map behind it, and opens the gate. Each of these three
//! steps ends with a sync. At any moment a crash leaves the snapshot before or the one after, whole: `specs/Switching.antt` says of
//! which disks (`HasSpare`) and of which bytes (`IsNext`) this is so, and what stands then (`IsSwitched`).
#![tactic(auto)]

mod switching;

pub use switching::{PAGED_SWITCH_CALLS, write_snapshot};
