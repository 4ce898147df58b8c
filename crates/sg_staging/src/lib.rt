//! Files that are staged beside those of a snapshot, in memory.
//!
//! A file is begun in the lowest free pages, its bytes are taken into a digest as they come, and it is sealed where they have the
//! listed MD5. `Staging` has the sealed files on a shelf, and the one of which a part is staged; contracts see both (`Staged` in
//! `specs/Staged.antt`). `IsStagedIn` there says what is so of a snapshot with what is staged beside it: each call that changes
//! what is staged keeps it. No call here reaches a disk, and all memory is taken by `Staging::reserve`.
#![tactic(auto)]

mod staging;

pub use sg_pages::NoSpace;
pub use staging::{DigestDiffers, Staging};
