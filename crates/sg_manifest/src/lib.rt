//! The manifest: a snapshot of what a display shows, and its text.
//!
//! A [`Snapshot`] is always valid: each row is accepted by its constructor and one that its version can say, ids are
//! distinct and ascend, and what is named is there. Contracts see it as the record `SnapshotRow` of `specs/Snapshot.antt`,
//! where validity stands. Its rows are those of sg_rows, in the form of its version. Its text is defined in
//! `specs/Text.antt`; [`write`] makes it, and [`text_len`] counts its bytes without making it. [`read`] gives the snapshot
//! whose text some bytes are, or the first fault of the bytes: `manifest_at` of `specs/Reading.antt` has the checks in
//! their order. That some bytes are the text of a valid snapshot is one word, `IsManifest`, and [`reads_text`] has the law
//! that `manifest_at` finds exactly these.
#![tactic(auto)]

pub use fault::ManifestFault;
pub use reading::{one_text, read, reads_text};
pub use snapshot::{Draft, Snapshot};
pub use text::{text_len, write};

mod comparison;
mod draft;
mod fault;
mod lists;
mod naming;
mod order;
mod reading;
mod scanning;
mod snapshot;
mod text;
