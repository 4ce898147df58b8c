//! The journal of plays: a ring of 65,536 gated records in its area of a disk.
//!
//! A play is on the disk once `append` has answered Ok, and a crash at any moment leaves the plays before it, or these and the
//! new one. Callers see a journal as the number of its first play that isn't acknowledged and the list of these plays, and
//! `IsReady` ties it to the contents for which the disk stands, by sg_contents in either format (`specs/Ready.antt`). What an
//! opening finds in the records, and what it takes as damage, is `specs/Records.antt`; a batch is `specs/BatchPlays.antt`, and
//! the law on a list of plays speaks by `specs/Series.antt`. `specs/Entries.antt` serves the crate's own functions.
#![tactic(auto)]

mod batch;
mod entries;
mod fault;
mod journal;
mod reading;
mod record;
mod series;

pub use batch::Batch;
pub use fault::{AppendFault, OpenFault};
pub use journal::Journal;
pub use series::append_all;
