//! The rows of the server, and what refuses a change of them.
//!
//! Contracts see the tables as the list of all rows by key (`specs/Entries.antt`), and as the room for more. What refuses a
//! change is defined by looking through all rows (`specs/Refusals.antt`), over what each row names (`specs/Rows.antt`). The
//! code keeps besides how often each row is named and how many bytes the media declare (`specs/Counts.antt`), so that
//! nothing is looked through but where a row that others name is to be removed: then for the one to be told.
#![tactic(auto)]

mod change;
mod counts;
mod entry;
mod faults;
mod kinds;
mod prepared;
mod references;
mod row_id;
mod tables;

pub use change::{TableChange, TableRefusal};
pub use entry::Entry;
pub use prepared::Prepared;
pub use row_id::RowId;
pub use tables::Tables;
