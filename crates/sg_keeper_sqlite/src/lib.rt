//! The server's rows in one SQLite file, which the program sqlite3 reads.
//!
//! The file has the table `keeper(kind, a, b, value)` with the key (kind, a, b); a and b are eight bytes each, the highest
//! first, so that keys stand in the order of their numbers. [`SqliteKeeper`] meets the keeper's trait, and tells its count
//! of faults alone (`specs/File.antt`): that the rows come back is tested. It reads and writes the table by the kit's own
//! store below its SQL, since an opening by SQL reads and keeps every row.
#![tactic(auto)]

mod keeper;
mod open;
mod plain;
mod rows;

pub use keeper::SqliteKeeper;
