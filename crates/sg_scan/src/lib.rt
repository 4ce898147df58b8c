//! The rows of a manifest, read from the front of its text with no tree of JSON.
//!
//! A [`Scan`] has the bytes that are left. What reads from it passes the compact text of a row and gives the row, or gives up
//! at the first byte that isn't what it looks for, with no reason and at no particular place. A row that is given is valid,
//! and a form can say it. That the bytes are its text isn't said here: who scans compares them with the text of what came
//! out, which is what makes a text good. So a scan may be lax, and is wrong only where it gives a row that isn't valid.
#![tactic(auto)]

pub use list::{ScanPart, ScanRow, scan_rows};
pub use scan::Scan;
pub use zone::scan_zone;

mod campaign;
mod daypart;
mod event;
mod file;
mod layout;
mod list;
mod repeat;
mod scan;
mod zone;
