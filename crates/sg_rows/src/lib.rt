//! The rows of a manifest, one by one: files, layouts, campaigns, dayparts, events and zones, from JSON and to it.
//!
//! A [`ManifestRow`] stands in a list of a manifest, in a [`RowForm`]: version 1, version 2, or an edit. An [`Entry`] is
//! any part of a row that stands in a list of JSON, and is the same in each form. `specs/Forms.antt` says what the forms
//! differ in, `specs/Text.antt` which JSON a row is, `specs/Rows.antt` when a row is valid, and `specs/Reading.antt` which
//! row JSON says, or which fault comes first. The JSON of each valid row reads as that row again, and what is read is
//! valid. `specs/Compact.antt` has the JSON whose compact text reads back.
//!
//! What the rows of edits in sg_edit_rows share with these is public too: the parts of a row ([`part`]), the values of an
//! event by itself, and the ids of groups and displays as entries (`specs/Ids.antt`).
#![tactic(auto)]

pub use daypart::write_undated;
pub use entry::{Entry, Keyed, read_list, write_list};
pub use event::{EventParts, make_event, read_event_parts, write_target, write_when};
pub use fault::RowFault;
pub use form::RowForm;
pub use out::{TextBuffer, TextLength, TextOut};
pub use repeat::write_repeat;
pub use row::ManifestRow;
pub use writing::{put_number, put_rows};
pub use zone::{put_zone, read_zone, write_zone};

mod campaign;
mod daypart;
mod entry;
mod event;
mod fault;
mod file;
mod form;
mod ids;
mod layout;
mod out;
pub mod part;
mod repeat;
mod row;
mod writing;
mod zone;
