//! The rows that only edits bring, and a row of any kind: groups, displays, and events with the displays and groups that
//! they are for, from JSON and to it.
//!
//! A [`Row`](sg_base::Row) is one of these or a row of a manifest, which sg_rows reads and writes. [`read_row`] gives the
//! row of a kind that JSON says in a form, or its first fault, and [`write_row`] its JSON, which reads as that row again
//! ([`rows_again`]), as its text does ([`texts_again`]). `specs/EditRows.antt` says which JSON a row is (`row_json`), when
//! it is valid and the form can say it (`IsRow`), and which row JSON says (`row_at`).
//!
//! Before version 2 a server kept dayparts without dates and events without a layer: `specs/Older.antt` has their JSON,
//! [`write_older_row`] makes it, and it reads as the same row ([`older_rows_again`]).
#![tactic(auto)]

pub use row::{older_rows_again, read_row, rows_again, texts_again, write_older_row, write_row};

mod display;
mod group;
mod row;
mod scheduled;
