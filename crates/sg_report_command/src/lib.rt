//! `report`: the report of plays as a command.
//!
//! [`report`] opens the server, so that bad rows are told, counts the plays that begin in its range, and writes the report.
//! `specs/Reports.antt` says its status and what it writes.
#![tactic(auto)]

mod reporting;

pub use reporting::report;
