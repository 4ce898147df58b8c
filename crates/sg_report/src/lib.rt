//! The report of plays: how often and how long each display played each layout.
#![tactic(auto)]

mod kept;
mod line;
mod pages;
mod report;
mod table;

pub use kept::KeptPlay;
pub use line::Line;
pub use report::plays_csv;
