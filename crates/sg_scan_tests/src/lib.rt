//! The tests of sg_scan: lists of rows that are read from the front of a text, and those at which it gives up. It has
//! nothing else. The tests stand apart from the crate that they test, which is proved without them.
#![tactic(auto)]

#[cfg(test)]
mod rows;
#[cfg(test)]
mod schedules;
