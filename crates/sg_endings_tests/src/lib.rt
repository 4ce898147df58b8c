//! The tests of sg_endings: statuses and last lines. The tests stand apart from the crate that they test, which is proved without
//! them.
#![tactic(auto)]

#[cfg(test)]
mod tests;
