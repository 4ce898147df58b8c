//! The tests of sg_keeper: a keeper in memory through its trait. The tests stand apart from the crate that they test, which is proved
//! without them.
#![tactic(auto)]

#[cfg(test)]
mod tests;
