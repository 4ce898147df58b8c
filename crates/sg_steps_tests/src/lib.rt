//! The tests of sg_steps: edits that are read, tried and made, and clients' numbers, over a keeper in memory. It has
//! nothing else. The tests stand apart from the crate that they test, which is proved without them.
#![tactic(auto)]

#[cfg(test)]
mod tests;
