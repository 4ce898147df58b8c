//! The tests of sg_placing: gaps and shelves by example. It has nothing else. They stand apart from the crate that they
//! test, which is proved without them.
#![tactic(auto)]

#[cfg(test)]
mod tests;
