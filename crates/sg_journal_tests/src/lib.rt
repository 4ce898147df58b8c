//! The tests of sg_journal: a full ring, damages, and crashes in an append. It has nothing else. They stand apart from the
//! crate that they test, which is proved without them.
#![tactic(auto)]

#[cfg(test)]
mod tests;
