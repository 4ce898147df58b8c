//! The tests of sg_paged_store: openings of both formats, and crashes in an opening that upgrades a disk. It has nothing else. They
//! stand apart from the crate that they test, which is proved without them.
#![tactic(auto)]

#[cfg(test)]
mod tests;
