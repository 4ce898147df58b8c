//! The tests of sg_upgrade: upgrades, and crashes in them. It has nothing else. They stand apart from the crate that they test,
//! which is proved without them.
#![tactic(auto)]

#[cfg(test)]
mod tests;
