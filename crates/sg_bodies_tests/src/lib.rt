//! The tests of sg_bodies: bodies that are read and bodies that aren't. They stand apart from the crate that they test, which
//! is proved without them.
#![tactic(auto)]

#[cfg(test)]
mod tests;
