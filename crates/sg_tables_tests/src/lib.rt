//! The tests of sg_tables: changes that are made and refused, and what refuses them first. It has nothing else. The tests stand apart from the crate that they test, which is proved
//! without them.
#![tactic(auto)]

#[cfg(test)]
mod tests;
