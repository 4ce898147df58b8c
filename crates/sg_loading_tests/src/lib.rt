//! The tests of sg_loading: servers from rows that were written by hand. It has nothing else. The tests stand apart from
//! the crate that they test, which is proved without them.
#![tactic(auto)]

#[cfg(test)]
mod tests;
