//! The tests of sg_missing. It has nothing else.
#![tactic(auto)]

#[cfg(test)]
mod pieces;
