//! The tests of sg_replies: each reply with its status and its body. They stand apart from the crate that they test, which is
//! proved without them.
#![tactic(auto)]

#[cfg(test)]
mod tests;
