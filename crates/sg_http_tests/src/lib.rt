//! The tests of sg_http: messages, replies and what is read of them. It has nothing else. The tests stand apart from the crate that they test, which is proved
//! without them.
#![tactic(auto)]

#[cfg(test)]
mod tests;
