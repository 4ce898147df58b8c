//! The tests of sg_format: new stores, and what a crash or a failure inside the making of one leaves. It has nothing else. They
//! stand apart from the crate that they test, which is proved without them.
#![tactic(auto)]

#[cfg(test)]
mod tests;
