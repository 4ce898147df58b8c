//! The tests of sg_voice: hours that were worked by hand. It has nothing else. The tests stand apart from the crate that they test, which is proved
//! without them.
#![tactic(auto)]

#[cfg(test)]
mod tests;
