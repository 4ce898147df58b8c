//! The tests of sg_words: lines of words, and the commands and places that they say. The tests stand apart from the crate that they
//! test, which is proved without them.
#![tactic(auto)]

#[cfg(test)]
mod options;
#[cfg(test)]
mod tests;
