//! The tests of sg_playing. It has nothing else.
#![tactic(auto)]

#[cfg(test)]
mod plays;
#[cfg(test)]
mod scenes;
