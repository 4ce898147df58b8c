//! The tests of sg_outside: ends and doors, in memory and real ones. It has nothing else. The tests stand apart from the
//! crate that they test, which is proved without them.
#![tactic(auto)]

#[cfg(test)]
mod doors;
#[cfg(test)]
mod ends;
