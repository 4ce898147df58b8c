//! The tests of sg_events: when events are active and when that changes, with values from other programs. The tests stand apart from
//! the crate that they test, which is proved without them.
#![tactic(auto)]

#[cfg(test)]
mod tests;
