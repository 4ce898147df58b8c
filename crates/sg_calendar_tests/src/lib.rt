//! The tests of sg_calendar: zones, dates, starts and windows, with values from other programs. It has nothing else. The tests stand apart from the crate that they test, which is proved
//! without them.
#![tactic(auto)]

#[cfg(test)]
mod tests;
