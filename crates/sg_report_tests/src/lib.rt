//! The tests of sg_report: the report of plays over a keeper in memory. The tests stand apart from the crate that they test, which
//! is proved without them.
#![tactic(auto)]

#[cfg(test)]
mod tests;
