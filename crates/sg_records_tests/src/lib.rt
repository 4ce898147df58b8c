//! The tests of sg_records: replies, and rows that are written, read and refused. It has nothing else. The tests stand
//! apart from the crate that they test, which is proved without them.
#![tactic(auto)]

#[cfg(test)]
mod tests;
