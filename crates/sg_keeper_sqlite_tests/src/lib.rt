//! The tests of sg_keeper_sqlite: rows that come back, from the keeper and by SQL, and files that are refused. It has
//! nothing else. The tests stand apart from the crate that they test, which is proved without them.
#![tactic(auto)]

#[cfg(test)]
mod tests;
