//! The tests of sg_store_runs: crashes in a list of calls, and why a list stops. It has nothing else. They stand apart from
//! the crate that they test, which is proved without them.
#![tactic(auto)]

#[cfg(test)]
mod tests;
