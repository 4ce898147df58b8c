//! The tests of sg_connection: connections in memory, with one that counts for a server. They stand apart from the crate that
//! they test, which is proved without them.
#![tactic(auto)]

#[cfg(test)]
mod counter;
#[cfg(test)]
mod doors;
#[cfg(test)]
mod tests;
