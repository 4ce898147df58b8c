//! The tests of sg_edits: edits and clients, media, epochs and plays, over a keeper in memory, and servers that are
//! loaded again from its rows. It has nothing else. The tests stand apart from the crate that they test, which is proved
//! without them.
#![tactic(auto)]

#[cfg(test)]
mod tests;
