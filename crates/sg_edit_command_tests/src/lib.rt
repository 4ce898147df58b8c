//! The tests of sg_edit_command: `edit` over a source, a sink and a keeper in memory. The tests stand apart from the crate that they
//! test, which is proved without them.
#![tactic(auto)]

#[cfg(test)]
mod tests;
