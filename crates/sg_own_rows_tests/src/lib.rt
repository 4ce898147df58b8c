//! The tests of sg_own_rows: what a display's manifest is made of. They stand apart from the crate that they test, which is
//! proved without them.
#![tactic(auto)]

#[cfg(test)]
mod tests;
