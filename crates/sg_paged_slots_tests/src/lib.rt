//! The tests of sg_paged_slots: tables and maps by example, each with its first fault. It has nothing else. They stand apart from
//! the crate that they test, which is proved without them.
#![tactic(auto)]

#[cfg(test)]
mod headers;
#[cfg(test)]
mod tests;
