//! The tests of sg_pages: free pages, maps and shelves by example. It has nothing else. They stand apart from the crate that
//! they test, which is proved without them.
#![tactic(auto)]

#[cfg(test)]
mod shelves;
#[cfg(test)]
mod tests;
