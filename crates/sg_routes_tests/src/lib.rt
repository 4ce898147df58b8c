//! The tests of sg_routes: what targets ask for, and that another router finds the same routes. They stand apart from the
//! crate that they test, which is proved without them.
#![tactic(auto)]

#[cfg(test)]
mod tests;
