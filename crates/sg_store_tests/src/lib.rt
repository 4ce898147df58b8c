//! The tests of sg_store and of sg_slots below it: crashes in a switch, damages, limits, staging, texts, and the calls of the
//! disk. It has nothing else. They stand apart from the crates that they test, which are proved without them.
//!
//! A test is a list of steps over a store (`steps.rt`) and what the store shows after them, most in a table. `bench.rt` makes
//! the steps, each only where the store lets it be made.
#![tactic(auto)]

#[cfg(test)]
mod bench;
#[cfg(test)]
mod crashes;
#[cfg(test)]
mod damages;
#[cfg(test)]
mod full;
#[cfg(test)]
mod outcomes;
#[cfg(test)]
mod steps;
#[cfg(test)]
mod texts;
