//! The tests of sg_disk: crashes at each call, faults, and a disk over a real file. It has nothing else. They stand apart
//! from the crate that they test, which is proved without them.
#![tactic(auto)]

#[cfg(test)]
mod tests;
