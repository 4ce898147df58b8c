//! The tests of sg_devices: clocks, links and panels, in memory and real ones. It has nothing else. The tests stand apart
//! from the crate that they test, which is proved without them.
#![tactic(auto)]

#[cfg(test)]
mod clocks;
#[cfg(test)]
mod links;
#[cfg(test)]
mod panels;
