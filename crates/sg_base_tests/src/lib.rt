//! The tests of sg_base: rows of values with the answers that they are to have, worked by hand from the rules. It has
//! nothing else. The tests stand apart from the crate that they test, which is proved without them.
#![tactic(auto)]

#[cfg(test)]
mod dayparts;
#[cfg(test)]
mod events;
#[cfg(test)]
mod layouts;
#[cfg(test)]
mod rows;
#[cfg(test)]
mod sorted;
#[cfg(test)]
mod values;
