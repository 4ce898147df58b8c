//! The tests of sg_panels. It has nothing else.
#![tactic(auto)]

#[cfg(test)]
mod folders;
#[cfg(test)]
mod marks;
#[cfg(test)]
mod shelf;
