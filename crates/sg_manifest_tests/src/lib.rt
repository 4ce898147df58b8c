//! The tests of sg_manifest: whole texts that are read and written again, and texts that are refused, each with its first
//! fault. It has nothing else. The tests stand apart from the crate that they test, which is proved without them.
#![tactic(auto)]

#[cfg(test)]
mod bounds;
#[cfg(test)]
mod hostile;
#[cfg(test)]
mod texts;
#[cfg(test)]
mod whole;
