//! The tests of sg_exchange. It has nothing else.
#![tactic(auto)]

#[cfg(test)]
mod ends;
#[cfg(test)]
mod replies;
#[cfg(test)]
mod requests;
#[cfg(test)]
mod worlds;
