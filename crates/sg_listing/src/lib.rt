//! A manifest that was read, with its text: which files it lists, which of them are missing of a store, and when
//! all are there.
//!
//! Contracts see a [`Listing`] as the record `Plan` of `specs/Plans.antt`: a text, and the snapshot whose text it
//! is. Its files are as a store asks them to be (`IsListing` of `sg_intake`).
#![tactic(auto)]

mod listing;

pub use listing::Listing;
