//! The next missing piece of a list of files is fetched: it is asked for over a link, and taken into what is staged.
//!
//! `specs/Fetching.antt` says how a fetching ends by what was heard, and what it makes of a store. The first
//! missing piece is that of `sg_missing`, the exchange that of `sg_exchange`, and the store takes it in as
//! `sg_intake` says.
#![tactic(auto)]

mod fetch;
mod take;

pub use fetch::{StepFault, fetch_next};
