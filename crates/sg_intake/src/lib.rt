//! What a sync asks of a store: that it takes in the bytes of new files, and makes them a part of the snapshot.
//!
//! Callers see such a store as a [`Staging`](sg_missing::Staging), which says what is whole of it and what is
//! staged in part, and as an [`Intake`], which takes in bytes; a [`Programme`] has a snapshot, which what was taken
//! in can follow. `specs/Stocks.antt` says what bytes that come make of a store, and `specs/Listings.antt` which
//! files may be listed.
#![tactic(auto)]

mod intake;
mod programme;

pub use intake::{Intake, Lack, Sealing};
pub use programme::{Programme, SwitchFault};
