//! The steps of a player's sync with its server, one exchange each at most, and what else it asks of it.
//!
//! A [`Sync`] is a display with its key, and the snapshot that it is getting, if there is one. It works over any
//! [`Link`](sg_devices::Link) and any store that is a [`Programme`](sg_intake::Programme). `specs/Steps.antt` says
//! how each step ends, by what was heard, and what it leaves; requests and replies are those of `sg_exchange`,
//! missing pieces those of `sg_missing`.
#![tactic(auto)]

mod list;
mod step;
mod switch;
mod sync;

pub use sg_fetch::StepFault;
pub use sg_timeline::{Cause, StepEnd};
pub use sync::{Sync, enrol};
