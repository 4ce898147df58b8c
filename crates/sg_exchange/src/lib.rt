//! What a player asks its server, and what it makes of the replies.
//!
//! An [`Asker`] makes the four requests of a player, each in one exchange over any link: for the manifest, for a piece of a
//! file, with a batch of plays, and for an epoch. `specs/Requests.antt` has their bytes, `specs/Heard.antt` what the bytes
//! of a reply come to, in the order of the refusals, `specs/Ends.antt` how a batch and an enrolment end, and
//! `specs/Asking.antt` what a link tells of all this.
#![tactic(auto)]

mod asker;
mod ends;
mod heard;
mod law;
mod named;
mod requests;

pub use asker::Asker;
pub use ends::{BatchCause, BatchEnd, EnrolCause, EnrolEnd};
pub use heard::{Heard, REPLY_ROOM, Wants};
pub use law::one_end;
