//! The law on a server: whatever its calls are, in any order, with reloads between, it and its keeper are where the
//! definitions of the calls lead, one after another, and a call that failed left both as they were.
//!
//! [`run`] makes a list of calls. `specs/Steps.antt` says, without a word of keepers, what a call makes of a server and of
//! the bytes and plays that its keeper has (`made`, `Step`), and what calls do one after another (`Runs`); a server that is
//! loaded again is the same. `specs/At.antt` ties a server and its keeper to such a state, and says what answers tell of
//! the keeper's count. [`one_server`] and the laws beside it (`specs/Laws.antt`) hold of all such runs.
#![tactic(auto)]

mod call;
mod calls;
mod laws;
mod runs;

pub use call::{Answer, Call};
pub use laws::{batches_once, epochs_once, numbers_once, one_server};
pub use runs::run;
