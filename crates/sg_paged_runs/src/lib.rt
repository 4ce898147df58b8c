//! The law on a player's store of the new format: whatever its calls are, in any lawful order, a crash at any moment of them
//! leaves the contents after some first calls, and after all of them the contents are those after all.
//!
//! `run` makes a list of calls, each where it is lawful. Its clauses see a store and its disk as a `Stage`
//! (`specs/Stage.antt`): the contents for which the disk stands, and the files that are staged beside them, with their bytes.
//! `specs/Steps.antt` says, without a word of disks, what a call makes of a stage (`Step`) and what calls do one behind
//! another (`Runs`). `IsAt` ties a store and a disk to a stage.
#![tactic(auto)]

mod call;
mod lawful;
mod runs;
mod steps;
mod stop;

pub use call::Call;
pub use lawful::{may_begin, may_bring, may_seal, may_switch};
pub use runs::run;
pub use stop::Stop;
