//! What a store holds and what the bytes of its disk stand for, in both formats.
//!
//! In the old format each file stands in one range of the data area. In the new one files stand in pages, or in the ranges that an
//! older store gave them; the maps that name the pages stand behind the data area, and the seals behind the maps. Contents are
//! those of `sg_disk`. `specs/Lawful.antt` says which are lawful, and `specs/StandsFor.antt` when a disk stands for them. The
//! proofs say what a write keeps of that, wherever it is. There is no code here but the places.
#![tactic(auto)]

mod places;

pub use places::{SEAL_LEN, SEALS, SEALS_LEN};
