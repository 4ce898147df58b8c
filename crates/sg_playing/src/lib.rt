//! What a player keeps in mind of its turns: the play that runs, what is to be seen, and which turns sync.
//!
//! It needs no disk and takes no memory. Callers see a [`Playing`] as the play that runs, a [`Scene`] as a switch number
//! with its entries, and [`Rounds`] as the turns since the last one that synced. `specs/Plays.antt` says which plays are
//! recorded, `specs/Seconds.antt` how long something was shown, `specs/Scenes.antt` what is to be seen, and
//! `specs/Rounds.antt` which turns sync.
#![tactic(auto)]

mod life;
mod playing;
mod rounds;
mod scene;
mod slot;

pub use life::{Turn, plays_of};
pub use playing::{OpenPlay, Playing};
pub use rounds::Rounds;
pub use scene::{SCENE_ROOM, Scene};
pub use slot::ShownSlot;
