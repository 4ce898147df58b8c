//! Rows by key, of which a call changes all that it names or none.
//!
//! A function over `K: Keeper` sees a keeper as the record `K.view keeper` (`specs/View.antt`): whether it tells its rows,
//! the rows as a function of the number of a key, the count of faults, and a stop. `specs/Changes.antt` says what changes
//! do to rows, and `specs/Pages.antt` what a page of them is. `MapKeeper` keeps its rows in memory and tells all of it
//! (`specs/Map.antt`).
#![tactic(auto)]

mod keeper;
mod map;

pub use keeper::{Change, Keeper, KeeperFail};
pub use map::MapKeeper;
