//! What a snapshot shows at a local second.
//!
//! A `Resolver` is made once from a snapshot and takes all its memory then. Callers see it as that snapshot and the
//! segment of local seconds for which it keeps the hour that it built last; what it answers is defined in `specs/`: the
//! rows that others name (`Rows.antt`), the two lists of plays (`Lists.antt`), and the slot and the picture
//! (`Shown.antt`). The events in their order and the hour that is kept are `sg_layer`'s, and zones are `sg_calendar`'s.
//! A `Catalog` finds a snapshot's rows, for this layer and for others.
#![tactic(auto)]

pub use catalog::Catalog;
pub use law::hour_shows;
pub use picture::Picture;
pub use resolver::Resolver;
pub use show::{Show, show_of};

mod catalog;
mod entries;
mod law;
mod picture;
mod resolver;
mod show;
