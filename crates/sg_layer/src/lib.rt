//! The events of one layer in their order, the plays that they make, and the hour that these fill.
//!
//! A `Layer` is made once of entries, each an event with its daypart and its plays, and takes all its memory then.
//! Callers see it as its entries and the segment of local seconds for which it keeps the hour that it built last. What
//! it shows is defined in `specs/`: the kinds of event and their order (`Kinds.antt`), the lists of plays (`Lists.antt`),
//! the slot at a local second (`Shown.antt`) and the segment (`Segment.antt`). Activity and its changes are
//! `sg_events`', and the hour's loop is `sg_voice`'s.
#![tactic(auto)]

pub use entry::Entry;
pub use hour::place_in_hour;
pub use kind::{Kind, events_of};
pub use layer::Layer;

mod asking;
mod entry;
mod hour;
mod kind;
mod layer;
mod listing;
mod room;
