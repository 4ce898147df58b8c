//! Painting a picture on screens, with spares that take the places of those that fail.
//!
//! The bytes of the media come from a [`Shelf`] over a disk. Contracts see a screen as whether it is live and what is seen
//! on its panel. `specs/Draws.antt` says what a drawn panel shows, `specs/Screens.antt` what painting makes of the places
//! and the spares, `specs/Marks.antt` which lines tell it, and `specs/Reads.antt` that the disk stays as it is.
#![tactic(auto)]

mod draw;
mod mark;
mod paint;
mod shelf;

pub use mark::Marks;
pub use paint::{PaintFault, paint_all, paint_place};
pub use shelf::Shelf;
