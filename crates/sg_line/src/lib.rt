//! The line that tells what is shown at a moment.
//!
//! A `Line` is made in fixed room, so it takes no memory; callers see it as its bytes, which `specs/Lines.antt` defines.
#![tactic(auto)]

pub use line::Line;
pub use shown::Shown;

mod line;
mod shown;
