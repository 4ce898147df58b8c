//! What the steps of a player come to, and the lines that tell it, besides the shown line.
//!
//! Each line is made in fixed room, so none takes memory. `specs/Timeline.antt` defines them.
#![tactic(auto)]

mod lines;
mod step;
mod words;

pub use lines::{
    batch_line, enrol_line, formatted_line, nothing_line, recorded_line, stay_line, step_line,
    unrecorded_line,
};
pub use step::{Cause, StepEnd};
