//! The room in which a layer lists what is played, taken once.

use sg_voice::{Interrupt, Loop, Play};

/// Which entries are active, the plays and the interrupts that are played, and the hour that they fill.
#[derive(Debug, Drop)]
pub(crate) struct Room {
    pub active: Vec<bool>,
    pub plays: Vec<Play>,
    pub sharing: Vec<Interrupt>,
    pub hour: Loop,
}
