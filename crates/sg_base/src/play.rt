//! Recorded plays.

use crate::time::Moment;

/// What a player records of a play: the event and the layout that were shown, from the first moment up to
/// the one at which another was.
#[derive(Clone, Copy, Debug, PartialEq, Eq)]
pub struct PlayBody {
    pub event: u32,
    pub layout: u32,
    pub from: Moment,
    pub to: Moment,
}
