//! An event with what it names.

use sg_base::{Daypart, Event, Rows};
use sg_voice::Play;

/// An event with the daypart that it names, if it names one, and with the plays that it makes, in order.
#[derive(Debug, Drop)]
pub struct Entry {
    pub event: Event,
    pub daypart: Option<Daypart>,
    pub plays: Rows<Play>,
}
