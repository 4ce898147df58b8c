//! Zones, starts, dates and windows against values from outside, which each file names.

mod dates;
mod starts;
mod windows;
mod zones;

use sg_base::{Repeat, RepeatFault, Unit};

// The unit, the step, the weekdays and the last day of a repeat.
type Parts = (Unit, u32, u8, Option<u32>);

fn repeat_of(parts: Option<Parts>) -> Result<Option<Repeat>, RepeatFault> {
    match parts {
        None => Ok(None),
        Some((unit, every, days, until)) => Ok(Some(Repeat::new(unit, every, days, until)?)),
    }
}
