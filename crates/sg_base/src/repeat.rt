//! Repeats of events.

ghost use Rattle.std.specs.Prelude.{◌≡◌, ◌<◌, ◌≤◌, Some, None, MatchResult};

use crate::limits::{LAST_DAY, MAX_STEP};
use std::marker::Model;
use thiserror::Error;

/// What a repeat counts by.
#[derive(Clone, Copy, Debug, PartialEq, Eq)]
pub enum Unit {
    Hour,
    Day,
    Week,
    /// The same day of the month.
    Month,
    /// The same weekday, first to fifth of its month.
    MonthWeekday,
    Year,
}

/// Why values make no repeat.
#[derive(Clone, Copy, Debug, PartialEq, Eq, Error)]
pub enum RepeatFault {
    #[error("a step is at least 1")]
    ZeroStep,
    #[error("a step of {0} is too big")]
    BigStep(u32),
    #[error("a weekly repeat has a weekday")]
    NoWeekday,
    #[error("only a weekly repeat has weekdays, of which there are seven")]
    StrayDays,
    #[error("the last day is after 2099")]
    BadDay,
}

/// A repeat by a step of 1 to 1,000 units, up to a last day if it has one. A weekly repeat names its
/// weekdays: bit w - 1 of `days` is weekday w, and 1 is Monday.
#[derive(Clone, Copy, Debug, PartialEq, Eq)]
pub struct Repeat {
    unit: Unit,
    every: u32,
    days: u8,
    until: Option<u32>,
}

impl Model for Repeat {
    ghost use Rattle.sg_base.specs.Repeat.{RepeatRow, IsRepeat};

    ghost Value = { RepeatRow };

    ghost view = { λ r. record { unit = r.unit; every = r.every; days = r.days; until = r.until } };

    ghost invariant = { λ r. IsRepeat (record { unit = r.unit; every = r.every; days = r.days; until = r.until }) };

    ghost inverse = { λ r. record { unit = r.unit; every = r.every; days = r.days; until = r.until } };
}

impl Repeat {
    ghost use Rattle.sg_base.specs.Repeat.{IsRepeat, repeat_fault};

    /// A repeat. It is refused with `ZeroStep` for a step of 0, `BigStep` above 1,000, `NoWeekday` for weeks
    /// with no weekday chosen, `StrayDays` for another unit with days or for days above 127, and `BadDay`
    /// for a last day after 47,481 (2099-12-31); the first of these is the answer.
    pub fn new(unit: Unit, every: u32, days: u8, until: Option<u32>) -> Result<Repeat, RepeatFault>
        ensures { MatchResult result
            (λ r. (repeat_fault unit every days until ≡ None)
            × (r ≡ record { unit = unit; every = every; days = days; until = until }))
            (λ e. repeat_fault unit every days until ≡ Some e) }
    {
        if every == 0 {
            return Err(RepeatFault::ZeroStep);
        }
        if every > MAX_STEP {
            return Err(RepeatFault::BigStep(every));
        }
        if let Some(fault) = days_fault(unit, days) {
            return Err(fault);
        }
        if let Some(fault) = until_fault(until) {
            return Err(fault);
        }
        Ok(Repeat {
            unit,
            every,
            days,
            until,
        })
    }

    /// What the repeat counts by.
    pub fn unit(&self) -> Unit
        ensures value { result ≡ self.now.unit }
        ensures valid { IsRepeat self.now }
    {
        self.unit
    }

    /// The step, 1 to 1,000 units.
    pub fn every(&self) -> u32
        ensures value { result ≡ self.now.every }
        ensures some { 0 < result }
        ensures few { result ≤ MAX_STEP }
        ensures valid { IsRepeat self.now }
    {
        self.every
    }

    /// The weekdays of a weekly repeat, one bit each, and 0 for another unit.
    pub fn days(&self) -> u8
        ensures value { result ≡ self.now.days }
        ensures valid { IsRepeat self.now }
    {
        self.days
    }

    /// The last day on which an occurrence may begin.
    pub fn until(&self) -> Option<u32>
        ensures value { result ≡ self.now.until }
        ensures valid { IsRepeat self.now }
    {
        self.until
    }
}

ghost use Rattle.sg_base.specs.Repeat.{days_fault as days_fault_of, until_fault as until_fault_of};

fn days_fault(unit: Unit, days: u8) -> Option<RepeatFault>
    ensures { result ≡ days_fault_of unit days }
{
    match unit {
        Unit::Week => {
            if days % 128 == 0 {
                Some(RepeatFault::NoWeekday)
            } else if days > 127 {
                Some(RepeatFault::StrayDays)
            } else {
                None
            }
        }
        Unit::Hour | Unit::Day | Unit::Month | Unit::MonthWeekday | Unit::Year => {
            if days == 0 {
                None
            } else {
                Some(RepeatFault::StrayDays)
            }
        }
    }
}

fn until_fault(until: Option<u32>) -> Option<RepeatFault>
    ensures { result ≡ until_fault_of until }
{
    match until {
        Some(day) if day > LAST_DAY => Some(RepeatFault::BadDay),
        _ => None,
    }
}
