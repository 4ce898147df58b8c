//! Dayparts: a daily window, with other windows for weekdays and for dates.

use crate::daypart_rules::{fault_of, order};
use crate::ids::DaypartId;
use crate::list::Rows;
use std::alloc::AllocError;
use std::marker::Model;
use thiserror::Error;

/// A window of a day in seconds of the day, 0 to 86,399. It ends on the next day if its end isn't after its
/// start.
#[derive(Clone, Copy, Debug, PartialEq, Eq)]
pub struct Window {
    pub start: u32,
    pub end: u32,
}

/// Why windows make no daypart.
#[derive(Clone, Copy, Debug, PartialEq, Eq, Error)]
pub enum DaypartFault {
    #[error("{0} is no second of a day")]
    BadTime(u32),
    #[error("{0} is no weekday")]
    BadWeekday(u8),
    #[error("weekday {0} stands twice")]
    DoubleWeekday(u8),
    #[error("{0} dates of a daypart are too many")]
    ManyDates(u64),
    #[error("date {0} is after 2099")]
    BadDate(u32),
    #[error("date {0} stands twice")]
    DoubleDate(u32),
}

/// A daily window. A date may have a window of its own, and so may a weekday (1 is Monday): that of the date goes
/// first, then that of the date's weekday. Both lists ascend.
#[derive(Debug, Drop)]
pub struct Daypart {
    id: DaypartId,
    window: Window,
    exceptions: Rows<(u8, Window)>,
    dates: Rows<(u32, Window)>,
}

impl Model for Daypart {
    ghost use Rattle.sg_base.specs.Daypart.{DaypartRow, IsDaypart};

    ghost Value = { DaypartRow };

    ghost view = { λ d. record { id = d.id; window = d.window; exceptions = d.exceptions; dates = d.dates } };

    ghost invariant = { λ d. IsDaypart
        (record { id = d.id; window = d.window; exceptions = d.exceptions; dates = d.dates }) };
}

impl Daypart {
    ghost use Rattle.std.specs.Prelude.{◌≡◌, ℕ, List, Some, None, MatchResult, IfOk, IsPermutation};
    ghost use Rattle.sg_base.specs.Daypart.{IsDaypart, Ascends, daypart_fault};

    /// A daypart, whose exceptions are put in the order of their weekdays, and whose dates ascend. It is refused
    /// with `BadTime` for a start or an end above 86,399 (the window's, then each exception's in the order given,
    /// then each date's), `BadWeekday` outside 1 to 7, `DoubleWeekday` for one that stands earlier in the list,
    /// `ManyDates` above 64, `BadDate` above 47,481 (2099-12-31), and `DoubleDate`. The first of these is the
    /// answer, each looked for in the whole list before the next. A refusal drops both lists.
    pub fn new(
        id: DaypartId,
        window: Window,
        exceptions: Vec<(u8, Window)>,
        dates: Vec<(u32, Window)>,
    ) -> Result<Daypart, DaypartFault>
        ensures made { MatchResult result
            (λ d. (daypart_fault window exceptions.items dates.items ≡ None)
            × (d.id ≡ id) × (d.window ≡ window)
            × IsPermutation exceptions.items d.exceptions × IsPermutation dates.items d.dates)
            (λ f. daypart_fault window exceptions.items dates.items ≡ Some f) }

        // In whatever order the lists came: another ascending order of one is the same.
        ensures one_order { IfOk result
            (λ d. (es : List (ℕ × Window)) → IsPermutation exceptions.items es → Ascends es
            → d.exceptions ≡ es) }
        ensures one_order_of_dates { IfOk result
            (λ d. (ds : List (ℕ × Window)) → IsPermutation dates.items ds → Ascends ds
            → d.dates ≡ ds) }
    {
        match fault_of(window, exceptions.as_slice(), dates.as_slice()) {
            Some(fault) => Err(fault),
            None => {
                let mut weekdays_first = exceptions;
                order(&mut weekdays_first);
                let mut earliest_first = dates;
                order(&mut earliest_first);
                Ok(Daypart {
                    id,
                    window,
                    exceptions: Rows::from_vec(weekdays_first),
                    dates: Rows::from_vec(earliest_first),
                })
            }
        }
    }

    /// The daypart's identity.
    pub fn id(&self) -> DaypartId
        ensures { result ≡ self.now.id }
    {
        self.id
    }

    /// The window of a date that has no exception, for itself or for its weekday.
    pub fn window(&self) -> Window
        ensures value { result ≡ self.now.window }
        ensures valid { IsDaypart self.now }
    {
        self.window
    }

    /// The windows of weekdays that have their own, by ascending weekday.
    pub fn exceptions(&self) -> &[(u8, Window)]
        ensures value { result.now ≡ self.now.exceptions }
        ensures valid { IsDaypart self.now }
    {
        self.exceptions.as_slice()
    }

    /// The windows of dates that have their own, by ascending day number.
    pub fn dates(&self) -> &[(u32, Window)]
        ensures value { result.now ≡ self.now.dates }
        ensures valid { IsDaypart self.now }
    {
        self.dates.as_slice()
    }
}

impl Clone for Daypart {
    ghost use Rattle.std.specs.Prelude.{◌≡◌};

    ghost is_clone = { λ x y. y ≡ x };

    fn clone(&self) -> Result<Daypart, AllocError> {
        let exceptions = self.exceptions.clone()?;
        let dates = self.dates.clone()?;
        Ok(Daypart {
            id: self.id,
            window: self.window,
            exceptions,
            dates,
        })
    }
}
