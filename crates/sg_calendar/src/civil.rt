//! The civil date of a day number. These two functions are the only ones that call the library's dates.
ghost use Rattle.std.specs.Prelude.{◌≡◌, ℕ, ◌≤◌, IsSome, IfSome, MatchOption};
ghost use Rattle.sg_calendar.specs.Civil.{civil, IsCivil};

use jiff_core::civil::Date;
use sg_base::limits::DATE_END;

/// A date of the proleptic Gregorian calendar from 1970 on.
#[derive(Clone, Copy, Debug, PartialEq, Eq)]
pub struct Civil {
    pub year: u32,
    pub month: u32,
    pub day: u32,
}

/// The last day that may be asked about.
pub(crate) const LAST_ASKED: u32 = DATE_END as u32;

// The library counts days from -9999-01-01, which is this many days before 1970-01-01.
const DAYS_BEFORE_EPOCH: u32 = 4_371_587;

// The date of a day number, where day 0 is 1970-01-01.
pub(crate) fn civil_of(day: u32) -> Civil
    requires { day ≤ LAST_ASKED }
    ensures value { result ≡ civil day }
    ensures valid { IsCivil result }
    ensures few { result.year ≤ 9999 }
    ensures short { result.day ≤ 31 }
{
    let date = Date::from_days_since_min(day + DAYS_BEFORE_EPOCH);
    Civil {
        year: date.year as u32,
        month: date.month as u32,
        day: date.day as u32,
    }
}

// The day number of a date, or None where the month has no such day.
pub(crate) fn day_of(year: u32, month: u32, day: u32) -> Option<u32>
    requires low { 1970 ≤ year }
    requires high { year ≤ 9999 }
    requires month { (1 ≤ month) × (month ≤ 12) }
    requires day { (1 ≤ day) × (day ≤ 31) }
    ensures some { day ≤ 28 → IsSome result }
    ensures bound { IfSome result (λ n. n ≤ 2932896) }
    ensures value { MatchOption result
        ((n : ℕ) → civil n ≡ record { year = year; month = month; day = day } → ⊥)
        (λ n. civil n ≡ record { year = year; month = month; day = day }) }
{
    match Date::new(year as i16, month as i8, day as i8) {
        Ok(date) => Some(date.to_unix_epoch_day() as u32),
        Err(_) => None,
    }
}
