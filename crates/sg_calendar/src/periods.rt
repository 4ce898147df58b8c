//! The dates of a repeat in one week, month or year.

ghost use Rattle.std.specs.Prelude.{◌≡◌, ℕ, ◌≤◌, IsSome, MatchOption};
ghost use Rattle.sg_base.specs.declared.repeat.Unit.TheVariants.{Week, Month, MonthWeekday, Year};
ghost use Rattle.sg_calendar.specs.Civil.{civil, month_of};
ghost use Rattle.sg_calendar.specs.Dates.{period_of};
ghost use Rattle.sg_calendar.specs.Nearest.{IsLatest, IsNext, IsOnly};
ghost use Rattle.sg_calendar.specs.Turns.{is_in_period, HasOneDate};

use crate::civil::{LAST_ASKED, civil_of, day_of};
use crate::dates::{is_chosen, weekday_of};
use sg_base::{Repeat, Unit};

/// The latest chosen day of a week, from the base on and up to `last`.
pub(crate) fn latest_in_week(base: u32, days: u8, last: u32, week: u32) -> Option<u32>
    requires order { base ≤ last }
    requires high { last ≤ LAST_ASKED }
    requires few { week ≤ 10000 }
    ensures { IsLatest (is_in_period Week days base week) last result }
{
    let mut weekday = 7;
    while weekday > 0 {
        // Day 0 is a Thursday, so three more than a day's number counts from a Monday.
        let counted = 7 * week + (weekday - 1);
        if base + 3 <= counted && counted <= last + 3 && is_chosen(days, weekday) {
            return Some(counted - 3);
        }
        weekday -= 1;
    }
    None
}

/// The next chosen day of a week, from `first` on, which isn't before the base.
pub(crate) fn next_in_week(base: u32, days: u8, first: u32, week: u32) -> Option<u32>
    requires order { base ≤ first }
    requires high { first ≤ LAST_ASKED }
    requires few { week ≤ 10000 }
    ensures { IsNext (is_in_period Week days base week) first LAST_ASKED result }
{
    for weekday in 1..8 {
        let counted = 7 * week + (weekday - 1);
        if first + 3 <= counted && counted < LAST_ASKED + 3 && is_chosen(days, weekday) {
            return Some(counted - 3);
        }
    }
    None
}

/// The date of a day, month or year, for a unit that has one date in each at most.
pub(crate) fn only_in(repeat: &Repeat, base: u32, period: u32) -> Option<u32>
    requires one { HasOneDate repeat.now.unit }
    requires high { base ≤ LAST_ASKED }
    requires from { period_of repeat.now.unit base ≤ period }
    requires within { period ≤ period_of repeat.now.unit LAST_ASKED }
    ensures { IsOnly (is_in_period repeat.now.unit repeat.now.days base period) result }
{
    match repeat.unit() {
        Unit::Hour | Unit::Week => None,
        Unit::Day => Some(period),
        Unit::Month => same_day_of(base, period),
        Unit::MonthWeekday => same_weekday_of(base, period),
        Unit::Year => anniversary_in(base, period),
    }
}

// The base's day of a month, counted over the years, or None where the month has none.
fn same_day_of(base: u32, month: u32) -> Option<u32>
    requires high { base ≤ LAST_ASKED }
    requires from { month_of base ≤ month }
    requires within { month ≤ month_of LAST_ASKED }
    ensures { IsOnly (is_in_period Month 0 base month) result }
{
    month_day(month, civil_of(base).day)
}

// The base's weekday of a month, from the first to the fifth, or None where the month has no fifth.
fn same_weekday_of(base: u32, month: u32) -> Option<u32>
    requires high { base ≤ LAST_ASKED }
    requires from { month_of base ≤ month }
    requires within { month ≤ month_of LAST_ASKED }
    ensures { IsOnly (is_in_period MonthWeekday 0 base month) result }
{
    let first = month_day(month, 1)?;
    let days_on = (weekday_of(base) + 7 - weekday_of(first)) % 7;
    let day = 1 + days_on + (civil_of(base).day - 1) / 7 * 7;
    if day > 31 {
        return None;
    }
    month_day(month, day)
}

// The base's month and day of a year, or None where the year has no such day.
fn anniversary_in(base: u32, year: u32) -> Option<u32>
    requires high { base ≤ LAST_ASKED }
    requires from { (civil base).year ≤ year }
    requires within { year ≤ (civil LAST_ASKED).year }
    ensures { IsOnly (is_in_period Year 0 base year) result }
{
    let from = civil_of(base);
    day_of(year, from.month, from.day)
}

// A day of a month, counted over the years, or None where the month is shorter.
fn month_day(month: u32, day: u32) -> Option<u32>
    requires low { 23641 ≤ month }
    requires high { month ≤ 120000 }
    requires day { (1 ≤ day) × (day ≤ 31) }
    ensures some { day ≤ 28 → IsSome result }
    ensures value { MatchOption result
        ((n : ℕ) → month_of n ≡ month → (civil n).day ≡ day → ⊥)
        (λ n. (month_of n ≡ month) × ((civil n).day ≡ day)) }
{
    day_of((month - 1) / 12, (month - 1) % 12 + 1, day)
}
