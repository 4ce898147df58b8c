//! On which dates an event has an occurrence.

ghost use Rattle.std.specs.Prelude.{◌≡◌, ◌+◌, ◌*◌, ◌<◌, ◌≤◌, ◌≤ℤ◌, pos, MatchOption};
ghost use Rattle.sg_calendar.specs.Civil.{weekday};
ghost use Rattle.sg_calendar.specs.Dates.{is_multiple_above, is_chosen, is_until, period_of, is_same_day, is_same_weekday, is_anniversary, fits_period, fits_unit, is_repeat_date, is_date, is_on_date, IsNamed, IsDateAfter, IsNoDateAfter};
ghost use Rattle.sg_calendar.specs.Nearest.{IsNext};

use crate::civil::{Civil, LAST_ASKED, civil_of};
use crate::nearest::{first_after, next_repeat_date};
use sg_base::limits::{DATE_END, FIRST_DATE};
use sg_base::{Event, Repeat, Unit, When};

/// Whether an event in a daypart has an occurrence on a date, a day number from -3 to 47,485. No event has
/// one before day 0.
pub fn on_date(event: &Event, date: i64) -> bool
    requires named { IsNamed event.now.when }
    requires low { FIRST_DATE ≤ℤ date }
    requires high { date ≤ℤ DATE_END }
    ensures { result ≡ is_on_date event.now.when event.now.repeat date }
{
    match event.when() {
        When::Named { date: base, .. } => date >= 0 && is_date(event.repeat(), base, date as u32),
        When::Always | When::Custom { .. } => false,
    }
}

/// The least date after another on which an event in a daypart has an occurrence, or None where there is none
/// before day 47,485. The other is a day number from -3 to 47,485.
pub fn next_date(event: &Event, date: i64) -> Option<i64>
    requires named { IsNamed event.now.when }
    requires low { FIRST_DATE ≤ℤ date }
    requires high { date ≤ℤ DATE_END }
    ensures { MatchOption result
        (IsNoDateAfter event.now.when event.now.repeat date)
        (λ d. IsDateAfter event.now.when event.now.repeat date d) }
{
    let When::Named { date: base, .. } = event.when() else {
        return None;
    };
    match next_day(event.repeat(), base, first_after(date) as u32) {
        Some(day) => Some(day as i64),
        None => None,
    }
}

fn next_day(repeat: &Option<Repeat>, base: u32, first: u32) -> Option<u32>
    ensures { IsNext (is_date repeat.now base) first LAST_ASKED result }
{
    match repeat {
        None => (first <= base && base < LAST_ASKED).then_some(base),
        Some(repeat) => next_repeat_date(repeat, base, first),
    }
}

fn is_date(repeat: &Option<Repeat>, base: u32, day: u32) -> bool
    requires { day ≤ LAST_ASKED }
    ensures { result ≡ is_date repeat.now base day }
{
    match repeat {
        None => day == base,
        Some(repeat) => is_repeat_date(repeat, base, day),
    }
}

fn is_repeat_date(repeat: &Repeat, base: u32, day: u32) -> bool
    requires { day ≤ LAST_ASKED }
    ensures { result ≡ is_repeat_date repeat.now base day }
{
    is_until(repeat.until(), day) && base <= day && fits_unit(repeat, base, day)
}

pub(crate) fn is_until(until: Option<u32>, day: u32) -> bool
    ensures { result ≡ is_until until day }
{
    match until {
        None => true,
        Some(last) => day <= last,
    }
}

#[tactic(auto, using(crate::proofs::DateLemmas::period_mono))]
fn fits_unit(repeat: &Repeat, base: u32, day: u32) -> bool
    requires order { base ≤ day }
    requires high { day ≤ LAST_ASKED }
    ensures { result ≡ fits_unit repeat.now.unit repeat.now.every repeat.now.days base day }
{
    let unit = repeat.unit();
    fits_period(unit, repeat.days(), base, day)
        && is_multiple_above(repeat.every(), period(unit, base), period(unit, day))
}

fn fits_period(unit: Unit, days: u8, base: u32, day: u32) -> bool
    requires order { base ≤ day }
    requires high { day ≤ LAST_ASKED }
    ensures { result ≡ fits_period unit days base day }
{
    match unit {
        Unit::Hour => false,
        Unit::Day => true,
        Unit::Week => is_chosen(days, weekday_of(day)),
        Unit::Month => is_same_day(base, day),
        Unit::MonthWeekday => is_same_weekday(base, day),
        Unit::Year => is_anniversary(base, day),
    }
}

fn is_same_day(base: u32, day: u32) -> bool
    requires first { base ≤ LAST_ASKED }
    requires second { day ≤ LAST_ASKED }
    ensures { result ≡ is_same_day base day }
{
    civil_of(day).day == civil_of(base).day
}

fn is_same_weekday(base: u32, day: u32) -> bool
    requires first { base ≤ LAST_ASKED }
    requires second { day ≤ LAST_ASKED }
    ensures { result ≡ is_same_weekday base day }
{
    weekday_of(day) == weekday_of(base)
        && (civil_of(day).day - 1) / 7 == (civil_of(base).day - 1) / 7
}

fn is_anniversary(base: u32, day: u32) -> bool
    requires first { base ≤ LAST_ASKED }
    requires second { day ≤ LAST_ASKED }
    ensures { result ≡ is_anniversary base day }
{
    let (from, to) = (civil_of(base), civil_of(day));
    to.day == from.day && to.month == from.month
}

/// The day, week, month or year of a date, as a number that rises by 1 from each to the next.
pub(crate) fn period(unit: Unit, day: u32) -> u32
    requires { day ≤ LAST_ASKED }
    ensures { result ≡ period_of unit day }
{
    match unit {
        Unit::Hour => 0,
        Unit::Day => day,
        Unit::Week => (day + 3) / 7,
        Unit::Month | Unit::MonthWeekday => month_number(civil_of(day)),
        Unit::Year => civil_of(day).year,
    }
}

fn is_multiple_above(step: u32, from: u32, to: u32) -> bool
    requires order { from ≤ to }
    requires some { 0 < step }
    ensures { result ≡ is_multiple_above step from to }
{
    (to - from) % step == 0
}

pub(crate) fn is_chosen(days: u8, weekday: u32) -> bool
    requires low { 1 ≤ weekday }
    requires high { weekday ≤ 7 }
    ensures { result ≡ is_chosen days weekday }
{
    (days >> (weekday - 1)) % 2 == 1
}

pub(crate) fn weekday_of(day: u32) -> u32
    ensures value { result ≡ weekday (pos day) }
    ensures low { 1 ≤ result }
    ensures high { result ≤ 7 }
{
    (day % 7 + 3) % 7 + 1
}

pub(crate) fn month_number(date: Civil) -> u32
    requires { (date.year ≤ 9999) × (date.month ≤ 12) }
    ensures { result ≡ 12 * date.year + date.month }
{
    12 * date.year + date.month
}
