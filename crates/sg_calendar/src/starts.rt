//! The latest and the next start of an event at a time of its own.

ghost use Rattle.std.specs.Prelude.{◌≡◌, ◌^◌, ◌<◌, ◌≤◌, MatchOption};
ghost use Rattle.sg_base.specs.Seconds.{IsAskable};
ghost use Rattle.sg_calendar.specs.Dates.{is_hour, is_hour_start, is_day_start, is_start, is_unit_start, IsStartUpTo, IsNoStart, IsStartAfter, IsNoStartAfter};
ghost use Rattle.sg_calendar.specs.Nearest.{IsLatest, IsNext};

use crate::dates::is_until;
use crate::nearest::{first_after, latest_repeat_date, next_repeat_date};
use sg_base::limits::{DAY, HOUR, LOCAL_END, MAX_STEP};
use sg_base::{LocalSec, Repeat, Unit, When};

// The first second that isn't asked about.
const END: u64 = LOCAL_END as u64;

const DAY_SECONDS: u64 = DAY as u64;

const HOUR_SECONDS: u64 = HOUR as u64;

/// The greatest start of an event at a time of its own that isn't after t, or None where every start is after
/// it. Other events have no start. It is found by division, whatever the distance. t is from -93,599 up to
/// 4,102,703,999.
pub fn latest_start(when: &When, repeat: &Option<Repeat>, t: LocalSec) -> Option<LocalSec>
    requires second { IsAskable t }
    ensures { MatchOption result
        (IsNoStart when.now repeat.now t)
        (λ s. IsStartUpTo when.now repeat.now t s) }
{
    let When::Custom { from, .. } = when else {
        return None;
    };
    let second = t.second();
    if second < 0 {
        return None;
    }
    match latest_second(*from as u64, repeat, second as u64) {
        Some(start) => Some(LocalSec::new(start as i64)),
        None => None,
    }
}

/// The least start of an event at a time of its own that is after t and before second 4,102,704,000, or None
/// where there is none. Other events have no start. t is from -93,599 up to 4,102,703,999.
pub fn next_start(when: &When, repeat: &Option<Repeat>, t: LocalSec) -> Option<LocalSec>
    requires second { IsAskable t }
    ensures { MatchOption result
        (IsNoStartAfter when.now repeat.now t)
        (λ s. IsStartAfter when.now repeat.now t s) }
{
    let When::Custom { from, .. } = when else {
        return None;
    };
    match next_second(*from as u64, repeat, first_after(t.second())) {
        Some(start) => Some(LocalSec::new(start as i64)),
        None => None,
    }
}

// The same on numbers that aren't negative.
fn latest_second(from: u64, repeat: &Option<Repeat>, t: u64) -> Option<u64>
    requires first { from < 2 ^ 32 }
    requires second { t < END }
    ensures { IsLatest (is_start repeat.now from) t result }
{
    match repeat {
        None => (from <= t).then_some(from),
        Some(repeat) => latest_of_repeat(repeat, from, t),
    }
}

fn next_second(from: u64, repeat: &Option<Repeat>, first: u64) -> Option<u64>
    requires base { from < 2 ^ 32 }
    requires second { first ≤ END }
    ensures { IsNext (is_start repeat.now from) first END result }
{
    match repeat {
        None => (first <= from && from < END).then_some(from),
        Some(repeat) => next_of_repeat(repeat, from, first),
    }
}

fn latest_of_repeat(repeat: &Repeat, from: u64, t: u64) -> Option<u64>
    requires first { from < 2 ^ 32 }
    requires second { t < END }
    ensures { IsLatest (is_unit_start repeat.now.unit repeat.now from) t result }
{
    match repeat.unit() {
        Unit::Hour => latest_by_hour(repeat, from, t),
        Unit::Day | Unit::Week | Unit::Month | Unit::MonthWeekday | Unit::Year => {
            latest_by_date(repeat, from, t)
        }
    }
}

fn next_of_repeat(repeat: &Repeat, from: u64, first: u64) -> Option<u64>
    requires base { from < 2 ^ 32 }
    requires second { first ≤ END }
    ensures { IsNext (is_unit_start repeat.now.unit repeat.now from) first END result }
{
    match repeat.unit() {
        Unit::Hour => next_by_hour(repeat, from, first),
        Unit::Day | Unit::Week | Unit::Month | Unit::MonthWeekday | Unit::Year => {
            next_by_date(repeat, from, first)
        }
    }
}

fn latest_by_hour(repeat: &Repeat, from: u64, t: u64) -> Option<u64>
    requires first { from < 2 ^ 32 }
    requires second { t < END }
    ensures { IsLatest (is_hour_start repeat.now from) t result }
{
    let cut = match repeat.until() {
        Some(last) => t.min(last as u64 * DAY_SECONDS + (DAY_SECONDS - 1)),
        None => t,
    };
    if cut < from {
        return None;
    }
    let step = HOUR_SECONDS * repeat.every() as u64;
    Some(from + (cut - from) / step * step)
}

fn next_by_hour(repeat: &Repeat, from: u64, first: u64) -> Option<u64>
    requires base { from < 2 ^ 32 }
    requires second { first ≤ END }
    ensures { IsNext (is_hour_start repeat.now from) first END result }
{
    let start = next_hour(repeat.every(), from, first)?;
    is_until(repeat.until(), (start / DAY_SECONDS) as u32).then_some(start)
}

// The next second that is a multiple of `every` hours after `from`.
fn next_hour(every: u32, from: u64, first: u64) -> Option<u64>
    requires base { from < 2 ^ 32 }
    requires second { first ≤ END }
    requires some { 0 < every }
    requires few { every ≤ MAX_STEP }
    ensures { IsNext (is_hour every from) first END result }
{
    let step = HOUR_SECONDS * every as u64;
    let start = from + first.saturating_sub(from).div_ceil(step) * step;
    if start < END { Some(start) } else { None }
}

// A start on a date is at the base's time of day.
fn latest_by_date(repeat: &Repeat, from: u64, t: u64) -> Option<u64>
    requires first { from < 2 ^ 32 }
    requires second { t < END }
    ensures { IsLatest (is_day_start repeat.now from) t result }
{
    let time = from % DAY_SECONDS;
    if t < time {
        return None;
    }
    let base = (from / DAY_SECONDS) as u32;
    let last = ((t - time) / DAY_SECONDS) as u32;
    match latest_repeat_date(repeat, base, last) {
        Some(day) => Some(day as u64 * DAY_SECONDS + time),
        None => None,
    }
}

fn next_by_date(repeat: &Repeat, from: u64, first: u64) -> Option<u64>
    requires base { from < 2 ^ 32 }
    requires second { first ≤ END }
    ensures { IsNext (is_day_start repeat.now from) first END result }
{
    let time = from % DAY_SECONDS;
    let base = (from / DAY_SECONDS) as u32;
    let day = (first + (DAY_SECONDS - 1 - time)) / DAY_SECONDS;
    match next_repeat_date(repeat, base, day as u32) {
        Some(day) => Some(day as u64 * DAY_SECONDS + time),
        None => None,
    }
}
