//! The latest date of a repeat up to a day, and the next one from a day on. Both go through the turns of the
//! repeat (`specs/Turns.antt`), from the one that division gives, past those without a date.

ghost use Rattle.std.specs.Prelude.{◌≡◌, ℕ, ◌+◌, ◌*◌, ◌<◌, ◌≤◌, pos, ◌<ℤ◌};
ghost use Rattle.sg_calendar.specs.Dates.{period_of, is_unit_date, is_repeat_date};
ghost use Rattle.sg_calendar.specs.Nearest.{IsLatest, IsNext};
ghost use Rattle.sg_calendar.specs.Turns.{turn_of, is_in_turn};

use crate::civil::LAST_ASKED;
use crate::dates::{is_until, period};
use crate::periods::{latest_in_week, next_in_week, only_in};
use sg_base::limits::LOCAL_END;
use sg_base::{Repeat, Unit};

/// The latest date of the repeat up to `last`, for a base date.
pub(crate) fn latest_repeat_date(repeat: &Repeat, base: u32, last: u32) -> Option<u32>
    requires { last ≤ LAST_ASKED }
    ensures { IsLatest (is_repeat_date repeat.now base) last result }
{
    let cut = match repeat.until() {
        Some(until) => last.min(until),
        None => last,
    };
    if cut < base {
        return None;
    }
    latest_by_unit(repeat, base, cut)
}

/// The next date of the repeat from `first` on, for a base date.
pub(crate) fn next_repeat_date(repeat: &Repeat, base: u32, first: u32) -> Option<u32>
    ensures { IsNext (is_repeat_date repeat.now base) first LAST_ASKED result }
{
    let from = first.max(base);
    if from >= LAST_ASKED {
        return None;
    }
    match next_by_unit(repeat, base, from) {
        Some(day) => is_until(repeat.until(), day).then_some(day),
        None => None,
    }
}

// The latest date, the repeat's last day left out. At most two weeks are looked at: every week but that of
// the base and that of `last` has each chosen day.
fn latest_by_unit(repeat: &Repeat, base: u32, last: u32) -> Option<u32>
    requires order { base ≤ last }
    requires high { last ≤ LAST_ASKED }
    ensures { let r = repeat.now in
        IsLatest (is_unit_date r.unit r.every r.days base) last result }
{
    let mut left = turn_at(repeat, base, last) + 1;
    while left > 0 {
        left -= 1;
        match latest_in(repeat, base, last, left) {
            Some(day) => return Some(day),
            None => {}
        }
    }
    None
}

// The next date, the repeat's last day left out.
fn next_by_unit(repeat: &Repeat, base: u32, first: u32) -> Option<u32>
    requires order { base ≤ first }
    requires high { first < LAST_ASKED }
    ensures { let r = repeat.now in
        IsNext (is_unit_date r.unit r.every r.days base) first LAST_ASKED result }
{
    for turn in turn_at(repeat, base, first)..turn_at(repeat, base, LAST_ASKED) + 1 {
        match next_in(repeat, base, first, turn) {
            Some(day) => return Some(day),
            None => {}
        }
    }
    None
}

// The turn that a day falls in.
#[tactic(auto, using(crate::proofs::DateLemmas::period_mono))]
fn turn_at(repeat: &Repeat, base: u32, day: u32) -> u32
    requires order { base ≤ day }
    requires high { day ≤ LAST_ASKED }
    ensures value { result ≡ turn_of repeat.now base day }
    ensures few { result ≤ 120000 }
    ensures some { 0 < repeat.now.every }
{
    (period(repeat.unit(), day) - period(repeat.unit(), base)) / repeat.every()
}

// The latest date of a turn.
fn latest_in(repeat: &Repeat, base: u32, last: u32, turn: u32) -> Option<u32>
    requires order { base ≤ last }
    requires high { last ≤ LAST_ASKED }
    requires within { turn ≤ turn_of repeat.now base LAST_ASKED }
    ensures { IsLatest (is_in_turn repeat.now base turn) last result }
{
    let period = period_at(repeat, base, turn);
    match repeat.unit() {
        Unit::Week => latest_in_week(base, repeat.days(), last, period),
        Unit::Hour | Unit::Day | Unit::Month | Unit::MonthWeekday | Unit::Year => {
            let day = only_in(repeat, base, period)?;
            (day <= last).then_some(day)
        }
    }
}

// The next date of a turn.
fn next_in(repeat: &Repeat, base: u32, first: u32, turn: u32) -> Option<u32>
    requires order { base ≤ first }
    requires high { first < LAST_ASKED }
    requires within { turn ≤ turn_of repeat.now base LAST_ASKED }
    ensures { IsNext (is_in_turn repeat.now base turn) first LAST_ASKED result }
{
    let period = period_at(repeat, base, turn);
    match repeat.unit() {
        Unit::Week => next_in_week(base, repeat.days(), first, period),
        Unit::Hour | Unit::Day | Unit::Month | Unit::MonthWeekday | Unit::Year => {
            let day = only_in(repeat, base, period)?;
            (first <= day && day < LAST_ASKED).then_some(day)
        }
    }
}

// The day, week, month or year of a turn.
#[tactic(auto, using(crate::proofs::DateLemmas::turn_within, crate::proofs::DateLemmas::period_bound))]
fn period_at(repeat: &Repeat, base: u32, turn: u32) -> u32
    requires high { base ≤ LAST_ASKED }
    requires within { turn ≤ turn_of repeat.now base LAST_ASKED }
    ensures value { result ≡ period_of repeat.now.unit base + turn * repeat.now.every }
    ensures within { result ≤ period_of repeat.now.unit LAST_ASKED }
{
    period(repeat.unit(), base) + turn * repeat.every()
}

/// The first number after z that isn't negative.
pub(crate) fn first_after(z: i64) -> u64
    requires { z <ℤ LOCAL_END }
    ensures above { z <ℤ pos result }
    ensures least { (n : ℕ) → z <ℤ pos n → result ≤ n }
{
    if z < 0 { 0 } else { z as u64 + 1 }
}
