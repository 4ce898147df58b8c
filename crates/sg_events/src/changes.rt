//! When an event's activity may change next.

ghost use Rattle.std.specs.Prelude.{◌≡◌, ◌+◌, ◌<◌, ◌⊎◌, ℤ, pos, neg_ℤ, ◌+ℤ◌, ◌-ℤ◌, ◌*ℤ◌, ◌<ℤ◌, ◌≤ℤ◌, option_map};
ghost use Rattle.sg_base.specs.Daypart.{IsDaypart};
ghost use Rattle.sg_base.specs.Seconds.{IsAskable};
ghost use Rattle.sg_calendar.specs.Dates.{IsNamed};
ghost use Rattle.sg_events.specs.Active.{HasDaypart};
ghost use Rattle.sg_events.specs.Edges.{IsBegin, IsOver, IsWindowEdge, IsLaterEdge, IsFirstAfter, IsNextEdge, IsLesser};

use sg_base::limits::{DATE_END, DAY, LOCAL_END};
use sg_base::{Daypart, Event, LocalSec, Repeat, Steps, When};
use sg_calendar::{FIRST_WINDOW, next_date, next_start, on_date, window};
use std::sync::ledger::Ledger;

/// The first edge of an event after the local second t, where an occurrence begins or is over, and 4,102,704,000
/// where none comes before it. Up to that second the event stays active, or stays idle (`activity_stays`). An
/// event in a daypart comes with its daypart. t is from -93,599 up to 4,102,703,999. Each call counts one step.
pub fn next_change<L: Ledger>(
    event: &Event,
    daypart: Option<&Daypart>,
    t: LocalSec,
    steps: &mut Steps<L>,
) -> LocalSec
    requires second { IsAskable t }
    requires daypart { HasDaypart event.now.when (option_map (λ d. d.now) daypart) }
    ensures next { IsNextEdge event.now.when event.now.repeat
        (option_map (λ d. d.now) daypart.entry) t result }
    ensures ticks { steps.new ≡ steps.old + 1 }
{
    steps.tick();
    next_edge(event, daypart, t)
}

fn next_edge(event: &Event, daypart: Option<&Daypart>, t: LocalSec) -> LocalSec
    requires second { IsAskable t }
    requires daypart { HasDaypart event.now.when (option_map (λ d. d.now) daypart) }
    ensures { IsNextEdge event.now.when event.now.repeat
        (option_map (λ d. d.now) daypart.entry) t result }
{
    match event.when() {
        When::Always => end(),
        When::Custom { from, to } => next_of_runs(from, to, event.repeat(), t),
        When::Named { .. } => match daypart {
            Some(daypart) => next_of_windows(event, daypart, t),
            None => end(),
        },
    }
}

fn next_of_runs(from: u32, to: u32, repeat: &Option<Repeat>, t: LocalSec) -> LocalSec
    requires second { IsAskable t }
    requires some { from < to }
    ensures { IsFirstAfter (λ x. IsBegin from repeat.now x ⊎ IsOver from to repeat.now x) t result }
{
    sooner(
        next_begin(from, to, repeat, t),
        next_over(from, to, repeat, t),
    )
}

fn next_begin(from: u32, to: u32, repeat: &Option<Repeat>, t: LocalSec) -> LocalSec
    requires second { IsAskable t }
    ensures { IsFirstAfter (IsBegin from repeat.now) t result }
{
    match next_start(&When::Custom { from, to }, repeat, t) {
        Some(start) => start,
        None => end(),
    }
}

// An occurrence is over its length after its start, and none starts before second 0.
fn next_over(from: u32, to: u32, repeat: &Option<Repeat>, t: LocalSec) -> LocalSec
    requires second { IsAskable t }
    requires some { from < to }
    ensures { IsFirstAfter (IsOver from to repeat.now) t result }
{
    let earlier = earlier_by(t, to - from);
    match next_start(&When::Custom { from, to }, repeat, earlier) {
        Some(start) => sooner(later_by(start, to - from), end()),
        None => end(),
    }
}

// As many seconds before t, where that isn't before second 0, and else second -1.
fn earlier_by(t: LocalSec, length: u32) -> LocalSec
    requires { IsAskable t }
    ensures low { (t -ℤ pos length) ≤ℤ result }
    ensures one { (result ≡ t -ℤ pos length) ⊎ (result ≡ neg_ℤ (pos 1)) }
    ensures second { IsAskable result }
{
    if t.second() < length as i64 {
        LocalSec::new(-1)
    } else {
        LocalSec::new(t.second() - length as i64)
    }
}

fn later_by(t: LocalSec, length: u32) -> LocalSec
    requires low { pos 0 ≤ℤ t }
    requires high { t <ℤ LOCAL_END }
    ensures { result ≡ t +ℤ pos length }
{
    LocalSec::new(t.second() + length as i64)
}

// A window is over before the second midnight after its date begins. So after t come the edges of t's day and of
// the day before, and then the opening of the next date that the event has. No date is before 1970.
fn next_of_windows(event: &Event, daypart: &Daypart, t: LocalSec) -> LocalSec
    requires named { IsNamed event.now.when }
    requires second { IsAskable t }
    ensures { let e = event.now in IsFirstAfter
        (λ x. (date : ℤ) × IsWindowEdge e.when e.repeat daypart.now date x) t result }
{
    let today = day_of(t);
    let early = next_of_date(event, daypart, today, t);
    let later = sooner(early, next_opening(event, daypart, today));
    if today > 0 {
        sooner(next_of_date(event, daypart, today - 1, t), later)
    } else {
        later
    }
}

// The next edge of one date.
fn next_of_date(event: &Event, daypart: &Daypart, date: i64, t: LocalSec) -> LocalSec
    requires named { IsNamed event.now.when }
    requires low { FIRST_WINDOW ≤ℤ date }
    requires high { date <ℤ DATE_END }
    requires second { IsAskable t }
    ensures next { IsFirstAfter
        (IsWindowEdge event.now.when event.now.repeat daypart.now date) t result }
    ensures valid { IsDaypart daypart.now }
{
    let (opens, closes) = window(daypart, date);
    if on_date(event, date) {
        next_of_window(opens, closes, t)
    } else {
        end()
    }
}

fn next_of_window(opens: LocalSec, closes: LocalSec, t: LocalSec) -> LocalSec
    requires order { opens <ℤ closes }
    requires second { IsAskable t }
    ensures { IsFirstAfter (λ x. (x ≡ opens) ⊎ (x ≡ closes)) t result }
{
    if t.second() < opens.second() {
        sooner(opens, end())
    } else if t.second() < closes.second() {
        sooner(closes, end())
    } else {
        end()
    }
}

// When the window of the next date after this one opens.
fn next_opening(event: &Event, daypart: &Daypart, date: i64) -> LocalSec
    requires named { IsNamed event.now.when }
    requires low { FIRST_WINDOW ≤ℤ date }
    requires high { date <ℤ DATE_END }
    ensures { IsFirstAfter (IsLaterEdge event.now.when event.now.repeat daypart.now date)
        (date *ℤ pos DAY) result }
{
    match next_date(event, date) {
        Some(next) => window(daypart, next).0,
        None => end(),
    }
}

/// The day of a second, rounded down.
pub(crate) fn day_of(t: LocalSec) -> i64
    requires { IsAskable t }
    ensures from { (result *ℤ pos DAY) ≤ℤ t }
    ensures till { t <ℤ ((result +ℤ pos 1) *ℤ pos DAY) }
    ensures low { FIRST_WINDOW ≤ℤ result }
    ensures high { result <ℤ DATE_END }
{
    t.second().div_euclid(DAY as i64)
}

fn sooner(a: LocalSec, b: LocalSec) -> LocalSec
    ensures { IsLesser a b result }
{
    if a.second() < b.second() { a } else { b }
}

// Where no edge comes before it, the next change is at the end of local seconds.
fn end() -> LocalSec
    ensures { result ≡ LOCAL_END }
{
    LocalSec::new(LOCAL_END)
}
