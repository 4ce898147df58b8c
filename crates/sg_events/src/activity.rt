//! Whether an event is active at a second.

ghost use Rattle.std.specs.Prelude.{◌≡◌, ◌+◌, ◌-◌, ◌<◌, pos, ◌<ℤ◌, ◌≤ℤ◌, ◌↔◌, IsTrue, option_map};
ghost use Rattle.sg_base.specs.Daypart.{IsDaypart};
ghost use Rattle.sg_base.specs.Seconds.{IsAskable};
ghost use Rattle.sg_calendar.specs.Dates.{IsNamed};
ghost use Rattle.sg_events.specs.Active.{IsActive, IsRunning, IsOpen, IsOpenOn, HasDaypart, is_active_at};

use sg_base::limits::{DATE_END, DAY};
use sg_base::{Daypart, Event, LocalSec, Repeat, Steps, When};
use sg_calendar::{latest_start, on_date, window};
use std::sync::ledger::Ledger;

/// Whether an event is active at the local second t: whether some occurrence has begun and isn't over. An
/// event in a daypart comes with its daypart. t is from -93,599 up to 4,102,703,999. Each call counts one
/// step.
pub fn active<L: Ledger>(
    event: &Event,
    daypart: Option<&Daypart>,
    t: LocalSec,
    steps: &mut Steps<L>,
) -> bool
    requires second { IsAskable t }
    requires daypart { HasDaypart event.now.when (option_map (λ d. d.now) daypart) }
    ensures meaning { IsTrue result
        ↔ IsActive event.now.when event.now.repeat (option_map (λ d. d.now) daypart.entry) t }
    ensures test { result ≡ is_active_at event.now.when event.now.repeat
        (option_map (λ d. d.now) daypart.entry) t }
    ensures ticks { steps.new ≡ steps.old + 1 }
{
    steps.tick();
    is_active(event, daypart, t)
}

fn is_active(event: &Event, daypart: Option<&Daypart>, t: LocalSec) -> bool
    requires second { IsAskable t }
    requires daypart { HasDaypart event.now.when (option_map (λ d. d.now) daypart) }
    ensures meaning { IsTrue result
        ↔ IsActive event.now.when event.now.repeat (option_map (λ d. d.now) daypart.entry) t }
    ensures test { result ≡ is_active_at event.now.when event.now.repeat
        (option_map (λ d. d.now) daypart.entry) t }
{
    match event.when() {
        When::Always => true,
        When::Custom { from, to } => is_running(from, to, event.repeat(), t),
        When::Named { .. } => match daypart {
            Some(daypart) => is_open(event, daypart, t),
            None => false,
        },
    }
}

// Whether less than the event's length has gone by since its latest start.
fn is_running(from: u32, to: u32, repeat: &Option<Repeat>, t: LocalSec) -> bool
    requires second { IsAskable t }
    requires some { from < to }
    ensures { IsTrue result ↔ IsRunning from to repeat.now t }
{
    match latest_start(&When::Custom { from, to }, repeat, t) {
        Some(start) => t.second() < start.second() + (to - from) as i64,
        None => false,
    }
}

// A window is over before the second midnight after its date begins, so only the window of t's day and that
// of the day before can hold t. No date is before 1970.
fn is_open(event: &Event, daypart: &Daypart, t: LocalSec) -> bool
    requires named { IsNamed event.now.when }
    requires second { IsAskable t }
    ensures meaning { IsTrue result ↔ IsOpen event.now.when event.now.repeat daypart.now t }
    ensures valid { pos 0 ≤ℤ t → IsDaypart daypart.now }
{
    let second = t.second();
    if second < 0 {
        return false;
    }
    let today = second / DAY as i64;
    is_open_on(event, daypart, today, t) || today > 0 && is_open_on(event, daypart, today - 1, t)
}

// Whether the daypart's window of a date holds t, and the date is one of the event's.
fn is_open_on(event: &Event, daypart: &Daypart, date: i64, t: LocalSec) -> bool
    requires named { IsNamed event.now.when }
    requires low { pos 0 ≤ℤ date }
    requires high { date ≤ℤ DATE_END }
    ensures meaning { IsTrue result ↔ IsOpenOn event.now.when event.now.repeat daypart.now t date }
    ensures valid { IsDaypart daypart.now }
{
    let (opens, closes) = window(daypart, date);
    is_within(t, opens, closes) && on_date(event, date)
}

fn is_within(t: LocalSec, opens: LocalSec, closes: LocalSec) -> bool
    ensures { IsTrue result ↔ ((opens ≤ℤ t) × (t <ℤ closes)) }
{
    opens <= t && t < closes
}
