//! Whether an event can be seen at all in some seconds, by the time of day alone.

ghost use Rattle.std.specs.Prelude.{◌≡◌, ℕ, ◌+◌, ◌*◌, ◌%◌, ◌<◌, true, IsTrue, ◌↔◌, [], pos, neg_ℤ, ◌+ℤ◌, ◌*ℤ◌, ◌<ℤ◌, ◌≤ℤ◌, option_map};
ghost use Rattle.sg_base.specs.Daypart.{IsDaypart};
ghost use Rattle.sg_base.specs.Seconds.{IsAskable};
ghost use Rattle.sg_calendar.specs.Dates.{is_start};
ghost use Rattle.sg_calendar.specs.Windows.{end_of};
ghost use Rattle.sg_events.specs.Active.{HasDaypart};
ghost use Rattle.sg_events.specs.Quiet.{IsApart, IsQuiet};

use crate::changes::day_of;
use sg_base::limits::{DATE_END, DAY, LOCAL_END};
use sg_base::{Daypart, Event, LocalSec, Repeat, Unit, When, Window};
use sg_calendar::FIRST_WINDOW;

/// Whether the time of day alone tells that an event is idle at the local second t, and that none of its edges comes after t
/// and before another second. It asks for no date, so it is far cheaper than `active` and `next_change`, and counts no step.
/// `false` says nothing.
pub fn is_quiet(event: &Event, daypart: Option<&Daypart>, t: LocalSec, until: LocalSec) -> bool
    requires second { IsAskable t }
    requires later { t <ℤ until }
    requires bound { until ≤ℤ LOCAL_END }
    requires daypart { HasDaypart event.now.when (option_map (λ d. d.now) daypart) }
    ensures { result ≡ true → IsQuiet event.now.when event.now.repeat
        (option_map (λ d. d.now) daypart.entry) t until }
{
    match event.when() {
        When::Always => false,
        When::Custom { from, to } => {
            is_by_day(event.repeat()) && is_apart(from % DAY, to - from, t, until)
        }
        When::Named { .. } => match daypart {
            Some(daypart) => is_same_each_day(daypart) && is_window_apart(daypart, t, until),
            None => false,
        },
    }
}

// Whether each occurrence begins at the time of day of the first one.
fn is_by_day(repeat: &Option<Repeat>) -> bool
    ensures { result ≡ true → (from s : ℕ) → is_start repeat.now from s ≡ true → s % DAY ≡ from % DAY }
{
    match repeat {
        None => true,
        Some(repeat) => repeat.unit() != Unit::Hour,
    }
}

// Whether a daypart has one window for all dates.
fn is_same_each_day(daypart: &Daypart) -> bool
    ensures exceptions { result ≡ true → daypart.now.exceptions ≡ [] }
    ensures dates { result ≡ true → daypart.now.dates ≡ [] }
{
    daypart.exceptions().is_empty() && daypart.dates().is_empty()
}

// Whether a daypart's own window is apart from the seconds from t up to another, on each date.
fn is_window_apart(daypart: &Daypart, t: LocalSec, until: LocalSec) -> bool
    requires second { IsAskable t }
    requires later { t <ℤ until }
    requires bound { until ≤ℤ LOCAL_END }
    ensures apart { result ≡ true → (seconds : ℕ)
        × (daypart.now.window.start + seconds ≡ end_of daypart.now.window)
        × ((date : ℕ) → IsApart (date * DAY + daypart.now.window.start) seconds t until) }
    ensures valid { IsDaypart daypart.now }
{
    let window = daypart.window();
    is_apart(window.start, seconds_of(window), t, until)
}

// How long a window is open.
fn seconds_of(window: Window) -> u32
    requires start { window.start < DAY }
    requires end { window.end < DAY }
    ensures { window.start + result ≡ end_of window }
{
    if window.end <= window.start {
        window.end + DAY - window.start
    } else {
        window.end - window.start
    }
}

// Whether what begins at a time of day and lasts some seconds is apart from the seconds from t up to another, on each
// date: that of t's day begins later, and that of the day before is over; or that of t's day is over, and that of the
// next day begins later.
fn is_apart(start: u32, seconds: u32, t: LocalSec, until: LocalSec) -> bool
    requires start { start < DAY }
    requires second { IsAskable t }
    requires later { t <ℤ until }
    requires bound { until ≤ℤ LOCAL_END }
    ensures { result ≡ true → (date : ℕ) → IsApart (date * DAY + start) seconds t until }
{
    let begin = begin_on(day_of(t), start);
    is_later(begin, seconds, t, until) || is_over(begin, seconds, t, until)
}

// When what begins at a time of day begins on a day.
fn begin_on(day: i64, start: u32) -> LocalSec
    requires low { FIRST_WINDOW ≤ℤ day }
    requires high { day <ℤ DATE_END }
    requires start { start < DAY }
    ensures value { result ≡ day *ℤ pos DAY +ℤ pos start }
    ensures bound { result <ℤ LOCAL_END }
    ensures low { neg_ℤ (pos (2 * DAY)) ≤ℤ result }
{
    LocalSec::new(day * DAY as i64 + start as i64)
}

// Whether it begins from a second on, and what began a day before is over at t.
fn is_later(begin: LocalSec, seconds: u32, t: LocalSec, until: LocalSec) -> bool
    requires second { IsAskable t }
    requires bound { begin <ℤ LOCAL_END }
    requires low { neg_ℤ (pos (2 * DAY)) ≤ℤ begin }
    ensures { IsTrue result ↔ ((until ≤ℤ begin) × ((begin +ℤ pos seconds) ≤ℤ (t +ℤ pos DAY))) }
{
    until <= begin && after(begin, seconds) <= after(t, DAY)
}

// Whether it is over at t, and what begins a day later begins from a second on.
fn is_over(begin: LocalSec, seconds: u32, t: LocalSec, until: LocalSec) -> bool
    requires bound { begin <ℤ LOCAL_END }
    requires low { neg_ℤ (pos (2 * DAY)) ≤ℤ begin }
    ensures { IsTrue result ↔ (((begin +ℤ pos seconds) ≤ℤ t) × (until ≤ℤ (begin +ℤ pos DAY))) }
{
    after(begin, seconds) <= t && until <= after(begin, DAY)
}

fn after(t: LocalSec, seconds: u32) -> LocalSec
    requires low { neg_ℤ (pos (2 * DAY)) ≤ℤ t }
    requires high { t <ℤ LOCAL_END }
    ensures { result ≡ t +ℤ pos seconds }
{
    LocalSec::new(t.second() + seconds as i64)
}
