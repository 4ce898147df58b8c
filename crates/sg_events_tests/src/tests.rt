//! Activity and changes against values from outside: occurrences counted one by one with Python's `datetime`, local
//! seconds by the C library (`TZ=.. date -d @moment`).

ghost use Rattle.std.specs.Prelude.{◌≡◌, ◌<◌, IfOk, option_map};
ghost use Rattle.sg_base.specs.Seconds.{IsAskable};
ghost use Rattle.sg_events.specs.Active.{HasDaypart};

mod changes;
mod dayparts;
mod quiet;
mod runs;

use sg_base::{
    Daypart, DaypartId, Event, EventFault, EventId, LayoutId, LocalSec, Repeat, RepeatFault, Steps,
    Target, Unit, When, Window,
};
use sg_events::{active, next_change};
use std::alloc::Global;
use std::marker::Brand;
use std::sync::ledger::{Blank, Ledger};
use std::test::Fail;

// The unit, the step, the weekdays and the last day of a repeat.
type Parts = (Unit, u32, u8, Option<u32>);

// From 22 to 2 of the next day.
const NIGHT: Window = Window {
    start: 79_200,
    end: 7_200,
};

// From 20 to 3 of the next day.
const LATE_NIGHT: Window = Window {
    start: 72_000,
    end: 10_800,
};

// From 8 to 10.
const MORNING: Window = Window {
    start: 28_800,
    end: 36_000,
};

// From 10 to 11.
const HOUR_OF_TEN: Window = Window {
    start: 36_000,
    end: 39_600,
};

// From 10 to 10 of the next day.
const FROM_TEN_TO_TEN: Window = Window {
    start: 36_000,
    end: 36_000,
};

fn repeat_of(parts: Option<Parts>) -> Result<Option<Repeat>, RepeatFault> {
    match parts {
        None => Ok(None),
        Some((unit, every, days, until)) => Ok(Some(Repeat::new(unit, every, days, until)?)),
    }
}

fn event(when: When, repeat: Option<Repeat>) -> Result<Event, EventFault>
    ensures { IfOk result (λ e. e.when ≡ when) }
{
    let target = Target::Layout(LayoutId(1));
    Event::new(EventId(1), 0, target, when, repeat, 0, 0, 0)
}

// A daypart with at most one exception for a weekday and at most one for a date.
fn daypart(
    alloc: Global,
    usual: Window,
    weekday: Option<(u8, Window)>,
    date: Option<(u32, Window)>,
) -> Result<Daypart, Fail> {
    let mut exceptions = Vec::new(alloc);
    if let Some(weekday) = weekday {
        exceptions.push(weekday)?;
    }
    let mut dates = Vec::new(alloc);
    if let Some(date) = date {
        dates.push(date)?;
    }
    Ok(Daypart::new(DaypartId(1), usual, exceptions, dates)?)
}

fn is_active(event: &Event, daypart: Option<&Daypart>, t: i64) -> bool
    requires second { IsAskable t }
    requires daypart { HasDaypart event.now.when (option_map (λ d. d.now) daypart) }
{
    active_by::<Brand>(Blank::new(1), event, daypart, t)
}

fn active_by<L: Ledger>(blank: Blank, event: &Event, daypart: Option<&Daypart>, t: i64) -> bool
    requires name { blank.name ≡ L.name }
    requires parts { blank.parts ≡ L.parts }
    requires some { 0 < blank.parts }
    requires second { IsAskable t }
    requires daypart { HasDaypart event.now.when (option_map (λ d. d.now) daypart) }
{
    let mut steps = Steps::<L>::new(blank);
    active(event, daypart, LocalSec::new(t), &mut steps)
}

fn change_after(event: &Event, daypart: Option<&Daypart>, t: i64) -> i64
    requires second { IsAskable t }
    requires daypart { HasDaypart event.now.when (option_map (λ d. d.now) daypart) }
{
    change_by::<Brand>(Blank::new(1), event, daypart, t)
}

fn change_by<L: Ledger>(blank: Blank, event: &Event, daypart: Option<&Daypart>, t: i64) -> i64
    requires name { blank.name ≡ L.name }
    requires parts { blank.parts ≡ L.parts }
    requires some { 0 < blank.parts }
    requires second { IsAskable t }
    requires daypart { HasDaypart event.now.when (option_map (λ d. d.now) daypart) }
{
    let mut steps = Steps::<L>::new(blank);
    next_change(event, daypart, LocalSec::new(t), &mut steps).second()
}
