//! Hours that the time of day alone keeps an event out of, worked by hand: hours of day 9,000 after 1970-01-01.

ghost use Rattle.std.specs.Prelude.{pos, ◌+ℤ◌, ◌≤ℤ◌, option_map};
ghost use Rattle.sg_base.specs.Seconds.{IsAskable};
ghost use Rattle.sg_events.specs.Active.{HasDaypart};

use super::{HOUR_OF_TEN, MORNING, NIGHT, daypart, event, repeat_of};
use sg_base::limits::{FIRST_LOCAL, LOCAL_END};
use sg_base::{Daypart, DaypartId, Event, LocalSec, Unit, When};
use sg_events::is_quiet;
use std::process::Abort;
use std::test::Fail;

/// The first second of an hour, and whether that hour is quiet.
type Hours = &'static [(i64, bool)];

const HOUR: i64 = 3_600;

// From 9:30 to 10:30 of day 0.
const RUN: When = When::Custom {
    from: 34_200,
    to: 37_800,
};

// From 22 of day 0 to 2 of day 1.
const NIGHT_RUN: When = When::Custom {
    from: 79_200,
    to: 93_600,
};

fn is_hour_quiet(event: &Event, daypart: Option<&Daypart>, t: i64) -> bool
    requires second { IsAskable t }
    requires bound { (t +ℤ pos 3_600) ≤ℤ LOCAL_END }
    requires daypart { HasDaypart event.now.when (option_map (λ d. d.now) daypart) }
{
    is_quiet(event, daypart, LocalSec::new(t), LocalSec::new(t + HOUR))
}

fn check(rt: &impl Abort, event: &Event, daypart: Option<&Daypart>, hours: Hours)
    requires { HasDaypart event.now.when (option_map (λ d. d.now) daypart) }
{
    for (t, quiet) in hours {
        assert!(rt; FIRST_LOCAL <= *t && *t < LOCAL_END);
        assert!(rt; *t + HOUR <= LOCAL_END);
        assert_eq!(rt; is_hour_quiet(event, daypart, *t), *quiet, "from {t} on");
    }
}

#[test]
fn an_hour_that_the_time_of_day_keeps_an_event_out_of_is_quiet(
    rt: HostRuntime,
) -> Result<(), Fail> {
    let daily = event(RUN, repeat_of(Some((Unit::Day, 1, 0, None)))?)?;
    // At 8, at 9, at 10 and at 11.
    let hours = &[
        (777_628_800, true),
        (777_632_400, false),
        (777_636_000, false),
        (777_639_600, true),
    ];
    check(&rt, &daily, None, hours);
    Ok(())
}

#[test]
fn a_run_past_midnight_takes_the_next_morning(rt: HostRuntime) -> Result<(), Fail> {
    let monthly = event(NIGHT_RUN, repeat_of(Some((Unit::Month, 1, 0, None)))?)?;
    // At 1, at 2, at 21 and at 22.
    let hours = &[
        (777_603_600, false),
        (777_607_200, true),
        (777_675_600, true),
        (777_679_200, false),
    ];
    check(&rt, &monthly, None, hours);
    Ok(())
}

#[test]
fn an_hourly_repeat_is_never_known_to_be_quiet(rt: HostRuntime) -> Result<(), Fail> {
    let hourly = event(RUN, repeat_of(Some((Unit::Hour, 5, 0, None)))?)?;
    check(&rt, &hourly, None, &[(777_600_000, false)]);
    Ok(())
}

#[test]
fn a_window_without_exceptions_is_quiet_outside(rt: HostRuntime) -> Result<(), Fail> {
    let named = When::Named {
        daypart: DaypartId(1),
        date: 0,
    };
    let daily = event(named, repeat_of(Some((Unit::Day, 1, 0, None)))?)?;
    let alloc = rt.alloc();
    // At 9, at 10 and at 11.
    let ten = daypart(alloc, HOUR_OF_TEN, None, None)?;
    check(
        &rt,
        &daily,
        Some(&ten),
        &[
            (777_632_400, true),
            (777_636_000, false),
            (777_639_600, true),
        ],
    );
    // At 1 and at 3.
    let night = daypart(alloc, NIGHT, None, None)?;
    check(
        &rt,
        &daily,
        Some(&night),
        &[(777_603_600, false), (777_610_800, true)],
    );
    // At 3, with another window on Sundays.
    let other = daypart(alloc, HOUR_OF_TEN, Some((7, MORNING)), None)?;
    check(&rt, &daily, Some(&other), &[(777_610_800, false)]);
    Ok(())
}
