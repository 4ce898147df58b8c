//! Windows of dayparts.

ghost use Rattle.std.specs.Prelude.{◌≡◌, ◌^◌, pos, ◌<ℤ◌, ◌≤ℤ◌};
ghost use Rattle.sg_base.specs.Daypart.{IsDaypart};
ghost use Rattle.sg_calendar.specs.Civil.{weekday as weekday_of};
ghost use Rattle.sg_calendar.specs.Windows.{exception_of, date_exception, window_at, end_of, opens, closes};

use sg_base::limits::{DATE_END, DAY};
use sg_base::{Daypart, LocalSec, Window};

/// The first date whose window may be asked about.
pub const FIRST_WINDOW: i64 = -2;

/// When a daypart's window of a date opens, and when it closes, which is the first second after it. The
/// window is the exception of the date where the daypart has one, or else that of its weekday, or else the
/// daypart's own. It closes on the next day where its end isn't after its start. A date is from -2 to 47,485.
pub fn window(daypart: &Daypart, date: i64) -> (LocalSec, LocalSec)
    requires low { FIRST_WINDOW ≤ℤ date }
    requires high { date ≤ℤ DATE_END }
    ensures from { result.0 ≡ opens daypart.now date }
    ensures to { result.1 ≡ closes daypart.now date }
    ensures valid { IsDaypart daypart.now }
{
    let found = window_on(daypart, date);
    let midnight = date * DAY as i64;
    (
        LocalSec::new(midnight + found.start as i64),
        LocalSec::new(midnight + end_second(found)),
    )
}

fn window_on(daypart: &Daypart, date: i64) -> Window
    requires low { FIRST_WINDOW ≤ℤ date }
    requires high { date ≤ℤ DATE_END }
    ensures value { result ≡ window_at daypart.now date }
    ensures valid { IsDaypart daypart.now }
{
    if let Some(window) = date_exception(daypart.dates(), date) {
        return window;
    }
    match weekday_exception(daypart.exceptions(), weekday_on(date)) {
        Some(window) => window,
        None => daypart.window(),
    }
}

// There are at most 64.
fn date_exception(dates: &[(u32, Window)], date: i64) -> Option<Window>
    requires { date ≤ℤ DATE_END }
    ensures { result ≡ date_exception dates.now date }
{
    if date < 0 {
        return None;
    }
    day_exception(dates, date as u32)
}

fn day_exception(dates: &[(u32, Window)], day: u32) -> Option<Window>
    ensures { result ≡ exception_of dates.now day }
{
    for (date, window) in dates {
        if *date == day {
            return Some(*window);
        }
    }
    None
}

// The weekday of a date, from 1 for Monday.
fn weekday_on(date: i64) -> u8
    requires low { FIRST_WINDOW ≤ℤ date }
    requires high { date ≤ℤ DATE_END }
    ensures { result ≡ weekday_of date }
{
    ((date + 3) % 7) as u8 + 1
}

// There are at most seven exceptions.
fn weekday_exception(exceptions: &[(u8, Window)], weekday: u8) -> Option<Window>
    ensures { result ≡ exception_of exceptions.now weekday }
{
    for (day, window) in exceptions {
        if *day == weekday {
            return Some(*window);
        }
    }
    None
}

fn end_second(window: Window) -> i64
    ensures value { result ≡ pos (end_of window) }
    ensures high { result <ℤ pos (2 ^ 33) }
{
    if window.end <= window.start {
        window.end as i64 + DAY as i64
    } else {
        window.end as i64
    }
}
