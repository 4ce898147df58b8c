//! The rules of a daypart, each a function over plain values: its faults, and the order of its lists.

ghost use Rattle.std.specs.Prelude.{◌≡◌, ◌==◌, ℕ, [], IsPermutation};
ghost use Rattle.std.specs.List.{list_any};
ghost use Rattle.std.specs.List.Sorted.{IsNonDecreasingBy};
ghost use Rattle.sg_base.specs.declared.daypart.DaypartFault.{DaypartFault as Fault};
ghost use Rattle.sg_base.specs.declared.daypart.DaypartFault.TheVariants.{DoubleWeekday, DoubleDate};
ghost use Rattle.sg_base.specs.Faults.{first_in, double_of};
ghost use Rattle.sg_base.specs.Daypart.{daypart_fault, times_fault as times_fault_of, weekdays_fault as weekdays_fault_of, dates_fault as dates_fault_of, time_fault as time_fault_of, window_fault as window_fault_of, weekday_fault as weekday_fault_of, date_fault as date_fault_of};

use crate::daypart::{DaypartFault, Window};
use crate::limits::{LAST_DAY, LAST_SECOND, MAX_DATES};

const SUNDAY: u8 = 7;

/// What a daypart may have a window of its own for: a weekday or a date.
pub(crate) trait Day {
    ghost number: { Self → ℕ };

    // the fault of a number that stands twice
    ghost twice: { ℕ → Fault };

    fn number(self) -> u32
        ensures { result ≡ number self };

    fn twice(self) -> DaypartFault
        ensures { result ≡ twice (number self) };
}

impl Day for u8 {
    ghost number = { λ day. day };

    ghost twice = { λ day. DoubleWeekday day };

    fn number(self) -> u32 {
        u32::from(self)
    }

    fn twice(self) -> DaypartFault {
        DaypartFault::DoubleWeekday(self)
    }
}

impl Day for u32 {
    ghost number = { λ day. day };

    ghost twice = { λ day. DoubleDate day };

    fn number(self) -> u32 {
        self
    }

    fn twice(self) -> DaypartFault {
        DaypartFault::DoubleDate(self)
    }
}

/// The first fault of a daypart's windows.
pub(crate) fn fault_of(
    window: Window,
    exceptions: &[(u8, Window)],
    dates: &[(u32, Window)],
) -> Option<DaypartFault>
    ensures { result ≡ daypart_fault window exceptions.now dates.now }
{
    if let Some(fault) = times_fault(window, exceptions, dates) {
        return Some(fault);
    }
    match weekdays_fault(exceptions) {
        Some(fault) => Some(fault),
        None => dates_fault(dates),
    }
}

fn times_fault(
    window: Window,
    exceptions: &[(u8, Window)],
    dates: &[(u32, Window)],
) -> Option<DaypartFault>
    ensures { result ≡ times_fault_of window exceptions.now dates.now }
{
    if let Some(fault) = window_fault(window) {
        return Some(fault);
    }
    match bad_time(exceptions) {
        Some(fault) => Some(fault),
        None => bad_time(dates),
    }
}

fn time_fault(time: u32) -> Option<DaypartFault>
    ensures { result ≡ time_fault_of time }
{
    (time > LAST_SECOND).then_some(DaypartFault::BadTime(time))
}

fn window_fault(window: Window) -> Option<DaypartFault>
    ensures { result ≡ window_fault_of window }
{
    match time_fault(window.start) {
        Some(fault) => Some(fault),
        None => time_fault(window.end),
    }
}

fn bad_time<D: Drop>(windows: &[(D, Window)]) -> Option<DaypartFault>
    ensures { result ≡ first_in (λ e. window_fault_of e.1) windows.now }
{
    for entry in windows {
        if let Some(fault) = window_fault(entry.1) {
            return Some(fault);
        }
    }
    None
}

fn weekdays_fault(exceptions: &[(u8, Window)]) -> Option<DaypartFault>
    ensures { result ≡ weekdays_fault_of exceptions.now }
{
    match bad_weekday(exceptions) {
        Some(fault) => Some(fault),
        None => doubled(exceptions),
    }
}

fn weekday_fault(exception: (u8, Window)) -> Option<DaypartFault>
    ensures { result ≡ weekday_fault_of exception }
{
    if exception.0 == 0 || exception.0 > SUNDAY {
        Some(DaypartFault::BadWeekday(exception.0))
    } else {
        None
    }
}

fn bad_weekday(exceptions: &[(u8, Window)]) -> Option<DaypartFault>
    ensures { result ≡ first_in weekday_fault_of exceptions.now }
{
    for exception in exceptions {
        if let Some(fault) = weekday_fault(*exception) {
            return Some(fault);
        }
    }
    None
}

fn dates_fault(dates: &[(u32, Window)]) -> Option<DaypartFault>
    ensures { result ≡ dates_fault_of dates.now }
{
    if dates.len() > MAX_DATES {
        return Some(DaypartFault::ManyDates(dates.len() as u64));
    }
    match bad_date(dates) {
        Some(fault) => Some(fault),
        None => doubled(dates),
    }
}

fn date_fault(date: (u32, Window)) -> Option<DaypartFault>
    ensures { result ≡ date_fault_of date }
{
    (date.0 > LAST_DAY).then_some(DaypartFault::BadDate(date.0))
}

fn bad_date(dates: &[(u32, Window)]) -> Option<DaypartFault>
    ensures { result ≡ first_in date_fault_of dates.now }
{
    for date in dates {
        if let Some(fault) = date_fault(*date) {
            return Some(fault);
        }
    }
    None
}

fn has_day<D: Day + Copy>(seen: &[(D, Window)], day: D) -> bool
    ensures { result ≡ list_any (λ s. D.number s.0 == D.number day) seen.now }
{
    seen.iter().any(|s| s.0.number() == day.number())
}

// Of the weekdays there are seven, so one of the first eight exceptions ends this. Dates are at most 64.
#[tactic(auto, using(crate::proofs::FaultLemmas::double_next, crate::proofs::FaultLemmas::double_found))]
fn doubled<D: Day + Copy>(windows: &[(D, Window)]) -> Option<DaypartFault>
    ensures { result ≡ double_of (λ e. D.number e.0) D.twice [] windows.now }
{
    for (i, entry) in windows.iter().enumerate() {
        if has_day(&windows[..i], entry.0) {
            return Some(entry.0.twice());
        }
    }
    None
}

/// Puts windows in the order of their days, in place.
pub(crate) fn order<D: Day + Copy>(windows: &mut Vec<(D, Window)>)
    ensures same { IsPermutation windows.old.items windows.new.items }
    ensures rising { IsNonDecreasingBy (λ e. D.number e.0) windows.new.items }
{
    windows.sort_unstable_by_key(|entry| entry.0.number());
}
