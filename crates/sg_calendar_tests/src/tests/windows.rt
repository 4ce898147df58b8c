//! When windows open and close, worked out by hand from day numbers of Python's `datetime`.

use sg_base::limits::DATE_END;
use sg_base::{Daypart, DaypartId, Window};
use sg_calendar::{FIRST_WINDOW, window};
use std::alloc::Global;
use std::process::Abort;
use std::test::Fail;

/// A daypart with at most one exception for a weekday and at most one for a date: a date, when its window opens
/// and when it closes.
struct Windows {
    what: &'static str,
    usual: Window,
    weekday: Option<(u8, Window)>,
    date: Option<(u32, Window)>,
    on: &'static [(i64, i64, i64)],
}

// From 22 to 2 of the next day.
const NIGHT: Window = Window {
    start: 79_200,
    end: 7_200,
};

// From 20 to 3 of the next day.
const LATE_NIGHT: Window = Window {
    start: 72_000,
    end: 10_800,
};

// From 8 to 10.
const MORNING: Window = Window {
    start: 28_800,
    end: 36_000,
};

// From 10 to 11.
const HOUR_OF_TEN: Window = Window {
    start: 36_000,
    end: 39_600,
};

// From 10 to 10 of the next day.
const FROM_TEN_TO_TEN: Window = Window {
    start: 36_000,
    end: 36_000,
};

fn daypart(alloc: Global, case: &Windows) -> Result<Daypart, Fail> {
    let mut exceptions = Vec::new(alloc);
    if let Some(weekday) = case.weekday {
        exceptions.push(weekday)?;
    }
    let mut dates = Vec::new(alloc);
    if let Some(date) = case.date {
        dates.push(date)?;
    }
    Ok(Daypart::new(DaypartId(1), case.usual, exceptions, dates)?)
}

fn check_windows(rt: &impl Abort, alloc: Global, cases: &[Windows]) -> Result<(), Fail> {
    for case in cases {
        let daypart = daypart(alloc, case)?;
        for (date, opens, closes) in case.on {
            assert!(rt; FIRST_WINDOW <= *date && *date <= DATE_END);
            let (from, to) = window(&daypart, *date);
            assert_eq!(rt; from.second(), *opens, "{}: opens on {date}", case.what);
            assert_eq!(rt; to.second(), *closes, "{}: closes on {date}", case.what);
        }
    }
    Ok(())
}

// Day 20,147 is Friday 28 February 2025.
static WINDOWS: [Windows; 5] = [
    Windows {
        what: "from 22 to 2, on Saturday from 20 to 3",
        usual: NIGHT,
        weekday: Some((6, LATE_NIGHT)),
        date: None,
        on: &[
            (20_147, 1_740_780_000, 1_740_794_400),
            (20_148, 1_740_859_200, 1_740_884_400),
            (20_149, 1_740_952_800, 1_740_967_200),
            (47_485, 4_102_783_200, 4_102_797_600),
        ],
    },
    Windows {
        what: "from 22 to 2, on Sunday from 8 to 10",
        usual: NIGHT,
        weekday: Some((7, MORNING)),
        date: None,
        on: &[
            (20_148, 1_740_866_400, 1_740_880_800),
            (20_149, 1_740_902_400, 1_740_909_600),
        ],
    },
    Windows {
        what: "from 10 to 10 of the next day",
        usual: FROM_TEN_TO_TEN,
        weekday: None,
        date: None,
        on: &[(20_147, 1_740_736_800, 1_740_823_200)],
    },
    Windows {
        what: "the whole day but its last second",
        usual: Window {
            start: 0,
            end: 86_399,
        },
        weekday: None,
        date: None,
        on: &[(20_147, 1_740_700_800, 1_740_787_199)],
    },
    Windows {
        what: "the last second of the day",
        usual: Window {
            start: 86_399,
            end: 0,
        },
        weekday: None,
        date: None,
        on: &[(20_147, 1_740_787_199, 1_740_787_200)],
    },
];

#[test]
fn windows_open_and_close(rt: HostRuntime) -> Result<(), Fail> {
    check_windows(&rt, rt.alloc(), &WINDOWS)
}

static DATES_AND_WEEKDAYS: [Windows; 2] = [
    Windows {
        what: "from 22 to 2, on Saturday from 20 to 3, on Saturday 1 March 2025 from 10 to 11",
        usual: NIGHT,
        weekday: Some((6, LATE_NIGHT)),
        date: Some((20_148, HOUR_OF_TEN)),
        on: &[
            (20_147, 1_740_780_000, 1_740_794_400),
            (20_148, 1_740_823_200, 1_740_826_800),
            (20_149, 1_740_952_800, 1_740_967_200),
            (20_155, 1_741_464_000, 1_741_489_200),
        ],
    },
    Windows {
        what: "from 8 to 10, on day 0 over midnight, on Wednesdays from 20 to 3",
        usual: MORNING,
        weekday: Some((3, LATE_NIGHT)),
        date: Some((0, NIGHT)),
        on: &[
            (-2, -144_000, -136_800),
            (-1, -14_400, 10_800),
            (0, 79_200, 93_600),
            (1, 115_200, 122_400),
        ],
    },
];

#[test]
fn a_date_goes_before_its_weekday(rt: HostRuntime) -> Result<(), Fail> {
    check_windows(&rt, rt.alloc(), &DATES_AND_WEEKDAYS)
}
