//! Dayparts that are accepted and refused, the first of two faults, and the order of their lists.

use sg_base::{Daypart, DaypartFault, DaypartId, Window};
use std::test::Fail;

const DAY: Window = Window {
    start: 0,
    end: 86_399,
};

/// Its start and its end are no seconds of a day.
const LATE: Window = Window {
    start: 86_400,
    end: 90_000,
};

/// Its end is no second of a day.
const LONG: Window = Window {
    start: 5,
    end: 90_000,
};

#[derive(Clone, Copy)]
struct Refused {
    what: &'static str,
    window: Window,
    exceptions: [(u8, Window); 3],
    dates: [(u32, Window); 2],
    fault: Option<DaypartFault>,
}

const FINE: [(u8, Window); 3] = [(7, DAY), (1, DAY), (3, DAY)];

const DATES: [(u32, Window); 2] = [(47_481, DAY), (0, DAY)];

fn cases() -> [Refused; 12] {
    let case = |what, window, exceptions, dates, fault| Refused {
        what,
        window,
        exceptions,
        dates,
        fault,
    };
    let two = [(5, DAY), (5, DAY)];
    [
        case("weekdays and dates in any order", DAY, FINE, DATES, None),
        case(
            "the window's start comes first",
            LATE,
            [(8, LONG), (1, DAY), (1, DAY)],
            two,
            Some(DaypartFault::BadTime(86_400)),
        ),
        case(
            "a time comes before a weekday",
            DAY,
            [(8, DAY), (1, LONG), (1, LATE)],
            two,
            Some(DaypartFault::BadTime(90_000)),
        ),
        case(
            "a date's time comes before a weekday",
            DAY,
            [(8, DAY), (1, DAY), (1, DAY)],
            [(47_482, LATE), (5, DAY)],
            Some(DaypartFault::BadTime(86_400)),
        ),
        case(
            "an exception's time comes before a date's",
            DAY,
            [(1, LONG), (2, DAY), (3, DAY)],
            [(5, LATE), (6, DAY)],
            Some(DaypartFault::BadTime(90_000)),
        ),
        case(
            "a weekday comes before a double",
            DAY,
            [(1, DAY), (1, DAY), (8, DAY)],
            two,
            Some(DaypartFault::BadWeekday(8)),
        ),
        case(
            "0 is no weekday",
            DAY,
            [(0, DAY), (1, DAY), (1, DAY)],
            two,
            Some(DaypartFault::BadWeekday(0)),
        ),
        case(
            "a double weekday comes before a date",
            DAY,
            [(7, DAY), (2, DAY), (7, DAY)],
            [(47_482, DAY), (47_482, DAY)],
            Some(DaypartFault::DoubleWeekday(7)),
        ),
        case(
            "a date comes before a double date",
            DAY,
            FINE,
            [(47_482, DAY), (47_482, DAY)],
            Some(DaypartFault::BadDate(47_482)),
        ),
        case(
            "the first bad date is named",
            DAY,
            FINE,
            [(47_483, DAY), (47_482, DAY)],
            Some(DaypartFault::BadDate(47_483)),
        ),
        case(
            "a double date",
            DAY,
            FINE,
            two,
            Some(DaypartFault::DoubleDate(5)),
        ),
        case(
            "the first day and the last",
            DAY,
            FINE,
            [(0, DAY), (47_481, DAY)],
            None,
        ),
    ]
}

#[test]
fn the_first_fault_of_a_daypart_is_named(rt: HostRuntime) -> Result<(), Fail> {
    for case in cases() {
        let exceptions = Vec::from_slice(rt.alloc(), &case.exceptions)?;
        let dates = Vec::from_slice(rt.alloc(), &case.dates)?;
        let daypart = Daypart::new(DaypartId(4), case.window, exceptions, dates);
        let what = case.what;
        assert_eq!(rt; daypart.err(), case.fault, "{what}");
    }
    Ok(())
}

#[test]
fn a_daypart_has_at_most_64_dates(rt: HostRuntime) -> Result<(), Fail> {
    for (count, fault) in [
        (64, Some(DaypartFault::DoubleDate(7))),
        (65, Some(DaypartFault::ManyDates(65))),
    ] {
        let dates = vec![in rt.alloc(); (7, DAY); count]?;
        let daypart = Daypart::new(DaypartId(4), DAY, Vec::new(rt.alloc()), dates);
        assert_eq!(rt; daypart.err(), fault, "{count}");
    }
    Ok(())
}

#[test]
fn both_lists_are_put_in_order(rt: HostRuntime) -> Result<(), Fail> {
    let night = Window {
        start: 72_000,
        end: 7_200,
    };
    let exceptions = Vec::from_slice(rt.alloc(), &[(7, night), (5, DAY), (2, night)])?;
    let dates = Vec::from_slice(rt.alloc(), &[(20_148, DAY), (3, night), (300, DAY)])?;
    let daypart = Daypart::new(DaypartId(4), night, exceptions, dates)?;
    let weekdays = [(2, night), (5, DAY), (7, night)];
    let days = [(3, night), (300, DAY), (20_148, DAY)];
    for daypart in [daypart.clone()?, daypart] {
        assert_eq!(rt; (daypart.id(), daypart.window()), (DaypartId(4), night));
        assert_eq!(rt; daypart.exceptions(), weekdays.as_slice());
        assert_eq!(rt; daypart.dates(), days.as_slice());
    }
    Ok(())
}

#[test]
fn faults_of_dayparts_have_texts(rt: HostRuntime) -> Result<(), Fail> {
    let time = format!(in rt.alloc(); "{}", DaypartFault::BadTime(86_400))?;
    assert_eq!(rt; time.as_str(), "86400 is no second of a day");
    let dates = format!(in rt.alloc(); "{}", DaypartFault::ManyDates(65))?;
    assert_eq!(rt; dates.as_str(), "65 dates of a daypart are too many");
    Ok(())
}
