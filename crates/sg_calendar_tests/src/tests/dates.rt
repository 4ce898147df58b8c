//! The dates of events in a daypart, among dates counted one by one with Python's `datetime`.

ghost use Rattle.std.specs.Prelude.{IfOk};
ghost use Rattle.sg_calendar.specs.Dates.{IsNamed};

use super::{Parts, repeat_of};
use sg_base::limits::{DATE_END, FIRST_DATE};
use sg_base::{DaypartId, Event, EventFault, EventId, LayoutId, Repeat, Target, Unit, When};
use sg_calendar::{next_date, on_date};
use std::process::Abort;
use std::test::Fail;

/// A base date with its repeat: a date, whether it is one of the event's, and the next one after it.
struct Dates {
    what: &'static str,
    base: u32,
    repeat: Option<Parts>,
    around: &'static [(i64, bool, Option<i64>)],
}

fn in_daypart(base: u32, repeat: Option<Repeat>) -> Result<Event, EventFault>
    ensures { IfOk result (λ e. IsNamed e.when) }
{
    let when = When::Named {
        daypart: DaypartId(1),
        date: base,
    };
    let target = Target::Layout(LayoutId(1));
    Event::new(EventId(1), 0, target, when, repeat, 0, 0, 0)
}

fn check_dates(rt: &impl Abort, cases: &[Dates]) -> Result<(), Fail> {
    for case in cases {
        check_date(rt, case)?;
    }
    Ok(())
}

fn check_date(rt: &impl Abort, case: &Dates) -> Result<(), Fail> {
    let event = in_daypart(case.base, repeat_of(case.repeat)?)?;
    for (date, is, next) in case.around {
        assert!(rt; FIRST_DATE <= *date && *date <= DATE_END);
        assert_eq!(rt; on_date(&event, *date), *is, "{}: on {date}", case.what);
        assert_eq!(rt;
            next_date(&event, *date),
            *next,
            "{}: after {date}",
            case.what
        );
    }
    Ok(())
}

static DATES: [Dates; 10] = [
    Dates {
        what: "each second week on Monday and Friday, from Friday 20 December 2024",
        base: 20_077,
        repeat: Some((Unit::Week, 2, 17, None)),
        around: &[
            (-3, false, Some(20_077)),
            (20_073, false, Some(20_077)),
            (20_077, true, Some(20_087)),
            (20_080, false, Some(20_087)),
            (20_087, true, Some(20_091)),
            (20_091, true, Some(20_101)),
            (20_101, true, Some(20_105)),
        ],
    },
    Dates {
        what: "the same up to 29 December 2024",
        base: 20_077,
        repeat: Some((Unit::Week, 2, 17, Some(20_086))),
        around: &[(20_077, true, None), (20_087, false, None)],
    },
    Dates {
        what: "the same up to 30 December 2024",
        base: 20_077,
        repeat: Some((Unit::Week, 2, 17, Some(20_087))),
        around: &[(20_077, true, Some(20_087)), (20_087, true, None)],
    },
    Dates {
        what: "each second month on the 31st, from January 2025",
        base: 20_119,
        repeat: Some((Unit::Month, 2, 0, None)),
        around: &[
            (20_147, false, Some(20_178)),
            (20_178, true, Some(20_239)),
            (20_208, false, Some(20_239)),
            (20_239, true, Some(20_300)),
            (20_300, true, Some(20_484)),
        ],
    },
    Dates {
        what: "the fifth Wednesday of each month, from 29 January 2025",
        base: 20_117,
        repeat: Some((Unit::MonthWeekday, 1, 0, None)),
        around: &[
            (20_116, false, Some(20_117)),
            (20_117, true, Some(20_208)),
            (20_145, false, Some(20_208)),
            (20_208, true, Some(20_299)),
            (20_236, false, Some(20_299)),
        ],
    },
    Dates {
        what: "the second Wednesday of each month, from 8 January 2025",
        base: 20_096,
        repeat: Some((Unit::MonthWeekday, 1, 0, None)),
        around: &[
            (20_096, true, Some(20_131)),
            (20_124, false, Some(20_131)),
            (20_127, false, Some(20_131)),
            (20_131, true, Some(20_159)),
        ],
    },
    Dates {
        what: "each third year on 29 February, from 2024",
        base: 19_782,
        repeat: Some((Unit::Year, 3, 0, None)),
        around: &[
            (20_148, false, Some(24_165)),
            (20_878, false, Some(24_165)),
            (21_243, false, Some(24_165)),
            (24_165, true, Some(28_548)),
        ],
    },
    Dates {
        what: "each third day, from 20 December 2024",
        base: 20_077,
        repeat: Some((Unit::Day, 3, 0, None)),
        around: &[(20_083, true, Some(20_086)), (20_084, false, Some(20_086))],
    },
    Dates {
        what: "once, on 20 December 2024",
        base: 20_077,
        repeat: None,
        around: &[
            (20_076, false, Some(20_077)),
            (20_077, true, None),
            (20_078, false, None),
        ],
    },
    Dates {
        what: "daily from day 0, to the last day asked about",
        base: 0,
        repeat: Some((Unit::Day, 1, 0, None)),
        around: &[
            (-3, false, Some(0)),
            (-1, false, Some(0)),
            (0, true, Some(1)),
            (47_483, true, Some(47_484)),
            (47_484, true, None),
            (47_485, true, None),
        ],
    },
];

#[test]
fn dates_repeat(rt: HostRuntime) -> Result<(), Fail> {
    check_dates(&rt, &DATES)
}
