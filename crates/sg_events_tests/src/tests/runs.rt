//! Events at a time of their own.

use super::{Parts, event, is_active, repeat_of};
use sg_base::limits::{FIRST_LOCAL, LOCAL_END};
use sg_base::{Moment, Rows, Unit, When, ZoneRule};
use sg_calendar::Zone;
use std::process::Abort;
use std::test::Fail;

/// An event from a second to another, with its repeat: seconds at which it is active, and at which it isn't.
struct Run {
    what: &'static str,
    from: u32,
    to: u32,
    repeat: Option<Parts>,
    active: &'static [i64],
    idle: &'static [i64],
}

fn check_runs(rt: &impl Abort, cases: &[Run]) -> Result<(), Fail> {
    for case in cases {
        let when = When::Custom {
            from: case.from,
            to: case.to,
        };
        let event = event(when, repeat_of(case.repeat)?)?;
        for t in case.active {
            assert!(rt; FIRST_LOCAL <= *t && *t < LOCAL_END);
            assert!(rt; is_active(&event, None, *t), "{}: active at {t}", case.what);
        }
        for t in case.idle {
            assert!(rt; FIRST_LOCAL <= *t && *t < LOCAL_END);
            assert!(rt; !is_active(&event, None, *t), "{}: idle at {t}", case.what);
        }
    }
    Ok(())
}

static FROM_A_MONTH_OR_A_YEAR: [Run; 4] = [
    Run {
        what: "31 March 2025, 10 to 11, by the month: not 30 April nor 1 May",
        from: 1_743_415_200,
        to: 1_743_418_800,
        repeat: Some((Unit::Month, 1, 0, None)),
        active: &[1_748_685_600],
        idle: &[1_746_007_200, 1_746_093_600],
    },
    Run {
        what: "29 February 2024, midnight to 1, by the year: 2028, and no day of 2025",
        from: 1_709_164_800,
        to: 1_709_168_400,
        repeat: Some((Unit::Year, 1, 0, None)),
        active: &[1_835_395_200],
        idle: &[1_740_700_800, 1_740_787_200],
    },
    Run {
        what: "Wednesday 8 January 2025, 9 to 10, the second Wednesday: not the first of February, nor the 8th",
        from: 1_736_326_800,
        to: 1_736_330_400,
        repeat: Some((Unit::MonthWeekday, 1, 0, None)),
        active: &[1_736_326_800, 1_739_350_800],
        idle: &[1_738_746_000, 1_739_005_200],
    },
    Run {
        what: "Wednesday 29 January 2025, 9 to 10, the fifth: not 26 February, but 30 April",
        from: 1_738_141_200,
        to: 1_738_144_800,
        repeat: Some((Unit::MonthWeekday, 1, 0, None)),
        active: &[1_746_003_600],
        idle: &[1_740_560_400],
    },
];

#[test]
fn events_from_a_month_or_a_year(rt: HostRuntime) -> Result<(), Fail> {
    check_runs(&rt, &FROM_A_MONTH_OR_A_YEAR)
}

static BY_THE_WEEK: [Run; 3] = [
    Run {
        what: "Wednesday 1 January 2025, 9 to 10, each second week on Monday and Friday: not the base, nor the week after",
        from: 1_735_722_000,
        to: 1_735_725_600,
        repeat: Some((Unit::Week, 2, 17, None)),
        active: &[1_735_894_800, 1_736_758_800],
        idle: &[1_735_549_200, 1_735_722_000, 1_736_154_000],
    },
    Run {
        what: "the same up to Monday 13 January",
        from: 1_735_722_000,
        to: 1_735_725_600,
        repeat: Some((Unit::Week, 2, 17, Some(20_101))),
        active: &[1_735_894_800, 1_736_758_800],
        idle: &[1_735_549_200, 1_735_722_000, 1_736_154_000],
    },
    Run {
        what: "the same up to the day before",
        from: 1_735_722_000,
        to: 1_735_725_600,
        repeat: Some((Unit::Week, 2, 17, Some(20_100))),
        active: &[1_735_894_800],
        idle: &[1_736_758_800, 1_735_549_200, 1_735_722_000, 1_736_154_000],
    },
];

#[test]
fn events_by_the_week(rt: HostRuntime) -> Result<(), Fail> {
    check_runs(&rt, &BY_THE_WEEK)
}

static FROM_ITS_FIRST_SECOND_TO_ITS_LAST: [Run; 4] = [
    Run {
        what: "once, for two hours: not a second before, nor one after",
        from: 1_735_725_600,
        to: 1_735_732_800,
        repeat: None,
        active: &[1_735_725_600, 1_735_732_799],
        idle: &[1_735_725_599, 1_735_732_800],
    },
    Run {
        what: "three days daily, so that occurrences overlap; the last goes on past the last day",
        from: 1_735_725_600,
        to: 1_735_984_800,
        repeat: Some((Unit::Day, 1, 0, Some(20_093))),
        active: &[1_735_725_600, 1_736_330_399],
        idle: &[1_736_330_400],
    },
    Run {
        what: "ten minutes in each seventh hour",
        from: 1_735_725_600,
        to: 1_735_726_200,
        repeat: Some((Unit::Hour, 7, 0, None)),
        active: &[1_735_750_800, 1_735_751_399, 1_760_925_600],
        idle: &[1_735_750_799, 1_735_751_400],
    },
    Run {
        what: "ten seconds daily from second 0: nothing before 1970",
        from: 0,
        to: 10,
        repeat: Some((Unit::Day, 1, 0, None)),
        active: &[0],
        idle: &[-1, -93_599, 4_102_703_999],
    },
];

#[test]
fn events_from_its_first_second_to_its_last(rt: HostRuntime) -> Result<(), Fail> {
    check_runs(&rt, &FROM_ITS_FIRST_SECOND_TO_ITS_LAST)
}

// A daily event from 2:30 to 2:40, in a zone whose clocks go from 2 to 3 on 30 March and from 3 to 2 on 26 October
// 2025: it is left out on the one day, and comes twice on the other.
#[test]
fn clocks_change(rt: HostRuntime) -> Result<(), Fail> {
    let text = b"CET-1CEST,M3.5.0,M10.5.0/3".to_vec(rt.alloc())?;
    let zone = Zone::read(&ZoneRule::Posix(Rows::from_vec(text)))?;
    let when = When::Custom {
        from: 1_735_698_600,
        to: 1_735_699_200,
    };
    let daily = event(when, repeat_of(Some((Unit::Day, 1, 0, None)))?)?;
    for (moment, want) in [
        (1_743_296_399, false),
        (1_743_296_400, false),
        (1_761_438_600, true),
        (1_761_442_200, true),
        (1_761_439_200, false),
        (1_761_440_400, false),
    ] {
        let local = zone.local(Moment::new(moment).ok_or("after 2099")?)?;
        assert_eq!(rt;
            is_active(&daily, None, local.second()),
            want,
            "at {moment}"
        );
    }
    Ok(())
}

#[test]
fn always(rt: HostRuntime) -> Result<(), Fail> {
    let event = event(When::Always, None)?;
    for t in [FIRST_LOCAL, -1, 0, LOCAL_END - 1] {
        assert!(rt; FIRST_LOCAL <= t && t < LOCAL_END);
        assert!(rt; is_active(&event, None, t), "at {t}");
    }
    Ok(())
}
