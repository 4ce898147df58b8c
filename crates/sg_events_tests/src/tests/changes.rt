//! The next change after a second.

use super::{HOUR_OF_TEN, LATE_NIGHT, NIGHT, Parts, change_after, daypart, event, repeat_of};
use sg_base::limits::{FIRST_LOCAL, LOCAL_END};
use sg_base::{DaypartId, Unit, When, Window};
use std::alloc::Global;
use std::process::Abort;
use std::test::Fail;

/// An event from a second to another, with its repeat: a second, and the next change after it.
struct RunChanges {
    what: &'static str,
    from: u32,
    to: u32,
    repeat: Option<Parts>,
    next: &'static [(i64, i64)],
}

/// An event in a daypart from a base date on, with its repeat: a second, and the next change after it.
struct ScheduledChanges {
    what: &'static str,
    usual: Window,
    weekday: Option<(u8, Window)>,
    date: Option<(u32, Window)>,
    base: u32,
    repeat: Option<Parts>,
    next: &'static [(i64, i64)],
}

fn check_runs(rt: &impl Abort, cases: &[RunChanges]) -> Result<(), Fail> {
    for case in cases {
        let when = When::Custom {
            from: case.from,
            to: case.to,
        };
        let event = event(when, repeat_of(case.repeat)?)?;
        for (t, next) in case.next {
            assert!(rt; FIRST_LOCAL <= *t && *t < LOCAL_END);
            assert_eq!(rt;
                change_after(&event, None, *t),
                *next,
                "{}: after {t}",
                case.what
            );
        }
    }
    Ok(())
}

fn check_scheduled(rt: &impl Abort, alloc: Global, cases: &[ScheduledChanges]) -> Result<(), Fail> {
    for case in cases {
        let daypart = daypart(alloc, case.usual, case.weekday, case.date)?;
        let when = When::Named {
            daypart: DaypartId(1),
            date: case.base,
        };
        let event = event(when, repeat_of(case.repeat)?)?;
        for (t, next) in case.next {
            assert!(rt; FIRST_LOCAL <= *t && *t < LOCAL_END);
            assert_eq!(rt;
                change_after(&event, Some(&daypart), *t),
                *next,
                "{}: after {t}",
                case.what
            );
        }
    }
    Ok(())
}

static OF_ITS_OWN: [RunChanges; 4] = [
    RunChanges {
        what: "an hour and a half from each hour on: a start, an end, a start",
        from: 0,
        to: 5_400,
        repeat: Some((Unit::Hour, 1, 0, None)),
        next: &[
            (-93_599, 0),
            (-1, 0),
            (0, 3_600),
            (3_600, 5_400),
            (5_400, 7_200),
            (4_102_703_999, 4_102_704_000),
        ],
    },
    RunChanges {
        what: "once, for two hours",
        from: 1_735_725_600,
        to: 1_735_732_800,
        repeat: None,
        next: &[
            (0, 1_735_725_600),
            (1_735_725_599, 1_735_725_600),
            (1_735_725_600, 1_735_732_800),
            (1_735_732_799, 1_735_732_800),
            (1_735_732_800, 4_102_704_000),
        ],
    },
    RunChanges {
        what: "31 March 2025, 10 to 11, by the month: the next is 31 May",
        from: 1_743_415_200,
        to: 1_743_418_800,
        repeat: Some((Unit::Month, 1, 0, None)),
        next: &[
            (1_743_415_199, 1_743_415_200),
            (1_743_415_200, 1_743_418_800),
            (1_743_418_800, 1_748_685_600),
            (1_746_007_200, 1_748_685_600),
        ],
    },
    RunChanges {
        what: "three days daily, so that occurrences overlap, up to day 20,093",
        from: 1_735_725_600,
        to: 1_735_984_800,
        repeat: Some((Unit::Day, 1, 0, Some(20_093))),
        next: &[
            (1_735_725_600, 1_735_812_000),
            (1_735_984_800, 1_736_071_200),
            (1_736_330_399, 1_736_330_400),
            (1_736_330_400, 4_102_704_000),
        ],
    },
];

#[test]
fn changes_of_events_at_a_time_of_their_own(rt: HostRuntime) -> Result<(), Fail> {
    check_runs(&rt, &OF_ITS_OWN)
}

static IN_A_DAYPART: [ScheduledChanges; 4] = [
    ScheduledChanges {
        what: "22 to 2 daily, on Saturday 20 to 3",
        usual: NIGHT,
        weekday: Some((6, LATE_NIGHT)),
        date: None,
        base: 20_140,
        repeat: Some((Unit::Day, 1, 0, None)),
        next: &[
            (0, 1_740_175_200),
            (1_740_882_600, 1_740_884_400),
            (1_740_884_400, 1_740_952_800),
            (1_740_952_800, 1_740_967_200),
            (4_102_703_999, 4_102_704_000),
        ],
    },
    ScheduledChanges {
        what: "22 to 2 daily, on Saturday 20 to 3, but on Saturday 1 March 2025 10 to 11",
        usual: NIGHT,
        weekday: Some((6, LATE_NIGHT)),
        date: Some((20_148, HOUR_OF_TEN)),
        base: 20_140,
        repeat: Some((Unit::Day, 1, 0, None)),
        next: &[
            (1_740_780_000, 1_740_794_400),
            (1_740_794_400, 1_740_823_200),
            (1_740_823_200, 1_740_826_800),
            (1_740_826_800, 1_740_952_800),
        ],
    },
    ScheduledChanges {
        what: "22 to 2 once, on Friday 21 February 2025",
        usual: NIGHT,
        weekday: None,
        date: None,
        base: 20_140,
        repeat: None,
        next: &[
            (-93_599, 1_740_175_200),
            (1_740_175_199, 1_740_175_200),
            (1_740_175_200, 1_740_189_600),
            (1_740_189_600, 4_102_704_000),
        ],
    },
    ScheduledChanges {
        what: "22 to 2 yearly on 29 February: none of 2100",
        usual: NIGHT,
        weekday: None,
        date: None,
        base: 19_782,
        repeat: Some((Unit::Year, 1, 0, None)),
        next: &[
            (1_709_251_200, 1_709_258_400),
            (1_709_258_400, 1_835_474_400),
            (3_981_405_599, 3_981_405_600),
            (3_981_405_600, 4_102_704_000),
        ],
    },
];

#[test]
fn changes_of_events_in_a_daypart(rt: HostRuntime) -> Result<(), Fail> {
    check_scheduled(&rt, rt.alloc(), &IN_A_DAYPART)
}

#[test]
fn an_event_at_every_second_never_changes(rt: HostRuntime) -> Result<(), Fail> {
    let event = event(When::Always, None)?;
    for t in [FIRST_LOCAL, 0, LOCAL_END - 1] {
        assert!(rt; FIRST_LOCAL <= t && t < LOCAL_END);
        assert_eq!(rt; change_after(&event, None, t), LOCAL_END, "after {t}");
    }
    Ok(())
}
