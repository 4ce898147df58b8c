//! Events in a daypart. Day 20,140 is Friday 21 February 2025, 20,119 is 31 January 2025, and 19,782 is 29 February
//! 2024.

use super::{
    FROM_TEN_TO_TEN, HOUR_OF_TEN, LATE_NIGHT, MORNING, NIGHT, Parts, daypart, event, is_active,
    repeat_of,
};
use sg_base::limits::{FIRST_LOCAL, LOCAL_END};
use sg_base::{DaypartId, Unit, When, Window};
use std::alloc::Global;
use std::process::Abort;
use std::test::Fail;

/// An event in a daypart from a base date on, with its repeat: seconds at which it is active, and at which it isn't.
struct Scheduled {
    what: &'static str,
    usual: Window,
    weekday: Option<(u8, Window)>,
    date: Option<(u32, Window)>,
    base: u32,
    repeat: Option<Parts>,
    active: &'static [i64],
    idle: &'static [i64],
}

fn check_scheduled(rt: &impl Abort, alloc: Global, cases: &[Scheduled]) -> Result<(), Fail> {
    for case in cases {
        let daypart = daypart(alloc, case.usual, case.weekday, case.date)?;
        let when = When::Named {
            daypart: DaypartId(1),
            date: case.base,
        };
        let event = event(when, repeat_of(case.repeat)?)?;
        for t in case.active {
            assert!(rt; FIRST_LOCAL <= *t && *t < LOCAL_END);
            assert!(rt;
                is_active(&event, Some(&daypart), *t),
                "{}: active at {t}",
                case.what
            );
        }
        for t in case.idle {
            assert!(rt; FIRST_LOCAL <= *t && *t < LOCAL_END);
            assert!(rt;
                !is_active(&event, Some(&daypart), *t),
                "{}: idle at {t}",
                case.what
            );
        }
    }
    Ok(())
}

static OVER_MIDNIGHT: [Scheduled; 4] = [
    Scheduled {
        what: "22 to 2 daily, on Saturday 20 to 3: Saturday's goes on into Sunday, and Sunday's ends at 2",
        usual: NIGHT,
        weekday: Some((6, LATE_NIGHT)),
        date: None,
        base: 20_140,
        repeat: Some((Unit::Day, 1, 0, None)),
        active: &[1_740_882_600, 1_740_884_399],
        idle: &[1_740_884_400, 1_740_969_000],
    },
    Scheduled {
        what: "22 to 2 daily, on Sunday 8 to 10: Saturday's night goes on into Sunday, which has none",
        usual: NIGHT,
        weekday: Some((7, MORNING)),
        date: None,
        base: 20_140,
        repeat: Some((Unit::Day, 1, 0, None)),
        active: &[1_740_877_200, 1_740_902_400, 1_741_039_200],
        idle: &[1_740_880_800, 1_740_909_600, 1_740_963_600],
    },
    Scheduled {
        what: "22 to 2 daily, on Saturday 8 to 10 in place of its night",
        usual: NIGHT,
        weekday: Some((6, MORNING)),
        date: None,
        base: 20_140,
        repeat: Some((Unit::Day, 1, 0, None)),
        active: &[1_740_794_399],
        idle: &[1_740_866_400, 1_740_873_601],
    },
    Scheduled {
        what: "10 to 10 of the next day, each second day",
        usual: FROM_TEN_TO_TEN,
        weekday: None,
        date: None,
        base: 20_140,
        repeat: Some((Unit::Day, 2, 0, None)),
        active: &[1_740_132_000, 1_740_218_399],
        idle: &[1_740_131_999, 1_740_218_400],
    },
];

#[test]
fn events_in_a_daypart_over_midnight(rt: HostRuntime) -> Result<(), Fail> {
    check_scheduled(&rt, rt.alloc(), &OVER_MIDNIGHT)
}

static ON_A_DATE_OF_ITS_OWN: [Scheduled; 1] = [Scheduled {
    what: "22 to 2 daily, on Saturday 20 to 3, but on Saturday 1 March 2025 10 to 11: Friday's night goes on into it, and its own night is left out",
    usual: NIGHT,
    weekday: Some((6, LATE_NIGHT)),
    date: Some((20_148, HOUR_OF_TEN)),
    base: 20_140,
    repeat: Some((Unit::Day, 1, 0, None)),
    active: &[1_740_825_000, 1_740_789_000],
    idle: &[1_740_862_800, 1_740_882_600],
}];

#[test]
fn events_in_a_daypart_on_a_date_of_its_own(rt: HostRuntime) -> Result<(), Fail> {
    check_scheduled(&rt, rt.alloc(), &ON_A_DATE_OF_ITS_OWN)
}

static REPEATED: [Scheduled; 7] = [
    Scheduled {
        what: "22 to 2 daily up to day 20,148, whose window is whole",
        usual: NIGHT,
        weekday: None,
        date: None,
        base: 20_140,
        repeat: Some((Unit::Day, 1, 0, Some(20_148))),
        active: &[1_740_880_799],
        idle: &[1_740_952_800],
    },
    Scheduled {
        what: "22 to 2 once, on Friday 21 February 2025",
        usual: NIGHT,
        weekday: None,
        date: None,
        base: 20_140,
        repeat: None,
        active: &[1_740_175_200],
        idle: &[1_740_261_600],
    },
    Scheduled {
        what: "22 to 2 each second week on Monday and Friday",
        usual: NIGHT,
        weekday: None,
        date: None,
        base: 20_140,
        repeat: Some((Unit::Week, 2, 17, None)),
        active: &[1_741_384_800, 1_741_039_200, 1_741_395_600],
        idle: &[1_740_780_000],
    },
    Scheduled {
        what: "22 to 2 monthly on the 31st: not 28 February",
        usual: NIGHT,
        weekday: None,
        date: None,
        base: 20_119,
        repeat: Some((Unit::Month, 1, 0, None)),
        active: &[1_743_459_200],
        idle: &[1_740_780_800],
    },
    Scheduled {
        what: "22 to 2 on the fifth Friday, from 31 January 2025: not 28 February, but 30 May",
        usual: NIGHT,
        weekday: None,
        date: None,
        base: 20_119,
        repeat: Some((Unit::MonthWeekday, 1, 0, None)),
        active: &[1_748_643_200],
        idle: &[1_740_780_800, 1_746_224_000],
    },
    Scheduled {
        what: "22 to 2 yearly on 29 February",
        usual: NIGHT,
        weekday: None,
        date: None,
        base: 19_782,
        repeat: Some((Unit::Year, 1, 0, None)),
        active: &[1_835_488_799],
        idle: &[1_740_794_399],
    },
    Scheduled {
        what: "22 to 2 daily from day 0: nothing before 1970",
        usual: NIGHT,
        weekday: None,
        date: None,
        base: 0,
        repeat: Some((Unit::Day, 1, 0, None)),
        active: &[79_200],
        idle: &[-7_200, -93_599, 0],
    },
];

#[test]
fn events_in_a_daypart_repeated(rt: HostRuntime) -> Result<(), Fail> {
    check_scheduled(&rt, rt.alloc(), &REPEATED)
}
