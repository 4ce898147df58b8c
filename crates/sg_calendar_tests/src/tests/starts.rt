//! The latest and the next start round a second, among starts counted one by one with Python's `datetime`.

use super::{Parts, repeat_of};
use sg_base::limits::{FIRST_LOCAL, LOCAL_END, TIME_END};
use sg_base::{LocalSec, Unit, When};
use sg_calendar::{latest_start, next_start};
use std::process::Abort;
use std::test::Fail;

/// An event from a second on, with its repeat: a second, the latest start up to it, and the next one after it.
struct Starts {
    what: &'static str,
    from: u32,
    repeat: Option<Parts>,
    around: &'static [(i64, Option<i64>, Option<i64>)],
}

fn check_starts(rt: &impl Abort, cases: &[Starts]) -> Result<(), Fail> {
    for case in cases {
        check_start(rt, case)?;
    }
    Ok(())
}

fn check_start(rt: &impl Abort, case: &Starts) -> Result<(), Fail> {
    let when = When::Custom {
        from: case.from,
        to: TIME_END,
    };
    let repeat = repeat_of(case.repeat)?;
    for (t, latest, next) in case.around {
        assert!(rt; FIRST_LOCAL <= *t && *t < LOCAL_END);
        let second = LocalSec::new(*t);
        let found = latest_start(&when, &repeat, second);
        assert_eq!(rt;
            found.map(|s| s.second()),
            *latest,
            "{}: latest at {t}",
            case.what
        );
        let found = next_start(&when, &repeat, second);
        assert_eq!(rt;
            found.map(|s| s.second()),
            *next,
            "{}: next after {t}",
            case.what
        );
    }
    Ok(())
}

static BY_THE_WEEK: [Starts; 4] = [
    Starts {
        what: "each second week on Monday and Friday, from Friday 20 December 2024, 10:00",
        from: 1_734_688_800,
        repeat: Some((Unit::Week, 2, 17, None)),
        around: &[
            (1_734_688_799, None, Some(1_734_688_800)),
            (1_735_552_800, Some(1_735_552_800), Some(1_735_898_400)),
            (1_735_898_400, Some(1_735_898_400), Some(1_736_762_400)),
            (1_736_762_399, Some(1_735_898_400), Some(1_736_762_400)),
            (1_736_762_400, Some(1_736_762_400), Some(1_737_108_000)),
        ],
    },
    Starts {
        what: "each third week on Sunday, from a Friday",
        from: 1_734_688_800,
        repeat: Some((Unit::Week, 3, 64, None)),
        around: &[
            (1_734_688_800, None, Some(1_734_861_600)),
            (1_736_676_000, Some(1_736_676_000), Some(1_738_490_400)),
            (1_736_679_600, Some(1_736_676_000), Some(1_738_490_400)),
        ],
    },
    Starts {
        what: "each 53rd week on Friday",
        from: 1_734_688_800,
        repeat: Some((Unit::Week, 53, 16, None)),
        around: &[
            (1_767_225_600, Some(1_766_743_200), Some(1_798_797_600)),
            (4_102_444_799, Some(4_074_660_000), None),
        ],
    },
    Starts {
        what: "weekly on the weekday before the base's",
        from: 1_736_235_000,
        repeat: Some((Unit::Week, 1, 1, None)),
        around: &[
            (1_736_235_000, None, Some(1_736_753_400)),
            (1_736_753_399, None, Some(1_736_753_400)),
        ],
    },
];

#[test]
fn starts_by_the_week(rt: HostRuntime) -> Result<(), Fail> {
    check_starts(&rt, &BY_THE_WEEK)
}

static BY_THE_MONTH: [Starts; 6] = [
    Starts {
        what: "monthly on the 31st, from 31 January 2025, 8:00: not in February, April or June",
        from: 1_738_310_400,
        repeat: Some((Unit::Month, 1, 0, None)),
        around: &[
            (1_738_310_400, Some(1_738_310_400), Some(1_743_408_000)),
            (1_740_729_600, Some(1_738_310_400), Some(1_743_408_000)),
            (1_743_407_999, Some(1_738_310_400), Some(1_743_408_000)),
            (1_746_000_000, Some(1_743_408_000), Some(1_748_678_400)),
            (1_748_678_400, Some(1_748_678_400), Some(1_753_948_800)),
            (1_813_017_600, Some(1_811_750_400), Some(1_817_020_800)),
        ],
    },
    Starts {
        what: "each second month on the 31st: January, March, May, July",
        from: 1_738_310_400,
        repeat: Some((Unit::Month, 2, 0, None)),
        around: &[
            (1_738_310_400, Some(1_738_310_400), Some(1_743_408_000)),
            (1_753_948_800, Some(1_753_948_800), Some(1_769_846_400)),
            (1_756_627_200, Some(1_753_948_800), Some(1_769_846_400)),
            (1_767_168_000, Some(1_753_948_800), Some(1_769_846_400)),
        ],
    },
    Starts {
        what: "each fifth month on the 31st: past June, November, April and September to February",
        from: 1_738_310_400,
        repeat: Some((Unit::Month, 5, 0, None)),
        around: &[
            (1_738_310_400, Some(1_738_310_400), Some(1_817_020_800)),
            (1_813_017_600, Some(1_738_310_400), Some(1_817_020_800)),
        ],
    },
    Starts {
        what: "each twelfth month on the 31st of January",
        from: 1_738_310_400,
        repeat: Some((Unit::Month, 12, 0, None)),
        around: &[
            (1_769_846_399, Some(1_738_310_400), Some(1_769_846_400)),
            (1_769_846_400, Some(1_769_846_400), Some(1_801_382_400)),
            (4_070_822_400, Some(4_041_993_600), Some(4_073_529_600)),
            (4_073_587_200, Some(4_073_529_600), None),
        ],
    },
    Starts {
        what: "each tenth month on the 31st",
        from: 1_738_310_400,
        repeat: Some((Unit::Month, 10, 0, None)),
        around: &[
            (1_738_368_000, Some(1_738_310_400), Some(1_817_020_800)),
            (1_893_456_000, Some(1_869_638_400), Some(1_896_076_800)),
        ],
    },
    Starts {
        what: "monthly on 29 February and its like, from 2024",
        from: 1_709_208_000,
        repeat: Some((Unit::Month, 12, 0, None)),
        around: &[
            (1_709_208_000, Some(1_709_208_000), Some(1_835_438_400)),
            (1_830_211_200, Some(1_709_208_000), Some(1_835_438_400)),
            (1_835_438_400, Some(1_835_438_400), Some(1_961_668_800)),
            (3_981_355_200, Some(3_981_355_200), None),
        ],
    },
];

#[test]
fn starts_by_the_month(rt: HostRuntime) -> Result<(), Fail> {
    check_starts(&rt, &BY_THE_MONTH)
}

static BY_THE_WEEKDAY_OF_THE_MONTH: [Starts; 5] = [
    Starts {
        what: "each second Wednesday, from 8 January 2025, 9:00: not the first, nor the 8th of February",
        from: 1_736_326_800,
        repeat: Some((Unit::MonthWeekday, 1, 0, None)),
        around: &[
            (1_736_326_799, None, Some(1_736_326_800)),
            (1_738_746_000, Some(1_736_326_800), Some(1_739_350_800)),
            (1_739_005_200, Some(1_736_326_800), Some(1_739_350_800)),
            (1_739_350_800, Some(1_739_350_800), Some(1_741_770_000)),
            (1_741_770_000, Some(1_741_770_000), Some(1_744_189_200)),
        ],
    },
    Starts {
        what: "each fifth Wednesday, from 29 January 2025: none in February or March",
        from: 1_738_141_200,
        repeat: Some((Unit::MonthWeekday, 1, 0, None)),
        around: &[
            (1_738_141_200, Some(1_738_141_200), Some(1_746_003_600)),
            (1_740_560_400, Some(1_738_141_200), Some(1_746_003_600)),
            (1_746_003_599, Some(1_738_141_200), Some(1_746_003_600)),
            (1_746_003_600, Some(1_746_003_600), Some(1_753_866_000)),
        ],
    },
    Starts {
        what: "the fifth Thursday of each twelfth month from February 2024: only where 29 February is one",
        from: 1_709_208_000,
        repeat: Some((Unit::MonthWeekday, 12, 0, None)),
        around: &[
            (1_709_208_000, Some(1_709_208_000), Some(2_592_820_800)),
            (2_592_820_799, Some(1_709_208_000), Some(2_592_820_800)),
            (2_592_820_800, Some(2_592_820_800), Some(3_476_433_600)),
            (3_476_433_600, Some(3_476_433_600), None),
        ],
    },
    Starts {
        what: "the first Monday of each third month",
        from: 1_736_148_600,
        repeat: Some((Unit::MonthWeekday, 3, 0, None)),
        around: &[
            (1_736_148_600, Some(1_736_148_600), Some(1_744_011_000)),
            (1_744_011_000, Some(1_744_011_000), Some(1_751_873_400)),
            (1_751_787_000, Some(1_744_011_000), Some(1_751_873_400)),
            (1_751_873_400, Some(1_751_873_400), Some(1_759_735_800)),
        ],
    },
    Starts {
        what: "the last Sunday of December 2024 is its fifth, up to day 20,270",
        from: 1_735_434_000,
        repeat: Some((Unit::MonthWeekday, 1, 0, Some(20_270))),
        around: &[
            (1_735_434_000, Some(1_735_434_000), Some(1_743_296_400)),
            (1_743_296_400, Some(1_743_296_400), Some(1_751_158_800)),
            (1_751_158_800, Some(1_751_158_800), None),
            (1_767_225_600, Some(1_751_158_800), None),
        ],
    },
];

#[test]
fn starts_by_the_weekday_of_the_month(rt: HostRuntime) -> Result<(), Fail> {
    check_starts(&rt, &BY_THE_WEEKDAY_OF_THE_MONTH)
}

static BY_THE_YEAR: [Starts; 4] = [
    Starts {
        what: "yearly on 29 February, from 2024, 12:00",
        from: 1_709_208_000,
        repeat: Some((Unit::Year, 1, 0, None)),
        around: &[
            (1_740_787_200, Some(1_709_208_000), Some(1_835_438_400)),
            (1_835_438_399, Some(1_709_208_000), Some(1_835_438_400)),
            (1_835_438_400, Some(1_835_438_400), Some(1_961_668_800)),
            (3_981_355_200, Some(3_981_355_200), None),
        ],
    },
    Starts {
        what: "each third year on 29 February: the next is 2036",
        from: 1_709_208_000,
        repeat: Some((Unit::Year, 3, 0, None)),
        around: &[
            (1_835_438_400, Some(1_709_208_000), Some(2_087_899_200)),
            (2_087_899_199, Some(1_709_208_000), Some(2_087_899_200)),
            (2_087_899_200, Some(2_087_899_200), Some(2_466_590_400)),
        ],
    },
    Starts {
        what: "each fourth year on 29 February",
        from: 1_709_208_000,
        repeat: Some((Unit::Year, 4, 0, None)),
        around: &[
            (1_740_787_200, Some(1_709_208_000), Some(1_835_438_400)),
            (1_835_438_400, Some(1_835_438_400), Some(1_961_668_800)),
        ],
    },
    Starts {
        what: "yearly on 31 December, from 1970",
        from: 31_535_999,
        repeat: Some((Unit::Year, 1, 0, None)),
        around: &[
            (-1, None, Some(31_535_999)),
            (31_535_999, Some(31_535_999), Some(63_071_999)),
            (4_102_444_798, Some(4_070_908_799), Some(4_102_444_799)),
            (4_102_444_799, Some(4_102_444_799), None),
        ],
    },
];

#[test]
fn starts_by_the_year(rt: HostRuntime) -> Result<(), Fail> {
    check_starts(&rt, &BY_THE_YEAR)
}

static BY_THE_DAY_AND_THE_HOUR: [Starts; 6] = [
    Starts {
        what: "each tenth day, up to the day before the second",
        from: 1_736_148_600,
        repeat: Some((Unit::Day, 10, 0, Some(20_103))),
        around: &[
            (1_736_148_600, Some(1_736_148_600), None),
            (1_738_368_000, Some(1_736_148_600), None),
        ],
    },
    Starts {
        what: "each tenth day, up to the second",
        from: 1_736_148_600,
        repeat: Some((Unit::Day, 10, 0, Some(20_104))),
        around: &[
            (1_736_148_600, Some(1_736_148_600), Some(1_737_012_600)),
            (1_738_368_000, Some(1_737_012_600), None),
        ],
    },
    Starts {
        what: "each fifth hour, up to the next day",
        from: 1_736_148_600,
        repeat: Some((Unit::Hour, 5, 0, Some(20_095))),
        around: &[
            (1_736_148_599, None, Some(1_736_148_600)),
            (1_736_166_600, Some(1_736_166_600), Some(1_736_184_600)),
            (1_736_292_600, Some(1_736_292_600), None),
            (1_736_294_400, Some(1_736_292_600), None),
        ],
    },
    Starts {
        what: "each thousandth hour",
        from: 1_736_148_600,
        repeat: Some((Unit::Hour, 1_000, 0, None)),
        around: &[
            (4_102_444_799, Some(4_101_348_600), None),
            (4_102_703_999, Some(4_101_348_600), None),
        ],
    },
    Starts {
        what: "hourly and daily from the first second",
        from: 0,
        repeat: Some((Unit::Hour, 1, 0, None)),
        around: &[
            (-93_599, None, Some(0)),
            (-1, None, Some(0)),
            (0, Some(0), Some(3_600)),
            (3_599, Some(0), Some(3_600)),
        ],
    },
    Starts {
        what: "daily from the first second",
        from: 0,
        repeat: Some((Unit::Day, 1, 0, None)),
        around: &[
            (-93_599, None, Some(0)),
            (-1, None, Some(0)),
            (0, Some(0), Some(86_400)),
            (4_102_703_999, Some(4_102_617_600), None),
        ],
    },
];

#[test]
fn starts_by_the_day_and_the_hour(rt: HostRuntime) -> Result<(), Fail> {
    check_starts(&rt, &BY_THE_DAY_AND_THE_HOUR)
}

static WITHOUT_A_REPEAT: [Starts; 1] = [Starts {
    what: "once, Monday 6 January 2025, 7:30",
    from: 1_736_148_600,
    repeat: None,
    around: &[
        (-1, None, Some(1_736_148_600)),
        (1_736_148_599, None, Some(1_736_148_600)),
        (1_736_148_600, Some(1_736_148_600), None),
    ],
}];

#[test]
fn starts_without_a_repeat(rt: HostRuntime) -> Result<(), Fail> {
    check_starts(&rt, &WITHOUT_A_REPEAT)
}
