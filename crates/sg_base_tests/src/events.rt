//! Repeats and events that are accepted and refused, and the first of two faults.

use sg_base::{
    CampaignId, DaypartId, Event, EventFault, EventId, LayoutFault, LayoutId, Repeat, RepeatFault,
    Target, Unit, When,
};
use std::test::Fail;

const LAYOUT: Target = Target::Layout(LayoutId(3));

const CAMPAIGN: Target = Target::Campaign(CampaignId(3));

/// The second that begins day 20,001.
const MIDNIGHT: u32 = 20_001 * 86_400;

#[test]
fn the_first_fault_of_a_repeat_is_named(rt: HostRuntime) {
    let late = Some(47_482);
    for (unit, every, days, until, fault) in [
        (Unit::Hour, 1, 0, None, None),
        (Unit::MonthWeekday, 1000, 0, Some(47_481), None),
        (Unit::Week, 1000, 127, Some(47_481), None),
        (Unit::Week, 0, 0, late, Some(RepeatFault::ZeroStep)),
        (Unit::Day, 1001, 1, None, Some(RepeatFault::BigStep(1001))),
        (Unit::Week, 1, 0, late, Some(RepeatFault::NoWeekday)),
        (Unit::Week, 1, 128, None, Some(RepeatFault::NoWeekday)),
        (Unit::Week, 1, 129, late, Some(RepeatFault::StrayDays)),
        (Unit::Month, 1, 1, None, Some(RepeatFault::StrayDays)),
        (Unit::MonthWeekday, 1, 4, late, Some(RepeatFault::StrayDays)),
        (Unit::Year, 1, 0, late, Some(RepeatFault::BadDay)),
    ] {
        assert_eq!(rt; Repeat::new(unit, every, days, until).err(), fault);
    }
}

#[test]
fn a_repeat_keeps_its_values(rt: HostRuntime) -> Result<(), Fail> {
    let repeat = Repeat::new(Unit::Week, 2, 65, Some(20_000))?;
    assert_eq!(rt; (repeat.unit(), repeat.every()), (Unit::Week, 2));
    assert_eq!(rt; (repeat.days(), repeat.until()), (65, Some(20_000)));
    Ok(())
}

/// An event's values, a plain one of layer 0 where a case says nothing else.
#[derive(Clone, Copy)]
struct Values {
    layer: u32,
    target: Target,
    when: When,
    repeat: Option<Repeat>,
    order: u32,
    priority: u32,
    share: u32,
}

impl Values {
    fn of(target: Target, when: When, repeat: Option<Repeat>) -> Values {
        Values {
            layer: 0,
            target,
            when,
            repeat,
            order: 0,
            priority: 0,
            share: 0,
        }
    }

    fn fault(self) -> Option<EventFault> {
        Event::new(
            EventId(8),
            self.layer,
            self.target,
            self.when,
            self.repeat,
            self.order,
            self.priority,
            self.share,
        )
        .err()
    }
}

fn custom(from: u32, to: u32) -> When {
    When::Custom { from, to }
}

fn named(date: u32) -> When {
    When::Named {
        daypart: DaypartId(2),
        date,
    }
}

#[test]
fn numbers_of_an_event_are_looked_at_first(rt: HostRuntime) {
    let worst = Values {
        layer: 2,
        order: 65_536,
        priority: 65_536,
        share: 3_601,
        ..Values::of(CAMPAIGN, custom(9, 9), None)
    };
    let order = Values {
        order: 65_535,
        ..worst
    };
    let both = Values {
        priority: 65_535,
        ..order
    };
    let share = Values { share: 1, ..both };
    let plain = Values { share: 0, ..share };
    assert_eq!(rt; worst.fault(), Some(EventFault::BigNumber));
    assert_eq!(rt; order.fault(), Some(EventFault::BigNumber));
    assert_eq!(rt; both.fault(), Some(EventFault::BigShare));
    assert_eq!(rt; share.fault(), Some(EventFault::InterruptCampaign));
    assert_eq!(rt; plain.fault(), Some(EventFault::EmptyTime));
}

#[test]
fn times_and_repeats_of_an_event_come_next(rt: HostRuntime) -> Result<(), Fail> {
    let hourly = Some(Repeat::new(Unit::Hour, 1, 0, Some(20_000))?);
    let daily = Some(Repeat::new(Unit::Day, 1, 0, Some(20_000))?);
    let last = custom(MIDNIGHT - 1, MIDNIGHT);
    for (what, when, repeat, fault) in [
        ("the day that has the last day's end", last, hourly, None),
        ("an end with 2099", custom(5, 4_102_444_800), None, None),
        ("the last date", named(47_481), None, None),
        (
            "an empty time",
            custom(u32::MAX, u32::MAX),
            daily,
            Some(EventFault::EmptyTime),
        ),
        (
            "an end after 2099",
            custom(MIDNIGHT, 4_102_444_801),
            daily,
            Some(EventFault::PastRange),
        ),
        (
            "a date after 2099",
            named(47_482),
            hourly,
            Some(EventFault::PastRange),
        ),
        (
            "always, and hourly",
            When::Always,
            hourly,
            Some(EventFault::AlwaysRepeats),
        ),
        (
            "a daypart by the hour",
            named(20_001),
            hourly,
            Some(EventFault::HourDaypart),
        ),
        (
            "a date after the last day",
            named(20_001),
            daily,
            Some(EventFault::UntilBeforeBase),
        ),
        (
            "a start after the last day",
            custom(MIDNIGHT, MIDNIGHT + 1),
            daily,
            Some(EventFault::UntilBeforeBase),
        ),
    ] {
        let values = Values {
            layer: if fault.is_some() { 2 } else { 0 },
            ..Values::of(LAYOUT, when, repeat)
        };
        assert_eq!(rt; values.fault(), fault, "{what}");
    }
    Ok(())
}

#[test]
fn the_layer_of_an_event_comes_last(rt: HostRuntime) {
    for (what, layer, target, share, fault) in [
        ("an interrupt of layer 0", 0, LAYOUT, 1, None),
        ("an overlay", 1, LAYOUT, 0, None),
        (
            "an overlay with a share",
            1,
            LAYOUT,
            1,
            Some(EventFault::OverlayForm),
        ),
        (
            "an overlay of a campaign",
            1,
            CAMPAIGN,
            0,
            Some(EventFault::OverlayForm),
        ),
        (
            "a layer of 2 with a campaign",
            2,
            CAMPAIGN,
            0,
            Some(EventFault::BadLayer),
        ),
    ] {
        let values = Values {
            layer,
            share,
            ..Values::of(target, When::Always, None)
        };
        assert_eq!(rt; values.fault(), fault, "{what}");
    }
}

#[test]
fn an_event_keeps_its_values(rt: HostRuntime) -> Result<(), Fail> {
    let repeat = Some(Repeat::new(Unit::Month, 3, 0, None)?);
    let event = Event::new(EventId(8), 0, CAMPAIGN, custom(60, 90), repeat, 4, 5, 0)?;
    assert_eq!(rt; (event.id(), event.layer()), (EventId(8), 0));
    assert_eq!(rt; (event.target(), event.when()), (CAMPAIGN, custom(60, 90)));
    assert_eq!(rt; *event.repeat(), repeat);
    assert_eq!(rt; (event.order(), event.priority(), event.share()), (4, 5, 0));
    let over = Event::new(EventId(8), 1, LAYOUT, When::Always, None, 0, 0, 0)?;
    assert_eq!(rt; over.layer(), 1);
    Ok(())
}

#[test]
fn faults_have_texts(rt: HostRuntime) -> Result<(), Fail> {
    let layout = format!(in rt.alloc(); "{}", LayoutFault::ZeroSeconds(7, 2))?;
    assert_eq!(rt; layout.as_str(), "item 2 of region 7 has no second");
    let repeat = format!(in rt.alloc(); "{}", RepeatFault::BigStep(1001))?;
    assert_eq!(rt; repeat.as_str(), "a step of 1001 is too big");
    let event = format!(in rt.alloc(); "{}", EventFault::UntilBeforeBase)?;
    assert_eq!(rt; event.as_str(), "the last day is before the first");
    Ok(())
}
