//! Layouts that are accepted and refused, and what they show at an offset, worked by hand.

ghost use Rattle.std.specs.Prelude.{◌≡◌, ◌<◌, IfOk};
ghost use Rattle.std.specs.List.{AllByRecursion};
ghost use Rattle.sg_base.specs.Layout.{HasId};

use sg_base::{Item, Layout, LayoutFault, LayoutId, MediaId, Region, Rows};
use std::alloc::{AllocError, Global};
use std::process::Abort;
use std::test::Fail;

/// A region of some items, of which the last lasts `last` seconds and each other one `seconds`.
#[derive(Clone, Copy)]
struct Plan {
    id: u32,
    items: usize,
    seconds: u32,
    last: u32,
}

impl Plan {
    fn new(id: u32, items: usize, seconds: u32, last: u32) -> Plan {
        Plan {
            id,
            items,
            seconds,
            last,
        }
    }
}

fn items_of(alloc: Global, plan: Plan) -> Result<Vec<Item>, AllocError> {
    let mut items = Vec::new(alloc);
    for i in 0..plan.items {
        let seconds = if i + 1 == plan.items {
            plan.last
        } else {
            plan.seconds
        };
        items.push(Item {
            media: MediaId(1),
            seconds,
        })?;
    }
    Ok(items)
}

fn regions_of(rt: &impl Abort, alloc: Global, plans: &[Plan]) -> Result<Vec<Region>, AllocError>
    ensures { IfOk result (λ v. AllByRecursion HasId v.items) }
{
    let mut regions = Vec::new(alloc);
    for plan in plans {
        assert!(rt; plan.id > 0);
        let items = items_of(alloc, *plan)?;
        regions.push(Region {
            id: plan.id,
            items: Rows::from_vec(items),
        })?;
    }
    Ok(regions)
}

#[test]
fn refuses_layouts(rt: HostRuntime) -> Result<(), Fail> {
    let one = Plan::new(1, 1, 0, 10);
    let full = Plan::new(2, 64, 1, 1);
    let empty = Plan::new(7, 0, 0, 0);
    let rows = [
        ([one, one, one], 0, Some(LayoutFault::NoRegion)),
        ([one, full, Plan::new(3, 2, 1800, 1800)], 3, None),
        ([one, empty, one], 3, Some(LayoutFault::DoubleRegion(1))),
        ([one, empty, full], 3, Some(LayoutFault::EmptyRegion(7))),
        (
            [Plan::new(9, 2, 3600, 1), empty, one],
            3,
            Some(LayoutFault::TooLong(3601)),
        ),
        (
            [one, Plan::new(9, 65, 0, 0), empty],
            2,
            Some(LayoutFault::TooMany(65)),
        ),
        (
            [Plan::new(9, 3, 3600, 0), one, one],
            1,
            Some(LayoutFault::ZeroSeconds(9, 2)),
        ),
        (
            [Plan::new(9, 64, u32::MAX, u32::MAX), one, one],
            1,
            Some(LayoutFault::TooLong(274_877_906_880)),
        ),
    ];
    for (plans, used, fault) in rows {
        let regions = regions_of(&rt, rt.alloc(), &plans[..used])?;
        assert_eq!(rt; Layout::new(LayoutId(5), regions).err(), fault);
    }
    let mut plans = [empty; 17];
    for (count, fault) in [
        (17, Some(LayoutFault::TooMany(17))),
        (16, Some(LayoutFault::DoubleRegion(7))),
    ] {
        let regions = regions_of(&rt, rt.alloc(), &plans[..count])?;
        assert_eq!(rt; Layout::new(LayoutId(5), regions).err(), fault);
    }
    for i in 0..16 {
        plans[i] = Plan::new(1 + i as u32, 1, 0, 10);
    }
    let regions = regions_of(&rt, rt.alloc(), &plans[..16])?;
    assert_eq!(rt; Layout::new(LayoutId(5), regions).err(), None);
    Ok(())
}

fn item(media: u32, seconds: u32) -> Item {
    Item {
        media: MediaId(media),
        seconds,
    }
}

#[test]
fn shows_what_covers_the_offset(rt: HostRuntime) -> Result<(), Fail> {
    let short = vec![in rt.alloc(); item(1, 4), item(4, 6)]?;
    let long = vec![in rt.alloc(); item(2, 20), item(3, 5)]?;
    let regions = vec![in rt.alloc();
        Region {
            id: 1,
            items: Rows::from_vec(short)
        },
        Region {
            id: 2,
            items: Rows::from_vec(long)
        },
    ]?;
    let layout = Layout::new(LayoutId(5), regions)?;
    assert_eq!(rt; layout.id(), LayoutId(5));
    assert_eq!(rt; layout.duration(), 25);
    assert_eq!(rt; layout.regions().len(), 2);
    for (offset, left, right) in [
        (0, 1, 2),
        (3, 1, 2),
        (4, 4, 2),
        (10, 1, 2),
        (23, 1, 3),
        (24, 4, 3),
    ] {
        assert_eq!(rt;
            layout.item_at(0, offset),
            MediaId(left),
            "left at {offset}"
        );
        assert_eq!(rt;
            layout.item_at(1, offset),
            MediaId(right),
            "right at {offset}"
        );
    }
    Ok(())
}
