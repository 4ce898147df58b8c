//! The server's rows: their kinds, and copies that are equal.

use sg_base::{
    Campaign, CampaignId, Daypart, DaypartId, DisplayId, DisplayRow, Event, EventId, EventRow,
    GroupId, Kind, LayoutId, Listed, MediaId, Row, Rows, Target, When, Window, ZoneRule,
};
use std::alloc::{AllocError, Global};
use std::process::Abort;
use std::test::Fail;

fn display(alloc: Global) -> Result<DisplayRow, AllocError> {
    let groups = vec![in alloc; GroupId(3), GroupId(4)]?;
    let key = b"k1".to_vec(alloc)?;
    Ok(DisplayRow {
        id: DisplayId(7),
        default: LayoutId(1),
        groups: Rows::from_vec(groups),
        key: Rows::from_vec(key),
        zone: ZoneRule::Offset(-60),
    })
}

#[test]
fn a_copy_of_a_display_has_its_fields(rt: HostRuntime) -> Result<(), Fail> {
    let Row::Display(copy) = Row::Display(display(rt.alloc())?).clone()? else {
        return Err(Fail::from("no display"));
    };
    assert_eq!(rt; (copy.id, copy.default), (DisplayId(7), LayoutId(1)));
    assert_eq!(rt; copy.groups.as_slice(), [GroupId(3), GroupId(4)].as_slice());
    assert_eq!(rt; copy.key.as_slice(), b"k1".as_slice());
    assert!(rt; copy.zone == ZoneRule::Offset(-60));
    Ok(())
}

#[test]
fn a_copy_of_an_event_has_its_fields(rt: HostRuntime) -> Result<(), Fail> {
    let target = Target::Layout(LayoutId(2));
    let event = Event::new(EventId(9), 0, target, When::Always, None, 1, 2, 3)?;
    let row = Row::Event(EventRow {
        event,
        displays: Rows::from_vec(vec![in rt.alloc(); DisplayId(7)]?),
        groups: Rows::from_vec(Vec::new(rt.alloc())),
    });
    let Row::Event(copy) = row.clone()? else {
        return Err(Fail::from("no event"));
    };
    assert_eq!(rt; (copy.event.id(), copy.event.share()), (EventId(9), 3));
    assert_eq!(rt; copy.displays.as_slice(), [DisplayId(7)].as_slice());
    assert!(rt; copy.groups.is_empty());
    Ok(())
}

/// The kind of a row and of its copy, which are to be the same.
fn kind_of(rt: &impl Abort, row: Row) -> Result<Kind, AllocError> {
    let copy = row.clone()?;
    assert!(rt; copy.kind() == row.kind());
    Ok(row.kind())
}

#[test]
fn a_row_has_its_kind(rt: HostRuntime) -> Result<(), Fail> {
    let file = Listed {
        media: MediaId(1),
        length: 3,
        md5: [0; 16],
    };
    assert_eq!(rt; kind_of(&rt, Row::Media(file))?, Kind::Media);
    assert_eq!(rt; kind_of(&rt, Row::Group(GroupId(3)))?, Kind::Group);
    let display = display(rt.alloc())?;
    assert_eq!(rt; kind_of(&rt, Row::Display(display))?, Kind::Display);
    Ok(())
}

#[test]
fn a_plain_row_has_its_kind(rt: HostRuntime) -> Result<(), Fail> {
    let window = Window { start: 0, end: 60 };
    let none = Vec::new(rt.alloc());
    let daypart = Daypart::new(DaypartId(4), window, none, Vec::new(rt.alloc()))?;
    assert_eq!(rt; kind_of(&rt, Row::Daypart(daypart))?, Kind::Daypart);
    let campaign = Campaign {
        id: CampaignId(5),
        layouts: Rows::from_vec(vec![in rt.alloc(); LayoutId(1)]?),
    };
    assert_eq!(rt; kind_of(&rt, Row::Campaign(campaign))?, Kind::Campaign);
    Ok(())
}
