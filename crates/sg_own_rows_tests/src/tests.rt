//! A shop with two displays, and one whose layout shows too many media. What each display has was worked by hand, row by
//! row.

ghost use Rattle.std.specs.Prelude.{◌≡◌, ◌+◌, ◌<◌, IfOk};

use sg_base::{
    Campaign, CampaignId, Daypart, DaypartId, DisplayId, DisplayRow, Event, EventId, EventRow,
    GroupId, Item, Kind, Layout, LayoutId, LimitName, Listed, MediaId, Region, Row, Rows, Target,
    When, Window, ZoneRule,
};
use sg_own_rows::{Own, own_files, own_rows};
use sg_tables::{TableChange, TableRefusal, Tables};
use std::alloc::{AllocError, Global};
use std::test::Fail;

// Inserts a row, if it could be made.
fn insert(tables: &mut Tables, row: Option<Row>) -> Result<(), TableRefusal> {
    match row {
        None => Err(TableRefusal::Memory),
        Some(row) => {
            let prepared = tables.prepare(&TableChange::Insert(row))?;
            tables.commit(prepared);
            Ok(())
        }
    }
}

// Inserts a complete medium of one byte.
fn insert_medium(tables: &mut Tables, id: u32) -> Result<(), TableRefusal> {
    let file = Listed {
        media: MediaId(id),
        length: 1,
        md5: [0; 16],
    };
    insert(tables, Some(Row::Media(file)))?;
    if tables.row(Kind::Media, id).is_some() {
        tables.complete(MediaId(id));
    }
    Ok(())
}

// A region that shows media in turn.
fn region(alloc: Global, id: u32, first: u32, count: u32) -> Result<Region, AllocError>
    requires { first + count < 65536 }
    ensures { IfOk result (λ region. region.id ≡ id) }
{
    let mut items = Vec::new(alloc);
    for media in first..first + count {
        items.push(Item {
            media: MediaId(media),
            seconds: 1,
        })?;
    }
    Ok(Region {
        id,
        items: Rows::from_vec(items),
    })
}

// A layout that shows media in turn.
fn layout(alloc: Global, id: u32, first: u32, count: u32) -> Result<Option<Row>, AllocError>
    requires { first + count < 65536 }
{
    let regions = Vec::from_array(alloc, [region(alloc, 1, first, count)?])?;
    Ok(Layout::new(LayoutId(id), regions).ok().map(Row::Layout))
}

fn daypart(alloc: Global, id: u32) -> Option<Row> {
    let window = Window {
        start: 28_800,
        end: 43_200,
    };
    let none = Vec::new(alloc);
    match Daypart::new(DaypartId(id), window, none, Vec::new(alloc)) {
        Ok(daypart) => Some(Row::Daypart(daypart)),
        Err(_) => None,
    }
}

fn display(alloc: Global, id: u32, default: u32, groups: &[GroupId]) -> Result<Row, AllocError> {
    Ok(Row::Display(DisplayRow {
        id: DisplayId(id),
        default: LayoutId(default),
        groups: Rows::from_vec(Vec::from_slice(alloc, groups)?),
        key: Rows::from_vec(Vec::from_slice(alloc, b"key")?),
        zone: ZoneRule::Offset(60),
    }))
}

fn event(
    alloc: Global,
    id: u32,
    target: Target,
    when: When,
    displays: &[DisplayId],
    groups: &[GroupId],
) -> Result<Option<Row>, AllocError> {
    let displays = Vec::from_slice(alloc, displays)?;
    let groups = Vec::from_slice(alloc, groups)?;
    match Event::new(EventId(id), 0, target, when, None, 0, 0, 0) {
        Err(_) => Ok(None),
        Ok(event) => Ok(Some(Row::Event(EventRow {
            event,
            displays: Rows::from_vec(displays),
            groups: Rows::from_vec(groups),
        }))),
    }
}

fn named(daypart: u32) -> When {
    When::Named {
        daypart: DaypartId(daypart),
        date: 20_000,
    }
}

// Layouts 1 to 6, of which layout n shows medium 10 + n; layouts 4 and 5 are campaign 4; dayparts 8 and 9; group 3.
fn rows_that_events_name(alloc: Global, tables: &mut Tables) -> Result<(), Fail> {
    for id in 1..=6 {
        insert_medium(tables, 10 + id)?;
        insert(tables, layout(alloc, id, 10 + id, 1)?)?;
    }
    let layouts = Vec::from_slice(alloc, &[LayoutId(4), LayoutId(5)])?;
    let campaign = Campaign {
        id: CampaignId(4),
        layouts: Rows::from_vec(layouts),
    };
    insert(tables, Some(Row::Campaign(campaign)))?;
    insert(tables, daypart(alloc, 8))?;
    insert(tables, daypart(alloc, 9))?;
    insert(tables, Some(Row::Group(GroupId(3))))?;
    Ok(())
}

// Display 1, in group 3, with layout 1, and display 2 with layout 2. Event 5 shows layout 3 on display 1, event 6 campaign
// 4 in group 3, event 7 layout 6 on display 2, and event 8 layout 1 there.
fn shop(alloc: Global) -> Result<Tables, Fail> {
    let mut tables = Tables::new(alloc);
    rows_that_events_name(alloc, &mut tables)?;
    let one = display(alloc, 1, 1, &[GroupId(3)])?;
    insert(&mut tables, Some(one))?;
    let two = display(alloc, 2, 2, &[])?;
    insert(&mut tables, Some(two))?;
    let five = event(
        alloc,
        5,
        Target::Layout(LayoutId(3)),
        named(8),
        &[DisplayId(1)],
        &[],
    )?;
    insert(&mut tables, five)?;
    let six = event(
        alloc,
        6,
        Target::Campaign(CampaignId(4)),
        When::Always,
        &[],
        &[GroupId(3)],
    )?;
    insert(&mut tables, six)?;
    let seven = event(
        alloc,
        7,
        Target::Layout(LayoutId(6)),
        named(9),
        &[DisplayId(2)],
        &[],
    )?;
    insert(&mut tables, seven)?;
    let eight = event(
        alloc,
        8,
        Target::Layout(LayoutId(1)),
        When::Always,
        &[DisplayId(2)],
        &[],
    )?;
    insert(&mut tables, eight)?;
    Ok(tables)
}

// The ids of own rows: events, campaigns, dayparts, layouts, files, with a 0 after each kind.
fn ids_of(alloc: Global, own: Own) -> Result<Vec<u32>, AllocError> {
    let mut ids = Vec::new(alloc);
    if let Own::Rows(rows) = own {
        for event in rows.events.as_slice() {
            ids.push(event.id().0)?;
        }
        ids.push(0)?;
        for campaign in rows.campaigns.as_slice() {
            ids.push(campaign.id.0)?;
        }
        ids.push(0)?;
        for daypart in rows.dayparts.as_slice() {
            ids.push(daypart.id().0)?;
        }
        ids.push(0)?;
        for layout in rows.layouts.as_slice() {
            ids.push(layout.id().0)?;
        }
        ids.push(0)?;
        add_files(&mut ids, rows.files.as_slice())?;
    }
    Ok(ids)
}

fn add_files(ids: &mut Vec<u32>, files: &[Listed]) -> Result<(), AllocError> {
    for file in files {
        ids.push(file.media.0)?;
    }
    Ok(())
}

#[test]
fn a_display_has_what_its_events_and_those_of_its_groups_name(rt: HostRuntime) -> Result<(), Fail> {
    let alloc = rt.alloc();
    let tables = shop(alloc)?;
    let own = own_rows(alloc, &tables, DisplayId(1))?;
    let ids = ids_of(alloc, own)?;
    let wanted = [5, 6, 0, 4, 0, 8, 0, 1, 3, 4, 5, 0, 11, 13, 14, 15];
    assert_eq!(rt; ids.as_slice(), wanted.as_slice());
    Ok(())
}

#[test]
fn what_is_for_another_display_is_not_its_own(rt: HostRuntime) -> Result<(), Fail> {
    let alloc = rt.alloc();
    let tables = shop(alloc)?;
    let own = own_rows(alloc, &tables, DisplayId(2))?;
    let ids = ids_of(alloc, own)?;
    let wanted = [7, 8, 0, 0, 9, 0, 1, 2, 6, 0, 11, 12, 16];
    assert_eq!(rt; ids.as_slice(), wanted.as_slice());
    let files = own_files(alloc, &tables, DisplayId(2))?;
    let mut ids = Vec::new(alloc);
    add_files(&mut ids, files.as_slice())?;
    assert_eq!(rt; ids.as_slice(), [11, 12, 16].as_slice());
    Ok(())
}

#[test]
fn a_display_that_is_not_there_has_nothing(rt: HostRuntime) -> Result<(), Fail> {
    let alloc = rt.alloc();
    let tables = shop(alloc)?;
    let own = own_rows(alloc, &tables, DisplayId(3))?;
    assert!(rt; matches!(own, Own::Unknown));
    let files = own_files(alloc, &tables, DisplayId(3))?;
    assert_eq!(rt; files.len(), 0);
    Ok(())
}

#[test]
fn more_files_than_a_manifest_may_have_are_too_large(rt: HostRuntime) -> Result<(), Fail> {
    let alloc = rt.alloc();
    let mut tables = Tables::new(alloc);
    for id in 1..=513 {
        insert_medium(&mut tables, id)?;
    }
    let mut layouts = Vec::new(alloc);
    for id in 1..=9 {
        insert(&mut tables, layout(alloc, id, 57 * id - 56, 57)?)?;
        layouts.push(LayoutId(id))?;
    }
    let campaign = Campaign {
        id: CampaignId(1),
        layouts: Rows::from_vec(layouts),
    };
    insert(&mut tables, Some(Row::Campaign(campaign)))?;
    let row = display(alloc, 1, 1, &[])?;
    insert(&mut tables, Some(row))?;
    let target = Target::Campaign(CampaignId(1));
    let all = event(alloc, 1, target, When::Always, &[DisplayId(1)], &[])?;
    insert(&mut tables, all)?;
    let own = own_rows(alloc, &tables, DisplayId(1))?;
    let is_large = match own {
        Own::TooLarge { name, count } => name == LimitName::Files && count == 513,
        _ => false,
    };
    assert!(rt; is_large);
    let files = own_files(alloc, &tables, DisplayId(1))?;
    assert_eq!(rt; files.len(), 513);
    Ok(())
}
