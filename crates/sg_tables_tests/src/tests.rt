//! Rows that come in, take the place of others and go, each with what refuses it. The answers were worked by hand from the
//! order of refusals.

ghost use Rattle.std.specs.Prelude.{◌≡◌, IfOk};

use sg_base::{
    Campaign, CampaignId, DisplayId, DisplayRow, Event, EventId, EventRow, GroupId, Item, Kind,
    Layout, LayoutId, Listed, MediaId, Region, Row, Rows, Target, When, ZoneRule,
};
use sg_tables::{RowId, TableChange, TableRefusal, Tables};
use std::alloc::{AllocError, Global};
use std::test::Fail;

// Makes a change, or says why it is refused.
fn insert(tables: &mut Tables, row: Row) -> Result<(), TableRefusal> {
    let prepared = tables.prepare(&TableChange::Insert(row))?;
    tables.commit(prepared);
    Ok(())
}

fn replace(tables: &mut Tables, campaign: Campaign) -> Result<(), TableRefusal> {
    let prepared = tables.prepare(&TableChange::Replace(Row::Campaign(campaign)))?;
    tables.commit(prepared);
    Ok(())
}

fn remove(tables: &mut Tables, kind: Kind, id: u32) -> Result<(), TableRefusal> {
    let prepared = tables.prepare(&TableChange::Remove(kind, id))?;
    tables.commit(prepared);
    Ok(())
}

// Says that a medium is complete, if it is there.
fn complete(tables: &mut Tables, media: u32) {
    if tables.row(Kind::Media, media).is_some() {
        tables.complete(MediaId(media));
    }
}

fn medium(id: u32, length: u32) -> Row {
    Row::Media(Listed {
        media: MediaId(id),
        length,
        md5: [0; 16],
    })
}

// A region that shows one medium.
fn region(alloc: Global, id: u32, media: u32) -> Result<Region, AllocError>
    ensures { IfOk result (λ region. region.id ≡ id) }
{
    let items = Vec::from_array(
        alloc,
        [Item {
            media: MediaId(media),
            seconds: 10,
        }],
    )?;
    Ok(Region {
        id,
        items: Rows::from_vec(items),
    })
}

// A layout that shows two media side by side, or none where it can't be made.
fn layout(alloc: Global, id: u32, media: [u32; 2]) -> Result<Option<Row>, AllocError> {
    let one = region(alloc, 1, media[0])?;
    let two = region(alloc, 2, media[1])?;
    let regions = Vec::from_array(alloc, [one, two])?;
    Ok(Layout::new(LayoutId(id), regions).ok().map(Row::Layout))
}

fn campaign(alloc: Global, id: u32, layouts: &[LayoutId]) -> Result<Campaign, AllocError> {
    Ok(Campaign {
        id: CampaignId(id),
        layouts: Rows::from_vec(Vec::from_slice(alloc, layouts)?),
    })
}

fn display(alloc: Global, id: u32, default: u32, groups: &[GroupId]) -> Result<Row, AllocError> {
    Ok(Row::Display(DisplayRow {
        id: DisplayId(id),
        default: LayoutId(default),
        groups: Rows::from_vec(Vec::from_slice(alloc, groups)?),
        key: Rows::from_vec(Vec::from_slice(alloc, b"key")?),
        zone: ZoneRule::Offset(0),
    }))
}

fn event(
    alloc: Global,
    id: u32,
    target: Target,
    display: u32,
    group: u32,
) -> Result<Option<Row>, AllocError> {
    let displays = Vec::from_slice(alloc, &[DisplayId(display)])?;
    let groups = Vec::from_slice(alloc, &[GroupId(group)])?;
    match Event::new(EventId(id), 0, target, When::Always, None, 0, 0, 0) {
        Ok(event) => Ok(Some(Row::Event(EventRow {
            event,
            displays: Rows::from_vec(displays),
            groups: Rows::from_vec(groups),
        }))),
        Err(_) => Ok(None),
    }
}

// Inserts a row that could be made.
fn insert_made(tables: &mut Tables, row: Option<Row>) -> Result<(), TableRefusal> {
    match row {
        Some(row) => insert(tables, row),
        None => Err(TableRefusal::Memory),
    }
}

const ONE: LayoutId = LayoutId(1);

const TWO: LayoutId = LayoutId(2);

// Media 7 and 8, layouts 1 and 2, campaign 4, group 3, display 5 and event 6, each of which names some before it.
fn some_rows(alloc: Global) -> Result<Tables, AllocError> {
    let mut tables = Tables::new(alloc);
    for media in [7, 8] {
        let _done = insert(&mut tables, medium(media, 10));
        complete(&mut tables, media);
    }
    let _one = insert_made(&mut tables, layout(alloc, 1, [7, 8])?);
    let _two = insert_made(&mut tables, layout(alloc, 2, [8, 8])?);
    let _campaign = insert(
        &mut tables,
        Row::Campaign(campaign(alloc, 4, &[ONE, TWO, ONE])?),
    );
    let _group = insert(&mut tables, Row::Group(GroupId(3)));
    let _display = insert(&mut tables, display(alloc, 5, 1, &[GroupId(3)])?);
    let target = Target::Campaign(CampaignId(4));
    let _event = insert_made(&mut tables, event(alloc, 6, target, 5, 3)?);
    Ok(tables)
}

fn unknown(kind: Kind, id: u32) -> Result<(), TableRefusal> {
    Err(TableRefusal::Unknown { kind, id })
}

fn in_use(kind: Kind, id: u32, by_kind: Kind, by_id: u32) -> Result<(), TableRefusal> {
    Err(TableRefusal::InUse {
        kind,
        id,
        by_kind,
        by_id,
    })
}

#[test]
fn a_layout_comes_in_after_its_media_are_complete(rt: HostRuntime) -> Result<(), Fail> {
    let alloc = rt.alloc();
    let mut tables = Tables::new(alloc);
    assert_eq!(rt; insert(&mut tables, medium(8, 10)), Ok(()));
    // the first medium isn't there; the second isn't complete
    let row = layout(alloc, 1, [7, 8])?;
    assert_eq!(rt; insert_made(&mut tables, row), unknown(Kind::Media, 7));
    let row = layout(alloc, 1, [8, 7])?;
    let fault = Err(TableRefusal::Incomplete(MediaId(8)));
    assert_eq!(rt; insert_made(&mut tables, row), fault);
    complete(&mut tables, 8);
    let row = layout(alloc, 1, [8, 8])?;
    assert_eq!(rt; insert_made(&mut tables, row), Ok(()));
    let row = layout(alloc, 1, [7, 7])?;
    let fault = Err(TableRefusal::Exists {
        kind: Kind::Layout,
        id: 1,
    });
    assert_eq!(rt; insert_made(&mut tables, row), fault);
    Ok(())
}

#[test]
fn what_a_display_names_is_looked_up_in_its_order(rt: HostRuntime) -> Result<(), Fail> {
    let alloc = rt.alloc();
    let mut tables = some_rows(alloc)?;
    let row = display(alloc, 9, 3, &[GroupId(1)])?;
    assert_eq!(rt; insert(&mut tables, row), unknown(Kind::Layout, 3));
    let row = display(alloc, 9, 1, &[GroupId(3), GroupId(4)])?;
    assert_eq!(rt; insert(&mut tables, row), unknown(Kind::Group, 4));
    Ok(())
}

#[test]
fn what_an_event_names_is_looked_up_in_its_order(rt: HostRuntime) -> Result<(), Fail> {
    let alloc = rt.alloc();
    let mut tables = some_rows(alloc)?;
    let row = event(alloc, 9, Target::Layout(LayoutId(9)), 6, 4)?;
    assert_eq!(rt; insert_made(&mut tables, row), unknown(Kind::Layout, 9));
    let row = event(alloc, 9, Target::Layout(ONE), 6, 4)?;
    assert_eq!(rt; insert_made(&mut tables, row), unknown(Kind::Display, 6));
    let row = event(alloc, 9, Target::Layout(ONE), 5, 4)?;
    assert_eq!(rt; insert_made(&mut tables, row), unknown(Kind::Group, 4));
    Ok(())
}

#[test]
fn the_first_user_is_told(rt: HostRuntime) -> Result<(), Fail> {
    let mut tables = some_rows(rt.alloc())?;
    // campaigns come before displays, and events before displays; of one kind the least id
    let users = [
        (Kind::Media, 8, Kind::Layout, 1),
        (Kind::Layout, 1, Kind::Campaign, 4),
        (Kind::Campaign, 4, Kind::Event, 6),
        (Kind::Group, 3, Kind::Event, 6),
        (Kind::Display, 5, Kind::Event, 6),
    ];
    for (kind, id, by_kind, by_id) in users {
        assert_eq!(rt;
            remove(&mut tables, kind, id),
            in_use(kind, id, by_kind, by_id)
        );
    }
    assert_eq!(rt;
        remove(&mut tables, Kind::Event, 7),
        unknown(Kind::Event, 7)
    );
    Ok(())
}

#[test]
fn a_row_goes_when_no_other_names_it(rt: HostRuntime) -> Result<(), Fail> {
    let mut tables = some_rows(rt.alloc())?;
    for (kind, id) in [(Kind::Event, 6), (Kind::Campaign, 4)] {
        assert_eq!(rt; remove(&mut tables, kind, id), Ok(()));
    }
    let user = in_use(Kind::Group, 3, Kind::Display, 5);
    assert_eq!(rt; remove(&mut tables, Kind::Group, 3), user);
    for (kind, id) in [
        (Kind::Display, 5),
        (Kind::Group, 3),
        (Kind::Layout, 1),
        (Kind::Media, 7),
    ] {
        assert_eq!(rt; remove(&mut tables, kind, id), Ok(()));
    }
    assert_eq!(rt;
        remove(&mut tables, Kind::Media, 8),
        in_use(Kind::Media, 8, Kind::Layout, 2)
    );
    Ok(())
}

#[test]
fn a_replaced_row_names_its_old_rows_no_more(rt: HostRuntime) -> Result<(), Fail> {
    let alloc = rt.alloc();
    let mut tables = some_rows(alloc)?;
    assert_eq!(rt;
        replace(&mut tables, campaign(alloc, 9, &[ONE])?),
        unknown(Kind::Campaign, 9)
    );
    let none = campaign(alloc, 4, &[TWO, LayoutId(3)])?;
    assert_eq!(rt; replace(&mut tables, none), unknown(Kind::Layout, 3));
    assert_eq!(rt;
        replace(&mut tables, campaign(alloc, 4, &[ONE, ONE])?),
        Ok(())
    );
    assert_eq!(rt; remove(&mut tables, Kind::Layout, 2), Ok(()));
    let user = in_use(Kind::Layout, 1, Kind::Campaign, 4);
    assert_eq!(rt; remove(&mut tables, Kind::Layout, 1), user);
    Ok(())
}

#[test]
fn a_kind_has_no_more_rows_than_it_may_have(rt: HostRuntime) -> Result<(), Fail> {
    let mut tables = Tables::new(rt.alloc());
    for id in 1..=500 {
        assert_eq!(rt; insert(&mut tables, Row::Group(GroupId(id))), Ok(()));
    }
    let full = Err(TableRefusal::Full {
        kind: Kind::Group,
        limit: 500,
    });
    assert_eq!(rt; insert(&mut tables, Row::Group(GroupId(501))), full);
    assert_eq!(rt; remove(&mut tables, Kind::Group, 7), Ok(()));
    assert_eq!(rt; insert(&mut tables, Row::Group(GroupId(501))), Ok(()));
    Ok(())
}

#[test]
fn the_bytes_of_all_media_are_limited(rt: HostRuntime) -> Result<(), Fail> {
    let mut tables = Tables::new(rt.alloc());
    for id in 1..=8 {
        assert_eq!(rt; insert(&mut tables, medium(id, 67_108_864)), Ok(()));
    }
    let full = Err(TableRefusal::Full {
        kind: Kind::Media,
        limit: 536_870_912,
    });
    assert_eq!(rt; insert(&mut tables, medium(9, 1)), full);
    assert_eq!(rt; remove(&mut tables, Kind::Media, 3), Ok(()));
    assert_eq!(rt; insert(&mut tables, medium(9, 67_108_864)), Ok(()));
    Ok(())
}

#[test]
fn ids_of_a_kind_follow_each_other(rt: HostRuntime) -> Result<(), Fail> {
    let tables = some_rows(rt.alloc())?;
    let rows = [
        (Kind::Media, 0, Some(7)),
        (Kind::Media, 7, Some(8)),
        (Kind::Media, 8, None),
        (Kind::Layout, 0, Some(1)),
        (Kind::Daypart, 0, None),
        (Kind::Event, 5, Some(6)),
        (Kind::Client, 0, None),
    ];
    for (kind, id, next) in rows {
        assert_eq!(rt; tables.after(kind, id), next, "{kind:?} {id}");
    }
    assert_eq!(rt; tables.rows_of(Kind::Layout).len(), 2);
    Ok(())
}

#[test]
fn a_medium_is_complete_when_all_has_come(rt: HostRuntime) -> Result<(), Fail> {
    let mut tables = Tables::new(rt.alloc());
    assert_eq!(rt; insert(&mut tables, medium(7, 10)), Ok(()));
    assert_eq!(rt; tables.is_complete(MediaId(7)), false);
    if tables.row(Kind::Media, 7).is_some() {
        tables.receive(MediaId(7), 4);
    }
    let id = RowId {
        kind: Kind::Media,
        id: 7,
    };
    assert_eq!(rt;
        tables.entry(id).map(|e| (e.received(), e.is_complete())),
        Some((4, false))
    );
    complete(&mut tables, 7);
    assert_eq!(rt;
        tables.entry(id).map(|e| (e.received(), e.is_complete())),
        Some((10, true))
    );
    assert_eq!(rt; tables.is_complete(MediaId(8)), false);
    Ok(())
}
