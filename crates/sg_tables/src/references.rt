//! Which rows a row names.

ghost use Rattle.std.specs.Prelude.{◌≡◌, ◌^◌, ◌<◌, ◌++◌, [], ◌∷◌, length, map, All, IfOk, OnOk};
ghost use Rattle.sg_base.specs.declared.kind.Kind.TheVariants as kind;
ghost use Rattle.sg_base.specs.declared.row.Row.TheVariants as row;
ghost use Rattle.sg_tables.specs.Counts.{IsShort};
ghost use Rattle.sg_tables.specs.Rows.{at, references, target_in, daypart_in};

use crate::row_id::RowId;
use sg_base::{
    DisplayId, DisplayRow, Event, EventRow, GroupId, Kind, Layout, LayoutId, Region, Row, Target,
    When,
};
use std::alloc::{AllocError, Global};

/// The rows that a row names, in its order.
pub fn references(alloc: Global, row: &Row) -> Result<Vec<RowId>, AllocError>
    ensures ids { IfOk result (λ ids. ids.items ≡ references row.now) }
    ensures few { IfOk result (λ ids. length ids.items < 2 ^ 64) }
    ensures short { IfOk result (λ ids. All IsShort ids.items) }
{
    let mut ids = Vec::new(alloc);
    match row {
        Row::Media(_) | Row::Daypart(_) | Row::Group(_) => {}
        Row::Layout(layout) => add_media(&mut ids, layout)?,
        Row::Campaign(campaign) => add_layouts(&mut ids, campaign.layouts.as_slice())?,
        Row::Display(display) => add_of_display(&mut ids, display)?,
        Row::Event(event) => add_of_event(&mut ids, event)?,
    }
    Ok(ids)
}

fn add(ids: &mut Vec<RowId>, kind: Kind, id: u32) -> Result<(), AllocError>
    ensures ids { OnOk result (ids.new.items ≡ ids.old.items ++ at kind id ∷ []) }
    ensures short { OnOk result (All IsShort ids.old.items → All IsShort ids.new.items) }
{
    ids.push(RowId { kind, id })?;
    Ok(())
}

fn add_media(ids: &mut Vec<RowId>, layout: &Layout) -> Result<(), AllocError>
    ensures ids { OnOk result (ids.new.items ≡ ids.old.items ++ references (row.Layout layout.now)) }
    ensures short { OnOk result (All IsShort ids.old.items → All IsShort ids.new.items) }
{
    for region in layout.regions() {
        add_media_of(ids, region)?;
    }
    Ok(())
}

fn add_media_of(ids: &mut Vec<RowId>, region: &Region) -> Result<(), AllocError>
    ensures ids { OnOk result (ids.new.items
        ≡ ids.old.items ++ map (λ item. at kind.Media item.media.0) region.now.items) }
    ensures short { OnOk result (All IsShort ids.old.items → All IsShort ids.new.items) }
{
    for item in region.items.as_slice() {
        add(ids, Kind::Media, item.media.0)?;
    }
    Ok(())
}

fn add_layouts(ids: &mut Vec<RowId>, layouts: &[LayoutId]) -> Result<(), AllocError>
    ensures ids { OnOk result (ids.new.items
        ≡ ids.old.items ++ map (λ layout. at kind.Layout layout.0) layouts.now) }
    ensures short { OnOk result (All IsShort ids.old.items → All IsShort ids.new.items) }
{
    for layout in layouts {
        add(ids, Kind::Layout, layout.0)?;
    }
    Ok(())
}

fn add_displays(ids: &mut Vec<RowId>, displays: &[DisplayId]) -> Result<(), AllocError>
    ensures ids { OnOk result (ids.new.items
        ≡ ids.old.items ++ map (λ display. at kind.Display display.0) displays.now) }
    ensures short { OnOk result (All IsShort ids.old.items → All IsShort ids.new.items) }
{
    for display in displays {
        add(ids, Kind::Display, display.0)?;
    }
    Ok(())
}

fn add_groups(ids: &mut Vec<RowId>, groups: &[GroupId]) -> Result<(), AllocError>
    ensures ids { OnOk result (ids.new.items
        ≡ ids.old.items ++ map (λ group. at kind.Group group.0) groups.now) }
    ensures short { OnOk result (All IsShort ids.old.items → All IsShort ids.new.items) }
{
    for group in groups {
        add(ids, Kind::Group, group.0)?;
    }
    Ok(())
}

fn add_of_display(ids: &mut Vec<RowId>, display: &DisplayRow) -> Result<(), AllocError>
    ensures ids { OnOk result (ids.new.items ≡ ids.old.items ++ references (row.Display display.now)) }
    ensures short { OnOk result (All IsShort ids.old.items → All IsShort ids.new.items) }
{
    add(ids, Kind::Layout, display.default.0)?;
    add_groups(ids, display.groups.as_slice())?;
    Ok(())
}

fn add_of_event(ids: &mut Vec<RowId>, event: &EventRow) -> Result<(), AllocError>
    ensures ids { OnOk result (ids.new.items ≡ ids.old.items ++ references (row.Event event.now)) }
    ensures short { OnOk result (All IsShort ids.old.items → All IsShort ids.new.items) }
{
    let target = target_of(event.event.target());
    add(ids, target.kind, target.id)?;
    add_daypart(ids, event.event.when())?;
    add_displays(ids, event.displays.as_slice())?;
    add_groups(ids, event.groups.as_slice())?;
    Ok(())
}

fn add_daypart(ids: &mut Vec<RowId>, when: When) -> Result<(), AllocError>
    ensures ids { OnOk result (ids.new.items ≡ ids.old.items ++ daypart_in when) }
    ensures short { OnOk result (All IsShort ids.old.items → All IsShort ids.new.items) }
{
    if let When::Named { daypart, .. } = when {
        add(ids, Kind::Daypart, daypart.0)?;
    }
    Ok(())
}

fn target_of(target: Target) -> RowId
    ensures value { result ≡ target_in target }
    ensures short { IsShort result }
{
    match target {
        Target::Layout(layout) => RowId {
            kind: Kind::Layout,
            id: layout.0,
        },
        Target::Campaign(campaign) => RowId {
            kind: Kind::Campaign,
            id: campaign.0,
        },
    }
}
