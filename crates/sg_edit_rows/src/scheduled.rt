//! Scheduled events in JSON: an event with the displays and groups that it is for.

ghost use Rattle.std.specs.Prelude.{◌≡◌, ◌+◌, ◌<◌, length, IfOk};
ghost use Rattle.serde_json.specs.View.{view};
ghost use Rattle.sg_rows.specs.Faults.{Gives};
ghost use Rattle.sg_edit_rows.specs.EditRows.{scheduled_at, scheduled_json, listed_at, event_row_at, event_row_json, IsScheduled, IsListedEvent, IsEventIn};
ghost use Rattle.sg_edit_rows.specs.Older.{is_by_month_weekday, is_older_event, older_scheduled_json, older_json};
ghost use Rattle.std.specs.Option.{option_map};
ghost use Rattle.sg_base.specs.declared.row.Row.TheVariants as row_of;
ghost use Rattle.sg_rows.specs.Ids.{display_id_json, group_id_json};
ghost use Rattle.sg_rows.specs.Text.{list_of, repeat_json, target_json, when_json};

use crate::group::read_few;
use serde_json::{Value, json};
use sg_base::{Event, EventRow, Repeat, Rows, Unit};
use sg_rows::{
    ManifestRow, RowFault, RowForm, make_event, part, read_event_parts, write_list, write_repeat,
    write_target, write_when,
};
use std::alloc::{AllocError, Global};

#[tactic(auto, unfolding(crate::specs::EditRows::scheduled_at))]
fn read_scheduled(alloc: Global, value: &Value) -> Result<EventRow, RowFault>
    ensures gives { Gives (λ e. e) result (scheduled_at (view value.now)) }
    ensures sound { IfOk result IsScheduled }
{
    let parts = read_event_parts(RowForm::Edit, value)?;
    let displays = read_few(alloc, part::member(value, "displays")?)?;
    let groups = read_few(alloc, part::member(value, "groups")?)?;
    if displays.is_empty() && groups.is_empty() {
        return Err(RowFault::Shape);
    }
    let event = make_event(RowForm::Edit, parts)?;
    Ok(EventRow {
        event,
        displays,
        groups,
    })
}

/// An event of a list of a manifest, which is for nobody by itself.
fn read_listed(alloc: Global, form: RowForm, value: &Value) -> Result<EventRow, RowFault>
    ensures gives { Gives (λ e. e) result (listed_at form (view value.now)) }
    ensures sound { IfOk result (IsListedEvent form) }
{
    let event = Event::read(alloc, form, value)?;
    Ok(EventRow {
        event,
        displays: Rows::from_vec(Vec::new(alloc)),
        groups: Rows::from_vec(Vec::new(alloc)),
    })
}

/// The event that JSON says in a form.
pub(crate) fn read_event(alloc: Global, form: RowForm, value: &Value) -> Result<EventRow, RowFault>
    ensures gives { Gives (λ e. e) result (event_row_at form (view value.now)) }
    ensures sound { IfOk result (IsEventIn form) }
{
    match form {
        RowForm::Version1 | RowForm::Version2 => read_listed(alloc, form, value),
        RowForm::Edit => read_scheduled(alloc, value),
    }
}

/// The parts of a scheduled event that have lists or members of their own, as JSON.
#[derive(Drop)]
struct Parts {
    displays: Value,
    groups: Value,
    repeat: Value,
    target: Value,
    when: Value,
}

fn write_parts(alloc: Global, row: &EventRow) -> Result<Parts, AllocError>
    ensures displays { IfOk result (λ w. view w.displays ≡ list_of display_id_json row.now.displays) }
    ensures groups { IfOk result (λ w. view w.groups ≡ list_of group_id_json row.now.groups) }
    ensures repeat { IfOk result (λ w. view w.repeat ≡ repeat_json row.now.event.repeat) }
    ensures target { IfOk result (λ w. view w.target ≡ target_json row.now.event.target) }
    ensures when { IfOk result (λ w. view w.when ≡ when_json row.now.event.when) }
{
    let displays = write_list(alloc, row.displays.as_slice())?;
    let groups = write_list(alloc, row.groups.as_slice())?;
    let repeat = write_repeat(alloc, row.event.repeat())?;
    let target = write_target(alloc, row.event.target())?;
    let when = write_when(alloc, row.event.when())?;
    Ok(Parts {
        displays,
        groups,
        repeat,
        target,
        when,
    })
}

fn write_scheduled(alloc: Global, row: &EventRow) -> Result<Value, AllocError>
    ensures { IfOk result (λ v. view v ≡ scheduled_json row.now) }
{
    let parts = write_parts(alloc, row)?;
    let event = row.event;
    json!(in alloc; {
        "displays": parts.displays,
        "groups": parts.groups,
        "id": event.id().0,
        "layer": event.layer(),
        "order": event.order(),
        "priority": event.priority(),
        "repeat": parts.repeat,
        "share": event.share(),
        "target": parts.target,
        "when": parts.when
    })
}

/// The JSON of an event in a form that can say it.
pub(crate) fn write_event(alloc: Global, row: &EventRow, form: RowForm) -> Result<Value, AllocError>
    ensures { IfOk result (λ v. view v ≡ event_row_json form row.now) }
{
    match form {
        RowForm::Version1 | RowForm::Version2 => row.event.write(alloc, form),
        RowForm::Edit => write_scheduled(alloc, row),
    }
}

fn is_by_month_weekday(repeat: &Option<Repeat>) -> bool
    ensures { result ≡ is_by_month_weekday repeat.now }
{
    match repeat {
        None => false,
        Some(repeat) => repeat.unit() == Unit::MonthWeekday,
    }
}

fn is_older(event: &Event) -> bool
    ensures { result ≡ is_older_event event.now }
{
    event.layer() == 0 && !is_by_month_weekday(event.repeat())
}

fn write_older(alloc: Global, row: &EventRow) -> Result<Value, AllocError>
    ensures { IfOk result (λ v. view v ≡ older_scheduled_json row.now) }
{
    let parts = write_parts(alloc, row)?;
    let event = row.event;
    json!(in alloc; {
        "displays": parts.displays,
        "groups": parts.groups,
        "id": event.id().0,
        "order": event.order(),
        "priority": event.priority(),
        "repeat": parts.repeat,
        "share": event.share(),
        "target": parts.target,
        "when": parts.when
    })
}

/// The JSON of an event as a server kept it before version 2, if it could.
pub(crate) fn write_older_event(alloc: Global, row: &EventRow) -> Result<Option<Value>, AllocError>
    ensures { IfOk result (λ o. option_map view o ≡ older_json (row_of.Event row.now)) }
{
    if is_older(&row.event) {
        Ok(Some(write_older(alloc, row)?))
    } else {
        Ok(None)
    }
}
