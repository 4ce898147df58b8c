//! Events in JSON.

ghost use Rattle.std.specs.Prelude.{◌≡◌, true, false, IfOk, OnOk, not, codes};
ghost use Rattle.serde_json.specs.View.{view};
ghost use Rattle.sg_rows.specs.Text.{target_json, when_json, event_json, last_members};
ghost use Rattle.sg_rows.specs.Written.{Takes, text_before, members_before};
ghost use Rattle.sg_rows.specs.Forms.{event_members, is_later_event, new_member_at, with_new};
ghost use Rattle.sg_rows.specs.declared.form.RowForm.TheVariants.{Version1, Version2};
ghost use Rattle.sg_rows.specs.Faults.{Gives, needs};
ghost use Rattle.sg_rows.specs.Rows.{IsTarget, IsWhen, IsEventParts, IsEventRow};
ghost use Rattle.sg_rows.specs.Parts.{exactly, number_at};
ghost use Rattle.sg_rows.specs.Reading.{target_at, true_at, always_at, custom_at, named_at, when_at, parts_at, made_event};
ghost use Rattle.sg_rows.specs.declared.fault.RowFault.TheVariants.{Later};

use crate::fault::RowFault;
use crate::form::RowForm;
use crate::out::TextOut;
use crate::part;
use crate::repeat::{RepeatParts, is_later, made_repeat, put_repeat, read_repeat, write_repeat};
use crate::row::ManifestRow;
use crate::writing::put_number;
use serde_json::{Value, json};
use sg_base::{CampaignId, DaypartId, Event, EventId, LayoutId, Target, When};
use std::alloc::{AllocError, Global};
use std::marker::Model;

fn read_target(value: &Value) -> Result<Target, RowFault>
    ensures gives { Gives (λ t. t) result (target_at (view value.now)) }
    ensures sound { IfOk result IsTarget }
{
    part::exactly(value, 1)?;
    if part::has(value, "layout") {
        let layout = part::id(value, "layout")?;
        Ok(Target::Layout(LayoutId(layout)))
    } else {
        let campaign = part::id(value, "campaign")?;
        Ok(Target::Campaign(CampaignId(campaign)))
    }
}

/// What an event shows, as JSON.
pub fn write_target(alloc: Global, target: Target) -> Result<Value, AllocError>
    ensures { IfOk result (λ v. view v ≡ target_json target) }
{
    match target {
        Target::Layout(layout) => json!(in alloc; {"layout": layout.0}),
        Target::Campaign(campaign) => json!(in alloc; {"campaign": campaign.0}),
    }
}

/// The one value of `always` is true.
fn is_true(value: &Value) -> Result<(), RowFault>
    ensures { Gives (λ one. one) result (true_at (view value.now)) }
{
    match value.as_bool() {
        Some(true) => Ok(()),
        _ => Err(RowFault::Shape),
    }
}

fn read_always(value: &Value) -> Result<When, RowFault>
    ensures gives { Gives (λ w. w) result (always_at (view value.now)) }
    ensures sound { IfOk result IsWhen }
{
    part::exactly(value, 1)?;
    is_true(part::member(value, "always")?)?;
    Ok(When::Always)
}

#[tactic(auto, unfolding(crate::specs::Reading::custom_at))]
fn read_custom(value: &Value) -> Result<When, RowFault>
    ensures gives { Gives (λ w. w) result (custom_at (view value.now)) }
    ensures sound { IfOk result IsWhen }
{
    part::exactly(value, 2)?;
    let from = part::number(value, "from")?;
    let to = part::number(value, "to")?;
    Ok(When::Custom { from, to })
}

#[tactic(auto, unfolding(crate::specs::Reading::named_at))]
fn read_named(value: &Value) -> Result<When, RowFault>
    ensures gives { Gives (λ w. w) result (named_at (view value.now)) }
    ensures sound { IfOk result IsWhen }
{
    part::exactly(value, 2)?;
    let date = part::number(value, "date")?;
    let daypart = part::id(value, "daypart")?;
    Ok(When::Named {
        daypart: DaypartId(daypart),
        date,
    })
}

fn read_when(value: &Value) -> Result<When, RowFault>
    ensures gives { Gives (λ w. w) result (when_at (view value.now)) }
    ensures sound { IfOk result IsWhen }
{
    if part::has(value, "always") {
        read_always(value)
    } else if part::has(value, "from") {
        read_custom(value)
    } else {
        read_named(value)
    }
}

/// When an event is shown, as JSON.
pub fn write_when(alloc: Global, when: When) -> Result<Value, AllocError>
    ensures { IfOk result (λ v. view v ≡ when_json when) }
{
    match when {
        When::Always => json!(in alloc; {"always": true}),
        When::Custom { from, to } => json!(in alloc; {"from": from, "to": to}),
        When::Named { daypart, date } => json!(in alloc; {"date": date, "daypart": daypart.0}),
    }
}

/// The values of an event, each of its form. Contracts see them as the event that they would make.
#[derive(Clone, Copy, Debug)]
pub struct EventParts {
    id: EventId,
    layer: u32,
    target: Target,
    when: When,
    repeat: Option<RepeatParts>,
    order: u32,
    priority: u32,
    share: u32,
}

impl Model for EventParts {
    ghost use Rattle.sg_base.specs.Event.{EventValue};

    ghost Value = { EventValue };

    ghost view = { λ e. record { id = e.id; layer = e.layer; target = e.target; when = e.when; repeat = e.repeat; order = e.order; priority = e.priority; share = e.share } };

    ghost inverse = { λ e. record { id = e.id; layer = e.layer; target = e.target; when = e.when; repeat = e.repeat; order = e.order; priority = e.priority; share = e.share } };
}

/// Whether an event says what only a later version than its form can.
fn is_later_event(form: RowForm, value: &Value) -> bool
    ensures { result ≡ is_later_event form (view value.now) }
{
    match form {
        RowForm::Version1 => match value.get("repeat") {
            Some(repeat) => is_later(repeat),
            None => false,
        },
        RowForm::Version2 | RowForm::Edit => false,
    }
}

fn not_later(form: RowForm, value: &Value) -> Result<(), RowFault>
    ensures gives { Gives (λ one. one) result
        (needs (not (is_later_event form (view value.now))) Later) }
    ensures now { OnOk result (is_later_event form (view value.now) ≡ false) }
{
    if is_later_event(form, value) {
        Err(RowFault::Later)
    } else {
        Ok(())
    }
}

/// The members that an event of its form has.
fn members(form: RowForm, value: &Value) -> Result<(), RowFault>
    ensures { Gives (λ one. one) result
        (exactly (with_new form (event_members form) (codes "layer") (view value.now)) (view value.now)) }
{
    let others = form.event_members();
    if form.has_new(value, "layer") {
        part::exactly(value, others + 1)
    } else {
        part::exactly(value, others)
    }
}

/// The layer, 0 where the form has none or leaves it out.
fn read_layer(form: RowForm, value: &Value) -> Result<u32, RowFault>
    ensures { Gives (λ n. n) result
        (new_member_at form number_at 0 (codes "layer") (view value.now)) }
{
    if form.has_new(value, "layer") {
        part::number(value, "layer")
    } else {
        Ok(0)
    }
}

/// The values that an event has by itself, where it is of its form. It is refused with `Later`, then with `Shape`.
#[tactic(auto, unfolding(crate::specs::Reading::parts_at))]
pub fn read_event_parts(form: RowForm, value: &Value) -> Result<EventParts, RowFault>
    ensures gives { Gives (λ e. e) result (parts_at form (view value.now)) }
    ensures sound { IfOk result (IsEventParts form) }
{
    not_later(form, value)?;
    members(form, value)?;
    let id = part::id(value, "id")?;
    let layer = read_layer(form, value)?;
    let order = part::number(value, "order")?;
    let priority = part::number(value, "priority")?;
    let repeat = read_repeat(part::member(value, "repeat")?)?;
    let share = part::number(value, "share")?;
    let target = read_target(part::member(value, "target")?)?;
    let when = read_when(part::member(value, "when")?)?;
    Ok(EventParts {
        id: EventId(id),
        layer,
        target,
        when,
        repeat,
        order,
        priority,
        share,
    })
}

/// The event that values make. The fault of its repeat comes before its own.
#[tactic(auto, using(crate::proofs::EventLemmas::layer_allowed))]
pub fn make_event(form: RowForm, parts: EventParts) -> Result<Event, RowFault>
    requires { IsEventParts form parts }
    ensures gives { Gives (λ e. e) result (made_event parts) }
    ensures sound { IfOk result (IsEventRow form) }
{
    let repeat = made_repeat(parts.repeat)?;
    match Event::new(
        parts.id,
        parts.layer,
        parts.target,
        parts.when,
        repeat,
        parts.order,
        parts.priority,
        parts.share,
    ) {
        Ok(event) => Ok(event),
        Err(fault) => Err(RowFault::Event(fault)),
    }
}

fn write_flat(alloc: Global, event: &Event) -> Result<Value, AllocError>
    ensures { IfOk result (λ v. view v ≡ event_json Version1 event.now) }
{
    let repeat = write_repeat(alloc, event.repeat())?;
    let target = write_target(alloc, event.target())?;
    let when = write_when(alloc, event.when())?;
    json!(in alloc; {
        "id": event.id().0,
        "order": event.order(),
        "priority": event.priority(),
        "repeat": repeat,
        "share": event.share(),
        "target": target,
        "when": when
    })
}

fn write_layered(alloc: Global, event: &Event) -> Result<Value, AllocError>
    ensures { IfOk result (λ v. view v ≡ event_json Version2 event.now) }
{
    let repeat = write_repeat(alloc, event.repeat())?;
    let target = write_target(alloc, event.target())?;
    let when = write_when(alloc, event.when())?;
    json!(in alloc; {
        "id": event.id().0,
        "layer": event.layer(),
        "order": event.order(),
        "priority": event.priority(),
        "repeat": repeat,
        "share": event.share(),
        "target": target,
        "when": when
    })
}

/// Writes what an event shows.
#[tactic(auto, unfolding(json::specs::Print::escape_byte))]
fn put_target<O: TextOut>(out: &mut O, target: Target) -> Result<(), O::Error>
    ensures { OnOk result (Takes O.after out.old out.new (text_before (target_json target))) }
{
    match target {
        Target::Layout(layout) => {
            put_number(out, b"{\"layout\":", layout.0)?;
            out.put(b"}")
        }
        Target::Campaign(campaign) => {
            put_number(out, b"{\"campaign\":", campaign.0)?;
            out.put(b"}")
        }
    }
}

/// Writes when an event is shown.
#[tactic(auto, unfolding(json::specs::Print::escape_byte))]
fn put_when<O: TextOut>(out: &mut O, when: When) -> Result<(), O::Error>
    ensures { OnOk result (Takes O.after out.old out.new (text_before (when_json when))) }
{
    match when {
        When::Always => out.put(b"{\"always\":true}"),
        When::Custom { from, to } => {
            put_number(out, b"{\"from\":", from)?;
            put_number(out, b",\"to\":", to)?;
            out.put(b"}")
        }
        When::Named { daypart, date } => {
            put_number(out, b"{\"date\":", date)?;
            put_number(out, b",\"daypart\":", daypart.0)?;
            out.put(b"}")
        }
    }
}

/// Writes the members of an event behind its id and its layer.
#[tactic(auto, unfolding(json::specs::Print::escape_byte))]
fn put_last<O: TextOut>(out: &mut O, event: &Event) -> Result<(), O::Error>
    ensures { OnOk result (Takes O.after out.old out.new (members_before true (last_members event.now))) }
{
    put_number(out, b",\"order\":", event.order())?;
    put_number(out, b",\"priority\":", event.priority())?;
    out.put(b",\"repeat\":")?;
    put_repeat(out, event.repeat())?;
    put_number(out, b",\"share\":", event.share())?;
    out.put(b",\"target\":")?;
    put_target(out, event.target())?;
    out.put(b",\"when\":")?;
    put_when(out, event.when())?;
    out.put(b"}")?;
    Ok(())
}

#[tactic(auto, unfolding(json::specs::Print::escape_byte))]
fn put_flat<O: TextOut>(out: &mut O, event: &Event) -> Result<(), O::Error>
    ensures { OnOk result (Takes O.after out.old out.new (text_before (event_json Version1 event.now))) }
{
    put_number(out, b"{\"id\":", event.id().0)?;
    put_last(out, event)?;
    Ok(())
}

#[tactic(auto, unfolding(json::specs::Print::escape_byte))]
fn put_layered<O: TextOut>(out: &mut O, event: &Event) -> Result<(), O::Error>
    ensures { OnOk result (Takes O.after out.old out.new (text_before (event_json Version2 event.now))) }
{
    put_number(out, b"{\"id\":", event.id().0)?;
    put_number(out, b",\"layer\":", event.layer())?;
    put_last(out, event)?;
    Ok(())
}

#[tactic(auto, unfolding(crate::specs::Reading::event_at))]
impl ManifestRow for Event {
    ghost use Rattle.sg_rows.specs.Text.{event_json};
    ghost use Rattle.sg_rows.specs.Reading.{event_at};
    ghost use Rattle.sg_rows.specs.Rows.{IsEventRow};

    ghost json = { event_json };

    ghost at = { event_at };

    ghost valid = { IsEventRow };

    ghost key = { λ e. e.id.0 };

    fn write(&self, alloc: Global, form: RowForm) -> Result<Value, AllocError> {
        match form {
            RowForm::Version1 => write_flat(alloc, self),
            RowForm::Version2 | RowForm::Edit => write_layered(alloc, self),
        }
    }

    fn read(_alloc: Global, form: RowForm, value: &Value) -> Result<Event, RowFault> {
        let parts = read_event_parts(form, value)?;
        make_event(form, parts)
    }

    fn key(&self) -> u32 {
        self.id().0
    }

    fn put<O: TextOut>(&self, form: RowForm, out: &mut O) -> Result<(), O::Error> {
        match form {
            RowForm::Version1 => put_flat(out, self),
            RowForm::Version2 | RowForm::Edit => put_layered(out, self),
        }
    }
}
