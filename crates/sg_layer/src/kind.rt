//! The kinds of event, and the order of each.

ghost use Rattle.std.specs.Prelude.{◌≡◌, filter, IfOk, OnOk};
ghost use Rattle.sg_layer.specs.Kinds.{is_of, by_order, events_of};

use sg_base::Event;
use std::alloc::{AllocError, Global};

/// What an event is for.
#[derive(Clone, Copy, Debug, PartialEq, Eq)]
pub enum Kind {
    /// It takes its turn in the picture.
    Normal,
    /// It has a share of each hour of the picture.
    Interrupt,
    /// It is shown above the picture.
    Overlay,
}

/// Of events by id those of a kind, in the kind's order: interrupts by id, others by order and id.
pub fn events_of(alloc: Global, events: &[Event], kind: Kind) -> Result<Vec<Event>, AllocError>
    ensures { IfOk result (λ v. v.items ≡ events_of kind events.now) }
{
    let mut chosen = chosen(alloc, events, kind)?;
    match kind {
        Kind::Normal | Kind::Overlay => sort(&mut chosen)?,
        Kind::Interrupt => {}
    }
    Ok(chosen)
}

// The events of a kind.
fn chosen(alloc: Global, events: &[Event], kind: Kind) -> Result<Vec<Event>, AllocError>
    ensures { IfOk result (λ v. v.items ≡ filter (is_of kind) events.now) }
{
    let mut chosen = Vec::new(alloc);
    for event in events {
        if is_of(event, kind) {
            chosen.push(*event)?;
        }
    }
    Ok(chosen)
}

// Whether an event is of a kind.
fn is_of(event: &Event, kind: Kind) -> bool
    ensures { result ≡ is_of kind event.now }
{
    match kind {
        Kind::Normal => event.layer() == 0 && event.share() == 0,
        Kind::Interrupt => event.layer() == 0 && event.share() > 0,
        Kind::Overlay => event.layer() == 1,
    }
}

// Puts events in order; those of one order stay as they stand.
fn sort(events: &mut Vec<Event>) -> Result<(), AllocError>
    ensures { OnOk result (events.new.items ≡ by_order events.old.items) }
{
    events.sort_by_key(|event| event.order())?;
    Ok(())
}
