//! What edits ask.

ghost use Rattle.std.specs.Prelude.{◌≡◌, ◌≢◌, IfOk, IfSome};
ghost use Rattle.serde_json.specs.View.{view};
ghost use Rattle.sg_base.specs.declared.kind.Kind.TheVariants as of_kind;
ghost use Rattle.sg_steps.specs.Edits.{IsEdit, edit_at, edit_in, edit_of, kind_at, kind_of_rows};
ghost use Rattle.sg_records.specs.Reading.{kind_named};
ghost use Rattle.sg_rows.specs.Faults.{Gives};

use serde_json::Value;
use sg_base::{Kind, Row};
use sg_edit_rows::read_row;
use sg_records::kind_named;
use sg_rows::{RowFault, RowForm, part};
use std::alloc::{AllocError, Global};

/// What a client asks: one change of a row, or one that its own fault refuses.
#[derive(Debug, Drop)]
pub enum Edit {
    /// A row that isn't there comes in.
    Insert(Row),
    /// A row takes the place of the one with its kind and id.
    Replace(Row),
    Remove(Kind, u32),
    /// The row, or the edit itself, has this fault, which is no want of memory.
    Faulty(RowFault),
}

/// The edit that JSON says. One that isn't of its form is faulty, and so is one whose row has a fault of its own.
pub fn read_edit(alloc: Global, value: &Value) -> Result<Edit, AllocError>
    ensures edit { IfOk result (λ edit. edit ≡ edit_at (view value.now)) }
    ensures valid { IfOk result IsEdit }
{
    match read(alloc, value) {
        Ok(edit) => Ok(edit),
        Err(RowFault::Memory) => Err(AllocError),
        Err(fault) => Ok(Edit::Faulty(fault)),
    }
}

#[tactic(auto, unfolding(crate::specs::Edits::edit_in))]
fn read(alloc: Global, value: &Value) -> Result<Edit, RowFault>
    ensures gives { Gives (λ e. e) result (edit_in (view value.now)) }
    ensures valid { IfOk result IsEdit }
{
    part::exactly(value, 3)?;
    let kind = read_kind(part::member(value, "kind")?)?;
    let op = part::text(part::member(value, "op")?)?;
    read_op(alloc, value, kind, op)
}

fn read_kind(value: &Value) -> Result<Kind, RowFault>
    ensures gives { Gives (λ kind. kind) result (kind_at (view value.now)) }
    ensures rows { IfOk result (λ kind. kind ≢ of_kind.Client) }
{
    match kind_of(part::text(value)?) {
        Some(kind) => Ok(kind),
        None => Err(RowFault::Shape),
    }
}

// The kind of rows of this name.
fn kind_of(name: &str) -> Option<Kind>
    ensures value { result ≡ kind_of_rows (kind_named name.now) }
    ensures rows { IfSome result (λ kind. kind ≢ of_kind.Client) }
{
    match kind_named(name) {
        Some(Kind::Client) | None => None,
        Some(kind) => Some(kind),
    }
}

// An edit by the name of what it does.
fn read_op(alloc: Global, value: &Value, kind: Kind, op: &str) -> Result<Edit, RowFault>
    requires { kind ≢ of_kind.Client }
    ensures gives { Gives (λ e. e) result (edit_of (view value.now) kind op.now) }
    ensures valid { IfOk result IsEdit }
{
    if op == "insert" {
        let row = read_row(alloc, kind, RowForm::Edit, part::member(value, "row")?)?;
        Ok(Edit::Insert(row))
    } else if op == "replace" {
        let row = read_row(alloc, kind, RowForm::Edit, part::member(value, "row")?)?;
        Ok(Edit::Replace(row))
    } else if op == "remove" {
        let id = part::id(value, "id")?;
        Ok(Edit::Remove(kind, id))
    } else {
        Err(RowFault::Shape)
    }
}
