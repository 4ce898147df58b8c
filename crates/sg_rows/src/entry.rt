//! Entries and lists of entries, from JSON and to it.

ghost use Rattle.std.specs.Prelude.{◌≡◌, ℕ, IfOk, OnOk, Result};
ghost use Rattle.std.specs.List.{AllByRecursion};
ghost use Rattle.serde_json.specs.Data.{Data};
ghost use Rattle.serde_json.specs.View.{view, items_view};
ghost use Rattle.sg_rows.specs.Faults.{Gives};
ghost use Rattle.sg_rows.specs.Parts.{list_at};
ghost use Rattle.sg_rows.specs.Text.{list_of};
ghost use Rattle.sg_rows.specs.Written.{Takes, text_before};
ghost use Rattle.sg_rows.specs.declared.fault.RowFault.{RowFault};

use crate::fault::RowFault;
use crate::out::TextOut;
use crate::part;
use serde_json::Value;
use std::alloc::{AllocError, Global};

/// What may stand in a list of JSON: a row, or a part of one.
pub trait Entry: Sized + Drop {
    /// The entry as JSON.
    ghost json: { Self → Data };

    /// The entry that JSON says, or its first fault.
    ghost at: { Data → Result Self RowFault };

    /// What is known of an entry that was read.
    ghost valid: { Self → Type 0 };

    fn write(&self, alloc: Global) -> Result<Value, AllocError>
        ensures { IfOk result (λ v. view v ≡ json self.now) };

    fn read(alloc: Global, value: &Value) -> Result<Self, RowFault>
        ensures gives { Gives (λ x. x) result (at (view value.now)) }
        ensures sound { IfOk result valid };

    /// Writes the entry's text.
    fn put<O: TextOut>(&self, out: &mut O) -> Result<(), O::Error>
        ensures { OnOk result (Takes O.after out.old out.new (text_before (json self.now))) };
}

/// A row that is known by a number.
pub trait Keyed: Entry {
    /// The number.
    ghost key: { Self → ℕ };

    fn key(&self) -> u32
        ensures { result ≡ key self.now };
}

/// Writes each entry, in one pass.
pub fn write_list<T: Entry>(alloc: Global, rows: &[T]) -> Result<Value, AllocError>
    ensures { IfOk result (λ v. view v ≡ list_of T.json rows.now) }
{
    let mut values = Vec::new(alloc);
    for row in rows {
        values.push(row.write(alloc)?)?;
    }
    Ok(Value::Array(values))
}

/// Reads each entry, in one pass. It is refused with `Shape` where there is no list, and else with the first fault of an
/// entry.
pub fn read_list<T: Entry>(alloc: Global, value: &Value) -> Result<Vec<T>, RowFault>
    ensures gives { Gives (λ v. v.items) result (list_at T.at (view value.now)) }
    ensures sound { IfOk result (λ v. AllByRecursion T.valid v.items) }
{
    let items = part::items(value)?;
    let mut rows = Vec::new(alloc);
    for item in items {
        rows.push(T::read(alloc, item)?)?;
    }
    Ok(rows)
}
