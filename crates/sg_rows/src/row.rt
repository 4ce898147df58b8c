//! The rows of a manifest's lists.

ghost use Rattle.std.specs.Prelude.{◌≡◌, ℕ, IfOk, OnOk, Result};
ghost use Rattle.serde_json.specs.Data.{Data};
ghost use Rattle.serde_json.specs.View.{view};
ghost use Rattle.sg_rows.specs.Faults.{Gives};
ghost use Rattle.sg_rows.specs.Written.{Takes, text_before};
ghost use Rattle.sg_rows.specs.declared.fault.RowFault.{RowFault};
ghost use Rattle.sg_rows.specs.declared.form.RowForm.{RowForm};

use crate::fault::RowFault;
use crate::form::RowForm;
use crate::out::TextOut;
use serde_json::Value;
use std::alloc::{AllocError, Global};

/// A row of one of a manifest's lists, in each form.
pub trait ManifestRow: Sized + Drop {
    /// The row as JSON.
    ghost json: { RowForm → Self → Data };

    /// The row that JSON says, or its first fault.
    ghost at: { RowForm → Data → Result Self RowFault };

    /// What is known of a row that was read: it is valid, and the form can say it.
    ghost valid: { RowForm → Self → Type 0 };

    /// The number by which it is known.
    ghost key: { Self → ℕ };

    fn write(&self, alloc: Global, form: RowForm) -> Result<Value, AllocError>
        ensures { IfOk result (λ v. view v ≡ json form self.now) };

    fn read(alloc: Global, form: RowForm, value: &Value) -> Result<Self, RowFault>
        ensures gives { Gives (λ x. x) result (at form (view value.now)) }
        ensures sound { IfOk result (valid form) };

    /// Writes the row's text in a form.
    fn put<O: TextOut>(&self, form: RowForm, out: &mut O) -> Result<(), O::Error>
        ensures { OnOk result (Takes O.after out.old out.new (text_before (json form self.now))) };

    fn key(&self) -> u32
        ensures { result ≡ key self.now };
}
