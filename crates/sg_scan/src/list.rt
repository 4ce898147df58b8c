//! Lists of rows, and of their parts.

ghost use Rattle.std.specs.Prelude.{IfSome};
ghost use Rattle.std.specs.List.{AllByRecursion};
ghost use Rattle.sg_rows.specs.declared.form.RowForm.{RowForm};

use crate::scan::Scan;
use sg_base::limits::{MANIFEST_EVENTS, MAX_ITEMS};
use sg_rows::RowForm;
use std::alloc::Global;

/// What may stand in a list of a row.
pub trait ScanPart: Sized + Drop {
    /// What is known of a part that was read.
    ghost valid: { Self → Type 0 };

    fn scan(alloc: Global, text: &mut Scan) -> Option<Self>
        ensures { IfSome result valid };
}

/// A row of one of a manifest's lists, in each form.
pub trait ScanRow: Sized + Drop {
    /// What is known of a row that was read: it is valid, and the form can say it.
    ghost valid: { RowForm → Self → Type 0 };

    fn scan(alloc: Global, form: RowForm, text: &mut Scan) -> Option<Self>
        ensures { IfSome result (valid form) };
}

/// The parts of a list, behind its opening bracket. No list of a row has more than a region has items.
pub(crate) fn scan_parts<T: ScanPart>(alloc: Global, text: &mut Scan) -> Option<Vec<T>>
    ensures { IfSome result (λ v. AllByRecursion T.valid v.items) }
{
    let mut parts = Vec::new(alloc);
    if text.pass(b"]").is_some() {
        return Some(parts);
    }
    for _ in 0..MAX_ITEMS {
        let part = T::scan(alloc, text)?;
        parts.push(part).ok()?;
        if text.pass(b"]").is_some() {
            return Some(parts);
        }
        text.pass(b",")?;
    }
    None
}

/// The rows of a list, behind its opening bracket. No list of a manifest has more than that of events.
pub fn scan_rows<T: ScanRow>(alloc: Global, form: RowForm, text: &mut Scan) -> Option<Vec<T>>
    ensures { IfSome result (λ v. AllByRecursion (T.valid form) v.items) }
{
    let mut rows = Vec::new(alloc);
    if text.pass(b"]").is_some() {
        return Some(rows);
    }
    for _ in 0..MANIFEST_EVENTS {
        let row = T::scan(alloc, form, text)?;
        rows.push(row).ok()?;
        if text.pass(b"]").is_some() {
            return Some(rows);
        }
        text.pass(b",")?;
    }
    None
}
