//! Rows of every kind, in each form.

ghost use Rattle.std.specs.Prelude.{◌≡◌, ◌≢◌, IfOk, Ok, Some};
ghost use Rattle.std.specs.Option.{option_map};
ghost use Rattle.serde_json.specs.Data.{Data};
ghost use Rattle.serde_json.specs.View.{view};
ghost use Rattle.serde_json.specs.Read.{read};
ghost use Rattle.serde_json.specs.Written.{compact_text};
ghost use Rattle.sg_base.specs.Rows.{kind_of};
ghost use Rattle.sg_rows.specs.Faults.{Gives};
ghost use Rattle.sg_rows.specs.declared.form.RowForm.{RowForm};
ghost use Rattle.sg_rows.specs.declared.form.RowForm.TheVariants.{Edit};
ghost use Rattle.sg_edit_rows.specs.EditRows.{RowView, IsRow, HasKind, row_at, row_json};
ghost use Rattle.sg_edit_rows.specs.Older.{older_json};

use crate::display::{read_display, write_display};
use crate::group::{read_group, write_group};
use crate::scheduled::{read_event, write_event, write_older_event};
use serde_json::Value;
use sg_base::{Campaign, Daypart, Kind, Layout, Listed, Row};
use sg_rows::{ManifestRow, RowFault, RowForm, write_undated};
use std::alloc::{AllocError, Global};

/// The row of a kind that JSON says in a form. It is refused with the first of its faults: `Later`, then `Shape`, then
/// that of its constructor. `NoReplace` and `Incomplete` never come.
pub fn read_row(alloc: Global, kind: Kind, form: RowForm, value: &Value) -> Result<Row, RowFault>
    requires { HasKind form kind }
    ensures gives { Gives (λ row. row) result (row_at kind form (view value.now)) }
    ensures valid { IfOk result (IsRow form) }
{
    match kind {
        Kind::Media => Ok(Row::Media(Listed::read(alloc, form, value)?)),
        Kind::Layout => Ok(Row::Layout(Layout::read(alloc, form, value)?)),
        Kind::Campaign => Ok(Row::Campaign(Campaign::read(alloc, form, value)?)),
        Kind::Daypart => Ok(Row::Daypart(Daypart::read(alloc, form, value)?)),
        Kind::Group => Ok(Row::Group(read_group(value)?)),
        Kind::Display => Ok(Row::Display(read_display(alloc, value)?)),
        Kind::Event => Ok(Row::Event(read_event(alloc, form, value)?)),
        Kind::Client => Err(RowFault::Shape),
    }
}

/// The JSON of a row in a form that can say it, which reads as that row again.
pub fn write_row(alloc: Global, row: &Row, form: RowForm) -> Result<Value, AllocError>
    requires { IsRow form row.now }
    ensures { IfOk result (λ v. view v ≡ row_json form row.now) }
{
    match row {
        Row::Media(file) => file.write(alloc, form),
        Row::Layout(layout) => layout.write(alloc, form),
        Row::Campaign(campaign) => campaign.write(alloc, form),
        Row::Daypart(daypart) => daypart.write(alloc, form),
        Row::Group(group) => write_group(alloc, *group),
        Row::Display(display) => write_display(alloc, display),
        Row::Event(event) => write_event(alloc, event, form),
    }
}

/// The JSON of a row as a server kept it before version 2; `None` where it kept no such row, and where that is the JSON
/// of today.
pub fn write_older_row(alloc: Global, row: &Row) -> Result<Option<Value>, AllocError>
    ensures { IfOk result (λ o. option_map view o ≡ older_json row.now) }
{
    match row {
        Row::Daypart(daypart) => if daypart.dates().is_empty() {
            Ok(Some(write_undated(alloc, daypart)?))
        } else {
            Ok(None)
        },
        Row::Event(event) => write_older_event(alloc, event),
        Row::Media(_) | Row::Layout(_) | Row::Campaign(_) | Row::Group(_) | Row::Display(_) => {
            Ok(None)
        }
    }
}

/// The JSON of a row, as [`write_row`] gives it, reads as that row again. It does nothing when it runs; its clause is the
/// law.
pub fn rows_again()
    ensures { (form : RowForm) (row : RowView) → IsRow form row →
        row_at (kind_of row) form (row_json form row) ≡ Ok row }
{}

/// What a server kept of a row before version 2 reads as that row again. It does nothing when it runs; its clause is the
/// law.
pub fn older_rows_again()
    ensures { (row : RowView) (json : Data) → IsRow Edit row → older_json row ≡ Some json →
        row_at (kind_of row) Edit json ≡ Ok row }
{}

/// The text of a row's JSON reads as that JSON again, and so does the text that a server kept before version 2. It does
/// nothing when it runs; its clauses are the laws.
pub fn texts_again()
    ensures now { (form : RowForm) (row : RowView) → IsRow form row →
        read (compact_text (row_json form row)) ≡ Some (row_json form row) }
    ensures older { (row : RowView) (json : Data) → IsRow Edit row → older_json row ≡ Some json →
        read (compact_text json) ≡ Some json }
{}
