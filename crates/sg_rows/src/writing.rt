//! The pieces of a row's text, written with no tree of JSON.

ghost use Rattle.std.specs.Prelude.{◌≡◌, ◌++◌, false, map, decimal, OnOk};
ghost use Rattle.serde_json.specs.View.{items_of};
ghost use Rattle.serde_json.specs.Written.{comma_if};
ghost use Rattle.sg_rows.specs.Written.{Takes, text_before, items_before};

use crate::entry::Entry;
use crate::form::RowForm;
use crate::out::TextOut;
use crate::row::ManifestRow;
use itoa::Buffer;

/// Writes a piece and a number.
pub fn put_number<O: TextOut>(out: &mut O, piece: &[u8], number: u32) -> Result<(), O::Error>
    ensures { OnOk result (Takes O.after out.old out.new
        (λ rest. piece.now ++ (decimal number ++ rest))) }
{
    let mut digits = Buffer::new();
    out.put(piece)?;
    out.put(digits.format(number).as_bytes())
}

/// Writes a comma where something stands before.
fn put_comma<O: TextOut>(out: &mut O, later: bool) -> Result<(), O::Error>
    ensures { OnOk result (Takes O.after out.old out.new (λ rest. comma_if later ++ rest)) }
{
    if later { out.put(b",") } else { Ok(()) }
}

pub(crate) fn put_item<T: Entry, O: TextOut>(
    out: &mut O,
    later: bool,
    row: &T,
) -> Result<(), O::Error>
    ensures { OnOk result (Takes O.after out.old out.new
        (λ rest. comma_if later ++ text_before (T.json row.now) rest)) }
{
    put_comma(out, later)?;
    row.put(out)
}

/// Writes a piece, which opens a list, and the entries of the list.
pub(crate) fn put_list<T: Entry, O: TextOut>(
    out: &mut O,
    piece: &[u8],
    rows: &[T],
) -> Result<(), O::Error>
    ensures { OnOk result (Takes O.after out.old out.new
        (λ rest. piece.now ++ items_before false (items_of (map T.json rows.now)) rest)) }
{
    out.put(piece)?;
    let mut later = false;
    for row in rows {
        put_item(out, later, row)?;
        later = true;
    }
    out.put(b"]")
}

fn put_row<T: ManifestRow, O: TextOut>(
    out: &mut O,
    later: bool,
    form: RowForm,
    row: &T,
) -> Result<(), O::Error>
    ensures { OnOk result (Takes O.after out.old out.new
        (λ rest. comma_if later ++ text_before (T.json form row.now) rest)) }
{
    put_comma(out, later)?;
    row.put(form, out)
}

/// Writes a piece, which opens a list, and the rows of the list.
pub fn put_rows<T: ManifestRow, O: TextOut>(
    out: &mut O,
    piece: &[u8],
    form: RowForm,
    rows: &[T],
) -> Result<(), O::Error>
    ensures { OnOk result (Takes O.after out.old out.new
        (λ rest. piece.now ++ items_before false (items_of (map (T.json form) rows.now)) rest)) }
{
    out.put(piece)?;
    let mut later = false;
    for row in rows {
        put_row(out, later, form, row)?;
        later = true;
    }
    out.put(b"]")
}
