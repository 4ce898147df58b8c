//! Who may ask what.

ghost use Rattle.std.specs.Prelude.{◌≡◌, option_map};
ghost use Rattle.std.specs.Option.{option_copied};
ghost use Rattle.sg_base.specs.declared.kind.Kind.TheVariants as kind;
ghost use Rattle.sg_own_rows.specs.Own.{display_in};
ghost use Rattle.sg_tables.specs.Refusals.{row_at};
ghost use Rattle.sg_tables.specs.Rows.{at};
ghost use Rattle.sg_answers.specs.Keys.{is_key, may_ask, opens};

use sg_base::{DisplayId, DisplayRow, Kind, Row};
use sg_routes::Asked;
use sg_tables::{RowId, Tables};

/// Whether a message with this key may ask for this: the operator for what is no display's, each display for its own.
pub fn may_ask(operator: &[u8], tables: &Tables, asked: &Asked, key: Option<&[u8]>) -> bool
    ensures { result ≡ may_ask operator.now tables.now.rows asked.now (option_map (λ k. k.now) key.entry) }
{
    match asked {
        Asked::Edits => is_key(operator, key),
        Asked::Piece { .. } => is_key(operator, key),
        Asked::Report { .. } => is_key(operator, key),
        Asked::Enrol(display) => opens(tables, *display, key),
        Asked::Manifest(display) => opens(tables, *display, key),
        Asked::File { display, .. } => opens(tables, *display, key),
        Asked::Plays(display) => opens(tables, *display, key),
    }
}

fn is_key(wanted: &[u8], key: Option<&[u8]>) -> bool
    ensures { result ≡ is_key wanted.now (option_map (λ k. k.now) key.entry) }
{
    match key {
        Some(given) => wanted == given,
        None => false,
    }
}

// Whether it is the display's key. One that isn't there has none.
fn opens(tables: &Tables, display: DisplayId, key: Option<&[u8]>) -> bool
    ensures { result ≡ opens display tables.now.rows (option_map (λ k. k.now) key.entry) }
{
    match display_row(tables, display) {
        Some(row) => is_key(row.key.as_slice(), key),
        None => false,
    }
}

fn display_row(tables: &Tables, display: DisplayId) -> Option<&DisplayRow>
    ensures { option_copied result
        ≡ display_in (row_at (at kind.Display display.0) tables.now.rows) }
{
    let id = RowId {
        kind: Kind::Display,
        id: display.0,
    };
    match tables.entry(id) {
        None => None,
        Some(entry) => match entry.row() {
            Row::Display(row) => Some(row),
            _ => None,
        },
    }
}
