//! The rows of a kind, which stand together.

ghost use Rattle.std.specs.Prelude.{◌≡◌, count_by, filter, option_map};
ghost use Rattle.std.specs.List.{AllByRecursion, find};
ghost use Rattle.sg_base.specs.Rising.{IsRising};
ghost use Rattle.sg_tables.specs.Counts.{IsBounded};
ghost use Rattle.sg_tables.specs.Entries.{number_of_kept};
ghost use Rattle.sg_tables.specs.Refusals.{is_of};
ghost use Rattle.sg_tables.specs.Rows.{id_in};
ghost use Rattle.sg_tables.specs.Tables.{is_above};

use crate::entry::Entry;
use crate::row_id::{RowId, code};
use sg_base::{Key, Kind, Sorted};

/// The rows of a kind.
pub fn of_kind(entries: &Sorted<Entry>, kind: Kind) -> &[Entry]
    requires rising { IsRising number_of_kept entries.now.items }
    requires bounded { AllByRecursion IsBounded entries.now.items }
    ensures { result.now ≡ filter (is_of kind) entries.now.items }
{
    let kind = code(kind);
    let first = Key { kind, a: 0, b: 0 };
    entries.between(first.rank(), Key::rank_after_kind(kind))
}

/// How many rows of a kind there are.
pub fn count(entries: &Sorted<Entry>, kind: Kind) -> usize
    requires rising { IsRising number_of_kept entries.now.items }
    requires bounded { AllByRecursion IsBounded entries.now.items }
    ensures { result ≡ count_by (is_of kind) entries.now.items }
{
    of_kind(entries, kind).len()
}

/// The least id of a kind above another.
pub fn next_id(entries: &Sorted<Entry>, kind: Kind, id: u32) -> Option<u32>
    requires rising { IsRising number_of_kept entries.now.items }
    requires bounded { AllByRecursion IsBounded entries.now.items }
    ensures { result
        ≡ option_map (λ e. id_in e.row) (find (is_above kind id) entries.now.items) }
{
    match above(entries, kind, id).first() {
        Some(entry) => Some(entry.id().id),
        None => None,
    }
}

// The rows of a kind above an id.
fn above(entries: &Sorted<Entry>, kind: Kind, id: u32) -> &[Entry]
    requires rising { IsRising number_of_kept entries.now.items }
    requires bounded { AllByRecursion IsBounded entries.now.items }
    ensures { result.now ≡ filter (is_above kind id) entries.now.items }
{
    let start = RowId { kind, id }.key().rank_after();
    entries.between(start, Key::rank_after_kind(code(kind)))
}
