//! What rows name, as ascending numbers in which each row has one.

ghost use Rattle.std.specs.Prelude.{◌≡◌, List, [], ◌∷◌, ◌++◌, map, All, OnOk};
ghost use Rattle.std.specs.List.{list_any};
ghost use Rattle.std.specs.List.Sorted.{IsNonDecreasing};
ghost use Rattle.sg_base.specs.declared.kind.Kind.TheVariants as kind;
ghost use Rattle.sg_own_rows.specs.Numbers.{number_of_row, has_number, IsListOf, picked, naming};
ghost use Rattle.sg_own_rows.specs.Own.{named_by};
ghost use Rattle.sg_tables.specs.declared.row_id.RowId.{RowId as Id};
ghost use Rattle.sg_tables.specs.Counts.{IsShort};
ghost use Rattle.sg_tables.specs.Rows.{at, id_of, references};

use sg_base::{GroupId, Kind};
use sg_tables::{Entry, RowId};
use std::alloc::AllocError;

// The number of a row: its kind above the 32 bits of its id.
fn number(id: RowId) -> u64
    ensures { result ≡ number_of_row id }
{
    (u64::from(id.key().kind) << 32) | u64::from(id.id)
}

/// Whether a row is one of these.
pub fn has(numbers: &[u64], id: RowId) -> bool
    requires { IsNonDecreasing numbers.now }
    ensures { result ≡ has_number numbers.now id }
{
    numbers.binary_search(&number(id)).is_ok()
}

/// Whether a row names one of these.
pub fn names_one(numbers: &[u64], entry: &Entry) -> bool
    requires { IsNonDecreasing numbers.now }
    ensures { result ≡ list_any (has_number numbers.now) (references entry.now.row) }
{
    entry.references().iter().any(|id| has(numbers, *id))
}

/// Adds a row.
pub fn add(numbers: &mut Vec<u64>, id: RowId) -> Result<(), AllocError>
    ensures { OnOk result (numbers.new.items ≡ numbers.old.items ++ number_of_row id ∷ []) }
{
    numbers.push(number(id))?;
    Ok(())
}

/// Adds groups.
pub fn add_groups(numbers: &mut Vec<u64>, groups: &[GroupId]) -> Result<(), AllocError>
    ensures { OnOk result (numbers.new.items
        ≡ numbers.old.items ++ map number_of_row (map (λ group. at kind.Group group.0) groups.now)) }
{
    for group in groups {
        let id = RowId {
            kind: Kind::Group,
            id: group.0,
        };
        add(numbers, id)?;
    }
    Ok(())
}

/// Adds all that a row names.
pub fn add_references(numbers: &mut Vec<u64>, entry: &Entry) -> Result<(), AllocError>
    ensures { OnOk result (numbers.new.items
        ≡ numbers.old.items ++ map number_of_row (references entry.now.row)) }
{
    for id in entry.references() {
        add(numbers, *id)?;
    }
    Ok(())
}

/// Adds all that those of these rows name that are among some.
pub fn add_named(numbers: &mut Vec<u64>, entries: &[Entry], among: &[u64]) -> Result<(), AllocError>
    requires { IsNonDecreasing among.now }
    ensures { OnOk result (numbers.new.items
        ≡ numbers.old.items ++ map number_of_row (named_by (picked among.now entries.now))) }
{
    for entry in entries {
        if has(among, entry.id()) {
            add_references(numbers, entry)?;
        }
    }
    Ok(())
}

/// Adds all that those of these rows name that name one of some.
pub fn add_naming(numbers: &mut Vec<u64>, entries: &[Entry], some: &[u64]) -> Result<(), AllocError>
    requires { IsNonDecreasing some.now }
    ensures { OnOk result (numbers.new.items
        ≡ numbers.old.items ++ map number_of_row (named_by (naming some.now entries.now))) }
{
    for entry in entries {
        if names_one(some, entry) {
            add_references(numbers, entry)?;
        }
    }
    Ok(())
}

/// Puts the numbers in order, so that rows are looked up among them.
pub fn order(numbers: &mut Vec<u64>)
    ensures sorted { IsNonDecreasing numbers.new.items }
    ensures list { (ids : List Id) → All IsShort ids → numbers.old.items ≡ map number_of_row ids
        → IsListOf ids numbers.new.items }
{
    numbers.sort_unstable();
}
