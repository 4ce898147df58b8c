//! What refuses a change, looked up and not looked through.

ghost use Rattle.std.specs.Prelude.{◌≡◌, ◌<◌, ◌≤◌, ◌^◌};
ghost use Rattle.std.specs.List.{AllByRecursion, list_any};
ghost use Rattle.sg_base.specs.Faults.{first_in};
ghost use Rattle.sg_base.specs.declared.limits.TheConstants.{MAX_MEDIA_BYTES};
ghost use Rattle.sg_base.specs.Rising.{IsRising};
ghost use Rattle.sg_tables.specs.Counts.{IsBounded, counted, times_in};
ghost use Rattle.sg_tables.specs.Entries.{number_of_kept};
ghost use Rattle.sg_tables.specs.Refusals.{row_at, exists_fault, unknown_fault, reference_fault, references_fault, most_of, count_fault, bytes_of, bytes_fault, use_fault, user_fault};
ghost use Rattle.sg_tables.specs.Rows.{is_same, number_at};

use crate::change::TableRefusal;
use crate::counts::{Count, count_of};
use crate::entry::Entry;
use crate::kinds::{count, of_kind};
use crate::row_id::{RowId, code};
use sg_base::limits::{
    MAX_CAMPAIGNS, MAX_CLIENTS, MAX_DAYPARTS, MAX_DISPLAYS, MAX_EVENTS, MAX_GROUPS, MAX_LAYOUTS,
    MAX_MEDIA, MAX_MEDIA_BYTES,
};
use sg_base::{Kind, MediaId, Row, Sorted};

/// There is such a row already.
pub fn exists(entries: &Sorted<Entry>, id: RowId) -> Option<TableRefusal>
    ensures { result ≡ exists_fault id (row_at id entries.now.items) }
{
    match entries.find(id.key().rank()) {
        None => None,
        Some(_) => Some(TableRefusal::Exists {
            kind: id.kind,
            id: id.id,
        }),
    }
}

/// There is no such row.
pub fn unknown(entries: &Sorted<Entry>, id: RowId) -> Option<TableRefusal>
    ensures { result ≡ unknown_fault id (row_at id entries.now.items) }
{
    match entries.find(id.key().rank()) {
        Some(_) => None,
        None => Some(TableRefusal::Unknown {
            kind: id.kind,
            id: id.id,
        }),
    }
}

/// The first of these rows that isn't there, or isn't complete.
pub fn named(entries: &Sorted<Entry>, ids: &[RowId]) -> Option<TableRefusal>
    ensures { result ≡ references_fault entries.now.items ids.now }
{
    for id in ids {
        if let Some(fault) = named_fault(entries, *id) {
            return Some(fault);
        }
    }
    None
}

fn named_fault(entries: &Sorted<Entry>, id: RowId) -> Option<TableRefusal>
    ensures { result ≡ reference_fault id (row_at id entries.now.items) }
{
    match entries.find(id.key().rank()) {
        None => Some(TableRefusal::Unknown {
            kind: id.kind,
            id: id.id,
        }),
        Some(entry) => {
            if entry.is_complete() {
                None
            } else {
                Some(TableRefusal::Incomplete(MediaId(id.id)))
            }
        }
    }
}

/// There are as many rows of the kind as there may be.
pub fn full(entries: &Sorted<Entry>, kind: Kind) -> Option<TableRefusal>
    requires rising { IsRising number_of_kept entries.now.items }
    requires bounded { AllByRecursion IsBounded entries.now.items }
    ensures { result ≡ count_fault kind entries.now.items }
{
    let limit = most(kind);
    if count(entries, kind) < limit as usize {
        None
    } else {
        Some(TableRefusal::Full { kind, limit })
    }
}

/// With this row the media would declare too many bytes.
pub fn heavy(bytes: u64, row: &Row) -> Option<TableRefusal>
    requires { bytes ≤ MAX_MEDIA_BYTES }
    ensures { result ≡ bytes_fault row.now bytes }
{
    match row {
        Row::Media(file) => {
            if bytes + u64::from(file.length) <= MAX_MEDIA_BYTES {
                None
            } else {
                Some(TableRefusal::Full {
                    kind: Kind::Media,
                    limit: MAX_MEDIA_BYTES as u32,
                })
            }
        }
        _ => None,
    }
}

/// The bytes that a row declares: those of a medium.
pub fn declared_by(row: &Row) -> u64
    ensures value { result ≡ bytes_of row.now }
    ensures bound { result < 2 ^ 32 }
{
    match row {
        Row::Media(file) => u64::from(file.length),
        _ => 0,
    }
}

/// The first row that names another, if one does. Only then are rows looked through, kind by kind.
pub fn used(entries: &Sorted<Entry>, counts: &Sorted<Count>, id: RowId) -> Option<TableRefusal>
    requires counted { counted (number_at id) counts.now.items
        ≡ times_in (number_at id) entries.now.items }
    requires rising { IsRising number_of_kept entries.now.items }
    requires bounded { AllByRecursion IsBounded entries.now.items }
    ensures { result ≡ user_fault id entries.now.items }
{
    if count_of(counts, id) == 0 {
        return None;
    }
    if let Some(fault) = used_by(entries, Kind::Campaign, id) {
        return Some(fault);
    }
    if let Some(fault) = used_by(entries, Kind::Layout, id) {
        return Some(fault);
    }
    if let Some(fault) = used_by(entries, Kind::Event, id) {
        return Some(fault);
    }
    used_by(entries, Kind::Display, id)
}

// The first row of a kind that names another.
fn used_by(entries: &Sorted<Entry>, kind: Kind, id: RowId) -> Option<TableRefusal>
    requires rising { IsRising number_of_kept entries.now.items }
    requires bounded { AllByRecursion IsBounded entries.now.items }
    ensures { result ≡ first_in (use_fault id kind) entries.now.items }
{
    first_user(of_kind(entries, kind), kind, id)
}

fn first_user(entries: &[Entry], kind: Kind, id: RowId) -> Option<TableRefusal>
    ensures { result ≡ first_in (use_fault id kind) entries.now }
{
    for entry in entries {
        if let Some(fault) = use_of(entry, kind, id) {
            return Some(fault);
        }
    }
    None
}

fn use_of(entry: &Entry, kind: Kind, id: RowId) -> Option<TableRefusal>
    ensures { result ≡ use_fault id kind entry.now }
{
    let by = entry.id();
    if code(by.kind) == code(kind) && names(entry.references(), id) {
        Some(TableRefusal::InUse {
            kind: id.kind,
            id: id.id,
            by_kind: kind,
            by_id: by.id,
        })
    } else {
        None
    }
}

fn names(references: &[RowId], id: RowId) -> bool
    ensures { result ≡ list_any (is_same id) references.now }
{
    references.iter().any(|named| id.is_same(*named))
}

// The most rows of a kind.
fn most(kind: Kind) -> u32
    ensures { result ≡ most_of kind }
{
    match kind {
        Kind::Media => MAX_MEDIA,
        Kind::Layout => MAX_LAYOUTS,
        Kind::Campaign => MAX_CAMPAIGNS,
        Kind::Daypart => MAX_DAYPARTS,
        Kind::Group => MAX_GROUPS,
        Kind::Display => MAX_DISPLAYS,
        Kind::Event => MAX_EVENTS,
        Kind::Client => MAX_CLIENTS,
    }
}
