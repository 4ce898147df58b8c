//! The tables.

ghost use Rattle.std.specs.Prelude.{◌≡◌, ◌≢◌, ◌≤◌, ◌<◌, false, Some, None, [], length, IfOk, OnOk, IfErr, option_map, filter};
ghost use Rattle.std.specs.List.{AllByRecursion, find};
ghost use Rattle.std.specs.Option.{option_copied};
ghost use Rattle.sg_base.specs.Rising.{IsRising, put, without};
ghost use Rattle.sg_base.specs.declared.kind.Kind.TheVariants as kind;
ghost use Rattle.sg_base.specs.declared.limits.TheConstants.{MAX_MEDIA_BYTES};
ghost use Rattle.sg_tables.specs.declared.change.TableRefusal.TheVariants.{Memory};
ghost use Rattle.sg_tables.specs.Counts.{AreCounted, IsBounded, counted, times_in};
ghost use Rattle.sg_tables.specs.Entries.{IsAsked, after, is_complete, is_media, number_of_kept};
ghost use Rattle.sg_tables.specs.Refusals.{AreClosed, declared, is_of, refusal, row_at};
ghost use Rattle.sg_tables.specs.Rows.{at, id_in, number_at, references};
ghost use Rattle.sg_tables.specs.Tables.{IsPrepared, change_of, file_in, file_of, holding, is_above, whole, with_medium};

use crate::change::{TableChange, TableRefusal};
use crate::counts::{Count, add_all, take_all};
use crate::entry::Entry;
use crate::faults::{declared_by, exists, full, heavy, named, unknown, used};
use crate::kinds::{next_id, of_kind};
use crate::prepared::Prepared;
use crate::row_id::RowId;
use sg_base::{Kind, Listed, MediaId, Row, Sorted};
use std::alloc::Global;
use std::marker::Model;

/// The rows of the server.
#[derive(Drop)]
pub struct Tables {
    alloc: Global,
    entries: Sorted<Entry>,
    counts: Sorted<Count>,
    // what the media declare together
    bytes: u64,
}

impl Model for Tables {
    ghost use Rattle.sg_tables.specs.Tables.{Filled};
    ghost use Rattle.sg_tables.specs.Counts.{AreCounted};

    ghost Value = { Filled };

    ghost view = { λ t. record {
      rows = t.entries.items;
      room = t.entries.room;
      counts_room = t.counts.room;
    } };

    ghost invariant = { λ t. AreCounted t.entries.items t.counts.items t.bytes };
}

impl Tables {
    /// No row. It takes no memory.
    pub fn new(alloc: Global) -> Tables
        ensures { result.rows ≡ [] }
    {
        Tables {
            alloc,
            entries: Sorted::new(alloc),
            counts: Sorted::new(alloc),
            bytes: 0,
        }
    }

    /// Makes room for a change, or says why it is refused. The rows stay as they are.
    pub fn prepare(&mut self, change: &TableChange) -> Result<Prepared, TableRefusal>
        requires { IsAsked change.now }
        ensures prepared { IfOk result (λ p. IsPrepared self.new p) }
        ensures change { IfOk result (λ p. change_of p ≡ change.now) }

        // Any refusal but want of memory is the first of those that are defined.
        ensures refused { IfErr result (λ fault.
            fault ≢ Memory → refusal self.old.rows change.now ≡ Some fault) }
        ensures rows { self.new.rows ≡ self.old.rows }
    {
        match change {
            TableChange::Insert(row) => self.prepare_insert(row),
            TableChange::Replace(row) => self.prepare_replace(row),
            TableChange::Remove(kind, id) => self.prepare_remove(*kind, *id),
        }
    }

    /// Makes room for a row that comes in, as `prepare` does.
    pub fn prepare_insert(&mut self, row: &Row) -> Result<Prepared, TableRefusal>
        ensures prepared { IfOk result (λ p. IsPrepared self.new p) }
        ensures change { IfOk result (λ p. change_of p ≡ TableChange.Insert row.now) }
        ensures refused { IfErr result (λ fault.
            fault ≢ Memory → refusal self.old.rows (TableChange.Insert row.now) ≡ Some fault) }
        ensures rows { self.new.rows ≡ self.old.rows }
    {
        let entry = Entry::fresh(self.alloc, row.clone()?)?;
        if let Some(fault) = insert_fault(&self.entries, self.bytes, &entry) {
            return Err(fault);
        }
        self.entries.reserve(1)?;
        self.counts.reserve(entry.references().len())?;
        Ok(Prepared::Insert(entry))
    }

    /// Makes room for a row that takes the place of another, as `prepare` does.
    pub fn prepare_replace(&mut self, row: &Row) -> Result<Prepared, TableRefusal>
        requires { is_media row.now ≡ false }
        ensures prepared { IfOk result (λ p. IsPrepared self.new p) }
        ensures change { IfOk result (λ p. change_of p ≡ TableChange.Replace row.now) }
        ensures refused { IfErr result (λ fault.
            fault ≢ Memory → refusal self.old.rows (TableChange.Replace row.now) ≡ Some fault) }
        ensures rows { self.new.rows ≡ self.old.rows }
    {
        let entry = Entry::fresh(self.alloc, row.clone()?)?;
        if let Some(fault) = replace_fault(&self.entries, &entry) {
            return Err(fault);
        }
        self.counts.reserve(entry.references().len())?;
        Ok(Prepared::Replace(entry))
    }

    /// Finds whether a row may go, as `prepare` does.
    pub fn prepare_remove(&mut self, kind: Kind, id: u32) -> Result<Prepared, TableRefusal>
        ensures prepared { IfOk result (λ p. IsPrepared self.new p) }
        ensures change { IfOk result (λ p. change_of p ≡ TableChange.Remove kind id) }
        ensures refused { IfErr result (λ fault.
            fault ≢ Memory → refusal self.old.rows (TableChange.Remove kind id) ≡ Some fault) }
        ensures rows { self.new.rows ≡ self.old.rows }
    {
        match remove_fault(&self.entries, &self.counts, RowId { kind, id }) {
            Some(fault) => Err(fault),
            None => Ok(Prepared::Remove(kind, id)),
        }
    }

    /// Makes a prepared change. It takes no memory.
    pub fn commit(&mut self, prepared: Prepared)
        requires { IsPrepared self.old prepared }
        ensures { self.new.rows ≡ after self.old.rows (change_of prepared) }
    {
        match prepared {
            Prepared::Insert(entry) => {
                insert(&mut self.entries, &mut self.counts, &mut self.bytes, entry);
            }
            Prepared::Replace(entry) => {
                replace(&mut self.entries, &mut self.counts, self.bytes, entry);
            }
            Prepared::Remove(kind, id) => {
                let id = RowId { kind, id };
                remove(&mut self.entries, &mut self.counts, &mut self.bytes, id);
            }
        }
    }

    /// The row of an id, as it is kept.
    pub fn entry(&self, id: RowId) -> Option<&Entry>
        ensures { option_copied result ≡ row_at id self.now.rows }
    {
        self.entries.find(id.key().rank())
    }

    /// The row of a kind and an id.
    pub fn row(&self, kind: Kind, id: u32) -> Option<&Row>
        ensures { option_copied result
            ≡ option_map (λ e. e.row) (row_at (at kind id) self.now.rows) }
    {
        match self.entry(RowId { kind, id }) {
            Some(entry) => Some(entry.row()),
            None => None,
        }
    }

    /// The rows of a kind, by id. All rows stand by key, and what a row names is among them.
    pub fn rows_of(&self, kind: Kind) -> &[Entry]
        ensures value { result.now ≡ filter (is_of kind) self.now.rows }
        ensures rising { IsRising number_of_kept self.now.rows }
        ensures closed { AreClosed self.now.rows }
        ensures bounded { AllByRecursion IsBounded self.now.rows }
    {
        of_kind(&self.entries, kind)
    }

    /// The least id of a kind above another.
    pub fn after(&self, kind: Kind, id: u32) -> Option<u32>
        ensures { result ≡ option_map (λ e. id_in e.row) (find (is_above kind id) self.now.rows) }
    {
        next_id(&self.entries, kind, id)
    }

    /// Whether there is such a medium and it is complete.
    pub fn is_complete(&self, media: MediaId) -> bool
        ensures { result ≡ is_complete (row_at (at kind.Media media.0) self.now.rows) }
    {
        let id = RowId {
            kind: Kind::Media,
            id: media.0,
        };
        match self.entry(id) {
            Some(entry) => entry.is_complete(),
            None => false,
        }
    }

    /// Says how many bytes of a medium have come, which isn't complete then. It takes no memory.
    pub fn receive(&mut self, media: MediaId, received: u32)
        requires { row_at (at kind.Media media.0) self.old.rows ≢ None }
        ensures { self.new.rows ≡ with_medium (holding received) media self.old.rows }
    {
        if let Some(file) = medium_of(&self.entries, media) {
            self.entries
                .replace(Entry::medium(self.alloc, file, received, false));
        }
    }

    /// Says that a medium is complete. It takes no memory.
    pub fn complete(&mut self, media: MediaId)
        requires { row_at (at kind.Media media.0) self.old.rows ≢ None }
        ensures { self.new.rows ≡ with_medium whole media self.old.rows }
    {
        if let Some(file) = medium_of(&self.entries, media) {
            self.entries
                .replace(Entry::medium(self.alloc, file, file.length, true));
        }
    }
}

// The file of a medium; `None` only if there is no such medium.
fn medium_of(entries: &Sorted<Entry>, media: MediaId) -> Option<Listed>
    requires { AllByRecursion IsBounded entries.now.items }
    ensures file { result ≡ file_in (row_at (at kind.Media media.0) entries.now.items) }
    ensures missing { result ≡ None → row_at (at kind.Media media.0) entries.now.items ≡ None }
{
    let id = RowId {
        kind: Kind::Media,
        id: media.0,
    };
    match entries.find(id.key().rank()) {
        Some(entry) => file_of(entry.row()),
        None => None,
    }
}

fn file_of(row: &Row) -> Option<Listed>
    ensures { result ≡ file_of row.now }
{
    match row {
        Row::Media(file) => Some(*file),
        _ => None,
    }
}

// Why a row can't come in.
fn insert_fault(entries: &Sorted<Entry>, bytes: u64, entry: &Entry) -> Option<TableRefusal>
    requires rising { IsRising number_of_kept entries.now.items }
    requires bounded { AllByRecursion IsBounded entries.now.items }
    requires bytes { bytes ≡ declared entries.now.items }
    requires light { bytes ≤ MAX_MEDIA_BYTES }
    ensures { result ≡ refusal entries.now.items (TableChange.Insert entry.now.row) }
{
    let id = entry.id();
    if let Some(fault) = exists(entries, id) {
        return Some(fault);
    }
    if let Some(fault) = named(entries, entry.references()) {
        return Some(fault);
    }
    if let Some(fault) = full(entries, id.kind) {
        return Some(fault);
    }
    heavy(bytes, entry.row())
}

// Why a row can't take the place of another.
fn replace_fault(entries: &Sorted<Entry>, entry: &Entry) -> Option<TableRefusal>
    ensures { result ≡ refusal entries.now.items (TableChange.Replace entry.now.row) }
{
    if let Some(fault) = unknown(entries, entry.id()) {
        return Some(fault);
    }
    named(entries, entry.references())
}

// Why a row can't go.
fn remove_fault(entries: &Sorted<Entry>, counts: &Sorted<Count>, id: RowId) -> Option<TableRefusal>
    requires counted { counted (number_at id) counts.now.items
        ≡ times_in (number_at id) entries.now.items }
    requires rising { IsRising number_of_kept entries.now.items }
    requires bounded { AllByRecursion IsBounded entries.now.items }
    ensures { result ≡ refusal entries.now.items (TableChange.Remove id.kind id.id) }
{
    if let Some(fault) = unknown(entries, id) {
        return Some(fault);
    }
    used(entries, counts, id)
}

// Puts a row that isn't there.
fn insert(entries: &mut Sorted<Entry>, counts: &mut Sorted<Count>, bytes: &mut u64, entry: Entry)
    requires counted { AreCounted entries.old.items counts.old.items bytes.old }
    requires allowed { refusal entries.old.items (TableChange.Insert entry.row) ≡ None }
    requires room { 0 < entries.old.room }
    requires counts_room { length (references entry.row) ≤ counts.old.room }
    ensures rows { entries.new.items ≡ put number_of_kept entry entries.old.items }
    ensures counted { AreCounted entries.new.items counts.new.items bytes.new }
{
    add_all(counts, entry.references());
    *bytes += declared_by(entry.row());
    entries.put(entry);
}

// Puts a row in place of the one with its id.
fn replace(entries: &mut Sorted<Entry>, counts: &mut Sorted<Count>, bytes: u64, entry: Entry)
    requires counted { AreCounted entries.old.items counts.old.items bytes }
    requires asked { is_media entry.row ≡ false }
    requires allowed { refusal entries.old.items (TableChange.Replace entry.row) ≡ None }
    requires counts_room { length (references entry.row) ≤ counts.old.room }
    ensures rows { entries.new.items ≡ put number_of_kept entry entries.old.items }
    ensures counted { AreCounted entries.new.items counts.new.items bytes }
{
    match entries.find(entry.id().key().rank()) {
        None => {}
        Some(old) => {
            take_all(counts, old.references());
            add_all(counts, entry.references());
            entries.replace(entry);
        }
    }
}

// Takes a row out.
fn remove(entries: &mut Sorted<Entry>, counts: &mut Sorted<Count>, bytes: &mut u64, id: RowId)
    requires counted { AreCounted entries.old.items counts.old.items bytes.old }
    requires allowed { refusal entries.old.items (TableChange.Remove id.kind id.id) ≡ None }
    ensures rows { entries.new.items ≡ without number_of_kept (number_at id) entries.old.items }
    ensures counted { AreCounted entries.new.items counts.new.items bytes.new }
{
    let rank = id.key().rank();
    match entries.find(rank) {
        None => {}
        Some(entry) => {
            take_all(counts, entry.references());
            *bytes -= declared_by(entry.row());
            entries.remove(rank);
        }
    }
}
