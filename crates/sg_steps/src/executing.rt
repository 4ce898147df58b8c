//! The parts of an edit: what the tables make of it, and what the keeper is to change.

ghost use Rattle.std.specs.Prelude.{◌≡◌, ℕ, List, Option, Ok, Err, ◌≢◌, IfOk, IfErr, OnOk, OnErr, Some, MatchResult};
ghost use Rattle.sg_base.specs.Rising.{put};
ghost use Rattle.sg_steps.specs.Calls.{Failed, IsAttempt, changed_by, pieces_of, without_pieces, without_row};
ghost use Rattle.sg_steps.specs.Edits.{IsEdit};
ghost use Rattle.sg_steps.specs.State.{received_of};
ghost use Rattle.sg_steps.specs.Step.{asked, tried};
ghost use Rattle.sg_keeper.specs.Changes.{applied, with_row};
ghost use Rattle.sg_keeper.specs.View.{Ran, Same};
ghost use Rattle.sg_records.specs.Replies.{refused_by};
ghost use Rattle.sg_records.specs.Saved.{saved_text};
ghost use Rattle.sg_edit_rows.specs.EditRows.{IsRow};
ghost use Rattle.sg_rows.specs.declared.form.RowForm.TheVariants.{Edit as Edited};
ghost use Rattle.sg_tables.specs.Entries.{fresh};
ghost use Rattle.sg_tables.specs.Rows.{id_of, number_at};
ghost use Rattle.sg_tables.specs.declared.change.TableChange.{TableChange};
ghost use Rattle.sg_tables.specs.declared.change.TableRefusal.{TableRefusal};
ghost use Rattle.sg_tables.specs.declared.change.TableRefusal.TheVariants.{Memory};

use crate::edit::Edit;
use crate::fault::CmsFault;
use sg_base::limits::PIECE_LEN;
use sg_base::{Kind, MediaId, Ranked, Row, Sorted};
use sg_keeper::{Change, Keeper, KeeperFail};
use sg_records::{FaultName, Reply, piece_key, write_fresh};
use sg_tables::{Prepared, RowId, TableRefusal, Tables};
use std::alloc::{AllocError, Global};

/// The change of an edit, which nothing refuses, made ready; or what the edit is answered.
pub fn attempt(tables: &mut Tables, edit: &Edit) -> Result<Result<Prepared, Reply>, AllocError>
    ensures attempt { IfOk result (IsAttempt tables.new (tried tables.old.rows (asked edit.now))) }
    ensures rows { tables.new.rows ≡ tables.old.rows }
{
    match edit {
        Edit::Insert(row) => answer(tables.prepare_insert(row)),
        Edit::Replace(Row::Media(_)) => Ok(Err(Reply::Invalid(FaultName::NoReplace))),
        Edit::Replace(row) => answer(tables.prepare_replace(row)),
        Edit::Remove(kind, id) => answer(tables.prepare_remove(*kind, *id)),
        Edit::Faulty(fault) => Ok(Err(Reply::Invalid(FaultName::of(*fault)))),
    }
}

// What the tables answer, want of memory apart.
fn answer(prepared: Result<Prepared, TableRefusal>) -> Result<Result<Prepared, Reply>, AllocError>
    ensures { IfOk result (λ r. MatchResult r (λ p. prepared ≡ Ok p)
        (λ reply. (f : TableRefusal) × (prepared ≡ Err f) × (f ≢ Memory) × (reply ≡ refused_by f))) }
{
    match prepared {
        Ok(prepared) => Ok(Ok(prepared)),
        Err(refusal) => Ok(Err(Reply::of(refusal)?)),
    }
}

/// What the keeper is to change for an edit that nothing refuses.
pub fn changes_of(alloc: Global, tables: &Tables, edit: &Edit) -> Result<Vec<Change>, AllocError>
    requires { IsEdit edit.now }
    ensures { IfOk result (λ changes. (change : TableChange) (rows : ℕ → Option (List ℕ)) → asked edit.now ≡ Ok change
        → applied changes.items rows ≡ changed_by change tables.now.rows rows) }
{
    match edit {
        Edit::Insert(row) => put_of(alloc, row),
        Edit::Replace(row) => put_of(alloc, row),
        Edit::Remove(kind, id) => drops_of(alloc, tables, *kind, *id),
        Edit::Faulty(_) => Ok(Vec::new(alloc)),
    }
}

fn put_of(alloc: Global, row: &Row) -> Result<Vec<Change>, AllocError>
    requires { IsRow Edited row.now }
    ensures { IfOk result (λ changes. (rows : ℕ → Option (List ℕ)) → applied changes.items rows
        ≡ with_row (number_at (id_of row.now)) (Some (saved_text (fresh row.now))) rows) }
{
    let text = write_fresh(alloc, row)?;
    let mut changes = Vec::new(alloc);
    changes.push(Change::Put(RowId::of(row).key(), text))?;
    Ok(changes)
}

// A medium goes with its pieces.
fn drops_of(alloc: Global, tables: &Tables, kind: Kind, id: u32) -> Result<Vec<Change>, AllocError>
    ensures { IfOk result (λ changes. (rows : ℕ → Option (List ℕ)) → applied changes.items rows
        ≡ without_row kind id tables.now.rows rows) }
{
    let mut changes = Vec::new(alloc);
    changes.push(Change::Drop(RowId { kind, id }.key()))?;
    if kind == Kind::Media {
        let media = MediaId(id);
        drop_pieces(&mut changes, media, pieces_of(received(tables, media)))?;
    }
    Ok(changes)
}

/// How many bytes of a medium have come.
pub fn received(tables: &Tables, media: MediaId) -> u32
    ensures { result ≡ received_of media.0 tables.now.rows }
{
    let id = RowId {
        kind: Kind::Media,
        id: media.0,
    };
    match tables.entry(id) {
        Some(entry) => entry.received(),
        None => 0,
    }
}

/// In how many pieces so many bytes are kept.
pub fn pieces_of(received: u32) -> u32
    ensures { result ≡ pieces_of received }
{
    received.div_ceil(PIECE_LEN)
}

/// Drops the first pieces of a medium.
pub fn drop_pieces(changes: &mut Vec<Change>, media: MediaId, count: u32) -> Result<(), AllocError>
    ensures { OnOk result ((rows : ℕ → Option (List ℕ)) → applied changes.new.items rows
        ≡ without_pieces media.0 count (applied changes.old.items rows)) }
{
    for index in 0..count {
        changes.push(Change::Drop(piece_key(media, index)))?;
    }
    Ok(())
}

/// Makes changes of the keeper's rows, and puts an element of a table when they are made.
pub fn make<K: Keeper, T: Ranked + Drop>(
    keeper: &mut K,
    table: &mut Sorted<T>,
    element: T,
    changes: &[Change],
) -> Result<(), CmsFault>
    ensures put { OnOk result (table.new.items ≡ put T.rank element table.old.items) }
    ensures rows { OnOk result ((K.view keeper.old).told →
        (K.view keeper.new).rows ≡ applied changes.now (K.view keeper.old).rows) }
    ensures ran { OnOk result (Ran 1 (K.view keeper.old) (K.view keeper.new)) }

    // A fault leaves both as they were.
    ensures failed { IfErr result (λ fault. Failed fault (K.view keeper.old) (K.view keeper.new)) }
    ensures unchanged { OnErr result (table.new.items ≡ table.old.items) }
    ensures same { OnErr result (Same (K.view keeper.old) (K.view keeper.new)) }
{
    table.reserve(1)?;
    match keeper.apply(changes) {
        Ok(()) => {
            table.put(element);
            Ok(())
        }
        Err(KeeperFail::Failed) => Err(CmsFault::Keeper),
        Err(KeeperFail::Memory) => Err(CmsFault::Memory),
    }
}
