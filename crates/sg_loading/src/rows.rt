//! One row of a keeper, taken into a server.

ghost use Rattle.std.specs.Prelude.{◌≡◌, ◌≢◌, ◌↔◌, ◌≤◌, true, false, List, None, OnOk, IfOk, IfErr, IsTrue};
ghost use Rattle.std.specs.Result.{IsErrOf};
ghost use Rattle.sg_base.specs.declared.key.Key.{Key};
ghost use Rattle.sg_base.specs.declared.limits.TheConstants.{MAX_PLAYS};
ghost use Rattle.sg_base.specs.Keys.{number_of};
ghost use Rattle.sg_base.specs.Rising.{put};
ghost use Rattle.sg_loading.specs.Loading.{Follows, HasNoReading, IsOfClient, IsOfEpoch, IsOfTables, Joins, core_of};
ghost use Rattle.sg_records.specs.declared.client.Client.{Client};
ghost use Rattle.sg_records.specs.declared.epoch.Epoch.{Epoch};
ghost use Rattle.sg_records.specs.Clients.{client_number};
ghost use Rattle.sg_records.specs.Numbers.{epoch_number};
ghost use Rattle.sg_records.specs.Saved.{IsSaved};
ghost use Rattle.sg_tables.specs.Entries.{Kept, fresh, number_of_kept};
ghost use Rattle.sg_tables.specs.Refusals.{refusal, row_at};
ghost use Rattle.sg_tables.specs.Rows.{id_of};

use crate::fault::LoadFault;
use crate::parts::Parts;
use sg_base::limits::MAX_CLIENTS;
use sg_base::{Key, Row, Sorted};
use sg_records::{Client, Epoch, Saved, read_client, read_epoch, read_saved};
use sg_tables::{TableChange, TableRefusal, Tables};
use std::alloc::{AllocError, Global};

/// Takes a row of a keeper in. `BadRow` names its key.
pub fn load_row(
    alloc: Global,
    limit: u32,
    parts: &mut Parts,
    key: Key,
    bytes: &[u8],
) -> Result<(), LoadFault>
    requires { limit ≤ MAX_PLAYS }
    ensures joins { OnOk result
        (Joins (core_of parts.old limit) (number_of key) bytes.now (core_of parts.new limit)) }
    ensures bad { (at : Key) → IsErrOf result (LoadFault.BadRow at) → (at ≡ key)
        × HasNoReading (core_of parts.old limit) (number_of key) bytes.now }
    ensures failed { IfErr result (λ fault. fault ≢ LoadFault.Keeper) }
{
    match key.kind {
        8 => load_client(alloc, &mut parts.clients, key, bytes),
        9 => load_epoch(limit, &mut parts.epochs, key, bytes),
        _ => load_saved(alloc, &mut parts.tables, key, bytes),
    }
}

// A row of the tables.
fn load_saved(alloc: Global, tables: &mut Tables, key: Key, bytes: &[u8]) -> Result<(), LoadFault>
    ensures joins { OnOk result ((e : Kept)
        × IsOfTables tables.old.rows (number_of key) bytes.now e
        × (tables.new.rows ≡ put number_of_kept e tables.old.rows)) }
    ensures bad { (at : Key) → IsErrOf result (LoadFault.BadRow at) → (at ≡ key)
        × ((e : Kept) → IsOfTables tables.old.rows (number_of key) bytes.now e → ⊥) }
    ensures failed { IfErr result (λ fault. fault ≢ LoadFault.Keeper) }
{
    let Some(saved) = read_saved(alloc, key, bytes)? else {
        return Err(LoadFault::BadRow(key));
    };
    let taken = let_in(tables, &saved)?;
    if taken {
        Ok(())
    } else {
        Err(LoadFault::BadRow(key))
    }
}

// Lets a row in with what has come of it, unless a rule refuses it.
fn let_in(tables: &mut Tables, saved: &Saved) -> Result<bool, AllocError>
    requires { IsSaved saved.now }
    ensures taken { IfOk result (λ is. is ≡ true →
        (refusal tables.old.rows (TableChange.Insert saved.now.row) ≡ None)
        × (tables.new.rows ≡ put number_of_kept saved.now tables.old.rows)) }
    ensures refused { IfOk result (λ is. is ≡ false →
        refusal tables.old.rows (TableChange.Insert saved.now.row) ≢ None) }
{
    match tables.prepare_insert(saved.row()) {
        Ok(prepared) => {
            tables.commit(prepared);
            bring(tables, saved);
            Ok(true)
        }
        Err(fault) => {
            unless_memory(fault)?;
            Ok(false)
        }
    }
}

// Nothing, unless memory ran out.
fn unless_memory(fault: TableRefusal) -> Result<(), AllocError>
    ensures { OnOk result (fault ≢ TableRefusal.Memory) }
{
    match fault {
        TableRefusal::Memory => Err(AllocError),
        TableRefusal::Unknown { .. }
        | TableRefusal::InUse { .. }
        | TableRefusal::Exists { .. }
        | TableRefusal::Full { .. }
        | TableRefusal::Incomplete(_) => Ok(()),
    }
}

// Says what has come of a medium that has just come in. It takes no memory.
fn bring(tables: &mut Tables, saved: &Saved)
    requires saved { IsSaved saved.now }
    requires there { row_at (id_of saved.now.row) tables.old.rows ≢ None }
    ensures { (rows : List Kept) → row_at (id_of saved.now.row) rows ≡ None
        → tables.old.rows ≡ put number_of_kept (fresh saved.now.row) rows
        → tables.new.rows ≡ put number_of_kept saved.now rows }
{
    if let Row::Media(file) = saved.row() {
        if saved.is_complete() {
            tables.complete(file.media);
        } else {
            tables.receive(file.media, saved.received());
        }
    }
}

// A client, of which there may be so many.
fn load_client(
    alloc: Global,
    clients: &mut Sorted<Client>,
    key: Key,
    bytes: &[u8],
) -> Result<(), LoadFault>
    ensures joins { OnOk result ((c : Client)
        × IsOfClient clients.old.items (number_of key) bytes.now c
        × (clients.new.items ≡ put client_number c clients.old.items)) }
    ensures bad { (at : Key) → IsErrOf result (LoadFault.BadRow at) → (at ≡ key)
        × ((c : Client) → IsOfClient clients.old.items (number_of key) bytes.now c → ⊥) }
    ensures failed { IfErr result (λ fault. fault ≢ LoadFault.Keeper) }
{
    let Some(client) = read_client(alloc, key, bytes)? else {
        return Err(LoadFault::BadRow(key));
    };
    if clients.as_slice().len() >= MAX_CLIENTS as usize {
        return Err(LoadFault::BadRow(key));
    }
    clients.reserve(1)?;
    clients.put(client);
    Ok(())
}

// An epoch, after the one before it.
fn load_epoch(
    limit: u32,
    epochs: &mut Sorted<Epoch>,
    key: Key,
    bytes: &[u8],
) -> Result<(), LoadFault>
    ensures joins { OnOk result ((e : Epoch)
        × IsOfEpoch limit epochs.old.items (number_of key) bytes.now e
        × (epochs.new.items ≡ put epoch_number e epochs.old.items)) }
    ensures bad { (at : Key) → IsErrOf result (LoadFault.BadRow at) → (at ≡ key)
        × ((e : Epoch) → IsOfEpoch limit epochs.old.items (number_of key) bytes.now e → ⊥) }
    ensures failed { IfErr result (λ fault. fault ≢ LoadFault.Keeper) }
{
    let Some(epoch) = read_epoch(limit, key, bytes) else {
        return Err(LoadFault::BadRow(key));
    };
    if !follows(epochs, epoch) {
        return Err(LoadFault::BadRow(key));
    }
    epochs.reserve(1)?;
    epochs.put(epoch);
    Ok(())
}

// Whether an epoch above 1 comes after the one before it.
fn follows(epochs: &Sorted<Epoch>, epoch: Epoch) -> bool
    ensures { IsTrue result ↔ Follows epochs.now.items epoch }
{
    if epoch.epoch <= 1 {
        return true;
    }
    let before = Epoch::key(epoch.display, epoch.epoch - 1);
    epochs.find(before.rank()).is_some()
}
