//! The next epoch of a display, and the plays that are added to one.

ghost use Rattle.std.specs.Prelude.{◌≡◌, ◌+◌, ◌<◌, ◌≤◌, ℕ, List, Option, Some, Ok, IfOk, IfErr, IfSome, OnOk, OnErr, length, option_map};
ghost use Rattle.std.specs.List.{AllByRecursion};
ghost use Rattle.sg_base.specs.Keys.{number};
ghost use Rattle.sg_base.specs.Rising.{IsRising, found};
ghost use Rattle.sg_steps.specs.Calls.{Failed, with_plays_from};
ghost use Rattle.sg_steps.specs.Epochs.{added_to, batch_added, given, rows_added, rows_given};
ghost use Rattle.sg_steps.specs.State.{IsNumbered, plays_of};
ghost use Rattle.sg_keeper.specs.Changes.{applied, with_row};
ghost use Rattle.sg_keeper.specs.View.{Ran, Same};
ghost use Rattle.sg_records.specs.Numbers.{epoch_bytes, epoch_number};

use crate::epochs::{last_epoch, new_plays, put_plays};
use crate::executing::make;
use crate::fault::CmsFault;
use crate::replies::{EnrolReply, PlaysReply};
use sg_base::limits::{BATCH_PLAYS, MAX_EPOCH, MAX_PLAYS};
use sg_base::{PlayBody, Sorted};
use sg_keeper::{Change, Keeper};
use sg_records::{Epoch, write_epoch};
use std::alloc::{AllocError, Global};

/// Gives a display its next epoch.
pub fn give_epoch<K: Keeper>(
    alloc: Global,
    epochs: &mut Sorted<Epoch>,
    keeper: &mut K,
    display: u32,
) -> Result<EnrolReply, CmsFault>
    requires rising { IsRising epoch_number epochs.old.items }
    requires numbered { AllByRecursion IsNumbered epochs.old.items }
    ensures step { IfOk result (λ reply.
        record { epochs = epochs.new.items; reply = reply } ≡ given display epochs.old.items) }
    ensures rows { OnOk result ((K.view keeper.old).told →
        (K.view keeper.new).rows ≡ rows_given display epochs.old.items (K.view keeper.old).rows) }
    ensures ran { OnOk result (Ran 0 (K.view keeper.old) (K.view keeper.new)) }
    ensures given { (epoch : ℕ) → result ≡ Ok (EnrolReply.Epoch epoch) →
        Ran 1 (K.view keeper.old) (K.view keeper.new) }

    // A fault leaves both as they were.
    ensures failed { IfErr result (λ fault. Failed fault (K.view keeper.old) (K.view keeper.new)) }
    ensures unchanged { OnErr result (epochs.new.items ≡ epochs.old.items) }
    ensures same { OnErr result (Same (K.view keeper.old) (K.view keeper.new)) }
{
    let last = last_epoch(epochs, display);
    if last >= MAX_EPOCH {
        return Ok(EnrolReply::EpochsSpent);
    }
    let epoch = Epoch {
        display,
        epoch: last + 1,
        plays: 0,
    };
    let change = keep_epoch(alloc, epoch)?;
    make(keeper, epochs, epoch, &[change])?;
    Ok(EnrolReply::Epoch(last + 1))
}

/// Adds the new plays of a batch to an epoch.
pub fn add_plays<K: Keeper>(
    alloc: Global,
    epochs: &mut Sorted<Epoch>,
    keeper: &mut K,
    limit: u32,
    of: (u32, u32),
    first: u32,
    batch: &[PlayBody],
) -> Result<PlaysReply, CmsFault>
    requires limit { limit ≤ MAX_PLAYS }
    requires few { AllByRecursion (λ e. e.plays ≤ limit) epochs.old.items }
    requires short { length batch.now ≤ BATCH_PLAYS }
    ensures step { IfOk result (λ reply. let step = batch_added limit of.0 of.1 epochs.old.items first batch.now in
        (epochs.new.items ≡ step.epochs) × (reply ≡ step.reply)) }
    ensures rows { OnOk result ((K.view keeper.old).told →
        (K.view keeper.new).rows ≡ rows_added of.0 of.1 (plays_of of.0 of.1 epochs.old.items)
        (batch_added limit of.0 of.1 epochs.old.items first batch.now).added (K.view keeper.old).rows) }
    ensures ran { OnOk result (Ran 0 (K.view keeper.old) (K.view keeper.new)) }
    ensures added { 0 < length (batch_added limit of.0 of.1 epochs.old.items first batch.now).added →
        OnOk result (Ran 1 (K.view keeper.old) (K.view keeper.new)) }

    // A fault leaves both as they were.
    ensures failed { IfErr result (λ fault. Failed fault (K.view keeper.old) (K.view keeper.new)) }
    ensures unchanged { OnErr result (epochs.new.items ≡ epochs.old.items) }
    ensures same { OnErr result (Same (K.view keeper.old) (K.view keeper.new)) }
{
    let (display, epoch) = of;
    let have = match plays_of(epochs, limit, display, epoch) {
        Some(have) => have,
        None => return Ok(PlaysReply::NoEpoch),
    };
    if first > have + 1 {
        return Ok(PlaysReply::Gap { next: have + 1 });
    }
    let known = Epoch {
        display,
        epoch,
        plays: have,
    };
    add_to(
        alloc,
        epochs,
        keeper,
        limit,
        known,
        new_plays(have, first, batch),
    )
}

// How many plays an epoch has, which was given.
fn plays_of(epochs: &Sorted<Epoch>, limit: u32, display: u32, epoch: u32) -> Option<u32>
    requires { AllByRecursion (λ e. e.plays ≤ limit) epochs.now.items }
    ensures plays { result ≡ option_map (λ e. e.plays)
        (found epoch_number (number 9 display epoch) epochs.now.items) }
    ensures few { IfSome result (λ plays. plays ≤ limit) }
{
    match epochs.find(Epoch::key(display, epoch).rank()) {
        Some(known) => Some(known.plays),
        None => None,
    }
}

// Adds new plays to an epoch that has some.
fn add_to<K: Keeper>(
    alloc: Global,
    epochs: &mut Sorted<Epoch>,
    keeper: &mut K,
    limit: u32,
    known: Epoch,
    new: &[PlayBody],
) -> Result<PlaysReply, CmsFault>
    requires limit { limit ≤ MAX_PLAYS }
    requires few { known.plays ≤ limit }
    requires short { length new.now ≤ BATCH_PLAYS }
    ensures step { IfOk result (λ reply.
        let step = added_to limit known.display known.epoch epochs.old.items known.plays new.now in
        (epochs.new.items ≡ step.epochs) × (reply ≡ step.reply)) }
    ensures rows { OnOk result ((K.view keeper.old).told →
        (K.view keeper.new).rows ≡ rows_added known.display known.epoch known.plays
        (added_to limit known.display known.epoch epochs.old.items known.plays new.now).added
        (K.view keeper.old).rows) }
    ensures ran { OnOk result (Ran 0 (K.view keeper.old) (K.view keeper.new)) }
    ensures added { 0 < length (added_to limit known.display known.epoch epochs.old.items known.plays new.now).added →
        OnOk result (Ran 1 (K.view keeper.old) (K.view keeper.new)) }

    // A fault leaves both as they were.
    ensures failed { IfErr result (λ fault. Failed fault (K.view keeper.old) (K.view keeper.new)) }
    ensures unchanged { OnErr result (epochs.new.items ≡ epochs.old.items) }
    ensures same { OnErr result (Same (K.view keeper.old) (K.view keeper.new)) }
{
    if new.is_empty() {
        return Ok(PlaysReply::Next(known.plays + 1));
    }
    let total = u64::from(known.plays) + new.len() as u64;
    if total > u64::from(limit) {
        return Ok(PlaysReply::PlaysFull { limit });
    }
    let later = Epoch {
        display: known.display,
        epoch: known.epoch,
        plays: total as u32,
    };
    let changes = plays_changes(alloc, known, later, new)?;
    make(keeper, epochs, later, changes.as_slice())?;
    Ok(PlaysReply::Next(later.plays + 1))
}

// The rows of new plays of an epoch, and its own with as many more.
fn plays_changes(
    alloc: Global,
    known: Epoch,
    later: Epoch,
    new: &[PlayBody],
) -> Result<Vec<Change>, AllocError>
    requires { length new.now ≤ BATCH_PLAYS }
    ensures { IfOk result (λ changes. (rows : ℕ → Option (List ℕ)) → applied changes.items rows
        ≡ with_row (epoch_number later) (Some (epoch_bytes later))
        (with_plays_from known.display known.epoch (known.plays + 1) new.now rows)) }
{
    let mut changes = Vec::new(alloc);
    put_plays(alloc, &mut changes, known, u64::from(known.plays) + 1, new)?;
    changes.push(keep_epoch(alloc, later)?)?;
    Ok(changes)
}

// The row of an epoch.
fn keep_epoch(alloc: Global, epoch: Epoch) -> Result<Change, AllocError>
    ensures { IfOk result (λ change. change
        ≡ Change.Put (record { kind = 9; a = epoch.display; b = epoch.epoch }) (epoch_bytes epoch)) }
{
    Ok(Change::Put(
        Epoch::key(epoch.display, epoch.epoch),
        write_epoch(alloc, epoch)?,
    ))
}
