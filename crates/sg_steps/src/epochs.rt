//! Epochs of displays, and batches of plays.

ghost use Rattle.std.specs.Prelude.{◌≡◌, ◌+◌, ◌<◌, ◌≤◌, ◌^◌, ℕ, List, Option, IfOk, OnOk, filter, length, option_map};
ghost use Rattle.std.specs.List.{AllByRecursion, find};
ghost use Rattle.sg_base.specs.Rising.{IsRising};
ghost use Rattle.sg_steps.specs.Calls.{with_plays_from};
ghost use Rattle.sg_steps.specs.Epochs.{is_after, is_of, last_epoch, new_plays, triple_of};
ghost use Rattle.sg_steps.specs.State.{IsNumbered};
ghost use Rattle.sg_keeper.specs.Changes.{applied};
ghost use Rattle.sg_records.specs.Numbers.{epoch_number};

use sg_base::{Key, PlayBody, Sorted};
use sg_keeper::Change;
use sg_records::{Epoch, play_key, write_play};
use std::alloc::{AllocError, Global};

/// The last epoch that a display was given, or 0.
pub fn last_epoch(epochs: &Sorted<Epoch>, display: u32) -> u32
    requires rising { IsRising epoch_number epochs.now.items }
    requires numbered { AllByRecursion IsNumbered epochs.now.items }
    ensures { result ≡ last_epoch display epochs.now.items }
{
    match epochs_of(epochs, display).last() {
        Some(last) => last.epoch,
        None => 0,
    }
}

// The epochs of a display, by their numbers.
fn epochs_of(epochs: &Sorted<Epoch>, display: u32) -> &[Epoch]
    requires rising { IsRising epoch_number epochs.now.items }
    requires numbered { AllByRecursion IsNumbered epochs.now.items }
    ensures value { result.now ≡ filter (is_of display) epochs.now.items }
    ensures rising { IsRising epoch_number result.now }
{
    let first = Epoch::key(display, 0).rank();
    let last = Epoch::key(display, u32::MAX).rank_after();
    epochs.between(first, last)
}

/// The first epoch above one, by display and then by its number, and how many plays it has.
pub fn epoch_after(epochs: &Sorted<Epoch>, display: u32, epoch: u32) -> Option<(u32, u32, u32)>
    requires rising { IsRising epoch_number epochs.now.items }
    requires numbered { AllByRecursion IsNumbered epochs.now.items }
    ensures { result ≡ option_map triple_of (find (is_after display epoch) epochs.now.items) }
{
    match epochs_after(epochs, display, epoch).first() {
        Some(next) => Some((next.display, next.epoch, next.plays)),
        None => None,
    }
}

// The epochs above one.
fn epochs_after(epochs: &Sorted<Epoch>, display: u32, epoch: u32) -> &[Epoch]
    requires rising { IsRising epoch_number epochs.now.items }
    requires numbered { AllByRecursion IsNumbered epochs.now.items }
    ensures { result.now ≡ filter (is_after display epoch) epochs.now.items }
{
    let start = Epoch::key(display, epoch).rank_after();
    epochs.between(start, Key::rank_after_kind(9))
}

/// The plays of a batch that are new to an epoch that has so many.
pub fn new_plays(have: u32, first: u32, batch: &[PlayBody]) -> &[PlayBody]
    requires { first ≤ have + 1 }
    ensures { result.now ≡ new_plays have first batch.now }
{
    let passed = (u64::from(have) + 1 - u64::from(first)) as usize;
    if passed < batch.len() {
        &batch[passed..]
    } else {
        &[]
    }
}

/// Adds the rows of plays of an epoch to changes. The first play has this number.
pub fn put_plays(
    alloc: Global,
    changes: &mut Vec<Change>,
    of: Epoch,
    first: u64,
    plays: &[PlayBody],
) -> Result<(), AllocError>
    requires { first + length plays.now < 2 ^ 64 }
    ensures { OnOk result ((rows : ℕ → Option (List ℕ)) → applied changes.new.items rows
        ≡ with_plays_from of.display of.epoch first plays.now (applied changes.old.items rows)) }
{
    let mut number = first;
    for play in plays {
        let bytes = write_play(alloc, *play)?;
        changes.push(Change::Put(play_key(of.display, of.epoch, number), bytes))?;
        number += 1;
    }
    Ok(())
}
