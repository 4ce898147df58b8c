//! Enrolments and batches of plays over the parts of a server: its tables and its epochs.

ghost use Rattle.std.specs.Prelude.{◌≡◌, ℕ, ◌<◌, ◌≤◌, List, Ok, IfOk, IfErr, OnOk, OnErr, length};
ghost use Rattle.std.specs.List.{AllByRecursion};
ghost use Rattle.sg_base.specs.Rising.{IsRising};
ghost use Rattle.sg_steps.specs.Calls.{Failed};
ghost use Rattle.sg_steps.specs.Epochs.{enrolled, played, with_plays};
ghost use Rattle.sg_steps.specs.State.{Content, IsNumbered, Stands};
ghost use Rattle.sg_edits.specs.Edited.{IsOrdered, core_of};
ghost use Rattle.sg_keeper.specs.View.{Ran, Same};
ghost use Rattle.sg_records.specs.declared.client.Client.{Client};
ghost use Rattle.sg_records.specs.Numbers.{epoch_number};
ghost use Rattle.sg_tables.specs.Entries.{Kept};

use sg_base::limits::{BATCH_PLAYS, MAX_PLAYS};
use sg_base::{DisplayId, Kind, PlayBody, Sorted};
use sg_keeper::Keeper;
use sg_records::Epoch;
use sg_steps::{CmsFault, EnrolReply, PlaysReply, add_plays, give_epoch};
use sg_tables::{RowId, Tables};
use std::alloc::Global;

/// Gives a display its next epoch. The other parts of the server stay.
pub(crate) fn enrol<K: Keeper>(
    alloc: Global,
    tables: &Tables,
    epochs: &mut Sorted<Epoch>,
    keeper: &mut K,
    display: DisplayId,
) -> Result<EnrolReply, CmsFault>
    requires rising { IsRising epoch_number epochs.old.items }
    requires numbered { AllByRecursion IsNumbered epochs.old.items }
    ensures step { (clients : List Client) (limit : ℕ) → IfOk result (λ reply.
        record { core = core_of tables.now.rows clients epochs.new.items limit; reply = reply }
        ≡ enrolled (core_of tables.now.rows clients epochs.old.items limit) display.0) }
    ensures server { (clients : List Client) (limit : ℕ) →
        IsOrdered (core_of tables.now.rows clients epochs.old.items limit) →
        IsOrdered (core_of tables.now.rows clients epochs.new.items limit) }

    // The keeper's rows change with the server.
    ensures rows { (clients : List Client) (limit : ℕ) →
        IsOrdered (core_of tables.now.rows clients epochs.old.items limit) →
        OnOk result ((content : Content) → (K.view keeper.old).told
        → Stands (core_of tables.now.rows clients epochs.old.items limit) content (K.view keeper.old).rows
        → Stands (core_of tables.now.rows clients epochs.new.items limit) content (K.view keeper.new).rows) }
    ensures ran { OnOk result (Ran 0 (K.view keeper.old) (K.view keeper.new)) }
    ensures given { (epoch : ℕ) → result ≡ Ok (EnrolReply.Epoch epoch) →
        Ran 1 (K.view keeper.old) (K.view keeper.new) }

    // A fault leaves all as it was.
    ensures failed { IfErr result (λ fault. Failed fault (K.view keeper.old) (K.view keeper.new)) }
    ensures unchanged { OnErr result (epochs.new.items ≡ epochs.old.items) }
    ensures same { OnErr result (Same (K.view keeper.old) (K.view keeper.new)) }
{
    let id = RowId {
        kind: Kind::Display,
        id: display.0,
    };
    match tables.entry(id) {
        Some(_) => give_epoch(alloc, epochs, keeper, display.0),
        None => Ok(EnrolReply::Unknown(display)),
    }
}

/// Takes a batch of plays of an epoch, of which the first has this number. The other parts of the server stay.
pub(crate) fn plays<K: Keeper>(
    alloc: Global,
    epochs: &mut Sorted<Epoch>,
    keeper: &mut K,
    limit: u32,
    of: (u32, u32),
    first: u32,
    list: &[PlayBody],
) -> Result<PlaysReply, CmsFault>
    requires limit { limit ≤ MAX_PLAYS }
    requires few { AllByRecursion (λ e. e.plays ≤ limit) epochs.old.items }
    requires short { length list.now ≤ BATCH_PLAYS }
    ensures step { (rows : List Kept) (clients : List Client) → IfOk result (λ reply.
        let step = played (core_of rows clients epochs.old.items limit) of.0 of.1 first list.now in
        (core_of rows clients epochs.new.items limit ≡ core_of rows clients step.epochs limit)
        × (reply ≡ step.reply)) }
    ensures server { (rows : List Kept) (clients : List Client) →
        IsOrdered (core_of rows clients epochs.old.items limit) →
        IsOrdered (core_of rows clients epochs.new.items limit) }

    // The keeper's rows change with the server.
    ensures rows { (rows : List Kept) (clients : List Client) →
        IsOrdered (core_of rows clients epochs.old.items limit) →
        OnOk result ((content : Content) → (K.view keeper.old).told
        → Stands (core_of rows clients epochs.old.items limit) content (K.view keeper.old).rows
        → Stands (core_of rows clients epochs.new.items limit)
        (with_plays of.0 of.1
        (played (core_of rows clients epochs.old.items limit) of.0 of.1 first list.now).added content)
        (K.view keeper.new).rows) }
    ensures ran { OnOk result (Ran 0 (K.view keeper.old) (K.view keeper.new)) }
    ensures added { (rows : List Kept) (clients : List Client) →
        0 < length (played (core_of rows clients epochs.old.items limit) of.0 of.1 first list.now).added →
        OnOk result (Ran 1 (K.view keeper.old) (K.view keeper.new)) }

    // A fault leaves all as it was.
    ensures failed { IfErr result (λ fault. Failed fault (K.view keeper.old) (K.view keeper.new)) }
    ensures unchanged { OnErr result (epochs.new.items ≡ epochs.old.items) }
    ensures same { OnErr result (Same (K.view keeper.old) (K.view keeper.new)) }
{
    add_plays(alloc, epochs, keeper, limit, of, first, list)
}
