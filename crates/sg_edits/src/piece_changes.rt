//! What the keeper is to change for a piece of a medium.

ghost use Rattle.std.specs.Prelude.{◌≡◌, ℕ, List, Option, Some, IfOk, IfErr, OnOk, OnErr};
ghost use Rattle.sg_base.specs.declared.kind.Kind.TheVariants as of_kind;
ghost use Rattle.sg_edits.specs.Media.{kept_of};
ghost use Rattle.sg_edits.specs.Pieces.{with_medium_row};
ghost use Rattle.sg_keeper.specs.Changes.{applied, changed, with_row};
ghost use Rattle.sg_keeper.specs.View.{Ran, Same};
ghost use Rattle.sg_records.specs.Numbers.{piece_number};
ghost use Rattle.sg_steps.specs.Calls.{Failed, pieces_of, without_pieces};

use crate::pieces::Medium;
use sg_base::{Kind, Rows};
use sg_keeper::{Change, Keeper, KeeperFail};
use sg_records::{piece_key, write_medium};
use sg_steps::{CmsFault, drop_pieces, pieces_of};
use sg_tables::RowId;
use std::alloc::{AllocError, Global};

/// What the keeper is to change for a piece that has come, with the medium as it is then.
pub(crate) fn piece_changes(
    alloc: Global,
    later: Medium,
    index: u32,
    bytes: &[u8],
) -> Result<Vec<Change>, AllocError>
    ensures { IfOk result (λ changes. (rows : ℕ → Option (List ℕ)) → applied changes.items rows
        ≡ with_medium_row later.media (kept_of later)
        (with_row (piece_number later.media.0 index) (Some bytes.now) rows)) }
{
    let piece = Rows::from_vec(Vec::from_slice(alloc, bytes)?);
    let mut changes = Vec::new(alloc);
    changes.push(Change::Put(piece_key(later.media, index), piece))?;
    changes.push(keep_medium(alloc, later)?)?;
    Ok(changes)
}

/// What the keeper is to change for a medium whose pieces are dropped, with the medium as it is then.
pub(crate) fn drop_changes(
    alloc: Global,
    later: Medium,
    received: u32,
) -> Result<Vec<Change>, AllocError>
    ensures { IfOk result (λ changes. (rows : ℕ → Option (List ℕ)) → applied changes.items rows
        ≡ with_medium_row later.media (kept_of later) (without_pieces later.media.0 (pieces_of received) rows)) }
{
    let mut changes = Vec::new(alloc);
    drop_pieces(&mut changes, later.media, pieces_of(received))?;
    changes.push(keep_medium(alloc, later)?)?;
    Ok(changes)
}

// The row of a medium.
fn keep_medium(alloc: Global, medium: Medium) -> Result<Change, AllocError>
    ensures { IfOk result (λ change. (rows : ℕ → Option (List ℕ)) → changed change rows
        ≡ with_medium_row medium.media (kept_of medium) rows) }
{
    let id = RowId {
        kind: Kind::Media,
        id: medium.media.0,
    };
    Ok(Change::Put(
        id.key(),
        write_medium(alloc, &medium.file, medium.received, medium.complete)?,
    ))
}

/// Makes changes of the keeper's rows.
pub(crate) fn make_changes<K: Keeper>(keeper: &mut K, changes: &[Change]) -> Result<(), CmsFault>
    ensures rows { OnOk result ((K.view keeper.old).told →
        (K.view keeper.new).rows ≡ applied changes.now (K.view keeper.old).rows) }
    ensures ran { OnOk result (Ran 1 (K.view keeper.old) (K.view keeper.new)) }
    ensures failed { IfErr result (λ fault. Failed fault (K.view keeper.old) (K.view keeper.new)) }
    ensures same { OnErr result (Same (K.view keeper.old) (K.view keeper.new)) }
{
    match keeper.apply(changes) {
        Ok(()) => Ok(()),
        Err(KeeperFail::Failed) => Err(CmsFault::Keeper),
        Err(KeeperFail::Memory) => Err(CmsFault::Memory),
    }
}
