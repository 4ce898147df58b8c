//! A piece of a medium over the parts of a server: its tables, and the pieces that its keeper has.

ghost use Rattle.std.specs.Prelude.{◌≡◌, ◌+◌, ◌<◌, ◌≤◌, ℕ, List, Option, Some, None, true, false, IfOk, IfErr, IfSome, OnOk, OnErr, MatchOption, length, option_and_then};
ghost use Rattle.sg_base.specs.declared.kind.Kind.TheVariants as of_kind;
ghost use Rattle.sg_edits.specs.Edited.{core_of};
ghost use Rattle.sg_edits.specs.Media.{asked, kept_of};
ghost use Rattle.sg_edits.specs.Pieces.{AreSaved, Holds, held_reply, kept_with, kept_without, piece_put, put_at, put_last, put_new, put_next, wanted, with_bytes};
ghost use Rattle.sg_keeper.specs.View.{Ran, Same};
ghost use Rattle.sg_records.specs.declared.client.Client.{Client};
ghost use Rattle.sg_records.specs.declared.epoch.Epoch.{Epoch};
ghost use Rattle.sg_steps.specs.Calls.{Failed};
ghost use Rattle.sg_steps.specs.State.{Content, Stands, received_of};
ghost use Rattle.sg_tables.specs.Refusals.{row_at};
ghost use Rattle.sg_tables.specs.Rows.{at};
ghost use Rattle.sg_tables.specs.Tables.{file_of, holding, whole, with_medium};

use crate::piece_changes::{drop_changes, make_changes, piece_changes};
use crate::piece_reads::{are_same, digest_with, is_held};
use crate::piece_reply::PieceReply;
use sg_base::limits::PIECE_LEN;
use sg_base::{Kind, Listed, MediaId, Row};
use sg_keeper::Keeper;
use sg_steps::CmsFault;
use sg_tables::{RowId, Tables};
use std::alloc::Global;

/// A medium with what has come of it.
#[derive(Clone, Copy)]
pub(crate) struct Medium {
    pub media: MediaId,
    pub file: Listed,
    pub received: u32,
    pub complete: bool,
}

/// Takes a piece of a medium. The other parts of the server stay.
pub(crate) fn put_piece<K: Keeper>(
    alloc: Global,
    tables: &mut Tables,
    keeper: &mut K,
    media: MediaId,
    offset: u32,
    bytes: &[u8],
) -> Result<PieceReply, CmsFault>
    requires { AreSaved tables.old.rows }
    ensures put { (clients : List Client) (epochs : List Epoch) (limit : ℕ) →
        IfOk result (λ reply. (content : Content) → (K.view keeper.old).told
        → Stands (core_of tables.old.rows clients epochs limit) content (K.view keeper.old).rows
        → let put = piece_put (asked tables.old.rows media offset bytes.now (content.bytes media.0)
        (K.view keeper.old).rows) in
        (tables.new.rows ≡ put.rows) × (reply ≡ put.reply)
        × Stands (core_of tables.new.rows clients epochs limit) (with_bytes media.0 put.stored content)
        (K.view keeper.new).rows) }
    ensures saved { AreSaved tables.new.rows }
    ensures ran { OnOk result (Ran 0 (K.view keeper.old) (K.view keeper.new)) }

    // A fault leaves all as it was.
    ensures failed { IfErr result (λ fault. Failed fault (K.view keeper.old) (K.view keeper.new)) }
    ensures unchanged { OnErr result (tables.new.rows ≡ tables.old.rows) }
    ensures same { OnErr result (Same (K.view keeper.old) (K.view keeper.new)) }
{
    put(alloc, tables, keeper, media, offset, bytes)
}

// The same, of a keeper that has these bytes of the medium.
fn put<K: Keeper>(
    alloc: Global,
    tables: &mut Tables,
    keeper: &mut K,
    media: MediaId,
    offset: u32,
    bytes: &[u8],
) -> Result<PieceReply, CmsFault>
    requires { AreSaved tables.old.rows }
    ensures put { IfOk result (λ reply. (K.view keeper.old).told → (stored : List ℕ)
        → Holds media.0 stored (received_of media.0 tables.old.rows) (K.view keeper.old).rows
        → let put = piece_put (asked tables.old.rows media offset bytes.now stored (K.view keeper.old).rows) in
        (tables.new.rows ≡ put.rows) × (reply ≡ put.reply) × ((K.view keeper.new).rows ≡ put.kept)) }
    ensures saved { AreSaved tables.new.rows }
    ensures ran { OnOk result (Ran 0 (K.view keeper.old) (K.view keeper.new)) }
    ensures failed { IfErr result (λ fault. Failed fault (K.view keeper.old) (K.view keeper.new)) }
    ensures unchanged { OnErr result (tables.new.rows ≡ tables.old.rows) }
    ensures same { OnErr result (Same (K.view keeper.old) (K.view keeper.new)) }
{
    match medium_of(tables, media) {
        Some(medium) => put_at(alloc, tables, keeper, medium, offset, bytes),
        None => Ok(PieceReply::Unknown(media)),
    }
}

// The medium of this id.
fn medium_of(tables: &Tables, media: MediaId) -> Option<Medium>
    ensures there { MatchOption result
        (option_and_then (λ e. file_of e.row) (row_at (at of_kind.Media media.0) tables.now.rows) ≡ None)
        (λ m. row_at (at of_kind.Media media.0) tables.now.rows ≡ Some (kept_of m)) }
    ensures media { IfSome result (λ m. m.media ≡ media) }
{
    let id = RowId {
        kind: Kind::Media,
        id: media.0,
    };
    match tables.entry(id) {
        Some(entry) => match entry.row() {
            Row::Media(file) => Some(Medium {
                media,
                file: *file,
                received: entry.received(),
                complete: entry.is_complete(),
            }),
            _ => None,
        },
        None => None,
    }
}

// Takes a piece of a medium that is there.
fn put_at<K: Keeper>(
    alloc: Global,
    tables: &mut Tables,
    keeper: &mut K,
    medium: Medium,
    offset: u32,
    bytes: &[u8],
) -> Result<PieceReply, CmsFault>
    requires there { row_at (at of_kind.Media medium.media.0) tables.old.rows ≡ Some (kept_of medium) }
    requires saved { AreSaved tables.old.rows }
    ensures put { IfOk result (λ reply. (K.view keeper.old).told → (stored : List ℕ)
        → Holds medium.media.0 stored medium.received (K.view keeper.old).rows
        → let put = put_at (asked tables.old.rows medium.media offset bytes.now stored (K.view keeper.old).rows)
        medium.file (kept_of medium) in
        (tables.new.rows ≡ put.rows) × (reply ≡ put.reply) × ((K.view keeper.new).rows ≡ put.kept)) }
    ensures saved { AreSaved tables.new.rows }
    ensures ran { OnOk result (Ran 0 (K.view keeper.old) (K.view keeper.new)) }
    ensures failed { IfErr result (λ fault. Failed fault (K.view keeper.old) (K.view keeper.new)) }
    ensures unchanged { OnErr result (tables.new.rows ≡ tables.old.rows) }
    ensures same { OnErr result (Same (K.view keeper.old) (K.view keeper.new)) }
{
    if is_held(alloc, keeper, medium.media, medium.received, offset, bytes)? {
        return Ok(held_reply(medium));
    }
    put_new(alloc, tables, keeper, medium, offset, bytes)
}

fn held_reply(medium: Medium) -> PieceReply
    ensures { result ≡ held_reply medium.media (kept_of medium) }
{
    if medium.complete {
        PieceReply::Complete(medium.media)
    } else {
        PieceReply::Held(medium.received)
    }
}

// How many bytes the next piece of a file has.
fn wanted(length: u32, received: u32) -> u32
    ensures { result ≡ wanted length received }
{
    PIECE_LEN.min(length.saturating_sub(received))
}

// Takes a piece that hasn't come.
fn put_new<K: Keeper>(
    alloc: Global,
    tables: &mut Tables,
    keeper: &mut K,
    medium: Medium,
    offset: u32,
    bytes: &[u8],
) -> Result<PieceReply, CmsFault>
    requires there { row_at (at of_kind.Media medium.media.0) tables.old.rows ≡ Some (kept_of medium) }
    requires saved { AreSaved tables.old.rows }
    ensures put { IfOk result (λ reply. (K.view keeper.old).told → (stored : List ℕ)
        → Holds medium.media.0 stored medium.received (K.view keeper.old).rows
        → let put = put_new (asked tables.old.rows medium.media offset bytes.now stored (K.view keeper.old).rows)
        medium.file (kept_of medium) in
        (tables.new.rows ≡ put.rows) × (reply ≡ put.reply) × ((K.view keeper.new).rows ≡ put.kept)) }
    ensures saved { AreSaved tables.new.rows }
    ensures ran { OnOk result (Ran 0 (K.view keeper.old) (K.view keeper.new)) }
    ensures failed { IfErr result (λ fault. Failed fault (K.view keeper.old) (K.view keeper.new)) }
    ensures unchanged { OnErr result (tables.new.rows ≡ tables.old.rows) }
    ensures same { OnErr result (Same (K.view keeper.old) (K.view keeper.new)) }
{
    if medium.complete || offset != medium.received {
        return Ok(PieceReply::PieceOrder {
            expected: medium.received,
        });
    }
    let wanted = wanted(medium.file.length, medium.received);
    if bytes.len() != wanted as usize {
        return Ok(PieceReply::PieceLength { expected: wanted });
    }
    put_next(alloc, tables, keeper, medium, bytes)
}

// Takes the next piece of a medium, which has its length.
fn put_next<K: Keeper>(
    alloc: Global,
    tables: &mut Tables,
    keeper: &mut K,
    medium: Medium,
    bytes: &[u8],
) -> Result<PieceReply, CmsFault>
    requires there { row_at (at of_kind.Media medium.media.0) tables.old.rows ≡ Some (kept_of medium) }
    requires saved { AreSaved tables.old.rows }
    requires open { medium.complete ≡ false }
    requires length { length bytes.now ≡ wanted medium.file.length medium.received }
    ensures put { IfOk result (λ reply. (K.view keeper.old).told → (stored : List ℕ) → (offset : ℕ)
        → Holds medium.media.0 stored medium.received (K.view keeper.old).rows
        → let put = put_next (asked tables.old.rows medium.media offset bytes.now stored (K.view keeper.old).rows)
        medium.file (kept_of medium) in
        (tables.new.rows ≡ put.rows) × (reply ≡ put.reply) × ((K.view keeper.new).rows ≡ put.kept)) }
    ensures saved { AreSaved tables.new.rows }
    ensures ran { OnOk result (Ran 1 (K.view keeper.old) (K.view keeper.new)) }
    ensures failed { IfErr result (λ fault. Failed fault (K.view keeper.old) (K.view keeper.new)) }
    ensures unchanged { OnErr result (tables.new.rows ≡ tables.old.rows) }
    ensures same { OnErr result (Same (K.view keeper.old) (K.view keeper.new)) }
{
    let received = medium.received + bytes.len() as u32;
    if received < medium.file.length {
        return hold(alloc, tables, keeper, medium, bytes, received);
    }
    put_last(alloc, tables, keeper, medium, bytes)
}

// Takes the last piece of a medium: it is complete, or all its pieces are dropped.
fn put_last<K: Keeper>(
    alloc: Global,
    tables: &mut Tables,
    keeper: &mut K,
    medium: Medium,
    bytes: &[u8],
) -> Result<PieceReply, CmsFault>
    requires there { row_at (at of_kind.Media medium.media.0) tables.old.rows ≡ Some (kept_of medium) }
    requires saved { AreSaved tables.old.rows }
    requires open { medium.complete ≡ false }
    ensures put { IfOk result (λ reply. (K.view keeper.old).told → (stored : List ℕ) → (offset : ℕ)
        → Holds medium.media.0 stored medium.received (K.view keeper.old).rows
        → let put = put_last (asked tables.old.rows medium.media offset bytes.now stored (K.view keeper.old).rows)
        medium.file (kept_of medium) in
        (tables.new.rows ≡ put.rows) × (reply ≡ put.reply) × ((K.view keeper.new).rows ≡ put.kept)) }
    ensures saved { AreSaved tables.new.rows }
    ensures ran { OnOk result (Ran 1 (K.view keeper.old) (K.view keeper.new)) }
    ensures failed { IfErr result (λ fault. Failed fault (K.view keeper.old) (K.view keeper.new)) }
    ensures unchanged { OnErr result (tables.new.rows ≡ tables.old.rows) }
    ensures same { OnErr result (Same (K.view keeper.old) (K.view keeper.new)) }
{
    let found = digest_with(alloc, keeper, medium.media, medium.received, bytes)?;
    if are_same(&found, &medium.file.md5) {
        complete(alloc, tables, keeper, medium, bytes)
    } else {
        drop_all(alloc, tables, keeper, medium, found)
    }
}

// Adds a piece that isn't the last.
fn hold<K: Keeper>(
    alloc: Global,
    tables: &mut Tables,
    keeper: &mut K,
    medium: Medium,
    bytes: &[u8],
    received: u32,
) -> Result<PieceReply, CmsFault>
    requires { row_at (at of_kind.Media medium.media.0) tables.old.rows ≡ Some (kept_of medium) }
    ensures reply { IfOk result (λ reply. reply ≡ PieceReply.Held received) }
    ensures tables { OnOk result (tables.new.rows ≡ with_medium (holding received) medium.media tables.old.rows) }
    ensures rows { OnOk result ((K.view keeper.old).told → (K.view keeper.new).rows
        ≡ kept_with medium.media medium.received bytes.now (holding received (kept_of medium))
        (K.view keeper.old).rows) }
    ensures ran { OnOk result (Ran 1 (K.view keeper.old) (K.view keeper.new)) }
    ensures failed { IfErr result (λ fault. Failed fault (K.view keeper.old) (K.view keeper.new)) }
    ensures unchanged { OnErr result (tables.new.rows ≡ tables.old.rows) }
    ensures same { OnErr result (Same (K.view keeper.old) (K.view keeper.new)) }
{
    let later = Medium {
        received,
        complete: false,
        ..medium
    };
    let changes = piece_changes(alloc, later, medium.received / PIECE_LEN, bytes)?;
    make_changes(keeper, changes.as_slice())?;
    tables.receive(medium.media, received);
    Ok(PieceReply::Held(received))
}

// Adds the last piece of a medium, which is complete then.
fn complete<K: Keeper>(
    alloc: Global,
    tables: &mut Tables,
    keeper: &mut K,
    medium: Medium,
    bytes: &[u8],
) -> Result<PieceReply, CmsFault>
    requires { row_at (at of_kind.Media medium.media.0) tables.old.rows ≡ Some (kept_of medium) }
    ensures reply { IfOk result (λ reply. reply ≡ PieceReply.Complete medium.media) }
    ensures tables { OnOk result (tables.new.rows ≡ with_medium whole medium.media tables.old.rows) }
    ensures rows { OnOk result ((K.view keeper.old).told → (K.view keeper.new).rows
        ≡ kept_with medium.media medium.received bytes.now (whole (kept_of medium)) (K.view keeper.old).rows) }
    ensures ran { OnOk result (Ran 1 (K.view keeper.old) (K.view keeper.new)) }
    ensures failed { IfErr result (λ fault. Failed fault (K.view keeper.old) (K.view keeper.new)) }
    ensures unchanged { OnErr result (tables.new.rows ≡ tables.old.rows) }
    ensures same { OnErr result (Same (K.view keeper.old) (K.view keeper.new)) }
{
    let later = Medium {
        received: medium.file.length,
        complete: true,
        ..medium
    };
    let changes = piece_changes(alloc, later, medium.received / PIECE_LEN, bytes)?;
    make_changes(keeper, changes.as_slice())?;
    tables.complete(medium.media);
    Ok(PieceReply::Complete(medium.media))
}

// Drops all pieces of a medium, whose bytes have this digest.
fn drop_all<K: Keeper>(
    alloc: Global,
    tables: &mut Tables,
    keeper: &mut K,
    medium: Medium,
    found: [u8; 16],
) -> Result<PieceReply, CmsFault>
    requires { row_at (at of_kind.Media medium.media.0) tables.old.rows ≡ Some (kept_of medium) }
    ensures reply { IfOk result (λ reply. reply ≡ PieceReply.DigestDiffers found) }
    ensures tables { OnOk result (tables.new.rows ≡ with_medium (holding 0) medium.media tables.old.rows) }
    ensures rows { OnOk result ((K.view keeper.old).told → (K.view keeper.new).rows
        ≡ kept_without medium.media medium.received (holding 0 (kept_of medium)) (K.view keeper.old).rows) }
    ensures ran { OnOk result (Ran 1 (K.view keeper.old) (K.view keeper.new)) }
    ensures failed { IfErr result (λ fault. Failed fault (K.view keeper.old) (K.view keeper.new)) }
    ensures unchanged { OnErr result (tables.new.rows ≡ tables.old.rows) }
    ensures same { OnErr result (Same (K.view keeper.old) (K.view keeper.new)) }
{
    let later = Medium {
        received: 0,
        complete: false,
        ..medium
    };
    let changes = drop_changes(alloc, later, medium.received)?;
    make_changes(keeper, changes.as_slice())?;
    tables.receive(medium.media, 0);
    Ok(PieceReply::DigestDiffers { found })
}
