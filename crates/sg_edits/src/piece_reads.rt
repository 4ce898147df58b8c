//! What is read of the pieces that a keeper has of a medium.

ghost use Rattle.std.specs.Prelude.{◌≡◌, ◌++◌, ℕ, List, [], IfOk, IfErr, unwrap_or};
ghost use Rattle.std.specs.Str.{bytes_eq};
ghost use Rattle.md5.specs.Md5.{md5};
ghost use Rattle.sg_edits.specs.Pieces.{Holds, is_held};
ghost use Rattle.sg_keeper.specs.View.{Ran, Same};
ghost use Rattle.sg_records.specs.Numbers.{piece_number};
ghost use Rattle.sg_steps.specs.Calls.{Failed};

use md5::{Digest, Md5};
use sg_base::MediaId;
use sg_base::limits::PIECE_LEN;
use sg_keeper::{Keeper, KeeperFail};
use sg_records::piece_key;
use sg_steps::{CmsFault, pieces_of};
use std::alloc::Global;

/// Whether two texts of bytes are one.
pub(crate) fn are_same(one: &[u8], other: &[u8]) -> bool
    ensures { result ≡ bytes_eq one.now other.now }
{
    one == other
}

/// Whether a piece has come already: the medium has these very bytes at this offset.
pub(crate) fn is_held<K: Keeper>(
    alloc: Global,
    keeper: &mut K,
    media: MediaId,
    received: u32,
    offset: u32,
    bytes: &[u8],
) -> Result<bool, CmsFault>
    ensures held { IfOk result (λ held. (K.view keeper.old).told → (stored : List ℕ)
        → Holds media.0 stored received (K.view keeper.old).rows → held ≡ is_held stored offset bytes.now) }
    ensures ran { IfOk result (λ _. Ran 0 (K.view keeper.old) (K.view keeper.new)) }
    ensures failed { IfErr result (λ fault. Failed fault (K.view keeper.old) (K.view keeper.new)) }
    ensures same { Same (K.view keeper.old) (K.view keeper.new) }
{
    if offset % PIECE_LEN != 0 || offset >= received {
        return Ok(false);
    }
    let piece = piece_of(alloc, keeper, media, offset / PIECE_LEN)?;
    Ok(are_same(piece.as_slice(), bytes))
}

/// The digest of all bytes of a medium and of some more after them.
pub(crate) fn digest_with<K: Keeper>(
    alloc: Global,
    keeper: &mut K,
    media: MediaId,
    received: u32,
    last: &[u8],
) -> Result<[u8; 16], CmsFault>
    ensures digest { IfOk result (λ digest. (K.view keeper.old).told → (stored : List ℕ)
        → Holds media.0 stored received (K.view keeper.old).rows → digest ≡ md5 (stored ++ last.now)) }
    ensures ran { IfOk result (λ _. Ran 0 (K.view keeper.old) (K.view keeper.new)) }
    ensures failed { IfErr result (λ fault. Failed fault (K.view keeper.old) (K.view keeper.new)) }
    ensures same { Same (K.view keeper.old) (K.view keeper.new) }
{
    let mut hasher = Md5::new();
    for index in 0..pieces_of(received) {
        let piece = piece_of(alloc, keeper, media, index)?;
        hasher.update(piece.as_slice());
    }
    hasher.update(last);
    Ok(hasher.finalize())
}

// The bytes of a medium's piece; none if it isn't there.
fn piece_of<K: Keeper>(
    alloc: Global,
    keeper: &mut K,
    media: MediaId,
    index: u32,
) -> Result<Vec<u8>, CmsFault>
    ensures piece { IfOk result (λ piece. (K.view keeper.old).told →
        piece.items ≡ unwrap_or ((K.view keeper.old).rows (piece_number media.0 index)) []) }
    ensures ran { IfOk result (λ _. Ran 0 (K.view keeper.old) (K.view keeper.new)) }
    ensures failed { IfErr result (λ fault. Failed fault (K.view keeper.old) (K.view keeper.new)) }
    ensures same { Same (K.view keeper.old) (K.view keeper.new) }
{
    match keeper.get(&piece_key(media, index)) {
        Ok(Some(bytes)) => Ok(bytes),
        Ok(None) => Ok(Vec::new(alloc)),
        Err(KeeperFail::Failed) => Err(CmsFault::Keeper),
        Err(KeeperFail::Memory) => Err(CmsFault::Memory),
    }
}
