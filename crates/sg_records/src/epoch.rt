//! Epochs of displays, and how many plays each has.

ghost use Rattle.std.specs.Prelude.{◌≡◌, ◌<◌, ◌^◌, ℕ, IfOk, MatchOption, Some, None, if◌then◌else◌};
ghost use Rattle.std.specs.Int.{w32, to_le_bytes};
ghost use Rattle.sg_base.specs.Keys.{number_of};
ghost use Rattle.sg_records.specs.Numbers.{IsEpoch, epoch_bytes, epoch_number, is_epoch};
ghost use Rattle.sg_records.specs.declared.epoch.Epoch.{Epoch};

use sg_base::limits::MAX_EPOCH;
use sg_base::{Key, Rank, Ranked, Rows};
use std::alloc::{AllocError, Global};

/// An epoch that a display was given, with the number of its plays.
#[derive(Clone, Copy, Debug, PartialEq, Eq)]
pub struct Epoch {
    pub display: u32,
    pub epoch: u32,
    pub plays: u32,
}

impl Epoch {
    /// The key under which an epoch is kept.
    pub fn key(display: u32, epoch: u32) -> Key
        ensures { result ≡ record { kind = 9; a = display; b = epoch } }
    {
        Key {
            kind: 9,
            a: u64::from(display),
            b: u64::from(epoch),
        }
    }
}

impl Ranked for Epoch {
    ghost rank = { epoch_number };

    fn rank(&self) -> Rank {
        Epoch::key(self.display, self.epoch).rank()
    }
}

/// The bytes of an epoch's row.
pub fn write_epoch(alloc: Global, epoch: Epoch) -> Result<Rows<u8>, AllocError>
    ensures { IfOk result (λ bytes. bytes ≡ epoch_bytes epoch) }
{
    Ok(Rows::from_vec(Vec::from_slice(alloc, &epoch.plays.to_le_bytes())?))
}

fn is_epoch(limit: u32, epoch: Epoch) -> bool
    ensures { result ≡ is_epoch limit epoch }
{
    epoch.display > 0 && epoch.epoch > 0 && epoch.epoch <= MAX_EPOCH && epoch.plays <= limit
}

// The number that four bytes say.
fn plays_in(bytes: &[u8]) -> Option<u32>
    ensures { MatchOption result
        ((n : ℕ) → n < 2 ^ 32 → to_le_bytes w32 n ≡ bytes.now → ⊥)
        (λ n. to_le_bytes w32 n ≡ bytes.now) }
{
    match <[u8; 4]>::try_from(bytes) {
        Ok(digits) => Some(u32::from_le_bytes(digits)),
        Err(_) => None,
    }
}

// The epoch of these numbers, where it may be kept.
fn checked(limit: u32, display: u32, epoch: u32, plays: u32) -> Option<Epoch>
    ensures { result ≡ (if is_epoch limit (record { display = display; epoch = epoch; plays = plays })
        then Some (record { display = display; epoch = epoch; plays = plays }) else None) }
{
    let epoch = Epoch {
        display,
        epoch,
        plays,
    };
    if is_epoch(limit, epoch) {
        Some(epoch)
    } else {
        None
    }
}

/// The epoch that is kept under a key with these bytes, where no epoch may have more plays than the limit; `None` if no
/// epoch is kept so.
pub fn read_epoch(limit: u32, key: Key, bytes: &[u8]) -> Option<Epoch>
    ensures { MatchOption result
        ((e : Epoch) → IsEpoch limit e → epoch_number e ≡ number_of key → epoch_bytes e ≡ bytes.now → ⊥)
        (λ e. IsEpoch limit e × (epoch_number e ≡ number_of key) × (epoch_bytes e ≡ bytes.now)) }
{
    if key.kind != 9 || key.a > 4_294_967_295 || key.b > 4_294_967_295 {
        return None;
    }
    match plays_in(bytes) {
        Some(plays) => checked(limit, key.a as u32, key.b as u32, plays),
        None => None,
    }
}
