// Entries of one table that overlap.
ghost use Rattle.std.specs.Prelude.{◌≡◌, ℕ, ◌+◌, ◌≤◌, [], length, None, Some, OnOk, OnErr, IsErrOf};
ghost use Rattle.sg_slots.specs.Slots.{slot_place};
ghost use Rattle.sg_slots.specs.Damage.{is_apart, overlap_damage};

use crate::fault::OpenFault;
use crate::slots::Slot;
use sg_base::limits::MANIFEST_FILES;
use sg_disk::{ENTRY_LEN, TABLE};
use sg_placing::Placed;

/// Looks whether each file of a slot is apart from those before it. It goes over the earlier files of each file, at most
/// 512 by 512 comparisons.
pub fn check_apart(slot: Slot, files: &[Placed]) -> Result<(), OpenFault>
    requires { length files.now ≤ MANIFEST_FILES }
    ensures damaged { (place found : ℕ) → IsErrOf result (OpenFault.Damaged place found)
        → overlap_damage (slot_place slot + TABLE) [] files.now
        ≡ Some (record { place = place; found = found }) }
    ensures only { OnErr result ((place : ℕ) × (found : ℕ)
        × IsErrOf result (OpenFault.Damaged place found)) }
    ensures sound { OnOk result (overlap_damage (slot_place slot + TABLE) [] files.now ≡ None) }
{
    for i in 0..files.len() {
        if !is_apart(&files[..i], &files[i]) {
            return Err(OpenFault::Damaged {
                place: slot.place() + TABLE + ENTRY_LEN * i as u64,
                found: u64::from(files[i].file.media.0),
            });
        }
    }
    Ok(())
}

// Whether a file overlaps none of these.
fn is_apart(earlier: &[Placed], placed: &Placed) -> bool
    ensures { result ≡ is_apart earlier.now placed.now }
{
    earlier.iter().all(|other| other.ends_by(placed.place) || placed.ends_by(other.place))
}
