// Both slots together.
ghost use Rattle.std.specs.Prelude.{◌≡◌, ℕ, ◌+◌, ◌≤◌, None, Some, IfOk, IfErr, OnOk, OnErr, IsErrOf, All, vec_capacity};
ghost use Rattle.std.specs.Option.{ForSome};
ghost use Rattle.sg_disk.specs.Runs.{LeavesOnly, Quiet};
ghost use Rattle.sg_placing.specs.Placing.{IsPlaced, AreAscending};
ghost use Rattle.sg_slots.specs.Slots.{head_at, files_at, spare_at};
ghost use Rattle.sg_slots.specs.Damage.{twin_damage, slots_damage};
ghost use Rattle.sg_slots.specs.Refusals.{EndedBy};

use crate::fault::OpenFault;
use crate::overlaps::check_apart;
use crate::slot_reads::read_slot;
use crate::slots::{Head, Slot};
use sg_base::limits::{MANIFEST_TEXT, MAX_ROOM};
use sg_disk::{DATA, Disk, NUMBER, SLOT_ONE, TABLE_LEN};
use sg_placing::Shelf;

/// What both slots say.
#[derive(Clone, Copy)]
pub struct SlotPair {
    pub zero: Option<Head>,
    pub one: Option<Head>,
    /// The slot that a switch writes. The snapshot is in the other one.
    pub spare: Slot,
}

/// Chooses the slot that a switch writes: one whose gate is closed, or the one of the lower number.
pub fn choose(zero: &Option<Head>, one: &Option<Head>) -> Result<Slot, OpenFault>
    ensures damaged { (place found : ℕ) → IsErrOf result (OpenFault.Damaged place found)
        → twin_damage zero.now one.now ≡ Some (record { place = place; found = found }) }
    ensures only { OnErr result ((place : ℕ) × (found : ℕ)
        × IsErrOf result (OpenFault.Damaged place found)) }
    ensures sound { OnOk result (twin_damage zero.now one.now ≡ None) }
    ensures spare { IfOk result (λ s. s ≡ spare_at zero.now one.now) }
{
    match (zero, one) {
        (None, _) => Ok(Slot::Zero),
        (Some(_), None) => Ok(Slot::One),
        (Some(zero), Some(one)) => {
            if zero.number == one.number {
                return Err(OpenFault::Damaged {
                    place: SLOT_ONE + NUMBER,
                    found: u64::from(one.number),
                });
            }
            if zero.number < one.number {
                Ok(Slot::Zero)
            } else {
                Ok(Slot::One)
            }
        }
    }
}

/// Reads both slots, each with its files on a shelf, and makes the checks of an opening in their order: slot 0, slot 1, equal
/// numbers, overlaps. It makes at most four calls, through a buffer that has room for a table, and takes no memory.
pub fn read_slots<D: Disk>(
    disk: &mut D,
    room: u64,
    table: &mut Vec<u8>,
    zero_files: &mut Shelf,
    one_files: &mut Shelf,
) -> Result<SlotPair, OpenFault>
    requires disk { DATA ≤ (D.view disk.old).size }
    requires room { room ≤ MAX_ROOM }
    requires table { TABLE_LEN ≤ vec_capacity table.old }

    // The disk stays as it is, at every moment.
    ensures any_moment { LeavesOnly (D.view disk.old).images (D.view disk.old) (D.view disk.new) }
    ensures size { (D.view disk.new).size ≡ (D.view disk.old).size }
    ensures quiet { OnOk result (Quiet 0 (D.view disk.old) (D.view disk.new)) }

    // After `Ok` it has read two sound slots.
    ensures sound { OnOk result ((D.view disk.old).told
        → slots_damage room (D.view disk.old).bytes ≡ None) }
    ensures zero { IfOk result (λ s. (D.view disk.old).told
        → s.zero ≡ head_at Slot.Zero (D.view disk.old).bytes) }
    ensures one { IfOk result (λ s. (D.view disk.old).told
        → s.one ≡ head_at Slot.One (D.view disk.old).bytes) }
    ensures spare { IfOk result (λ s. s.spare ≡ spare_at s.zero s.one) }
    ensures zero_text { IfOk result (λ s. ForSome s.zero (λ h. h.text ≤ MANIFEST_TEXT)) }
    ensures one_text { IfOk result (λ s. ForSome s.one (λ h. h.text ≤ MANIFEST_TEXT)) }
    ensures zero_files { OnOk result ((D.view disk.old).told
        → zero_files.new ≡ files_at Slot.Zero (D.view disk.old).bytes) }
    ensures one_files { OnOk result ((D.view disk.old).told
        → one_files.new ≡ files_at Slot.One (D.view disk.old).bytes) }
    ensures zero_placed { OnOk result (All (IsPlaced room) zero_files.new) }
    ensures one_placed { OnOk result (All (IsPlaced room) one_files.new) }
    ensures zero_ascending { OnOk result (AreAscending zero_files.new) }
    ensures one_ascending { OnOk result (AreAscending one_files.new) }
    ensures table { TABLE_LEN ≤ vec_capacity table.new }

    // Why it is refused, and what that leaves of the disk.
    ensures damaged { (place found : ℕ) → IsErrOf result (OpenFault.Damaged place found)
        → (D.view disk.old).told → slots_damage room (D.view disk.old).bytes
        ≡ Some (record { place = place; found = found }) }
    ensures ended { IfErr result (λ fault. EndedBy fault (D.view disk.old) (D.view disk.new)) }
    ensures formatted { IsErrOf result OpenFault.Unformatted → ⊥ }
    ensures memory { IsErrOf result OpenFault.Memory → ⊥ }
{
    let zero = read_slot(disk, Slot::Zero, room, table, zero_files)?;
    let one = read_slot(disk, Slot::One, room, table, one_files)?;
    let spare = choose(&zero, &one)?;
    check_apart(Slot::Zero, zero_files.as_slice())?;
    check_apart(Slot::One, one_files.as_slice())?;
    Ok(SlotPair { zero, one, spare })
}
