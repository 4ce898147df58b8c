// The disk of an older store becomes one of the new format.
ghost use Rattle.std.specs.Prelude.{◌≡◌, ℕ, ◌≤◌, None, Some, IfErr, OnOk, IsErrOf, vec_capacity, true, false};
ghost use Rattle.sg_disk.specs.View.{range, Only};
ghost use Rattle.sg_disk.specs.Runs.{LeavesOnly, Ran};
ghost use Rattle.sg_disk.specs.Contents.{Contents};
ghost use Rattle.sg_slots.specs.Damage.{slots_damage};
ghost use Rattle.sg_slots.specs.Refusals.{EndedBy};
ghost use Rattle.sg_upgrade.specs.Upgrading.{IsNewBut};
ghost use Rattle.sg_paged_slots.specs.Headers.{header_at, fits_disk};
ghost use Rattle.sg_contents.specs.StandsFor.{StandsFor, IsNew, disk_len};

use sg_base::limits::MAX_ROOM;
use sg_disk::{DATA, Disk, HEADER_LEN, TABLE_LEN};
use sg_paged_slots::Header;
use sg_placing::Shelf;
use sg_slots::{OpenFault, read_slots};
use sg_upgrade::upgrade;
use std::alloc::Global;

/// Makes the checks of an opening in the slots of a store of the old format, and upgrades its disk. A disk of the new format is
/// left as it is. It wants a disk that is stable, with the header that was read of it.
pub fn renew<D: Disk>(
    alloc: Global,
    disk: &mut D,
    header: &Header,
    table: &mut Vec<u8>,
) -> Result<(), OpenFault>
    requires room { header.now.format.room ≤ MAX_ROOM }
    requires size { fits_disk (D.view disk.old).size header.now ≡ true }
    requires table { TABLE_LEN ≤ vec_capacity table.old }

    // At any moment a crash leaves the contents as they were.
    ensures any_moment { let v = D.view disk.old in v.told → Only v.bytes v
        → header.now ≡ header_at v.bytes → (p : Contents) → StandsFor p v.bytes
        → LeavesOnly (StandsFor p) v (D.view disk.new) }

    // After `Ok` the disk is of the new format, for the same contents.
    ensures stable { OnOk result (let v = D.view disk.old in v.told → Only v.bytes v
        → Only (D.view disk.new).bytes (D.view disk.new)) }
    ensures stands { OnOk result (let v = D.view disk.old in v.told → Only v.bytes v
        → header.now ≡ header_at v.bytes → (p : Contents) → StandsFor p v.bytes
        → StandsFor p (D.view disk.new).bytes
        × IsNew (range (D.view disk.new).bytes 0 HEADER_LEN)) }
    ensures size { OnOk result ((D.view disk.new).size ≡ disk_len header.now.format.room) }

    // The old slots had no fault, and the upgrade has made a new disk of theirs. A new disk is left as it is.
    ensures sound { OnOk result ((D.view disk.old).told → header.now.old ≡ true
        → slots_damage header.now.format.room (D.view disk.old).bytes ≡ None) }
    ensures upgraded { OnOk result (let v = D.view disk.old in v.told → Only v.bytes v
        → header.now.old ≡ true
        → IsNewBut header.now.format.room v.bytes (D.view disk.new).bytes) }
    ensures kept { header.now.old ≡ false
        → (D.view disk.new).bytes ≡ (D.view disk.old).bytes }
    ensures table { TABLE_LEN ≤ vec_capacity table.new }
    ensures ran { OnOk result (Ran 0 (D.view disk.old) (D.view disk.new)) }

    // Why it is refused, and what that leaves of the disk.
    ensures damaged { (place found : ℕ) → IsErrOf result (OpenFault.Damaged place found)
        → (D.view disk.old).told → (header.now.old ≡ true)
        × (slots_damage header.now.format.room (D.view disk.old).bytes
        ≡ Some (record { place = place; found = found })) }
    ensures long { (place found : ℕ) → IsErrOf result (OpenFault.Damaged place found)
        → DATA ≤ (D.view disk.new).size }
    ensures formatted { IsErrOf result OpenFault.Unformatted → ⊥ }
    ensures ended { IfErr result (λ fault. EndedBy fault (D.view disk.old) (D.view disk.new)) }
{
    if !header.old {
        return Ok(());
    }
    let mut zero = Shelf::reserve(alloc)?;
    let mut one = Shelf::reserve(alloc)?;
    let room = header.format.room;
    let _ = read_slots(disk, room, table, &mut zero, &mut one)?;
    upgrade(disk, room)?;
    Ok(())
}
