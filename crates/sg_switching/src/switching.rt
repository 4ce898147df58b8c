// The switch from one snapshot to the next, on the disk.
ghost use Rattle.std.specs.Prelude.{◌≡◌, ◌⊎◌, ℕ, ◌+◌, ◌*◌, ◌≤◌, List, length, OnOk, OnErr};
ghost use Rattle.sg_disk.specs.Runs.{LeavesOnly, Ran, Broke, Keeps};
ghost use Rattle.sg_disk.specs.Contents.{StoredFile, Contents, switched};
ghost use Rattle.sg_slots.specs.Slots.{IsClearOfSlots};
ghost use Rattle.sg_contents.specs.StandsFor.{Either, disk_len};
ghost use Rattle.sg_switching.specs.Switching.{HasSpare, IsNext, IsSwitched};

use sg_base::limits::{MANIFEST_TEXT, MAX_ROOM};
use sg_disk::{DATA, Disk, DiskFailed, TABLE_LEN, close_gate, write_synced};
use sg_paged_slots::fill_paged_slot;
use sg_pages::MAP_LEN;
use sg_slots::Slot;

/// How many calls of the disk a switch makes.
pub const PAGED_SWITCH_CALLS: u64 = 9;

/// Writes a snapshot into the spare slot, which becomes the current one: its fields, its table, its text and its map. The gate of
/// the slot may be open. It makes nine calls.
pub fn write_snapshot<D: Disk>(
    disk: &mut D,
    room: u64,
    spare: Slot,
    opened: bool,
    head: &[u8],
    table: &[u8],
    text: &[u8],
    map: &[u8],
) -> Result<(), DiskFailed>
    requires room { room ≤ MAX_ROOM }
    requires disk { (D.view disk.old).size ≡ disk_len room }
    requires head { length head.now ≡ 12 }
    requires table { length table.now ≤ TABLE_LEN }
    requires text { length text.now ≤ MANIFEST_TEXT }
    requires map { length map.now ≤ MAP_LEN }

    // At any moment a crash leaves the contents before or those after, whole.
    ensures any_moment { let v = D.view disk.old in (p : Contents) (files : List StoredFile)
        → p.room ≡ room → HasSpare v spare opened p
        → IsNext v p files head.now table.now text.now map.now
        → LeavesOnly (Either p (switched p text.now files)) v (D.view disk.new) }

    // After `Ok` the next snapshot is the current one.
    ensures next { OnOk result (let v = D.view disk.old in (p : Contents) (files : List StoredFile)
        → p.room ≡ room → HasSpare v spare opened p
        → IsNext v p files head.now table.now text.now map.now
        → IsSwitched (D.view disk.new) spare p text.now files) }

    // Nothing but slots and maps is written.
    ensures keeps { (place n : ℕ) → IsClearOfSlots place n
        → (place + n ≤ DATA + room) ⊎ (DATA + room + 2 * MAP_LEN ≤ place)
        → Keeps place n (D.view disk.old) (D.view disk.new) }
    ensures size { (D.view disk.new).size ≡ (D.view disk.old).size }
    ensures ran { OnOk result (Ran PAGED_SWITCH_CALLS (D.view disk.old) (D.view disk.new)) }
    ensures broke { OnErr result (Broke (D.view disk.old) (D.view disk.new)) }
{
    close_gate(disk, spare.place(), opened)?;
    fill_paged_slot(disk, room, spare, head, table, text, map)?;
    write_synced(disk, spare.place(), &[1])?;
    Ok(())
}
