// The reading of the slots, with their maps.
ghost use Rattle.std.specs.Prelude.{◌≡◌, ℕ, ◌+◌, ◌*◌, ◌≤◌, [], IfOk, IfErr, OnOk, OnErr, IsErrOf, None, Some, vec_len, vec_capacity};
ghost use Rattle.std.specs.Option.{ForSome};
ghost use Rattle.sg_disk.specs.View.{range};
ghost use Rattle.sg_disk.specs.Runs.{LeavesOnly, Broke, Quiet};
ghost use Rattle.sg_disk.specs.Contents.{IsRoom};
ghost use Rattle.sg_placing.specs.Placing.{AreAscending};
ghost use Rattle.sg_pages.specs.Shelves.{IsShelfIn};
ghost use Rattle.sg_slots.specs.Slots.{slot_place, head_at, spare_at};
ghost use Rattle.sg_slots.specs.Refusals.{EndedBy};
ghost use Rattle.sg_paged_slots.specs.PagedDamage.{map_place, files_damage, map_damage};
ghost use Rattle.sg_paged_slots.specs.PagedSlots.{shelf_at, paged_slot_damage, paged_slots_damage};

use crate::pages::{place_of_map, read_pages};
use crate::tables::read_files;
use sg_base::limits::{MANIFEST_TEXT, MAX_ROOM};
use sg_disk::{Disk, DiskFailed, TABLE, TABLE_LEN};
use sg_pages::{MAP_ENTRY_LEN, MAP_LEN, PageSet, Shelf};
use sg_slots::{
    Head, OpenFault, Slot, SlotPair, check_head, choose, read_head, read_table, set_len,
};

// Reads the first entries of a slot's map, in one call.
fn read_entries<D: Disk>(
    disk: &mut D,
    room: u64,
    slot: Slot,
    count: u32,
    map: &mut Vec<u8>,
) -> Result<(), DiskFailed>
    requires room { room ≤ MAX_ROOM }
    requires disk { map_place room slot + MAP_LEN ≤ (D.view disk.old).size }
    requires count { MAP_ENTRY_LEN * count ≤ MAP_LEN }
    requires space { MAP_LEN ≤ vec_capacity map.old }
    ensures map { OnOk result ((D.view disk.old).told
        → map.new.items ≡ range (D.view disk.old).bytes (map_place room slot)
        (MAP_ENTRY_LEN * count)) }
    ensures len { vec_len map.new ≡ MAP_ENTRY_LEN * count }
    ensures space { MAP_LEN ≤ vec_capacity map.new }
    ensures quiet { OnOk result (Quiet 1 (D.view disk.old) (D.view disk.new)) }
    ensures any_moment { LeavesOnly (D.view disk.old).images (D.view disk.old) (D.view disk.new) }
    ensures size { (D.view disk.new).size ≡ (D.view disk.old).size }
    ensures broke { OnErr result (Broke (D.view disk.old) (D.view disk.new)) }
{
    set_len(map, MAP_ENTRY_LEN as usize * count as usize);
    disk.read(place_of_map(room, slot), map.as_mut_slice())?;
    Ok(())
}

/// The fields of a slot whose gate is open, with its files and their pages on the shelf. It makes at most three calls. The set
/// is for its own use.
pub fn read_paged_slot<D: Disk>(
    disk: &mut D,
    slot: Slot,
    room: u64,
    table: &mut Vec<u8>,
    map: &mut Vec<u8>,
    set: &mut PageSet,
    files: &mut Shelf,
) -> Result<Option<Head>, OpenFault>
    requires room { IsRoom room }
    requires disk { map_place room slot + MAP_LEN ≤ (D.view disk.old).size }
    requires table { TABLE_LEN ≤ vec_capacity table.old }
    requires map { MAP_LEN ≤ vec_capacity map.old }

    // The disk stays as it is, at every moment.
    ensures any_moment { LeavesOnly (D.view disk.old).images (D.view disk.old) (D.view disk.new) }
    ensures size { (D.view disk.new).size ≡ (D.view disk.old).size }
    ensures quiet { OnOk result (Quiet 0 (D.view disk.old) (D.view disk.new)) }

    // After `Ok` it has read a sound slot.
    ensures sound { OnOk result ((D.view disk.old).told
        → paged_slot_damage room slot (D.view disk.old).bytes ≡ None) }
    ensures head { IfOk result (λ h. (D.view disk.old).told
        → h ≡ head_at slot (D.view disk.old).bytes) }
    ensures files { OnOk result ((D.view disk.old).told
        → files.new ≡ shelf_at room slot (D.view disk.old).bytes) }
    ensures text { IfOk result (λ h. ForSome h (λ x. x.text ≤ MANIFEST_TEXT)) }
    ensures placed { OnOk result (IsShelfIn room files.new) }
    ensures ascending { OnOk result (AreAscending files.new.files) }

    // Whatever disk it is, what was read has no fault.
    ensures table_sound { OnOk result (files_damage room (slot_place slot + TABLE) 0 []
        files.new.files ≡ None) }
    ensures map_sound { OnOk result (map_damage room slot files.new.files files.new.pages
        ≡ None) }
    ensures table { TABLE_LEN ≤ vec_capacity table.new }
    ensures map { MAP_LEN ≤ vec_capacity map.new }

    // Why it is refused, and what that leaves of the disk.
    ensures damaged { (place found : ℕ) → IsErrOf result (OpenFault.Damaged place found)
        → (D.view disk.old).told → paged_slot_damage room slot (D.view disk.old).bytes
        ≡ Some (record { place = place; found = found }) }
    ensures ended { IfErr result (λ fault. EndedBy fault (D.view disk.old) (D.view disk.new)) }
    ensures formatted { IsErrOf result OpenFault.Unformatted → ⊥ }
    ensures memory { IsErrOf result OpenFault.Memory → ⊥ }
{
    let Some(head) = read_head(disk, slot)? else {
        files.clear();
        return Ok(None);
    };
    check_head(slot, &head)?;
    read_table(disk, slot, head.count, table)?;
    read_files(room, slot, head.count, table.as_slice(), files)?;
    read_entries(disk, room, slot, files.page_count(), map)?;
    read_pages(room, slot, map.as_slice(), set, files)?;
    Ok(Some(head))
}

/// Reads both slots, each with its files on a shelf, and makes the checks of an opening in their order: slot 0, slot 1, equal
/// numbers. It makes at most six calls, through buffers that have room for a table and for a map, and takes no memory.
pub fn read_paged_slots<D: Disk>(
    disk: &mut D,
    room: u64,
    table: &mut Vec<u8>,
    map: &mut Vec<u8>,
    set: &mut PageSet,
    zero_files: &mut Shelf,
    one_files: &mut Shelf,
) -> Result<SlotPair, OpenFault>
    requires room { IsRoom room }
    requires disk { map_place room Slot.One + MAP_LEN ≤ (D.view disk.old).size }
    requires table { TABLE_LEN ≤ vec_capacity table.old }
    requires map { MAP_LEN ≤ vec_capacity map.old }

    // The disk stays as it is, at every moment.
    ensures any_moment { LeavesOnly (D.view disk.old).images (D.view disk.old) (D.view disk.new) }
    ensures size { (D.view disk.new).size ≡ (D.view disk.old).size }
    ensures quiet { OnOk result (Quiet 0 (D.view disk.old) (D.view disk.new)) }

    // After `Ok` it has read two sound slots.
    ensures sound { OnOk result ((D.view disk.old).told
        → paged_slots_damage room (D.view disk.old).bytes ≡ None) }
    ensures zero { IfOk result (λ s. (D.view disk.old).told
        → s.zero ≡ head_at Slot.Zero (D.view disk.old).bytes) }
    ensures one { IfOk result (λ s. (D.view disk.old).told
        → s.one ≡ head_at Slot.One (D.view disk.old).bytes) }
    ensures spare { IfOk result (λ s. s.spare ≡ spare_at s.zero s.one) }
    ensures zero_text { IfOk result (λ s. ForSome s.zero (λ h. h.text ≤ MANIFEST_TEXT)) }
    ensures one_text { IfOk result (λ s. ForSome s.one (λ h. h.text ≤ MANIFEST_TEXT)) }
    ensures zero_files { OnOk result ((D.view disk.old).told
        → zero_files.new ≡ shelf_at room Slot.Zero (D.view disk.old).bytes) }
    ensures one_files { OnOk result ((D.view disk.old).told
        → one_files.new ≡ shelf_at room Slot.One (D.view disk.old).bytes) }
    ensures zero_placed { OnOk result (IsShelfIn room zero_files.new) }
    ensures one_placed { OnOk result (IsShelfIn room one_files.new) }
    ensures zero_ascending { OnOk result (AreAscending zero_files.new.files) }
    ensures one_ascending { OnOk result (AreAscending one_files.new.files) }

    // Whatever disk it is, what was read has no fault.
    ensures zero_table { OnOk result (files_damage room (slot_place Slot.Zero + TABLE) 0 []
        zero_files.new.files ≡ None) }
    ensures zero_map { OnOk result (map_damage room Slot.Zero zero_files.new.files
        zero_files.new.pages ≡ None) }
    ensures one_table { OnOk result (files_damage room (slot_place Slot.One + TABLE) 0 []
        one_files.new.files ≡ None) }
    ensures one_map { OnOk result (map_damage room Slot.One one_files.new.files
        one_files.new.pages ≡ None) }
    ensures table { TABLE_LEN ≤ vec_capacity table.new }
    ensures map { MAP_LEN ≤ vec_capacity map.new }

    // Why it is refused, and what that leaves of the disk.
    ensures damaged { (place found : ℕ) → IsErrOf result (OpenFault.Damaged place found)
        → (D.view disk.old).told → paged_slots_damage room (D.view disk.old).bytes
        ≡ Some (record { place = place; found = found }) }
    ensures ended { IfErr result (λ fault. EndedBy fault (D.view disk.old) (D.view disk.new)) }
    ensures formatted { IsErrOf result OpenFault.Unformatted → ⊥ }
    ensures memory { IsErrOf result OpenFault.Memory → ⊥ }
{
    let zero = read_paged_slot(disk, Slot::Zero, room, table, map, set, zero_files)?;
    let one = read_paged_slot(disk, Slot::One, room, table, map, set, one_files)?;
    let spare = choose(&zero, &one)?;
    Ok(SlotPair { zero, one, spare })
}
