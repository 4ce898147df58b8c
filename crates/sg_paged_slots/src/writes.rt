// The writing of a slot with its map.
ghost use Rattle.std.specs.Prelude.{◌≡◌, ◌+◌, ◌-◌, ◌≤◌, length, OnOk, OnErr};
ghost use Rattle.sg_disk.specs.View.{put, Only};
ghost use Rattle.sg_disk.specs.Runs.{Ran, Broke, Within};
ghost use Rattle.sg_slots.specs.Slots.{slot_place};
ghost use Rattle.sg_paged_slots.specs.PagedDamage.{map_place};
ghost use Rattle.sg_paged_slots.specs.Both.{WithinBoth};

use crate::pages::place_of_map;
use sg_base::limits::{MANIFEST_TEXT, MAX_ROOM};
use sg_disk::{DATA, Disk, DiskFailed, FIELDS, SLOT_LEN, TABLE, TABLE_LEN, TEXT};
use sg_pages::MAP_LEN;
use sg_slots::Slot;

// Writes the fields, the table and the text of a slot: three calls. Neither the gate nor the three bytes behind it are written.
fn write_slot<D: Disk>(
    disk: &mut D,
    slot: Slot,
    head: &[u8],
    table: &[u8],
    text: &[u8],
) -> Result<(), DiskFailed>
    requires disk { DATA ≤ (D.view disk.old).size }
    requires head { length head.now ≡ 12 }
    requires table { length table.now ≤ TABLE_LEN }
    requires text { length text.now ≤ MANIFEST_TEXT }
    ensures within { Within (slot_place slot + FIELDS) (SLOT_LEN - FIELDS) (D.view disk.old)
        (D.view disk.new) }
    ensures size { (D.view disk.new).size ≡ (D.view disk.old).size }
    ensures written { OnOk result ((D.view disk.old).told
        → (D.view disk.new).bytes
        ≡ put (put (put (D.view disk.old).bytes (slot_place slot + FIELDS) head.now)
        (slot_place slot + TABLE) table.now) (slot_place slot + TEXT) text.now) }
    ensures ran { OnOk result (Ran 3 (D.view disk.old) (D.view disk.new)) }
    ensures broke { OnErr result (Broke (D.view disk.old) (D.view disk.new)) }
{
    let place = slot.place();
    disk.write_at(place + FIELDS, head)?;
    disk.write_at(place + TABLE, table)?;
    disk.write_at(place + TEXT, text)?;
    Ok(())
}

/// Fills a slot behind its closed gate, and its map behind the data area, and syncs: five calls. Neither the gate nor the three
/// bytes behind it are written.
pub fn fill_paged_slot<D: Disk>(
    disk: &mut D,
    room: u64,
    slot: Slot,
    head: &[u8],
    table: &[u8],
    text: &[u8],
    map: &[u8],
) -> Result<(), DiskFailed>
    requires room { room ≤ MAX_ROOM }
    requires disk { map_place room slot + MAP_LEN ≤ (D.view disk.old).size }
    requires head { length head.now ≡ 12 }
    requires table { length table.now ≤ TABLE_LEN }
    requires text { length text.now ≤ MANIFEST_TEXT }
    requires map { length map.now ≤ MAP_LEN }

    // Every moment of the call keeps what stands outside these bytes of the slot and outside its map.
    ensures within { WithinBoth (slot_place slot + FIELDS) (SLOT_LEN - FIELDS)
        (map_place room slot) MAP_LEN (D.view disk.old) (D.view disk.new) }
    ensures size { (D.view disk.new).size ≡ (D.view disk.old).size }

    // After `Ok` a crash leaves exactly the bytes with these written.
    ensures written { OnOk result ((D.view disk.old).told
        → (D.view disk.new).bytes
        ≡ put (put (put (put (D.view disk.old).bytes (slot_place slot + FIELDS) head.now)
        (slot_place slot + TABLE) table.now) (slot_place slot + TEXT) text.now)
        (map_place room slot) map.now) }
    ensures stable { OnOk result ((D.view disk.old).told
        → Only (D.view disk.new).bytes (D.view disk.new)) }
    ensures ran { OnOk result (Ran 5 (D.view disk.old) (D.view disk.new)) }
    ensures broke { OnErr result (Broke (D.view disk.old) (D.view disk.new)) }
{
    write_slot(disk, slot, head, table, text)?;
    disk.write_at(place_of_map(room, slot), map)?;
    disk.sync()?;
    Ok(())
}
