// The writing of a slot.
ghost use Rattle.std.specs.Prelude.{◌≡◌, ◌+◌, ◌*◌, ◌≤◌, ◌++◌, ◌==◌, ◌-◌, length, replicate, OnOk, OnErr, vec_len, vec_capacity, if◌then◌else◌};
ghost use Rattle.std.specs.List.{flat_map};
ghost use Rattle.sg_disk.specs.View.{put, Only};
ghost use Rattle.sg_disk.specs.Runs.{Ran, Broke, Within};
ghost use Rattle.sg_slots.specs.Bytes.{head_fields, placed_entry, table_bytes};
ghost use Rattle.sg_slots.specs.Slots.{slot_place};

use crate::slots::Slot;
use sg_base::limits::{MANIFEST_FILES, MANIFEST_TEXT};
use sg_disk::{DATA, Disk, DiskFailed, ENTRY_LEN, FIELDS, SLOT_LEN, TABLE, TABLE_LEN, TEXT};
use sg_placing::Placed;

/// The fields of a slot that stand behind its gate: switch number, length of the text, number of files.
pub fn head_fields_of(number: u32, text: u32, count: u32) -> [u8; 12]
    ensures { result ≡ head_fields number text count }
{
    let [n0, n1, n2, n3] = number.to_le_bytes();
    let [t0, t1, t2, t3] = text.to_le_bytes();
    let [c0, c1, c2, c3] = count.to_le_bytes();
    [n0, n1, n2, n3, t0, t1, t2, t3, c0, c1, c2, c3]
}

// Puts bytes behind others, in room that is there.
fn put_bytes(table: &mut Vec<u8>, bytes: &[u8])
    requires { vec_len table.old + length bytes.now ≤ vec_capacity table.old }
    ensures items { table.new.items ≡ table.old.items ++ bytes.now }
    ensures len { vec_len table.new ≡ vec_len table.old + length bytes.now }
    ensures room { vec_capacity table.old ≤ vec_capacity table.new }
{
    match table.extend_from_slice(bytes) {
        Ok(()) => {}
        Err(_) => unreachable!(),
    }
}

// Puts a file's entry behind the others.
fn put_entry(table: &mut Vec<u8>, placed: &Placed)
    requires { vec_len table.old + ENTRY_LEN ≤ vec_capacity table.old }
    ensures items { table.new.items ≡ table.old.items ++ placed_entry placed.now }
    ensures len { vec_len table.new ≡ vec_len table.old + ENTRY_LEN }
    ensures room { vec_capacity table.old ≤ vec_capacity table.new }
{
    put_bytes(table, &placed.file.media.0.to_le_bytes());
    put_bytes(table, &placed.file.length.to_le_bytes());
    put_bytes(table, &placed.file.md5);
    put_bytes(table, &placed.place.to_le_bytes());
}

/// Fills a slot behind its closed gate, and syncs: four calls. Neither the gate nor the three bytes behind it are written.
pub fn fill_slot<D: Disk>(
    disk: &mut D,
    slot: Slot,
    head: &[u8],
    table: &[u8],
    text: &[u8],
) -> Result<(), DiskFailed>
    requires disk { DATA ≤ (D.view disk.old).size }
    requires head { length head.now ≡ 12 }
    requires table { length table.now ≤ TABLE_LEN }
    requires text { length text.now ≤ MANIFEST_TEXT }

    // Every moment of the call keeps what stands outside these bytes of the slot.
    ensures within { Within (slot_place slot + FIELDS) (SLOT_LEN - FIELDS) (D.view disk.old)
        (D.view disk.new) }
    ensures size { (D.view disk.new).size ≡ (D.view disk.old).size }

    // After `Ok` a crash leaves exactly the bytes with these written.
    ensures written { OnOk result ((D.view disk.old).told
        → (D.view disk.new).bytes
        ≡ put (put (put (D.view disk.old).bytes (slot_place slot + FIELDS) head.now)
        (slot_place slot + TABLE) table.now) (slot_place slot + TEXT) text.now) }
    ensures stable { OnOk result ((D.view disk.old).told
        → Only (D.view disk.new).bytes (D.view disk.new)) }
    ensures ran { OnOk result (Ran 4 (D.view disk.old) (D.view disk.new)) }
    ensures broke { OnErr result (Broke (D.view disk.old) (D.view disk.new)) }
{
    let place = slot.place();
    disk.write_at(place + FIELDS, head)?;
    disk.write_at(place + TABLE, table)?;
    disk.write_at(place + TEXT, text)?;
    disk.sync()?;
    Ok(())
}

/// Makes the table of these files in a buffer: an entry for each, or one of zeros where there is none.
pub fn fill_table(table: &mut Vec<u8>, files: &[Placed])
    requires room { TABLE_LEN ≤ vec_capacity table.old }
    requires few { length files.now ≤ MANIFEST_FILES }
    ensures items { table.new.items ≡ table_bytes files.now }
    ensures len { vec_len table.new ≤ TABLE_LEN }
    ensures room { TABLE_LEN ≤ vec_capacity table.new }
{
    table.clear();
    if files.is_empty() {
        put_bytes(table, &[0; ENTRY_LEN as usize]);
        return;
    }
    put_entries(table, files);
}

// Puts the entries of files behind each other. At most 512 turns.
fn put_entries(table: &mut Vec<u8>, files: &[Placed])
    requires empty { vec_len table.old ≡ 0 }
    requires room { TABLE_LEN ≤ vec_capacity table.old }
    requires few { length files.now ≤ MANIFEST_FILES }
    ensures items { table.new.items ≡ flat_map placed_entry files.now }
    ensures len { vec_len table.new ≡ ENTRY_LEN * length files.now }
    ensures room { TABLE_LEN ≤ vec_capacity table.new }
{
    for placed in files {
        put_entry(table, placed);
    }
}
