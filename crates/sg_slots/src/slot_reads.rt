// The reading of a slot.
ghost use Rattle.std.specs.Prelude.{◌≡◌, ℕ, ◌+◌, ◌*◌, ◌<◌, ◌≤◌, [], length, IfOk, IfErr, OnOk, OnErr, IsErrOf, None, Some, All, vec_capacity, vec_len, Option, true};
ghost use Rattle.std.specs.Option.{ForSome};
ghost use Rattle.sg_disk.specs.View.{range};
ghost use Rattle.sg_disk.specs.Runs.{LeavesOnly, Broke, Quiet};
ghost use Rattle.sg_placing.specs.Placing.{IsPlaced, AreAscending};
ghost use Rattle.sg_slots.specs.Bytes.{entries_of};
ghost use Rattle.sg_slots.specs.Slots.{slot_place, head_at, files_of, files_at};
ghost use Rattle.sg_slots.specs.Damage.{is_entry, fields_damage, entries_damage, slot_damage};
ghost use Rattle.sg_slots.specs.Refusals.{EndedBy};

use crate::entries::{placed_in, u32_in};
use crate::fault::OpenFault;
use crate::slots::{Head, Slot};
use sg_base::limits::{MANIFEST_FILES, MANIFEST_TEXT, MAX_FILE_LEN, MAX_ROOM};
use sg_disk::{COUNT, DATA, Disk, DiskFailed, ENTRY_LEN, NUMBER, TABLE, TABLE_LEN, TEXT_LEN};
use sg_placing::{Placed, Shelf};

/// The fields of a slot whose gate is open. It makes one call.
pub fn read_head<D: Disk>(disk: &mut D, slot: Slot) -> Result<Option<Head>, DiskFailed>
    requires disk { DATA ≤ (D.view disk.old).size }
    ensures head { IfOk result (λ h. (D.view disk.old).told
        → h ≡ head_at slot (D.view disk.old).bytes) }
    ensures quiet { OnOk result (Quiet 1 (D.view disk.old) (D.view disk.new)) }
    ensures any_moment { LeavesOnly (D.view disk.old).images (D.view disk.old) (D.view disk.new) }
    ensures size { (D.view disk.new).size ≡ (D.view disk.old).size }
    ensures broke { OnErr result (Broke (D.view disk.old) (D.view disk.new)) }
{
    let mut bytes = [0; 16];
    disk.read(slot.place(), &mut bytes)?;
    if bytes[0] != 1 {
        return Ok(None);
    }
    Ok(Some(Head {
        number: u32_in(&bytes, NUMBER),
        text: u32_in(&bytes, TEXT_LEN),
        count: u32_in(&bytes, COUNT),
    }))
}

/// Looks at the fields of an open slot.
pub fn check_head(slot: Slot, head: &Head) -> Result<(), OpenFault>
    ensures damaged { (place found : ℕ) → IsErrOf result (OpenFault.Damaged place found)
        → fields_damage (slot_place slot) (Some head.now)
        ≡ Some (record { place = place; found = found }) }
    ensures only { OnErr result ((place : ℕ) × (found : ℕ)
        × IsErrOf result (OpenFault.Damaged place found)) }
    ensures sound { OnOk result (fields_damage (slot_place slot) (Some head.now) ≡ None) }
    ensures count { OnOk result (head.now.count ≤ MANIFEST_FILES) }
    ensures text { OnOk result (head.now.text ≤ MANIFEST_TEXT) }
{
    let place = slot.place();
    if head.number == 0 {
        return Err(damage(place + NUMBER, head.number));
    }
    if head.text == 0 || u64::from(head.text) > MANIFEST_TEXT {
        return Err(damage(place + TEXT_LEN, head.text));
    }
    if u64::from(head.count) > MANIFEST_FILES {
        return Err(damage(place + COUNT, head.count));
    }
    Ok(())
}

/// The fault of a number that can't stand at a place.
pub fn damage(place: u64, found: u32) -> OpenFault
    ensures { result ≡ OpenFault.Damaged place found }
{
    OpenFault::Damaged {
        place,
        found: u64::from(found),
    }
}

/// Gives a buffer a length that it has room for.
pub fn set_len(buffer: &mut Vec<u8>, len: usize)
    requires { len ≤ vec_capacity buffer.old }
    ensures len { vec_len buffer.new ≡ len }
    ensures room { vec_capacity buffer.old ≤ vec_capacity buffer.new }
{
    match buffer.resize(len, 0) {
        Ok(()) => {}
        Err(_) => unreachable!(),
    }
}

/// Reads the first entries of a slot's table, in one call.
pub fn read_table<D: Disk>(
    disk: &mut D,
    slot: Slot,
    count: u32,
    table: &mut Vec<u8>,
) -> Result<(), DiskFailed>
    requires disk { DATA ≤ (D.view disk.old).size }
    requires count { count ≤ MANIFEST_FILES }
    requires room { TABLE_LEN ≤ vec_capacity table.old }
    ensures table { OnOk result ((D.view disk.old).told
        → table.new.items ≡ range (D.view disk.old).bytes (slot_place slot + TABLE)
        (ENTRY_LEN * count)) }
    ensures len { vec_len table.new ≡ ENTRY_LEN * count }
    ensures room { TABLE_LEN ≤ vec_capacity table.new }
    ensures quiet { OnOk result (Quiet 1 (D.view disk.old) (D.view disk.new)) }
    ensures any_moment { LeavesOnly (D.view disk.old).images (D.view disk.old) (D.view disk.new) }
    ensures size { (D.view disk.new).size ≡ (D.view disk.old).size }
    ensures broke { OnErr result (Broke (D.view disk.old) (D.view disk.new)) }
{
    set_len(table, ENTRY_LEN as usize * count as usize);
    disk.read(slot.place() + TABLE, table.as_mut_slice())?;
    Ok(())
}

// Whether an entry has a medium above the one before, a length within its limit, and a range in the data area.
fn is_sound(room: u64, before: u32, entry: &Placed) -> bool
    requires { room ≤ MAX_ROOM }
    ensures value { result ≡ is_entry room before entry.now }
    ensures placed { result ≡ true → IsPlaced room entry.now }
{
    let length = u64::from(entry.file.length);
    before < entry.file.media.0
        && 1 <= length
        && length <= MAX_FILE_LEN
        && DATA <= entry.place
        && entry.place.saturating_add(length) <= DATA + room
}

// The files of a table, one by one. At most 512 turns.
fn read_entries(
    room: u64,
    slot: Slot,
    count: u32,
    table: &[u8],
    files: &mut Shelf,
) -> Result<(), OpenFault>
    requires room { room ≤ MAX_ROOM }
    requires count { count ≤ MANIFEST_FILES }
    requires table { length table.now ≡ ENTRY_LEN * count }
    ensures damaged { (place found : ℕ) → IsErrOf result (OpenFault.Damaged place found)
        → entries_damage room (slot_place slot + TABLE) 0 (entries_of table.now count)
        ≡ Some (record { place = place; found = found }) }
    ensures only { OnErr result ((place : ℕ) × (found : ℕ)
        × IsErrOf result (OpenFault.Damaged place found)) }
    ensures sound { OnOk result (entries_damage room (slot_place slot + TABLE) 0
        (entries_of table.now count) ≡ None) }
    ensures files { OnOk result (files.new ≡ entries_of table.now count) }
    ensures placed { OnOk result (All (IsPlaced room) files.new) }
    ensures ascending { OnOk result (AreAscending files.new) }
    ensures few { OnOk result (length files.new ≤ MANIFEST_FILES) }
{
    files.clear();
    let mut before = 0;
    for i in 0..count {
        let entry = placed_in(table, ENTRY_LEN * u64::from(i));
        if !is_sound(room, before, &entry) {
            return Err(damage(
                slot.place() + TABLE + ENTRY_LEN * u64::from(i),
                entry.file.media.0,
            ));
        }
        before = entry.file.media.0;
        files.push(entry);
    }
    Ok(())
}

/// The fields of a slot whose gate is open, with its files on the shelf. It makes at most two calls.
pub fn read_slot<D: Disk>(
    disk: &mut D,
    slot: Slot,
    room: u64,
    table: &mut Vec<u8>,
    files: &mut Shelf,
) -> Result<Option<Head>, OpenFault>
    requires disk { DATA ≤ (D.view disk.old).size }
    requires room { room ≤ MAX_ROOM }
    requires table { TABLE_LEN ≤ vec_capacity table.old }

    // The disk stays as it is, at every moment.
    ensures any_moment { LeavesOnly (D.view disk.old).images (D.view disk.old) (D.view disk.new) }
    ensures size { (D.view disk.new).size ≡ (D.view disk.old).size }
    ensures quiet { OnOk result (Quiet 0 (D.view disk.old) (D.view disk.new)) }

    // After `Ok` it has read a sound slot.
    ensures sound { OnOk result ((D.view disk.old).told
        → slot_damage room slot (D.view disk.old).bytes ≡ None) }
    ensures head { IfOk result (λ h. (D.view disk.old).told
        → h ≡ head_at slot (D.view disk.old).bytes) }
    ensures files { OnOk result ((D.view disk.old).told
        → files.new ≡ files_at slot (D.view disk.old).bytes) }
    ensures text { IfOk result (λ h. ForSome h (λ x. x.text ≤ MANIFEST_TEXT)) }
    ensures placed { OnOk result (All (IsPlaced room) files.new) }
    ensures ascending { OnOk result (AreAscending files.new) }
    ensures few { OnOk result (length files.new ≤ MANIFEST_FILES) }
    ensures table { TABLE_LEN ≤ vec_capacity table.new }

    // Why it is refused, and what that leaves of the disk.
    ensures damaged { (place found : ℕ) → IsErrOf result (OpenFault.Damaged place found)
        → (D.view disk.old).told → slot_damage room slot (D.view disk.old).bytes
        ≡ Some (record { place = place; found = found }) }
    ensures ended { IfErr result (λ fault. EndedBy fault (D.view disk.old) (D.view disk.new)) }
    ensures formatted { IsErrOf result OpenFault.Unformatted → ⊥ }
    ensures memory { IsErrOf result OpenFault.Memory → ⊥ }
{
    let Some(head) = read_head(disk, slot)? else {
        files.clear();
        return Ok(None);
    };
    check_head(slot, &head)?;
    read_table(disk, slot, head.count, table)?;
    read_entries(room, slot, head.count, table.as_slice(), files)?;
    Ok(Some(head))
}
