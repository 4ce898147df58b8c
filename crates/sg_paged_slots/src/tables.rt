// The entries of a table.
ghost use Rattle.std.specs.Prelude.{◌≡◌, ℕ, ◌+◌, ◌*◌, ◌/◌, ◌<◌, ◌≤◌, [], length, sum_by, OnOk, OnErr, IsErrOf, None, Some, All, true};
ghost use Rattle.sg_placing.specs.Placing.{AreAscending};
ghost use Rattle.sg_pages.specs.Shelves.{pages_for, IsPlacedIn};
ghost use Rattle.sg_slots.specs.Bytes.{entries_of};
ghost use Rattle.sg_slots.specs.Slots.{slot_place};
ghost use Rattle.sg_paged_slots.specs.PagedDamage.{is_beside, has_room, is_file_entry, files_damage};

use sg_base::limits::{MANIFEST_FILES, MAX_FILE_LEN, MAX_ROOM};
use sg_disk::{DATA, ENTRY_LEN, PAGE, TABLE};
use sg_pages::{Shelf, pages_for};
use sg_placing::Placed;
use sg_slots::{OpenFault, Slot, damage, placed_in};

/// Puts the files of a table on a shelf, which then has all of them but their pages. It stops at the first entry with a medium
/// that isn't above the one before, a length out of its limit, more pages so far than the data area has, or a range that
/// leaves the data area or overlaps an earlier one. It compares each range with those before it: at most 512 by 512.
pub fn read_files(
    room: u64,
    slot: Slot,
    count: u32,
    table: &[u8],
    files: &mut Shelf,
) -> Result<(), OpenFault>
    requires room { room ≤ MAX_ROOM }
    requires count { count ≤ MANIFEST_FILES }
    requires table { length table.now ≡ ENTRY_LEN * count }

    // After `Ok` the shelf has the sound files of the table.
    ensures sound { OnOk result (files_damage room (slot_place slot + TABLE) 0 []
        (entries_of table.now count) ≡ None) }
    ensures files { OnOk result (files.new
        ≡ record { files = entries_of table.now count; pages = [] }) }
    ensures fit { OnOk result (sum_by pages_for files.new.files ≤ room / PAGE) }
    ensures placed { OnOk result (All (IsPlacedIn room) files.new.files) }
    ensures ascending { OnOk result (AreAscending files.new.files) }

    // Why it is refused.
    ensures damaged { (place found : ℕ) → IsErrOf result (OpenFault.Damaged place found)
        → files_damage room (slot_place slot + TABLE) 0 [] (entries_of table.now count)
        ≡ Some (record { place = place; found = found }) }
    ensures only { OnErr result ((place : ℕ) × (found : ℕ)
        × IsErrOf result (OpenFault.Damaged place found)) }
{
    files.clear();
    let mut before = 0;
    let mut pages = 0;
    for i in 0..count {
        let entry = placed_in(table, ENTRY_LEN * u64::from(i));
        if !is_sound(room, before, pages, files.files(), &entry) {
            return Err(damage(
                slot.place() + TABLE + ENTRY_LEN * u64::from(i),
                entry.file.media.0,
            ));
        }
        before = entry.file.media.0;
        pages += pages_for(&entry);
        files.push(entry, &[]);
    }
    Ok(())
}

// Whether an entry behind earlier ones, which have so many pages, is sound.
fn is_sound(room: u64, before: u32, pages: u32, earlier: &[Placed], entry: &Placed) -> bool
    requires room { room ≤ MAX_ROOM }
    requires pages { pages ≡ sum_by pages_for earlier.now }
    requires fit { pages ≤ room / PAGE }
    ensures value { result ≡ is_file_entry room before earlier.now entry.now }
    ensures fit { result ≡ true → pages + pages_for entry.now ≤ room / PAGE }
    ensures placed { result ≡ true → IsPlacedIn room entry.now }
{
    let length = u64::from(entry.file.length);
    before < entry.file.media.0
        && 1 <= length
        && length <= MAX_FILE_LEN
        && has_room(room, pages, earlier, entry)
}

// Whether the data area has room for it.
fn has_room(room: u64, pages: u32, earlier: &[Placed], entry: &Placed) -> bool
    requires room { room ≤ MAX_ROOM }
    requires pages { pages ≡ sum_by pages_for earlier.now }
    requires fit { pages ≤ room / PAGE }
    ensures value { result ≡ has_room room earlier.now entry.now }
    ensures fit { result ≡ true → pages + pages_for entry.now ≤ room / PAGE }
    ensures placed { result ≡ true → IsPlacedIn room entry.now }
{
    let end = entry.place.saturating_add(u64::from(entry.file.length));
    u64::from(pages + pages_for(entry)) <= room / PAGE
        && (entry.place == 0
            || DATA <= entry.place && end <= DATA + room && is_beside(earlier, entry))
}

// Whether a file in a range overlaps none of these that stand in one.
fn is_beside(earlier: &[Placed], placed: &Placed) -> bool
    ensures { result ≡ is_beside earlier.now placed.now }
{
    earlier.iter().all(|other| {
        other.place == 0 || other.ends_by(placed.place) || placed.ends_by(other.place)
    })
}
