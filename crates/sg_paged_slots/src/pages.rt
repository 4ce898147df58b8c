// The map of a slot.
ghost use Rattle.std.specs.Prelude.{◌≡◌, ℕ, ◌+◌, ◌*◌, ◌/◌, ◌<◌, ◌≤◌, [], length, sum_by, OnOk, OnErr, IsErrOf, None, Some, All};
ghost use Rattle.sg_disk.specs.Contents.{IsRoom};
ghost use Rattle.sg_pages.specs.Maps.{pages_of};
ghost use Rattle.sg_pages.specs.Shelves.{pages_for, IsFilled, IsPlacedIn};
ghost use Rattle.sg_paged_slots.specs.PagedDamage.{map_place, map_damage};

use sg_base::limits::MAX_ROOM;
use sg_disk::{DATA, PAGE};
use sg_pages::{MAP_ENTRY_LEN, MAP_LEN, PageSet, Shelf};
use sg_slots::{OpenFault, Slot, damage};

/// Reads the map of a slot whose files are on a shelf, and puts their pages there. It stops at the first entry that names no page
/// of the data area, one that an earlier entry names, or one that a file in a range touches. The set is for its own use.
pub fn read_pages(
    room: u64,
    slot: Slot,
    map: &[u8],
    set: &mut PageSet,
    files: &mut Shelf,
) -> Result<(), OpenFault>
    requires room { IsRoom room }
    requires map { length map.now ≡ MAP_ENTRY_LEN * sum_by pages_for files.old.files }
    requires none { files.old.pages ≡ [] }
    requires fit { sum_by pages_for files.old.files ≤ room / PAGE }
    requires placed { All (IsPlacedIn room) files.old.files }

    // After `Ok` the shelf has all pages of its files.
    ensures sound { OnOk result (map_damage room slot files.old.files
        (pages_of map.now (sum_by pages_for files.old.files)) ≡ None) }
    ensures files { files.new.files ≡ files.old.files }
    ensures pages { OnOk result (files.new.pages
        ≡ pages_of map.now (sum_by pages_for files.old.files)) }
    ensures filled { OnOk result (IsFilled files.new) }
    ensures inside { OnOk result (All (λ page. page < room / PAGE) files.new.pages) }

    // Why it is refused.
    ensures damaged { (place found : ℕ) → IsErrOf result (OpenFault.Damaged place found)
        → map_damage room slot files.old.files
        (pages_of map.now (sum_by pages_for files.old.files))
        ≡ Some (record { place = place; found = found }) }
    ensures only { OnErr result ((place : ℕ) × (found : ℕ)
        × IsErrOf result (OpenFault.Damaged place found)) }
{
    set.clear(room);
    set.add_ranges(files.files());
    let count = files.page_count();
    match files.read_map(map, count, set) {
        Ok(()) => Ok(()),
        Err(entry) => Err(damage(
            place_of_map(room, slot) + MAP_ENTRY_LEN * u64::from(entry.index),
            u32::from(entry.page),
        )),
    }
}

/// Where the map of a slot begins.
pub(crate) fn place_of_map(room: u64, slot: Slot) -> u64
    requires { room ≤ MAX_ROOM }
    ensures { result ≡ map_place room slot }
{
    match slot {
        Slot::Zero => DATA + room,
        Slot::One => DATA + room + MAP_LEN,
    }
}
