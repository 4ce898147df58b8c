// The opening of a store.
ghost use Rattle.std.specs.Prelude.{◌≡◌, ◌≢◌, ◌⊎◌, ℕ, ◌+◌, ◌<◌, ◌≤◌, [], length, None, Some, IfOk, IfErr, OnOk, OnErr, IsErrOf, is_some, All, vec_capacity, slice_index};
ghost use Rattle.std.specs.Option.{ForSome};
ghost use Rattle.sg_disk.specs.View.{Only};
ghost use Rattle.sg_disk.specs.Runs.{LeavesOnly, Ran, Quiet, Keeps};
ghost use Rattle.sg_disk.specs.Contents.{Contents};
ghost use Rattle.sg_disk.specs.StandsFor.{disk_len, StandsFor, StandsForOne, Two, Between};
ghost use Rattle.sg_placing.specs.Placing.{IsPlaced, AreAscending};
ghost use Rattle.sg_slots.specs.Bytes.{u32_at, u64_at};
ghost use Rattle.sg_slots.specs.Slots.{slot_place, head_at, files_at, spare_at, in_slot, head_number, head_text};
ghost use Rattle.sg_slots.specs.Damage.{slot_damage, twin_damage, overlap_damage, slots_damage, damage_of};
ghost use Rattle.sg_slots.specs.Refusals.{EndedBy};
ghost use Rattle.sg_store.specs.Ready.{IsReady};

use crate::store::Store;
use sg_base::limits::{MANIFEST_TEXT, MAX_ROOM};
use sg_disk::{DATA, Disk, JOURNAL, JOURNAL_LEN, OPEN_CALLS, TABLE_LEN};
use sg_placing::Shelf;
use sg_slots::{Format, OpenFault, Slot, SlotPair, read_header, read_slots};
use std::alloc::{AllocError, Global};

// All the memory that a store takes.
#[derive(Drop)]
struct Rooms {
    zero: Shelf,
    one: Shelf,
    staged: Shelf,
    table: Vec<u8>,
}

impl Rooms {
    fn reserve(alloc: Global) -> Result<Rooms, AllocError>
        ensures staged { IfOk result (λ r. r.staged ≡ []) }
        ensures table { IfOk result (λ r. TABLE_LEN ≤ vec_capacity r.table) }
    {
        Ok(Rooms {
            zero: Shelf::reserve(alloc)?,
            one: Shelf::reserve(alloc)?,
            staged: Shelf::reserve(alloc)?,
            table: Vec::with_capacity(alloc, TABLE_LEN as usize)?,
        })
    }
}

// Puts a store together from what was read.
fn assemble(header: Format, slots: SlotPair, rooms: Rooms) -> Store
    requires room { header.room ≤ MAX_ROOM }
    requires zero_text { ForSome slots.zero (λ h. h.text ≤ MANIFEST_TEXT) }
    requires one_text { ForSome slots.one (λ h. h.text ≤ MANIFEST_TEXT) }
    requires zero_files { All (IsPlaced header.room) rooms.zero }
    requires one_files { All (IsPlaced header.room) rooms.one }
    requires zero_ascending { AreAscending rooms.zero }
    requires one_ascending { AreAscending rooms.one }
    requires staged { rooms.staged ≡ [] }
    requires table { TABLE_LEN ≤ vec_capacity rooms.table }
    ensures display { result.display ≡ header.display }
    ensures epoch { result.epoch ≡ header.epoch }
    ensures room { result.room ≡ header.room }
    ensures spare { result.spare ≡ slots.spare }
    ensures gate { result.spare_open ≡ is_some (in_slot slots.spare slots.zero slots.one) }
    ensures number { result.number ≡ head_number (in_slot slots.spare slots.one slots.zero) }
    ensures text { result.text ≡ head_text (in_slot slots.spare slots.one slots.zero) }
    ensures files { result.current ≡ in_slot slots.spare rooms.one rooms.zero }
    ensures staged { result.staged ≡ [] }
    ensures half { result.half ≡ None }
{
    let Rooms {
        zero,
        one,
        staged,
        table,
    } = rooms;
    let (head, other, current, next) = match slots.spare {
        Slot::Zero => (slots.one, slots.zero, one, zero),
        Slot::One => (slots.zero, slots.one, zero, one),
    };
    let (number, text) = match head {
        Some(head) => (head.number, head.text),
        None => (0, 0),
    };
    Store {
        display: header.display,
        epoch: header.epoch,
        room: header.room,
        number,
        text,
        spare: slots.spare,
        spare_open: other.is_some(),
        current,
        staged,
        half: None,
        next,
        table,
    }
}

impl Store {
    /// Opens the store on a disk: its current snapshot is that of the open slot with the greater number.
    ///
    /// It begins with a sync and then only reads, so a crash at any moment of it leaves what a crash before it could leave.
    /// It takes all the memory of the store. `Unformatted` comes before every `Damaged`: no field is looked at on a disk that is
    /// too short, or behind a closed gate. Of several damages the answer is the first one in this order: the header; slot 0 and
    /// then slot 1, each by its fields and its entries; equal numbers; overlaps.
    pub fn open<D: Disk>(alloc: Global, disk: &mut D) -> Result<Store, OpenFault>

        // A crash at any moment of it leaves what a crash before it could leave.
        ensures any_moment { LeavesOnly (D.view disk.old).images (D.view disk.old)
            (D.view disk.new) }
        ensures between { (p q : Contents) → Between (D.view disk.old) (Two p q)
            → LeavesOnly (StandsForOne (Two p q)) (D.view disk.old) (D.view disk.new) }

        // The store is the one that a read gives, and each crash now leaves it. Nothing is staged.
        ensures ready { let v = D.view disk.old in IfOk result (λ s. (p : Contents) → v.told
            → StandsFor p v.bytes → IsReady (D.view disk.new) s p) }
        ensures settled { let v = D.view disk.old in IfOk result (λ s. (p q : Contents)
            → Between v (Two p q)
            → (r : Contents) × Two p q r × StandsFor r v.bytes × IsReady (D.view disk.new) s r) }
        ensures idle { IfOk result (λ s. s.half ≡ None) }
        ensures sealed { IfOk result (λ s. s.staged ≡ []) }

        // What it leaves of the disk.
        ensures keeps { OnOk result (Keeps JOURNAL JOURNAL_LEN (D.view disk.old) (D.view disk.new)) }
        ensures stable { OnOk result ((D.view disk.old).told
            → Only (D.view disk.new).bytes (D.view disk.new)) }
        ensures bytes { OnOk result ((D.view disk.old).told
            → (D.view disk.new).bytes ≡ (D.view disk.old).bytes) }
        ensures size { IfOk result (λ s. (D.view disk.new).size ≡ disk_len s.room) }
        ensures told_size { (D.view disk.old).told
            → (D.view disk.new).size ≡ (D.view disk.old).size }
        ensures ran { OnOk result (Ran OPEN_CALLS (D.view disk.old) (D.view disk.new)) }
        ensures ended { IfErr result (λ fault. EndedBy fault (D.view disk.old) (D.view disk.new)) }

        // Each refusal comes exactly by its cause.
        ensures unformatted { IsErrOf result OpenFault.Unformatted
            → ((D.view disk.new).size < DATA)
            ⊎ ((D.view disk.old).told → slice_index (D.view disk.old).bytes 0 ≢ 1) }
        ensures formatted { OnOk result ((D.view disk.old).told
            → slice_index (D.view disk.old).bytes 0 ≡ 1) }
        ensures damaged { let v = D.view disk.old in (place found : ℕ)
            → IsErrOf result (OpenFault.Damaged place found) → v.told
            → damage_of (D.view disk.new).size v.bytes
            ≡ Some (record { place = place; found = found }) }
        ensures damaged_open { (place found : ℕ) → IsErrOf result (OpenFault.Damaged place found)
            → (D.view disk.old).told → slice_index (D.view disk.old).bytes 0 ≡ 1 }
        ensures damaged_long { (place found : ℕ) → IsErrOf result (OpenFault.Damaged place found)
            → DATA ≤ (D.view disk.new).size }
        ensures sound { OnOk result ((D.view disk.old).told
            → damage_of (D.view disk.new).size (D.view disk.old).bytes ≡ None) }

        // A disk that stands for contents is opened, unless the disk fails or memory runs out.
        ensures recognized { (p : Contents) → (D.view disk.old).told
            → StandsFor p (D.view disk.old).bytes → IsErrOf result OpenFault.Unformatted → ⊥ }
        ensures undamaged { (p : Contents) → (D.view disk.old).told
            → StandsFor p (D.view disk.old).bytes → (place found : ℕ)
            → IsErrOf result (OpenFault.Damaged place found) → ⊥ }
    {
        let mut rooms = Rooms::reserve(alloc)?;
        let header = read_header(disk)?;
        let slots = read_slots(
            disk,
            header.room,
            &mut rooms.table,
            &mut rooms.zero,
            &mut rooms.one,
        )?;
        Ok(assemble(header, slots, rooms))
    }
}
