// The opening of a store.
ghost use Rattle.std.specs.Prelude.{◌≡◌, ◌≢◌, ◌⊎◌, ℕ, ◌<◌, ◌≤◌, None, Some, IfOk, IfErr, OnOk, IsErrOf, is_some, slice_index, vec_capacity};
ghost use Rattle.std.specs.Option.{ForSome};
ghost use Rattle.sg_disk.specs.View.{Only};
ghost use Rattle.sg_disk.specs.Runs.{LeavesOnly, Ran};
ghost use Rattle.sg_disk.specs.Contents.{Contents, IsRoom};
ghost use Rattle.sg_disk.specs.StandsFor.{Two};
ghost use Rattle.sg_placing.specs.Placing.{AreAscending};
ghost use Rattle.sg_slots.specs.Slots.{in_slot, head_number, head_text};
ghost use Rattle.sg_slots.specs.Refusals.{EndedBy};
ghost use Rattle.sg_contents.specs.StandsFor.{StandsFor, StandsForOne, Between, disk_len};
ghost use Rattle.sg_staging.specs.Staged.{nothing_staged, IsStagedIn};
ghost use Rattle.sg_store_state.specs.Ready.{IsReady};
ghost use Rattle.sg_paged_store.specs.Faults.{damage_of};

use crate::renewal::renew;
use crate::store::Store;
use sg_base::limits::MANIFEST_TEXT;
use sg_disk::{DATA, Disk, OPEN_CALLS, TABLE_LEN};
use sg_paged_slots::{read_any_header, read_paged_slots};
use sg_pages::{MAP_LEN, PageSet, Shelf};
use sg_slots::{Format, Head, OpenFault, Slot, SlotPair};
use sg_staging::Staging;
use std::alloc::{AllocError, Global};

// All the memory that an opening takes.
#[derive(Drop)]
struct Rooms {
    zero: Shelf,
    one: Shelf,
    next: Shelf,
    staging: Staging,
    set: PageSet,
    table: Vec<u8>,
    map: Vec<u8>,
}

impl Rooms {
    fn reserve(alloc: Global) -> Result<Rooms, AllocError>
        ensures staged { IfOk result (λ r. r.staging ≡ nothing_staged) }
        ensures table { IfOk result (λ r. TABLE_LEN ≤ vec_capacity r.table) }
        ensures map { IfOk result (λ r. MAP_LEN ≤ vec_capacity r.map) }
    {
        Ok(Rooms {
            zero: Shelf::reserve(alloc)?,
            one: Shelf::reserve(alloc)?,
            next: Shelf::reserve(alloc)?,
            staging: Staging::reserve(alloc)?,
            set: PageSet::reserve(alloc)?,
            table: Vec::with_capacity(alloc, TABLE_LEN as usize)?,
            map: Vec::with_capacity(alloc, MAP_LEN as usize)?,
        })
    }
}

// Puts a store together from what was read.
fn assemble(format: Format, slots: SlotPair, rooms: Rooms) -> Store
    requires room { IsRoom format.room }
    requires zero_text { ForSome slots.zero (λ h. h.text ≤ MANIFEST_TEXT) }
    requires one_text { ForSome slots.one (λ h. h.text ≤ MANIFEST_TEXT) }
    requires zero_ascending { AreAscending rooms.zero.files }
    requires one_ascending { AreAscending rooms.one.files }
    requires zero_files { IsStagedIn format.room rooms.zero rooms.staging }
    requires one_files { IsStagedIn format.room rooms.one rooms.staging }
    requires staged { rooms.staging ≡ nothing_staged }
    requires table { TABLE_LEN ≤ vec_capacity rooms.table }
    requires map { MAP_LEN ≤ vec_capacity rooms.map }
    ensures display { result.display ≡ format.display }
    ensures epoch { result.epoch ≡ format.epoch }
    ensures room { result.room ≡ format.room }
    ensures spare { result.spare ≡ slots.spare }
    ensures gate { result.spare_open ≡ is_some (in_slot slots.spare slots.zero slots.one) }
    ensures number { result.number ≡ head_number (in_slot slots.spare slots.one slots.zero) }
    ensures text { result.text ≡ head_text (in_slot slots.spare slots.one slots.zero) }
    ensures files { result.current ≡ in_slot slots.spare rooms.one rooms.zero }
    ensures staged { result.staged ≡ nothing_staged }
{
    let Rooms {
        zero,
        one,
        next,
        staging,
        set: _,
        table,
        map,
    } = rooms;
    let current = pick_shelf(slots.spare, one, zero);
    let head = pick_head(slots.spare, slots.one, slots.zero);
    let other = pick_head(slots.spare, slots.zero, slots.one);
    let shown = shown_by(&head);
    Store {
        display: format.display,
        epoch: format.epoch,
        room: format.room,
        number: shown.0,
        text: shown.1,
        spare: slots.spare,
        spare_open: other.is_some(),
        current,
        staging,
        next,
        table,
        map,
    }
}

// The first shelf for slot 0, the second one for slot 1.
fn pick_shelf(slot: Slot, zero: Shelf, one: Shelf) -> Shelf
    ensures { result ≡ in_slot slot zero one }
{
    match slot {
        Slot::Zero => zero,
        Slot::One => one,
    }
}

// The same for what slots say.
fn pick_head(slot: Slot, zero: Option<Head>, one: Option<Head>) -> Option<Head>
    ensures { result ≡ in_slot slot zero one }
{
    match slot {
        Slot::Zero => zero,
        Slot::One => one,
    }
}

// The switch number and the length of the text of the current slot, or zeros without one.
fn shown_by(head: &Option<Head>) -> (u32, u32)
    ensures number { result.0 ≡ head_number head.now }
    ensures text { result.1 ≡ head_text head.now }
    ensures short { ForSome head.now (λ h. h.text ≤ MANIFEST_TEXT) → result.1 ≤ MANIFEST_TEXT }
{
    match head {
        Some(head) => (head.number, head.text),
        None => (0, 0),
    }
}

impl Store {
    /// Opens the store on a disk of either format: its current snapshot is that of the open slot with the greater number.
    ///
    /// It begins with a sync and reads the header. In a store of the old format it makes the checks of the slots, and then the
    /// upgrade. Then it reads both slots with their maps. A crash at any moment of it leaves the contents as they were. It takes
    /// all the memory of the store. `Unformatted` comes before every `Damaged`: no field is looked at on a disk that is too short,
    /// or behind a closed gate.
    pub fn open<D: Disk>(alloc: Global, disk: &mut D) -> Result<Store, OpenFault>

        // At any moment a crash leaves one of the contents that it could leave before.
        ensures between { (p q : Contents) → Between (D.view disk.old) (Two p q)
            → LeavesOnly (StandsForOne (Two p q)) (D.view disk.old) (D.view disk.new) }

        // The store is the one that a read gives, and each crash now leaves it. Nothing is staged.
        ensures ready { let v = D.view disk.old in IfOk result (λ s. (p : Contents) → v.told
            → StandsFor p v.bytes → IsReady (D.view disk.new) s p) }
        ensures settled { let v = D.view disk.old in IfOk result (λ s. (p q : Contents)
            → Between v (Two p q)
            → (r : Contents) × Two p q r × StandsFor r v.bytes × IsReady (D.view disk.new) s r) }
        ensures idle { IfOk result (λ s. s.staged ≡ nothing_staged) }

        // What it leaves of the disk.
        ensures stable { OnOk result ((D.view disk.old).told
            → Only (D.view disk.new).bytes (D.view disk.new)) }
        ensures size { IfOk result (λ s. (D.view disk.new).size ≡ disk_len s.room) }
        ensures ran { OnOk result (Ran OPEN_CALLS (D.view disk.old) (D.view disk.new)) }
        ensures ended { IfErr result (λ fault. EndedBy fault (D.view disk.old) (D.view disk.new)) }

        // `Unformatted` comes where the disk is too short, or its gate isn't open. `Damaged` comes behind an open gate of a disk
        // that is long enough, with the first fault of its bytes. Where they have none, it is opened, unless a call of the disk
        // fails or memory runs out.
        ensures unformatted { IsErrOf result OpenFault.Unformatted
            → ((D.view disk.new).size < DATA)
            ⊎ ((D.view disk.old).told → slice_index (D.view disk.old).bytes 0 ≢ 1) }
        ensures formatted { OnOk result ((D.view disk.old).told
            → slice_index (D.view disk.old).bytes 0 ≡ 1) }
        ensures damaged { let v = D.view disk.old in (place found : ℕ)
            → IsErrOf result (OpenFault.Damaged place found) → v.told
            → damage_of v.size v.bytes ≡ Some (record { place = place; found = found }) }
        ensures damaged_open { (place found : ℕ) → IsErrOf result (OpenFault.Damaged place found)
            → (D.view disk.old).told → slice_index (D.view disk.old).bytes 0 ≡ 1 }
        ensures damaged_long { (place found : ℕ) → IsErrOf result (OpenFault.Damaged place found)
            → DATA ≤ (D.view disk.new).size }
        ensures sound { OnOk result (let v = D.view disk.old in v.told
            → damage_of v.size v.bytes ≡ None) }

        // A disk that stands for contents is opened, unless the disk fails or memory runs out.
        ensures recognized { (p : Contents) → (D.view disk.old).told
            → StandsFor p (D.view disk.old).bytes → IsErrOf result OpenFault.Unformatted → ⊥ }
        ensures undamaged { (p : Contents) → (D.view disk.old).told
            → StandsFor p (D.view disk.old).bytes → (place found : ℕ)
            → IsErrOf result (OpenFault.Damaged place found) → ⊥ }
    {
        let mut rooms = Rooms::reserve(alloc)?;
        let header = read_any_header(disk)?;
        renew(alloc, disk, &header, &mut rooms.table)?;
        let slots = read_paged_slots(
            disk,
            header.format.room,
            &mut rooms.table,
            &mut rooms.map,
            &mut rooms.set,
            &mut rooms.zero,
            &mut rooms.one,
        )?;
        Ok(assemble(header.format, slots, rooms))
    }
}
