// The switch: the next snapshot becomes the current one by one byte.
ghost use Rattle.std.specs.Prelude.{◌≡◌, ◌⊎◌, ℕ, ◌+◌, ◌*◌, ◌^◌, ◌<◌, ◌≤◌, ◌==◌, length, map, OnOk, OnErr, IsErrOf, All, AllPairs, vec_len, vec_capacity, true, not};
ghost use Rattle.sg_disk.specs.Runs.{LeavesOnly, Ran, Broke, Keeps};
ghost use Rattle.sg_disk.specs.Contents.{Contents};
ghost use Rattle.sg_disk.specs.StandsFor.{Two};
ghost use Rattle.sg_pages.specs.Maps.{map_bytes};
ghost use Rattle.sg_pages.specs.Shelves.{stands, IsFilled};
ghost use Rattle.sg_slots.specs.Bytes.{table_bytes};
ghost use Rattle.sg_slots.specs.Slots.{IsClearOfSlots};
ghost use Rattle.sg_contents.specs.StandsFor.{Either, Between, disk_len};
ghost use Rattle.sg_staging.specs.Staged.{nothing_staged, whole_files, is_among, chosen, pages_of_files};
ghost use Rattle.sg_store_state.specs.State.{is_held};
ghost use Rattle.sg_store_state.specs.Ready.{after_switch, IsReady};

use crate::faults::SwitchFault;
use crate::store::Store;
use sg_base::Listed;
use sg_base::limits::{MANIFEST_FILES, MANIFEST_TEXT};
use sg_disk::{DATA, Disk, TABLE_LEN};
use sg_pages::{MAP_LEN, MAX_PAGES, Shelf, fill_map};
use sg_slots::{fill_table, head_fields_of};
use sg_staging::Staging;
use sg_switching::{PAGED_SWITCH_CALLS, write_snapshot};
use std::mem;

impl Store {
    /// Makes a manifest and its files current. At any moment a crash leaves the snapshot before or the one after it, whole.
    /// After `Ok` the switch number is one higher, and nothing is staged.
    ///
    /// It makes nine calls: the gate of the spare slot is closed (it is only read where it is closed already) and synced; the
    /// slot and its map are filled behind it and synced, and the staged files with them; then the gate is opened and synced.
    pub fn switch<D: Disk>(
        &mut self,
        disk: &mut D,
        manifest: &[u8],
        files: &[Listed],
    ) -> Result<(), SwitchFault>
        requires few { length files.now ≤ MANIFEST_FILES }
        requires ascending { AllPairs (λ f g. f.media.0 < g.media.0) files.now }
        requires held { All (λ f. is_held self.old f ≡ true) files.now }
        requires some { 1 ≤ length manifest.now }
        requires long { length manifest.now ≤ MANIFEST_TEXT }
        requires disk { (D.view disk.old).size ≡ disk_len self.old.room }

        // At any moment a crash leaves the contents before or those after, whole.
        ensures any_moment { let v = D.view disk.old in (p : Contents) → IsReady v self.old p
            → LeavesOnly (Either p (after_switch self.old v.bytes p manifest.now files.now))
            v (D.view disk.new) }

        // Nothing but slots and maps is written.
        ensures keeps { (place n : ℕ) → IsClearOfSlots place n
            → (place + n ≤ DATA + self.old.room) ⊎ (DATA + self.old.room + 2 * MAP_LEN ≤ place)
            → Keeps place n (D.view disk.old) (D.view disk.new) }
        ensures size { (D.view disk.new).size ≡ (D.view disk.old).size }
        ensures display { self.new.display ≡ self.old.display }
        ensures epoch { self.new.epoch ≡ self.old.epoch }
        ensures room { self.new.room ≡ self.old.room }

        // After `Ok` the disk is settled with the contents after, the store knows them, and nothing is staged.
        ensures ready { OnOk result (let v = D.view disk.old in (p : Contents) → IsReady v self.old p
            → IsReady (D.view disk.new) self.new
            (after_switch self.old v.bytes p manifest.now files.now)) }
        ensures number { OnOk result (self.new.number ≡ self.old.number + 1) }
        ensures text { OnOk result (self.new.text ≡ length manifest.now) }
        ensures files { OnOk result (map (λ p. p.file) self.new.current.files ≡ files.now) }
        ensures idle { OnOk result (self.new.staged ≡ nothing_staged) }
        ensures ran { OnOk result (Ran PAGED_SWITCH_CALLS (D.view disk.old) (D.view disk.new)) }

        // Where the numbers are used up, nothing changes.
        ensures spent { IsErrOf result SwitchFault.Spent → self.old.number ≡ u32.MAX }
        ensures spent_so { self.old.number ≡ u32.MAX → IsErrOf result SwitchFault.Spent }
        ensures spent_kept { IsErrOf result SwitchFault.Spent
            → (self.new ≡ self.old) × (disk.new ≡ disk.old) }

        // Where the disk failed, it stands for the contents before or those after.
        ensures broke { IsErrOf result SwitchFault.Disk
            → Broke (D.view disk.old) (D.view disk.new) }
        ensures between { IsErrOf result SwitchFault.Disk
            → (let v = D.view disk.old in (p : Contents) → IsReady v self.old p
            → Between (D.view disk.new)
            (Two p (after_switch self.old v.bytes p manifest.now files.now))) }
    {
        if self.number == u32::MAX {
            return Err(SwitchFault::Spent);
        }
        gather(
            &self.staging,
            &self.current,
            files,
            &mut self.next,
            &mut self.table,
            &mut self.map,
        );
        let number = self.number + 1;
        let text = manifest.len() as u32;
        let head = head_fields_of(number, text, files.len() as u32);
        write_snapshot(
            disk,
            self.room,
            self.spare,
            self.spare_open,
            &head,
            self.table.as_slice(),
            manifest,
            self.map.as_slice(),
        )?;
        mem::swap(&mut self.current, &mut self.next);
        self.staging.clear();
        self.spare_open = self.number != 0;
        self.spare = self.spare.opposite();
        self.number = number;
        self.text = text;
        Ok(())
    }
}

// Gathers the files of a switch, and the bytes of their table and of their map.
fn gather(
    staging: &Staging,
    current: &Shelf,
    files: &[Listed],
    next: &mut Shelf,
    table: &mut Vec<u8>,
    entries: &mut Vec<u8>,
)
    requires current { IsFilled current.now }
    requires sealed { IsFilled staging.now.sealed }
    requires few { length files.now ≤ MANIFEST_FILES }
    requires held { All (λ f. is_among current.now staging.now f ≡ true) files.now }
    requires pages { length (pages_of_files
        (map (chosen (whole_files current.now staging.now)) files.now)) ≤ MAX_PAGES }
    requires table { TABLE_LEN ≤ vec_capacity table.old }
    requires entries { MAP_LEN ≤ vec_capacity entries.old }
    ensures stands { stands next.new
        ≡ map (chosen (whole_files current.now staging.now)) files.now }
    ensures filled { IsFilled next.new }
    ensures ids { All (λ f. f.media.0 < 2 ^ 32) files.now }
    ensures table { table.new.items ≡ table_bytes next.new.files }
    ensures table_len { vec_len table.new ≤ TABLE_LEN }
    ensures table_room { TABLE_LEN ≤ vec_capacity table.new }
    ensures entries { entries.new.items ≡ map_bytes next.new.pages }
    ensures entries_len { vec_len entries.new ≤ MAP_LEN }
    ensures entries_room { MAP_LEN ≤ vec_capacity entries.new }
{
    staging.choose(current, files, next);
    fill_table(table, next.files());
    fill_map(entries, next.pages());
}
