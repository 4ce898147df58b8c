// The switch: the next snapshot becomes the current one by one byte.
ghost use Rattle.std.specs.Prelude.{◌≡◌, ◌≢◌, ℕ, ◌+◌, ◌-◌, ◌<◌, ◌≤◌, ◌^◌, ◌==◌, ◌*◌, [], length, map, None, OnOk, OnErr, IsErrOf, All, AllPairs, true, false, not};
ghost use Rattle.sg_disk.specs.Runs.{LeavesOnly, Ran, Broke, Within, Keeps};
ghost use Rattle.sg_disk.specs.Contents.{Contents};
ghost use Rattle.sg_disk.specs.StandsFor.{disk_len, StandsFor, Either, Two, Between, HasOneJournal};
ghost use Rattle.sg_placing.specs.Placing.{IsPlaced, AreAscending};
ghost use Rattle.sg_slots.specs.Bytes.{table_bytes};
ghost use Rattle.sg_slots.specs.Slots.{opposite, IsClearOfSlots};
ghost use Rattle.sg_store.specs.Ready.{whole_files, chosen, is_held, after_switch, KeepsSnapshot, IsReady};

use crate::choice::choose_files;
use crate::faults::SwitchFault;
use crate::store::Store;
use sg_base::Listed;
use sg_base::limits::{MANIFEST_FILES, MANIFEST_TEXT};
use sg_disk::{Disk, SLOT_LEN, SLOT_ZERO, SWITCH_CALLS, TABLE_LEN, close_gate, write_synced};
use sg_slots::{fill_slot, fill_table, head_fields_of};
use std::mem;

impl Store {
    /// Makes a manifest and its files current. At any moment a crash leaves the snapshot before or the one after it, whole.
    /// After `Ok` the switch number is one higher, and nothing is staged.
    ///
    /// It makes eight calls: the gate of the spare slot is closed (it is only read where it is closed already) and synced; the
    /// slot is filled behind it and synced, and the staged files with it; then the gate is opened and synced.
    pub fn switch<D: Disk>(
        &mut self,
        disk: &mut D,
        manifest: &[u8],
        files: &[Listed],
    ) -> Result<(), SwitchFault>
        requires few { length files.now ≤ MANIFEST_FILES }
        requires ascending { AllPairs (λ f g. f.media.0 < g.media.0) files.now }
        requires held { All (λ f. is_held self.old f ≡ true) files.now }
        requires some { 1 ≤ length manifest.now }
        requires long { length manifest.now ≤ MANIFEST_TEXT }
        requires disk { (D.view disk.old).size ≡ disk_len self.old.room }

        // At any moment a crash leaves the contents before or those after, whole. Nothing but the slots is written.
        ensures any_moment { let v = D.view disk.old in (p : Contents) → IsReady v self.old p
            → LeavesOnly (Either p (after_switch self.old v.bytes p manifest.now files.now))
            v (D.view disk.new) }
        ensures within { Within SLOT_ZERO (2 * SLOT_LEN) (D.view disk.old) (D.view disk.new) }
        ensures keeps { (place n : ℕ) → IsClearOfSlots place n
            → Keeps place n (D.view disk.old) (D.view disk.new) }
        ensures journal { (D.view disk.old).told → HasOneJournal (D.view disk.old)
            → HasOneJournal (D.view disk.new) }
        ensures size { (D.view disk.new).size ≡ (D.view disk.old).size }
        ensures display { self.new.display ≡ self.old.display }
        ensures epoch { self.new.epoch ≡ self.old.epoch }
        ensures room { self.new.room ≡ self.old.room }

        // After `Ok` the disk is settled with the contents after, the store knows them, and nothing is staged.
        ensures ready { OnOk result (let v = D.view disk.old in (p : Contents) → IsReady v self.old p
            → IsReady (D.view disk.new) self.new
            (after_switch self.old v.bytes p manifest.now files.now)) }
        ensures number { OnOk result (self.new.number ≡ self.old.number + 1) }
        ensures text { OnOk result (self.new.text ≡ length manifest.now) }
        ensures files { OnOk result (map (λ p. p.file) self.new.current ≡ files.now) }
        ensures idle { OnOk result (self.new.half ≡ None) }
        ensures sealed { OnOk result (self.new.staged ≡ []) }
        ensures ran { OnOk result (Ran SWITCH_CALLS (D.view disk.old) (D.view disk.new)) }

        // Where the numbers are used up, nothing changes.
        ensures spent { IsErrOf result SwitchFault.Spent → self.old.number ≡ u32.MAX }
        ensures spent_so { self.old.number ≡ u32.MAX → IsErrOf result SwitchFault.Spent }
        ensures spent_kept { IsErrOf result SwitchFault.Spent
            → (self.new ≡ self.old) × (disk.new ≡ disk.old) }

        // Where the disk failed, it stands for the contents before or those after.
        ensures broke { IsErrOf result SwitchFault.Disk
            → Broke (D.view disk.old) (D.view disk.new) }
        ensures between { IsErrOf result SwitchFault.Disk
            → (let v = D.view disk.old in (p : Contents) → IsReady v self.old p
            → Between (D.view disk.new)
            (Two p (after_switch self.old v.bytes p manifest.now files.now))) }
    {
        if self.number == u32::MAX {
            return Err(SwitchFault::Spent);
        }
        self.gather(files);
        let number = self.number + 1;
        let text = manifest.len() as u32;
        let head = head_fields_of(number, text, files.len() as u32);
        close_gate(disk, self.spare.place(), self.spare_open)?;
        fill_slot(disk, self.spare, &head, self.table.as_slice(), manifest)?;
        write_synced(disk, self.spare.place(), &[1])?;
        self.take_over(number, text);
        Ok(())
    }

    // Gathers the files of a switch, and the bytes of their table.
    fn gather(&mut self, files: &[Listed])
        requires few { length files.now ≤ MANIFEST_FILES }
        requires held { All (λ f. is_held self.old f ≡ true) files.now }
        ensures next { self.new.next ≡ map (chosen (whole_files self.old)) files.now }
        ensures table { self.new.table.items ≡ table_bytes
            (map (chosen (whole_files self.old)) files.now) }
        ensures len { length self.new.table.items ≤ TABLE_LEN }
        ensures snapshot { KeepsSnapshot self.old self.new }
        ensures sealed { self.new.staged ≡ self.old.staged }
    {
        choose_files(
            self.current.as_slice(),
            self.staged.as_slice(),
            files,
            &mut self.next,
        );
        fill_table(&mut self.table, self.next.as_slice());
    }

    // Takes the gathered files as those of the snapshot.
    fn take_over(&mut self, number: u32, text: u32)
        requires placed { All (IsPlaced self.old.room) self.old.next }
        requires ascending { AreAscending self.old.next }
        requires text { text ≤ MANIFEST_TEXT }
        ensures display { self.new.display ≡ self.old.display }
        ensures epoch { self.new.epoch ≡ self.old.epoch }
        ensures room { self.new.room ≡ self.old.room }
        ensures number { self.new.number ≡ number }
        ensures text { self.new.text ≡ text }
        ensures current { self.new.current ≡ self.old.next }
        ensures staged { self.new.staged ≡ [] }
        ensures half { self.new.half ≡ None }
        ensures spare { self.new.spare ≡ opposite self.old.spare }
        ensures gate { self.new.spare_open ≡ not (self.old.number == 0) }
    {
        mem::swap(&mut self.current, &mut self.next);
        self.staged.clear();
        self.half = None;
        self.spare_open = self.number != 0;
        self.spare = self.spare.opposite();
        self.number = number;
        self.text = text;
    }
}
