// What the snapshot reads back as. These calls change nothing, on the disk or in the store.
ghost use Rattle.std.specs.Prelude.{◌≡◌, ℕ, ◌+◌, ◌%◌, ◌<◌, ◌≤◌, ◌==◌, List, length, min, find, Some, OnOk, OnErr, IsSomeAnd, Contains, true, false};
ghost use Rattle.sg_disk.specs.View.{range};
ghost use Rattle.sg_disk.specs.Runs.{LeavesOnly, Broke, Quiet};
ghost use Rattle.sg_disk.specs.Contents.{StoredFile, Contents};
ghost use Rattle.sg_pages.specs.Shelves.{FileAt, stands, byte_place};
ghost use Rattle.sg_slots.specs.Slots.{slot_place, opposite};
ghost use Rattle.sg_contents.specs.StandsFor.{Settled, disk_len};
ghost use Rattle.sg_store_state.specs.Ready.{IsReady};

use crate::store::Store;
use sg_base::MediaId;
use sg_base::limits::MANIFEST_TEXT;
use sg_disk::{DATA, Disk, DiskFailed, PAGE, TEXT};
use sg_placing::find_media;
use sg_slots::Slot;

impl Store {
    /// Where the manifest of the snapshot begins on the disk.
    pub fn manifest_place(&self) -> u64
        requires { 1 ≤ self.now.number }
        ensures place { result ≡ slot_place (opposite self.now.spare) + TEXT }
        ensures inside { result + MANIFEST_TEXT ≤ DATA }
    {
        text_place(self.spare)
    }

    /// Reads the manifest of the snapshot into a buffer of its length, in one call.
    pub fn read_manifest<D: Disk>(&self, disk: &mut D, into: &mut [u8]) -> Result<(), DiskFailed>
        requires snapshot { 1 ≤ self.now.number }
        requires buffer { length into.old ≡ self.now.text }
        requires disk { (D.view disk.old).size ≡ disk_len self.now.room }

        // After `Ok` these are the bytes of the contents, for which the disk stands as before.
        ensures text { OnOk result ((p : Contents) (text : List ℕ)
            → IsReady (D.view disk.old) self.now p → p.text ≡ Some text → into.new ≡ text) }
        ensures ready { OnOk result ((p : Contents) → IsReady (D.view disk.old) self.now p
            → IsReady (D.view disk.new) self.now p) }

        // The disk stays as it is, at every moment.
        ensures quiet { OnOk result (Quiet 1 (D.view disk.old) (D.view disk.new)) }
        ensures any_moment { LeavesOnly (D.view disk.old).images (D.view disk.old)
            (D.view disk.new) }
        ensures size { (D.view disk.new).size ≡ (D.view disk.old).size }
        ensures broke { OnErr result (Broke (D.view disk.old) (D.view disk.new)) }
        ensures settled { OnErr result ((p : Contents) → Settled (D.view disk.old) p
            → Settled (D.view disk.new) p) }
    {
        disk.read(text_place(self.spare), into)?;
        Ok(())
    }

    /// Whether the snapshot has a file of this id, with `count` bytes from the offset on.
    pub fn has_bytes(&self, media: MediaId, offset: u32, count: usize) -> bool
        ensures there { result ≡ true
            → IsSomeAnd (find (λ q. q.file.media.0 == media.0) self.now.current.files)
            (λ q. offset + count ≤ q.file.length) }
        ensures only { result ≡ false
            → IsSomeAnd (find (λ q. q.file.media.0 == media.0) self.now.current.files)
            (λ q. offset + count ≤ q.file.length) → ⊥ }
    {
        match find_media(self.current.files(), media) {
            Some(placed) => {
                offset <= placed.file.length && count <= (placed.file.length - offset) as usize
            }
            None => false,
        }
    }

    /// Reads bytes of a file of the snapshot, from an offset on, in one call: at most up to the end of the page that the first
    /// of them is in. No bytes make no call.
    pub fn read_file<D: Disk>(
        &self,
        disk: &mut D,
        media: MediaId,
        offset: u32,
        into: &mut [u8],
    ) -> Result<(), DiskFailed>
        requires file { IsSomeAnd (find (λ q. q.file.media.0 == media.0) self.now.current.files)
            (λ q. offset + length into.old ≤ q.file.length) }
        requires page { offset % PAGE + length into.old ≤ PAGE }
        requires disk { (D.view disk.old).size ≡ disk_len self.now.room }

        // After `Ok` these are the bytes of the contents, for which the disk stands as before.
        ensures bytes { OnOk result ((p : Contents) (f : StoredFile)
            → IsReady (D.view disk.old) self.now p → Contains p.files f → f.listed.media.0 ≡ media.0
            → into.new ≡ range f.bytes offset (length into.old)) }
        ensures ready { OnOk result ((p : Contents) → IsReady (D.view disk.old) self.now p
            → IsReady (D.view disk.new) self.now p) }

        // The disk stays as it is, at every moment.
        ensures quiet { OnOk result (Quiet (min 1 (length into.old)) (D.view disk.old)
            (D.view disk.new)) }
        ensures any_moment { LeavesOnly (D.view disk.old).images (D.view disk.old)
            (D.view disk.new) }
        ensures size { (D.view disk.new).size ≡ (D.view disk.old).size }
        ensures broke { OnErr result (Broke (D.view disk.old) (D.view disk.new)) }
        ensures settled { OnErr result ((p : Contents) → Settled (D.view disk.old) p
            → Settled (D.view disk.new) p) }
    {
        if into.is_empty() {
            return Ok(());
        }
        self.read_some(disk, media, offset, into)
    }

    // The same for one byte at least.
    fn read_some<D: Disk>(
        &self,
        disk: &mut D,
        media: MediaId,
        offset: u32,
        into: &mut [u8],
    ) -> Result<(), DiskFailed>
        requires some { 1 ≤ length into.old }
        requires file { IsSomeAnd (find (λ q. q.file.media.0 == media.0) self.now.current.files)
            (λ q. offset + length into.old ≤ q.file.length) }
        requires page { offset % PAGE + length into.old ≤ PAGE }
        requires disk { (D.view disk.old).size ≡ disk_len self.now.room }

        // After `Ok` these are the bytes of the contents, for which the disk stands as before.
        ensures bytes { OnOk result ((p : Contents) (f : StoredFile)
            → IsReady (D.view disk.old) self.now p → Contains p.files f → f.listed.media.0 ≡ media.0
            → into.new ≡ range f.bytes offset (length into.old)) }
        ensures ready { OnOk result ((p : Contents) → IsReady (D.view disk.old) self.now p
            → IsReady (D.view disk.new) self.now p) }

        // The disk stays as it is, at every moment.
        ensures quiet { OnOk result (Quiet 1 (D.view disk.old) (D.view disk.new)) }
        ensures any_moment { LeavesOnly (D.view disk.old).images (D.view disk.old)
            (D.view disk.new) }
        ensures size { (D.view disk.new).size ≡ (D.view disk.old).size }
        ensures broke { OnErr result (Broke (D.view disk.old) (D.view disk.new)) }
        ensures settled { OnErr result ((p : Contents) → Settled (D.view disk.old) p
            → Settled (D.view disk.new) p) }
    {
        let place = self.byte_of(media, offset);
        disk.read(place, into)?;
        Ok(())
    }

    // Where a byte of a file of the snapshot stands.
    fn byte_of(&self, media: MediaId, offset: u32) -> u64
        requires { IsSomeAnd (find (λ q. q.file.media.0 == media.0) self.now.current.files)
            (λ q. offset < q.file.length) }
        ensures place { (f : FileAt)
            × (find (λ g. g.file.media.0 == media.0) (stands self.now.current) ≡ Some f)
            × (result ≡ byte_place f.stand offset)
            × IsSomeAnd (find (λ q. q.file.media.0 == media.0) self.now.current.files)
            (λ q. f.file ≡ q.file) }
        ensures inside { (n : ℕ) → 1 ≤ n
            → IsSomeAnd (find (λ q. q.file.media.0 == media.0) self.now.current.files)
            (λ q. offset + n ≤ q.file.length)
            → offset % PAGE + n ≤ PAGE → result + n ≤ DATA + self.now.room }
    {
        let current = &self.current;
        match find_media(current.files(), media) {
            Some(placed) => match current.find(&placed.file) {
                Some(found) => current.place_of(&found, offset),
                None => unreachable!(),
            },
            None => unreachable!(),
        }
    }
}

// Where the manifest of the snapshot begins, by the slot that isn't its own.
fn text_place(spare: Slot) -> u64
    ensures place { result ≡ slot_place (opposite spare) + TEXT }
    ensures inside { result + MANIFEST_TEXT ≤ DATA }
{
    spare.opposite().place() + TEXT
}
