// The staging of files beside the snapshot. No room is taken from memory here.
ghost use Rattle.std.specs.Prelude.{◌≡◌, ◌≢◌, ◌⊎◌, ◌↔◌, ℕ, ◌+◌, ◌<◌, ◌≤◌, List, [], ◌∷◌, ◌++◌, length, None, Some, OnOk, OnErr, IsErrOf, IsSomeAnd, IfSome, IsTrue, is_some, option_map, filter, true, false};
ghost use Rattle.md5.specs.Md5.{md5, Holds};
ghost use Rattle.sg_disk.specs.Runs.{LeavesOnly, Ran, Broke, Within, Keeps};
ghost use Rattle.sg_disk.specs.Contents.{StoredFile, Contents};
ghost use Rattle.sg_disk.specs.StandsFor.{disk_len, StandsFor, Settled, HasOneJournal};
ghost use Rattle.sg_placing.specs.Placing.{IsLowest, IsLongest, is_listed};
ghost use Rattle.sg_placing.specs.declared.placed.Placed.{Placed};
ghost use Rattle.sg_store.specs.declared.faults.NoSpace.{NoSpace};
ghost use Rattle.sg_store.specs.declared.faults.DigestDiffers.{DigestDiffers};
ghost use Rattle.sg_store.specs.Ready.{taken_files, is_held, sealed_files, half_file, HasStaged, KeepsSnapshot, IsHalf, IsReady};

use crate::choice::find_whole;
use crate::faults::{DigestDiffers, NoSpace};
use crate::store::{Half, Store};
use md5::{Digest, Md5};
use sg_base::Listed;
use sg_base::limits::{MANIFEST_FILES, MAX_FILE_LEN};
use sg_disk::{DATA, Disk, DiskFailed};
use sg_placing::{Placed, is_listed, longest_gap, lowest_gap};

impl Store {
    /// Whether the snapshot, or what was sealed since the opening, has a file of this id, length and MD5.
    pub fn held(&self, file: &Listed) -> bool
        ensures { result ≡ is_held self.now file.now }
    {
        find_whole(self.current.as_slice(), self.staged.as_slice(), file).is_some()
    }

    /// Whether as many files are staged and sealed as a snapshot may have, 512. Then no file may be begun.
    pub fn is_full(&self) -> bool
        ensures { IsTrue result ↔ (MANIFEST_FILES ≤ length self.now.staged) }
    {
        self.staged.as_slice().len() >= MANIFEST_FILES as usize
    }

    /// Begins to stage a file, at the front of the lowest gap that is long enough. A gap is what neither the snapshot's files
    /// nor staged files cover. `NoSpace` where no gap is; then nothing changes.
    pub fn stage_begin(&mut self, file: &Listed) -> Result<(), NoSpace>
        requires media { 1 ≤ file.now.media.0 }
        requires some { 1 ≤ file.now.length }
        requires long { file.now.length ≤ MAX_FILE_LEN }
        requires new { is_held self.old file.now ≡ false }
        requires idle { self.old.half ≡ None }
        requires few { length self.old.staged < MANIFEST_FILES }

        // After `Ok` nothing has come of the file, which takes the lowest gap that is long enough.
        ensures began { OnOk result ((place : ℕ) × IsLowest self.old.room
            (taken_files self.old) file.now.length place
            × IsHalf self.new (record { file = file.now; place = place }) []) }

        // `NoSpace` comes only where no gap is, and then nothing changes.
        ensures refused { (fault : NoSpace) → IsErrOf result fault
            → (fault.need ≡ file.now.length)
            × IsLongest self.old.room (taken_files self.old) fault.largest
            × (fault.largest < fault.need) }
        ensures unchanged { OnErr result (self.new ≡ self.old) }

        // What stays of the store.
        ensures snapshot { KeepsSnapshot self.old self.new }
        ensures sealed { self.new.staged ≡ self.old.staged }
        ensures staged { (c : List ℕ) → HasStaged self.old c → HasStaged self.new c }
    {
        let current = self.current.as_slice();
        let staged = self.staged.as_slice();
        let Some(place) = lowest_gap(self.room, current, staged, file.length) else {
            return Err(NoSpace {
                need: file.length,
                largest: longest_gap(self.room, current, staged),
            });
        };
        // The id is read for the proof, which learns its range there.
        let _id = file.media.0;
        self.half = Some(Half {
            placed: Placed { file: *file, place },
            count: 0,
            hasher: Md5::new(),
        });
        Ok(())
    }

    /// The file that is half staged, and how many of its bytes have come.
    pub fn staged(&self) -> Option<(Listed, u32)>
        ensures { result ≡ option_map (λ h. (h.placed.file, h.count)) self.now.half }
    {
        match &self.half {
            Some(half) => Some((half.placed.file, half.count)),
            None => None,
        }
    }

    /// Writes the next bytes of the half staged file to its place, in one call. They are stable after the next switch.
    pub fn stage_bytes<D: Disk>(&mut self, disk: &mut D, bytes: &[u8]) -> Result<(), DiskFailed>
        requires fits { IsSomeAnd self.old.half
            (λ h. h.count + length bytes.now ≤ h.placed.file.length) }
        requires disk { (D.view disk.old).size ≡ disk_len self.old.room }

        // At any moment a crash leaves the contents as they were. Nothing but the data area is written.
        ensures any_moment { (p : Contents) → IsReady (D.view disk.old) self.old p
            → LeavesOnly (StandsFor p) (D.view disk.old) (D.view disk.new) }
        ensures within { Within DATA self.old.room (D.view disk.old) (D.view disk.new) }
        ensures keeps { (place n : ℕ) → place + n ≤ DATA
            → Keeps place n (D.view disk.old) (D.view disk.new) }
        ensures journal { (D.view disk.old).told → HasOneJournal (D.view disk.old)
            → HasOneJournal (D.view disk.new) }
        ensures size { (D.view disk.new).size ≡ (D.view disk.old).size }

        // After `Ok` the bytes stand behind those that came before, and the sealed files have theirs.
        ensures ready { OnOk result ((p : Contents) → IsReady (D.view disk.old) self.old p
            → IsReady (D.view disk.new) self.new p) }
        ensures bytes { OnOk result ((placed : Placed) (before : List ℕ)
            → IsHalf self.old placed before → IsHalf self.new placed (before ++ bytes.now)) }
        ensures half_bytes { let v = D.view disk.old in OnOk result ((p : Contents) (f : StoredFile)
            → IsReady v self.old p → half_file self.old v.bytes ≡ Some f
            → half_file self.new (D.view disk.new).bytes
            ≡ Some (record f { bytes = f.bytes ++ bytes.now })) }
        ensures sealed_bytes { let v = D.view disk.old in OnOk result ((p : Contents)
            → IsReady v self.old p
            → sealed_files self.new (D.view disk.new).bytes ≡ sealed_files self.old v.bytes) }
        ensures ran { OnOk result (Ran 1 (D.view disk.old) (D.view disk.new)) }

        // What stays of the store, and why the call is refused.
        ensures snapshot { KeepsSnapshot self.old self.new }
        ensures sealed { self.new.staged ≡ self.old.staged }
        ensures broke { OnErr result (Broke (D.view disk.old) (D.view disk.new)) }
        ensures settled { OnErr result ((p : Contents) → IsReady (D.view disk.old) self.old p
            → Settled (D.view disk.new) p) }
    {
        let place = self.next_place();
        disk.write_at(place, bytes)?;
        self.take_in(bytes);
        Ok(())
    }

    // Where the next byte of the half staged file goes.
    fn next_place(&self) -> u64
        requires { is_some self.now.half ≡ true }
        ensures { IfSome self.now.half (λ h. result ≡ h.placed.place + h.count) }
    {
        match &self.half {
            Some(half) => half.placed.place + u64::from(half.count),
            None => unreachable!(),
        }
    }

    // Takes the next bytes of the half staged file into its digest.
    fn take_in(&mut self, bytes: &[u8])
        requires { IsSomeAnd self.old.half
            (λ h. h.count + length bytes.now ≤ h.placed.file.length) }
        ensures bytes { (placed : Placed) (before : List ℕ) → IsHalf self.old placed before
            → IsHalf self.new placed (before ++ bytes.now) }
        ensures snapshot { KeepsSnapshot self.old self.new }
        ensures sealed { self.new.staged ≡ self.old.staged }
    {
        if let Some(mut half) = self.half.take() {
            half.hasher.update(bytes);
            half.count += bytes.len() as u32;
            self.half = Some(half);
        }
    }

    /// Takes the half staged file as held, where its bytes have the listed MD5. Otherwise it is given up.
    pub fn stage_seal(&mut self) -> Result<(), DigestDiffers>
        requires { IsSomeAnd self.old.half (λ h. h.count ≡ h.placed.file.length) }

        // After `Ok` the file stands behind the sealed ones, and its bytes have the listed MD5.
        ensures sealed { OnOk result ((placed : Placed) (bytes : List ℕ)
            → IsHalf self.old placed bytes
            → (md5 bytes ≡ placed.file.md5) × (self.new.staged ≡ self.old.staged ++ placed ∷ [])) }
        ensures sealed_bytes { OnOk result ((c : List ℕ) (f : StoredFile)
            → half_file self.old c ≡ Some f
            → sealed_files self.new c ≡ sealed_files self.old c ++ f ∷ []) }
        ensures digest { OnOk result ((c : List ℕ) (f : StoredFile) → HasStaged self.old c
            → half_file self.old c ≡ Some f → md5 f.bytes ≡ f.listed.md5) }

        // They have another one where it is refused. Then the file is given up.
        ensures differs { (fault : DigestDiffers) → IsErrOf result fault
            → (placed : Placed) (bytes : List ℕ) → IsHalf self.old placed bytes
            → (md5 bytes ≡ fault.found) × (fault.found ≢ placed.file.md5) }
        ensures differs_bytes { (fault : DigestDiffers) → IsErrOf result fault
            → (c : List ℕ) (f : StoredFile) → HasStaged self.old c → half_file self.old c ≡ Some f
            → (md5 f.bytes ≡ fault.found) × (fault.found ≢ f.listed.md5) }
        ensures given_up { OnErr result (self.new.staged ≡ self.old.staged) }

        // What is so in both cases.
        ensures idle { self.new.half ≡ None }
        ensures snapshot { KeepsSnapshot self.old self.new }
        ensures staged { (c : List ℕ) → HasStaged self.old c → HasStaged self.new c }
    {
        let Some(half) = self.half.take() else {
            unreachable!()
        };
        let found = half.hasher.finalize();
        if found != half.placed.file.md5 {
            return Err(DigestDiffers { found });
        }
        self.staged.push(half.placed);
        Ok(())
    }

    /// Gives up the staged files that aren't among these, the half staged one too.
    pub fn stage_keep(&mut self, files: &[Listed])
        ensures sealed { self.new.staged ≡ filter (λ p. is_listed files.now p.file)
            self.old.staged }
        ensures kept { IfSome self.old.half (λ h. is_listed files.now h.placed.file ≡ true
            → self.new.half ≡ self.old.half) }
        ensures given_up { IfSome self.old.half (λ h. is_listed files.now h.placed.file ≡ false
            → self.new.half ≡ None) }
        ensures either { (self.new.half ≡ self.old.half) ⊎ (self.new.half ≡ None) }
        ensures snapshot { KeepsSnapshot self.old self.new }
        ensures staged { (c : List ℕ) → HasStaged self.old c → HasStaged self.new c }
    {
        self.keep_sealed(files);
        self.keep_half(files);
    }

    // Gives up the sealed files that aren't among these.
    fn keep_sealed(&mut self, files: &[Listed])
        ensures sealed { self.new.staged ≡ filter (λ p. is_listed files.now p.file)
            self.old.staged }
        ensures half { self.new.half ≡ self.old.half }
        ensures snapshot { KeepsSnapshot self.old self.new }
    {
        self.staged.keep(files);
    }

    // Gives up the half staged file, where it isn't among these.
    fn keep_half(&mut self, files: &[Listed])
        ensures kept { IfSome self.old.half (λ h. is_listed files.now h.placed.file ≡ true
            → self.new.half ≡ self.old.half) }
        ensures given_up { IfSome self.old.half (λ h. is_listed files.now h.placed.file ≡ false
            → self.new.half ≡ None) }
        ensures either { (self.new.half ≡ self.old.half) ⊎ (self.new.half ≡ None) }
        ensures sealed { self.new.staged ≡ self.old.staged }
        ensures snapshot { KeepsSnapshot self.old self.new }
    {
        if let Some(half) = &self.half {
            if !is_listed(files, &half.placed.file) {
                self.half = None;
            }
        }
    }
}
