// The staging of files beside the snapshot. No room is taken from memory here.
ghost use Rattle.std.specs.Prelude.{◌≡◌, ◌≢◌, ◌⊎◌, ◌↔◌, ℕ, ◌+◌, ◌%◌, ◌<◌, ◌≤◌, List, [], ◌∷◌, ◌++◌, length, min, take, None, Some, OnOk, OnErr, IfErr, IsErrOf, IsSomeAnd, IfSome, IsTrue, option_map, filter, true, false};
ghost use Rattle.md5.specs.Md5.{md5, Holds};
ghost use Rattle.sg_base.specs.declared.file.Listed.{Listed};
ghost use Rattle.sg_disk.specs.Runs.{LeavesOnly, Ran, Broke, Within, Keeps};
ghost use Rattle.sg_disk.specs.Contents.{StoredFile, Contents};
ghost use Rattle.sg_placing.specs.Placing.{is_listed};
ghost use Rattle.sg_pages.specs.Pages.{needed};
ghost use Rattle.sg_pages.specs.Shelves.{stands};
ghost use Rattle.sg_contents.specs.StandsFor.{disk_len, StandsFor, Settled};
ghost use Rattle.sg_staging.specs.Staged.{free_beside, half_at, IsHalf};
ghost use Rattle.sg_store_state.specs.State.{is_held};
ghost use Rattle.sg_store_state.specs.Ready.{bytes_so_far, sealed_files, half_file, HasStaged, KeepsSnapshot, IsReady};

use crate::store::Store;
use sg_base::Listed;
use sg_base::limits::{MANIFEST_FILES, MAX_FILE_LEN};
use sg_disk::{DATA, Disk, DiskFailed, PAGE};
use sg_staging::{DigestDiffers, NoSpace};

impl Store {
    /// Whether the snapshot, or what was sealed since the opening, has a file of this id, length and MD5.
    pub fn held(&self, file: &Listed) -> bool
        ensures { result ≡ is_held self.now file.now }
    {
        self.staging.held(&self.current, file)
    }

    /// Whether as many files are staged and sealed as a snapshot may have, 512. Then no file may be begun.
    pub fn is_full(&self) -> bool
        ensures { IsTrue result ↔ (MANIFEST_FILES ≤ length self.now.staged.sealed.files) }
    {
        self.staging.sealed() >= MANIFEST_FILES as usize
    }

    /// Begins to stage a file, in the lowest free pages. Free are those that neither the snapshot's files nor staged ones touch.
    /// `NoSpace` where they are fewer than the file needs; then nothing changes.
    pub fn stage_begin(&mut self, file: &Listed) -> Result<(), NoSpace>
        requires media { 1 ≤ file.now.media.0 }
        requires some { 1 ≤ file.now.length }
        requires long { file.now.length ≤ MAX_FILE_LEN }
        requires new { is_held self.old file.now ≡ false }
        requires idle { self.old.staged.half ≡ None }
        requires few { length self.old.staged.sealed.files < MANIFEST_FILES }

        // After `Ok` nothing has come of the file, which takes the lowest free pages.
        ensures began { OnOk result (IsHalf self.new.staged file.now (take (needed file.now.length)
            (free_beside self.old.room self.old.current self.old.staged)) []) }

        // `NoSpace` comes exactly where fewer are free, and then nothing changes.
        ensures enough { OnOk result (needed file.now.length
            ≤ length (free_beside self.old.room self.old.current self.old.staged)) }
        ensures refused { IfErr result (λ fault. (fault.need ≡ needed file.now.length)
            × (fault.free ≡ length (free_beside self.old.room self.old.current self.old.staged))
            × (fault.free < fault.need)) }
        ensures unchanged { OnErr result (self.new ≡ self.old) }

        // What stays of the store.
        ensures snapshot { KeepsSnapshot self.old self.new }
        ensures sealed { self.new.staged.sealed ≡ self.old.staged.sealed }
        ensures staged { (c : List ℕ) → HasStaged self.old c → HasStaged self.new c }
    {
        self.staging.begin(self.room, &self.current, file)?;
        Ok(())
    }

    /// The file that is half staged, and how many of its bytes have come.
    pub fn staged(&self) -> Option<(Listed, u32)>
        ensures half { result ≡ option_map (λ h. (h.file, h.count)) self.now.staged.half }

        // So many of its bytes stand on any disk that has the data area.
        ensures came { (c : List ℕ) → DATA + self.now.room ≤ length c
            → IfSome self.now.staged.half (λ h. length (bytes_so_far c h) ≡ h.count) }
    {
        self.staging.half()
    }

    /// Writes the next bytes of the half staged file to its page, in one call: at most up to the end of the page. No bytes make no
    /// call. They are stable after the next switch.
    pub fn stage_bytes<D: Disk>(&mut self, disk: &mut D, bytes: &[u8]) -> Result<(), DiskFailed>
        requires fits { IsSomeAnd self.old.staged.half
            (λ h. h.count + length bytes.now ≤ h.file.length) }
        requires page { IsSomeAnd self.old.staged.half
            (λ h. h.count % PAGE + length bytes.now ≤ PAGE) }
        requires disk { (D.view disk.old).size ≡ disk_len self.old.room }

        // At any moment a crash leaves the contents as they were. Nothing but the data area is written.
        ensures any_moment { (p : Contents) → IsReady (D.view disk.old) self.old p
            → LeavesOnly (StandsFor p) (D.view disk.old) (D.view disk.new) }
        ensures within { Within DATA self.old.room (D.view disk.old) (D.view disk.new) }
        ensures keeps { (place n : ℕ) → place + n ≤ DATA
            → Keeps place n (D.view disk.old) (D.view disk.new) }
        ensures size { (D.view disk.new).size ≡ (D.view disk.old).size }

        // After `Ok` the bytes stand behind those that came before, and the sealed files have theirs.
        ensures ready { OnOk result ((p : Contents) → IsReady (D.view disk.old) self.old p
            → IsReady (D.view disk.new) self.new p) }
        ensures bytes { OnOk result ((file : Listed) (pages before : List ℕ)
            → IsHalf self.old.staged file pages before
            → IsHalf self.new.staged file pages (before ++ bytes.now)) }
        ensures half_bytes { let v = D.view disk.old in OnOk result ((p : Contents) (f : StoredFile)
            → IsReady v self.old p → half_file self.old v.bytes ≡ Some f
            → half_file self.new (D.view disk.new).bytes
            ≡ Some (record f { bytes = f.bytes ++ bytes.now })) }
        ensures sealed_bytes { let v = D.view disk.old in OnOk result ((p : Contents)
            → IsReady v self.old p
            → sealed_files self.new (D.view disk.new).bytes ≡ sealed_files self.old v.bytes) }
        ensures ran { OnOk result (Ran (min 1 (length bytes.now)) (D.view disk.old) (D.view disk.new)) }

        // What stays of the store, and why the call is refused.
        ensures snapshot { KeepsSnapshot self.old self.new }
        ensures sealed { self.new.staged.sealed ≡ self.old.staged.sealed }
        ensures broke { OnErr result (Broke (D.view disk.old) (D.view disk.new)) }
        ensures settled { OnErr result ((p : Contents) → IsReady (D.view disk.old) self.old p
            → Settled (D.view disk.new) p) }
    {
        if bytes.is_empty() {
            return Ok(());
        }
        self.stage_some(disk, bytes)
    }

    // The same for one byte at least.
    fn stage_some<D: Disk>(&mut self, disk: &mut D, bytes: &[u8]) -> Result<(), DiskFailed>
        requires some { 1 ≤ length bytes.now }
        requires fits { IsSomeAnd self.old.staged.half
            (λ h. h.count + length bytes.now ≤ h.file.length) }
        requires page { IsSomeAnd self.old.staged.half
            (λ h. h.count % PAGE + length bytes.now ≤ PAGE) }
        requires disk { (D.view disk.old).size ≡ disk_len self.old.room }

        // At any moment a crash leaves the contents as they were. Nothing but the data area is written.
        ensures any_moment { (p : Contents) → IsReady (D.view disk.old) self.old p
            → LeavesOnly (StandsFor p) (D.view disk.old) (D.view disk.new) }
        ensures within { Within DATA self.old.room (D.view disk.old) (D.view disk.new) }
        ensures keeps { (place n : ℕ) → place + n ≤ DATA
            → Keeps place n (D.view disk.old) (D.view disk.new) }
        ensures size { (D.view disk.new).size ≡ (D.view disk.old).size }

        // After `Ok` the bytes stand behind those that came before, and the sealed files have theirs.
        ensures ready { OnOk result ((p : Contents) → IsReady (D.view disk.old) self.old p
            → IsReady (D.view disk.new) self.new p) }
        ensures bytes { OnOk result ((file : Listed) (pages before : List ℕ)
            → IsHalf self.old.staged file pages before
            → IsHalf self.new.staged file pages (before ++ bytes.now)) }
        ensures half_bytes { let v = D.view disk.old in OnOk result ((p : Contents) (f : StoredFile)
            → IsReady v self.old p → half_file self.old v.bytes ≡ Some f
            → half_file self.new (D.view disk.new).bytes
            ≡ Some (record f { bytes = f.bytes ++ bytes.now })) }
        ensures sealed_bytes { let v = D.view disk.old in OnOk result ((p : Contents)
            → IsReady v self.old p
            → sealed_files self.new (D.view disk.new).bytes ≡ sealed_files self.old v.bytes) }
        ensures ran { OnOk result (Ran 1 (D.view disk.old) (D.view disk.new)) }

        // What stays of the store, and why the call is refused.
        ensures snapshot { KeepsSnapshot self.old self.new }
        ensures sealed { self.new.staged.sealed ≡ self.old.staged.sealed }
        ensures broke { OnErr result (Broke (D.view disk.old) (D.view disk.new)) }
        ensures settled { OnErr result ((p : Contents) → IsReady (D.view disk.old) self.old p
            → Settled (D.view disk.new) p) }
    {
        let place = self.staging.next_place();
        disk.write_at(place, bytes)?;
        self.staging.take_in(bytes);
        Ok(())
    }

    /// Takes the half staged file as held, where its bytes have the listed MD5. Otherwise it is given up.
    pub fn stage_seal(&mut self) -> Result<(), DigestDiffers>
        requires { IsSomeAnd self.old.staged.half (λ h. h.count ≡ h.file.length) }

        // After `Ok` the file stands behind the sealed ones, and its bytes have the listed MD5.
        ensures sealed { OnOk result (IfSome self.old.staged.half (λ h.
            stands self.new.staged.sealed ≡ stands self.old.staged.sealed ++ half_at h ∷ [])) }
        ensures sealed_bytes { OnOk result ((c : List ℕ) (f : StoredFile)
            → half_file self.old c ≡ Some f
            → sealed_files self.new c ≡ sealed_files self.old c ++ f ∷ []) }
        ensures digest { OnOk result (IfSome self.old.staged.half (λ h. (bytes : List ℕ)
            → Holds h.hasher bytes → md5 bytes ≡ h.file.md5)) }
        ensures digest_bytes { OnOk result ((c : List ℕ) (f : StoredFile) → HasStaged self.old c
            → half_file self.old c ≡ Some f → md5 f.bytes ≡ f.listed.md5) }

        // They have another one where it is refused. Then the file is given up.
        ensures differs { (fault : DigestDiffers) → IsErrOf result fault
            → IfSome self.old.staged.half (λ h. (bytes : List ℕ) → Holds h.hasher bytes
            → (md5 bytes ≡ fault.found) × (fault.found ≢ h.file.md5)) }
        ensures differs_bytes { (fault : DigestDiffers) → IsErrOf result fault
            → (c : List ℕ) (f : StoredFile) → HasStaged self.old c → half_file self.old c ≡ Some f
            → (md5 f.bytes ≡ fault.found) × (fault.found ≢ f.listed.md5) }
        ensures given_up { OnErr result (self.new.staged.sealed ≡ self.old.staged.sealed) }

        // What is so in both cases.
        ensures idle { self.new.staged.half ≡ None }
        ensures snapshot { KeepsSnapshot self.old self.new }
        ensures staged { (c : List ℕ) → HasStaged self.old c → HasStaged self.new c }
    {
        self.staging.seal()?;
        Ok(())
    }

    /// Gives up the staged files that aren't among these, the half staged one too.
    pub fn stage_keep(&mut self, files: &[Listed])
        ensures sealed { stands self.new.staged.sealed
            ≡ filter (λ f. is_listed files.now f.file) (stands self.old.staged.sealed) }
        ensures kept { IfSome self.old.staged.half (λ h. is_listed files.now h.file ≡ true
            → self.new.staged.half ≡ self.old.staged.half) }
        ensures given_up { IfSome self.old.staged.half (λ h. is_listed files.now h.file ≡ false
            → self.new.staged.half ≡ None) }
        ensures either { (self.new.staged.half ≡ self.old.staged.half)
            ⊎ (self.new.staged.half ≡ None) }
        ensures snapshot { KeepsSnapshot self.old self.new }
        ensures staged { (c : List ℕ) → HasStaged self.old c → HasStaged self.new c }
    {
        self.staging.keep(files);
    }
}
