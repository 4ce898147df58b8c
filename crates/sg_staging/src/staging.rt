// The staging of files, in memory.
ghost use Rattle.std.specs.Prelude.{◌≡◌, ◌≢◌, ◌⊎◌, ◌↔◌, ℕ, ◌+◌, ◌/◌, ◌^◌, ◌<◌, ◌≤◌, List, [], ◌∷◌, ◌++◌, length, map, take, filter, None, Some, IfOk, IfErr, OnOk, OnErr, IsErrOf, IfSome, IsSomeAnd, IsTrue, option_map, All, is_some, vec_len, vec_capacity, true, false};
ghost use Rattle.md5.specs.Md5.{md5, Holds};
ghost use Rattle.sg_disk.specs.Contents.{IsRoom};
ghost use Rattle.sg_disk.specs.Contents.{Pages};
ghost use Rattle.sg_placing.specs.Placing.{is_listed};
ghost use Rattle.sg_pages.specs.Pages.{needed, free_pages};
ghost use Rattle.sg_pages.specs.Shelves.{Shelved, all_taken_at, stands, IsFilled, IsShelfIn, byte_place};
ghost use Rattle.sg_staging.specs.Staged.{nothing_staged, half_at, whole_files, free_beside, is_among, chosen, pages_of_files, IsStagedIn, IsHalf, HasPlace};
ghost use Rattle.sg_staging.specs.declared.staging.DigestDiffers.{DigestDiffers};

use md5::{Digest, Md5};
use sg_base::Listed;
use sg_base::limits::{MANIFEST_FILES, MAX_FILE_LEN};
use sg_disk::{DATA, PAGE};
use sg_pages::{MAX_PAGES, NoSpace, PageSet, Shelf};
use sg_placing::{Placed, is_listed};
use std::alloc::{AllocError, Global};
use std::marker::Model;
use thiserror::Error;

/// How many pages the longest file has.
pub const FILE_PAGES: u64 = 1_024;

/// The bytes that came for a file have another MD5 than the listed one.
#[derive(Clone, Copy, Debug, PartialEq, Eq, Error)]
#[error("the bytes that came have another digest than the listed one")]
pub struct DigestDiffers {
    pub found: [u8; 16],
}

// A file of which a part is staged: how many of its bytes have come, and their digest so far.
#[derive(Drop)]
struct Half {
    file: Listed,
    count: u32,
    hasher: Md5,
}

/// The files that are staged beside a snapshot, which stands on a shelf of its own. Contracts see it as `Staged`.
#[derive(Drop)]
pub struct Staging {
    sealed: Shelf,
    half: Option<Half>,
    // The pages of the half staged file.
    pages: Vec<u16>,
    // For the search of free pages, and for giving files up.
    set: PageSet,
    spare: Shelf,
}

impl Model for Staging {
    ghost use Rattle.std.specs.Prelude.{option_map, vec_capacity, ◌≤◌};
    ghost use Rattle.sg_staging.specs.Staged.{Staged};
    ghost use Rattle.sg_staging.specs.declared.staging.TheConstants.{FILE_PAGES};

    ghost Value = { Staged };

    ghost view = { λ s. record {
      sealed = s.sealed;
      half = option_map (λ h. record {
        file = h.file;
        pages = s.pages.items;
        count = h.count;
        hasher = h.hasher;
      }) s.half;
    } };

    ghost invariant = { λ s. FILE_PAGES ≤ vec_capacity s.pages };
}

impl Staging {
    /// With nothing staged. It takes all the memory that its later calls need.
    pub fn reserve(alloc: Global) -> Result<Staging, AllocError>
        ensures { IfOk result (λ s. s ≡ nothing_staged) }
    {
        Ok(Staging {
            sealed: Shelf::reserve(alloc)?,
            half: None,
            pages: Vec::with_capacity(alloc, FILE_PAGES as usize)?,
            set: PageSet::reserve(alloc)?,
            spare: Shelf::reserve(alloc)?,
        })
    }

    /// Whether the snapshot, or what is sealed, has a file of this id, length and MD5.
    pub fn held(&self, current: &Shelf, file: &Listed) -> bool
        ensures { result ≡ is_among current.now self.now file.now }
    {
        current.find(file).is_some() || self.sealed.find(file).is_some()
    }

    /// How many files are sealed.
    pub fn sealed(&self) -> usize
        ensures { result ≡ length self.now.sealed.files }
    {
        self.sealed.files().len()
    }

    /// The file that is half staged, and how many of its bytes have come.
    pub fn half(&self) -> Option<(Listed, u32)>
        ensures { result ≡ option_map (λ h. (h.file, h.count)) self.now.half }
    {
        match &self.half {
            Some(half) => Some((half.file, half.count)),
            None => None,
        }
    }

    /// Begins to stage a file, in the lowest free pages. Free are those that neither the snapshot's files nor staged ones touch.
    /// `NoSpace` where they are fewer than the file needs; then nothing changes.
    pub fn begin(&mut self, room: u64, current: &Shelf, file: &Listed) -> Result<(), NoSpace>
        requires room { IsRoom room }
        requires staged { IsStagedIn room current.now self.old }
        requires media { 1 ≤ file.now.media.0 }
        requires some { 1 ≤ file.now.length }
        requires long { file.now.length ≤ MAX_FILE_LEN }
        requires new { is_among current.now self.old file.now ≡ false }
        requires idle { self.old.half ≡ None }
        requires few { length self.old.sealed.files < MANIFEST_FILES }

        // After `Ok` nothing has come of the file, which takes the lowest free pages.
        ensures began { OnOk result (IsHalf self.new file.now
            (take (needed file.now.length) (free_beside room current.now self.old)) []) }

        // `NoSpace` comes exactly where fewer are free, and then nothing changes.
        ensures enough { OnOk result (needed file.now.length
            ≤ length (free_beside room current.now self.old)) }
        ensures refused { IfErr result (λ fault. (fault.need ≡ needed file.now.length)
            × (fault.free ≡ length (free_beside room current.now self.old))
            × (fault.free < fault.need)) }
        ensures unchanged { OnErr result (self.new ≡ self.old) }

        // What stays.
        ensures sealed { self.new.sealed ≡ self.old.sealed }
        ensures staged { IsStagedIn room current.now self.new }
    {
        let need = u64::from(file.length).div_ceil(PAGE) as u32;
        self.pages.clear();
        put_free(
            room,
            current,
            &self.sealed,
            need,
            &mut self.set,
            &mut self.pages,
        )?;
        self.half = Some(Half {
            file: *file,
            count: 0,
            hasher: Md5::new(),
        });
        Ok(())
    }

    /// Where the next byte of the half staged file goes.
    pub fn next_place(&self) -> u64
        requires { IsSomeAnd self.now.half (λ h. (h.count < h.file.length)
            × (length h.pages ≡ needed h.file.length)) }
        ensures { IfSome self.now.half (λ h. result ≡ byte_place (Pages h.pages) h.count) }
    {
        match &self.half {
            Some(half) => {
                let page = self.pages[(u64::from(half.count) / PAGE) as usize];
                DATA + PAGE * u64::from(page) + u64::from(half.count) % PAGE
            }
            None => unreachable!(),
        }
    }

    /// Takes the next bytes of the half staged file into its digest.
    pub fn take_in(&mut self, bytes: &[u8])
        requires { IsSomeAnd self.old.half (λ h. h.count + length bytes.now ≤ h.file.length) }
        ensures bytes { (file : Listed) (pages before : List ℕ) → IsHalf self.old file pages before
            → IsHalf self.new file pages (before ++ bytes.now) }
        ensures sealed { self.new.sealed ≡ self.old.sealed }
        ensures staged { (room : ℕ) (current : Shelved) → IsStagedIn room current self.old
            → IsStagedIn room current self.new }
    {
        if let Some(mut half) = self.half.take() {
            half.hasher.update(bytes);
            half.count += bytes.len() as u32;
            self.half = Some(half);
        }
    }

    /// Takes the half staged file as held, where its bytes have the listed MD5. Otherwise it is given up.
    pub fn seal(&mut self) -> Result<(), DigestDiffers>
        requires whole { IsSomeAnd self.old.half (λ h. h.count ≡ h.file.length) }
        requires place { HasPlace self.old }

        // After `Ok` the file stands behind the sealed ones, and its bytes have the listed MD5.
        ensures sealed { OnOk result (IfSome self.old.half (λ h.
            stands self.new.sealed ≡ stands self.old.sealed ++ half_at h ∷ [])) }
        ensures digest { OnOk result (IfSome self.old.half (λ h. (bytes : List ℕ)
            → Holds h.hasher bytes → md5 bytes ≡ h.file.md5)) }

        // They have another one where it is refused. Then the file is given up.
        ensures differs { (fault : DigestDiffers) → IsErrOf result fault
            → IfSome self.old.half (λ h. (bytes : List ℕ) → Holds h.hasher bytes
            → (md5 bytes ≡ fault.found) × (fault.found ≢ h.file.md5)) }
        ensures given_up { OnErr result (self.new.sealed ≡ self.old.sealed) }

        // What is so in both cases.
        ensures idle { self.new.half ≡ None }
        ensures staged { (room : ℕ) (current : Shelved) → IsStagedIn room current self.old
            → IsStagedIn room current self.new }
    {
        let Some(half) = self.half.take() else {
            unreachable!()
        };
        let found = half.hasher.finalize();
        if found != half.file.md5 {
            return Err(DigestDiffers { found });
        }
        self.sealed.push(
            Placed {
                file: half.file,
                place: 0,
            },
            self.pages.as_slice(),
        );
        Ok(())
    }

    /// Gives up the staged files that aren't among these, the half staged one too.
    pub fn keep(&mut self, files: &[Listed])
        requires filled { IsFilled self.old.sealed }
        requires few { length self.old.sealed.files ≤ MANIFEST_FILES }
        requires pages { length self.old.sealed.pages ≤ MAX_PAGES }
        ensures sealed { stands self.new.sealed
            ≡ filter (λ f. is_listed files.now f.file) (stands self.old.sealed) }
        ensures kept { IfSome self.old.half (λ h. is_listed files.now h.file ≡ true
            → self.new.half ≡ self.old.half) }
        ensures given_up { IfSome self.old.half (λ h. is_listed files.now h.file ≡ false
            → self.new.half ≡ None) }
        ensures either { (self.new.half ≡ self.old.half) ⊎ (self.new.half ≡ None) }
        ensures staged { (room : ℕ) (current : Shelved) → IsStagedIn room current self.old
            → IsStagedIn room current self.new }
    {
        self.sealed.keep(files, &mut self.spare);
        self.keep_half(files);
    }

    // Gives up the half staged file, where it isn't among these.
    fn keep_half(&mut self, files: &[Listed])
        ensures sealed { self.new.sealed ≡ self.old.sealed }
        ensures kept { IfSome self.old.half (λ h. is_listed files.now h.file ≡ true
            → self.new.half ≡ self.old.half) }
        ensures given_up { IfSome self.old.half (λ h. is_listed files.now h.file ≡ false
            → self.new.half ≡ None) }
        ensures either { (self.new.half ≡ self.old.half) ⊎ (self.new.half ≡ None) }
    {
        if let Some(half) = &self.half {
            if !is_listed(files, &half.file) {
                self.half = None;
            }
        }
    }

    /// Puts listed files, each of which is whole, on a shelf. For each it goes over the snapshot's files and the sealed ones
    /// once, at most 512 times 1,024 comparisons.
    pub fn choose(&self, current: &Shelf, files: &[Listed], next: &mut Shelf)
        requires current { IsFilled current.now }
        requires sealed { IsFilled self.now.sealed }
        requires few { length files.now ≤ MANIFEST_FILES }
        requires held { All (λ f. is_among current.now self.now f ≡ true) files.now }
        requires pages { length (pages_of_files
            (map (chosen (whole_files current.now self.now)) files.now)) ≤ MAX_PAGES }
        ensures stands { stands next.new
            ≡ map (chosen (whole_files current.now self.now)) files.now }
        ensures filled { IsFilled next.new }
        ensures ids { All (λ f. f.media.0 < 2 ^ 32) files.now }
    {
        next.clear();
        for file in files {
            put_whole(current, &self.sealed, file, next);
        }
    }

    /// Gives up all staged files.
    pub fn clear(&mut self)
        ensures { self.new ≡ nothing_staged }
    {
        self.sealed.clear();
        self.half = None;
    }
}

// Puts the lowest free pages of a data area behind others, in room that is there and stays: as many as are needed.
fn put_free(
    room: u64,
    current: &Shelf,
    sealed: &Shelf,
    need: u32,
    set: &mut PageSet,
    pages: &mut Vec<u16>,
) -> Result<(), NoSpace>
    requires room { IsRoom room }
    requires current { IsShelfIn room current.now }
    requires sealed { IsShelfIn room sealed.now }
    requires space { vec_len pages.old + need ≤ vec_capacity pages.old }
    ensures chosen { OnOk result (pages.new.items ≡ pages.old.items ++ take need (free_pages
        (all_taken_at (stands current.now ++ stands sealed.now)) (room / PAGE))) }
    ensures enough { OnOk result (need ≤ length (free_pages
        (all_taken_at (stands current.now ++ stands sealed.now)) (room / PAGE))) }
    ensures none { IfErr result (λ fault. (fault.need ≡ need) × (fault.free ≡ length (free_pages
        (all_taken_at (stands current.now ++ stands sealed.now)) (room / PAGE)))
        × (fault.free < need)) }
    ensures space { vec_capacity pages.old ≤ vec_capacity pages.new }
{
    set.clear(room);
    set.add_shelf(current);
    set.add_shelf(sealed);
    let free = set.free();
    if free < need {
        return Err(NoSpace { need, free });
    }
    set.put_lowest(need, pages);
    Ok(())
}

// Puts a listed file, which is on one of two shelves, behind the others on a third.
fn put_whole(current: &Shelf, sealed: &Shelf, file: &Listed, next: &mut Shelf)
    requires current { IsFilled current.now }
    requires sealed { IsFilled sealed.now }
    requires held { is_among current.now (record { sealed = sealed.now; half = None }) file.now
        ≡ true }
    requires few { length next.old.files < MANIFEST_FILES }
    requires filled { IsFilled next.old }
    requires pages { length (pages_of_files (stands next.old
        ++ chosen (stands current.now ++ stands sealed.now) file.now ∷ [])) ≤ MAX_PAGES }
    ensures stands { stands next.new ≡ stands next.old
        ++ chosen (stands current.now ++ stands sealed.now) file.now ∷ [] }
    ensures filled { IsFilled next.new }
    ensures few { length next.new.files ≡ length next.old.files + 1 }
    ensures id { file.now.media.0 < 2 ^ 32 }
{
    // The id is read for the proof, which learns its range there.
    let _id = file.media.0;
    match current.find(file) {
        Some(found) => next.push_found(&found, current),
        None => match sealed.find(file) {
            Some(found) => next.push_found(&found, sealed),
            None => unreachable!(),
        },
    }
}
