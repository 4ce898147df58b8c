// What the calls of a store ask, as tests.
ghost use Rattle.std.specs.Prelude.{◌≡◌, ℕ, ◌+◌, ◌%◌, ◌<◌, ◌≤◌, List, length, All, AllPairs, IfSome, IsSomeAnd, None, true, false};
ghost use Rattle.sg_store_state.specs.State.{is_held};
ghost use Rattle.sg_store_state.specs.Ready.{bytes_so_far};
ghost use Rattle.sg_paged_runs.specs.Lawful.{MayBegin, AreHeld};

use sg_base::Listed;
use sg_base::limits::{MANIFEST_FILES, MANIFEST_TEXT, MAX_FILE_LEN};
use sg_disk::{DATA, PAGE};
use sg_paged_store::Store;

/// Whether a file may be begun.
pub fn may_begin(store: &Store, file: &Listed) -> bool
    ensures media { result ≡ true → 1 ≤ file.now.media.0 }
    ensures some { result ≡ true → 1 ≤ file.now.length }
    ensures long { result ≡ true → file.now.length ≤ MAX_FILE_LEN }
    ensures new { result ≡ true → is_held store.now file.now ≡ false }
    ensures idle { result ≡ true → store.now.staged.half ≡ None }
    ensures few { result ≡ true → length store.now.staged.sealed.files < MANIFEST_FILES }
    ensures only { result ≡ false → MayBegin store.now file.now → ⊥ }
{
    if file.media.0 == 0 || file.length == 0 || u64::from(file.length) > MAX_FILE_LEN {
        return false;
    }
    if store.held(file) || store.is_full() {
        return false;
    }
    match store.staged() {
        Some(_) => false,
        None => true,
    }
}

/// Whether so many bytes more belong to the half staged file, and to the page that the next of them goes to.
pub fn may_bring(store: &Store, count: usize) -> bool
    ensures fits { result ≡ true → IsSomeAnd store.now.staged.half
        (λ h. h.count + count ≤ h.file.length) }
    ensures page { result ≡ true → IsSomeAnd store.now.staged.half
        (λ h. h.count % PAGE + count ≤ PAGE) }
    ensures came { (c : List ℕ) → DATA + store.now.room ≤ length c
        → IfSome store.now.staged.half (λ h. length (bytes_so_far c h) ≡ h.count) }
    ensures only { result ≡ false → IsSomeAnd store.now.staged.half
        (λ h. (h.count + count ≤ h.file.length) × (h.count % PAGE + count ≤ PAGE)) → ⊥ }
{
    match store.staged() {
        Some((file, came)) => {
            came <= file.length
                && count <= (file.length - came) as usize
                && count <= (PAGE - u64::from(came) % PAGE) as usize
        }
        None => false,
    }
}

/// Whether all bytes of the half staged file have come.
pub fn may_seal(store: &Store) -> bool
    ensures lawful { result ≡ true → IsSomeAnd store.now.staged.half
        (λ h. h.count ≡ h.file.length) }
    ensures came { (c : List ℕ) → DATA + store.now.room ≤ length c
        → IfSome store.now.staged.half (λ h. length (bytes_so_far c h) ≡ h.count) }
    ensures only { result ≡ false → IsSomeAnd store.now.staged.half (λ h. h.count ≡ h.file.length)
        → ⊥ }
{
    match store.staged() {
        Some((file, came)) => came == file.length,
        None => false,
    }
}

/// Whether a manifest and its files may become current.
pub fn may_switch(store: &Store, manifest: &[u8], files: &[Listed]) -> bool
    ensures few { result ≡ true → length files.now ≤ MANIFEST_FILES }
    ensures ascending { result ≡ true → AllPairs (λ f g. f.media.0 < g.media.0) files.now }
    ensures held { result ≡ true → All (λ f. is_held store.now f ≡ true) files.now }
    ensures some { result ≡ true → 1 ≤ length manifest.now }
    ensures long { result ≡ true → length manifest.now ≤ MANIFEST_TEXT }
    ensures only { result ≡ false → AreHeld store.now files.now → 1 ≤ length manifest.now
        → length manifest.now ≤ MANIFEST_TEXT → ⊥ }
{
    files.len() <= MANIFEST_FILES as usize
        && !manifest.is_empty()
        && manifest.len() <= MANIFEST_TEXT as usize
        && is_ascending(files)
        && are_held(store, files)
}

// Whether the ids of these files ascend.
fn is_ascending(files: &[Listed]) -> bool
    ensures lawful { result ≡ true → AllPairs (λ f g. f.media.0 < g.media.0) files.now }
    ensures only { result ≡ false → AllPairs (λ f g. f.media.0 < g.media.0) files.now → ⊥ }
{
    for i in 1..files.len() {
        if files[i - 1].media.0 >= files[i].media.0 {
            return false;
        }
    }
    true
}

// Whether each of these files is held.
fn are_held(store: &Store, files: &[Listed]) -> bool
    ensures lawful { result ≡ true → All (λ f. is_held store.now f ≡ true) files.now }
    ensures only { result ≡ false → All (λ f. is_held store.now f ≡ true) files.now → ⊥ }
{
    for file in files {
        if !store.held(file) {
            return false;
        }
    }
    true
}
