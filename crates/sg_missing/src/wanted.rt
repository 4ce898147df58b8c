// What is asked for next.
ghost use Rattle.std.specs.Prelude.{◌≡◌, ◌<◌, ◌≤◌, ◌∷◌, All, IfNone, IfSome, [], length};
ghost use Rattle.sg_base.specs.declared.file.Listed.{Listed};
ghost use Rattle.sg_base.specs.declared.limits.TheConstants.{MANIFEST_FILES, MAX_FILE_LEN};
ghost use Rattle.sg_missing.specs.Missing.{AreFiles, IsFirst, IsPart, first_missing, holding, keeps_part, missing, staged_of};

use crate::piece::{count_pieces, piece_count};
use crate::staging::Staging;
use sg_base::Listed;
use sg_placing::is_same;

/// A piece that is asked for: its file, the place in the file at which it begins, and how many bytes it has.
#[derive(Clone, Copy, Debug, PartialEq, Eq)]
pub struct Wanted {
    pub file: Listed,
    pub at: u32,
    pub count: u32,
}

/// The first piece that is missing of these files. `None` if each is whole.
pub fn next_piece<S: Staging>(files: &[Listed], store: &S) -> Option<Wanted>
    requires files { AreFiles files.now }
    requires part { IsPart (S.part store.now) }
    ensures none { IfNone result
        (missing (holding (S.holds store.now) (S.part store.now)) files.now ≡ []) }
    ensures first { IfSome result
        (IsFirst (holding (S.holds store.now) (S.part store.now)) files.now) }
{
    match first_missing(files, store) {
        Some(file) => {
            let at = staged_of(store, &file);
            Some(Wanted {
                file,
                at,
                count: piece_count(at, file.length),
            })
        }
        None => None,
    }
}

/// How many pieces are missing of these files.
pub fn count_missing<S: Staging>(files: &[Listed], store: &S) -> u32
    requires files { AreFiles files.now }
    requires few { length files.now ≤ MANIFEST_FILES }
    requires short { All (λ (f : Listed). f.length ≤ MAX_FILE_LEN) files.now }
    requires part { IsPart (S.part store.now) }
    ensures { result ≡ length (missing (holding (S.holds store.now) (S.part store.now)) files.now) }
{
    let mut count = 0;
    for file in files {
        count += count_of(file, store);
    }
    count
}

/// Whether the file of which a part is staged is the first of these that isn't whole. Only then a sync goes on with it.
pub fn keeps_part<S: Staging>(files: &[Listed], store: &S) -> bool
    ensures { result ≡ keeps_part (holding (S.holds store.now) (S.part store.now)) files.now }
{
    match store.staged() {
        Some((part, _)) => match first_missing(files, store) {
            Some(file) => is_same(&part, &file),
            None => false,
        },
        None => false,
    }
}

// How many pieces are missing of a file.
fn count_of<S: Staging>(file: &Listed, store: &S) -> u32
    requires some { 1 ≤ file.now.length }
    requires short { file.now.length ≤ MAX_FILE_LEN }
    requires part { IsPart (S.part store.now) }
    ensures count { result ≡ length (missing (holding (S.holds store.now) (S.part store.now))
        (file.now ∷ [])) }
    ensures few { result ≤ 1024 }
{
    if store.held(file) {
        0
    } else {
        count_pieces(staged_of(store, file), file.length)
    }
}

// How many bytes of a file are staged in part.
fn staged_of<S: Staging>(store: &S, file: &Listed) -> u32
    requires some { 1 ≤ file.now.length }
    requires part { IsPart (S.part store.now) }
    ensures value { result ≡ staged_of (S.part store.now) file.now }
    ensures lacks { result < file.now.length }
{
    match store.staged() {
        Some((part, count)) => { if is_same(&part, file) { count } else { 0 } }
        None => 0,
    }
}

// The first of these files that isn't whole.
fn first_missing<S: Staging>(files: &[Listed], store: &S) -> Option<Listed>
    ensures { result ≡ first_missing (S.holds store.now) files.now }
{
    for file in files {
        if !store.held(file) {
            return Some(*file);
        }
    }
    None
}
