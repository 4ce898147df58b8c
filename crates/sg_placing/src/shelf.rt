// Room for placed files, and how one of them is found.
ghost use Rattle.std.specs.Prelude.{◌≡◌, ◌+◌, ◌<◌, ◌≤◌, ◌==◌, [], ◌∷◌, ◌++◌, length, find, filter, option_copied, IfOk, vec_capacity};
ghost use Rattle.sg_placing.specs.Placing.{same_file, is_listed};

use crate::placed::Placed;
use sg_base::limits::MANIFEST_FILES;
use sg_base::{Listed, MediaId};
use std::alloc::{AllocError, Global};
use std::marker::Model;

/// Room for the files of a snapshot, taken once. Contracts see it as the list of the files in it.
#[derive(Debug, Drop)]
pub struct Shelf {
    files: Vec<Placed>,
}

impl Model for Shelf {
    ghost use Rattle.std.specs.Prelude.{List, vec_capacity, ◌≤◌};
    ghost use Rattle.sg_base.specs.declared.limits.TheConstants.{MANIFEST_FILES};
    ghost use Rattle.sg_placing.specs.declared.placed.Placed.{Placed};

    ghost Value = { List Placed };

    ghost view = { λ s. s.files.items };

    ghost invariant = { λ s. MANIFEST_FILES ≤ vec_capacity s.files };
}

impl Shelf {
    /// An empty one. It takes all the memory that its later calls need.
    pub fn reserve(alloc: Global) -> Result<Shelf, AllocError>
        ensures { IfOk result (λ s. s ≡ []) }
    {
        let files = Vec::with_capacity(alloc, MANIFEST_FILES as usize)?;
        Ok(Shelf { files })
    }

    /// The files in it, in the order in which they came.
    pub fn as_slice(&self) -> &[Placed]
        ensures { result.now ≡ self.now }
    {
        self.files.as_slice()
    }

    /// Puts a file behind the others.
    pub fn push(&mut self, file: Placed)
        requires { length self.old < MANIFEST_FILES }
        ensures { self.new ≡ self.old ++ file ∷ [] }
    {
        let _ = self.files.push(file);
    }

    /// Takes all files out.
    pub fn clear(&mut self)
        ensures { self.new ≡ [] }
    {
        self.files.clear();
    }

    /// Takes out the files that aren't among these. It goes over these once for each file in it, at most 512 by 512.
    pub fn keep(&mut self, files: &[Listed])
        ensures { self.new ≡ filter (λ p. is_listed files.now p.file) self.old }
    {
        self.files.retain(|placed| is_listed(files, &placed.file));
    }
}

/// Whether two files have the same id, length and MD5.
pub fn is_same(one: &Listed, other: &Listed) -> bool
    ensures { result ≡ same_file one.now other.now }
{
    one.media.0 == other.media.0 && one.length == other.length && one.md5 == other.md5
}

/// Whether a file is among these.
pub fn is_listed(files: &[Listed], file: &Listed) -> bool
    ensures { result ≡ is_listed files.now file.now }
{
    files.iter().any(|listed| is_same(listed, file))
}

/// The first of these files that is the listed one.
pub fn find_file(files: &[Placed], file: &Listed) -> Option<Placed>
    ensures { result ≡ find (λ p. same_file p.file file.now) files.now }
{
    files
        .iter()
        .find(|placed| is_same(&placed.file, file))
        .copied()
}

/// The first of these files with an id.
pub fn find_media(files: &[Placed], media: MediaId) -> Option<Placed>
    ensures { result ≡ find (λ p. p.file.media.0 == media.0) files.now }
{
    files
        .iter()
        .find(|placed| placed.file.media.0 == media.0)
        .copied()
}
