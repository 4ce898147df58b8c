//! Steps over a store, and what is asked of it, as data.

use md5::{Digest, Md5};
use sg_base::{Listed, MediaId};
use sg_store::{NoSpace, Store};
use std::alloc::Global;
use std::test::Fail;

/// The length of most data areas here.
pub(crate) const ROOM: u64 = 131_072;

/// What a test can't go on with.
#[derive(Clone, Copy, Debug, Drop)]
pub(crate) struct Unmet;

/// A file of so many bytes. Each of them is the medium's low byte, but for the last one, which is 200.
#[derive(Clone, Copy, Debug)]
pub(crate) struct File {
    pub(crate) media: u32,
    pub(crate) count: usize,
}

impl File {
    /// The bytes of the file.
    pub(crate) fn bytes(&self, alloc: Global) -> Result<Vec<u8>, Fail> {
        let mut bytes = vec![in alloc; (self.media & 255) as u8; self.count]?;
        match bytes.last_mut() {
            Some(last) => *last = 200,
            None => return Err(Unmet)?,
        }
        Ok(bytes)
    }

    /// The file as a manifest lists it.
    pub(crate) fn listed(&self, alloc: Global) -> Result<Listed, Fail> {
        let bytes = self.bytes(alloc)?;
        Ok(Listed {
            media: MediaId(self.media),
            length: u32::try_from(self.count)?,
            md5: Md5::digest(bytes.as_slice()),
        })
    }
}

/// These files as a manifest lists them.
pub(crate) fn listed(alloc: Global, files: &[File]) -> Result<Vec<Listed>, Fail> {
    let mut listed = Vec::new(alloc);
    for file in files {
        listed.push(file.listed(alloc)?)?;
    }
    Ok(listed)
}

/// As many files as a snapshot may have, of two bytes each.
pub(crate) fn many_files(alloc: Global) -> Result<Vec<File>, Fail> {
    let mut files = Vec::new(alloc);
    for media in 1..513 {
        files.push(File { media, count: 2 })?;
    }
    Ok(files)
}

/// One step.
#[derive(Clone, Copy, Debug)]
pub(crate) enum Step {
    /// Stages a file in pieces of so many bytes, and seals it.
    Stage(File, usize),
    /// Stages a file in pieces of 1, 3, 5, 7 and more bytes.
    StageOddly(File),
    /// Stages as many files as a snapshot may have.
    StageMany,
    /// Begins a file, and brings only its first two bytes.
    Begin(File),
    /// Brings bytes for a file that are those of another one, of the same length, and seals it.
    Mistake(File, File),
    /// Gives up the staged files that aren't among these.
    Keep(&'static [File]),
    /// Makes a manifest and these files current.
    Switch(&'static [u8], &'static [File]),
    /// Makes a manifest of so many bytes current, with as many files as a snapshot may have, this often.
    SwitchMany(usize, u32),
    /// Tries a switch where the numbers are used up.
    Spent(&'static [u8]),
}

/// What is asked of a store.
#[derive(Clone, Copy, Debug)]
pub(crate) enum Ask {
    /// The manifest, of four bytes, and its place.
    Text,
    /// Two bytes of the file of a medium, from an offset on.
    Bytes(u32, u32),
    /// The beginning of a file of so many bytes.
    Room(u32),
    /// Whether a file is held.
    Held(File),
    /// How many bytes have come of the file that is half staged.
    Come,
    /// The display, the epoch, and the length of the data area.
    Made,
}

/// What it answers.
#[derive(Clone, Copy, Debug, PartialEq, Eq)]
pub(crate) enum Told {
    Text([u8; 4], u64),
    Bytes([u8; 2]),
    Room(Option<NoSpace>),
    Held(bool),
    Come(Option<u32>),
    Made(u32, u32, u64),
}

/// What a store shows: the switch number, the length of the manifest, how many files the snapshot has, and the first of
/// them; whether as many files are staged as may be.
#[derive(Clone, Copy, Debug, PartialEq, Eq)]
pub(crate) struct Shown {
    pub(crate) number: u32,
    pub(crate) text: u32,
    pub(crate) files: usize,
    pub(crate) media: Option<u32>,
    pub(crate) full: bool,
}

// The first file of a snapshot.
fn first_file(store: &Store) -> Option<u32> {
    match store.files() {
        0 => None,
        _ => Some(store.file(0).media.0),
    }
}

/// What a store shows.
pub(crate) fn shown_by(store: &Store) -> Shown {
    Shown {
        number: store.number(),
        text: store.manifest_len(),
        files: store.files(),
        media: first_file(store),
        full: store.is_full(),
    }
}
