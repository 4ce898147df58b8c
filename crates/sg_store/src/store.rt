// The store in memory, and its calls that need no disk.
ghost use Rattle.std.specs.Prelude.{◌≡◌, ◌≤◌, ◌<◌, ◌++◌, length, All, vec_capacity, slice_index_or};
ghost use Rattle.sg_base.specs.declared.limits.TheConstants.{MAX_ROOM, MANIFEST_FILES, MANIFEST_TEXT};
ghost use Rattle.sg_disk.specs.declared.places.TheConstants.{TABLE_LEN};
ghost use Rattle.sg_placing.specs.declared.placed.Placed.{Placed};
ghost use Rattle.std.specs.Option.{ForSome};
ghost use Rattle.sg_placing.specs.Placing.{IsPlaced, AreAscending, AreDistinct};
ghost use Rattle.sg_store.specs.Halves.{half_files};

use md5::Md5;
use sg_base::Listed;
use sg_placing::{Placed, Shelf};
use sg_slots::Slot;

/// A file of which a part is staged.
#[derive(Drop)]
pub struct Half {
    pub placed: Placed,
    // How many of its bytes have come, and their digest so far.
    pub count: u32,
    pub hasher: Md5,
}

/// The snapshot that a disk holds, and the files that are staged beside it. It is made by [`Store::open`], and its calls
/// want the disk that it was opened on.
#[derive(Drop)]
pub struct Store {
    pub(crate) display: u32,
    pub(crate) epoch: u32,
    pub(crate) room: u64,
    // The switch number, 0 without a snapshot, and the length of the manifest's text.
    pub(crate) number: u32,
    pub(crate) text: u32,
    // The slot that the next switch writes, and whether its gate stands open. The snapshot is in the other one.
    pub(crate) spare: Slot,
    pub(crate) spare_open: bool,
    // The files of the snapshot by id, and those that are staged and sealed.
    pub(crate) current: Shelf,
    pub(crate) staged: Shelf,
    pub(crate) half: Option<Half>,
    // Room for the files of a switch, and for the bytes of its table.
    pub(crate) next: Shelf,
    pub(crate) table: Vec<u8>,
    ghost room_fits: { room ≤ MAX_ROOM },
    ghost text_fits: { text ≤ MANIFEST_TEXT },
    ghost table_room: { TABLE_LEN ≤ vec_capacity table },
    ghost current_placed: { All (IsPlaced room) current },
    ghost staged_placed: { All (IsPlaced room) staged },
    ghost few: { length staged ≤ MANIFEST_FILES },
    ghost half_placed: { ForSome half (λ h. IsPlaced room h.placed) },
    ghost half_count: { ForSome half (λ h. h.count ≤ h.placed.file.length) },
    ghost half_few: { ForSome half (λ h. length staged < MANIFEST_FILES) },
    // Whatever disk it is, the snapshot's files are by id, and no two of all files are the same.
    ghost ascending: { AreAscending current },
    ghost distinct: { AreDistinct (current ++ staged ++ half_files half) },
}

impl Store {
    /// The display that the store was formatted for.
    pub fn display(&self) -> u32
        ensures { result ≡ self.now.display }
    {
        self.display
    }

    /// The epoch that the store was formatted for.
    pub fn epoch(&self) -> u32
        ensures { result ≡ self.now.epoch }
    {
        self.epoch
    }

    /// The length of the data area in bytes.
    pub fn room(&self) -> u64
        ensures { result ≡ self.now.room }
    {
        self.room
    }

    /// The switch number of the snapshot, 0 without one.
    pub fn number(&self) -> u32
        ensures { result ≡ self.now.number }
    {
        self.number
    }

    /// The length of the manifest's text in bytes, 0 without a snapshot.
    pub fn manifest_len(&self) -> u32
        ensures { result ≡ self.now.text }
    {
        self.text
    }

    /// How many files the snapshot has.
    pub fn files(&self) -> usize
        ensures { result ≡ length self.now.current }
    {
        self.current.as_slice().len()
    }

    /// File i of the snapshot, counted from 0 by id.
    pub fn file(&self, i: usize) -> Listed
        requires { i < length self.now.current }
        ensures { (d : Placed) → result ≡ (slice_index_or self.now.current i d).file }
    {
        self.current.as_slice()[i].file
    }
}
