// The store in memory, and its calls that need no disk.
ghost use Rattle.std.specs.Prelude.{◌≡◌, ◌≤◌, ◌<◌, length, slice_index_or};
ghost use Rattle.sg_placing.specs.declared.placed.Placed.{Placed};
ghost use Rattle.sg_store_state.specs.State.{IsKept};

use sg_base::Listed;
use sg_pages::Shelf;
use sg_slots::Slot;
use sg_staging::Staging;
use std::marker::Model;

/// The snapshot that a disk holds. It is made by [`Store::open`], and its calls want the disk that it was opened on. Contracts
/// see it as what it keeps of the snapshot (`State`).
#[derive(Drop)]
pub struct Store {
    pub(crate) display: u32,
    pub(crate) epoch: u32,
    pub(crate) room: u64,
    // The switch number, 0 without a snapshot, and the length of the manifest's text.
    pub(crate) number: u32,
    pub(crate) text: u32,
    // The slot that the next switch writes, and whether its gate stands open. The snapshot is in the other one.
    pub(crate) spare: Slot,
    pub(crate) spare_open: bool,
    // The files of the snapshot by id.
    pub(crate) current: Shelf,
    pub(crate) staging: Staging,
    // Room for the files of a switch, and for the bytes of its table and of its map.
    pub(crate) next: Shelf,
    pub(crate) table: Vec<u8>,
    pub(crate) map: Vec<u8>,
}

impl Model for Store {
    ghost use Rattle.std.specs.Prelude.{vec_capacity, ◌≤◌};
    ghost use Rattle.sg_disk.specs.declared.places.TheConstants.{TABLE_LEN};
    ghost use Rattle.sg_pages.specs.declared.maps.TheConstants.{MAP_LEN};
    ghost use Rattle.sg_store_state.specs.State.{State, IsKept};

    ghost Value = { State };

    ghost view = { λ s. record {
      display = s.display;
      epoch = s.epoch;
      room = s.room;
      number = s.number;
      text = s.text;
      spare = s.spare;
      spare_open = s.spare_open;
      current = s.current;
      staged = s.staging;
    } };

    ghost invariant = { λ s. IsKept s.room s.text s.current s.staging
        × (TABLE_LEN ≤ vec_capacity s.table) × (MAP_LEN ≤ vec_capacity s.map) };
}

impl Store {
    /// The display that the store was formatted for.
    pub fn display(&self) -> u32
        ensures { result ≡ self.now.display }
    {
        self.display
    }

    /// The epoch that the store was formatted for.
    pub fn epoch(&self) -> u32
        ensures { result ≡ self.now.epoch }
    {
        self.epoch
    }

    /// The length of the data area in bytes.
    pub fn room(&self) -> u64
        ensures room { result ≡ self.now.room }

        // What is so of every store, whatever disk it is: its files and what is staged stand in the data area, and no byte of it is
        // taken twice.
        ensures kept { IsKept self.now.room self.now.text self.now.current self.now.staged }
    {
        self.room
    }

    /// The switch number of the snapshot, 0 without one.
    pub fn number(&self) -> u32
        ensures { result ≡ self.now.number }
    {
        self.number
    }

    /// The length of the manifest's text in bytes, 0 without a snapshot.
    pub fn manifest_len(&self) -> u32
        ensures { result ≡ self.now.text }
    {
        self.text
    }

    /// How many files the snapshot has.
    pub fn files(&self) -> usize
        ensures { result ≡ length self.now.current.files }
    {
        self.current.files().len()
    }

    /// File i of the snapshot, counted from 0 by id.
    pub fn file(&self, i: usize) -> Listed
        requires { i < length self.now.current.files }
        ensures { (d : Placed) → result ≡ (slice_index_or self.now.current.files i d).file }
    {
        self.current.files()[i].file
    }
}
