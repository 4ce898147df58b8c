//! The disk below the store and the journal, and what its bytes stand for.
//!
//! A function over `D: Disk` sees a disk as the record `D.view disk` (`specs/View.antt`): its length, what a read gives,
//! what a crash now or at an earlier moment may leave, the count of faults, and a stop. `specs/Runs.antt` speaks of
//! several calls, `specs/Contents.antt` of what a store holds, and `specs/StandsFor.antt` of the bytes that stand for it.
//! `MemDisk` tells all of it, from the list of its calls (`specs/History.antt`, `specs/Memory.antt`). `FileDisk` tells its
//! length and its faults (`specs/Blind.antt`): that the system's calls do to a file what the disk model says is trusted.
#![tactic(auto)]

mod device;
mod fuses;
mod history;
mod memory;
mod places;
mod real;
mod synced;

pub use device::{Disk, DiskFailed};
pub use fuses::Fuse;
pub use history::Pick;
pub use memory::MemDisk;
pub use places::{
    APPEND_CALLS, COUNT, DATA, DISPLAY, ENTRY_LEN, EPOCH, FIELDS, FILE_LEN, FILE_MD5, FILE_PLACE,
    FORMAT_CALLS, HEADER_LEN, JOURNAL, JOURNAL_LEN, MARK, NUMBER, OPEN_CALLS, PAGE, RECORD_LEN,
    ROOM, SLOT_LEN, SLOT_ONE, SLOT_ZERO, SWITCH_CALLS, TABLE, TABLE_LEN, TEXT, TEXT_LEN, VERSION,
};
pub use real::FileDisk;
pub use synced::{close_gate, write_synced};
