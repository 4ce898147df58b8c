// Why a journal is not opened, and why a play is not recorded.

use sg_disk::DiskFailed;
use std::alloc::{AllocError, AllocFailed};
use thiserror::Error;

/// Why [`Journal::append`](crate::Journal::append) has not recorded a play.
#[derive(Clone, Copy, Debug, PartialEq, Eq, Error)]
pub enum AppendFault {
    /// Every record holds a play that isn't acknowledged.
    #[error("the journal is full: {first} is not acknowledged, {next} would be next")]
    Full { first: u32, next: u32 },
    /// The numbers of the epoch are used up.
    #[error("the epoch has no number left")]
    Spent,
    /// The disk has failed.
    #[error("the disk has failed")]
    Disk,
}

impl From<DiskFailed> for AppendFault {
    ghost use Rattle.std.specs.Prelude.{◌≡◌};
    ghost use Rattle.sg_journal.specs.declared.fault.AppendFault.TheVariants.{Disk};

    ghost from_gives = { λ _ fault. fault ≡ Disk };

    fn from(_failed: DiskFailed) -> AppendFault {
        AppendFault::Disk
    }
}

/// Why [`Journal::open`](crate::Journal::open) gives no journal.
#[derive(Clone, Copy, Debug, PartialEq, Eq, Error)]
pub enum OpenFault {
    /// The area holds what no journal of the epoch does. The place is counted from the disk's start, and what was found there
    /// is a number of the record.
    #[error("the journal is damaged at {place}: {found}")]
    Damaged { place: u64, found: u64 },
    /// The disk has failed.
    #[error("the disk has failed")]
    Disk,
    /// Memory ran out.
    #[error("memory ran out")]
    Memory,
}

impl From<DiskFailed> for OpenFault {
    ghost use Rattle.std.specs.Prelude.{◌≡◌};
    ghost use Rattle.sg_journal.specs.declared.fault.OpenFault.TheVariants.{Disk};

    ghost from_gives = { λ _ fault. fault ≡ Disk };

    fn from(_failed: DiskFailed) -> OpenFault {
        OpenFault::Disk
    }
}

impl From<AllocError> for OpenFault {
    ghost use Rattle.std.specs.Prelude.{◌≡◌};
    ghost use Rattle.sg_journal.specs.declared.fault.OpenFault.TheVariants.{Memory};

    ghost from_gives = { λ _ fault. fault ≡ Memory };

    fn from(_refused: AllocError) -> OpenFault {
        OpenFault::Memory
    }
}

impl<T: Drop> From<AllocFailed<T>> for OpenFault {
    ghost use Rattle.std.specs.Prelude.{◌≡◌};
    ghost use Rattle.sg_journal.specs.declared.fault.OpenFault.TheVariants.{Memory};

    ghost from_gives = { λ _ fault. fault ≡ Memory };

    fn from(_refused: AllocFailed<T>) -> OpenFault {
        OpenFault::Memory
    }
}
