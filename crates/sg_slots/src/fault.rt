// Why an opening is refused.

use sg_disk::DiskFailed;
use std::alloc::AllocError;
use thiserror::Error;

/// Why an opening gives no store.
#[derive(Clone, Copy, Debug, PartialEq, Eq, Error)]
pub enum OpenFault {
    /// The disk is too short for a store, or its header's gate is closed.
    #[error("the disk has no store")]
    Unformatted,
    /// The disk holds what no store does. The place is counted from the disk's start, and what was found there is a number or a
    /// medium.
    #[error("the store is damaged at {place}: {found}")]
    Damaged { place: u64, found: u64 },
    /// The disk has failed.
    #[error("the disk has failed")]
    Disk,
    /// Memory ran out.
    #[error("memory ran out")]
    Memory,
}

impl From<DiskFailed> for OpenFault {
    ghost use Rattle.std.specs.Prelude.{◌≡◌};
    ghost use Rattle.sg_slots.specs.declared.fault.OpenFault.TheVariants.{Disk};

    ghost from_gives = { λ _ fault. fault ≡ Disk };

    fn from(_failed: DiskFailed) -> OpenFault {
        OpenFault::Disk
    }
}

impl From<AllocError> for OpenFault {
    ghost use Rattle.std.specs.Prelude.{◌≡◌};
    ghost use Rattle.sg_slots.specs.declared.fault.OpenFault.TheVariants.{Memory};

    ghost from_gives = { λ _ fault. fault ≡ Memory };

    fn from(_refused: AllocError) -> OpenFault {
        OpenFault::Memory
    }
}
