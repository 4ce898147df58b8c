// Why a call of the store is refused.

use sg_disk::DiskFailed;
use std::alloc::AllocError;
use thiserror::Error;

/// No gap of the data area has the bytes that a file needs.
#[derive(Clone, Copy, Debug, PartialEq, Eq, Error)]
#[error("{need} bytes are needed, and the longest gap has {largest}")]
pub struct NoSpace {
    pub need: u32,
    pub largest: u32,
}

/// The bytes that came for a file have another MD5 than the listed one.
#[derive(Clone, Copy, Debug, PartialEq, Eq, Error)]
#[error("the bytes that came have another digest than the listed one")]
pub struct DigestDiffers {
    pub found: [u8; 16],
}

/// Why a snapshot isn't made current.
#[derive(Clone, Copy, Debug, PartialEq, Eq, Error)]
pub enum SwitchFault {
    /// The switch numbers are used up.
    #[error("the store has no switch number left")]
    Spent,
    /// The disk has failed.
    #[error("the disk has failed")]
    Disk,
}

impl From<DiskFailed> for SwitchFault {
    ghost use Rattle.std.specs.Prelude.{◌≡◌};
    ghost use Rattle.sg_store.specs.declared.faults.SwitchFault.TheVariants.{Disk};

    ghost from_gives = { λ _ fault. fault ≡ Disk };

    fn from(_failed: DiskFailed) -> SwitchFault {
        SwitchFault::Disk
    }
}
