// Why a switch is refused.

use sg_disk::DiskFailed;
use thiserror::Error;

/// Why a snapshot isn't made current.
#[derive(Clone, Copy, Debug, PartialEq, Eq, Error)]
pub enum SwitchFault {
    /// The switch numbers are used up.
    #[error("the store has no switch number left")]
    Spent,
    /// The disk has failed.
    #[error("the disk has failed")]
    Disk,
}

impl From<DiskFailed> for SwitchFault {
    ghost use Rattle.std.specs.Prelude.{◌≡◌};
    ghost use Rattle.sg_paged_store.specs.declared.faults.SwitchFault.TheVariants.{Disk};

    ghost from_gives = { λ _ fault. fault ≡ Disk };

    fn from(_failed: DiskFailed) -> SwitchFault {
        SwitchFault::Disk
    }
}
