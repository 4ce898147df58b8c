// Why a run of calls ends before its end.
ghost use Rattle.std.specs.Prelude.{◌≡◌};

use sg_disk::DiskFailed;
use sg_paged_store::{DigestDiffers, NoSpace, OpenFault, SwitchFault};
use thiserror::Error;

/// Why [`run`](crate::run) made no further call.
#[derive(Clone, Copy, Debug, PartialEq, Eq, Error)]
pub enum Stop {
    /// The next call isn't lawful, and wasn't made.
    #[error("the call isn't lawful")]
    Unlawful,
    /// Fewer pages are free than a file needs.
    #[error("{0}")]
    NoSpace(NoSpace),
    /// The bytes that came for a file have another MD5 than the listed one. The file is given up.
    #[error("{0}")]
    DigestDiffers(DigestDiffers),
    /// The switch numbers are used up.
    #[error("the store has no switch number left")]
    Spent,
    /// The disk has failed.
    #[error("the disk has failed")]
    Disk,
    /// The disk has no store.
    #[error("the disk has no store")]
    Unformatted,
    /// The disk holds what no store does.
    #[error("the store is damaged at {place}: {found}")]
    Damaged { place: u64, found: u64 },
    /// Memory ran out.
    #[error("memory ran out")]
    Memory,
}

impl From<NoSpace> for Stop {
    ghost use Rattle.sg_paged_runs.specs.declared.stop.Stop.TheVariants as stop;

    ghost from_gives = { λ fault given. given ≡ stop.NoSpace fault };

    fn from(fault: NoSpace) -> Stop {
        Stop::NoSpace(fault)
    }
}

impl From<DigestDiffers> for Stop {
    ghost use Rattle.sg_paged_runs.specs.declared.stop.Stop.TheVariants as stop;

    ghost from_gives = { λ fault given. given ≡ stop.DigestDiffers fault };

    fn from(fault: DigestDiffers) -> Stop {
        Stop::DigestDiffers(fault)
    }
}

impl From<DiskFailed> for Stop {
    ghost use Rattle.sg_paged_runs.specs.declared.stop.Stop.TheVariants as stop;

    ghost from_gives = { λ _ given. given ≡ stop.Disk };

    fn from(_failed: DiskFailed) -> Stop {
        Stop::Disk
    }
}

impl From<SwitchFault> for Stop {
    ghost use Rattle.sg_paged_runs.specs.Stops.{stop_of_switch};

    ghost from_gives = { λ fault given. given ≡ stop_of_switch fault };

    fn from(fault: SwitchFault) -> Stop {
        match fault {
            SwitchFault::Spent => Stop::Spent,
            SwitchFault::Disk => Stop::Disk,
        }
    }
}

impl From<OpenFault> for Stop {
    ghost use Rattle.sg_paged_runs.specs.Stops.{stop_of_open};

    ghost from_gives = { λ fault given. given ≡ stop_of_open fault };

    fn from(fault: OpenFault) -> Stop {
        match fault {
            OpenFault::Unformatted => Stop::Unformatted,
            OpenFault::Damaged { place, found } => Stop::Damaged { place, found },
            OpenFault::Disk => Stop::Disk,
            OpenFault::Memory => Stop::Memory,
        }
    }
}
