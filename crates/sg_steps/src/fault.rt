//! Why a call of the server has no reply.

use std::alloc::{AllocError, AllocFailed};

/// Why a call of the server has no reply. The server and its rows are as they were.
#[derive(Clone, Copy, Debug, PartialEq, Eq)]
pub enum CmsFault {
    /// The keeper failed, and its count of faults rose.
    Keeper,
    /// Memory ran out.
    Memory,
}

impl From<AllocError> for CmsFault {
    ghost use Rattle.std.specs.Prelude.{◌≡◌};
    ghost use Rattle.sg_steps.specs.declared.fault.CmsFault.TheVariants.{Memory};

    ghost from_gives = { λ _ fault. fault ≡ Memory };

    fn from(_refused: AllocError) -> CmsFault {
        CmsFault::Memory
    }
}

impl<T: Drop> From<AllocFailed<T>> for CmsFault {
    ghost use Rattle.std.specs.Prelude.{◌≡◌};
    ghost use Rattle.sg_steps.specs.declared.fault.CmsFault.TheVariants.{Memory};

    ghost from_gives = { λ _ fault. fault ≡ Memory };

    fn from(_refused: AllocFailed<T>) -> CmsFault {
        CmsFault::Memory
    }
}
