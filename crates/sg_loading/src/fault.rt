//! Why a server isn't loaded.

use sg_base::Key;
use std::alloc::AllocError;

/// Why a server isn't loaded. The keeper's rows are as they were.
#[derive(Clone, Copy, Debug, PartialEq, Eq)]
pub enum LoadFault {
    /// The keeper failed, and its count of faults rose.
    Keeper,
    /// The first row by key that may not be kept, given the rows before it.
    BadRow(Key),
    /// Memory ran out.
    Memory,
}

impl From<AllocError> for LoadFault {
    ghost use Rattle.std.specs.Prelude.{◌≡◌};
    ghost use Rattle.sg_loading.specs.declared.fault.LoadFault.TheVariants.{Memory};

    ghost from_gives = { λ _ fault. fault ≡ Memory };

    fn from(_refused: AllocError) -> LoadFault {
        LoadFault::Memory
    }
}
