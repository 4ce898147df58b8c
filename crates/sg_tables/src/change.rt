//! Changes of rows, and why they are refused.

use sg_base::{Kind, MediaId, Row};
use std::alloc::AllocError;

/// A change of one row.
#[derive(Debug, Drop)]
pub enum TableChange {
    /// A row that isn't there comes in.
    Insert(Row),
    /// A row takes the place of the one with its kind and id.
    Replace(Row),
    Remove(Kind, u32),
}

/// Why a change is refused.
#[derive(Clone, Copy, Debug, PartialEq, Eq)]
pub enum TableRefusal {
    /// There is no such row: the one to be replaced or removed, or one that the new row names.
    Unknown {
        kind: Kind,
        id: u32,
    },
    /// Another row names the one to be removed.
    InUse {
        kind: Kind,
        id: u32,
        by_kind: Kind,
        by_id: u32,
    },
    /// The row to be inserted is there.
    Exists {
        kind: Kind,
        id: u32,
    },
    /// There are as many rows of the kind as there may be; of media, or else as many bytes declared.
    Full {
        kind: Kind,
        limit: u32,
    },
    /// The new row names a medium that isn't complete.
    Incomplete(MediaId),
    /// Memory ran out.
    Memory,
}

impl From<AllocError> for TableRefusal {
    ghost use Rattle.std.specs.Prelude.{◌≡◌};
    ghost use Rattle.sg_tables.specs.declared.change.TableRefusal.TheVariants.{Memory};

    ghost from_gives = { λ _ fault. fault ≡ Memory };

    fn from(_refused: AllocError) -> TableRefusal {
        TableRefusal::Memory
    }
}
