//! Why JSON is no row.

use sg_base::{DaypartFault, EventFault, LayoutFault, MediaId, RepeatFault};
use sg_calendar::ZoneFault;
use std::alloc::{AllocError, AllocFailed};
use thiserror::Error;

/// Why JSON is no row. A fault of a row's own is looked for in this order: `Later`, then `Shape`, then that of the
/// row's constructor.
#[derive(Clone, Copy, Debug, PartialEq, Eq, Error)]
pub enum RowFault {
    /// Members, their types, ids or fixed texts aren't those of the row.
    #[error("the row isn't of its form")]
    Shape,
    /// The row is of a later version of the format.
    #[error("the row is of a later version")]
    Later,
    /// The regions make no layout.
    #[error("the layout isn't valid: {0}")]
    Layout(LayoutFault),
    /// The windows make no daypart.
    #[error("the daypart isn't valid: {0}")]
    Daypart(DaypartFault),
    /// The values make no repeat.
    #[error("the repeat isn't valid: {0}")]
    Repeat(RepeatFault),
    /// The values make no event.
    #[error("the event isn't valid: {0}")]
    Event(EventFault),
    /// The rule tells no zone.
    #[error("the zone isn't valid: {0}")]
    Zone(ZoneFault),
    /// A medium can't be replaced. No row has this fault by itself.
    #[error("a medium can't be replaced")]
    NoReplace,
    /// A medium that the row names isn't complete. No row has this fault by itself.
    #[error("a medium isn't complete")]
    Incomplete(MediaId),
    /// Memory ran out.
    #[error("memory ran out")]
    Memory,
}

impl From<AllocError> for RowFault {
    ghost use Rattle.std.specs.Prelude.{◌≡◌};
    ghost use Rattle.sg_rows.specs.declared.fault.RowFault.TheVariants.{Memory};

    ghost from_gives = { λ _ fault. fault ≡ Memory };

    fn from(_refused: AllocError) -> RowFault {
        RowFault::Memory
    }
}

impl<T: Drop> From<AllocFailed<T>> for RowFault {
    ghost use Rattle.std.specs.Prelude.{◌≡◌};
    ghost use Rattle.sg_rows.specs.declared.fault.RowFault.TheVariants.{Memory};

    ghost from_gives = { λ _ fault. fault ≡ Memory };

    fn from(_refused: AllocFailed<T>) -> RowFault {
        RowFault::Memory
    }
}
