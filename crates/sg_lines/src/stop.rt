//! Why a source gives no further line.

use std::alloc::AllocError;

/// Why a source gives no further line.
#[derive(Clone, Copy, Debug, PartialEq, Eq)]
pub enum LineStop {
    /// The source failed.
    Read,
    /// A line has more bytes than a line may have.
    LongLine,
    /// There is a byte more than may be taken.
    TooLong,
    /// Memory ran out.
    Memory,
}

impl From<AllocError> for LineStop {
    ghost use Rattle.std.specs.Prelude.{◌≡◌};
    ghost use Rattle.sg_lines.specs.declared.stop.LineStop.TheVariants.{Memory};

    ghost from_gives = { λ _ stop. stop ≡ Memory };

    fn from(_refused: AllocError) -> LineStop {
        LineStop::Memory
    }
}
