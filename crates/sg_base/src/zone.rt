//! What a display's zone is told by.

use crate::list::Rows;
use std::alloc::AllocError;

/// The rule of a zone: an offset, or a text that says when clocks change.
#[derive(Debug, PartialEq, Drop)]
pub enum ZoneRule {
    /// Minutes that local time is ahead of UTC.
    Offset(i32),
    /// A POSIX TZ text, as `CET-1CEST,M3.5.0,M10.5.0/3`.
    Posix(Rows<u8>),
}

impl Clone for ZoneRule {
    ghost use Rattle.std.specs.Prelude.{◌≡◌};

    ghost is_clone = { λ x y. y ≡ x };

    fn clone(&self) -> Result<ZoneRule, AllocError> {
        match self {
            ZoneRule::Offset(minutes) => Ok(ZoneRule::Offset(*minutes)),
            ZoneRule::Posix(text) => Ok(ZoneRule::Posix(text.clone()?)),
        }
    }
}
