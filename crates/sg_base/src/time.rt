//! Moments and local seconds.

ghost use Rattle.std.specs.Prelude.{◌≡◌, ◌≤◌, SomeIff};

use crate::limits::LAST_MOMENT;
use std::marker::Model;

/// A Unix second, at most 4,102,444,799 (the last of the year 2099).
#[derive(Clone, Copy, Debug, PartialEq, Eq, PartialOrd, Ord, Hash)]
pub struct Moment(u32);

impl Model for Moment {
    ghost use Rattle.std.specs.Prelude.{ℕ, ◌≤◌};
    ghost use Rattle.sg_base.specs.declared.limits.TheConstants.{LAST_MOMENT};

    ghost Value = { ℕ };

    ghost view = { λ m. m.0 };

    ghost invariant = { λ m. m.0 ≤ LAST_MOMENT };

    ghost inverse = { λ n. record { 0 = n } };
}

impl Moment {
    /// The moment at a Unix second, where it is not after 2099.
    pub fn new(seconds: u32) -> Option<Moment>
        ensures { SomeIff result (seconds ≤ LAST_MOMENT) seconds }
    {
        if seconds <= LAST_MOMENT {
            Some(Moment(seconds))
        } else {
            None
        }
    }

    /// The Unix second.
    pub fn seconds(self) -> u32
        ensures value { result ≡ self }
        ensures bound { result ≤ LAST_MOMENT }
    {
        self.0
    }
}

/// A second of a zone's local time, counted from the local midnight that begins 1970-01-01. It may be
/// negative.
#[derive(Clone, Copy, Debug, PartialEq, Eq, PartialOrd, Ord, Hash)]
pub struct LocalSec(i64);

impl Model for LocalSec {
    ghost use Rattle.std.specs.Prelude.{ℤ};

    ghost Value = { ℤ };

    ghost view = { λ s. s.0 };

    ghost inverse = { λ z. record { 0 = z } };
}

impl LocalSec {
    /// The local second of this number.
    pub fn new(second: i64) -> LocalSec
        ensures { result ≡ second }
    {
        LocalSec(second)
    }

    /// Its number.
    pub fn second(self) -> i64
        ensures { result ≡ self }
    {
        self.0
    }
}
