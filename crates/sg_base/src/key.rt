//! Keys of kept rows.

ghost use Rattle.std.specs.Prelude.{◌≡◌, ◌+◌};
ghost use Rattle.sg_base.specs.Ranks.{rank_of};

use crate::sorted::Rank;

/// The key of a kept row: its kind, and two numbers that tell the rows of a kind apart. Keys stand in the order of their
/// fields, which is that of their numbers.
#[derive(Clone, Copy, Debug, PartialEq, Eq, PartialOrd, Ord, Hash)]
pub struct Key {
    pub kind: u8,
    pub a: u64,
    pub b: u64,
}

impl Key {
    ghost use Rattle.sg_base.specs.Keys.{number, number_of};

    /// Its rank in a table by key.
    pub fn rank(self) -> Rank
        ensures { rank_of result ≡ number_of self }
    {
        Rank {
            high: u64::from(self.kind),
            low: (u128::from(self.a) << 64) + u128::from(self.b),
        }
    }

    /// The rank after its own.
    pub fn rank_after(self) -> Rank
        ensures { rank_of result ≡ number_of self + 1 }
    {
        let rank = self.rank();
        match rank.low.checked_add(1) {
            Some(low) => Rank {
                high: u64::from(self.kind),
                low,
            },
            None => Key::rank_after_kind(self.kind),
        }
    }

    /// The rank after those of all keys of a kind.
    pub fn rank_after_kind(kind: u8) -> Rank
        ensures { rank_of result ≡ number (kind + 1) 0 0 }
    {
        Rank {
            high: u64::from(kind) + 1,
            low: 0,
        }
    }
}
