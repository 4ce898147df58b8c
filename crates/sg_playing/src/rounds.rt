// Which turns sync.
ghost use Rattle.std.specs.Prelude.{◌≡◌, ◌+◌, ◌≤◌, ◌↔◌, ℕ, IsTrue};
ghost use Rattle.sg_playing.specs.Rounds.{HasTurned, IsSyncTurn};

use std::marker::Model;

/// The turns of a life, of which the first syncs and then each that comes so many turns later; or none does. Contracts
/// see it as that number of turns, 0 where none does, and the turns since the last one that synced.
#[derive(Debug, Drop)]
pub struct Rounds {
    every: u32,
    since: u32,
}

impl Model for Rounds {
    ghost use Rattle.std.specs.Prelude.{◌≤◌};
    ghost use Rattle.sg_playing.specs.Rounds.{RoundsView};

    ghost Value = { RoundsView };

    ghost view = { λ r. record { every = r.every; since = r.since } };

    ghost invariant = { λ r. r.since ≤ r.every };
}

impl Rounds {
    /// A life begins.
    pub fn new(every: u32) -> Rounds
        ensures every { result.every ≡ every }
        ensures turned { HasTurned result 0 }
    {
        Rounds {
            every,
            since: every,
        }
    }

    /// Counts a turn, and says whether it syncs.
    pub fn turn(&mut self) -> bool
        ensures turned { (n : ℕ) → HasTurned self.old n → HasTurned self.new (n + 1) }
        ensures syncs { (n : ℕ) → HasTurned self.old n
            → (IsTrue result ↔ IsSyncTurn self.old.every (n + 1)) }
        ensures every { self.new.every ≡ self.old.every }
    {
        if self.every == 0 {
            return false;
        }
        let syncs = self.since == self.every;
        self.since = if syncs { 1 } else { self.since + 1 };
        syncs
    }
}
