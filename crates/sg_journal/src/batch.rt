// A batch of plays, in fixed room.

use sg_base::limits::BATCH_PLAYS;
use sg_base::{Moment, PlayBody};

/// Up to 64 plays with numbers that follow each other, in fixed room.
#[derive(Debug, Drop)]
pub struct Batch {
    first: u32,
    // the plays in front, as many as `count` says
    plays: [PlayBody; BATCH_PLAYS],
    count: usize,
    ghost long: { length plays ≡ BATCH_PLAYS },
    ghost within: { count ≤ BATCH_PLAYS },
}

ghost use Rattle.std.specs.Prelude.{◌≡◌, ◌≤◌, length};
ghost use Rattle.sg_base.specs.declared.limits.TheConstants.{BATCH_PLAYS};

impl Batch {
    ghost use Rattle.std.specs.Prelude.{◌≡◌, ◌+◌, ◌<◌, ◌≤◌, [], ◌∷◌, ◌++◌, length};
    ghost use Rattle.sg_journal.specs.BatchPlays.{batch_first, batch_plays};

    /// A batch with first number 1 and no play.
    pub fn new() -> Batch
        ensures first { batch_first result ≡ 1 }
        ensures plays { batch_plays result ≡ [] }
    {
        let moment = Moment::new(0).unwrap();
        let nothing = PlayBody {
            event: 0,
            layout: 0,
            from: moment,
            to: moment,
        };
        Batch {
            first: 1,
            plays: [nothing; BATCH_PLAYS],
            count: 0,
        }
    }

    /// The number of its first play, or of the play that would be first.
    pub fn first(&self) -> u32
        ensures { result ≡ batch_first self.now }
    {
        self.first
    }

    /// Its plays, by ascending numbers.
    pub fn plays(&self) -> &[PlayBody]
        ensures plays { result.now ≡ batch_plays self.now }
        ensures few { length result.now ≤ BATCH_PLAYS }
    {
        &self.plays[..self.count]
    }

    // Takes out all plays, and gives the first play to come its number.
    pub(crate) fn restart(&mut self, first: u32)
        ensures first { batch_first self.new ≡ first }
        ensures plays { batch_plays self.new ≡ [] }
    {
        self.first = first;
        self.count = 0;
    }

    // Adds a play behind the others.
    pub(crate) fn push(&mut self, play: PlayBody)
        requires { length (batch_plays self.old) < BATCH_PLAYS }
        ensures first { batch_first self.new ≡ batch_first self.old }
        ensures plays { batch_plays self.new ≡ batch_plays self.old ++ play ∷ [] }
    {
        self.plays[self.count] = play;
        self.count += 1;
    }
}
