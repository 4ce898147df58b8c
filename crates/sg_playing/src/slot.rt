// What a play is told by.
ghost use Rattle.std.specs.Prelude.{◌≡◌};
ghost use Rattle.sg_playing.specs.Plays.{is_one_slot};

use sg_base::LocalSec;

/// A slot that is shown: the switch number of its snapshot, its event and its layout, and the local second at which it
/// began.
#[derive(Clone, Copy, Debug, PartialEq, Eq)]
pub struct ShownSlot {
    pub number: u32,
    pub event: u32,
    pub layout: u32,
    pub start: LocalSec,
}

impl ShownSlot {
    // Whether this is the other one.
    pub(crate) fn is(&self, other: &ShownSlot) -> bool
        ensures { result ≡ is_one_slot self.now other.now }
    {
        self.number == other.number
            && self.event == other.event
            && self.layout == other.layout
            && self.start.second() == other.start.second()
    }
}
