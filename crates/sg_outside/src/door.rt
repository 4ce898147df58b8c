// The door of a server: connections come in, and are handed back when they were served.
ghost use Rattle.std.specs.Prelude.{◌≡◌, ℕ, Bool, List, [], ◌∷◌, OnOk, OnErr, IfOk};
ghost use Rattle.std.specs.declared.option.Option.{Option};
ghost use Rattle.sg_base.specs.Causes.{HasCause};
ghost use Rattle.sg_outside.specs.Doors.{Comes};
ghost use Rattle.sg_outside.specs.Lists.{Grows};

use crate::ends::{Sink, Source};
use thiserror::Error;

/// A door failed, and has counted it.
#[derive(Clone, Copy, Debug, PartialEq, Eq, Error)]
#[error("the door failed")]
pub struct DoorFailed;

/// Gives connections, one after another, and takes back those that were served.
pub trait Door {
    type Conn: Source + Sink + Drop;

    // The connections to come, where the door tells them.
    ghost coming: { Self → Option (List Self.Conn) };

    // Those that were handed back, each as it was then, where the door tells them.
    ghost back: { Self → Option (List Self.Conn) };

    // Whether it has said that no more come.
    ghost ended: { Self → Bool };

    // How often a call has failed; the count stays at the last value of a u64.
    ghost faults: { Self → ℕ };

    /// The next connection, or `None` where no more come. A call that fails gives none and loses none, and has been
    /// counted as a fault.
    fn next(&mut self) -> Result<Option<Self::Conn>, DoorFailed>
        ensures came { IfOk result (λ next.
            Comes (coming self.old) (coming self.new) (ended self.old) (ended self.new) next) }
        ensures cause { HasCause (faults self.old) (faults self.new) result }

        // A refusal leaves what is to come; whatever it answers, what was handed back stays.
        ensures kept { OnErr result (coming self.new ≡ coming self.old) }
        ensures open { OnErr result (ended self.new ≡ ended self.old) }
        ensures back { back self.new ≡ back self.old };

    /// Takes a connection back, and closes it. Where the call fails, it is closed all the same, and the fault has been
    /// counted.
    fn done(&mut self, conn: Self::Conn) -> Result<(), DoorFailed>
        ensures taken { OnOk result (Grows (back self.old) (back self.new) (conn ∷ [])) }
        ensures cause { HasCause (faults self.old) (faults self.new) result }

        // A refusal leaves what was handed back; whatever it answers, what is to come stays.
        ensures kept { OnErr result (back self.new ≡ back self.old) }
        ensures coming { coming self.new ≡ coming self.old }
        ensures ended { ended self.new ≡ ended self.old };
}
