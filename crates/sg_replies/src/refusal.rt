//! Refusals that say their name alone.

ghost use Rattle.std.specs.Prelude.{◌≡◌, ◌≤◌, length};
ghost use Rattle.sg_replies.specs.Bodies.{refusal_name, refusal_status};

/// Why a message is refused.
#[derive(Clone, Copy, Debug, PartialEq, Eq)]
pub enum Refusal {
    /// Its body isn't of the form that the path takes.
    Body,
    /// There is no such path.
    Path,
    /// The path takes another method.
    Method,
    /// The key isn't the operator's, or isn't that of the display, or there is no such display.
    Key,
    /// The report would end before it begins.
    Range,
    /// The display has no such epoch.
    NoEpoch,
    /// The display has had its last epoch.
    EpochsSpent,
    /// The keeper failed, and nothing was changed.
    Keeper,
    /// Memory ran out, and nothing was changed.
    Memory,
}

impl Refusal {
    /// The status of HTTP that goes with it.
    pub fn status(self) -> u16
        ensures { result ≡ refusal_status self }
    {
        match self {
            Refusal::Body => 400,
            Refusal::Path => 404,
            Refusal::Method => 405,
            Refusal::Key => 403,
            Refusal::Range => 422,
            Refusal::NoEpoch => 409,
            Refusal::EpochsSpent => 409,
            Refusal::Keeper => 503,
            Refusal::Memory => 507,
        }
    }

    /// Its name in a body.
    pub fn name(self) -> &'static [u8]
        ensures name { result.now ≡ refusal_name self }
        ensures short { length result.now ≤ 11 }
    {
        match self {
            Refusal::Body => b"Body",
            Refusal::Path => b"Path",
            Refusal::Method => b"Method",
            Refusal::Key => b"Key",
            Refusal::Range => b"Range",
            Refusal::NoEpoch => b"NoEpoch",
            Refusal::EpochsSpent => b"EpochsSpent",
            Refusal::Keeper => b"Keeper",
            Refusal::Memory => b"Memory",
        }
    }
}
