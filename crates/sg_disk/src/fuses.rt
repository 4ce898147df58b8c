// When the calls of a disk in memory fail.
ghost use Rattle.std.specs.Prelude.{◌≡◌, ◌+◌, ◌↔◌, ℕ, Some};
ghost use Rattle.sg_base.specs.Stops.{Lowers, Falls, LowersByOne};
ghost use Rattle.sg_disk.specs.Fuse.{stop_of};

/// What befalls the calls to come.
#[derive(Clone, Copy, Debug, PartialEq, Eq)]
pub enum Fuse {
    /// Nothing.
    Idle,
    /// So many calls pass, the next is met by a crash, and each later one fails.
    Crash(u64),
    /// The crash has come.
    Crashed,
    /// So many calls pass, and the next fails and changes nothing. Then the disk goes on.
    Fault(u64),
}

/// What befalls one call.
#[derive(Clone, Copy, Debug, PartialEq, Eq)]
pub enum Fate {
    Passes,
    /// A crash meets it, so that it may be done in part.
    Meets,
    /// It changes nothing.
    Fails,
}

impl Fuse {
    /// Takes one call.
    pub fn burn(&mut self) -> Fate
        ensures passes { result ≡ Fate.Passes → Lowers 1 (stop_of self.old) (stop_of self.new) }
        ensures falls { Falls (stop_of self.old) (stop_of self.new) }
        ensures by_one { LowersByOne (stop_of self.old) (stop_of self.new) }
        ensures above { (k : ℕ) → stop_of self.old ≡ Some (k + 1) → result ≡ Fate.Passes }
        ensures idle { self.old ≡ Fuse.Idle → result ≡ Fate.Passes }
        ensures met { self.old ≡ Fuse.Crash 0 → (result ≡ Fate.Meets) × (self.new ≡ Fuse.Crashed) }
        ensures crashed { self.old ≡ Fuse.Crashed → (result ≡ Fate.Fails)
            × (self.new ≡ Fuse.Crashed) }
        ensures failed { self.old ≡ Fuse.Fault 0 → (result ≡ Fate.Fails) × (self.new ≡ Fuse.Idle) }
    {
        let (fate, left) = match *self {
            Fuse::Idle => (Fate::Passes, Fuse::Idle),
            Fuse::Crash(0) => (Fate::Meets, Fuse::Crashed),
            Fuse::Crash(calls) => (Fate::Passes, Fuse::Crash(calls - 1)),
            Fuse::Crashed => (Fate::Fails, Fuse::Crashed),
            Fuse::Fault(0) => (Fate::Fails, Fuse::Idle),
            Fuse::Fault(calls) => (Fate::Passes, Fuse::Fault(calls - 1)),
        };
        *self = left;
        fate
    }
}

/// What befalls a call that stands in the list of those that are to fail.
pub fn fate_of_listed(fate: Fate) -> Fate
    ensures met { (result ≡ Fate.Meets) ↔ (fate ≡ Fate.Meets) }
    ensures listed { result ≡ Fate.Passes → ⊥ }
    ensures fails { fate ≡ Fate.Fails → result ≡ Fate.Fails }
{
    match fate {
        Fate::Meets => Fate::Meets,
        Fate::Passes | Fate::Fails => Fate::Fails,
    }
}
