// What every object in memory counts.
ghost use Rattle.std.specs.Prelude.{◌≡◌, ◌≤◌, ◌↔◌, IsTrue};
ghost use Rattle.sg_outside.specs.Memory.{NextFails, after_call, no_calls};

use std::alloc::Global;
use std::marker::Model;

/// The count of an object's calls, and which of them fail.
#[derive(Debug, Drop)]
pub struct Calls {
    made: u64,
    failing: Vec<u64>,
    faults: u64,
}

impl Model for Calls {
    ghost use Rattle.sg_outside.specs.Memory.{CallCount};

    ghost Value = { CallCount };

    ghost view = { λ c. record { made = c.made; failing = c.failing.items; faults = c.faults } };
}

impl Calls {
    /// No call made, and none that is to fail.
    pub fn new(alloc: Global) -> Calls
        ensures { result ≡ no_calls }
    {
        Calls {
            made: 0,
            failing: Vec::new(alloc),
            faults: 0,
        }
    }

    /// Says anew which calls are to fail.
    pub fn set_failing(&mut self, failing: Vec<u64>)
        ensures { self.new ≡ record self.old { failing = failing.items } }
    {
        self.failing = failing;
    }

    /// How many calls failed.
    pub fn faults(&self) -> u64
        ensures { result ≡ self.now.faults }
    {
        self.faults
    }

    /// Whether the next call is one of those that are to fail.
    pub fn next_fails(&self) -> bool
        ensures { IsTrue result ↔ NextFails self.now }
    {
        self.failing.contains(&self.made.saturating_add(1))
    }

    /// Counts a call, and a fault where it failed.
    pub fn count(&mut self, failed: bool)
        ensures after { self.new ≡ after_call self.old failed }
        ensures later { self.old.faults ≤ self.new.faults }
    {
        self.made = self.made.saturating_add(1);
        if failed {
            self.faults = self.faults.saturating_add(1);
        }
    }
}
