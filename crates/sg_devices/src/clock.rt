// Clocks: in memory, and that of the machine.
ghost use Rattle.std.specs.Prelude.{◌≡◌, ◌⊎◌, ◌↔◌, ℕ, List, [], ◌∷◌, Some, None, is_err, IsErr, IfOk, OnErr};
ghost use Rattle.std.specs.declared.option.Option.{Option};
ghost use Rattle.sg_base.specs.Causes.{HasCause};
ghost use Rattle.sg_outside.specs.Lists.{Loses};
ghost use Rattle.sg_outside.specs.Memory.{NextFails, after_call, no_calls};

use sg_base::Moment;
use sg_outside::Calls;
use std::alloc::Global;
use std::collections::VecDeque;
use std::marker::Model;
use std::time;
use std::time::SystemTime;
use thiserror::Error;

/// A clock failed, and has counted it.
#[derive(Clone, Copy, Debug, PartialEq, Eq, Error)]
#[error("the clock failed")]
pub struct ClockFailed;

/// Gives the moment that it is.
pub trait Clock {
    // The moments to come, where the clock tells them.
    ghost coming: { Self → Option (List ℕ) };

    // How often a call has failed; the count stays at the last value of a u64.
    ghost faults: { Self → ℕ };

    /// The moment. One that can't be read, or isn't from 1970 to 2099, is a counted fault.
    fn now(&mut self) -> Result<Moment, ClockFailed>
        ensures came { IfOk result (λ moment.
            Loses (coming self.old) (coming self.new) (moment ∷ [])) }
        ensures kept { OnErr result (coming self.new ≡ coming self.old) }
        ensures cause { HasCause (faults self.old) (faults self.new) result };
}

/// A clock in memory. It gives the moments that it was made of, in their order, and fails in the calls that it was told,
/// and after the last of them.
#[derive(Debug, Drop)]
pub struct MemClock {
    coming: VecDeque<Moment>,
    calls: Calls,
}

impl Model for MemClock {
    ghost use Rattle.sg_devices.specs.Memory.{ClockInMemory};

    ghost Value = { ClockInMemory };

    ghost view = { λ c. record { coming = c.coming.items; calls = c.calls } };
}

impl MemClock {
    /// A clock of these moments, which may go back.
    pub fn new(alloc: Global, coming: Vec<Moment>) -> MemClock
        ensures told { ⟦<MemClock as Clock>⟧.coming result ≡ Some coming.items }
        ensures faults { ⟦<MemClock as Clock>⟧.faults result ≡ 0 }
        ensures start { result ≡ record { coming = coming.items; calls = no_calls } }
    {
        MemClock {
            coming: VecDeque::from_vec(coming),
            calls: Calls::new(alloc),
        }
    }

    /// The same clock, but the calls of these numbers fail. The first call ever made has the number 1.
    pub fn with_failing(mut self, failing: Vec<u64>) -> MemClock
        ensures { result ≡ record self { calls = record self.calls { failing = failing.items } } }
    {
        self.calls.set_failing(failing);
        self
    }

    /// How often it has failed.
    pub fn faults(&self) -> u64
        ensures { result ≡ self.now.calls.faults }
    {
        self.calls.faults()
    }
}

impl Clock for MemClock {
    ghost coming = { λ c. Some c.coming };

    ghost faults = { λ c. c.calls.faults };

    fn now(&mut self) -> Result<Moment, ClockFailed>
        ensures came { IfOk result (λ moment. self.old.coming ≡ moment ∷ self.new.coming) }
        ensures kept { OnErr result (self.new.coming ≡ self.old.coming) }
        ensures cause { HasCause self.old.calls.faults self.new.calls.faults result }

        // It fails in the calls that it was told and where no moment is left, and in no other.
        ensures listed { IsErr result ↔ NextFails self.old.calls ⊎ self.old.coming ≡ [] }
        ensures calls { self.new.calls ≡ after_call self.old.calls (is_err result) }
    {
        let fails = self.calls.next_fails() || self.coming.is_empty();
        self.calls.count(fails);
        if fails {
            return Err(ClockFailed);
        }
        self.coming.pop_front().ok_or(ClockFailed)
    }
}

/// The clock of the machine. It is the trusted edge: no contract can say what time it is.
#[derive(Drop)]
pub struct SystemClock<R: time::Clock> {
    rt: R,
    faults: u64,
}

impl<R: time::Clock> SystemClock<R> {
    /// The clock of this runtime.
    pub fn new(rt: R) -> Self
        ensures faults { ⟦<SystemClock<R> as Clock>⟧.faults result ≡ 0 }
    {
        SystemClock { rt, faults: 0 }
    }

    /// How often it has failed.
    pub fn faults(&self) -> u64
        ensures { result ≡ ⟦<SystemClock<R> as Clock>⟧.faults self.now }
    {
        self.faults
    }

    // The moment of the machine's clock, where that can be read and is one.
    fn read(&self) -> Option<Moment> {
        let now = SystemTime::now(&self.rt).ok()?;
        let since = now.duration_since(SystemTime::UNIX_EPOCH).ok()?;
        Moment::new(u32::try_from(since.as_secs()).ok()?)
    }
}

impl<R: time::Clock> Clock for SystemClock<R> {
    ghost coming = { λ _. None };

    ghost faults = { λ c. c.faults };

    fn now(&mut self) -> Result<Moment, ClockFailed> {
        match self.read() {
            Some(moment) => Ok(moment),
            None => {
                self.faults = self.faults.saturating_add(1);
                Err(ClockFailed)
            }
        }
    }
}
