// Connections in memory, and a door at which they come.
ghost use Rattle.std.specs.Prelude.{◌≡◌, ◌↔◌, [], ◌∷◌, ◌++◌, Some, false, is_err, IsErr, IfOk, OnOk, OnErr};
ghost use Rattle.sg_base.specs.Causes.{HasCause};
ghost use Rattle.sg_outside.specs.Doors.{Comes};
ghost use Rattle.sg_outside.specs.Lists.{Grows};
ghost use Rattle.sg_outside.specs.Memory.{NextFails, after_call, no_calls};
ghost use Rattle.sg_outside.specs.Streams.{Puts, Takes};

use crate::calls::Calls;
use crate::door::{Door, DoorFailed};
use crate::ends::{Ends, Sink, SinkFailed, Source, SourceFailed};
use crate::memory::{MemSink, MemSource};
use std::alloc::Global;
use std::collections::VecDeque;
use std::marker::Model;

/// A connection in memory: a source of what the client sends, and a sink for what it gets.
#[derive(Debug, Drop)]
pub struct MemConn {
    incoming: MemSource,
    outgoing: MemSink,
}

impl Model for MemConn {
    ghost use Rattle.sg_outside.specs.Memory.{ConnInMemory};

    ghost Value = { ConnInMemory };

    ghost view = { λ c. record { incoming = c.incoming; outgoing = c.outgoing } };
}

impl MemConn {
    /// A connection of these ends, which fail as they were told.
    pub fn new(incoming: MemSource, outgoing: MemSink) -> MemConn
        ensures { result ≡ record { incoming = incoming; outgoing = outgoing } }
    {
        MemConn { incoming, outgoing }
    }

    /// What the client sends, as far as it wasn't taken.
    pub fn incoming(&self) -> &MemSource
        ensures { result.now ≡ self.now.incoming }
    {
        &self.incoming
    }

    /// What the client got.
    pub fn outgoing(&self) -> &MemSink
        ensures { result.now ≡ self.now.outgoing }
    {
        &self.outgoing
    }
}

impl Ends for MemConn {
    ghost left = { λ c. Some c.incoming.left };

    ghost take_faults = { λ c. c.incoming.calls.faults };

    ghost written = { λ c. Some c.outgoing.written };

    ghost put_faults = { λ c. c.outgoing.calls.faults };
}

impl Source for MemConn {
    fn take(&mut self, into: &mut [u8]) -> Result<usize, SourceFailed>
        ensures bytes { Takes (Some self.old.incoming.left) (Some self.new.incoming.left)
            result into.new }
        ensures cause { HasCause self.old.incoming.calls.faults self.new.incoming.calls.faults
            result }

        // It fails in the calls that its source was told, and in no other, and leaves what the client got.
        ensures listed { IsErr result ↔ NextFails self.old.incoming.calls }
        ensures calls { self.new.incoming.calls ≡
            after_call self.old.incoming.calls (is_err result) }
        ensures outgoing { self.new.outgoing ≡ self.old.outgoing }
    {
        self.incoming.take(into)
    }
}

impl Sink for MemConn {
    fn put(&mut self, bytes: &[u8]) -> Result<usize, SinkFailed>
        ensures bytes { Puts (Some self.old.outgoing.written) (Some self.new.outgoing.written)
            result bytes.now }
        ensures cause { HasCause self.old.outgoing.calls.faults self.new.outgoing.calls.faults
            result }

        // It fails in the calls that its sink was told; elsewhere only memory can be wanting. It leaves what the client
        // sends.
        ensures listed { NextFails self.old.outgoing.calls → IsErr result }
        ensures calls { self.new.outgoing.calls ≡
            after_call self.old.outgoing.calls (is_err result) }
        ensures incoming { self.new.incoming ≡ self.old.incoming }
    {
        self.outgoing.put(bytes)
    }
}

/// A door in memory. The connections that it was made of come in their order. It fails in the calls that it was told,
/// and where memory for those that are handed back runs out.
#[derive(Debug, Drop)]
pub struct MemDoor {
    coming: VecDeque<MemConn>,
    back: Vec<MemConn>,
    ended: bool,
    calls: Calls,
}

impl Model for MemDoor {
    ghost use Rattle.sg_outside.specs.Memory.{DoorInMemory};

    ghost Value = { DoorInMemory };

    ghost view = { λ d. record {
      coming = d.coming.items;
      back = d.back.items;
      ended = d.ended;
      calls = d.calls;
    } };
}

impl MemDoor {
    /// A door at which these connections come, that fails only where memory runs out.
    pub fn new(alloc: Global, coming: Vec<MemConn>) -> MemDoor
        ensures told { ⟦<MemDoor as Door>⟧.coming result ≡ Some coming.items }
        ensures back { ⟦<MemDoor as Door>⟧.back result ≡ Some [] }
        ensures open { ⟦<MemDoor as Door>⟧.ended result ≡ false }
        ensures faults { ⟦<MemDoor as Door>⟧.faults result ≡ 0 }
        ensures start { result ≡
            record { coming = coming.items; back = []; ended = false; calls = no_calls } }
    {
        MemDoor {
            coming: VecDeque::from_vec(coming),
            back: Vec::new(alloc),
            ended: false,
            calls: Calls::new(alloc),
        }
    }

    /// The same door, but the calls of these numbers fail. The first call ever made has the number 1.
    pub fn with_failing(mut self, failing: Vec<u64>) -> MemDoor
        ensures { result ≡ record self { calls = record self.calls { failing = failing.items } } }
    {
        self.calls.set_failing(failing);
        self
    }

    /// The connections that were handed back, in their order.
    pub fn back(&self) -> &[MemConn]
        ensures { result.now ≡ self.now.back }
    {
        self.back.as_slice()
    }

    /// How often it has failed.
    pub fn faults(&self) -> u64
        ensures { result ≡ self.now.calls.faults }
    {
        self.calls.faults()
    }
}

impl Door for MemDoor {
    type Conn = MemConn;

    ghost coming = { λ d. Some d.coming };

    ghost back = { λ d. Some d.back };

    ghost ended = { λ d. d.ended };

    ghost faults = { λ d. d.calls.faults };

    fn next(&mut self) -> Result<Option<MemConn>, DoorFailed>
        ensures came { IfOk result (λ next.
            Comes (Some self.old.coming) (Some self.new.coming) self.old.ended self.new.ended next) }
        ensures cause { HasCause self.old.calls.faults self.new.calls.faults result }
        ensures kept { OnErr result (self.new.coming ≡ self.old.coming) }
        ensures open { OnErr result (self.new.ended ≡ self.old.ended) }
        ensures back { self.new.back ≡ self.old.back }

        // It fails in the calls that it was told, and in no other.
        ensures listed { IsErr result ↔ NextFails self.old.calls }
        ensures calls { self.new.calls ≡ after_call self.old.calls (is_err result) }
    {
        let fails = self.calls.next_fails();
        self.calls.count(fails);
        if fails {
            return Err(DoorFailed);
        }
        let next = self.coming.pop_front();
        if next.is_none() {
            self.ended = true;
        }
        Ok(next)
    }

    fn done(&mut self, conn: MemConn) -> Result<(), DoorFailed>
        ensures taken { OnOk result (self.new.back ≡ self.old.back ++ conn ∷ []) }
        ensures cause { HasCause self.old.calls.faults self.new.calls.faults result }
        ensures kept { OnErr result (self.new.back ≡ self.old.back) }
        ensures coming { self.new.coming ≡ self.old.coming }
        ensures ended { self.new.ended ≡ self.old.ended }

        // It fails in the calls that it was told; elsewhere only memory can be wanting.
        ensures listed { NextFails self.old.calls → IsErr result }
        ensures calls { self.new.calls ≡ after_call self.old.calls (is_err result) }
    {
        let fails = self.calls.next_fails() || self.back.push(conn).is_err();
        self.calls.count(fails);
        if fails { Err(DoorFailed) } else { Ok(()) }
    }
}
