// The ends in memory, for runs that are told what comes and what fails.
ghost use Rattle.std.specs.Prelude.{◌≡◌, ◌<◌, ◌≤◌, ◌↔◌, [], Some, None, min, length, is_err, IsErr, IsTrue, IfOk};
ghost use Rattle.sg_base.specs.Causes.{HasCause};
ghost use Rattle.sg_outside.specs.Memory.{NextFails, after_call, no_calls};
ghost use Rattle.sg_outside.specs.Streams.{Puts, Takes};

use crate::calls::Calls;
use crate::ends::{Ends, Sink, SinkFailed, Source, SourceFailed};
use std::alloc::Global;
use std::marker::Model;

/// A source in memory. It gives the bytes that it was made of, as many in one call as its limit says, and fails in
/// the calls that it was told.
#[derive(Debug, Drop)]
pub struct MemSource {
    bytes: Vec<u8>,
    place: usize,
    limit: usize,
    calls: Calls,
}

impl Model for MemSource {
    ghost use Rattle.std.specs.Prelude.{◌≤◌, ◌<◌, drop, length};
    ghost use Rattle.sg_outside.specs.Memory.{SourceInMemory};

    ghost Value = { SourceInMemory };

    ghost view = { λ s. record { left = drop s.place s.bytes.items; limit = s.limit; calls = s.calls } };

    ghost invariant = { λ s. (s.place ≤ length s.bytes.items) × (0 < s.limit) };
}

impl MemSource {
    /// A source of these bytes, with no limit, that never fails.
    pub fn new(alloc: Global, bytes: Vec<u8>) -> MemSource
        ensures told { ⟦<MemSource as Ends>⟧.left result ≡ Some bytes.items }
        ensures faults { ⟦<MemSource as Ends>⟧.take_faults result ≡ 0 }
        ensures start { result ≡ record { left = bytes.items; limit = usize.MAX; calls = no_calls } }
    {
        MemSource {
            bytes,
            place: 0,
            limit: usize::MAX,
            calls: Calls::new(alloc),
        }
    }

    /// The same source, but one call gives `limit` bytes at most.
    pub fn with_limit(mut self, limit: usize) -> MemSource
        requires { 0 < limit }
        ensures { result ≡ record self { limit = limit } }
    {
        self.limit = limit;
        self
    }

    /// The same source, but the calls of these numbers fail. The first call ever made has the number 1.
    pub fn with_failing(mut self, failing: Vec<u64>) -> MemSource
        ensures { result ≡ record self { calls = record self.calls { failing = failing.items } } }
    {
        self.calls.set_failing(failing);
        self
    }

    /// How often it has failed.
    pub fn faults(&self) -> u64
        ensures { result ≡ self.now.calls.faults }
    {
        self.calls.faults()
    }
}

impl Ends for MemSource {
    ghost left = { λ s. Some s.left };

    ghost take_faults = { λ s. s.calls.faults };

    ghost written = { λ _. None };

    ghost put_faults = { λ _. 0 };
}

impl Source for MemSource {
    fn take(&mut self, into: &mut [u8]) -> Result<usize, SourceFailed>
        ensures bytes { Takes (Some self.old.left) (Some self.new.left) result into.new }
        ensures cause { HasCause self.old.calls.faults self.new.calls.faults result }

        // It fails in the calls that it was told, and in no other.
        ensures listed { IsErr result ↔ NextFails self.old.calls }
        ensures calls { self.new.calls ≡ after_call self.old.calls (is_err result) }
        ensures count { IfOk result (λ n. n ≡ min (min (length self.old.left) (length into.new)) self.old.limit) }
        ensures limit { self.new.limit ≡ self.old.limit }
    {
        let fails = self.calls.next_fails();
        self.calls.count(fails);
        if fails {
            return Err(SourceFailed);
        }
        let left = &self.bytes[self.place..];
        let count = left.len().min(into.len()).min(self.limit);
        into[..count].copy_from_slice(&left[..count]);
        self.place += count;
        Ok(count)
    }
}

/// A sink in memory. It keeps the bytes that it is given, as many of one call as its limit says, and fails in the
/// calls that it was told, and where memory for the bytes runs out.
#[derive(Debug, Drop)]
pub struct MemSink {
    bytes: Vec<u8>,
    limit: usize,
    calls: Calls,
}

impl Model for MemSink {
    ghost use Rattle.std.specs.Prelude.{◌<◌};
    ghost use Rattle.sg_outside.specs.Memory.{SinkInMemory};

    ghost Value = { SinkInMemory };

    ghost view = { λ s. record { written = s.bytes.items; limit = s.limit; calls = s.calls } };

    ghost invariant = { λ s. 0 < s.limit };
}

impl MemSink {
    /// A sink with no byte yet and with no limit, that fails only where memory runs out.
    pub fn new(alloc: Global) -> MemSink
        ensures told { ⟦<MemSink as Ends>⟧.written result ≡ Some [] }
        ensures faults { ⟦<MemSink as Ends>⟧.put_faults result ≡ 0 }
        ensures start { result ≡ record { written = []; limit = usize.MAX; calls = no_calls } }
    {
        MemSink {
            bytes: Vec::new(alloc),
            limit: usize::MAX,
            calls: Calls::new(alloc),
        }
    }

    /// The same sink, but one call takes `limit` bytes at most.
    pub fn with_limit(mut self, limit: usize) -> MemSink
        requires { 0 < limit }
        ensures { result ≡ record self { limit = limit } }
    {
        self.limit = limit;
        self
    }

    /// The same sink, but the calls of these numbers fail. The first call ever made has the number 1.
    pub fn with_failing(mut self, failing: Vec<u64>) -> MemSink
        ensures { result ≡ record self { calls = record self.calls { failing = failing.items } } }
    {
        self.calls.set_failing(failing);
        self
    }

    /// The bytes that it has got.
    pub fn bytes(&self) -> &[u8]
        ensures { result.now ≡ self.now.written }
    {
        self.bytes.as_slice()
    }

    /// How often it has failed.
    pub fn faults(&self) -> u64
        ensures { result ≡ self.now.calls.faults }
    {
        self.calls.faults()
    }
}

impl Ends for MemSink {
    ghost left = { λ _. None };

    ghost take_faults = { λ _. 0 };

    ghost written = { λ s. Some s.written };

    ghost put_faults = { λ s. s.calls.faults };
}

impl Sink for MemSink {
    fn put(&mut self, bytes: &[u8]) -> Result<usize, SinkFailed>
        ensures bytes { Puts (Some self.old.written) (Some self.new.written) result bytes.now }
        ensures cause { HasCause self.old.calls.faults self.new.calls.faults result }

        // It fails in the calls that it was told; elsewhere only memory can be wanting.
        ensures listed { NextFails self.old.calls → IsErr result }
        ensures calls { self.new.calls ≡ after_call self.old.calls (is_err result) }
        ensures count { IfOk result (λ n. n ≡ min (length bytes.now) self.old.limit) }
        ensures limit { self.new.limit ≡ self.old.limit }
    {
        let count = bytes.len().min(self.limit);
        let fails = self.calls.next_fails()
            || self.bytes.extend_from_slice(&bytes[..count]).is_err();
        self.calls.count(fails);
        if fails { Err(SinkFailed) } else { Ok(count) }
    }
}
