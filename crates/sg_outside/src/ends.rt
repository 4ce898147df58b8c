// The two ends that bytes pass: a source gives them, and a sink takes them.
ghost use Rattle.std.specs.Prelude.{◌≡◌, ℕ, List, OnOk, OnErr};
ghost use Rattle.std.specs.declared.option.Option.{Option};
ghost use Rattle.std.specs.Io.KnownBytes.{Appends};
ghost use Rattle.sg_base.specs.Causes.{HasCause};
ghost use Rattle.sg_outside.specs.Streams.{AppendsPart, IsApart, Puts, Takes};

use thiserror::Error;

/// A source failed, and has counted it.
#[derive(Clone, Copy, Debug, PartialEq, Eq, Error)]
#[error("the source failed")]
pub struct SourceFailed;

/// A sink failed, and has counted it.
#[derive(Clone, Copy, Debug, PartialEq, Eq, Error)]
#[error("the sink failed")]
pub struct SinkFailed;

/// An object that gives bytes, or takes bytes, or does both, as a connection does. Contracts see it by these members.
pub trait Ends {
    // The bytes that it has still to give, where it tells them.
    ghost left: { Self → Option (List ℕ) };

    // How often a take has failed; the count stays at the last value of a u64.
    ghost take_faults: { Self → ℕ };

    // The bytes that it has got, where it tells them.
    ghost written: { Self → Option (List ℕ) };

    // How often a put has failed; the count stays at the last value of a u64.
    ghost put_faults: { Self → ℕ };
}

/// Gives bytes, until its end.
pub trait Source: Ends {
    /// Puts the next bytes at the front of the buffer and says how many they are: 0 for a buffer that has room is
    /// the end. A take that fails takes nothing, and has been counted as a fault.
    fn take(&mut self, into: &mut [u8]) -> Result<usize, SourceFailed>
        ensures bytes { Takes (Self.left self.old) (Self.left self.new) result into.new }
        ensures cause { HasCause (Self.take_faults self.old) (Self.take_faults self.new) result }

        // If the object is a sink too, that end is as it was.
        ensures apart { IsApart (Self.written self.old) (Self.written self.new)
            (Self.put_faults self.old) (Self.put_faults self.new) };
}

/// Receives bytes, one piece after another.
pub trait Sink: Ends {
    /// Appends the front of the bytes and says how many it took: one at least, where there is one. A put that fails
    /// appends nothing, and has been counted as a fault.
    fn put(&mut self, bytes: &[u8]) -> Result<usize, SinkFailed>
        ensures bytes { Puts (Self.written self.old) (Self.written self.new) result bytes.now }
        ensures cause { HasCause (Self.put_faults self.old) (Self.put_faults self.new) result }

        // If the object is a source too, that end is as it was.
        ensures apart { IsApart (Self.left self.old) (Self.left self.new)
            (Self.take_faults self.old) (Self.take_faults self.new) };
}

/// Puts all the bytes, in as many calls as the sink wants.
///
/// Where the sink fails it has got the front of the bytes, or none, and nothing else.
pub fn put_all<O: Sink>(out: &mut O, bytes: &[u8]) -> Result<(), SinkFailed>
    ensures ok { OnOk result (Appends (O.written out.old) (O.written out.new) bytes.now) }
    ensures err { OnErr result (AppendsPart (O.written out.old) (O.written out.new) bytes.now) }
    ensures cause { HasCause (O.put_faults out.old) (O.put_faults out.new) result }
    ensures apart { IsApart (O.left out.old) (O.left out.new)
        (O.take_faults out.old) (O.take_faults out.new) }
{
    let mut done = 0;
    // Each put that succeeds takes one byte at least.
    while done < bytes.len() {
        match out.put(&bytes[done..]) {
            Ok(count) => done += count,
            Err(failed) => return Err(failed),
        }
    }
    Ok(())
}
