// The ends over std's readers and writers: files, standard streams and sockets, and memory too.
ghost use Rattle.std.specs.Prelude.{◌≡◌, None};

use crate::ends::{Ends, Sink, SinkFailed, Source, SourceFailed};
use std::io::{Read, Write};

/// A reader as a source. A read that fails, for whatever cause, is a fault and isn't tried again.
#[derive(Debug, Drop)]
pub struct StdSource<R> {
    reader: R,
    faults: u64,
}

impl<R: Read> StdSource<R> {
    /// The source of all that the reader has left.
    pub fn new(reader: R) -> StdSource<R>
        ensures told { ⟦<StdSource<R> as Ends>⟧.left result ≡ R.remaining reader }
        ensures faults { ⟦<StdSource<R> as Ends>⟧.take_faults result ≡ 0 }
    {
        StdSource { reader, faults: 0 }
    }

    /// The reader, as the takes so far have left it.
    pub fn into_inner(self) -> R
        ensures { R.remaining result ≡ ⟦<StdSource<R> as Ends>⟧.left self }
    {
        let StdSource { reader, .. } = self;
        reader
    }

    /// How often it has failed, to the last value of a u64.
    pub fn faults(&self) -> u64
        ensures { result ≡ ⟦<StdSource<R> as Ends>⟧.take_faults self.now }
    {
        self.faults
    }
}

impl<R: Read> Ends for StdSource<R> {
    ghost left = { λ s. R.remaining s.reader };

    ghost take_faults = { λ s. s.faults };

    ghost written = { λ _. None };

    ghost put_faults = { λ _. 0 };
}

impl<R: Read> Source for StdSource<R> {
    fn take(&mut self, into: &mut [u8]) -> Result<usize, SourceFailed> {
        match self.reader.read(into) {
            Ok(count) => Ok(count),
            Err(_) => {
                self.faults = self.faults.saturating_add(1);
                Err(SourceFailed)
            }
        }
    }
}

/// A writer as a sink. A write that fails, for whatever cause, is a fault and isn't tried again; so is one that takes
/// nothing where there was a byte to take. What a writer buffers is told as written.
#[derive(Debug, Drop)]
pub struct StdSink<W> {
    writer: W,
    faults: u64,
}

impl<W: Write> StdSink<W> {
    /// The sink that appends to what the writer holds.
    pub fn new(writer: W) -> StdSink<W>
        ensures told { ⟦<StdSink<W> as Ends>⟧.written result ≡ W.contents writer }
        ensures faults { ⟦<StdSink<W> as Ends>⟧.put_faults result ≡ 0 }
    {
        StdSink { writer, faults: 0 }
    }

    /// The writer, as the puts so far have left it.
    pub fn into_inner(self) -> W
        ensures { W.contents result ≡ ⟦<StdSink<W> as Ends>⟧.written self }
    {
        let StdSink { writer, .. } = self;
        writer
    }

    /// How often it has failed, to the last value of a u64.
    pub fn faults(&self) -> u64
        ensures { result ≡ ⟦<StdSink<W> as Ends>⟧.put_faults self.now }
    {
        self.faults
    }
}

impl<W: Write> Ends for StdSink<W> {
    ghost left = { λ _. None };

    ghost take_faults = { λ _. 0 };

    ghost written = { λ s. W.contents s.writer };

    ghost put_faults = { λ s. s.faults };
}

impl<W: Write> Sink for StdSink<W> {
    fn put(&mut self, bytes: &[u8]) -> Result<usize, SinkFailed> {
        match self.writer.write(bytes) {
            Ok(count) if count > 0 || bytes.is_empty() => Ok(count),
            _ => {
                self.faults = self.faults.saturating_add(1);
                Err(SinkFailed)
            }
        }
    }
}
