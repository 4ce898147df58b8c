//! What takes a text, piece by piece: a buffer, or a count of its bytes.

ghost use Rattle.std.specs.Prelude.{◌≡◌, ◌++◌, List, ℕ, [], OnOk, min, length};
ghost use Rattle.sg_rows.specs.Written.{Takes};

use std::alloc::{AllocError, Global};
use std::convert::Infallible;
use std::marker::Model;

/// What takes a text, piece by piece. After an error it is of no use.
pub trait TextOut {
    /// Why a piece isn't taken.
    type Error: Drop;

    /// What it is once it took a text.
    ghost after: { Self → List ℕ → Self };

    /// Takes a piece.
    fn put(&mut self, piece: &[u8]) -> Result<(), Self::Error>
        ensures { OnOk result (Takes after self.old self.new (λ rest. piece.now ++ rest)) };
}

/// A text that is kept. Contracts see it as its bytes.
#[derive(Debug, Drop)]
pub struct TextBuffer {
    bytes: Vec<u8>,
}

impl Model for TextBuffer {
    ghost use Rattle.std.specs.Prelude.{List, ℕ};

    ghost Value = { List ℕ };

    ghost view = { λ b. b.bytes.items };
}

impl TextBuffer {
    /// An empty text.
    pub fn new(alloc: Global) -> TextBuffer
        ensures { result ≡ [] }
    {
        TextBuffer {
            bytes: Vec::new(alloc),
        }
    }

    /// Its bytes. It takes no memory.
    pub fn into_vec(self) -> Vec<u8>
        ensures { result.items ≡ self }
    {
        let TextBuffer { bytes } = self;
        bytes
    }
}

impl TextOut for TextBuffer {
    ghost use Rattle.std.specs.Prelude.{◌++◌};

    type Error = AllocError;

    ghost after = { λ text rest. text ++ rest };

    fn put(&mut self, piece: &[u8]) -> Result<(), AllocError> {
        self.bytes.extend_from_slice(piece)?;
        Ok(())
    }
}

/// How many bytes a text has that isn't kept. Contracts see it as the number, which stays at the last value of a u64.
#[derive(Debug, Drop)]
pub struct TextLength {
    count: u64,
}

impl Model for TextLength {
    ghost use Rattle.std.specs.Prelude.{ℕ};

    ghost Value = { ℕ };

    ghost view = { λ l. l.count };
}

impl TextLength {
    /// That of an empty text.
    pub fn new() -> TextLength
        ensures { result ≡ 0 }
    {
        TextLength { count: 0 }
    }

    /// The number of bytes.
    pub fn bytes(&self) -> u64
        ensures { result ≡ self.now }
    {
        self.count
    }
}

impl TextOut for TextLength {
    ghost use Rattle.std.specs.Prelude.{◌+◌, ◌-◌, ◌^◌, min, length};

    type Error = Infallible;

    ghost after = { λ count rest. min (count + length rest) (2 ^ 64 - 1) };

    fn put(&mut self, piece: &[u8]) -> Result<(), Infallible> {
        self.count = self.count.saturating_add(piece.len() as u64);
        Ok(())
    }
}
