// Bytes one after another, in fixed room.
ghost use Rattle.std.specs.Prelude.{◌≡◌, ◌+◌, ◌≤◌, ◌++◌, [], length, decimal};

use itoa::Buffer;
use std::marker::Model;

/// The most bytes of a text.
pub const TEXT_ROOM: usize = 128;

/// A text of at most 128 bytes.
#[derive(Drop)]
pub struct Text {
    bytes: [u8; TEXT_ROOM],
    len: usize,
}

impl Model for Text {
    ghost use Rattle.std.specs.Prelude.{◌≤◌, ℕ, List, take};

    ghost Value = { List ℕ };

    ghost view = { λ t. take t.len t.bytes };

    ghost invariant = { λ t. t.len ≤ 128 };
}

impl Text {
    /// The text without a byte.
    pub fn new() -> Text
        ensures { result ≡ [] }
    {
        Text {
            bytes: [0; TEXT_ROOM],
            len: 0,
        }
    }

    /// Its bytes.
    pub fn as_bytes(&self) -> &[u8]
        ensures { result.now ≡ self.now }
    {
        &self.bytes[..self.len]
    }

    /// Adds bytes at its end, for which there is room.
    pub fn push(&mut self, part: &[u8])
        requires { length self.old + length part.now ≤ TEXT_ROOM }
        ensures text { self.new ≡ self.old ++ part.now }
        ensures room { length self.new ≡ length self.old + length part.now }
    {
        let end = self.len + part.len();
        self.bytes[self.len..end].copy_from_slice(part);
        self.len = end;
    }

    /// Adds the decimal digits of a number at its end, of which there are at most 20.
    pub fn push_number(&mut self, number: u64)
        requires { length self.old + 20 ≤ TEXT_ROOM }
        ensures text { self.new ≡ self.old ++ decimal number }
        ensures room { length self.new ≤ length self.old + 20 }
    {
        let mut digits = Buffer::new();
        self.push(digits.format(number).as_bytes());
    }
}
