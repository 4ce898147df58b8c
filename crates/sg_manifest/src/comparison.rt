//! A text that is compared with bytes while it is written.

ghost use Rattle.std.specs.Prelude.{◌≡◌};
ghost use Rattle.sg_manifest.specs.Agreement.{start, difference};

use crate::text::common_length;
use sg_rows::TextOut;
use std::convert::Infallible;
use std::marker::Model;

/// Bytes with which a text is compared while it is written. Contracts see it as how far both agree.
#[derive(Debug, Drop)]
pub(crate) struct Comparison<'b> {
    bytes: &'b [u8],
    place: usize,
    apart: bool,
}

impl<'b> Model for Comparison<'b> {
    ghost use Rattle.std.specs.Prelude.{◌≤◌, drop, length};
    ghost use Rattle.sg_manifest.specs.Agreement.{Agreement};

    ghost Value = { Agreement };

    ghost view = { λ c. record { left = drop c.place c.bytes.now; count = c.place; apart = c.apart } };

    ghost invariant = { λ c. c.place ≤ length c.bytes.now };
}

impl<'b> Comparison<'b> {
    /// Bytes of which nothing was compared yet.
    pub(crate) fn new(bytes: &'b [u8]) -> Comparison<'b>
        ensures { result ≡ start bytes.now }
    {
        Comparison {
            bytes,
            place: 0,
            apart: false,
        }
    }

    /// The place of the first byte that differs, or the shorter length; nothing where bytes and text are the same.
    #[tactic(auto, using(crate::proofs::AgreementLemmas::left_some, crate::proofs::AgreementLemmas::left_none))]
    pub(crate) fn difference(&self) -> Option<usize>
        ensures { result ≡ difference self.now }
    {
        if self.apart {
            return Some(self.place);
        }
        if self.place < self.bytes.len() {
            Some(self.place)
        } else {
            None
        }
    }
}

impl<'b> TextOut for Comparison<'b> {
    ghost use Rattle.sg_manifest.specs.Agreement.{against};

    type Error = Infallible;

    ghost after = { against };

    fn put(&mut self, piece: &[u8]) -> Result<(), Infallible> {
        if self.apart {
            return Ok(());
        }
        let same = common_length(&self.bytes[self.place..], piece);
        self.place += same;
        self.apart = same < piece.len();
        Ok(())
    }
}
