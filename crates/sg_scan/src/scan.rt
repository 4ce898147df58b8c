//! Bytes that are read from the front.

ghost use Rattle.std.specs.Prelude.{◌≤◌, length, IfSome};
ghost use Rattle.sg_rows.specs.Rows.{IsId};

/// The bytes of a text that are left.
#[derive(Debug, Drop)]
pub struct Scan<'b> {
    left: &'b [u8],
}

/// How many digits stand first.
fn digits(bytes: &[u8]) -> usize
    ensures { result ≤ length bytes.now }
{
    match bytes.iter().position(|b| *b < b'0' || *b > b'9') {
        Some(count) => count,
        None => bytes.len(),
    }
}

/// The number that digits write, or the last of 64 bits where it is more.
fn value(digits: &[u8]) -> u64 {
    let mut number = 0u64;
    for digit in digits {
        number = number
            .saturating_mul(10)
            .saturating_add(u64::from(digit.wrapping_sub(b'0')));
    }
    number
}

impl<'b> Scan<'b> {
    /// A text of which nothing was read yet.
    pub fn new(bytes: &'b [u8]) -> Scan<'b> {
        Scan { left: bytes }
    }

    /// Passes a piece, if it stands next.
    pub fn pass(&mut self, piece: &[u8]) -> Option<()> {
        let left = self.left;
        match left.strip_prefix(piece) {
            Some(rest) => {
                self.left = rest;
                Some(())
            }
            None => None,
        }
    }

    /// The first bytes, which are passed.
    fn take(&mut self, count: usize) -> Option<&'b [u8]>
        ensures { IfSome result (λ bytes. length bytes.now ≤ count) }
    {
        let left = self.left;
        if count > left.len() {
            return None;
        }
        self.left = &left[count..];
        Some(&left[..count])
    }

    /// A whole number of 32 bits.
    pub(crate) fn number(&mut self) -> Option<u32> {
        let count = digits(self.left);
        let text = self.take(count)?;
        let number = value(text);
        if count == 0 || number > 4_294_967_295 {
            return None;
        }
        Some(number as u32)
    }

    /// A piece and a number.
    pub fn number_after(&mut self, piece: &[u8]) -> Option<u32> {
        self.pass(piece)?;
        self.number()
    }

    /// A number of at least 1.
    pub(crate) fn id(&mut self) -> Option<u32>
        ensures { IfSome result IsId }
    {
        let id = self.number()?;
        if id > 0 { Some(id) } else { None }
    }

    /// A piece and a number of at least 1.
    pub fn id_after(&mut self, piece: &[u8]) -> Option<u32>
        ensures { IfSome result IsId }
    {
        self.pass(piece)?;
        self.id()
    }

    /// The bytes up to a double quote, which is passed too.
    pub(crate) fn text(&mut self) -> Option<&'b [u8]> {
        let count = self.left.iter().position(|b| *b == b'"')?;
        let text = self.take(count)?;
        self.pass(b"\"")?;
        Some(text)
    }
}
