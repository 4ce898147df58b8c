//! Short texts.

ghost use Rattle.std.specs.Prelude.{◌≡◌};
ghost use Rattle.std.specs.Char.{is_ascii_alphanumeric};
ghost use Rattle.std.specs.List.{list_all};
ghost use Rattle.sg_base.specs.Texts.{is_key, is_short};

use crate::limits::MAX_KEY;

/// Whether bytes are one at least, and at most so many.
pub fn is_short(bytes: &[u8], most: usize) -> bool
    ensures { result ≡ is_short most bytes.now }
{
    !bytes.is_empty() && bytes.len() <= most
}

/// Whether bytes are a key: 1 to 64 letters and digits of ASCII.
pub fn is_key(bytes: &[u8]) -> bool
    ensures { result ≡ is_key bytes.now }
{
    is_short(bytes, MAX_KEY) && are_alphanumeric(bytes)
}

fn are_alphanumeric(bytes: &[u8]) -> bool
    ensures { result ≡ list_all is_ascii_alphanumeric bytes.now }
{
    bytes.iter().all(|byte| byte.is_ascii_alphanumeric())
}
