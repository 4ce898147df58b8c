//! Places as values.

ghost use Rattle.std.specs.Prelude.{◌≡◌};
ghost use Rattle.sg_values.specs.Values.{is_place};

use sg_base::is_short;
use sg_base::limits::MAX_PLACE;

/// Whether a word may be the path of a file or a folder, or an address: 1 to 255 bytes.
pub fn is_place(word: &str) -> bool
    ensures { result ≡ is_place word.now }
{
    is_short(word.as_bytes(), MAX_PLACE)
}
