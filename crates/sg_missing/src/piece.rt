// Pieces of one file.
ghost use Rattle.std.specs.Prelude.{◌≡◌, ◌+◌, ◌<◌, ◌≤◌, ◌*◌, length};
ghost use Rattle.sg_base.specs.declared.limits.TheConstants.{PIECE_LEN};
ghost use Rattle.sg_missing.specs.Pieces.{missing_from, piece_end};

use sg_base::limits::PIECE_LEN;

// How many bytes are wanted of the piece that begins at a place of a file.
pub(crate) fn piece_count(at: u32, size: u32) -> u32
    requires { at < size }
    ensures end { at + result ≡ piece_end at size }
    ensures some { 1 ≤ result }
    ensures few { result ≤ PIECE_LEN }
{
    (PIECE_LEN - at % PIECE_LEN).min(size - at)
}

// How many pieces of a file are missing, of which so many bytes are here.
pub(crate) fn count_pieces(here: u32, size: u32) -> u32
    requires { here < size }
    ensures count { result ≡ length (missing_from here size) }
    ensures few { PIECE_LEN * result < size + PIECE_LEN }
{
    size.div_ceil(PIECE_LEN) - here / PIECE_LEN
}
