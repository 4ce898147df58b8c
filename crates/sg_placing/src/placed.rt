// A file with its place.
ghost use Rattle.std.specs.Prelude.{◌≡◌, ◌≤◌, nat_le};
ghost use Rattle.sg_placing.specs.Placing.{end_of, IsPlaced};

use sg_base::Listed;
use sg_base::limits::MAX_ROOM;

/// A file, and where its bytes begin, counted from the disk's start.
#[derive(Clone, Copy, Debug, PartialEq, Eq)]
pub struct Placed {
    pub file: Listed,
    pub place: u64,
}

impl Placed {
    /// The place behind its last byte, in a data area of `room` bytes.
    pub fn end(&self, room: u64) -> u64
        requires room { room ≤ MAX_ROOM }
        requires placed { IsPlaced room self.now }
        ensures { result ≡ end_of self.now }
    {
        self.place + u64::from(self.file.length)
    }

    /// Whether its last byte is below a place.
    pub fn ends_by(&self, place: u64) -> bool
        ensures { result ≡ nat_le (end_of self.now) place }
    {
        self.place <= place && u64::from(self.file.length) <= place - self.place
    }
}
