//! What a piece of a medium is answered.

use sg_base::MediaId;

/// The answer to a piece of a medium.
#[derive(Clone, Copy, Debug, PartialEq, Eq)]
pub enum PieceReply {
    /// So many bytes have come.
    Held(u32),
    /// All bytes have come, and they are those that were declared.
    Complete(MediaId),
    /// There is no such medium.
    Unknown(MediaId),
    /// The piece isn't the next one, which begins at this offset. Of a complete medium that is its length.
    PieceOrder { expected: u32 },
    /// The next piece has so many bytes.
    PieceLength { expected: u32 },
    /// With the last piece the bytes had this digest and not the declared one, and all were dropped.
    DigestDiffers { found: [u8; 16] },
}
