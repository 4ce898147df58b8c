//! The rows of plays, and the keys of plays and of a medium's pieces.

ghost use Rattle.std.specs.Prelude.{◌≡◌, ◌<◌, ◌≤◌, IfOk};
ghost use Rattle.sg_base.specs.Keys.{number_of};
ghost use Rattle.sg_records.specs.Numbers.{piece_number, play_bytes, play_number};

use sg_base::{Key, MediaId, PlayBody, Rows};
use std::alloc::{AllocError, Global};

/// The key of a play, which is counted from 1 in its epoch.
pub fn play_key(display: u32, epoch: u32, number: u64) -> Key
    ensures { number_of result ≡ play_number display epoch number }
{
    Key {
        kind: 10,
        a: (u64::from(display) << 32) + u64::from(epoch),
        b: number,
    }
}

/// The bytes of a play's row.
pub fn write_play(alloc: Global, play: PlayBody) -> Result<Rows<u8>, AllocError>
    ensures { IfOk result (λ bytes. bytes ≡ play_bytes play) }
{
    let mut bytes = Vec::new(alloc);
    bytes.extend_from_slice(&play.event.to_le_bytes())?;
    bytes.extend_from_slice(&play.layout.to_le_bytes())?;
    bytes.extend_from_slice(&play.from.seconds().to_le_bytes())?;
    bytes.extend_from_slice(&play.to.seconds().to_le_bytes())?;
    Ok(Rows::from_vec(bytes))
}

/// The key of a medium's piece, counted from 0.
pub fn piece_key(media: MediaId, index: u32) -> Key
    ensures { number_of result ≡ piece_number media.0 index }
{
    Key {
        kind: 11,
        a: u64::from(media.0),
        b: u64::from(index),
    }
}
