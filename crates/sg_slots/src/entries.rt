// Numbers and table entries in bytes.
ghost use Rattle.std.specs.Prelude.{◌≡◌, ◌+◌, ◌≤◌, length};
ghost use Rattle.sg_slots.specs.Bytes.{u32_at, u64_at, placed_at};

use sg_base::{Listed, MediaId};
use sg_disk::{ENTRY_LEN, FILE_LEN, FILE_MD5, FILE_PLACE};
use sg_placing::Placed;

/// The number of the 4 bytes at a place.
pub fn u32_in(bytes: &[u8], place: u64) -> u32
    requires { place + 4 ≤ length bytes.now }
    ensures { result ≡ u32_at bytes.now place }
{
    let at = place as usize;
    let mut word = [0; 4];
    word.copy_from_slice(&bytes[at..at + 4]);
    u32::from_le_bytes(word)
}

/// The number of the 8 bytes at a place.
pub fn u64_in(bytes: &[u8], place: u64) -> u64
    requires { place + 8 ≤ length bytes.now }
    ensures { result ≡ u64_at bytes.now place }
{
    let at = place as usize;
    let mut word = [0; 8];
    word.copy_from_slice(&bytes[at..at + 8]);
    u64::from_le_bytes(word)
}

/// The table entry at a place.
pub fn placed_in(table: &[u8], place: u64) -> Placed
    requires { place + ENTRY_LEN ≤ length table.now }
    ensures { result ≡ placed_at table.now place }
{
    let mut md5 = [0; 16];
    let digest = (place + FILE_MD5) as usize;
    md5.copy_from_slice(&table[digest..digest + 16]);
    Placed {
        file: Listed {
            media: MediaId(u32_in(table, place)),
            length: u32_in(table, place + FILE_LEN),
            md5,
        },
        place: u64_in(table, place + FILE_PLACE),
    }
}
