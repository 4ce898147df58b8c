//! Files that a manifest lists.

use crate::ids::MediaId;

/// A medium as a manifest lists it: its length in bytes and the MD5 (RFC 1321) of its bytes.
#[derive(Clone, Copy, Debug, PartialEq, Eq)]
pub struct Listed {
    pub media: MediaId,
    pub length: u32,
    pub md5: [u8; 16],
}
