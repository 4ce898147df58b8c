// The area of seals.

use sg_disk::DATA;
use sg_pages::MAP_LEN;
use sg_upgrade::WHOLE;

/// How many records the area of seals has, and the length of one and of all.
pub const SEALS: u64 = 512;

pub const SEAL_LEN: u64 = 4_096;

pub const SEALS_LEN: u64 = 2_097_152;

const _: () = prove!(SEALS_LEN == SEALS * SEAL_LEN);

const _: () = prove!(WHOLE == DATA + 2 * MAP_LEN + SEALS_LEN);
