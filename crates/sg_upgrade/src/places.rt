// Where a disk of the new format has what the old one lacks. Places are counted in bytes from the disk's start.

/// The place of the mark `SGNSTOR2`, of 8 bytes.
pub const SECOND_MARK: u64 = 32;

/// The length of a disk whose data area had none: what stands before it, both maps and the seals.
pub const WHOLE: u64 = 8_499_200;
