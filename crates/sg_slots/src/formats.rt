// How a store begins.

/// What a new store is made for.
#[derive(Clone, Copy, Debug, PartialEq, Eq)]
pub struct Format {
    /// The display, at least 1.
    pub display: u32,
    /// The display's epoch, 1 to 65,535.
    pub epoch: u32,
    /// The length of the data area in bytes: a multiple of 65,536, up to 1,073,741,824.
    pub room: u64,
}
