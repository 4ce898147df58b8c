//! What enrolments and batches of plays are answered.

use sg_base::DisplayId;

/// The answer to a display that enrols.
#[derive(Clone, Copy, Debug, PartialEq, Eq)]
pub enum EnrolReply {
    /// The display's new epoch, which is given once.
    Epoch(u32),
    /// The display was given all its 65,535 epochs.
    EpochsSpent,
    /// There is no such display.
    Unknown(DisplayId),
}

/// The answer to a batch of plays.
#[derive(Clone, Copy, Debug, PartialEq, Eq)]
pub enum PlaysReply {
    /// The plays below this number are kept.
    Next(u32),
    /// The batch begins behind this number, which is the next one.
    Gap { next: u32 },
    /// The display was never given this epoch.
    NoEpoch,
    /// With the batch the epoch would have more plays than the limit.
    PlaysFull { limit: u32 },
}
