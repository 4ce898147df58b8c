// What an hour is made of: the plays that come in, and the slots that come out. A `seconds` is in 1..=3600
// everywhere, and event and layout are the numbers of the rows that a play shows.

/// A play of a layout for its whole duration.
#[derive(Clone, Copy, Debug, PartialEq, Eq)]
pub struct Play {
    /// the event that asks for it
    pub event: u32,
    /// the layout that it shows
    pub layout: u32,
    /// its duration
    pub seconds: u32,
}

/// A play that is to have a share of each hour, between the other plays.
#[derive(Clone, Copy, Debug, PartialEq, Eq)]
pub struct Interrupt {
    /// the event that asks for it
    pub event: u32,
    /// the layout that it shows
    pub layout: u32,
    /// the duration of one play
    pub seconds: u32,
    /// the seconds of the hour that it asks for, in 1..=3600
    pub share: u32,
}

/// A stretch of the hour in which one play is shown.
#[derive(Clone, Copy, Debug, PartialEq, Eq)]
pub struct Slot {
    /// the event that is shown
    pub event: u32,
    /// the layout that is shown
    pub layout: u32,
    /// the second of the hour at which it begins, in 0..=3599
    pub place: u32,
    /// how long it lasts; the last slot ends with the hour
    pub seconds: u32,
}
