// How a batch of plays and an enrolment end.
ghost use Rattle.std.specs.Prelude.{◌≡◌, false};
ghost use Rattle.sg_exchange.specs.Ends.{batch_end, enrol_end, is_batch_link_fault, is_enrol_link_fault};

/// Why a batch stays with the player.
#[derive(Clone, Copy, Debug, PartialEq, Eq)]
pub enum BatchCause {
    /// The link failed, and has counted it.
    LinkFault,
    /// The reply was cut: the bytes of its body that came, and those that were to come, 0 where its head was cut.
    Cut { got: u64, length: u64 },
    /// Another status than 200.
    Status(u16),
    /// What came is no reply that has one length.
    NotHttp,
    /// A good reply that names no play from the first of the batch to the next to be recorded.
    BadNext,
}

/// How a batch ended.
#[derive(Clone, Copy, Debug, PartialEq, Eq)]
pub enum BatchEnd {
    /// The server has the plays below this number.
    Sent(u32),
    Stay(BatchCause),
}

/// Why a display was given no epoch.
#[derive(Clone, Copy, Debug, PartialEq, Eq)]
pub enum EnrolCause {
    /// The link failed, and has counted it.
    LinkFault,
    /// The reply was cut: the bytes of its body that came, and those that were to come, 0 where its head was cut.
    Cut { got: u64, length: u64 },
    /// Another status than 200.
    Status(u16),
    /// What came is no reply that has one length.
    NotHttp,
    /// A good reply that gives no epoch.
    BadReply,
}

/// How an enrolment ended.
#[derive(Clone, Copy, Debug, PartialEq, Eq)]
pub enum EnrolEnd {
    /// The epoch that the server gave.
    Enrolled(u32),
    Refused(EnrolCause),
}

impl BatchEnd {
    // The end of a batch whose good reply names this number, or none.
    pub(crate) fn named(number: Option<u32>) -> BatchEnd
        ensures end { result ≡ batch_end number }
        ensures came { is_batch_link_fault result ≡ false }
    {
        match number {
            Some(next) => BatchEnd::Sent(next),
            None => BatchEnd::Stay(BatchCause::BadNext),
        }
    }
}

impl EnrolEnd {
    // The end of an enrolment whose good reply names this epoch, or none.
    pub(crate) fn named(number: Option<u32>) -> EnrolEnd
        ensures end { result ≡ enrol_end number }
        ensures came { is_enrol_link_fault result ≡ false }
    {
        match number {
            Some(epoch) => EnrolEnd::Enrolled(epoch),
            None => EnrolEnd::Refused(EnrolCause::BadReply),
        }
    }
}
