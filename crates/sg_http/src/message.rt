// A message, by where its parts lie in a stream.

/// The method of a message. Every method but GET, POST and PUT is `Other`.
#[derive(Clone, Copy, Debug, PartialEq, Eq)]
pub enum Verb {
    Get,
    Post,
    Put,
    Other,
}

/// The bytes `from..to` of those that a call was given.
#[derive(Clone, Copy, Debug, PartialEq, Eq)]
pub struct Span {
    pub from: usize,
    pub to: usize,
}

/// What a stream begins with.
#[derive(Clone, Copy, Debug, PartialEq, Eq)]
pub enum Next {
    /// A whole message.
    Message {
        method: Verb,
        target: Span,
        /// The value of its field Sign-Key.
        key: Option<Span>,
        body: Span,
        /// It asks that the connection closes after its reply.
        close: bool,
        /// The bytes that it takes: head and body.
        used: usize,
    },
    /// Less than a message, and nothing yet that refuses it.
    NeedMore,
    /// No message: the status that says why. The connection closes after that reply.
    Refused(u16),
}
