//! The next message of a connection, however its bytes come.

ghost use Rattle.std.specs.Prelude.{◌≤◌, ◌<◌, length};
ghost use Rattle.sg_base.specs.declared.limits.TheConstants.{MAX_TAKEN};
ghost use Rattle.sg_connection.specs.Taking.{Comes, IsAwaited, Receives, Says};
ghost use Rattle.sg_outside.specs.Streams.{IsApart};

use crate::inbox::{Inbox, Taken};
use sg_http::{Look, Next, Progress, START, look_at};
use sg_outside::Source;

/// What is known of a stream that has no message yet: how far its head was searched, and below which length it has none.
#[derive(Clone, Copy)]
pub(crate) struct Wait {
    pub progress: Progress,
    pub want: usize,
}

/// What a stream says to one who waits.
#[derive(Clone, Copy)]
pub(crate) enum Ask {
    /// A message or a refusal.
    Found(Next),
    /// Neither yet.
    Later(Wait),
}

/// What was received.
#[derive(Clone, Copy)]
pub(crate) enum Received {
    /// A message or a refusal.
    Whole(Next),
    /// The source ended before one.
    Ended,
    Failed,
    /// As many bytes were taken as one connection may have.
    Spent,
    NoMemory,
}

/// Takes bytes until they have a message or a refusal, or no more come.
pub(crate) fn receive<S: Source>(source: &mut S, inbox: &mut Inbox, piece: &mut [u8]) -> Received
    requires limit { inbox.old.total ≤ MAX_TAKEN }
    requires room { 0 < length piece.old }
    ensures comes { Comes (S.left source.old) (S.left source.new) inbox.old inbox.new }
    ensures receives { Receives result (S.left source.new)
        (S.take_faults source.old) (S.take_faults source.new) inbox.new }
    ensures limit { inbox.new.total ≤ MAX_TAKEN }
    ensures apart { IsApart (S.written source.old) (S.written source.new)
        (S.put_faults source.old) (S.put_faults source.new) }
{
    let mut wait = Wait {
        progress: START,
        want: 0,
    };
    loop {
        match inspect(inbox.stream(), wait) {
            Ask::Found(next) => return Received::Whole(next),
            Ask::Later(later) => wait = later,
        }
        match inbox.take(source, piece) {
            Taken::More => {}
            Taken::End => return Received::Ended,
            Taken::Failed => return Received::Failed,
            Taken::Spent => return Received::Spent,
            Taken::NoMemory => return Received::NoMemory,
        }
    }
}

// Looks at a stream, if it is long enough.
fn inspect(stream: &[u8], wait: Wait) -> Ask
    requires { IsAwaited stream.now wait }
    ensures { Says stream.now result }
{
    if stream.len() < wait.want {
        return Ask::Later(wait);
    }
    match look_at(stream, wait.progress) {
        Look::Found(next) => Ask::Found(next),
        Look::InHead(progress) => Ask::Later(Wait { progress, want: 0 }),
        Look::InBody(want) => Ask::Later(Wait {
            progress: wait.progress,
            want,
        }),
    }
}
