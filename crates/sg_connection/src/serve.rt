//! A connection from its beginning to its end.

ghost use Rattle.std.specs.Io.KnownBytes.{Appends};
ghost use Rattle.std.specs.Prelude.{◌≡◌, ◌≢◌, ◌≤◌, ◌<◌, ℕ, List, OnErr, OnOk, length, true};
ghost use Rattle.sg_base.specs.Causes.{HasCause};
ghost use Rattle.sg_base.specs.declared.limits.TheConstants.{MAX_TAKEN};
ghost use Rattle.sg_connection.specs.Exchanges.{in_pairs, refusal_text};
ghost use Rattle.sg_connection.specs.Serving.{Serves, scene_at};
ghost use Rattle.sg_connection.specs.Turns.{Responds, Turns, turn_after};
ghost use Rattle.sg_http.specs.Messages.{Bad, IsNextWithin, Opens, Request, Whole, seen};
ghost use Rattle.sg_outside.specs.Streams.{AppendsPart, IsApart};
ghost use Rattle.sg_http.specs.declared.message.Next.TheVariants.{NeedMore};

use crate::answer::Answerer;
use crate::inbox::Inbox;
use crate::receive::{Received, receive};
use crate::send::send;
use sg_http::{Form, Next};
use sg_outside::{Sink, SinkFailed, Source};
use std::alloc::Global;

// The bytes that one take asks for.
const PIECE: usize = 65_536;

const REFUSAL: &[u8] = b"{\"refused\":\"Head\"}";

/// How a connection ended.
#[derive(Clone, Copy, Debug, PartialEq, Eq)]
pub enum ConnEnd {
    /// The client ended it after a message or before any, or its last message asked for that.
    Closed,
    /// The client ended it inside a message, of which so many bytes had come.
    Rest(usize),
    /// What came was no message, and was refused with this status.
    Refused(u16),
    ReadFault,
    WriteFault,
    /// As many bytes were taken as one connection may have, and they end inside a message.
    Spent,
    Memory,
}

// What came of one message, or of what was none.
#[derive(Clone, Copy)]
pub(crate) enum Turn {
    GoesOn,
    Over(ConnEnd),
}

/// Serves a connection to its end.
pub fn serve_connection<C: Source + Sink, K, A: Answerer<K>>(
    alloc: Global,
    conn: &mut C,
    server: &mut A,
    keeper: &mut K,
) -> ConnEnd
    ensures { Serves (in_pairs A.answers)
        (scene_at (C.left conn.old) (C.take_faults conn.old) (C.written conn.old) (C.put_faults conn.old)
        (server.old, keeper.old))
        (scene_at (C.left conn.new) (C.take_faults conn.new) (C.written conn.new) (C.put_faults conn.new)
        (server.new, keeper.new))
        result }
{
    match vec![in alloc; 0u8; PIECE] {
        Ok(mut piece) => serve_by(alloc, conn, server, keeper, piece.as_mut_slice()),
        Err(_) => ConnEnd::Memory,
    }
}

fn serve_by<C: Source + Sink, K, A: Answerer<K>>(
    alloc: Global,
    conn: &mut C,
    server: &mut A,
    keeper: &mut K,
    piece: &mut [u8],
) -> ConnEnd
    requires { 0 < length piece.old }
    ensures { Serves (in_pairs A.answers)
        (scene_at (C.left conn.old) (C.take_faults conn.old) (C.written conn.old) (C.put_faults conn.old)
        (server.old, keeper.old))
        (scene_at (C.left conn.new) (C.take_faults conn.new) (C.written conn.new) (C.put_faults conn.new)
        (server.new, keeper.new))
        result }
{
    let mut inbox = Inbox::new(alloc);
    loop {
        match take_turn(alloc, conn, server, keeper, &mut inbox, piece) {
            Turn::GoesOn => {}
            Turn::Over(end) => return end,
        }
    }
}

// One message: it is received and answered.
fn take_turn<C: Source + Sink, K, A: Answerer<K>>(
    alloc: Global,
    conn: &mut C,
    server: &mut A,
    keeper: &mut K,
    inbox: &mut Inbox,
    piece: &mut [u8],
) -> Turn
    requires limit { inbox.old.total ≤ MAX_TAKEN }
    requires room { 0 < length piece.old }
    ensures turns { Turns (in_pairs A.answers)
        (scene_at (C.left conn.old) (C.take_faults conn.old) (C.written conn.old) (C.put_faults conn.old)
        (server.old, keeper.old))
        (scene_at (C.left conn.new) (C.take_faults conn.new) (C.written conn.new) (C.put_faults conn.new)
        (server.new, keeper.new))
        inbox.old inbox.new result }
    ensures limit { inbox.new.total ≤ MAX_TAKEN }
{
    match receive(conn, inbox, piece) {
        Received::Whole(next) => react(alloc, conn, server, keeper, inbox, &next),
        Received::Ended => Turn::Over(end_of(inbox.stream().len())),
        Received::Failed => Turn::Over(ConnEnd::ReadFault),
        Received::Spent => Turn::Over(ConnEnd::Spent),
        Received::NoMemory => Turn::Over(ConnEnd::Memory),
    }
}

// How a connection ended that has so many bytes of a message.
fn end_of(count: usize) -> ConnEnd
    ensures none { count ≡ 0 → result ≡ ConnEnd.Closed }
    ensures some { 0 < count → result ≡ ConnEnd.Rest count }
{
    if count == 0 {
        ConnEnd::Closed
    } else {
        ConnEnd::Rest(count)
    }
}

// The message or the refusal with which the stream begins.
fn react<C: Source + Sink, K, A: Answerer<K>>(
    alloc: Global,
    conn: &mut C,
    server: &mut A,
    keeper: &mut K,
    inbox: &mut Inbox,
    next: &Next,
) -> Turn
    requires opens { Opens inbox.old.stream (seen inbox.old.stream next.now) }
    requires within { IsNextWithin (length inbox.old.stream) next.now }
    requires more { next.now ≢ NeedMore }
    ensures turns { Turns (in_pairs A.answers)
        (scene_at (C.left conn.old) (C.take_faults conn.old) (C.written conn.old) (C.put_faults conn.old)
        (server.old, keeper.old))
        (scene_at (C.left conn.new) (C.take_faults conn.new) (C.written conn.new) (C.put_faults conn.new)
        (server.new, keeper.new))
        inbox.old inbox.new result }
    ensures limit { inbox.new.total ≡ inbox.old.total }
{
    match next {
        Next::Message { close, used, .. } => {
            let sent = respond(alloc, conn, server, keeper, inbox, next, *close);
            inbox.pass(*used);
            turn_after(&sent, *close)
        }
        Next::Refused(status) => match refuse(conn, *status) {
            Ok(()) => Turn::Over(ConnEnd::Refused(*status)),
            Err(_) => Turn::Over(ConnEnd::WriteFault),
        },
        Next::NeedMore => unreachable!(),
    }
}

// What comes of a message, by what became of its answer.
fn turn_after(sent: &Result<(), SinkFailed>, close: bool) -> Turn
    ensures { result ≡ turn_after sent.now close }
{
    match sent {
        Err(_) => Turn::Over(ConnEnd::WriteFault),
        Ok(()) => if close {
            Turn::Over(ConnEnd::Closed)
        } else {
            Turn::GoesOn
        },
    }
}

// Answers a message and sends the answer.
fn respond<C: Source + Sink, K, A: Answerer<K>>(
    alloc: Global,
    conn: &mut C,
    server: &mut A,
    keeper: &mut K,
    inbox: &Inbox,
    message: &Next,
    close: bool,
) -> Result<(), SinkFailed>
    ensures { (m : Request) (used : ℕ) → seen inbox.now.stream message.now ≡ Whole m used
        → Responds (in_pairs A.answers)
        (scene_at (C.left conn.old) (C.take_faults conn.old) (C.written conn.old) (C.put_faults conn.old)
        (server.old, keeper.old))
        (scene_at (C.left conn.new) (C.take_faults conn.new) (C.written conn.new) (C.put_faults conn.new)
        (server.new, keeper.new))
        m close result }
{
    let answer = server.answer(alloc, keeper, inbox.stream(), message);
    send(
        conn,
        answer.status,
        answer.form,
        answer.allow,
        answer.body.as_bytes(),
        close,
    )
}

// Sends the refusal of what is no message.
fn refuse<C: Source + Sink>(conn: &mut C, status: u16) -> Result<(), SinkFailed>
    requires { (stream : List ℕ) × Opens stream (Bad status) }
    ensures ok { OnOk result (Appends (C.written conn.old) (C.written conn.new) (refusal_text status true)) }
    ensures err { OnErr result (AppendsPart (C.written conn.old) (C.written conn.new) (refusal_text status true)) }
    ensures cause { HasCause (C.put_faults conn.old) (C.put_faults conn.new) result }
    ensures apart { IsApart (C.left conn.old) (C.left conn.new)
        (C.take_faults conn.old) (C.take_faults conn.new) }
{
    send(conn, status, Form::Json, None, REFUSAL, true)
}
