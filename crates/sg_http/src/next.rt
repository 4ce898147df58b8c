// The first message of a stream.
ghost use Rattle.std.specs.Prelude.{◌≡◌, ◌≢◌, ℕ, ◌<◌, ◌≤◌, min, List, ◌++◌, length, take, All};
ghost use Rattle.httparse.specs.Spans.{IsHeaderWithin, IsWithin};
ghost use Rattle.sg_http.specs.Head.{head_end};
ghost use Rattle.sg_http.specs.Fields.{verb_of};
ghost use Rattle.sg_http.specs.Messages.{Opening, Unfinished, Opens, seen, IsNextWithin};
ghost use Rattle.sg_http.specs.Places.{text_at, Judges};
ghost use Rattle.sg_http.specs.Search.{IsKnown, Looks};

use crate::fields::{closes, read_fields};
use crate::message::{Next, Span, Verb};
use crate::search::{Progress, START, Search, find_head_end};
use httparse::Status;
use httparse::spans::{EMPTY_HEADER_SPAN, HeaderSpan, RequestSpans, parse_request};
use sg_base::limits::{MAX_FIELDS, MAX_HEAD};

/// What a look at a stream found.
#[derive(Clone, Copy, Debug, PartialEq, Eq)]
pub enum Look {
    /// A message, or the status that refuses it. It is never `NeedMore`.
    Found(Next),
    /// The head goes on. A look at a longer stream may begin here.
    InHead(Progress),
    /// The head is whole, and the message has so many bytes in all. No shorter stream is worth a look.
    InBody(usize),
}

/// The first message of a stream.
pub fn next_message(stream: &[u8]) -> Next
    ensures opens { Opens stream.now (seen stream.now result) }
    ensures within { IsNextWithin (length stream.now) result }
{
    match look_at(stream, START) {
        Look::Found(next) => next,
        Look::InHead(_) => Next::NeedMore,
        Look::InBody(_) => Next::NeedMore,
    }
}

/// Looks for the first message of a stream, from where an earlier look at a front of it came to.
///
/// A caller that goes on from `InHead`, and that waits for the bytes of `InBody`, has each byte of the stream looked at
/// once while the head comes, however small the pieces are.
pub fn look_at(stream: &[u8], from: Progress) -> Look
    requires { IsKnown stream.now from }
    ensures { Looks stream.now result }
{
    let front = &stream[..stream.len().min(MAX_HEAD)];
    match find_head_end(front, from) {
        Search::Ended(end) => read_head(stream, end),
        Search::GoesOn(progress) => {
            if stream.len() < MAX_HEAD {
                Look::InHead(progress)
            } else {
                Look::Found(Next::Refused(431))
            }
        }
    }
}

// The parser gets the bytes up to the end of the head, and no more.
fn read_head(stream: &[u8], end: usize) -> Look
    requires end { head_end (take MAX_HEAD stream.now) ≡ Some end }
    requires within { end ≤ min MAX_HEAD (length stream.now) }
    ensures { Looks stream.now result }
{
    let mut fields = [EMPTY_HEADER_SPAN; MAX_FIELDS];
    let head = &stream[..end];
    match parse_request(head, &mut fields) {
        Ok(Status::Complete(parts)) => judge(stream, head, &fields[..parts.headers], &parts),
        Ok(Status::Partial) => Look::Found(Next::Refused(400)),
        Err(_) => Look::Found(Next::Refused(400)),
    }
}

// What a stream begins with whose head has these parts.
fn judge(stream: &[u8], head: &[u8], fields: &[HeaderSpan], parts: &RequestSpans) -> Look
    requires front { head.now ≡ take (length head.now) stream.now }
    requires short { length head.now ≤ MAX_HEAD }
    requires method { IsWithin parts.now.len parts.now.method }
    requires path { IsWithin parts.now.len parts.now.path }
    requires len { parts.now.len ≤ length head.now }
    requires some { 0 < parts.now.len }
    requires fields { All (IsHeaderWithin parts.now.len) fields.now }
    ensures { Judges (text_at head.now fields.now parts.now) stream.now result }
{
    let method = parts.method.of(head);
    let verb = verb_of(method);
    let declared = match read_fields(head, fields, verb, parts.version) {
        Ok(declared) => declared,
        Err(status) => return Look::Found(Next::Refused(status)),
    };
    let used = parts.len + declared.length as usize;
    if stream.len() < used {
        return Look::InBody(used);
    }
    Look::Found(Next::Message {
        method: verb,
        target: Span {
            from: parts.path.start,
            to: parts.path.end,
        },
        key: declared.key,
        body: Span {
            from: parts.len,
            to: used,
        },
        close: closes(head, fields, method, parts.version),
        used,
    })
}

fn verb_of(method: &[u8]) -> Verb
    ensures { result ≡ verb_of method.now }
{
    if method == b"GET".as_slice() {
        Verb::Get
    } else if method == b"POST".as_slice() {
        Verb::Post
    } else if method == b"PUT".as_slice() {
        Verb::Put
    } else {
        Verb::Other
    }
}

/// A stream begins with one thing, and a message or a refusal stays, however the stream goes on.
pub fn one_opening()
    ensures one { (stream : List ℕ) (a b : Opening) → Opens stream a → Opens stream b → a ≡ b }
    ensures kept { (stream more : List ℕ) (o : Opening) → o ≢ Unfinished
        → Opens stream o → Opens (stream ++ more) o }
{}
