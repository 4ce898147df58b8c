// What a player reads of the bytes of a reply.
ghost use Rattle.std.specs.Prelude.{◌≡◌, ◌≤◌, length, take, All};
ghost use Rattle.httparse.specs.Spans.{IsHeaderWithin};
ghost use Rattle.sg_http.specs.Places.{reply_text_at, texts_at};
ghost use Rattle.sg_http.specs.Replies.{IsReadWithin, Reads, ReplyHeads, agrees_with, may_be_http, read_at, reply_judged, reply_length, short_number};

use crate::fields::{Found, find};
use crate::message::Span;
use crate::search::{Search, find_empty_line};
use crate::text::number;
use httparse::Status;
use httparse::spans::{EMPTY_HEADER_SPAN, HeaderSpan, ResponseSpans, parse_response};
use sg_base::limits::MAX_FIELDS;

// More than ten digits write.
const LENGTH_END: u64 = 10_000_000_000;

/// What the bytes of a reply are.
#[derive(Clone, Copy, Debug, PartialEq, Eq)]
pub enum ReplyRead {
    /// A whole reply, whatever comes after it.
    Whole {
        status: u16,
        body: Span,
    },
    /// Less than a reply. Before the end of its head the status and the length are 0, and `got` are all bytes that
    /// came; after it they are those of the head, and `got` are the bytes of the body that came.
    Cut {
        status: u16,
        got: u64,
        length: u64,
        body: Span,
    },
    /// No reply with one length of at most ten digits and without a coding of its body.
    NotHttp,
}

/// Reads the bytes of a reply.
pub fn read_reply(bytes: &[u8]) -> ReplyRead
    ensures reads { Reads bytes.now (read_at bytes.now result) }
    ensures within { IsReadWithin (length bytes.now) result }
{
    if !may_be_http(bytes) {
        return ReplyRead::NotHttp;
    }
    match find_empty_line(bytes, 0) {
        Search::Ended(end) => read_head(bytes, end),
        Search::GoesOn(_) => ReplyRead::Cut {
            status: 0,
            got: bytes.len() as u64,
            length: 0,
            body: Span { from: 0, to: 0 },
        },
    }
}

fn may_be_http(bytes: &[u8]) -> bool
    ensures { result ≡ may_be_http bytes.now }
{
    agrees_with(b"HTTP/1.1 ", bytes) || agrees_with(b"HTTP/1.0 ", bytes)
}

// Whether the bytes begin with a text, as far as they go.
fn agrees_with(text: &[u8], bytes: &[u8]) -> bool
    ensures { result ≡ agrees_with text.now bytes.now }
{
    let length = text.len().min(bytes.len());
    bytes[..length] == text[..length]
}

// The parser gets the bytes up to the end of the empty line, and no more.
fn read_head(bytes: &[u8], end: usize) -> ReplyRead
    requires { end ≤ length bytes.now }
    ensures reads { ReplyHeads (take end bytes.now) bytes.now (read_at bytes.now result) }
    ensures within { IsReadWithin (length bytes.now) result }
{
    let mut fields = [EMPTY_HEADER_SPAN; MAX_FIELDS];
    let head = &bytes[..end];
    match parse_response(head, &mut fields) {
        Ok(Status::Complete(parts)) => read_body(bytes, head, &fields[..parts.headers], &parts),
        Ok(Status::Partial) => ReplyRead::NotHttp,
        Err(_) => ReplyRead::NotHttp,
    }
}

// The reply whose head has these parts.
fn read_body(bytes: &[u8], head: &[u8], fields: &[HeaderSpan], parts: &ResponseSpans) -> ReplyRead
    requires len { parts.now.len ≤ length bytes.now }
    requires fields { All (IsHeaderWithin (length head.now)) fields.now }
    ensures reads { read_at bytes.now result
        ≡ reply_judged (reply_text_at head.now fields.now parts.now) bytes.now }
    ensures within { IsReadWithin (length bytes.now) result }
{
    let length = match reply_length(head, fields) {
        Some(length) => length,
        None => return ReplyRead::NotHttp,
    };
    let got = bytes.len() - parts.len;
    if (got as u64) < length {
        return ReplyRead::Cut {
            status: parts.code,
            got: got as u64,
            length,
            body: Span {
                from: parts.len,
                to: bytes.len(),
            },
        };
    }
    ReplyRead::Whole {
        status: parts.code,
        body: Span {
            from: parts.len,
            to: parts.len + length as usize,
        },
    }
}

fn reply_length(buf: &[u8], fields: &[HeaderSpan]) -> Option<u64>
    requires { All (IsHeaderWithin (length buf.now)) fields.now }
    ensures { result ≡ reply_length (texts_at buf.now fields.now) }
{
    match find(buf, fields, b"Transfer-Encoding") {
        Found::Absent => {}
        Found::Once(_) => return None,
        Found::Repeated => return None,
    }
    match find(buf, fields, b"Content-Length") {
        Found::Absent => None,
        Found::Once(value) => short_number(&buf[value.from..value.to]),
        Found::Repeated => None,
    }
}

fn short_number(value: &[u8]) -> Option<u64>
    ensures { result ≡ short_number value.now }
{
    if value.len() > 10 {
        return None;
    }
    number(value, LENGTH_END)
}
