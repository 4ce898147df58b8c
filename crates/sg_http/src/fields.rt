// What the fields of a head say, read where they lie.
ghost use Rattle.std.specs.Prelude.{◌≡◌, ℕ, ◌+◌, ◌<◌, ◌≤◌, List, [], ◌∷◌, length, slice_index_or, All, codes, IfOk, MatchOption};
ghost use Rattle.std.specs.List.{list_any};
ghost use Rattle.httparse.specs.declared.spans.HeaderSpan.{HeaderSpan};
ghost use Rattle.httparse.specs.Spans.{IsHeaderWithin, header_bytes};
ghost use Rattle.sg_http.specs.Fields.{has_name, values, value_of, length_of, wants_length, asks_to_close, closes, encoding_fault, length_fault, key_fault, host_fault, size_fault, fault_of};
ghost use Rattle.sg_http.specs.Places.{texts_at, values_from, Finds, IsFault, IsKeyOf, IsCutLength};

use crate::message::{Span, Verb};
use crate::text::{asks_to_close, is_same_name, number};
use httparse::spans::HeaderSpan;
use sg_base::limits::MAX_BODY;

/// What the fields of a head without a fault say of its message.
#[derive(Clone, Copy)]
pub(crate) struct Declared {
    // The bytes of the body.
    pub length: u64,
    pub key: Option<Span>,
}

// The fields of one name.
#[derive(Clone, Copy)]
pub(crate) enum Found {
    Absent,
    // Where the value of the one field lies.
    Once(Span),
    Repeated,
}

/// Reads the fields that a message is made of. `Err` is the status that refuses the head.
#[tactic(auto, unfolding(crate::specs::Fields::fault_of))]
pub(crate) fn read_fields(
    buf: &[u8],
    fields: &[HeaderSpan],
    verb: Verb,
    minor: u8,
) -> Result<Declared, u16>
    requires { All (IsHeaderWithin (length buf.now)) fields.now }
    ensures fault { IsFault (fault_of verb minor (texts_at buf.now fields.now)) result }
    ensures length { IfOk result (λ d.
        (d.length ≡ length_of (values (codes "Content-Length") (texts_at buf.now fields.now)))
        × (d.length ≤ MAX_BODY)) }
    ensures key { IfOk result (λ d.
        IsKeyOf buf.now (values (codes "Sign-Key") (texts_at buf.now fields.now)) d.key) }
{
    check_encoding(buf, fields)?;
    let length = read_length(buf, fields)?;
    let key = read_key(buf, fields)?;
    check_host(buf, fields, minor)?;
    let length = body_length(verb, length)?;
    Ok(Declared { length, key })
}

/// Whether the connection closes after the reply to this message.
pub(crate) fn closes(buf: &[u8], fields: &[HeaderSpan], method: &[u8], minor: u8) -> bool
    requires { All (IsHeaderWithin (length buf.now)) fields.now }
    ensures { result ≡ closes method.now minor (texts_at buf.now fields.now) }
{
    minor == 0 || method == b"HEAD".as_slice() || is_close_asked(buf, fields)
}

/// Finds the fields of a name.
pub(crate) fn find(buf: &[u8], fields: &[HeaderSpan], name: &[u8]) -> Found
    requires { All (IsHeaderWithin (length buf.now)) fields.now }
    ensures { Finds buf.now (values name.now (texts_at buf.now fields.now)) result }
{
    let first = match position(buf, fields, 0, name) {
        Some(first) => first,
        None => return Found::Absent,
    };
    match position(buf, fields, first + 1, name) {
        Some(_) => Found::Repeated,
        None => {
            let value = fields[first].value;
            Found::Once(Span {
                from: value.start,
                to: value.end,
            })
        }
    }
}

// The first field of a name from the one with the number `from` on.
fn position(buf: &[u8], fields: &[HeaderSpan], from: usize, name: &[u8]) -> Option<usize>
    requires within { All (IsHeaderWithin (length buf.now)) fields.now }
    requires from { from ≤ length fields.now }
    ensures { MatchOption result (values_from buf.now name.now fields.now from ≡ []) (λ i.
        (i < length fields.now)
        × ((h : HeaderSpan) → values_from buf.now name.now fields.now from
        ≡ (header_bytes buf.now (slice_index_or fields.now i h)).1
        ∷ values_from buf.now name.now fields.now (i + 1))) }
{
    for i in from..fields.len() {
        if is_named(buf, &fields[i], name) {
            return Some(i);
        }
    }
    None
}

fn is_named(buf: &[u8], field: &HeaderSpan, name: &[u8]) -> bool
    requires { IsHeaderWithin (length buf.now) field.now }
    ensures { result ≡ has_name name.now (header_bytes buf.now field.now) }
{
    is_same_name(field.name.of(buf), name)
}

fn is_close_asked(buf: &[u8], fields: &[HeaderSpan]) -> bool
    requires { All (IsHeaderWithin (length buf.now)) fields.now }
    ensures { result
        ≡ list_any asks_to_close (values (codes "Connection") (texts_at buf.now fields.now)) }
{
    for i in 0..fields.len() {
        let field = fields[i];
        if is_named(buf, &field, b"Connection") && asks_to_close(field.value.of(buf)) {
            return true;
        }
    }
    false
}

// No coding of a body is implemented.
fn check_encoding(buf: &[u8], fields: &[HeaderSpan]) -> Result<(), u16>
    requires { All (IsHeaderWithin (length buf.now)) fields.now }
    ensures { IsFault (encoding_fault
        (values (codes "Transfer-Encoding") (texts_at buf.now fields.now))) result }
{
    match find(buf, fields, b"Transfer-Encoding") {
        Found::Absent => Ok(()),
        Found::Once(_) => Err(501),
        Found::Repeated => Err(501),
    }
}

// The length that is given, where one is: the number, or one more than the limit where it is over the limit.
fn read_length(buf: &[u8], fields: &[HeaderSpan]) -> Result<Option<u64>, u16>
    requires { All (IsHeaderWithin (length buf.now)) fields.now }
    ensures fault { IsFault (length_fault
        (values (codes "Content-Length") (texts_at buf.now fields.now))) result }
    ensures length { IfOk result (IsCutLength
        (values (codes "Content-Length") (texts_at buf.now fields.now))) }
{
    match find(buf, fields, b"Content-Length") {
        Found::Absent => Ok(None),
        Found::Once(value) => match number(&buf[value.from..value.to], MAX_BODY + 1) {
            Some(length) => Ok(Some(length)),
            None => Err(400),
        },
        Found::Repeated => Err(400),
    }
}

fn read_key(buf: &[u8], fields: &[HeaderSpan]) -> Result<Option<Span>, u16>
    requires { All (IsHeaderWithin (length buf.now)) fields.now }
    ensures fault { IsFault (key_fault
        (values (codes "Sign-Key") (texts_at buf.now fields.now))) result }
    ensures key { IfOk result
        (IsKeyOf buf.now (values (codes "Sign-Key") (texts_at buf.now fields.now))) }
{
    match find(buf, fields, b"Sign-Key") {
        Found::Absent => Ok(None),
        Found::Once(key) => Ok(Some(key)),
        Found::Repeated => Err(400),
    }
}

// One host in HTTP/1.1, at most one in HTTP/1.0.
fn check_host(buf: &[u8], fields: &[HeaderSpan], minor: u8) -> Result<(), u16>
    requires { All (IsHeaderWithin (length buf.now)) fields.now }
    ensures { IsFault (host_fault minor
        (values (codes "Host") (texts_at buf.now fields.now))) result }
{
    match find(buf, fields, b"Host") {
        Found::Absent => if minor == 1 { Err(400) } else { Ok(()) },
        Found::Once(_) => Ok(()),
        Found::Repeated => Err(400),
    }
}

// The length of the body, by the length that is given.
fn body_length(verb: Verb, given: Option<u64>) -> Result<u64, u16>
    ensures fault { (lengths : List (List ℕ)) → IsCutLength lengths given
        → IsFault (size_fault verb lengths) result }
    ensures length { IfOk result (λ n. (n ≤ MAX_BODY) × ((lengths : List (List ℕ))
        → IsCutLength lengths given → n ≡ length_of lengths)) }
{
    match given {
        Some(length) => if length > MAX_BODY {
            Err(413)
        } else {
            Ok(length)
        },
        None => match verb {
            Verb::Post => Err(411),
            Verb::Put => Err(411),
            Verb::Get => Ok(0),
            Verb::Other => Ok(0),
        },
    }
}
