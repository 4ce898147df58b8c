// The text of a reply. Its head is made in fixed room, so that a reply to a change that was made can't want memory.
ghost use Rattle.std.specs.Prelude.{◌≡◌, ◌+◌, ◌≤◌, [], ◌∷◌, ◌++◌, length, decimal, IfOk};
ghost use Rattle.httparse.specs.Ascii.{crlf_bytes};
ghost use Rattle.sg_http.specs.Texts.{IsAllow, IsStatus, allow_lines, close_lines, form_name, length_line, lines_text, reason, reply_head, reply_text, status_line, type_line, verb_name};

use crate::message::Verb;
use itoa::Buffer;
use std::alloc::{AllocError, Global};
use std::marker::Model;

const HEAD_ROOM: usize = 256;

/// The form of a reply's body.
#[derive(Clone, Copy, Debug, PartialEq, Eq)]
pub enum Form {
    Json,
    Octets,
    Csv,
}

/// The head of a reply, its empty line included. Contracts see it as its bytes.
#[derive(Drop)]
pub struct ReplyHead {
    bytes: [u8; HEAD_ROOM],
    len: usize,
}

impl Model for ReplyHead {
    ghost use Rattle.std.specs.Prelude.{◌≤◌, ℕ, List, take};

    ghost Value = { List ℕ };

    ghost view = { λ h. take h.len h.bytes };

    ghost invariant = { λ h. h.len ≤ 256 };
}

/// The text of a reply, head and body.
pub fn reply_bytes(
    alloc: Global,
    status: u16,
    form: Form,
    allow: Option<Verb>,
    body: &[u8],
    close: bool,
) -> Result<Vec<u8>, AllocError>
    requires status { IsStatus status }
    requires allow { IsAllow status allow }
    ensures { IfOk result (λ text. text.items ≡ reply_text status form allow body.now close) }
{
    let head = ReplyHead::new(status, form, allow, body.len() as u64, close);
    let mut text = Vec::from_slice(alloc, head.as_bytes())?;
    text.extend_from_slice(body)?;
    Ok(text)
}

impl ReplyHead {
    /// The head of a reply whose body has `n` bytes.
    pub fn new(status: u16, form: Form, allow: Option<Verb>, n: u64, close: bool) -> ReplyHead
        requires status { IsStatus status }
        requires allow { IsAllow status allow }
        ensures { result ≡ reply_head status form allow n close }
    {
        let mut head = ReplyHead {
            bytes: [0; HEAD_ROOM],
            len: 0,
        };
        head.push_status(status);
        head.push_form(form);
        head.push_length(n);
        head.push_allow(allow);
        head.push_close(close);
        head.push_line(b"");
        head
    }

    /// Its bytes.
    pub fn as_bytes(&self) -> &[u8]
        ensures { result.now ≡ self.now }
    {
        &self.bytes[..self.len]
    }

    fn push_status(&mut self, status: u16)
        requires status { IsStatus status }
        requires room { length self.old ≡ 0 }
        ensures line { self.new ≡ self.old ++ lines_text (status_line status ∷ []) }
        ensures room { length self.new ≤ 63 }
    {
        self.push(b"HTTP/1.1 ");
        self.push_number(u64::from(status));
        self.push(b" ");
        self.push_line(reason(status));
    }

    fn push_form(&mut self, form: Form)
        requires { length self.old ≤ 63 }
        ensures line { self.new ≡ self.old ++ lines_text (type_line form ∷ []) }
        ensures room { length self.new ≤ 103 }
    {
        self.push(b"Content-Type: ");
        self.push_line(form_name(form));
    }

    fn push_length(&mut self, n: u64)
        requires { length self.old ≤ 103 }
        ensures line { self.new ≡ self.old ++ lines_text (length_line n ∷ []) }
        ensures room { length self.new ≤ 141 }
    {
        self.push(b"Content-Length: ");
        self.push_number(n);
        self.push_line(b"");
    }

    fn push_allow(&mut self, allow: Option<Verb>)
        requires { length self.old ≤ 141 }
        ensures line { self.new ≡ self.old ++ lines_text (allow_lines allow) }
        ensures room { length self.new ≤ 154 }
    {
        if let Some(verb) = allow {
            self.push(b"Allow: ");
            self.push_line(verb_name(verb));
        }
    }

    fn push_close(&mut self, close: bool)
        requires { length self.old ≤ 154 }
        ensures line { self.new ≡ self.old ++ lines_text (close_lines close) }
        ensures room { length self.new ≤ 173 }
    {
        if close {
            self.push_line(b"Connection: close");
        }
    }

    fn push_number(&mut self, n: u64)
        requires { length self.old ≤ 200 }
        ensures text { self.new ≡ self.old ++ decimal n }
        ensures room { length self.new ≤ length self.old + 20 }
    {
        let mut digits = Buffer::new();
        self.push(digits.format(n).as_bytes());
    }

    fn push_line(&mut self, part: &[u8])
        requires { length self.old + length part.now + 2 ≤ 256 }
        ensures text { self.new ≡ self.old ++ (part.now ++ crlf_bytes) }
        ensures room { length self.new ≡ length self.old + length part.now + 2 }
    {
        self.push(part);
        self.push(b"\r\n");
    }

    fn push(&mut self, part: &[u8])
        requires { length self.old + length part.now ≤ 256 }
        ensures text { self.new ≡ self.old ++ part.now }
        ensures room { length self.new ≡ length self.old + length part.now }
    {
        let end = self.len + part.len();
        self.bytes[self.len..end].copy_from_slice(part);
        self.len = end;
    }
}

/// The name of a method.
pub(crate) fn verb_name(verb: Verb) -> &'static [u8]
    ensures name { result.now ≡ verb_name verb }
    ensures short { length result.now ≤ 4 }
{
    match verb {
        Verb::Get => b"GET",
        Verb::Post => b"POST",
        Verb::Put => b"PUT",
        Verb::Other => b"",
    }
}

fn form_name(form: Form) -> &'static [u8]
    ensures name { result.now ≡ form_name form }
    ensures short { length result.now ≤ 24 }
{
    match form {
        Form::Json => b"application/json",
        Form::Octets => b"application/octet-stream",
        Form::Csv => b"text/csv",
    }
}

// The phrase of a status. Those of 413 and 422 are the older ones.
#[tactic(auto, unfolding(crate::specs::Texts::reason))]
fn reason(status: u16) -> &'static [u8]
    ensures phrase { result.now ≡ reason status }
    ensures short { length result.now ≤ 31 }
{
    match status {
        200 => b"OK",
        400 => b"Bad Request",
        403 => b"Forbidden",
        404 => b"Not Found",
        405 => b"Method Not Allowed",
        409 => b"Conflict",
        411 => b"Length Required",
        413 => b"Payload Too Large",
        416 => b"Range Not Satisfiable",
        422 => b"Unprocessable Entity",
        431 => b"Request Header Fields Too Large",
        501 => b"Not Implemented",
        503 => b"Service Unavailable",
        507 => b"Insufficient Storage",
        _ => b"",
    }
}
