// The text of a player's request.
ghost use Rattle.std.specs.Prelude.{◌≡◌, ◌++◌, IfOk, OnOk, option_copied};
ghost use Rattle.sg_http.specs.Texts.{IsBodyOf, body_bytes, length_lines, lines_text, request_text};

use crate::message::Verb;
use crate::reply::verb_name;
use itoa::Buffer;
use std::alloc::{AllocError, Global};

/// The text of a request, head and body. A request asks to close the connection.
pub fn request_bytes(
    alloc: Global,
    verb: Verb,
    path: &[u8],
    key: &[u8],
    body: Option<&[u8]>,
) -> Result<Vec<u8>, AllocError>
    requires { IsBodyOf verb (option_copied body) }
    ensures { IfOk result (λ text. text.items
        ≡ request_text verb path.now key.now (option_copied body.entry)) }
{
    let mut text = Vec::from_slice(alloc, verb_name(verb))?;
    text.extend_from_slice(b" ")?;
    text.extend_from_slice(path)?;
    text.extend_from_slice(b" HTTP/1.1\r\nHost: signage\r\nSign-Key: ")?;
    text.extend_from_slice(key)?;
    text.extend_from_slice(b"\r\nConnection: close\r\n")?;
    push_length(&mut text, body)?;
    text.extend_from_slice(b"\r\n")?;
    push_body(&mut text, body)?;
    Ok(text)
}

fn push_length(text: &mut Vec<u8>, body: Option<&[u8]>) -> Result<(), AllocError>
    ensures { OnOk result (text.new.items
        ≡ text.old.items ++ lines_text (length_lines (option_copied body.entry))) }
{
    if let Some(body) = body {
        let mut digits = Buffer::new();
        text.extend_from_slice(b"Content-Length: ")?;
        text.extend_from_slice(digits.format(body.len()).as_bytes())?;
        text.extend_from_slice(b"\r\n")?;
    }
    Ok(())
}

fn push_body(text: &mut Vec<u8>, body: Option<&[u8]>) -> Result<(), AllocError>
    ensures { OnOk result (text.new.items
        ≡ text.old.items ++ body_bytes (option_copied body.entry)) }
{
    match body {
        Some(body) => text.extend_from_slice(body),
        None => Ok(()),
    }
}
