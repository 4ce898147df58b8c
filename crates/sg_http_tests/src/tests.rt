// What messages, replies and readings of replies are, by example. The texts were written by hand after RFC 9112.
use sg_http::{Next, Span, next_message};
use std::alloc::{AllocError, Global};
use std::str;

mod messages;
mod replies;

// The bytes of a range, as text.
fn text_at(bytes: &[u8], span: Span) -> &str {
    str::from_utf8(bytes.get(span.from..span.to).unwrap_or(b"?")).unwrap_or("?")
}

// What a stream begins with, in words.
fn shown(alloc: Global, stream: &[u8]) -> Result<String, AllocError> {
    match next_message(stream) {
        Next::Message {
            method,
            target,
            key,
            body,
            close,
            used,
        } => {
            let target = text_at(stream, target);
            let key = match key {
                Some(key) => text_at(stream, key),
                None => "-",
            };
            let body = text_at(stream, body);
            let then = if close { "closes" } else { "goes on" };
            format!(in alloc; "{method:?} {target} key {key} body {body}, {used} bytes, {then}")
        }
        Next::NeedMore => format!(in alloc; "more"),
        Next::Refused(status) => format!(in alloc; "refused {status}"),
    }
}
