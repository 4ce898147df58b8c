// The rules on messages: one at a time, two at once, and at their limits.
use super::shown;
use sg_base::limits::{MAX_FIELDS, MAX_HEAD};
use sg_http::{Look, Next, Progress, START, look_at, next_message, one_message, one_opening};
use std::alloc::{AllocError, Global};
use std::test::Fail;

const EDIT: &[u8] =
    b"POST /edits HTTP/1.1\r\nHost: signage\r\nSign-Key: op\r\nContent-Length: 3\r\n\r\n{a}";

#[test]
fn a_message_is_read_by_its_head(rt: HostRuntime) -> Result<(), Fail> {
    let alloc = rt.alloc();
    let rows: [(&[u8], &str); 14] = [
        (EDIT, "Post /edits key op body {a}, 75 bytes, goes on"),
        (
            b"GET / HTTP/1.1\r\nHost: a\r\n\r\n",
            "Get / key - body , 27 bytes, goes on",
        ),
        // Lines that end with LF alone, empty lines before the head, and bytes after the message.
        (
            b"\r\n\nGET / HTTP/1.1\nHost: a\n\nGET",
            "Get / key - body , 27 bytes, goes on",
        ),
        (
            b"PUT /a HTTP/1.1\r\nhost:\r\ncontent-LENGTH:\t07 \r\n\r\n1234567",
            "Put /a key - body 1234567, 54 bytes, goes on",
        ),
        (
            b"DELETE / HTTP/1.1\r\nHost: a\r\n\r\n",
            "Other / key - body , 30 bytes, goes on",
        ),
        // A method has a case.
        (
            b"get / HTTP/1.1\r\nHost: a\r\n\r\n",
            "Other / key - body , 27 bytes, goes on",
        ),
        (
            b"GET / HTTP/1.1\r\nHost: a\r\nSIGN-key: \t k 1 \t\r\n\r\n",
            "Get / key k 1 body , 46 bytes, goes on",
        ),
        (
            b"GET / HTTP/1.1\r\nHost: a\r\nContent-Length: 0\r\n\r\n",
            "Get / key - body , 46 bytes, goes on",
        ),
        (
            b"GET / HTTP/1.1\r\nHost: a\r\n\r\n\r\n",
            "Get / key - body , 27 bytes, goes on",
        ),
        // HTTP/1.0 wants no host, and closes; so does HEAD.
        (
            b"GET / HTTP/1.0\r\n\r\n",
            "Get / key - body , 18 bytes, closes",
        ),
        (
            b"HEAD / HTTP/1.1\r\nHost: a\r\n\r\n",
            "Other / key - body , 28 bytes, closes",
        ),
        (
            b"head / HTTP/1.1\r\nHost: a\r\n\r\n",
            "Other / key - body , 28 bytes, goes on",
        ),
        (b"", "more"),
        (b"\r\n\r\n\n\n", "more"),
    ];
    for (stream, want) in rows {
        assert_eq!(rt; shown(alloc, stream)?.as_str(), want, "{want}");
    }
    Ok(())
}

#[test]
fn a_connection_field_may_close(rt: HostRuntime) -> Result<(), Fail> {
    let alloc = rt.alloc();
    let rows: [(&str, bool); 10] = [
        ("Connection: close", true),
        ("connection: CLOSE", true),
        ("Connection: keep-alive, \t close\t ,x", true),
        ("Connection: close,keep-alive", true),
        ("Connection: keep-alive\r\nConnection: close", true),
        ("Connection: keep-alive", false),
        ("Connection: close x", false),
        ("Connection: closed", false),
        ("Connection: ", false),
        ("X-Connection: close", false),
    ];
    for (field, want) in rows {
        let stream = format!(in alloc; "GET / HTTP/1.1\r\nHost: a\r\n{field}\r\n\r\n")?;
        let closes = match next_message(stream.as_bytes()) {
            Next::Message { close, .. } => Some(close),
            Next::NeedMore => None,
            Next::Refused(_) => None,
        };
        assert_eq!(rt; closes, Some(want), "{field}");
    }
    Ok(())
}

#[test]
fn the_first_rule_that_is_broken_refuses(rt: HostRuntime) -> Result<(), Fail> {
    let alloc = rt.alloc();
    // Method and version, fields, and the status.
    let rows: [(&str, &str, u16); 30] = [
        // The head isn't of the grammar: no version, an unknown one, two spaces, no name, a space in it, folding.
        ("GET /", "Host: a", 400),
        ("GET / HTTP/2.0", "Host: a", 400),
        ("GET  / HTTP/1.1", "Host: a", 400),
        ("GET / HTTP/1.1", "Host: a\r\n: b", 400),
        ("GET / HTTP/1.1", "Host : a", 400),
        ("GET / HTTP/1.1", "Host: a\r\n b", 400),
        // A control byte in a value: NUL, and CR without LF.
        ("GET / HTTP/1.1", "Host: a\0b", 400),
        ("GET / HTTP/1.1", "Host: a\rb", 400),
        ("GET / HTTP/1.1", "Transfer-Encoding: chunked", 501),
        (
            "GET / HTTP/1.1",
            "Host: a\r\ntransfer-encoding: identity",
            501,
        ),
        // Two lengths, equal ones too; a length that isn't digits; none.
        (
            "POST / HTTP/1.1",
            "Host: a\r\nContent-Length: 1\r\nContent-Length: 1",
            400,
        ),
        ("POST / HTTP/1.1", "Host: a\r\nContent-Length: 1, 1", 400),
        ("POST / HTTP/1.1", "Host: a\r\nContent-Length: +1", 400),
        ("POST / HTTP/1.1", "Host: a\r\nContent-Length: -1", 400),
        ("POST / HTTP/1.1", "Host: a\r\nContent-Length: 1 0", 400),
        ("POST / HTTP/1.1", "Host: a\r\nContent-Length: 0x1", 400),
        ("POST / HTTP/1.1", "Host: a\r\nContent-Length:", 400),
        ("GET / HTTP/1.1", "Host: a\r\nContent-Length: x", 400),
        (
            "GET / HTTP/1.1",
            "Host: a\r\nSign-Key: k\r\nsign-key: k",
            400,
        ),
        ("GET / HTTP/1.1", "Host: a\r\nHost: a", 400),
        ("GET / HTTP/1.0", "Host: a\r\nHost: a", 400),
        ("GET / HTTP/1.1", "Sign-Key: k", 400),
        ("POST / HTTP/1.1", "Host: a", 411),
        ("PUT / HTTP/1.1", "Host: a", 411),
        ("POST / HTTP/1.1", "Host: a\r\nContent-Length: 1048577", 413),
        (
            "GET / HTTP/1.1",
            "Host: a\r\nContent-Length: 99999999999999999999999999999999999999",
            413,
        ),
        // Two at once.
        (
            "POST / HTTP/1.1",
            "Transfer-Encoding: chunked\r\nContent-Length: x",
            501,
        ),
        ("POST / HTTP/1.1", "Content-Length: 1048577", 400),
        ("POST / HTTP/1.1", "Accept: a", 400),
        (
            "POST / HTTP/1.1",
            "Host: a\r\nContent-Length: 9999999\r\nSign-Key: k\r\nSign-Key: k",
            400,
        ),
    ];
    for (line, fields, status) in rows {
        let stream = format!(in alloc; "{line}\r\n{fields}\r\n\r\n")?;
        let want = format!(in alloc; "refused {status}")?;
        assert_eq!(rt;
            shown(alloc, stream.as_bytes())?.as_str(),
            want.as_str(),
            "{line} {fields}"
        );
    }
    Ok(())
}

#[test]
fn a_body_of_the_greatest_length_is_waited_for(rt: HostRuntime) -> Result<(), Fail> {
    let alloc = rt.alloc();
    let head = b"PUT / HTTP/1.1\r\nHost: a\r\nContent-Length: 1048576\r\n\r\n";
    assert_eq!(rt; next_message(head), Next::NeedMore);
    assert_eq!(rt; look_at(head, START), Look::InBody(head.len() + 1_048_576));
    Ok(())
}

// A head whose last field has so many bytes of value.
fn padded(alloc: Global, count: usize) -> Result<Vec<u8>, AllocError> {
    let mut stream = Vec::from_slice(alloc, b"GET / HTTP/1.1\r\nHost: a\r\nA: ")?;
    let value = vec![in alloc; b'x'; count]?;
    stream.extend_from_slice(value.as_slice())?;
    stream.extend_from_slice(b"\r\n\r\n")?;
    Ok(stream)
}

#[test]
fn a_head_ends_in_its_first_16384_bytes(rt: HostRuntime) -> Result<(), Fail> {
    let alloc = rt.alloc();
    let fits = padded(alloc, MAX_HEAD - 32)?;
    assert_eq!(rt; fits.len(), MAX_HEAD);
    let is_message = match next_message(fits.as_slice()) {
        Next::Message { used, .. } => used == MAX_HEAD,
        Next::NeedMore => false,
        Next::Refused(_) => false,
    };
    assert!(rt; is_message);
    let long = padded(alloc, MAX_HEAD - 31)?;
    assert_eq!(rt; next_message(long.as_slice()), Next::Refused(431));
    let open = vec![in alloc; b'\n'; MAX_HEAD]?;
    assert_eq!(rt;
        next_message(open.get(..MAX_HEAD - 1).unwrap_or(b"")),
        Next::NeedMore
    );
    assert_eq!(rt; next_message(open.as_slice()), Next::Refused(431));
    Ok(())
}

#[test]
fn a_head_has_at_most_64_fields(rt: HostRuntime) -> Result<(), Fail> {
    let alloc = rt.alloc();
    for (more, want) in [(MAX_FIELDS - 1, true), (MAX_FIELDS, false)] {
        let mut stream = Vec::from_slice(alloc, b"GET / HTTP/1.1\r\nHost: a\r\n")?;
        for _ in 0..more {
            stream.extend_from_slice(b"A: b\r\n")?;
        }
        stream.extend_from_slice(b"\r\n")?;
        let is_message = match next_message(stream.as_slice()) {
            Next::Message { .. } => true,
            Next::NeedMore => false,
            Next::Refused(_) => false,
        };
        assert_eq!(rt; is_message, want, "a host and {more} fields");
    }
    Ok(())
}

// What is found of a stream whose first bytes were looked at before.
fn look_again(stream: &[u8], cut: usize) -> Look {
    let front = &stream[..cut.min(stream.len())];
    match look_at(front, START) {
        Look::Found(next) => Look::Found(next),
        Look::InHead(progress) => look_at(stream, progress),
        Look::InBody(_) => look_at(stream, START),
    }
}

#[test]
fn every_cut_of_a_stream_waits_or_answers_the_same(rt: HostRuntime) -> Result<(), Fail> {
    let streams: [&[u8]; 5] = [
        EDIT,
        b"\r\n\nGET / HTTP/1.0\n\r\nPUT",
        b"GET / HTTP/1.1\r\nHost: a\r\n b\r\n\r\nxyz",
        b"POST / HTTP/1.1\r\nHost: a\r\n\r\n",
        b"HEAD /x HTTP/1.1\nHost: a\n\nGET /",
    ];
    for stream in streams {
        let whole = next_message(stream);
        for cut in 0..stream.len() {
            let part = next_message(stream.get(..cut).unwrap_or(b""));
            assert!(rt; part == Next::NeedMore || part == whole, "cut at {cut}");
            assert_eq!(rt; look_again(stream, cut), Look::Found(whole), "cut at {cut}");
        }
    }
    one_opening();
    one_message();
    Ok(())
}
