// The texts of replies and requests, and what is read of them.
use super::{shown, text_at};
use sg_http::{
    Form, ReplyRead, Verb, read_reply, replies_read_back, reply_bytes, request_bytes,
    requests_read_back,
};
use std::alloc::{AllocError, Global};
use std::test::Fail;

// The reply to a display's wrong key.
#[tactic(auto, unfolding(sg_http::specs::Texts::reason))]
fn wrong_key(alloc: Global) -> Result<Vec<u8>, AllocError> {
    reply_bytes(
        alloc,
        403,
        Form::Json,
        None,
        b"{\"refused\":\"Key\"}",
        false,
    )
}

#[tactic(auto, unfolding(sg_http::specs::Texts::reason))]
fn wrong_method(alloc: Global) -> Result<Vec<u8>, AllocError> {
    reply_bytes(alloc, 405, Form::Json, Some(Verb::Post), b"{}", true)
}

#[tactic(auto, unfolding(sg_http::specs::Texts::reason))]
fn bytes_of(alloc: Global, form: Form, body: &[u8]) -> Result<Vec<u8>, AllocError> {
    reply_bytes(alloc, 200, form, None, body, false)
}

#[test]
fn a_reply_is_its_lines_and_its_body(rt: HostRuntime) -> Result<(), Fail> {
    let alloc = rt.alloc();
    assert_eq!(rt;
        wrong_key(alloc)?.as_slice(),
        b"HTTP/1.1 403 Forbidden\r\nContent-Type: application/json\r\nContent-Length: 17\r\n\r\n{\"refused\":\"Key\"}".as_slice()
    );
    assert_eq!(rt;
        wrong_method(alloc)?.as_slice(),
        b"HTTP/1.1 405 Method Not Allowed\r\nContent-Type: application/json\r\nContent-Length: 2\r\nAllow: POST\r\nConnection: close\r\n\r\n{}".as_slice()
    );
    assert_eq!(rt;
        bytes_of(alloc, Form::Csv, b"")?.as_slice(),
        b"HTTP/1.1 200 OK\r\nContent-Type: text/csv\r\nContent-Length: 0\r\n\r\n".as_slice()
    );
    let piece = vec![in alloc; 0; 65_536]?;
    let reply = bytes_of(alloc, Form::Octets, piece.as_slice())?;
    // The head of a piece has 82 bytes.
    assert_eq!(rt; reply.len(), 65_536 + 82);
    Ok(())
}

#[test]
fn a_request_is_read_as_what_it_is(rt: HostRuntime) -> Result<(), Fail> {
    let alloc = rt.alloc();
    let get = request_bytes(alloc, Verb::Get, b"/displays/7/manifest", b"k9", None)?;
    assert_eq!(rt;
        get.as_slice(),
        b"GET /displays/7/manifest HTTP/1.1\r\nHost: signage\r\nSign-Key: k9\r\nConnection: close\r\n\r\n".as_slice()
    );
    assert_eq!(rt;
        shown(alloc, get.as_slice())?.as_str(),
        "Get /displays/7/manifest key k9 body , 85 bytes, closes"
    );
    let post = request_bytes(alloc, Verb::Post, b"/displays/7/enrol", b"k9", Some(b""))?;
    assert_eq!(rt;
        shown(alloc, post.as_slice())?.as_str(),
        "Post /displays/7/enrol key k9 body , 102 bytes, closes"
    );
    let put = request_bytes(alloc, Verb::Put, b"/media/1/0", b"op", Some(b"abc"))?;
    assert_eq!(rt;
        shown(alloc, put.as_slice())?.as_str(),
        "Put /media/1/0 key op body abc, 97 bytes, closes"
    );
    Ok(())
}

// What the bytes of a reply are, in words.
fn read(alloc: Global, bytes: &[u8]) -> Result<String, AllocError> {
    match read_reply(bytes) {
        ReplyRead::Whole { status, body } => {
            let body = text_at(bytes, body);
            format!(in alloc; "{status} {body}")
        }
        ReplyRead::Cut {
            status,
            got,
            length,
            body,
        } => {
            let body = text_at(bytes, body);
            format!(in alloc; "cut {status} {got} {length} {body}")
        }
        ReplyRead::NotHttp => format!(in alloc; "no reply"),
    }
}

#[test]
fn a_reply_is_read_by_its_head(rt: HostRuntime) -> Result<(), Fail> {
    let alloc = rt.alloc();
    let rows: [(&[u8], &str); 19] = [
        (
            b"HTTP/1.1 200 OK\r\nContent-Length: 3\r\n\r\nabc",
            "200 abc",
        ),
        (
            b"HTTP/1.1 200 OK\r\nContent-Length: 3\r\n\r\nabcde",
            "200 abc",
        ),
        (b"HTTP/1.0 404\ncontent-length: \t3\t\n\nabc", "404 abc"),
        (
            b"HTTP/1.1 200 OK\r\nContent-Length: 0000000003\r\n\r\nabc",
            "200 abc",
        ),
        (
            b"HTTP/1.1 200 OK\r\nContent-Length: 3\r\n\r\nab",
            "cut 200 2 3 ab",
        ),
        (
            b"HTTP/1.1 200 OK\r\nContent-Length: 9999999999\r\n\r\nab",
            "cut 200 2 9999999999 ab",
        ),
        (b"HTTP/1.1 200 OK\r\nContent-Len", "cut 0 28 0 "),
        (b"HTTP/1.0", "cut 0 8 0 "),
        (b"HTTP/1.", "cut 0 7 0 "),
        (b"", "cut 0 0 0 "),
        (b"hello\n", "no reply"),
        (b"HTTP/1.2 200 OK\r\n", "no reply"),
        (
            b"\r\nHTTP/1.1 200 OK\r\nContent-Length: 0\r\n\r\n",
            "no reply",
        ),
        (
            b"HTTP/1.1 20 OK\r\nContent-Length: 3\r\n\r\nabc",
            "no reply",
        ),
        (b"HTTP/1.1 200 OK\r\n\r\nabc", "no reply"),
        (
            b"HTTP/1.1 200 OK\r\nContent-Length: 3\r\nContent-Length: 3\r\n\r\nabc",
            "no reply",
        ),
        (
            b"HTTP/1.1 200 OK\r\nContent-Length: 00000000003\r\n\r\nabc",
            "no reply",
        ),
        (
            b"HTTP/1.1 200 OK\r\nContent-Length: +3\r\n\r\nabc",
            "no reply",
        ),
        (
            b"HTTP/1.1 200 OK\r\nContent-Length: 3\r\nTransfer-Encoding: chunked\r\n\r\nabc",
            "no reply",
        ),
    ];
    for (bytes, want) in rows {
        assert_eq!(rt; read(alloc, bytes)?.as_str(), want, "{want}");
    }
    Ok(())
}

#[test]
fn a_reply_that_is_cut_is_read_as_cut(rt: HostRuntime) -> Result<(), Fail> {
    let alloc = rt.alloc();
    for reply in [
        wrong_key(alloc)?,
        wrong_method(alloc)?,
        bytes_of(alloc, Form::Octets, b"abc")?,
    ] {
        for cut in 0..reply.len() {
            let part = reply.get(..cut).unwrap_or(b"");
            let is_cut = match read_reply(part) {
                ReplyRead::Cut { .. } => true,
                ReplyRead::Whole { .. } => false,
                ReplyRead::NotHttp => false,
            };
            assert!(rt; is_cut, "cut at {cut}");
        }
    }
    replies_read_back();
    requests_read_back();
    Ok(())
}
