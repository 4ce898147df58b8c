//! Streams, with the bytes that come back and how the connection ends. The texts were written by hand after RFC 9112.

ghost use Rattle.std.specs.Prelude.{◌<◌};

use crate::counter::Counter;
use sg_connection::{ConnEnd, serve_connection};
use sg_outside::{MemConn, MemSink, MemSource};
use std::alloc::{AllocError, Global};
use std::process::Abort;
use std::test::Fail;

pub(crate) const GET: &str = "GET / HTTP/1.1\r\nHost: a\r\n\r\n";

const LONG: &str = "POST /long HTTP/1.1\r\nHost: a\r\nContent-Length: 3\r\n\r\nabc";

const LAST: &str = "GET / HTTP/1.1\r\nHost: a\r\nConnection: close\r\n\r\n";

pub(crate) const ONE: &str =
    "HTTP/1.1 200 OK\r\nContent-Type: application/octet-stream\r\nContent-Length: 1\r\n\r\n1";

pub(crate) const TWO: &str =
    "HTTP/1.1 200 OK\r\nContent-Type: application/octet-stream\r\nContent-Length: 1\r\n\r\n2";

const TWO_LONG: &str =
    "HTTP/1.1 200 OK\r\nContent-Type: application/octet-stream\r\nContent-Length: 4\r\n\r\nlong";

const ONE_LAST: &str =
    "HTTP/1.1 200 OK\r\nContent-Type: application/octet-stream\r\nContent-Length: 1\r\nConnection: close\r\n\r\n1";

const NO_LENGTH: &str =
    "HTTP/1.1 411 Length Required\r\nContent-Type: application/json\r\nContent-Length: 18\r\nConnection: close\r\n\r\n{\"refused\":\"Head\"}";

// The parts of a stream, those of what comes back, and how the connection ends.
struct Case {
    stream: [&'static str; 3],
    replies: [&'static str; 2],
    end: ConnEnd,
}

const CASES: [Case; 8] = [
    Case {
        stream: ["", "", ""],
        replies: ["", ""],
        end: ConnEnd::Closed,
    },
    Case {
        stream: [GET, "", ""],
        replies: [ONE, ""],
        end: ConnEnd::Closed,
    },
    Case {
        stream: [GET, LONG, ""],
        replies: [ONE, TWO_LONG],
        end: ConnEnd::Closed,
    },
    Case {
        stream: [GET, GET, "GET"],
        replies: [ONE, TWO],
        end: ConnEnd::Rest(3),
    },
    Case {
        stream: [
            "POST / HTTP/1.1\r\nHost: a\r\nContent-Length: 3\r\n\r\nab",
            "",
            "",
        ],
        replies: ["", ""],
        end: ConnEnd::Rest(49),
    },
    // Nothing is read after a message that asks to close.
    Case {
        stream: [LAST, GET, GET],
        replies: [ONE_LAST, ""],
        end: ConnEnd::Closed,
    },
    Case {
        stream: ["POST / HTTP/1.1\r\nHost: a\r\n\r\n", GET, ""],
        replies: [NO_LENGTH, ""],
        end: ConnEnd::Refused(411),
    },
    Case {
        stream: [GET, "POST / HTTP/1.1\r\nHost: a\r\n\r\n", ""],
        replies: [ONE, NO_LENGTH],
        end: ConnEnd::Refused(411),
    },
];

fn joined(alloc: Global, parts: &[&str]) -> Result<Vec<u8>, AllocError> {
    let mut bytes = Vec::new(alloc);
    for part in parts {
        bytes.extend_from_slice(part.as_bytes())?;
    }
    Ok(bytes)
}

// Each case, where a take gives as many bytes at most.
fn each_ends(rt: &impl Abort, alloc: Global, cases: &[Case], limit: usize) -> Result<(), Fail>
    requires { 0 < limit }
{
    for case in cases {
        let source = MemSource::new(alloc, joined(alloc, &case.stream)?).with_limit(limit);
        let mut conn = MemConn::new(source, MemSink::new(alloc));
        let end = serve_connection(alloc, &mut conn, &mut Counter { count: 0 }, &mut 0u64);
        assert_eq!(rt; end, case.end, "{} bytes a take", limit);
        let replies = joined(alloc, &case.replies)?;
        assert_eq!(rt;
            conn.outgoing().bytes(),
            replies.as_slice(),
            "{} bytes a take",
            limit
        );
    }
    Ok(())
}

#[test]
fn a_stream_is_answered_however_it_comes(rt: HostRuntime) -> Result<(), Fail> {
    for limit in [1, 2, 7, 27, 28, 4_096] {
        each_ends(&rt, rt.alloc(), &CASES, limit)?;
    }
    Ok(())
}

// How a connection of two messages ends of which these calls fail, and what comes back.
fn failed(alloc: Global, take: u64, put: u64) -> Result<(ConnEnd, Vec<u8>), AllocError> {
    let source = MemSource::new(alloc, joined(alloc, &[GET, GET])?)
        .with_limit(27)
        .with_failing(vec![in alloc; take]?);
    let sink = MemSink::new(alloc).with_failing(vec![in alloc; put]?);
    let mut conn = MemConn::new(source, sink);
    let end = serve_connection(alloc, &mut conn, &mut Counter { count: 0 }, &mut 0u64);
    Ok((end, conn.outgoing().bytes().to_vec(alloc)?))
}

// The take and the put that fail, how the connection ends, and how many bytes come back.
type Failure = (u64, u64, ConnEnd, usize);

// Takes 1 to 3 give a message each and the end; puts 1 and 3 are heads of 78 bytes, 2 and 4 bodies of one byte.
const FAILURES: [Failure; 8] = [
    (1, 0, ConnEnd::ReadFault, 0),
    (2, 0, ConnEnd::ReadFault, 79),
    (3, 0, ConnEnd::ReadFault, 158),
    (4, 0, ConnEnd::Closed, 158),
    (0, 1, ConnEnd::WriteFault, 0),
    (0, 2, ConnEnd::WriteFault, 78),
    (0, 3, ConnEnd::WriteFault, 79),
    (0, 4, ConnEnd::WriteFault, 157),
];

fn each_fails(rt: &impl Abort, alloc: Global, failures: &[Failure]) -> Result<(), Fail> {
    for (take, put, end, length) in failures {
        let (found, bytes) = failed(alloc, *take, *put)?;
        assert_eq!(rt; found, *end, "take {take}, put {put}");
        assert_eq!(rt; bytes.len(), *length, "take {take}, put {put}");
    }
    Ok(())
}

#[test]
fn each_call_of_a_connection_failing(rt: HostRuntime) -> Result<(), Fail> {
    each_fails(&rt, rt.alloc(), &FAILURES)
}

#[test]
fn both_states_are_left_by_the_last_message(rt: HostRuntime) -> Result<(), Fail> {
    let alloc = rt.alloc();
    let source = MemSource::new(alloc, joined(alloc, &[GET, LONG, LAST, GET])?);
    let mut conn = MemConn::new(source, MemSink::new(alloc));
    let mut server = Counter { count: 0 };
    let mut keeper = 0u64;
    let end = serve_connection(alloc, &mut conn, &mut server, &mut keeper);
    assert_eq!(rt; end, ConnEnd::Closed);
    assert_eq!(rt; server.count, 3);
    assert_eq!(rt; keeper, 1);
    Ok(())
}
