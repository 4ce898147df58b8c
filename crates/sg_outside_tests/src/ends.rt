// What the clauses don't show: that calls succeed with ample memory, and the values in worked tables.
ghost use Rattle.std.specs.Prelude.{◌≡◌, Some};

use sg_outside::{
    DoorFailed, Ends, MemSink, MemSource, Sink, SinkFailed, Source, SourceFailed, StdSink,
    StdSource, put_all,
};
use std::alloc::Global;
use std::io;
use std::io::{Cursor, ErrorKind, Read};
use std::test::Fail;

const TEXT: &[u8] = b"hello, world";

/// Takes to the end, through a buffer of `room` bytes, and counts the takes that failed.
fn drained<S: Source>(alloc: Global, source: &mut S, room: usize) -> Result<(Vec<u8>, u32), Fail> {
    let mut buffer = vec![in alloc; 0; room]?;
    let mut bytes = Vec::new(alloc);
    let mut failed = 0u32;
    for _ in 0..100 {
        match source.take(buffer.as_mut_slice()) {
            Ok(0) => break,
            Ok(count) => bytes.extend_from_slice(&buffer[..count])?,
            Err(SourceFailed) => failed = failed.saturating_add(1),
        }
    }
    Ok((bytes, failed))
}

#[test]
fn takes_of_every_size(rt: HostRuntime) -> Result<(), Fail> {
    let alloc = rt.alloc();
    for limit in 1..14 {
        for room in 1..14 {
            let mut source = MemSource::new(alloc, TEXT.to_vec(alloc)?).with_limit(limit);
            let (bytes, failed) = drained(alloc, &mut source, room)?;
            assert_eq!(rt; bytes.as_slice(), TEXT, "at most {limit}, room for {room}");
            assert_eq!(rt; failed, 0);
            assert_eq!(rt; source.faults(), 0);
        }
    }
    Ok(())
}

#[test]
fn one_take(rt: HostRuntime) -> Result<(), Fail> {
    let alloc = rt.alloc();
    // The limit, the room, how many bytes come, and the buffer after it.
    let rows: [(usize, usize, usize, &[u8]); 5] = [
        (20, 12, 12, b"hello, world"),
        (20, 14, 12, b"hello, world.."),
        (5, 8, 5, b"hello..."),
        (8, 5, 5, b"hello"),
        (8, 0, 0, b""),
    ];
    for (limit, room, count, after) in rows {
        let mut source = MemSource::new(alloc, TEXT.to_vec(alloc)?);
        if limit > 0 {
            source = source.with_limit(limit);
        }
        let mut buffer = vec![in alloc; b'.'; room]?;
        assert_eq!(rt; source.take(buffer.as_mut_slice()), Ok(count));
        assert_eq!(rt; buffer.as_slice(), after);
    }
    Ok(())
}

#[test]
fn each_take_failing(rt: HostRuntime) -> Result<(), Fail> {
    let alloc = rt.alloc();
    // 12 bytes by 5 are three takes, and a fourth for the end; a fifth isn't made but where one of them failed.
    for (call, want) in [(1, 1), (2, 1), (3, 1), (4, 1), (5, 0)] {
        let failing = vec![in alloc; call]?;
        let mut source = MemSource::new(alloc, TEXT.to_vec(alloc)?)
            .with_limit(5)
            .with_failing(failing);
        let (bytes, failed) = drained(alloc, &mut source, 9)?;
        assert_eq!(rt; bytes.as_slice(), TEXT, "call {call} fails");
        assert_eq!(rt; failed, want, "call {call} fails");
        assert_eq!(rt; source.faults(), u64::from(want), "call {call} fails");
    }
    Ok(())
}

#[test]
fn puts_of_every_size(rt: HostRuntime) -> Result<(), Fail> {
    let alloc = rt.alloc();
    for limit in 1..14 {
        let mut sink = MemSink::new(alloc).with_limit(limit);
        assert_eq!(rt; put_all(&mut sink, TEXT), Ok(()), "at most {limit}");
        assert_eq!(rt; put_all(&mut sink, b""), Ok(()));
        assert_eq!(rt; put_all(&mut sink, b"!"), Ok(()));
        assert_eq!(rt; sink.bytes(), b"hello, world!".as_slice());
        assert_eq!(rt; sink.faults(), 0);
    }
    let mut sink = MemSink::new(alloc);
    assert_eq!(rt; sink.put(TEXT), Ok(12));
    assert_eq!(rt; sink.put(b""), Ok(0));
    Ok(())
}

#[test]
fn each_put_failing(rt: HostRuntime) -> Result<(), Fail> {
    let alloc = rt.alloc();
    // One byte a call: where call k fails, the k - 1 bytes before it were put.
    for call in 1..13 {
        let failing = vec![in alloc; call]?;
        let mut sink = MemSink::new(alloc).with_limit(1).with_failing(failing);
        assert_eq!(rt;
            put_all(&mut sink, TEXT),
            Err(SinkFailed),
            "call {call} fails"
        );
        assert_eq!(rt; sink.bytes().len() as u64, call - 1, "call {call} fails");
        assert!(rt; TEXT.starts_with(sink.bytes()), "call {call} fails");
        assert_eq!(rt; sink.faults(), 1, "call {call} fails");
    }
    let mut sink = MemSink::new(alloc)
        .with_limit(1)
        .with_failing(vec![in alloc; 13]?);
    assert_eq!(rt; put_all(&mut sink, TEXT), Ok(()));
    assert_eq!(rt; sink.bytes(), TEXT);
    Ok(())
}

#[test]
fn over_std(rt: HostRuntime) -> Result<(), Fail> {
    let alloc = rt.alloc();
    for room in 1..14 {
        let mut source = StdSource::new(TEXT);
        let (bytes, failed) = drained(alloc, &mut source, room)?;
        assert_eq!(rt; bytes.as_slice(), TEXT, "room for {room}");
        assert_eq!(rt; failed, 0);
        assert_eq!(rt; source.faults(), 0);
        assert_eq!(rt; source.into_inner(), b"".as_slice());
    }
    let mut sink = StdSink::new(b"> ".to_vec(alloc)?);
    assert_eq!(rt; put_all(&mut sink, TEXT), Ok(()));
    assert_eq!(rt; sink.put(b""), Ok(0));
    assert_eq!(rt; sink.faults(), 0);
    assert_eq!(rt; sink.into_inner().as_slice(), b"> hello, world".as_slice());
    Ok(())
}

/// A reader whose every read fails.
#[derive(Drop)]
struct Broken;

impl Read for Broken {
    fn read(&mut self, _buf: &mut [u8]) -> io::Result<usize> {
        Err(io::Error::from(ErrorKind::Other))
    }
}

#[test]
fn faults_of_std(rt: HostRuntime) -> Result<(), Fail> {
    let mut source = StdSource::new(Broken);
    let mut buffer = [0; 4];
    assert_eq!(rt; source.take(&mut buffer), Err(SourceFailed));
    assert_eq!(rt; source.take(&mut buffer), Err(SourceFailed));
    assert_eq!(rt; source.faults(), 2);

    // The writer takes nothing once its three bytes are full.
    let mut sink = StdSink::new(Cursor::new([0; 3]));
    assert_eq!(rt; put_all(&mut sink, TEXT), Err(SinkFailed));
    assert_eq!(rt; sink.faults(), 1);
    assert_eq!(rt; sink.put(b"more"), Err(SinkFailed));
    assert_eq!(rt; sink.faults(), 2);
    assert_eq!(rt; sink.into_inner().into_inner(), *b"hel");
    Ok(())
}

#[test]
fn texts_of_faults(rt: HostRuntime) -> Result<(), Fail> {
    let alloc = rt.alloc();
    assert_eq!(rt;
        SourceFailed.to_string(alloc)?.as_str(),
        "the source failed"
    );
    assert_eq!(rt; SinkFailed.to_string(alloc)?.as_str(), "the sink failed");
    assert_eq!(rt; DoorFailed.to_string(alloc)?.as_str(), "the door failed");
    Ok(())
}

/// Both ends of a line: what comes in, and what goes out.
#[derive(Drop)]
struct Line {
    incoming: MemSource,
    outgoing: MemSink,
}

impl Ends for Line {
    ghost left = { λ line. Some line.incoming.left };

    ghost take_faults = { λ line. line.incoming.calls.faults };

    ghost written = { λ line. Some line.outgoing.written };

    ghost put_faults = { λ line. line.outgoing.calls.faults };
}

impl Source for Line {
    fn take(&mut self, into: &mut [u8]) -> Result<usize, SourceFailed> {
        self.incoming.take(into)
    }
}

impl Sink for Line {
    fn put(&mut self, bytes: &[u8]) -> Result<usize, SinkFailed> {
        self.outgoing.put(bytes)
    }
}

/// Takes from one end, and leaves the other as it was.
fn taken<C: Source + Sink>(both: &mut C, into: &mut [u8]) -> Result<usize, SourceFailed>
    ensures written { C.written both.new ≡ C.written both.old }
    ensures faults { C.put_faults both.new ≡ C.put_faults both.old }
{
    both.take(into)
}

/// Puts at one end, and leaves the other as it was.
fn answered<C: Source + Sink>(both: &mut C, bytes: &[u8]) -> Result<(), SinkFailed>
    ensures left { C.left both.new ≡ C.left both.old }
    ensures faults { C.take_faults both.new ≡ C.take_faults both.old }
{
    put_all(both, bytes)
}

#[test]
fn both_ends(rt: HostRuntime) -> Result<(), Fail> {
    let alloc = rt.alloc();
    let mut line = Line {
        incoming: MemSource::new(alloc, TEXT.to_vec(alloc)?),
        outgoing: MemSink::new(alloc).with_failing(vec![in alloc; 2]?),
    };
    let mut buffer = [0; 5];
    assert_eq!(rt; taken(&mut line, &mut buffer), Ok(5));
    assert_eq!(rt; buffer, *b"hello");
    assert_eq!(rt; answered(&mut line, b"welcome"), Ok(()));
    assert_eq!(rt; answered(&mut line, b"again"), Err(SinkFailed));
    assert_eq!(rt; taken(&mut line, &mut buffer), Ok(5));
    assert_eq!(rt; buffer, *b", wor");
    assert_eq!(rt; line.outgoing.bytes(), b"welcome".as_slice());
    assert_eq!(rt; line.outgoing.faults(), 1);
    assert_eq!(rt; line.incoming.faults(), 0);
    Ok(())
}
