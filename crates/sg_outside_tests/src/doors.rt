// Doors and connections, in memory and over real sockets. Each test plays the client too, on one thread: what a client
// sends waits in the system until the door takes it.
ghost use Rattle.std.specs.Prelude.{◌<◌};

use sg_outside::{
    Door, DoorFailed, MemConn, MemDoor, MemSink, MemSource, Sink, SinkFailed, Source, SourceFailed,
    TcpConn, TcpDoor, put_all,
};
use std::alloc::{AllocError, Global};
use std::io;
use std::io::{Read, Write};
use std::net::TcpStream;
use std::test::Fail;

/// A connection whose client sends these bytes.
fn sending(alloc: Global, bytes: &[u8]) -> Result<MemConn, AllocError> {
    let incoming = MemSource::new(alloc, bytes.to_vec(alloc)?);
    Ok(MemConn::new(incoming, MemSink::new(alloc)))
}

/// A door at which `one` and `two` are sent, and whose calls of these numbers fail.
fn with_two(alloc: Global, failing: Vec<u64>) -> Result<MemDoor, AllocError> {
    let coming = vec![in alloc; sending(alloc, b"one")?, sending(alloc, b"two")?]?;
    Ok(MemDoor::new(alloc, coming).with_failing(failing))
}

/// Takes at most eight bytes, and puts them back.
fn echo<C: Source + Sink>(conn: &mut C) -> bool {
    let mut buffer = [0; 8];
    match conn.take(&mut buffer) {
        Ok(count) => put_all(conn, &buffer[..count]).is_ok(),
        Err(_) => false,
    }
}

/// Serves the connections that come, until no more do, in at most ten calls. Says how many were served, and how many
/// calls of the door failed.
fn served<D: Door>(door: &mut D) -> (u32, u32) {
    let mut count = 0u32;
    let mut failed = 0u32;
    for _ in 0..10 {
        match door.next() {
            Ok(None) => break,
            Ok(Some(mut conn)) => {
                let _answered = echo(&mut conn);
                match door.done(conn) {
                    Ok(()) => count = count.saturating_add(1),
                    Err(DoorFailed) => failed = failed.saturating_add(1),
                }
            }
            Err(DoorFailed) => failed = failed.saturating_add(1),
        }
    }
    (count, failed)
}

#[test]
fn connections_go_back_in_their_order_as_they_were_left(rt: HostRuntime) -> Result<(), Fail> {
    let alloc = rt.alloc();
    let mut door = with_two(alloc, Vec::new(alloc))?;
    assert_eq!(rt; served(&mut door), (2, 0));
    assert!(rt; door.next()?.is_none(), "it stays at its end");
    assert_eq!(rt; door.faults(), 0);
    for (conn, sent) in door.back().iter().zip([b"one", b"two"].iter()) {
        assert_eq!(rt; conn.outgoing().bytes(), sent.as_slice());
        assert_eq!(rt; conn.incoming().faults(), 0);
        assert_eq!(rt; conn.outgoing().faults(), 0);
    }
    assert_eq!(rt; door.back().len(), 2);
    Ok(())
}

#[test]
fn each_call_of_a_door_failing(rt: HostRuntime) -> Result<(), Fail> {
    let alloc = rt.alloc();
    // The call that fails, the connections that went back, and the text that the first of them got. Calls 1, 3 and 5 are
    // `next`, and lose nothing; 2 and 4 are `done`, and lose their connection.
    let rows: [(u64, u32, &[u8]); 6] = [
        (1, 2, b"one"),
        (2, 1, b"two"),
        (3, 2, b"one"),
        (4, 1, b"one"),
        (5, 2, b"one"),
        (6, 2, b"one"),
    ];
    for (call, back, first) in rows {
        let mut door = with_two(alloc, vec![in alloc; call]?)?;
        let failed = if call < 6 { 1 } else { 0 };
        assert_eq!(rt; served(&mut door), (back, failed), "call {call} fails");
        assert_eq!(rt; door.faults(), u64::from(failed), "call {call} fails");
        assert_eq!(rt;
            door.back().len() as u64,
            u64::from(back),
            "call {call} fails"
        );
        if let Some(conn) = door.back().first() {
            assert_eq!(rt; conn.outgoing().bytes(), first, "call {call} fails");
        }
    }
    Ok(())
}

#[test]
fn the_ends_of_a_connection_fail_apart(rt: HostRuntime) -> Result<(), Fail> {
    let alloc = rt.alloc();
    let incoming = MemSource::new(alloc, b"hello".to_vec(alloc)?).with_failing(vec![in alloc; 1]?);
    let outgoing = MemSink::new(alloc).with_failing(vec![in alloc; 2]?);
    let mut conn = MemConn::new(incoming, outgoing);
    let mut buffer = [0; 3];
    assert_eq!(rt; conn.take(&mut buffer), Err(SourceFailed));
    assert_eq!(rt; conn.take(&mut buffer), Ok(3));
    assert_eq!(rt; buffer, *b"hel");
    assert_eq!(rt; conn.put(b"lo"), Ok(2));
    assert_eq!(rt; conn.put(b"!"), Err(SinkFailed));
    assert_eq!(rt; conn.outgoing().bytes(), b"lo".as_slice());
    assert_eq!(rt; conn.incoming().faults(), 1);
    assert_eq!(rt; conn.outgoing().faults(), 1);
    Ok(())
}

/// A door at a free port of this machine, which is bound, and its address.
fn bound(rt: &HostRuntime, stall: u32) -> Result<(TcpDoor<HostRuntime>, String), Fail>
    requires { 0 < stall }
{
    let alloc = rt.alloc();
    let mut door = TcpDoor::new(rt.clone()?, String::from_str(alloc, "127.0.0.1:0")?).with_stall(
        stall,
    );
    door.listen()?;
    match door.port() {
        Some(port) => Ok((door, format!(in alloc; "127.0.0.1:{port}")?)),
        None => Err(Fail::new("no port")),
    }
}

/// The next connection of a door, which is there.
fn accepted(door: &mut TcpDoor<HostRuntime>) -> Result<TcpConn<TcpStream>, Fail> {
    match door.next()? {
        Some(conn) => Ok(conn),
        None => Err(Fail::new("the door ended")),
    }
}

/// All that comes over a stream until its end.
fn read_all(alloc: Global, stream: &mut TcpStream) -> io::Result<Vec<u8>> {
    let mut bytes = Vec::new(alloc);
    stream.read_to_end(&mut bytes)?;
    Ok(bytes)
}

#[test]
fn clients_of_a_port_are_served_in_turn(rt: HostRuntime) -> Result<(), Fail> {
    let alloc = rt.alloc();
    let (mut door, address) = bound(&rt, 30)?;
    let mut first = TcpStream::connect(&rt, address.as_str())?;
    let mut second = TcpStream::connect(&rt, address.as_str())?;
    first.write_all(b"first")?;
    second.write_all(b"second")?;
    for _ in 0..2 {
        let mut conn = accepted(&mut door)?;
        assert!(rt; echo(&mut conn));
        door.done(conn)?;
    }
    // Handing a connection back closes it, so the reply ends.
    assert_eq!(rt;
        read_all(alloc, &mut first)?.as_slice(),
        b"first".as_slice()
    );
    assert_eq!(rt;
        read_all(alloc, &mut second)?.as_slice(),
        b"second".as_slice()
    );
    assert_eq!(rt; door.faults(), 0);
    Ok(())
}

#[test]
fn a_client_that_stalls_is_a_fault_of_its_connection_alone(rt: HostRuntime) -> Result<(), Fail> {
    let alloc = rt.alloc();
    let (mut door, address) = bound(&rt, 1)?;
    let silent = TcpStream::connect(&rt, address.as_str())?;
    let mut next = TcpStream::connect(&rt, address.as_str())?;
    next.write_all(b"next")?;
    let mut conn = accepted(&mut door)?;
    assert_eq!(rt; conn.take(&mut [0; 8]), Err(SourceFailed));
    door.done(conn)?;
    let mut conn = accepted(&mut door)?;
    assert!(rt; echo(&mut conn));
    door.done(conn)?;
    assert_eq!(rt; read_all(alloc, &mut next)?.as_slice(), b"next".as_slice());
    assert_eq!(rt; door.faults(), 0);
    drop(silent);
    Ok(())
}

#[test]
fn a_client_that_does_not_read_is_a_fault_of_its_connection_alone(
    rt: HostRuntime,
) -> Result<(), Fail> {
    let alloc = rt.alloc();
    let (mut door, address) = bound(&rt, 1)?;
    let deaf = TcpStream::connect(&rt, address.as_str())?;
    let mut conn = accepted(&mut door)?;
    // More than the buffers of the system take.
    let many = vec![in alloc; 7; 33_554_432]?;
    assert_eq!(rt; put_all(&mut conn, many.as_slice()), Err(SinkFailed));
    door.done(conn)?;
    drop(deaf);
    assert_eq!(rt; door.faults(), 0);
    Ok(())
}

#[test]
fn a_port_that_is_taken_is_a_fault_of_the_door(rt: HostRuntime) -> Result<(), Fail> {
    let (door, address) = bound(&rt, 30)?;
    let mut other = TcpDoor::new(rt.clone()?, address);
    assert_eq!(rt; other.listen(), Err(DoorFailed));
    assert!(rt; other.next().is_err());
    assert!(rt; other.port().is_none());
    assert_eq!(rt; other.faults(), 2);
    assert_eq!(rt; door.faults(), 0);
    Ok(())
}
