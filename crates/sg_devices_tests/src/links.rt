// Links: answers from a list, and exchanges over a real socket with a server that is played here, on one thread.
use sg_base::Rows;
use sg_devices::{Link, LinkFailed, MemLink, TcpLink};
use sg_outside::{Door, Sink, Source, TcpConn, TcpDoor, put_all};
use std::alloc::{AllocError, Global};
use std::net::TcpStream;
use std::test::Fail;

/// A link whose two answers are `first` and `second!`.
fn with_two(alloc: Global) -> Result<MemLink, AllocError> {
    let mut answers = Vec::new(alloc);
    answers.push(Rows::from_vec(b"first".to_vec(alloc)?))?;
    answers.push(Rows::from_vec(b"second!".to_vec(alloc)?))?;
    Ok(MemLink::new(alloc, answers))
}

#[test]
fn answers_come_in_their_order_as_far_as_there_is_room(rt: HostRuntime) -> Result<(), Fail> {
    let alloc = rt.alloc();
    let mut link = with_two(alloc)?;
    let mut reply = [b'.'; 6];
    assert_eq!(rt; link.exchange(b"one", &mut reply), Ok(5));
    assert_eq!(rt; reply, *b"first.");
    assert_eq!(rt; link.exchange(b"two", &mut reply), Ok(6));
    assert_eq!(rt; reply, *b"second");
    assert_eq!(rt; link.exchange(b"", &mut reply), Err(LinkFailed));
    assert_eq!(rt; link.faults(), 1);
    let Some(told) = link.told() else {
        return Err(Fail::new("nothing is told"));
    };
    // Each request, and what came of it.
    let rows: [(&[u8], Option<&[u8]>); 3] = [
        (b"one", Some(b"first")),
        (b"two", Some(b"second")),
        (b"", None),
    ];
    assert_eq!(rt; told.len(), rows.len());
    for (exchange, (request, answer)) in told.iter().zip(rows.iter()) {
        assert_eq!(rt; exchange.request.as_slice(), *request);
        assert_eq!(rt; exchange.room, 6);
        assert!(rt; exchange.note.is_empty());
        match (&exchange.answer, answer) {
            (Some(came), Some(answer)) => assert_eq!(rt; came.as_slice(), *answer),
            (came, answer) => assert!(rt; came.is_none() && answer.is_none()),
        }
    }
    Ok(())
}

#[test]
fn an_exchange_that_fails_is_told_and_loses_no_answer(rt: HostRuntime) -> Result<(), Fail> {
    let alloc = rt.alloc();
    let mut link = with_two(alloc)?.with_failing(vec![in alloc; 1]?);
    let mut reply = [0; 9];
    assert_eq!(rt; link.exchange(b"one", &mut reply), Err(LinkFailed));
    assert_eq!(rt; link.exchange(b"one", &mut reply), Ok(5));
    assert_eq!(rt; link.exchange(b"two", &mut reply), Ok(7));
    assert_eq!(rt; link.faults(), 1);
    assert_eq!(rt; link.told().map(|told| told.len()), Some(3));
    assert_eq!(rt; LinkFailed.to_string(alloc)?.as_str(), "the link failed");
    Ok(())
}

/// A door at a free port of this machine, and a link to it that waits for a second at most.
fn joined(rt: &HostRuntime) -> Result<(TcpDoor<HostRuntime>, TcpLink<HostRuntime>), Fail> {
    let alloc = rt.alloc();
    let mut door = TcpDoor::new(rt.clone()?, String::from_str(alloc, "127.0.0.1:0")?);
    door.listen()?;
    let Some(port) = door.port() else {
        return Err(Fail::new("no port"));
    };
    let address = format!(in alloc; "127.0.0.1:{port}")?;
    Ok((door, TcpLink::new(rt.clone()?, address).with_wait(1)))
}

/// The next connection of a door, after its request of seven bytes was taken.
fn asked(rt: &HostRuntime, door: &mut TcpDoor<HostRuntime>) -> Result<TcpConn<TcpStream>, Fail> {
    let Some(mut conn) = door.next()? else {
        return Err(Fail::new("the door ended"));
    };
    let mut request = [0; 7];
    let count = conn.take(&mut request)?;
    if count == 7 && request == *b"request" {
        Ok(conn)
    } else {
        Err(Fail::new("another request"))
    }
}

#[test]
fn an_exchange_over_a_socket(rt: HostRuntime) -> Result<(), Fail> {
    let (mut door, mut link) = joined(&rt)?;
    // The reply in two pieces, the room for it, and what comes.
    let rows: [(&[u8], &[u8], usize, &[u8]); 3] = [
        (b"a re", b"ply", 9, b"a reply"),
        (b"a re", b"ply", 6, b"a repl"),
        (b"", b"", 9, b""),
    ];
    for (first, second, room, came) in rows {
        link.begin(b"request")?;
        let mut conn = asked(&rt, &mut door)?;
        put_all(&mut conn, first)?;
        put_all(&mut conn, second)?;
        door.done(conn)?;
        let mut reply = vec![in rt.alloc(); 0; room]?;
        let count = link.finish(reply.as_mut_slice())?;
        assert_eq!(rt; reply.get(..count), Some(came));
    }
    assert_eq!(rt; link.faults(), 0);
    Ok(())
}

#[test]
fn a_server_that_stalls_ends_the_exchange(rt: HostRuntime) -> Result<(), Fail> {
    let (mut door, mut link) = joined(&rt)?;
    let mut reply = [0; 9];
    link.begin(b"request")?;
    let silent = asked(&rt, &mut door)?;
    assert_eq!(rt; link.finish(&mut reply), Err(LinkFailed));
    assert_eq!(rt; link.faults(), 1);
    door.done(silent)?;
    link.begin(b"request")?;
    let mut slow = asked(&rt, &mut door)?;
    put_all(&mut slow, b"half")?;
    assert_eq!(rt; link.finish(&mut reply), Ok(4));
    assert_eq!(rt; reply, *b"half\0\0\0\0\0");
    assert_eq!(rt; link.faults(), 1);
    door.done(slow)?;
    Ok(())
}

#[test]
fn a_server_that_is_not_there_is_a_fault(rt: HostRuntime) -> Result<(), Fail> {
    let (door, mut link) = joined(&rt)?;
    drop(door);
    assert_eq!(rt; link.exchange(b"request", &mut [0; 9]), Err(LinkFailed));
    assert_eq!(rt; link.finish(&mut [0; 9]), Err(LinkFailed), "none was begun");
    let mut nowhere = TcpLink::new(rt.clone()?, String::from_str(rt.alloc(), "no address")?);
    assert_eq!(rt; nowhere.exchange(b"request", &mut [0; 9]), Err(LinkFailed));
    assert_eq!(rt; link.faults(), 2);
    assert_eq!(rt; nowhere.faults(), 1);
    Ok(())
}
