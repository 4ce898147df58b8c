//! Doors at which three clients send a message each: how their serving ends, and what goes back.

use crate::counter::Counter;
use crate::tests::{GET, ONE, TWO};
use sg_connection::{Served, serve_door};
use sg_outside::{MemConn, MemDoor, MemSink, MemSource};
use std::alloc::{AllocError, Global};
use std::process::Abort;
use std::test::Fail;

fn client(alloc: Global) -> Result<MemConn, AllocError> {
    let incoming = MemSource::new(alloc, GET.as_bytes().to_vec(alloc)?);
    Ok(MemConn::new(incoming, MemSink::new(alloc)))
}

// Serves at most so many clients at a door of which this call fails.
fn serve(alloc: Global, limit: u32, failing: u64) -> Result<(Served, MemDoor), AllocError> {
    let coming = vec![in alloc; client(alloc)?, client(alloc)?, client(alloc)?]?;
    let mut door = MemDoor::new(alloc, coming).with_failing(vec![in alloc; failing]?);
    let served = serve_door(
        alloc,
        limit,
        &mut door,
        &mut Counter { count: 0 },
        &mut 0u64,
    );
    Ok((served, door))
}

// How many are to be served, the call that fails, how the serving ends, and how many connections go back. Odd calls take the next
// connection, even ones give it back.
type Row = (u32, u64, Served, usize);

const ROWS: [Row; 9] = [
    (0, 0, Served::Done(0), 0),
    (1, 0, Served::Done(1), 1),
    (3, 7, Served::Done(3), 3),
    (9, 0, Served::Done(3), 3),
    (9, 1, Served::DoorFault(0), 0),
    (9, 2, Served::DoorFault(0), 0),
    (9, 3, Served::DoorFault(1), 1),
    (9, 6, Served::DoorFault(2), 2),
    (9, 7, Served::DoorFault(3), 3),
];

fn each_ends(rt: &impl Abort, alloc: Global, rows: &[Row]) -> Result<(), Fail> {
    for (limit, failing, end, back) in rows {
        let (served, door) = serve(alloc, *limit, *failing)?;
        assert_eq!(rt; served, *end, "{limit} clients, call {failing}");
        assert_eq!(rt; door.back().len(), *back, "{limit} clients, call {failing}");
    }
    Ok(())
}

#[test]
fn each_call_of_a_door_failing(rt: HostRuntime) -> Result<(), Fail> {
    each_ends(&rt, rt.alloc(), &ROWS)
}

#[test]
fn a_connection_goes_on_from_the_state_of_the_one_before(rt: HostRuntime) -> Result<(), Fail> {
    let (_served, door) = serve(rt.alloc(), 2, 0)?;
    for (conn, reply) in door.back().iter().zip([ONE, TWO].iter()) {
        assert_eq!(rt; conn.outgoing().bytes(), reply.as_bytes());
    }
    assert_eq!(rt; door.back().len(), 2);
    Ok(())
}
