//! The connections of a door.

ghost use Rattle.sg_connection.specs.Exchanges.{in_pairs};
ghost use Rattle.sg_connection.specs.Serving.{scene_at};
ghost use Rattle.sg_connection.specs.Visits.{ServesDoor};

use crate::answer::Answerer;
use crate::serve::serve_connection;
use sg_outside::Door;
use std::alloc::Global;

/// How the serving of a door ended, after so many connections that went back.
#[derive(Clone, Copy, Debug, PartialEq, Eq)]
pub enum Served {
    /// These were all that were to be served, or no more come.
    Done(u32),
    /// The door failed.
    DoorFault(u32),
}

/// Serves at most so many connections of a door, one after another, and goes on however each of them ends.
pub fn serve_door<N: Door, K, A: Answerer<K>>(
    alloc: Global,
    limit: u32,
    door: &mut N,
    server: &mut A,
    keeper: &mut K,
) -> Served
    ensures { ServesDoor (in_pairs A.answers)
        (λ conn state. scene_at (N.Conn.left conn) (N.Conn.take_faults conn) (N.Conn.written conn) (N.Conn.put_faults conn) state)
        (server.old, keeper.old) (server.new, keeper.new)
        (N.coming door.old) (N.coming door.new) (N.back door.old) (N.back door.new)
        limit (N.ended door.new) (N.faults door.old) (N.faults door.new) result }
{
    for served in 0..limit {
        let mut conn = match door.next() {
            Ok(Some(conn)) => conn,
            Ok(None) => return Served::Done(served),
            Err(_) => return Served::DoorFault(served),
        };
        let _end = serve_connection(alloc, &mut conn, server, keeper);
        match door.done(conn) {
            Ok(()) => {}
            Err(_) => return Served::DoorFault(served),
        }
    }
    Served::Done(limit)
}
