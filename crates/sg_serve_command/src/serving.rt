//! `serve` over a door, a sink and a keeper.

ghost use Rattle.std.specs.Prelude.{◌≡◌};
ghost use Rattle.sg_connection.specs.Serving.{scene_at};
ghost use Rattle.sg_endings.specs.Ends.{Ends, Finishes};
ghost use Rattle.sg_serve_command.specs.Serves.{Serves, door_at, status_of_served, text_of_served};

use crate::opening::open_for;
use sg_api::serve_clients;
use sg_connection::Served;
use sg_endings::{finish, put_last};
use sg_keeper::Keeper;
use sg_outside::{Door, Sink};
use sg_text::Text;
use std::alloc::Global;

/// Serves at most so many connections of a door, one after another, and goes on however each of them ends. The answer is
/// the status:
/// - 0: so many connections went back, or no more come, and how many went back was written;
/// - 5: the sink failed, and nothing was written after that;
/// - 9: memory ran out, before any connection came;
/// - 12: the keeper failed before any connection came. While a message is answered that is a 503;
/// - 14: the door failed;
/// - 15: a row may not be kept: the key of the first one is written.
pub fn serve<N: Door, O: Sink, K: Keeper>(
    alloc: Global,
    operator: &[u8],
    connections: u32,
    out: &mut O,
    door: &mut N,
    keeper: &mut K,
) -> u8
    ensures { Ends (Serves K.view
        (λ conn state. scene_at (N.Conn.left conn) (N.Conn.take_faults conn) (N.Conn.written conn)
        (N.Conn.put_faults conn) state)
        operator.now connections
        (door_at (N.coming door.old) (N.back door.old) (N.ended door.old) (N.faults door.old))
        (door_at (N.coming door.new) (N.back door.new) (N.ended door.new) (N.faults door.new))
        keeper.old keeper.new)
        result (O.written out.old) (O.written out.new) (O.put_faults out.old) (O.put_faults out.new) }
{
    match open_for(alloc, operator, keeper) {
        Ok(server) => {
            let mut server = server;
            let served = serve_clients(alloc, connections, door, &mut server, keeper);
            tell(out, served)
        }
        Err(stop) => finish(out, stop),
    }
}

// Writes how the serving of a door ended.
fn tell<O: Sink>(out: &mut O, served: Served) -> u8
    ensures { Finishes (status_of_served served) (text_of_served served) result (O.written out.old)
        (O.written out.new) (O.put_faults out.old) (O.put_faults out.new) }
{
    match served {
        Served::Done(count) => {
            let text = served_text(count);
            put_last(out, 0, text.as_bytes())
        }
        Served::DoorFault(_) => put_last(out, 14, b"fault: door\n"),
    }
}

fn served_text(count: u32) -> Text
    ensures { result ≡ text_of_served (Served.Done count) }
{
    let mut text = Text::new();
    text.push(b"served ");
    text.push_number(u64::from(count));
    text.push(b"\n");
    text
}
