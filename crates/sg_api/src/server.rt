//! The server, as it answers.

ghost use Rattle.std.specs.Prelude.{◌≡◌, ℕ};
ghost use Rattle.sg_answers.specs.Answers.{Answers};
ghost use Rattle.sg_answers.specs.Outcomes.{IsTellable};
ghost use Rattle.sg_api.specs.Rule.{Answered, AnsweredBy};
ghost use Rattle.sg_api.specs.Folds.{History};
ghost use Rattle.sg_connection.specs.Exchanges.{in_pairs};
ghost use Rattle.sg_connection.specs.Serving.{scene_at};
ghost use Rattle.sg_connection.specs.Visits.{ServesDoor};
ghost use Rattle.sg_http.specs.Messages.{Request, Whole, seen};

use crate::message::{answer_parts, part, part_if};
use sg_answers::{Outcome, refused};
use sg_base::Rows;
use sg_connection::{Answer, Answerer, Served, serve_door};
use sg_edits::Cms;
use sg_http::Next;
use sg_keeper::Keeper;
use sg_outside::Door;
use sg_replies::Refusal;
use std::alloc::Global;

/// Who may ask what is no display's.
#[derive(Drop)]
pub struct Gate {
    /// The operator's key.
    pub operator: Rows<u8>,
}

/// The server's records, and who may ask for them.
#[derive(Drop)]
pub struct Server {
    pub cms: Cms,
    pub gate: Gate,
}

impl<K: Keeper> Answerer<K> for Server {
    ghost use Rattle.sg_api.specs.Rule.{Answered};

    ghost answers = { λ s k m answer t l. Answered K.view s k m answer t l };

    fn answer(&mut self, alloc: Global, keeper: &mut K, stream: &[u8], message: &Next) -> Answer {
        self.outcome(alloc, keeper, stream, message).into_answer()
    }
}

impl Server {
    // What a message of a stream comes to.
    fn outcome<K: Keeper>(
        &mut self,
        alloc: Global,
        keeper: &mut K,
        stream: &[u8],
        message: &Next,
    ) -> Outcome
        ensures answered { (m : Request) (used : ℕ) → seen stream.now message.now ≡ Whole m used
            → AnsweredBy K.view self.old keeper.old m result self.new keeper.new }
        ensures tellable { IsTellable result }
    {
        match message {
            Next::Message {
                method,
                target,
                key,
                body,
                ..
            } => {
                answer_parts(
                    alloc,
                    &mut self.cms,
                    self.gate.operator.as_slice(),
                    keeper,
                    *method,
                    part(stream, *target),
                    part_if(stream, *key),
                    part(stream, *body),
                )
            }
            Next::NeedMore => refused(Refusal::Body),
            Next::Refused(_) => refused(Refusal::Body),
        }
    }
}

/// Serves at most so many connections of a door, one after another, and goes on however each of them ends.
pub fn serve_clients<N: Door, K: Keeper>(
    alloc: Global,
    limit: u32,
    door: &mut N,
    server: &mut Server,
    keeper: &mut K,
) -> Served
    ensures served { ServesDoor (in_pairs (Answered K.view))
        (λ conn state. scene_at (N.Conn.left conn) (N.Conn.take_faults conn) (N.Conn.written conn)
        (N.Conn.put_faults conn) state)
        (server.old, keeper.old) (server.new, keeper.new)
        (N.coming door.old) (N.coming door.new) (N.back door.old) (N.back door.new)
        limit (N.ended door.new) (N.faults door.old) (N.faults door.new) result }

    // All messages of all connections, in their order, and what they leave.
    ensures history { History K.view server.old keeper.old server.new keeper.new }
{
    serve_door(alloc, limit, door, server, keeper)
}
