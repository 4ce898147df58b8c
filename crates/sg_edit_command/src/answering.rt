//! One line: its edit and its reply.

ghost use Rattle.std.specs.Prelude.{◌≡◌, ◌++◌, IfErr, IfOk, OnErr, OnOk, MatchOption, option_map};
ghost use Rattle.std.specs.Io.KnownBytes.{Appends};
ghost use Rattle.sg_base.specs.Causes.{HasCause};
ghost use Rattle.sg_edit_command.specs.Answering.{EndsAt, IsAnswered, IsDone, IsUnanswered};
ghost use Rattle.sg_edit_command.specs.Asking.{line_step, reply_text};
ghost use Rattle.sg_endings.specs.Ends.{Ends};
ghost use Rattle.sg_keeper.specs.View.{Same};
ghost use Rattle.sg_outside.specs.Streams.{AppendsPart};

use crate::saying::said_at;
use sg_edits::Cms;
use sg_endings::{Stop, WRITE_FAULT, finish};
use sg_keeper::Keeper;
use sg_outside::{Sink, SinkFailed, put_all};
use sg_records::Reply;
use sg_replies::reply_body;
use sg_steps::CmsFault;
use std::alloc::Global;

/// Answers a line and prints the reply. The status of the command, if it ends here.
pub(crate) fn answer_line<O: Sink, K: Keeper>(
    alloc: Global,
    line: &[u8],
    number: u64,
    cms: &mut Cms,
    out: &mut O,
    keeper: &mut K,
) -> Option<u8>
    ensures { MatchOption result
        (IsDone line.now cms.old cms.new (K.view keeper.old) (K.view keeper.new)
        (O.written out.old) (O.written out.new) (O.put_faults out.old) (O.put_faults out.new))
        (λ status. Ends (EndsAt line.now number cms.old (K.view keeper.old) (K.view keeper.new)) status
        (O.written out.old) (O.written out.new) (O.put_faults out.old) (O.put_faults out.new)) }
{
    match answer(alloc, line, number, cms, keeper) {
        Ok(Some(reply)) => match put_reply(out, reply) {
            Ok(()) => None,
            Err(_) => Some(WRITE_FAULT),
        },
        Ok(None) => None,
        Err(stop) => Some(finish(out, stop)),
    }
}

// Makes the edit of a line, if it isn't empty.
#[tactic(auto, unfolding(crate::specs::Asking::line_step))]
fn answer<K: Keeper>(
    alloc: Global,
    line: &[u8],
    number: u64,
    cms: &mut Cms,
    keeper: &mut K,
) -> Result<Option<Reply>, Stop>
    ensures answered { IfOk result (λ reply.
        IsAnswered line.now cms.old cms.new (K.view keeper.old) (K.view keeper.new)
        × (reply ≡ option_map (λ s. s.reply) (line_step cms.old line.now))) }
    ensures stop { IfErr result (λ stop. IsUnanswered stop number line.now (K.view keeper.old) (K.view keeper.new)) }
    ensures same { OnErr result (Same (K.view keeper.old) (K.view keeper.new)) }
{
    if line.is_empty() {
        return Ok(None);
    }
    match said_at(alloc, line, number) {
        Ok(said) => match cms.edit(keeper, said.client, said.seq, &said.edit) {
            Ok(reply) => Ok(Some(reply)),
            Err(CmsFault::Keeper) => Err(Stop::Keeper),
            Err(CmsFault::Memory) => Err(Stop::Memory),
        },
        Err(stop) => Err(stop),
    }
}

// Prints a reply as a line.
fn put_reply<O: Sink>(out: &mut O, reply: Reply) -> Result<(), SinkFailed>
    ensures ok { OnOk result (Appends (O.written out.old) (O.written out.new) (reply_text reply)) }
    ensures err { OnErr result (AppendsPart (O.written out.old) (O.written out.new) (reply_text reply)) }
    ensures cause { HasCause (O.put_faults out.old) (O.put_faults out.new) result }
{
    let body = reply_body(reply);
    match put_all(out, body.as_bytes()) {
        Ok(()) => put_all(out, b"\n"),
        Err(failed) => Err(failed),
    }
}
