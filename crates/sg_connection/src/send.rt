//! Answers, as they are sent.

ghost use Rattle.std.specs.Prelude.{◌++◌, OnErr, OnOk};
ghost use Rattle.std.specs.Io.KnownBytes.{Appends};
ghost use Rattle.sg_base.specs.Causes.{HasCause};
ghost use Rattle.sg_http.specs.Texts.{IsAllow, IsStatus, reply_text};
ghost use Rattle.sg_outside.specs.Streams.{AppendsPart, IsApart};

use sg_http::{Form, ReplyHead, Verb};
use sg_outside::{Sink, SinkFailed, put_all};

/// Sends a reply: its head, which takes no memory, and then its body.
pub(crate) fn send<O: Sink>(
    out: &mut O,
    status: u16,
    form: Form,
    allow: Option<Verb>,
    body: &[u8],
    close: bool,
) -> Result<(), SinkFailed>
    requires status { IsStatus status }
    requires allow { IsAllow status allow }
    ensures ok { OnOk result (Appends (O.written out.old) (O.written out.new)
        (reply_text status form allow body.now close)) }
    ensures err { OnErr result (AppendsPart (O.written out.old) (O.written out.new)
        (reply_text status form allow body.now close)) }
    ensures cause { HasCause (O.put_faults out.old) (O.put_faults out.new) result }
    ensures apart { IsApart (O.left out.old) (O.left out.new)
        (O.take_faults out.old) (O.take_faults out.new) }
{
    let head = ReplyHead::new(status, form, allow, body.len() as u64, close);
    put_both(out, head.as_bytes(), body)
}

// Puts two texts, one after the other.
fn put_both<O: Sink>(out: &mut O, first: &[u8], second: &[u8]) -> Result<(), SinkFailed>
    ensures ok { OnOk result (Appends (O.written out.old) (O.written out.new)
        (first.now ++ second.now)) }
    ensures err { OnErr result (AppendsPart (O.written out.old) (O.written out.new)
        (first.now ++ second.now)) }
    ensures cause { HasCause (O.put_faults out.old) (O.put_faults out.new) result }
    ensures apart { IsApart (O.left out.old) (O.left out.new)
        (O.take_faults out.old) (O.take_faults out.new) }
{
    match put_all(out, first) {
        Ok(()) => put_all(out, second),
        Err(failed) => Err(failed),
    }
}
