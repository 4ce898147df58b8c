//! Replies to edits.

ghost use Rattle.std.specs.Prelude.{◌≡◌, ◌+◌, ◌≤◌, ◌++◌, codes, decimal, length};
ghost use Rattle.sg_base.specs.Names.{kind_name};
ghost use Rattle.sg_records.specs.Replies.{fault_name};
ghost use Rattle.sg_replies.specs.Bodies.{reply_body};
ghost use Rattle.sg_text.specs.declared.text.TheConstants.{TEXT_ROOM};

use crate::parts::{number, number_between, text_between};
use sg_base::Kind;
use sg_records::{FaultName, Reply};
use sg_text::Text;

/// The body of the reply to an edit.
pub fn reply_body(reply: Reply) -> Text
    ensures { result ≡ reply_body reply }
{
    match reply {
        Reply::Done(seq) => number(b"{\"done\":", seq, b"}"),
        Reply::Unknown { kind, id } => row_text(kind, id, b"\",\"refused\":\"Unknown\"}"),
        Reply::Exists { kind, id } => row_text(kind, id, b"\",\"refused\":\"Exists\"}"),
        Reply::InUse {
            kind,
            id,
            by_kind,
            by_id,
        } => in_use_text(kind, id, by_kind, by_id),
        Reply::Full { kind, limit } => full_text(kind, limit),
        Reply::Sequence { expected } => {
            number(b"{\"expected\":", expected, b",\"refused\":\"Sequence\"}")
        }
        Reply::Invalid(fault) => invalid_text(fault),
    }
}

// Adds a kind's name and what follows it.
fn push_kind(text: &mut Text, kind: Kind, after: &[u8])
    requires { length text.old + length after.now + 8 ≤ TEXT_ROOM }
    ensures text { text.new ≡ text.old ++ (kind_name kind ++ after.now) }
    ensures room { length text.new ≤ length text.old + length after.now + 8 }
{
    text.push(kind_bytes(kind));
    text.push(after);
}

fn kind_bytes(kind: Kind) -> &'static [u8]
    ensures name { result.now ≡ kind_name kind }
    ensures short { length result.now ≤ 8 }
{
    match kind {
        Kind::Media => b"media",
        Kind::Layout => b"layout",
        Kind::Campaign => b"campaign",
        Kind::Daypart => b"daypart",
        Kind::Group => b"group",
        Kind::Display => b"display",
        Kind::Event => b"event",
        Kind::Client => b"client",
    }
}

// A row and what follows it.
fn row_text(kind: Kind, id: u32, after: &[u8]) -> Text
    requires { length after.now ≤ 60 }
    ensures { result ≡ codes "{\"id\":" ++ (decimal id ++ (codes ",\"kind\":\"" ++ (kind_name kind ++ after.now))) }
{
    let mut text = number_between(b"{\"id\":", u64::from(id), b",\"kind\":\"");
    push_kind(&mut text, kind, after);
    text
}

fn in_use_text(kind: Kind, id: u32, by_kind: Kind, by_id: u32) -> Text
    ensures { result ≡ codes "{\"by\":{\"id\":" ++ (decimal by_id ++ (codes ",\"kind\":\"" ++ (kind_name by_kind
        ++ (codes "\"},\"id\":" ++ (decimal id ++ (codes ",\"kind\":\"" ++ (kind_name kind ++ codes "\",\"refused\":\"InUse\"}"))))))) }
{
    let mut text = number_between(b"{\"by\":{\"id\":", u64::from(by_id), b",\"kind\":\"");
    push_kind(&mut text, by_kind, b"\"},\"id\":");
    text.push_number(u64::from(id));
    text.push(b",\"kind\":\"");
    push_kind(&mut text, kind, b"\",\"refused\":\"InUse\"}");
    text
}

fn full_text(kind: Kind, limit: u32) -> Text
    ensures { result ≡ codes "{\"kind\":\"" ++ (kind_name kind ++ (codes "\",\"limit\":" ++ (decimal limit ++ codes ",\"refused\":\"Full\"}"))) }
{
    let mut text = Text::new();
    text.push(b"{\"kind\":\"");
    push_kind(&mut text, kind, b"\",\"limit\":");
    text.push_number(u64::from(limit));
    text.push(b",\"refused\":\"Full\"}");
    text
}

fn invalid_text(fault: FaultName) -> Text
    ensures { result ≡ codes "{\"fault\":\"" ++ (fault_name fault ++ codes "\",\"refused\":\"Invalid\"}") }
{
    text_between(
        b"{\"fault\":\"",
        fault.name().as_bytes(),
        b"\",\"refused\":\"Invalid\"}",
    )
}
