// What came of an exchange.
ghost use Rattle.std.specs.Prelude.{◌≡◌, ◌≤◌, ℕ, List, length, option_map, IfSome, false};
ghost use Rattle.std.specs.declared.option.Option.TheVariants.{None, Some};
ghost use Rattle.sg_devices.specs.Blame.{CountsFault};
ghost use Rattle.sg_exchange.specs.Asking.{Hears};
ghost use Rattle.sg_exchange.specs.declared.heard.Wants.TheVariants.{Anything, Exactly};
ghost use Rattle.sg_exchange.specs.Heard.{ComesTo, HasAnyLength, IsCutBody, IsHeardWithin, IsPiece, head_refusal, is_link_fault, length_refusal, outcome_at, outcome_of};
ghost use Rattle.sg_http.specs.Messages.{IsSpanWithin, bytes_at};
ghost use Rattle.sg_http.specs.Replies.{Part};

use sg_devices::Link;
use sg_http::{ReplyRead, Span, read_reply};

/// The room that every reply has, in bytes: a manifest of the most bytes, and as much again as a piece for its head.
pub const REPLY_ROOM: usize = 1_114_112;

/// The length that the body of a reply is to have, in bytes.
#[derive(Clone, Copy, Debug, PartialEq, Eq)]
pub enum Wants {
    Anything,
    AtMost(u64),
    Exactly(u64),
}

/// What came of an exchange. The ranges are those of its bytes in the room for replies.
#[derive(Clone, Copy, Debug, PartialEq, Eq)]
pub enum Heard {
    /// A whole reply of status 200 with a length that is wanted: its body.
    Whole(Span),
    /// The link failed, and has counted it.
    LinkFault,
    /// What came is no reply that has one length.
    NotHttp,
    /// A reply that was cut. In its head, `got` are all bytes that came, and `length` is 0; in its body, which is one
    /// that is wanted, these are the bytes of it that came, and all that were to come.
    Cut { got: u64, length: u64, body: Span },
    /// A reply of another status than 200, whole or cut.
    Status(u16),
    /// A reply of status 200, whole or cut, whose body has a length that isn't wanted.
    Length { got: u64, expected: u64 },
}

// Makes one exchange, with all of the room.
pub(crate) fn ask<L: Link>(link: &mut L, request: &[u8], reply: &mut [u8], wants: Wants) -> Heard
    ensures heard { Hears (length reply.old) (L.told link.old) (L.told link.new) request.now wants
        (outcome_at reply.new result) }
    ensures within { IsHeardWithin (length reply.new) result }
    ensures len { length reply.new ≡ length reply.old }
    ensures cause { CountsFault (is_link_fault result) (L.faults link.old) (L.faults link.new) }
    ensures any { wants ≡ Anything → HasAnyLength result }
    ensures piece { (n : ℕ) → wants ≡ Exactly n → 1 ≤ n → IsPiece n result }
{
    match link.exchange(request, reply) {
        Ok(count) => judge(&reply[..count], wants),
        Err(_) => Heard::LinkFault,
    }
}

// What the bytes that came say.
fn judge(bytes: &[u8], wants: Wants) -> Heard
    ensures outcome { ComesTo wants (Some bytes.now) (outcome_at bytes.now result) }
    ensures within { IsHeardWithin (length bytes.now) result }
    ensures came { is_link_fault result ≡ false }
    ensures any { wants ≡ Anything → HasAnyLength result }
    ensures piece { (n : ℕ) → wants ≡ Exactly n → 1 ≤ n → IsPiece n result }
{
    match read_reply(bytes) {
        ReplyRead::NotHttp => Heard::NotHttp,
        ReplyRead::Whole { status, body } => {
            match head_refusal(wants, status, (body.to - body.from) as u64) {
                Some(refusal) => refusal,
                None => Heard::Whole(body),
            }
        }
        ReplyRead::Cut {
            status,
            got,
            length,
            body,
        } => judge_cut(wants, status, got, length, body),
    }
}

// What a reply that was cut says.
fn judge_cut(wants: Wants, status: u16, got: u64, length: u64, body: Span) -> Heard
    ensures outcome { (bytes : List ℕ) → outcome_at bytes result
        ≡ outcome_of wants (Part status got length (bytes_at bytes body)) }
    ensures within { (n : ℕ) → IsSpanWithin n body → IsHeardWithin n result }
    ensures came { is_link_fault result ≡ false }
    ensures any { wants ≡ Anything → HasAnyLength result }
    ensures piece { (n : ℕ) → wants ≡ Exactly n → 1 ≤ n → IsCutBody got length body
        → IsPiece n result }
{
    if length == 0 {
        return Heard::Cut { got, length, body };
    }
    match head_refusal(wants, status, length) {
        Some(refusal) => refusal,
        None => Heard::Cut { got, length, body },
    }
}

// Why a reply is refused by its head, if it is.
fn head_refusal(wants: Wants, status: u16, length: u64) -> Option<Heard>
    ensures outcome { (bytes : List ℕ) → option_map (outcome_at bytes) result
        ≡ head_refusal wants status length }
    ensures apart { IfSome result (λ h. (n : ℕ) → IsHeardWithin n h × (is_link_fault h ≡ false)) }
    ensures any { wants ≡ Anything → IfSome result HasAnyLength }
    ensures piece { IfSome result (λ h. (n : ℕ) → IsPiece n h) }
{
    if status == 200 {
        length_refusal(wants, length)
    } else {
        Some(Heard::Status(status))
    }
}

fn length_refusal(wants: Wants, length: u64) -> Option<Heard>
    ensures outcome { (bytes : List ℕ) → option_map (outcome_at bytes) result
        ≡ length_refusal wants length }
    ensures apart { IfSome result (λ h. (n : ℕ) → IsHeardWithin n h × (is_link_fault h ≡ false)) }
    ensures any { wants ≡ Anything → result ≡ None }
    ensures piece { IfSome result (λ h. (n : ℕ) → IsPiece n h) }
{
    let expected = match wants {
        Wants::Anything => return None,
        Wants::AtMost(most) if length <= most => return None,
        Wants::AtMost(most) => most,
        Wants::Exactly(wanted) if length == wanted => return None,
        Wants::Exactly(wanted) => wanted,
    };
    Some(Heard::Length {
        got: length,
        expected,
    })
}
