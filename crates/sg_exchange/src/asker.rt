// A player as its server knows it, and what it asks.
ghost use Rattle.std.specs.Prelude.{◌≡◌, ◌-◌, ◌≤◌, IfOk, OnErr, length, option_copied};
ghost use Rattle.sg_base.specs.declared.limits.TheConstants.{MANIFEST_TEXT};
ghost use Rattle.sg_exchange.specs.declared.heard.Wants.TheVariants.{Anything, AtMost, Exactly};
ghost use Rattle.sg_devices.specs.Blame.{CountsFault};
ghost use Rattle.sg_exchange.specs.Asking.{Hears};
ghost use Rattle.sg_exchange.specs.Ends.{BatchEnds, EnrolEnds, is_batch_link_fault, is_enrol_link_fault};
ghost use Rattle.sg_exchange.specs.Heard.{HasAnyLength, IsHeardWithin, IsPiece, Outcome, is_link_fault, outcome_at};
ghost use Rattle.sg_exchange.specs.Requests.{batch_request, display_path, enrol_request, manifest_request, piece_request};
ghost use Rattle.sg_http.specs.Messages.{IsSpanWithin, bytes_at};
ghost use Rattle.sg_http.specs.Texts.{IsBodyOf, request_text};

use crate::ends::{BatchCause, BatchEnd, EnrolCause, EnrolEnd};
use crate::heard::{Heard, REPLY_ROOM, Wants, ask};
use crate::named::number_named;
use crate::requests::{batch_text, display_path, piece_part};
use sg_base::limits::{MANIFEST_TEXT, MAX_EPOCH};
use sg_base::{MediaId, PlayBody};
use sg_devices::Link;
use sg_http::{Span, Verb, request_bytes};
use std::alloc::{AllocError, Global};
use std::marker::Model;

/// A display with its key, and the room for the replies of its server. Each exchange gets the whole room.
///
/// A call that answers `Err` has found no memory for its request, and has made no exchange.
#[derive(Drop)]
pub struct Asker {
    alloc: Global,
    display: u32,
    key: Vec<u8>,
    reply: Vec<u8>,
}

impl Model for Asker {
    ghost use Rattle.std.specs.Prelude.{◌≡◌, length};
    ghost use Rattle.sg_exchange.specs.Asking.{Caller};
    ghost use Rattle.sg_exchange.specs.declared.heard.TheConstants.{REPLY_ROOM};

    ghost Value = { Caller };

    ghost view = { λ a. record { display = a.display; key = a.key.items; reply = a.reply.items } };

    ghost invariant = { λ a. length a.reply.items ≡ REPLY_ROOM };
}

impl Asker {
    /// A display of this number with this key. It takes the room for replies.
    pub fn new(alloc: Global, display: u32, key: &[u8]) -> Result<Asker, AllocError>
        ensures display { IfOk result (λ asker. asker.display ≡ display) }
        ensures key { IfOk result (λ asker. asker.key ≡ key.now) }
    {
        let key = Vec::from_slice(alloc, key)?;
        let reply = vec![in alloc; 0u8; REPLY_ROOM]?;
        Ok(Asker {
            alloc,
            display,
            key,
            reply,
        })
    }

    /// The bytes of a range of the room, as the last exchange left them.
    pub fn bytes(&self, span: Span) -> &[u8]
        requires { IsSpanWithin REPLY_ROOM span }
        ensures bytes { result.now ≡ bytes_at self.now.reply span }
        ensures len { length result.now ≡ span.to - span.from }
    {
        &self.reply[span.from..span.to]
    }

    /// Asks for the display's manifest, of which no more bytes are wanted than one may have.
    pub fn manifest<L: Link>(&mut self, link: &mut L) -> Result<Heard, AllocError>
        ensures heard { IfOk result (λ heard. Hears REPLY_ROOM (L.told link.old) (L.told link.new)
            (manifest_request self.old.display self.old.key) (AtMost MANIFEST_TEXT)
            (outcome_at self.new.reply heard)) }
        ensures within { IfOk result (IsHeardWithin REPLY_ROOM) }
        ensures cause { IfOk result (λ heard.
            CountsFault (is_link_fault heard) (L.faults link.old) (L.faults link.new)) }
        ensures kept { self.new ≡ record self.old { reply = self.new.reply } }
        ensures err { OnErr result (link.new ≡ link.old) }
    {
        let request = self.request(Verb::Get, b"/manifest", None)?;
        Ok(ask(
            link,
            request.as_slice(),
            self.reply.as_mut_slice(),
            Wants::AtMost(MANIFEST_TEXT),
        ))
    }

    /// Asks for the bytes of a medium from an offset on, of which exactly `count` are wanted.
    pub fn piece<L: Link>(
        &mut self,
        link: &mut L,
        media: MediaId,
        offset: u32,
        count: u32,
    ) -> Result<Heard, AllocError>
        ensures heard { IfOk result (λ heard. Hears REPLY_ROOM (L.told link.old) (L.told link.new)
            (piece_request self.old.display self.old.key media.0 offset) (Exactly count)
            (outcome_at self.new.reply heard)) }
        ensures within { IfOk result (IsHeardWithin REPLY_ROOM) }
        ensures piece { 1 ≤ count → IfOk result (IsPiece count) }
        ensures cause { IfOk result (λ heard.
            CountsFault (is_link_fault heard) (L.faults link.old) (L.faults link.new)) }
        ensures kept { self.new ≡ record self.old { reply = self.new.reply } }
        ensures err { OnErr result (link.new ≡ link.old) }
    {
        let request = self.piece_request(media, offset)?;
        Ok(self.ask_piece(link, request.as_slice(), count))
    }

    /// The request for the bytes of a medium from an offset on. Made before, it leaves nothing to be made in the exchange.
    pub fn piece_request(&self, media: MediaId, offset: u32) -> Result<Vec<u8>, AllocError>
        ensures { IfOk result (λ text. text.items
            ≡ piece_request self.now.display self.now.key media.0 offset) }
    {
        let part = piece_part(self.alloc, media, offset)?;
        self.request(Verb::Get, part.as_slice(), None)
    }

    /// Sends a request for a piece of exactly `count` bytes, and takes no memory.
    pub fn ask_piece<L: Link>(&mut self, link: &mut L, request: &[u8], count: u32) -> Heard
        ensures heard { Hears REPLY_ROOM (L.told link.old) (L.told link.new) request.now
            (Exactly count) (outcome_at self.new.reply result) }
        ensures within { IsHeardWithin REPLY_ROOM result }
        ensures piece { 1 ≤ count → IsPiece count result }
        ensures cause { CountsFault (is_link_fault result) (L.faults link.old) (L.faults link.new) }
        ensures kept { self.new ≡ record self.old { reply = self.new.reply } }
    {
        let wants = Wants::Exactly(u64::from(count));
        ask(link, request, self.reply.as_mut_slice(), wants)
    }

    /// Sends plays of an epoch, the first of which has the number `first`; `next` is the number of the next play to be
    /// recorded, above which no reply can go.
    pub fn send<L: Link>(
        &mut self,
        link: &mut L,
        epoch: u32,
        first: u32,
        plays: &[PlayBody],
        next: u32,
    ) -> Result<BatchEnd, AllocError>
        ensures sent { IfOk result (λ end. (outcome : Outcome)
            × Hears REPLY_ROOM (L.told link.old) (L.told link.new)
            (batch_request self.old.display self.old.key epoch first plays.now) Anything outcome
            × BatchEnds first next outcome end) }
        ensures cause { IfOk result (λ end.
            CountsFault (is_batch_link_fault end) (L.faults link.old) (L.faults link.new)) }
        ensures kept { self.new ≡ record self.old { reply = self.new.reply } }
        ensures err { OnErr result (link.new ≡ link.old) }
    {
        let request = self.batch_request(epoch, first, plays)?;
        let heard = ask(
            link,
            request.as_slice(),
            self.reply.as_mut_slice(),
            Wants::Anything,
        );
        Ok(batch_end(self.reply.as_slice(), heard, first, next))
    }

    /// Asks for an epoch.
    pub fn enrol<L: Link>(&mut self, link: &mut L) -> Result<EnrolEnd, AllocError>
        ensures enrolled { IfOk result (λ end. (outcome : Outcome)
            × Hears REPLY_ROOM (L.told link.old) (L.told link.new)
            (enrol_request self.old.display self.old.key) Anything outcome
            × EnrolEnds outcome end) }
        ensures cause { IfOk result (λ end.
            CountsFault (is_enrol_link_fault end) (L.faults link.old) (L.faults link.new)) }
        ensures kept { self.new ≡ record self.old { reply = self.new.reply } }
        ensures err { OnErr result (link.new ≡ link.old) }
    {
        let request = self.request(Verb::Post, b"/enrol", Some(b""))?;
        let heard = ask(
            link,
            request.as_slice(),
            self.reply.as_mut_slice(),
            Wants::Anything,
        );
        Ok(enrol_end(self.reply.as_slice(), heard))
    }

    fn batch_request(
        &self,
        epoch: u32,
        first: u32,
        plays: &[PlayBody],
    ) -> Result<Vec<u8>, AllocError>
        ensures { IfOk result (λ text. text.items
            ≡ batch_request self.now.display self.now.key epoch first plays.now) }
    {
        let body = batch_text(self.alloc, epoch, first, plays)?;
        self.request(Verb::Post, b"/plays", Some(body.as_slice()))
    }

    // A request of the display for a part of what the server has of it.
    fn request(&self, verb: Verb, part: &[u8], body: Option<&[u8]>) -> Result<Vec<u8>, AllocError>
        requires { IsBodyOf verb (option_copied body) }
        ensures { IfOk result (λ text. text.items
            ≡ request_text verb (display_path self.now.display part.now) self.now.key
            (option_copied body.entry)) }
    {
        let path = display_path(self.alloc, self.display, part)?;
        request_bytes(self.alloc, verb, path.as_slice(), self.key.as_slice(), body)
    }
}

// How a batch ends, by what was heard.
fn batch_end(reply: &[u8], heard: Heard, first: u32, next: u32) -> BatchEnd
    requires within { IsHeardWithin (length reply.now) heard }
    requires any { HasAnyLength heard }
    ensures end { BatchEnds first next (outcome_at reply.now heard) result }
    ensures came { is_batch_link_fault result ≡ is_link_fault heard }
{
    let cause = match heard {
        Heard::Whole(body) => {
            let next = number_named(&reply[body.from..body.to], b"{\"next\":", first, next);
            return BatchEnd::named(next);
        }
        Heard::LinkFault => BatchCause::LinkFault,
        Heard::NotHttp => BatchCause::NotHttp,
        Heard::Cut { got, length, .. } => BatchCause::Cut { got, length },
        Heard::Status(status) => BatchCause::Status(status),
        Heard::Length { .. } => unreachable!(),
    };
    BatchEnd::Stay(cause)
}

// How an enrolment ends, by what was heard.
fn enrol_end(reply: &[u8], heard: Heard) -> EnrolEnd
    requires within { IsHeardWithin (length reply.now) heard }
    requires any { HasAnyLength heard }
    ensures end { EnrolEnds (outcome_at reply.now heard) result }
    ensures came { is_enrol_link_fault result ≡ is_link_fault heard }
{
    let cause = match heard {
        Heard::Whole(body) => {
            let epoch = number_named(&reply[body.from..body.to], b"{\"epoch\":", 1, MAX_EPOCH);
            return EnrolEnd::named(epoch);
        }
        Heard::LinkFault => EnrolCause::LinkFault,
        Heard::NotHttp => EnrolCause::NotHttp,
        Heard::Cut { got, length, .. } => EnrolCause::Cut { got, length },
        Heard::Status(status) => EnrolCause::Status(status),
        Heard::Length { .. } => unreachable!(),
    };
    EnrolEnd::Refused(cause)
}
