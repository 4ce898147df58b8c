//! Replies to all messages but edits.

ghost use Rattle.std.specs.Prelude.{◌≡◌, ◌+◌, ◌≤◌, ◌++◌, codes, decimal, length};
ghost use Rattle.sg_base.specs.Names.{limit_name};
ghost use Rattle.sg_replies.specs.Bodies.{refusal_name, saying_status, saying_text};
ghost use Rattle.sg_replies.specs.declared.saying.Saying.TheVariants as said;

use crate::parts::{number, number_between, text_between};
use crate::refusal::Refusal;
use hex::encode_to_slice;
use sg_base::{LimitName, MediaId};
use sg_text::Text;

/// What the server says to a message that is no edit.
#[derive(Clone, Copy, Debug, PartialEq, Eq)]
pub enum Saying {
    /// So many bytes of the medium have come.
    Held(u32),
    /// All bytes of the medium have come.
    Complete(MediaId),
    /// The display has this epoch now.
    Epoch(u32),
    /// The next play has this number.
    Next(u32),
    Refused(Refusal),
    /// There is no such medium.
    Unknown(MediaId),
    /// The next piece begins at this offset.
    PieceOrder { expected: u32 },
    /// The next piece has so many bytes.
    PieceLength { expected: u32 },
    /// The bytes that came have this digest, and not the declared one.
    DigestDiffers { found: [u8; 16] },
    /// The manifest would have so many of what is limited.
    TooLarge { name: LimitName, count: u64 },
    /// The medium isn't among the files of the display.
    NotListed(MediaId),
    /// The file ends at this length or before.
    PastEnd { length: u32 },
    /// The next play has this number, and those before the batch haven't come.
    Gap { next: u32 },
    /// No epoch may have more plays than these.
    PlaysFull { limit: u32 },
}

impl Saying {
    /// The status of HTTP that goes with it.
    pub fn status(self) -> u16
        ensures { result ≡ saying_status self }
    {
        match self {
            Saying::Held(_) => 200,
            Saying::Complete(_) => 200,
            Saying::Epoch(_) => 200,
            Saying::Next(_) => 200,
            Saying::Refused(refusal) => refusal.status(),
            Saying::Unknown(_) => 404,
            Saying::PieceOrder { .. } => 409,
            Saying::PieceLength { .. } => 422,
            Saying::DigestDiffers { .. } => 409,
            Saying::TooLarge { .. } => 409,
            Saying::NotListed(_) => 403,
            Saying::PastEnd { .. } => 416,
            Saying::Gap { .. } => 409,
            Saying::PlaysFull { .. } => 409,
        }
    }

    /// Its body.
    pub fn text(self) -> Text
        ensures { result ≡ saying_text self }
    {
        match self {
            Saying::Held(next) => number(b"{\"held\":", next, b"}"),
            Saying::Complete(media) => number(b"{\"complete\":", media.0, b"}"),
            Saying::Epoch(epoch) => number(b"{\"epoch\":", epoch, b"}"),
            Saying::Next(next) => number(b"{\"next\":", next, b"}"),
            Saying::Refused(refusal) => refusal_text(refusal),
            Saying::Unknown(media) => {
                number(
                    b"{\"id\":",
                    media.0,
                    b",\"kind\":\"media\",\"refused\":\"Unknown\"}",
                )
            }
            Saying::PieceOrder { expected } => {
                number(b"{\"expected\":", expected, b",\"refused\":\"PieceOrder\"}")
            }
            Saying::PieceLength { expected } => {
                number(
                    b"{\"expected\":",
                    expected,
                    b",\"refused\":\"PieceLength\"}",
                )
            }
            Saying::DigestDiffers { found } => digest_text(&found),
            Saying::TooLarge { name, count } => limit_text(name, count),
            Saying::NotListed(media) => {
                number(b"{\"media\":", media.0, b",\"refused\":\"NotListed\"}")
            }
            Saying::PastEnd { length } => {
                number(b"{\"length\":", length, b",\"refused\":\"PastEnd\"}")
            }
            Saying::Gap { next } => number(b"{\"next\":", next, b",\"refused\":\"Gap\"}"),
            Saying::PlaysFull { limit } => {
                number(b"{\"limit\":", limit, b",\"refused\":\"PlaysFull\"}")
            }
        }
    }
}

fn refusal_text(refusal: Refusal) -> Text
    ensures { result ≡ codes "{\"refused\":\"" ++ (refusal_name refusal ++ codes "\"}") }
{
    text_between(b"{\"refused\":\"", refusal.name(), b"\"}")
}

fn digest_text(found: &[u8; 16]) -> Text
    ensures { result ≡ saying_text (said.DigestDiffers found.now) }
{
    let mut digits = [0; 32];
    match encode_to_slice(found.as_slice(), &mut digits) {
        Ok(()) => text_between(
            b"{\"found\":\"",
            &digits,
            b"\",\"refused\":\"DigestDiffers\"}",
        ),
        Err(_) => unreachable!(),
    }
}

// The name of a limit and what follows it.
fn limit_rest(name: LimitName) -> &'static [u8]
    ensures rest { result.now ≡ codes ",\"limit\":\"" ++ (limit_name name ++ codes "\",\"refused\":\"TooLarge\"}") }
    ensures short { length result.now ≤ 60 }
{
    match name {
        LimitName::Files => b",\"limit\":\"files\",\"refused\":\"TooLarge\"}",
        LimitName::Layouts => b",\"limit\":\"layouts\",\"refused\":\"TooLarge\"}",
        LimitName::Campaigns => b",\"limit\":\"campaigns\",\"refused\":\"TooLarge\"}",
        LimitName::Dayparts => b",\"limit\":\"dayparts\",\"refused\":\"TooLarge\"}",
        LimitName::Events => b",\"limit\":\"events\",\"refused\":\"TooLarge\"}",
        LimitName::Text => b",\"limit\":\"text\",\"refused\":\"TooLarge\"}",
    }
}

fn limit_text(name: LimitName, count: u64) -> Text
    ensures { result ≡ codes "{\"count\":" ++ (decimal count
        ++ (codes ",\"limit\":\"" ++ (limit_name name ++ codes "\",\"refused\":\"TooLarge\"}"))) }
{
    number_between(b"{\"count\":", count, limit_rest(name))
}
