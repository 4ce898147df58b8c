//! Outcomes of what the server answers.

ghost use Rattle.std.specs.Prelude.{◌≡◌, ◌≢◌};
ghost use Rattle.sg_answers.specs.Outcomes.{IsTellable, enrol_saying, file_outcome, manifest_outcome, piece_saying, plays_saying};
ghost use Rattle.sg_answers.specs.declared.outcome.Outcome.TheVariants as outcome;
ghost use Rattle.sg_replies.specs.declared.refusal.Refusal.TheVariants as refusal;
ghost use Rattle.sg_replies.specs.declared.saying.Saying.TheVariants as saying;

use crate::outcome::Outcome;
use sg_base::MediaId;
use sg_edits::PieceReply;
use sg_http::Form;
use sg_replies::{Refusal, Saying};
use sg_steps::{EnrolReply, PlaysReply};
use sg_views::{FileReply, ManifestReply};

/// A refusal that says its name alone. That of another method is [`Outcome::OtherMethod`].
pub fn refused(reason: Refusal) -> Outcome
    requires { reason ≢ refusal.Method }
    ensures outcome { result ≡ outcome.Said (saying.Refused reason) }
    ensures tellable { IsTellable result }
{
    Outcome::Said(Saying::Refused(reason))
}

/// What a piece of a medium comes to.
pub fn piece_put(reply: PieceReply) -> Outcome
    ensures outcome { result ≡ outcome.Said (piece_saying reply) }
    ensures tellable { IsTellable result }
{
    Outcome::Said(match reply {
        PieceReply::Held(next) => Saying::Held(next),
        PieceReply::Complete(media) => Saying::Complete(media),
        PieceReply::Unknown(media) => Saying::Unknown(media),
        PieceReply::PieceOrder { expected } => Saying::PieceOrder { expected },
        PieceReply::PieceLength { expected } => Saying::PieceLength { expected },
        PieceReply::DigestDiffers { found } => Saying::DigestDiffers { found },
    })
}

/// What an enrolment comes to.
pub fn enrolled(reply: EnrolReply) -> Outcome
    ensures outcome { result ≡ outcome.Said (enrol_saying reply) }
    ensures tellable { IsTellable result }
{
    Outcome::Said(match reply {
        EnrolReply::Epoch(epoch) => Saying::Epoch(epoch),
        EnrolReply::EpochsSpent => Saying::Refused(Refusal::EpochsSpent),
        EnrolReply::Unknown(_) => Saying::Refused(Refusal::Key),
    })
}

/// What a batch of plays comes to.
pub fn plays_taken(reply: PlaysReply) -> Outcome
    ensures outcome { result ≡ outcome.Said (plays_saying reply) }
    ensures tellable { IsTellable result }
{
    Outcome::Said(match reply {
        PlaysReply::Next(next) => Saying::Next(next),
        PlaysReply::Gap { next } => Saying::Gap { next },
        PlaysReply::NoEpoch => Saying::Refused(Refusal::NoEpoch),
        PlaysReply::PlaysFull { limit } => Saying::PlaysFull { limit },
    })
}

/// What a display that asks for its manifest comes to.
pub fn manifest_made(reply: ManifestReply) -> Outcome
    ensures outcome { result ≡ manifest_outcome reply }
    ensures tellable { IsTellable result }
{
    match reply {
        ManifestReply::Text(text) => Outcome::Gives(Form::Json, text),
        ManifestReply::Unknown => Outcome::Said(Saying::Refused(Refusal::Key)),
        ManifestReply::TooLarge { name, count } => {
            Outcome::Said(Saying::TooLarge { name, count })
        }
    }
}

/// What a display that asks for a piece of the file of a medium comes to.
pub fn file_found(media: MediaId, reply: FileReply) -> Outcome
    ensures outcome { result ≡ file_outcome media reply }
    ensures tellable { IsTellable result }
{
    match reply {
        FileReply::Bytes(bytes) => Outcome::Gives(Form::Octets, bytes),
        FileReply::NotListed => Outcome::Said(Saying::NotListed(media)),
        FileReply::PastEnd { length } => Outcome::Said(Saying::PastEnd { length }),
    }
}
