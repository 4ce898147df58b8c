// The lines.
ghost use Rattle.std.specs.Prelude.{◌≡◌};
ghost use Rattle.sg_timeline.specs.Timeline.{batch_line, enrol_line, formatted_line, nothing_line, recorded_line, stay_line, step_line, switched_line, unrecorded_line};

use crate::step::{Cause, StepEnd};
use crate::words::{line, one, two};
use hex::encode_to_slice;
use sg_base::Moment;
use sg_exchange::{BatchCause, BatchEnd, EnrolCause};
use sg_manifest::ManifestFault;
use sg_text::Text;

/// Nothing is shown at a moment.
pub fn nothing_line(moment: Moment) -> Text
    ensures { result ≡ nothing_line moment }
{
    let mut line = Text::new();
    line.push_number(u64::from(moment.seconds()));
    line.push(b" nothing\n");
    line
}

/// A play was recorded by this number.
pub fn recorded_line(number: u32) -> Text
    ensures { result ≡ recorded_line number }
{
    one(b"recorded ", u64::from(number))
}

/// A play wasn't recorded.
pub fn unrecorded_line() -> Text
    ensures { result ≡ unrecorded_line }
{
    line(b"unrecorded\n")
}

/// What a step of a sync came to. No line tells of a piece, nor that nothing is new.
pub fn step_line(end: StepEnd) -> Option<Text>
    ensures { result ≡ step_line end }
{
    match end {
        StepEnd::Listed(pieces) => Some(one(b"sync listed ", u64::from(pieces))),
        StepEnd::Piece { .. } => None,
        StepEnd::Sealed(media) => Some(one(b"sync sealed ", u64::from(media.0))),
        StepEnd::Switched { number, md5 } => Some(switched_line(number, md5)),
        StepEnd::UpToDate => None,
        StepEnd::Stay(cause) => Some(stay_line(cause)),
    }
}

fn switched_line(number: u32, md5: [u8; 16]) -> Text
    ensures { result ≡ switched_line number md5 }
{
    let mut line = Text::new();
    line.push(b"sync switched ");
    line.push_number(u64::from(number));
    line.push(b" ");
    let mut digits = [0; 32];
    match encode_to_slice(md5.as_slice(), &mut digits) {
        Ok(()) => line.push(&digits),
        Err(_) => unreachable!(),
    }
    line.push(b"\n");
    line
}

/// Why a step of a sync came no further.
pub fn stay_line(cause: Cause) -> Text
    ensures { result ≡ stay_line cause }
{
    match cause {
        Cause::LinkFault => line(b"sync stay link\n"),
        Cause::Cut { got, length } => two(b"sync stay cut ", got, length),
        Cause::Status(status) => one(b"sync stay status ", u64::from(status)),
        Cause::Manifest(fault) => manifest_line(fault),
        Cause::DigestDiffers { media, .. } => one(b"sync stay digest ", u64::from(media.0)),
        Cause::NoSpace { need, largest } => two(b"sync stay nospace ", need, largest),
        Cause::Length { got, expected } => two(b"sync stay length ", got, expected),
        Cause::NotHttp => line(b"sync stay nothttp\n"),
        Cause::Spent => line(b"sync stay spent\n"),
    }
}

#[tactic(auto, using(crate::proofs::NameLemmas::name_short))]
fn manifest_line(fault: ManifestFault) -> Text
    ensures { result ≡ stay_line (Cause.Manifest fault) }
{
    let mut line = Text::new();
    line.push(b"sync stay manifest ");
    line.push(fault.name().as_bytes());
    line.push(b"\n");
    line
}

/// How a batch of plays ended.
pub fn batch_line(end: BatchEnd) -> Text
    ensures { result ≡ batch_line end }
{
    let cause = match end {
        BatchEnd::Sent(next) => return one(b"plays sent ", u64::from(next)),
        BatchEnd::Stay(cause) => cause,
    };
    match cause {
        BatchCause::LinkFault => line(b"plays stay link\n"),
        BatchCause::Cut { got, length } => two(b"plays stay cut ", got, length),
        BatchCause::Status(status) => one(b"plays stay status ", u64::from(status)),
        BatchCause::NotHttp => line(b"plays stay nothttp\n"),
        BatchCause::BadNext => line(b"plays stay badnext\n"),
    }
}

/// Why a display was given no epoch.
pub fn enrol_line(cause: EnrolCause) -> Text
    ensures { result ≡ enrol_line cause }
{
    match cause {
        EnrolCause::LinkFault => line(b"enrol: link\n"),
        EnrolCause::Cut { got, length } => two(b"enrol: cut ", got, length),
        EnrolCause::Status(status) => one(b"enrol: status ", u64::from(status)),
        EnrolCause::NotHttp => line(b"enrol: nothttp\n"),
        EnrolCause::BadReply => line(b"enrol: badreply\n"),
    }
}

/// A store was made for an epoch of a display.
pub fn formatted_line(display: u32, epoch: u32) -> Text
    ensures { result ≡ formatted_line display epoch }
{
    let mut line = Text::new();
    line.push(b"formatted display ");
    line.push_number(u64::from(display));
    line.push(b" epoch ");
    line.push_number(u64::from(epoch));
    line.push(b"\n");
    line
}
