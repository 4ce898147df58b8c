// The bytes of the requests.
ghost use Rattle.std.specs.Prelude.{◌≡◌, ◌++◌, List, IfOk, OnOk, codes, decimal};
ghost use Rattle.std.specs.List.{flat_map};
ghost use Rattle.sg_exchange.specs.Requests.{batch_text, display_path, next_play_text, piece_part, play_text, plays_text};

use itoa::Buffer;
use sg_base::{MediaId, PlayBody};
use std::alloc::{AllocError, Global};

// The path of what a server has of a display.
pub(crate) fn display_path(alloc: Global, display: u32, part: &[u8]) -> Result<Vec<u8>, AllocError>
    ensures { IfOk result (λ path. path.items ≡ display_path display part.now) }
{
    let mut path = Vec::new(alloc);
    push_after(&mut path, b"/displays/", display)?;
    path.extend_from_slice(part)?;
    Ok(path)
}

// The end of the path of the bytes of a medium from an offset on.
pub(crate) fn piece_part(alloc: Global, media: MediaId, offset: u32) -> Result<Vec<u8>, AllocError>
    ensures { IfOk result (λ part. part.items ≡ piece_part media.0 offset) }
{
    let mut part = Vec::new(alloc);
    push_after(&mut part, b"/files/", media.0)?;
    push_after(&mut part, b"/", offset)?;
    Ok(part)
}

// The body of a batch.
pub(crate) fn batch_text(
    alloc: Global,
    epoch: u32,
    first: u32,
    plays: &[PlayBody],
) -> Result<Vec<u8>, AllocError>
    ensures { IfOk result (λ text. text.items ≡ batch_text epoch first plays.now) }
{
    let mut text = Vec::new(alloc);
    push_after(&mut text, b"{\"epoch\":", epoch)?;
    push_after(&mut text, b",\"first\":", first)?;
    text.extend_from_slice(b",\"plays\":[")?;
    push_plays(&mut text, plays)?;
    text.extend_from_slice(b"]}")?;
    Ok(text)
}

fn push_plays(text: &mut Vec<u8>, plays: &[PlayBody]) -> Result<(), AllocError>
    ensures { OnOk result (text.new.items ≡ text.old.items ++ plays_text plays.now) }
{
    match plays {
        [] => Ok(()),
        [first, others @ ..] => {
            push_play(text, first)?;
            push_next_plays(text, others)
        }
    }
}

// Each play with a comma before it.
fn push_next_plays(text: &mut Vec<u8>, plays: &[PlayBody]) -> Result<(), AllocError>
    ensures { OnOk result (text.new.items ≡ text.old.items ++ flat_map next_play_text plays.now) }
{
    for play in plays {
        push_next_play(text, play)?;
    }
    Ok(())
}

fn push_next_play(text: &mut Vec<u8>, play: &PlayBody) -> Result<(), AllocError>
    ensures { OnOk result (text.new.items ≡ text.old.items ++ next_play_text play.now) }
{
    text.extend_from_slice(b",")?;
    push_play(text, play)
}

fn push_play(text: &mut Vec<u8>, play: &PlayBody) -> Result<(), AllocError>
    ensures { OnOk result (text.new.items ≡ text.old.items ++ play_text play.now) }
{
    push_after(text, b"[", play.event)?;
    push_after(text, b",", play.layout)?;
    push_after(text, b",", play.from.seconds())?;
    push_after(text, b",", play.to.seconds())?;
    text.extend_from_slice(b"]")
}

// A number after some bytes.
fn push_after(text: &mut Vec<u8>, before: &[u8], number: u32) -> Result<(), AllocError>
    ensures { OnOk result (text.new.items ≡ text.old.items ++ (before.now ++ decimal number)) }
{
    text.extend_from_slice(before)?;
    push_number(text, number)
}

fn push_number(text: &mut Vec<u8>, number: u32) -> Result<(), AllocError>
    ensures { OnOk result (text.new.items ≡ text.old.items ++ decimal number) }
{
    let mut digits = Buffer::new();
    text.extend_from_slice(digits.format(number).as_bytes())
}
