//! `edit` over a source, a sink and a keeper.

ghost use Rattle.std.specs.Prelude.{◌≡◌, MatchOption};
ghost use Rattle.sg_edit_command.specs.Answering.{EndsNext, IsNext, stop_of};
ghost use Rattle.sg_edit_command.specs.Edits.{Edits, EditsRows};
ghost use Rattle.sg_endings.specs.Ends.{Ends};
ghost use Rattle.sg_lines.specs.Reading.{side};

use crate::answering::answer_line;
use sg_base::limits::{MAX_BODY, MAX_TAKEN};
use sg_edits::Cms;
use sg_endings::{Stop, finish};
use sg_keeper::Keeper;
use sg_lines::{LineStop, Lines};
use sg_opening::open_server;
use sg_outside::{Sink, Source};
use std::alloc::Global;

/// Opens the server of a keeper's rows, makes the edit that each line of the input says, one after another, and prints a line with the
/// reply to each; empty lines are skipped. The answer is the status:
/// - 0: the input was read to its end, and every reply was written;
/// - 3: the number of the first line that is no edit, or has more than 1,048,576 bytes, is written; or the input has more than
///   1,073,741,824 bytes;
/// - 4: the source failed;
/// - 5: the sink failed, and nothing was written after that;
/// - 9: memory ran out;
/// - 12: the keeper failed;
/// - 15: a row may not be kept: the key of the first one is written.
///
/// Where it ends early, the edits before are made, and the replies to them written.
pub fn edit<S: Source, O: Sink, K: Keeper>(
    alloc: Global,
    source: &mut S,
    out: &mut O,
    keeper: &mut K,
) -> u8
    ensures { Ends
        (EditsRows (side S.left S.take_faults source.old) (side S.left S.take_faults source.new)
        (K.view keeper.old) (K.view keeper.new))
        result (O.written out.old) (O.written out.new) (O.put_faults out.old) (O.put_faults out.new) }
{
    match open_server(alloc, keeper) {
        Ok(mut cms) => answer_all(alloc, &mut cms, source, out, keeper),
        Err(stop) => finish(out, stop),
    }
}

// Answers each line, and says the status of the command.
fn answer_all<S: Source, O: Sink, K: Keeper>(
    alloc: Global,
    cms: &mut Cms,
    source: &mut S,
    out: &mut O,
    keeper: &mut K,
) -> u8
    ensures { Ends
        (Edits cms.old (side S.left S.take_faults source.old) (side S.left S.take_faults source.new)
        (K.view keeper.old) (K.view keeper.new))
        result (O.written out.old) (O.written out.new) (O.put_faults out.old) (O.put_faults out.new) }
{
    let mut lines = Lines::new(alloc, MAX_BODY as usize, MAX_TAKEN);
    let mut number = 0;
    'line: loop {
        if let Some(status) = answer_next(alloc, &mut lines, number + 1, cms, source, out, keeper) {
            return status;
        }
        number += 1;
    }
}

// Answers the next line, which has this number. The status of the command, if it ends here.
fn answer_next<S: Source, O: Sink, K: Keeper>(
    alloc: Global,
    lines: &mut Lines,
    number: u64,
    cms: &mut Cms,
    source: &mut S,
    out: &mut O,
    keeper: &mut K,
) -> Option<u8>
    ensures { MatchOption result
        (IsNext (side S.left S.take_faults source.old) (side S.left S.take_faults source.new) lines.old lines.new
        cms.old cms.new (K.view keeper.old) (K.view keeper.new)
        (O.written out.old) (O.written out.new) (O.put_faults out.old) (O.put_faults out.new))
        (λ status. Ends
        (EndsNext (side S.left S.take_faults source.old) (side S.left S.take_faults source.new) lines.old number
        cms.old (K.view keeper.old) (K.view keeper.new))
        status (O.written out.old) (O.written out.new) (O.put_faults out.old) (O.put_faults out.new)) }
{
    match lines.next(source) {
        Ok(Some(line)) => answer_line(alloc, line.as_slice(), number, cms, out, keeper),
        Ok(None) => Some(0),
        Err(why) => Some(finish(out, stop_of(why, number))),
    }
}

// How the command ends that gets no further line.
fn stop_of(why: LineStop, number: u64) -> Stop
    ensures { result ≡ stop_of why number }
{
    match why {
        LineStop::Read => Stop::Read,
        LineStop::LongLine => Stop::Line(number),
        LineStop::TooLong => Stop::TooLong,
        LineStop::Memory => Stop::Memory,
    }
}
