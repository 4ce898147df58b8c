//! `preview`: the timeline of one manifest at some moments.

ghost use Rattle.std.specs.Prelude.{◌≡◌, ◌<◌};
ghost use Rattle.sg_endings.specs.Ends.{Ends};
ghost use Rattle.sg_lines.specs.Reading.{side};
ghost use Rattle.signage.specs.Preview.{IsPreview};
ghost use Rattle.signage.specs.Printing.{Prints};

use crate::display::Display;
use crate::input::load;
use crate::stop::{Stop, finish};
use sg_base::{Moment, Steps};
use sg_endings::WRITE_FAULT;
use sg_manifest::Snapshot;
use sg_outside::{Sink, Source, put_all};
use std::alloc::Global;
use std::marker::Brand;
use std::sync::ledger::{Blank, Ledger};

/// Reads one manifest and writes one line for each moment, by the slots and the pictures of the snapshot and of its
/// overlays. The answer is the status:
/// - 0: the input was read to its end, and every line was written;
/// - 3: the input is longer than 1,048,577 bytes, or no manifest: the name of its first fault is written;
/// - 4: the source failed;
/// - 5: the sink failed, and nothing was written after that;
/// - 9: memory ran out, before any line.
pub fn preview<S: Source, O: Sink>(
    alloc: Global,
    moments: &[Moment],
    source: &mut S,
    out: &mut O,
) -> u8
    ensures { Ends
        (IsPreview (side S.left S.take_faults source.old) (side S.left S.take_faults source.new)
        moments.now)
        result (O.written out.old) (O.written out.new)
        (O.put_faults out.old) (O.put_faults out.new) }
{
    match load(alloc, source) {
        Ok(snapshot) => show::<Brand, O>(Blank::new(1), alloc, &snapshot, moments, out),
        Err(stop) => finish(out, stop),
    }
}

/// Writes the lines of a snapshot, and answers the status.
fn show<L: Ledger, O: Sink>(
    blank: Blank,
    alloc: Global,
    snapshot: &Snapshot,
    moments: &[Moment],
    out: &mut O,
) -> u8
    requires name { blank.name ≡ L.name }
    requires parts { blank.parts ≡ L.parts }
    requires some { 0 < blank.parts }
    ensures { Prints snapshot.now moments.now result (O.written out.old) (O.written out.new)
        (O.put_faults out.old) (O.put_faults out.new) }
{
    let mut steps = Steps::<L>::new(blank);
    match Display::adopt(alloc, snapshot) {
        Ok(mut display) => show_all(&mut display, moments, out, &mut steps),
        Err(_) => finish(out, Stop::Memory),
    }
}

/// Writes the line of each moment, and answers the status.
fn show_all<L: Ledger, O: Sink>(
    display: &mut Display,
    moments: &[Moment],
    out: &mut O,
    steps: &mut Steps<L>,
) -> u8
    ensures { Prints display.old moments.now result (O.written out.old) (O.written out.new)
        (O.put_faults out.old) (O.put_faults out.new) }
{
    for moment in moments {
        let line = display.line(*moment, steps);
        match put_all(out, line.as_bytes()) {
            Ok(()) => {}
            Err(_) => return WRITE_FAULT,
        }
    }
    0
}
