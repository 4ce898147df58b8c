// What befell a place, and the lines that tell it.
ghost use Rattle.std.specs.Prelude.{◌≡◌, ◌≤◌, ◌++◌, ℕ, [], ◌∷◌, List, OnOk, OnErr, true, codes, decimal, length, replicate};
ghost use Rattle.std.specs.Io.KnownBytes.{Appends};
ghost use Rattle.std.specs.List.{concat};
ghost use Rattle.sg_base.specs.Causes.{HasCause};
ghost use Rattle.sg_outside.specs.Streams.{AppendsPart};
ghost use Rattle.sg_panels.specs.Screens.{no_marks};
ghost use Rattle.sg_panels.specs.Marks.{EndsInLine, dropped_line, line_if, place_lines, replaced_line};

use sg_outside::{Sink, SinkFailed, put_all};
use sg_text::Text;

/// What befell a place in one painting.
#[derive(Clone, Copy, Debug, PartialEq, Eq)]
pub struct Marks {
    /// The screen that stood there was marked.
    pub failed: bool,
    /// How many spares were marked there after it.
    pub spares: usize,
    /// A spare shows the picture there.
    pub replaced: bool,
}

impl Marks {
    // Nothing befell the place.
    pub(crate) fn none() -> Marks
        ensures { result ≡ no_marks }
    {
        Marks {
            failed: false,
            spares: 0,
            replaced: false,
        }
    }

    // The screen of a place was marked, and so many spares after it; or one shows the picture after all.
    pub(crate) fn dropped(spares: usize, replaced: bool) -> Marks
        ensures { result ≡ record { failed = true; spares = spares; replaced = replaced } }
    {
        Marks {
            failed: true,
            spares,
            replaced,
        }
    }
}

// Puts the lines of a place. Places are counted from 1.
pub(crate) fn put_marks<O: Sink>(out: &mut O, place: u64, marks: Marks) -> Result<(), SinkFailed>
    ensures ok { OnOk result (Appends (O.written out.old) (O.written out.new)
        (concat (place_lines place marks))) }
    ensures err { OnErr result (EndsInLine (O.written out.old) (O.written out.new)
        (place_lines place marks)) }
    ensures cause { HasCause (O.put_faults out.old) (O.put_faults out.new) result }
{
    match put_if(out, marks.failed, &dropped_line(place)) {
        Ok(()) => {}
        Err(failed) => return Err(failed),
    }
    match put_times(out, marks.spares, &dropped_line(place)) {
        Ok(()) => {}
        Err(failed) => return Err(failed),
    }
    match put_if(out, marks.replaced, &replaced_line(place)) {
        Ok(()) => Ok(()),
        Err(failed) => Err(failed),
    }
}

fn put_if<O: Sink>(out: &mut O, wanted: bool, line: &Text) -> Result<(), SinkFailed>
    ensures ok { OnOk result (Appends (O.written out.old) (O.written out.new)
        (concat (line_if wanted line.now))) }
    ensures err { OnErr result (EndsInLine (O.written out.old) (O.written out.new)
        (line_if wanted line.now)) }
    ensures cause { HasCause (O.put_faults out.old) (O.put_faults out.new) result }
{
    if !wanted {
        return Ok(());
    }
    match put_times(out, 1, line) {
        Ok(()) => Ok(()),
        Err(failed) => Err(failed),
    }
}

fn put_times<O: Sink>(out: &mut O, times: usize, line: &Text) -> Result<(), SinkFailed>
    ensures ok { OnOk result (Appends (O.written out.old) (O.written out.new)
        (concat (replicate times line.now))) }
    ensures err { OnErr result (EndsInLine (O.written out.old) (O.written out.new)
        (replicate times line.now)) }
    ensures cause { HasCause (O.put_faults out.old) (O.put_faults out.new) result }
{
    let mut done = 0;
    while done < times {
        match put_all(out, line.as_bytes()) {
            Ok(()) => done += 1,
            Err(failed) => return Err(failed),
        }
    }
    Ok(())
}

fn dropped_line(place: u64) -> Text
    ensures { result ≡ dropped_line place }
{
    let mut line = Text::new();
    line.push(b"panel ");
    line.push_number(place);
    line.push(b" dropped\n");
    line
}

fn replaced_line(place: u64) -> Text
    ensures { result ≡ replaced_line place }
{
    let mut line = Text::new();
    line.push(b"panel ");
    line.push_number(place);
    line.push(b" replaced\n");
    line
}
