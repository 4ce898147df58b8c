//! The report as a table of comma-separated values.

ghost use Rattle.std.specs.Prelude.{◌≡◌, Some, IfOk, OnOk};
ghost use Rattle.std.specs.Io.KnownBytes.{Appends};
ghost use Rattle.std.specs.List.{flat_map};
ghost use Rattle.csv.specs.Writing.{text_written};
ghost use Rattle.sg_report.specs.Lines.{head_text, line_text, table_text};
ghost use Rattle.sg_report.specs.Writing.{IsBetween};

use crate::line::Line;
use csv::Writer;
use std::alloc::{AllocError, Global};
use std::io::Write;

/// The table of these lines.
pub(crate) fn table(alloc: Global, lines: &[Line]) -> Result<Vec<u8>, AllocError>
    ensures { IfOk result (λ text. text.items ≡ table_text lines.now) }
{
    let mut writer = headed(alloc)?;
    put_lines(alloc, &mut writer, lines)?;
    match writer.into_inner() {
        Ok(text) => Ok(text),
        Err(_) => Err(AllocError),
    }
}

// A writer that has written the head.
fn headed(alloc: Global) -> Result<Writer<Vec<u8>>, AllocError>
    ensures between { IfOk result IsBetween }
    ensures text { IfOk result (λ writer.
        text_written ⟦<Vec<u8> as Write>⟧.contents writer ≡ Some head_text) }
{
    let mut writer = Writer::from_writer(Vec::new(alloc));
    match writer.write_fields(&[b"display", b"layout", b"count", b"seconds"]) {
        Ok(()) => Ok(writer),
        Err(_) => Err(AllocError),
    }
}

// Writes lines.
fn put_lines<W: Write + Drop>(
    alloc: Global,
    writer: &mut Writer<W>,
    lines: &[Line],
) -> Result<(), AllocError>
    requires { IsBetween writer.old }
    ensures between { OnOk result (IsBetween writer.new) }
    ensures text { OnOk result (Appends
        (text_written W.contents writer.old) (text_written W.contents writer.new) (flat_map line_text lines.now)) }
{
    for line in lines {
        put_line(alloc, writer, *line)?;
    }
    Ok(())
}

// Writes a line.
fn put_line<W: Write + Drop>(
    alloc: Global,
    writer: &mut Writer<W>,
    line: Line,
) -> Result<(), AllocError>
    requires { IsBetween writer.old }
    ensures between { OnOk result (IsBetween writer.new) }
    ensures text { OnOk result (Appends
        (text_written W.contents writer.old) (text_written W.contents writer.new) (line_text line)) }
{
    let Line {
        display,
        layout,
        count,
        seconds,
    } = line;
    let display = display.to_string(alloc)?;
    let layout = layout.to_string(alloc)?;
    let count = count.to_string(alloc)?;
    let seconds = seconds.to_string(alloc)?;
    let fields = [
        display.as_bytes(),
        layout.as_bytes(),
        count.as_bytes(),
        seconds.as_bytes(),
    ];
    match writer.write_fields(&fields) {
        Ok(()) => Ok(()),
        Err(_) => Err(AllocError),
    }
}
