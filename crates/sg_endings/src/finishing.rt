//! The last text of a command.

ghost use Rattle.std.specs.Prelude.{◌≡◌, ◌≢◌};
ghost use Rattle.sg_endings.specs.Ends.{Finishes};
ghost use Rattle.sg_endings.specs.Stops.{status_of, text_of};

use crate::stop::Stop;
use sg_outside::{Sink, put_all};

/// The status of a sink that failed.
pub const WRITE_FAULT: u8 = 5;

/// Writes a last text and answers the status, or 5 where the sink fails.
pub fn put_last<O: Sink>(out: &mut O, status: u8, text: &[u8]) -> u8
    requires { status ≢ WRITE_FAULT }
    ensures { Finishes status text.now result (O.written out.old) (O.written out.new)
        (O.put_faults out.old) (O.put_faults out.new) }
{
    match put_all(out, text) {
        Ok(()) => status,
        Err(_) => WRITE_FAULT,
    }
}

/// Writes a stop's line and answers its status, or 5 where the sink fails.
pub fn finish<O: Sink>(out: &mut O, stop: Stop) -> u8
    ensures { Finishes (status_of stop) (text_of stop) result (O.written out.old)
        (O.written out.new) (O.put_faults out.old) (O.put_faults out.new) }
{
    let text = stop.text();
    put_last(out, stop.status(), text.as_bytes())
}
