//! `report` over a keeper and a sink.

ghost use Rattle.std.specs.Prelude.{◌≡◌, IfErr, IfOk, OnOk};
ghost use Rattle.sg_endings.specs.Ends.{Ends};
ghost use Rattle.sg_endings.specs.Stops.{status_of, text_of};
ghost use Rattle.sg_keeper.specs.View.{Ran, Same};
ghost use Rattle.sg_report.specs.Report.{IsReport};
ghost use Rattle.sg_report_command.specs.Faults.{StopsCounting};
ghost use Rattle.sg_report_command.specs.Reports.{Reports};

use sg_base::Moment;
use sg_endings::{Stop, finish, put_last};
use sg_keeper::{Keeper, KeeperFail};
use sg_opening::open_server;
use sg_outside::Sink;
use sg_report::plays_csv;
use std::alloc::Global;

/// Writes the report of the plays that a keeper has, where they begin at one moment or later and before another. The answer is
/// the status:
/// - 0: the rows stand for a server, and the report was written;
/// - 5: the sink failed, and nothing was written after that;
/// - 9: memory ran out, before any line;
/// - 12: the keeper failed;
/// - 15: a row may not be kept: the key of the first one is written.
///
/// The keeper's rows stay as they are.
pub fn report<O: Sink, K: Keeper>(
    alloc: Global,
    from: Moment,
    to: Moment,
    out: &mut O,
    keeper: &mut K,
) -> u8
    ensures run { Ends (Reports from to (K.view keeper.old) (K.view keeper.new))
        result (O.written out.old) (O.written out.new) (O.put_faults out.old) (O.put_faults out.new) }
    ensures same { Same (K.view keeper.old) (K.view keeper.new) }
{
    match text_of_report(alloc, from, to, keeper) {
        Ok(text) => put_last(out, 0, text.as_slice()),
        Err(stop) => finish(out, stop),
    }
}

// The text of the report, or why there is none.
fn text_of_report<K: Keeper>(
    alloc: Global,
    from: Moment,
    to: Moment,
    keeper: &mut K,
) -> Result<Vec<u8>, Stop>
    ensures report { IfOk result (λ text.
        Reports from to (K.view keeper.old) (K.view keeper.new) 0 text.items) }
    ensures stop { IfErr result (λ stop.
        Reports from to (K.view keeper.old) (K.view keeper.new) (status_of stop) (text_of stop)) }
    ensures same { Same (K.view keeper.old) (K.view keeper.new) }
{
    match open_server(alloc, keeper) {
        Ok(_) => counted(alloc, from, to, keeper),
        Err(stop) => Err(stop),
    }
}

// The text of the report over rows of a server that was opened.
fn counted<K: Keeper>(
    alloc: Global,
    from: Moment,
    to: Moment,
    keeper: &mut K,
) -> Result<Vec<u8>, Stop>
    ensures report { IfOk result (λ text. IsReport from to (K.view keeper.old) text.items) }
    ensures ran { OnOk result (Ran 1 (K.view keeper.old) (K.view keeper.new)) }
    ensures stop { IfErr result (λ stop. StopsCounting stop (K.view keeper.old) (K.view keeper.new)) }
    ensures same { Same (K.view keeper.old) (K.view keeper.new) }
{
    match plays_csv(alloc, keeper, from, to) {
        Ok(text) => Ok(text),
        Err(KeeperFail::Failed) => Err(Stop::Keeper),
        Err(KeeperFail::Memory) => Err(Stop::Memory),
    }
}
