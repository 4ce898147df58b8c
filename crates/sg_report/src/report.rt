//! The report of a keeper's plays.

ghost use Rattle.std.specs.Prelude.{◌≡◌, IfErr, IfOk, OnOk};
ghost use Rattle.sg_keeper.specs.View.{Ran, Refused, Same};
ghost use Rattle.sg_report.specs.Report.{IsReport};

use crate::pages::count_plays;
use crate::table::table;
use sg_base::{Moment, Sorted};
use sg_keeper::{Keeper, KeeperFail};
use std::alloc::Global;

/// The report of the plays that a keeper has, of all displays and epochs, where they begin at one moment or later and
/// before another: a line for each display and each layout that it played, with the number of these plays and all their
/// seconds, by display and then by layout. A row of the kind of plays that is no play's counts for nothing.
///
/// It is refused where a call of the keeper is, or for want of memory, and leaves the rows as they are.
pub fn plays_csv<K: Keeper>(
    alloc: Global,
    keeper: &mut K,
    from: Moment,
    to: Moment,
) -> Result<Vec<u8>, KeeperFail>
    ensures report { IfOk result (λ text. IsReport from to (K.view keeper.old) text.items) }
    ensures ran { OnOk result (Ran 1 (K.view keeper.old) (K.view keeper.new)) }

    // A refusal says its cause.
    ensures refused { IfErr result (λ fail. Refused fail (K.view keeper.old) (K.view keeper.new)) }

    // Whatever it answers, the rows are as they were.
    ensures same { Same (K.view keeper.old) (K.view keeper.new) }
{
    let mut lines = Sorted::new(alloc);
    count_plays(keeper, from, to, &mut lines)?;
    let text = table(alloc, lines.as_slice())?;
    Ok(text)
}
