//! Plays are counted, page by page of a keeper's rows.

ghost use Rattle.std.specs.Prelude.{◌≡◌, ◌<◌, ◌≤◌, ◌^◌, [], None, Some, IsTrue, IfOk, IfErr, IfSome, OnOk};
ghost use Rattle.sg_keeper.specs.Pages.{end_of, start_of};
ghost use Rattle.sg_keeper.specs.View.{Ran, Refused, Same};
ghost use Rattle.sg_report.specs.Counting.{CanAdd, CanAddRow, CanCount, CountsPlays, CountsRow, CountsRows, HasLines, IsNext, counted, cursor};
ghost use Rattle.sg_report.specs.Lines.{begins_within};
ghost use Rattle.sg_report.specs.Plays.{IsKept};

use crate::kept::KeptPlay;
use crate::line::{Line, add_play};
use sg_base::{Key, Moment, Rows, Sorted};
use sg_keeper::{Keeper, KeeperFail};
use std::alloc::AllocError;

/// The most rows of a page.
const PAGE: usize = 1_024;

/// Counts all plays that a keeper has, of those that begin at one moment or later and before another.
pub(crate) fn count_plays<K: Keeper>(
    keeper: &mut K,
    from: Moment,
    to: Moment,
    lines: &mut Sorted<Line>,
) -> Result<(), KeeperFail>
    requires { lines.old.items ≡ [] }
    ensures counts { OnOk result
        (CountsPlays from to (K.view keeper.old) (start_of 10 None) (end_of 10) [] lines.new.items) }
    ensures ran { OnOk result (Ran 1 (K.view keeper.old) (K.view keeper.new)) }
    ensures refused { IfErr result (λ fail. Refused fail (K.view keeper.old) (K.view keeper.new)) }
    ensures same { Same (K.view keeper.old) (K.view keeper.new) }
{
    let mut next = add_page(keeper, None, from, to, lines)?;
    while let Some(after) = next {
        next = add_page(keeper, Some(after), from, to, lines)?;
    }
    Ok(())
}

// Counts the plays of the next page, and says after which key the one after it begins, where this one is full.
fn add_page<K: Keeper>(
    keeper: &mut K,
    after: Option<(u64, u64)>,
    from: Moment,
    to: Moment,
    lines: &mut Sorted<Line>,
) -> Result<Option<(u64, u64)>, KeeperFail>
    requires start { start_of 10 after ≤ end_of 10 }
    requires lines { HasLines from to (start_of 10 after) lines.old.items }
    ensures counts { IfOk result (λ next.
        CountsPlays from to (K.view keeper.old) (start_of 10 after) (cursor next) lines.old.items lines.new.items) }
    ensures further { IfOk result (λ next. (start_of 10 after ≤ cursor next) × (cursor next ≤ end_of 10)
        × IfSome next (λ p. start_of 10 after < start_of 10 (Some p))) }
    ensures ran { OnOk result (Ran 1 (K.view keeper.old) (K.view keeper.new)) }
    ensures refused { IfErr result (λ fail. Refused fail (K.view keeper.old) (K.view keeper.new)) }
    ensures same { Same (K.view keeper.old) (K.view keeper.new) }
{
    let page = keeper.list(10, after, PAGE)?;
    add_rows(page.as_slice(), from, to, lines)?;
    Ok(next_after(page.as_slice()))
}

// Counts the plays of rows.
fn add_rows(
    rows: &[(Key, Rows<u8>)],
    from: Moment,
    to: Moment,
    lines: &mut Sorted<Line>,
) -> Result<(), AllocError>
    requires { CanCount from to rows.now lines.old.items }
    ensures { OnOk result (CountsRows from to rows.now lines.old.items lines.new.items) }
{
    for row in rows {
        add_row(row.0, row.1.as_slice(), from, to, lines)?;
    }
    Ok(())
}

// Counts the play of a row. A row that is no play's counts for nothing.
fn add_row(
    key: Key,
    bytes: &[u8],
    from: Moment,
    to: Moment,
    lines: &mut Sorted<Line>,
) -> Result<(), AllocError>
    requires { CanAddRow from to key lines.old.items }
    ensures { OnOk result (CountsRow from to (key, bytes.now) lines.old.items lines.new.items) }
{
    match KeptPlay::read(key, bytes) {
        Some(play) => add_in_time(&play, from, to, lines),
        None => Ok(()),
    }
}

// Counts a play, if it began in time.
fn add_in_time(
    play: &KeptPlay,
    from: Moment,
    to: Moment,
    lines: &mut Sorted<Line>,
) -> Result<(), AllocError>
    requires kept { IsKept play.now }
    requires room { IsTrue (begins_within from to play.now.play) → CanAdd play.now lines.old.items }
    ensures { OnOk result (lines.new.items ≡ counted from to play.now lines.old.items) }
{
    if play.begins_within(from, to) {
        add_play(lines, play)
    } else {
        Ok(())
    }
}

// After which key the next page begins, where this one is full.
fn next_after(rows: &[(Key, Rows<u8>)]) -> Option<(u64, u64)>
    ensures { IsNext PAGE rows.now result }
{
    if rows.len() < PAGE {
        return None;
    }
    match rows.split_last() {
        Some((last, _)) => Some(numbers_of(last.0)),
        None => None,
    }
}

// The two numbers of a key, which fit their types.
fn numbers_of(key: Key) -> (u64, u64)
    ensures a { result.0 ≡ key.a }
    ensures b { result.1 ≡ key.b }
    ensures fits { (result.0 < 2 ^ 64) × (result.1 < 2 ^ 64) }
{
    (key.a, key.b)
}
