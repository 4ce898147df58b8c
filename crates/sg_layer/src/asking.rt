//! Which events are active at a local second, and up to which second none of that changes.

ghost use Rattle.std.specs.Prelude.{◌≡◌, ◌+◌, ◌*◌, ◌<◌, ◌≤◌, ◌<ℤ◌, ◌≤ℤ◌, ℤ, List, [], ◌∷◌, ◌++◌, map, length, vec_len, vec_capacity, option_copied};
ghost use Rattle.std.specs.List.{AllByRecursion};
ghost use Rattle.sg_base.specs.Seconds.{IsAskable};
ghost use Rattle.sg_events.specs.Edges.{IsLesser};
ghost use Rattle.sg_layer.specs.declared.entry.Entry.{Entry as EntryValue};
ghost use Rattle.sg_layer.specs.Lists.{IsEntry, is_active};
ghost use Rattle.sg_layer.specs.Segment.{IsNext, IsSoonest};

use crate::entry::Entry;
use crate::listing::append;
use sg_base::limits::LOCAL_END;
use sg_base::{LocalSec, Steps};
use sg_events::{active, is_quiet, next_change};
use std::sync::ledger::Ledger;

/// Marks which of some entries are active at a local second, and gives the sooner of a second and the first edge of
/// the entries. Each entry is asked for both, which counts two steps, unless the time of day tells that it is idle up to
/// that second.
pub(crate) fn ask<L: Ledger>(
    entries: &[Entry],
    t: LocalSec,
    until: LocalSec,
    steps: &mut Steps<L>,
    marks: &mut Vec<bool>,
) -> LocalSec
    requires second { IsAskable t }
    requires entries { AllByRecursion IsEntry entries.now }
    requires room { length entries.now ≤ vec_capacity marks.old }
    requires later { t <ℤ until }
    requires bound { until ≤ℤ LOCAL_END }
    ensures marks { marks.new.items ≡ map (is_active t) entries.now }
    ensures room { vec_capacity marks.old ≤ vec_capacity marks.new }
    ensures soonest { (rest : List EntryValue) (end : ℤ) →
        IsSoonest result rest t end → IsSoonest until (entries.now ++ rest) t end }
    ensures later { t <ℤ result }
    ensures bound { result ≤ℤ LOCAL_END }
    ensures ticks { steps.new ≤ steps.old + 2 * length entries.now }
{
    marks.clear();
    let mut soonest = until;
    for entry in entries {
        soonest = ask_one(entry, t, soonest, steps, marks);
    }
    soonest
}

// Marks whether an entry is active, and gives the sooner of a second and the entry's next edge.
fn ask_one<L: Ledger>(
    entry: &Entry,
    t: LocalSec,
    until: LocalSec,
    steps: &mut Steps<L>,
    marks: &mut Vec<bool>,
) -> LocalSec
    requires second { IsAskable t }
    requires entry { IsEntry entry.now }
    requires room { vec_len marks.old < vec_capacity marks.old }
    requires later { t <ℤ until }
    requires bound { until ≤ℤ LOCAL_END }
    ensures marks { marks.new.items ≡ marks.old.items ++ is_active t entry.now ∷ [] }
    ensures room { vec_capacity marks.old ≤ vec_capacity marks.new }
    ensures soonest { (rest : List EntryValue) (end : ℤ) →
        IsSoonest result rest t end → IsSoonest until (entry.now ∷ rest) t end }
    ensures later { t <ℤ result }
    ensures bound { result ≤ℤ LOCAL_END }
    ensures ticks { steps.new ≤ steps.old + 2 }
{
    if is_quiet(&entry.event, entry.daypart.as_ref(), t, until) {
        append(marks, false);
        return until;
    }
    append(marks, is_active(entry, t, steps));
    sooner(until, next_edge(entry, t, steps))
}

// Whether an entry's event is active.
fn is_active<L: Ledger>(entry: &Entry, t: LocalSec, steps: &mut Steps<L>) -> bool
    requires second { IsAskable t }
    requires entry { IsEntry entry.now }
    ensures value { result ≡ is_active t entry.now }
    ensures ticks { steps.new ≡ steps.old + 1 }
{
    active(&entry.event, entry.daypart.as_ref(), t, steps)
}

// The next edge of an entry's event.
fn next_edge<L: Ledger>(entry: &Entry, t: LocalSec, steps: &mut Steps<L>) -> LocalSec
    requires second { IsAskable t }
    requires entry { IsEntry entry.now }
    ensures value { IsNext entry.now t result }
    ensures ticks { steps.new ≡ steps.old + 1 }
{
    next_change(&entry.event, entry.daypart.as_ref(), t, steps)
}

fn sooner(a: LocalSec, b: LocalSec) -> LocalSec
    ensures { IsLesser a b result }
{
    if a.second() < b.second() { a } else { b }
}
