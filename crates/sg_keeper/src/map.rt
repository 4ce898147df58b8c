//! A keeper in memory.

ghost use Rattle.std.specs.Prelude.{◌≡◌, ◌≢◌, ◌↔◌, ℕ, ◌+◌, ◌<◌, ◌≤◌, [], min, length, map, IfOk, IfErr, OnOk, OnErr, IsErr, IsErrOf, None, Some, option_map, Contains};
ghost use Rattle.std.specs.List.{AllByRecursion};
ghost use Rattle.sg_base.specs.Causes.{Rose};
ghost use Rattle.sg_base.specs.Keys.{number_of};
ghost use Rattle.sg_base.specs.Rising.{IsRising, found};
ghost use Rattle.sg_base.specs.Stops.{Lowers, Falls, LowersByOne};
ghost use Rattle.sg_keeper.specs.View.{Ran, Broke, Refused, Same};
ghost use Rattle.sg_keeper.specs.Changes.{applied, changed};
ghost use Rattle.sg_keeper.specs.Pages.{start_of, end_of, IsPage, HasPageForm};
ghost use Rattle.sg_keeper.specs.Map.{entry_number, rows_in, pair_of, stop_after};

use crate::keeper::{Change, Keeper, KeeperFail};
use sg_base::{Key, Rank, Ranked, Rows, Sorted};
use std::alloc::{AllocError, Global};

/// A row with its key.
#[derive(Debug, Drop)]
pub struct Entry {
    pub key: Key,
    pub bytes: Rows<u8>,
}

impl Ranked for Entry {
    ghost rank = { λ e. number_of e.key };

    fn rank(&self) -> Rank {
        self.key.rank()
    }
}

/// Rows in memory. Its calls fail where that was asked for: in a test, or in a script.
#[derive(Drop)]
pub struct MapKeeper {
    alloc: Global,
    entries: Sorted<Entry>,
    stop: Option<u64>,
    begun: u64,
    failing: Vec<u64>,
    faults: u64,
}

impl MapKeeper {
    ghost use Rattle.sg_keeper.specs.Map.{map_view, FailsNext, HasBegun};

    /// No row, and no call that is to fail.
    pub fn new(alloc: Global) -> MapKeeper
        ensures rows { (map_view result).rows ≡ rows_in [] }
        ensures faults { result.faults ≡ 0 }
        ensures stop { result.stop ≡ None }
        ensures failing { result.failing.items ≡ [] }
    {
        MapKeeper::with_failing(alloc, Vec::new(alloc))
    }

    /// No row. The calls with these numbers are to fail and change nothing, where the first call has the number 0. The stop
    /// doesn't tell of them.
    pub fn with_failing(alloc: Global, failing: Vec<u64>) -> MapKeeper
        ensures rows { (map_view result).rows ≡ rows_in [] }
        ensures faults { result.faults ≡ 0 }
        ensures stop { result.stop ≡ None }
        ensures failing { result.failing ≡ failing }
        ensures begun { result.begun ≡ 0 }
    {
        MapKeeper {
            alloc,
            entries: Sorted::new(alloc),
            stop: None,
            begun: 0,
            failing,
            faults: 0,
        }
    }

    /// How many calls still pass before one fails and changes nothing; after it the calls go on. `None` for no such call.
    pub fn stop(&self) -> Option<u64>
        ensures { result ≡ (map_view self.now).stop }
    {
        self.stop
    }

    /// Sets how many calls still pass before one fails.
    pub fn set_stop(&mut self, stop: Option<u64>)
        ensures stop { self.new.stop ≡ stop }

        // All else is as it was.
        ensures rows { (map_view self.new).rows ≡ (map_view self.old).rows }
        ensures faults { self.new.faults ≡ self.old.faults }
        ensures failing { self.new.failing ≡ self.old.failing }
        ensures begun { self.new.begun ≡ self.old.begun }
    {
        self.stop = stop;
    }

    /// How many calls have begun.
    pub fn begun(&self) -> u64
        ensures { result ≡ self.now.begun }
    {
        self.begun
    }

    /// How many calls have failed.
    pub fn faults(&self) -> u64
        ensures { result ≡ (map_view self.now).faults }
    {
        self.faults
    }

    // Begins a call, which may be one that is to fail.
    fn begin(&mut self) -> Result<(), KeeperFail>
        ensures ran { OnOk result (Ran 1 (map_view self.old) (map_view self.new)) }
        ensures broke { OnErr result (Broke (map_view self.old) (map_view self.new)) }
        ensures failed { IfErr result (λ fail. fail ≡ KeeperFail.Failed) }
        ensures fails { IsErr result ↔ FailsNext self.old }

        // Whatever it answers.
        ensures entries { self.new.entries ≡ self.old.entries }
        ensures by_one { LowersByOne self.old.stop self.new.stop }
        ensures begun { HasBegun self.old self.new }
    {
        let fails = self.stop == Some(0) || self.failing.as_slice().contains(&self.begun);
        self.stop = lowered(self.stop);
        self.begun = self.begun.saturating_add(1);
        if fails {
            self.faults = self.faults.saturating_add(1);
            return Err(KeeperFail::Failed);
        }
        Ok(())
    }
}

impl Keeper for MapKeeper {
    ghost use Rattle.sg_keeper.specs.Map.{map_view, FailsNext, HasBegun};

    ghost view = { map_view };

    fn apply(&mut self, changes: &[Change]) -> Result<(), KeeperFail>
        ensures applied { OnOk result ((map_view self.old).told →
            (map_view self.new).rows ≡ applied changes.now (map_view self.old).rows) }
        ensures ran { OnOk result (Ran 1 (map_view self.old) (map_view self.new)) }
        ensures refused { IfErr result (λ fail.
            Refused fail (map_view self.old) (map_view self.new)) }
        ensures same { OnErr result (Same (map_view self.old) (map_view self.new)) }
        ensures by_one { LowersByOne (map_view self.old).stop (map_view self.new).stop }

        // It fails in exactly the calls that are to fail.
        ensures fails { IsErrOf result KeeperFail.Failed ↔ FailsNext self.old }
        ensures begun { HasBegun self.old self.new }
    {
        self.begin()?;
        let made = copies(self.alloc, changes)?;
        self.entries.reserve(made.len())?;
        commit(&mut self.entries, made);
        Ok(())
    }

    fn get(&mut self, key: &Key) -> Result<Option<Vec<u8>>, KeeperFail>
        ensures row { IfOk result (λ row. (map_view self.old).told →
            option_map (λ bytes. bytes.items) row ≡ (map_view self.old).rows (number_of key.now)) }
        ensures ran { OnOk result (Ran 1 (map_view self.old) (map_view self.new)) }
        ensures refused { IfErr result (λ fail.
            Refused fail (map_view self.old) (map_view self.new)) }
        ensures same { Same (map_view self.old) (map_view self.new) }
        ensures by_one { LowersByOne (map_view self.old).stop (map_view self.new).stop }

        // It fails in exactly the calls that are to fail.
        ensures fails { IsErrOf result KeeperFail.Failed ↔ FailsNext self.old }
        ensures begun { HasBegun self.old self.new }
    {
        self.begin()?;
        match self.entries.find(key.rank()) {
            Some(entry) => {
                let bytes = Vec::from_slice(self.alloc, entry.bytes.as_slice())?;
                Ok(Some(bytes))
            }
            None => Ok(None),
        }
    }

    fn list(
        &mut self,
        kind: u8,
        after: Option<(u64, u64)>,
        limit: usize,
    ) -> Result<Vec<(Key, Rows<u8>)>, KeeperFail>
        ensures page { IfOk result (λ page. (map_view self.old).told →
            IsPage (start_of kind after) (end_of kind) limit (map_view self.old).rows page.items) }
        ensures form { IfOk result (λ page.
            HasPageForm (start_of kind after) (end_of kind) limit page.items) }
        ensures ran { OnOk result (Ran 1 (map_view self.old) (map_view self.new)) }
        ensures refused { IfErr result (λ fail.
            Refused fail (map_view self.old) (map_view self.new)) }
        ensures same { Same (map_view self.old) (map_view self.new) }
        ensures by_one { LowersByOne (map_view self.old).stop (map_view self.new).stop }

        // It fails in exactly the calls that are to fail.
        ensures fails { IsErrOf result KeeperFail.Failed ↔ FailsNext self.old }
        ensures begun { HasBegun self.old self.new }
    {
        self.begin()?;
        let page = page_of(self.alloc, &self.entries, kind, after, limit)?;
        Ok(page)
    }
}

// The stop after a call.
fn lowered(stop: Option<u64>) -> Option<u64>
    ensures { result ≡ stop_after stop }
{
    match stop {
        None | Some(0) => None,
        Some(calls) => Some(calls - 1),
    }
}

// Copies of changes, with their bytes.
fn copies(alloc: Global, changes: &[Change]) -> Result<Vec<Change>, AllocError>
    ensures { IfOk result (λ made. made.items ≡ changes.now) }
{
    let mut made = Vec::new(alloc);
    for change in changes {
        made.push(copy_of(alloc, change)?)?;
    }
    Ok(made)
}

fn copy_of(alloc: Global, change: &Change) -> Result<Change, AllocError>
    ensures { IfOk result (λ copy. copy ≡ change.now) }
{
    match change {
        Change::Put(key, bytes) => {
            let bytes = Vec::from_slice(alloc, bytes.as_slice())?;
            Ok(Change::Put(*key, Rows::from_vec(bytes)))
        }
        Change::Drop(key) => Ok(Change::Drop(*key)),
    }
}

// Makes changes for which there is room, one after another.
fn commit(entries: &mut Sorted<Entry>, changes: Vec<Change>)
    requires { length changes.items ≤ entries.old.room }
    ensures { rows_in entries.new.items ≡ applied changes.items (rows_in entries.old.items) }
{
    let mut rest = changes.into_iter();
    while let Some(change) = rest.next() {
        make(entries, change);
    }
}

fn make(entries: &mut Sorted<Entry>, change: Change)
    requires { 0 < entries.old.room }
    ensures rows { rows_in entries.new.items ≡ changed change (rows_in entries.old.items) }
    ensures room { entries.old.room ≤ entries.new.room + 1 }
{
    match change {
        Change::Put(key, bytes) => entries.put(Entry { key, bytes }),
        Change::Drop(key) => entries.remove(key.rank()),
    }
}

// Copies of the first rows of a kind, or of the first after one.
fn page_of(
    alloc: Global,
    entries: &Sorted<Entry>,
    kind: u8,
    after: Option<(u64, u64)>,
    limit: usize,
) -> Result<Vec<(Key, Rows<u8>)>, AllocError>
    ensures page { IfOk result (λ page.
        IsPage (start_of kind after) (end_of kind) limit (rows_in entries.now.items) page.items) }
    ensures form { IfOk result (λ page.
        HasPageForm (start_of kind after) (end_of kind) limit page.items) }
{
    let rest = entries_after(entries, kind, after);
    let count = limit.min(rest.len());
    pairs_of(alloc, &rest[..count])
}

// The rows of a kind, or those after one.
fn entries_after(entries: &Sorted<Entry>, kind: u8, after: Option<(u64, u64)>) -> &[Entry]
    ensures rising { IsRising entry_number result.now }
    ensures within { AllByRecursion (λ e.
        (start_of kind after ≤ entry_number e) × (entry_number e < end_of kind)) result.now }
    ensures all { (n : ℕ) → start_of kind after ≤ n → n < end_of kind →
        found entry_number n result.now ≡ found entry_number n entries.now.items }
{
    let start = match after {
        None => Key { kind, a: 0, b: 0 }.rank(),
        Some((a, b)) => Key { kind, a, b }.rank_after(),
    };
    entries.between(start, Key::rank_after_kind(kind))
}

// Copies of rows, as a page has them.
fn pairs_of(alloc: Global, entries: &[Entry]) -> Result<Vec<(Key, Rows<u8>)>, AllocError>
    ensures { IfOk result (λ pairs. pairs.items ≡ map pair_of entries.now) }
{
    let mut pairs = Vec::new(alloc);
    for entry in entries {
        let bytes = Vec::from_slice(alloc, entry.bytes.as_slice())?;
        pairs.push((entry.key, Rows::from_vec(bytes)))?;
    }
    Ok(pairs)
}
