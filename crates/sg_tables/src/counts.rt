//! How often each row is named.

ghost use Rattle.std.specs.Prelude.{◌≡◌, ◌≢◌, ℕ, ◌+◌, ◌^◌, ◌<◌, ◌≤◌, length};
ghost use Rattle.sg_tables.specs.Counts.{count_number, counted, times};
ghost use Rattle.sg_tables.specs.Rows.{number_at};

use crate::row_id::RowId;
use sg_base::{Rank, Ranked, Sorted};

/// How often a row is named, at least once. No number of lists in memory fills a u128.
#[derive(Clone, Copy, Debug)]
pub struct Count {
    pub row: RowId,
    pub count: u128,
}

impl Ranked for Count {
    ghost rank = { count_number };

    fn rank(&self) -> Rank {
        self.row.key().rank()
    }
}

/// How often a row is named.
pub fn count_of(counts: &Sorted<Count>, row: RowId) -> u128
    ensures { result ≡ counted (number_at row) counts.now.items }
{
    match counts.find(row.key().rank()) {
        Some(count) => count.count,
        None => 0,
    }
}

/// Counts rows that are named from now on, each as often as it stands there.
pub fn add_all(counts: &mut Sorted<Count>, rows: &[RowId])
    requires room { length rows.now ≤ counts.old.room }
    requires fits { (n : ℕ) → counted n counts.old.items + length rows.now < 2 ^ 128 }
    ensures { (n : ℕ) → counted n counts.new.items ≡ counted n counts.old.items + times n rows.now }
{
    for row in rows {
        let count = count_of(counts, *row) + 1;
        keep(counts, *row, count);
    }
}

/// Counts rows that aren't named any more.
pub fn take_all(counts: &mut Sorted<Count>, rows: &[RowId])
    requires { (n : ℕ) → times n rows.now ≤ counted n counts.old.items }
    ensures named { (n : ℕ) → counted n counts.new.items + times n rows.now ≡ counted n counts.old.items }
    ensures room { counts.old.room ≤ counts.new.room }
{
    for row in rows {
        let count = count_of(counts, *row) - 1;
        lower(counts, *row, count);
    }
}

// Keeps a count, for which there is room.
fn keep(counts: &mut Sorted<Count>, row: RowId, count: u128)
    requires { 0 < counts.old.room }
    ensures here { counted (number_at row) counts.new.items ≡ count }
    ensures others { (n : ℕ) → n ≢ number_at row →
        counted n counts.new.items ≡ counted n counts.old.items }
    ensures room { counts.old.room ≤ counts.new.room + 1 }
{
    counts.put(Count { row, count });
}

// Keeps another count of a row that has one. A count of 0 isn't kept.
fn lower(counts: &mut Sorted<Count>, row: RowId, count: u128)
    requires { 0 < counted (number_at row) counts.old.items }
    ensures here { counted (number_at row) counts.new.items ≡ count }
    ensures others { (n : ℕ) → n ≢ number_at row →
        counted n counts.new.items ≡ counted n counts.old.items }
    ensures room { counts.old.room ≤ counts.new.room }
{
    if count == 0 {
        counts.remove(row.key().rank());
    } else {
        counts.replace(Count { row, count });
    }
}
