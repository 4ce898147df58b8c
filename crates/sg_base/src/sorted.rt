//! Sorted tables: elements by ascending rank, found by halving.
//!
//! A rank is a number of up to 192 bits, which each element has for itself. Contracts see a table as the list of its
//! elements, and as the number of elements for which it has room: a change for which there is room takes no memory, so
//! it can't fail.

ghost use Rattle.std.specs.Prelude.{◌≡◌, ◌≢◌, ℕ, ◌+◌, ◌^◌, ◌<◌, ◌≤◌, nat_lt, IfOk, IfErr, OnOk, None, [], length, slice_index_or};
ghost use Rattle.std.specs.List.{AllByRecursion, insert};
ghost use Rattle.std.specs.Option.{option_copied};
ghost use Rattle.std.specs.Vec.{vec_capacity, vec_len};
ghost use Rattle.sg_base.specs.Ranks.{rank_of};
ghost use Rattle.sg_base.specs.Rising.{IsRising, IsFirstFrom, found, put, without};

use std::alloc::{AllocError, Global};
use std::marker::Model;

/// Where an element stands among others: a number in two parts.
#[derive(Clone, Copy, Debug, PartialEq, Eq, PartialOrd, Ord, Hash)]
pub struct Rank {
    pub high: u64,
    pub low: u128,
}

impl Rank {
    ghost use Rattle.sg_base.specs.Ranks.{rank_of};

    /// Whether this rank comes before another.
    pub fn is_below(self, other: Rank) -> bool
        ensures { result ≡ nat_lt (rank_of self) (rank_of other) }
    {
        self.high < other.high || (self.high == other.high && self.low < other.low)
    }
}

/// An element of a sorted table.
pub trait Ranked {
    ghost use Rattle.sg_base.specs.Ranks.{rank_of};

    /// Its rank, as a number.
    ghost rank: { Self → ℕ };

    /// Its rank.
    fn rank(&self) -> Rank
        ensures { rank_of result ≡ rank self.now };
}

/// Elements by ascending rank, no two of one rank.
#[derive(Drop)]
pub struct Sorted<T: Ranked> {
    items: Vec<T>,
}

impl<T: Ranked> Model for Sorted<T> {
    ghost use Rattle.std.specs.Prelude.{◌-◌};
    ghost use Rattle.std.specs.Vec.{vec_capacity, vec_len};
    ghost use Rattle.sg_base.specs.Tables.{Table, table_code};
    ghost use Rattle.sg_base.specs.Rising.{IsRising};

    ghost Value = { Table T };

    ghost coded = { table_code T.code };

    ghost view = { λ s. record { items = s.items.items; room = vec_capacity s.items - vec_len s.items } };

    ghost invariant = { λ s. IsRising T.rank s.items.items };
}

impl<T: Ranked + Drop> Sorted<T> {
    /// A table without elements. It takes no memory.
    pub fn new(alloc: Global) -> Sorted<T>
        ensures { result.items ≡ [] }
    {
        Sorted {
            items: Vec::new(alloc),
        }
    }

    /// The elements by ascending rank.
    pub fn as_slice(&self) -> &[T]
        ensures items { result.now ≡ self.now.items }
        ensures rising { IsRising T.rank result.now }
    {
        self.items.as_slice()
    }

    /// The elements whose ranks are at least `start` and below `end`.
    pub fn between(&self, start: Rank, end: Rank) -> &[T]
        requires { rank_of start ≤ rank_of end }
        ensures within { AllByRecursion (λ x.
            (rank_of start ≤ T.rank x) × (T.rank x < rank_of end)) result.now }
        ensures all { (k : ℕ) → rank_of start ≤ k → k < rank_of end →
            found T.rank k result.now ≡ found T.rank k self.now.items }
        ensures rising { IsRising T.rank result.now }
    {
        let from = self.first_from(start);
        let to = self.first_from(end);
        let (_, rest) = self.items.as_slice().split_at(from);
        let (middle, _) = rest.split_at(to - from);
        middle
    }

    /// The element of a rank.
    pub fn find(&self, rank: Rank) -> Option<&T>
        ensures element { option_copied result ≡ found T.rank (rank_of rank) self.now.items }
        ensures rising { IsRising T.rank self.now.items }
    {
        match self.search(rank) {
            Ok(index) => Some(&self.items[index]),
            Err(_) => None,
        }
    }

    /// Makes room for some more elements.
    pub fn reserve(&mut self, more: usize) -> Result<(), AllocError>
        ensures room { OnOk result (more ≤ self.new.room) }

        // Whatever it answers, the elements stay, and no room is lost.
        ensures items { self.new.items ≡ self.old.items }
        ensures kept { self.old.room ≤ self.new.room }
    {
        self.items.reserve(more)?;
        Ok(())
    }

    /// Puts an element at its place, in place of one of the same rank. It takes no memory.
    pub fn put(&mut self, element: T)
        requires { 0 < self.old.room }
        ensures items { self.new.items ≡ put T.rank element self.old.items }
        ensures room { self.old.room ≤ self.new.room + 1 }
    {
        match self.search(element.rank()) {
            Ok(index) => {
                self.items[index] = element;
            }
            Err(index) => {
                insert_within(&mut self.items, index, element);
            }
        }
    }

    /// Puts an element in place of the one of the same rank, which needs no room.
    pub fn replace(&mut self, element: T)
        requires { found T.rank (T.rank element) self.old.items ≢ None }
        ensures items { self.new.items ≡ put T.rank element self.old.items }
        ensures room { self.new.room ≡ self.old.room }
    {
        if let Ok(index) = self.search(element.rank()) {
            self.items[index] = element;
        }
    }

    /// Takes out the element of a rank, if there is one.
    pub fn remove(&mut self, rank: Rank)
        ensures items { self.new.items ≡ without T.rank (rank_of rank) self.old.items }
        ensures room { self.old.room ≤ self.new.room }
    {
        if let Ok(index) = self.search(rank) {
            self.items.remove(index);
        }
    }

    // The index of the first element whose rank is at least this one; the length if there is none.
    fn first_from(&self, rank: Rank) -> usize
        ensures index { IsFirstFrom T.rank (rank_of rank) self.now.items result }
        ensures rising { IsRising T.rank self.now.items }
    {
        self.items
            .partition_point(|element| element.rank().is_below(rank))
    }

    // The index of the element of a rank, or else the one at which it would stand.
    fn search(&self, rank: Rank) -> Result<usize, usize>
        ensures found { IfOk result (λ i.
            (i < length self.now.items) × IsFirstFrom T.rank (rank_of rank) self.now.items i
            × ((d : T) → T.rank (slice_index_or self.now.items i d) ≡ rank_of rank)) }
        ensures missing { IfErr result (λ i.
            IsFirstFrom T.rank (rank_of rank) self.now.items i
            × (found T.rank (rank_of rank) self.now.items ≡ None)) }
        ensures rising { IsRising T.rank self.now.items }
        ensures fits { length self.now.items < 2 ^ 64 }
    {
        let index = self.first_from(rank);
        if index < self.items.len() && !rank.is_below(self.items[index].rank()) {
            Ok(index)
        } else {
            Err(index)
        }
    }
}

// Inserts an element for which there is room.
fn insert_within<T: Drop>(items: &mut Vec<T>, index: usize, element: T)
    requires within { index ≤ vec_len items.old }
    requires room { vec_len items.old < vec_capacity items.old }
    ensures items { items.new.items ≡ insert items.old.items index element }
    ensures len { vec_len items.new ≡ vec_len items.old + 1 }
    ensures capacity { vec_capacity items.old ≤ vec_capacity items.new }
{
    match items.insert(index, element) {
        Ok(()) => {}
        Err(_) => {}
    }
}
