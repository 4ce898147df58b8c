//! A row as it is kept.

ghost use Rattle.std.specs.Prelude.{◌≡◌, IfOk};
ghost use Rattle.sg_tables.specs.Entries.{fresh, number_of_kept};
ghost use Rattle.sg_tables.specs.Rows.{references, id_of};
ghost use Rattle.sg_tables.specs.Counts.{IsBounded};
ghost use Rattle.sg_base.specs.declared.row.Row.TheVariants as row;

use crate::references::references;
use crate::row_id::RowId;
use sg_base::{Kind, Listed, Rank, Ranked, Row};
use std::alloc::{AllocError, Global};
use std::marker::Model;

/// A row as it is kept, with its id and the rows that it names, both gathered once. Of a medium it says how many of its
/// bytes have come, and whether it is complete; every other row is complete.
#[derive(Drop)]
pub struct Entry {
    row: Row,
    own: RowId,
    named: Vec<RowId>,
    received: u32,
    complete: bool,
}

impl Model for Entry {
    ghost use Rattle.sg_tables.specs.Entries.{Kept};
    ghost use Rattle.sg_tables.specs.Counts.{IsGathered};

    ghost Value = { Kept };

    ghost view = { λ e. record { row = e.row; received = e.received; complete = e.complete } };

    ghost invariant = { λ e. IsGathered
        (record { row = e.row; received = e.received; complete = e.complete }) e.own e.named.items };
}

impl Entry {
    /// A row that has just come in.
    pub fn fresh(alloc: Global, row: Row) -> Result<Entry, AllocError>
        ensures { IfOk result (λ e. e ≡ fresh row) }
    {
        let own = RowId::of(&row);
        let named = references(alloc, &row)?;
        let complete = !matches!(row, Row::Media(_));
        Ok(Entry {
            row,
            own,
            named,
            received: 0,
            complete,
        })
    }

    /// A medium of which so many bytes have come. It takes no memory.
    pub fn medium(alloc: Global, file: Listed, received: u32, complete: bool) -> Entry
        ensures { result ≡ record { row = row.Media file; received = received; complete = complete } }
    {
        Entry {
            row: Row::Media(file),
            own: RowId {
                kind: Kind::Media,
                id: file.media.0,
            },
            named: Vec::new(alloc),
            received,
            complete,
        }
    }

    /// The row.
    pub fn row(&self) -> &Row
        ensures value { result.now ≡ self.now.row }
        ensures bounded { IsBounded self.now }
    {
        &self.row
    }

    /// Which row it is.
    pub fn id(&self) -> RowId
        ensures value { result ≡ id_of self.now.row }
        ensures bounded { IsBounded self.now }
    {
        self.own
    }

    /// The rows that it names, in its order.
    pub fn references(&self) -> &[RowId]
        ensures value { result.now ≡ references self.now.row }
        ensures bounded { IsBounded self.now }
    {
        self.named.as_slice()
    }

    /// How many bytes of a medium have come.
    pub fn received(&self) -> u32
        ensures { result ≡ self.now.received }
    {
        self.received
    }

    /// Whether it is complete.
    pub fn is_complete(&self) -> bool
        ensures { result ≡ self.now.complete }
    {
        self.complete
    }
}

impl Ranked for Entry {
    ghost rank = { number_of_kept };

    fn rank(&self) -> Rank {
        self.id().key().rank()
    }
}
