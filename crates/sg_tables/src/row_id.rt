//! Which row is meant.

ghost use Rattle.std.specs.Prelude.{◌≡◌, ◌^◌, ◌<◌};
ghost use Rattle.sg_base.specs.Keys.{number_of};
ghost use Rattle.sg_tables.specs.Rows.{code_of, id_in};

use sg_base::{Key, Kind, Row};

/// The kind and the id of a row.
#[derive(Clone, Copy, Debug, PartialEq, Eq)]
pub struct RowId {
    pub kind: Kind,
    pub id: u32,
}

impl RowId {
    ghost use Rattle.sg_tables.specs.Rows.{number_at, id_of, is_same};

    /// That of a row.
    pub fn of(row: &Row) -> RowId
        ensures value { result ≡ id_of row.now }
        ensures bound { result.id < 2 ^ 32 }
    {
        let id = id_in(row);
        RowId {
            kind: row.kind(),
            id,
        }
    }

    /// The key under which the row is kept.
    pub fn key(self) -> Key
        ensures { number_of result ≡ number_at self }
    {
        Key {
            kind: code(self.kind),
            a: u64::from(self.id),
            b: 0,
        }
    }

    /// Whether both are of one row.
    pub fn is_same(self, other: RowId) -> bool
        ensures { result ≡ is_same self other }
    {
        code(self.kind) == code(other.kind) && self.id == other.id
    }
}

fn id_in(row: &Row) -> u32
    ensures { result ≡ id_in row.now }
{
    match row {
        Row::Media(file) => file.media.0,
        Row::Layout(layout) => layout.id().0,
        Row::Campaign(campaign) => campaign.id.0,
        Row::Daypart(daypart) => daypart.id().0,
        Row::Group(group) => group.0,
        Row::Display(display) => display.id.0,
        Row::Event(event) => event.event.id().0,
    }
}

/// The number of a kind among the keys of kept rows.
pub fn code(kind: Kind) -> u8
    ensures { result ≡ code_of kind }
{
    match kind {
        Kind::Media => 1,
        Kind::Layout => 2,
        Kind::Campaign => 3,
        Kind::Daypart => 4,
        Kind::Group => 5,
        Kind::Display => 6,
        Kind::Event => 7,
        Kind::Client => 8,
    }
}
