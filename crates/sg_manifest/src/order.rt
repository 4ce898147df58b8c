//! The rows of a manifest by ascending id.

ghost use Rattle.std.specs.Prelude.{◌≡◌, IsPermutation};
ghost use Rattle.std.specs.List.{IsDistinct};
ghost use Rattle.sg_rows.specs.Order.{same_number, sorted_by};

use crate::snapshot::Draft;
use sg_base::Rows;
use sg_rows::ManifestRow;

/// Rows by ascending id. It takes no memory, and where they ascend already it only looks at each.
fn by_id<T: ManifestRow>(rows: Rows<T>) -> Rows<T>
    requires { IsDistinct (same_number T.key) rows }
    ensures { result ≡ sorted_by T.key rows }
{
    let mut rows = rows.into_vec();
    rows.sort_unstable_by_key(|row| row.key());
    Rows::from_vec(rows)
}

impl Draft {
    ghost use Rattle.sg_manifest.specs.Reading.{ordered};
    ghost use Rattle.sg_manifest.specs.Fitting.{IsApart};

    /// The same rows, each list by ascending id.
    pub(crate) fn ordered(self) -> Draft
        requires { IsApart self }
        ensures { result ≡ ordered self }
    {
        let Draft {
            version,
            zone,
            default,
            layouts,
            campaigns,
            dayparts,
            events,
            files,
        } = self;
        Draft {
            version,
            zone,
            default,
            layouts: by_id(layouts),
            campaigns: by_id(campaigns),
            dayparts: by_id(dayparts),
            events: by_id(events),
            files: by_id(files),
        }
    }
}
