//! The manifest of a display.

ghost use Rattle.std.specs.Prelude.{◌≡◌, List, IfOk};
ghost use Rattle.std.specs.List.{AllByRecursion};
ghost use Rattle.sg_base.specs.declared.ids.DisplayId.{DisplayId as Display};
ghost use Rattle.sg_edit_rows.specs.EditRows.{IsRow};
ghost use Rattle.sg_manifest.specs.Text.{text};
ghost use Rattle.sg_own_rows.specs.Own.{files_of};
ghost use Rattle.sg_rows.specs.declared.form.RowForm.TheVariants.{Edit};
ghost use Rattle.sg_tables.specs.Entries.{Kept};
ghost use Rattle.sg_views.specs.Views.{manifest_reply, own_rows_of, unless_long};

use sg_base::limits::MANIFEST_TEXT;
use sg_base::{DisplayId, LimitName, Rows};
use sg_manifest::{Snapshot, text_len, write};
use sg_own_rows::{Own, own_rows};
use sg_tables::Tables;
use std::alloc::{AllocError, Global};

/// The answer to a display that asks for its manifest.
#[derive(Debug, Drop)]
pub enum ManifestReply {
    /// The text of the manifest.
    Text(Rows<u8>),
    /// There is no such display.
    Unknown,
    /// The manifest would be over a limit: the first that it exceeds, and how much it has of what is limited.
    TooLarge { name: LimitName, count: u64 },
}

/// The manifest of a display, in its newer version.
pub fn manifest_of(
    alloc: Global,
    tables: &Tables,
    display: DisplayId,
) -> Result<ManifestReply, AllocError>
    requires { AllByRecursion (λ e. IsRow Edit e.row) tables.now.rows }
    ensures { IfOk result (λ reply. reply ≡ manifest_reply display tables.now.rows) }
{
    match own_rows(alloc, tables, display)? {
        Own::Unknown => Ok(ManifestReply::Unknown),
        Own::TooLarge { name, count } => Ok(ManifestReply::TooLarge { name, count }),
        Own::Rows(draft) => text_reply(alloc, &Snapshot::new(draft)),
    }
}

// The text of a manifest. One that is too long isn't made.
fn text_reply(alloc: Global, snapshot: &Snapshot) -> Result<ManifestReply, AllocError>
    ensures { IfOk result (λ reply. reply ≡ unless_long (text snapshot.now)) }
{
    let count = text_len(snapshot);
    if count > MANIFEST_TEXT {
        return Ok(ManifestReply::TooLarge {
            name: LimitName::Text,
            count,
        });
    }
    Ok(ManifestReply::Text(Rows::from_vec(write(alloc, snapshot)?)))
}

/// Two servers of which a display has the same own rows give it the same manifest and the same files, whatever else they
/// have. It does nothing when it runs; its clauses are the law.
pub fn same_answers()
    ensures manifest { (display : Display) (one other : List Kept)
        → own_rows_of display one ≡ own_rows_of display other
        → manifest_reply display one ≡ manifest_reply display other }
    ensures files { (display : Display) (one other : List Kept)
        → own_rows_of display one ≡ own_rows_of display other
        → files_of display one ≡ files_of display other }
{}
