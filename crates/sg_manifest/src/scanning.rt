//! The rows that a good text says, read in one pass with no tree of JSON.
//
// It gives up where a text isn't good, and names no fault. Nor does it say that the bytes are the text of the rows: they
// are compared afterwards.

ghost use Rattle.std.specs.Prelude.{◌≡◌, ◌≤◌, length, IsTrue, IfSome};
ghost use Rattle.std.specs.List.{AllByRecursion, IsDistinct};
ghost use Rattle.sg_rows.specs.Order.{same_number};
ghost use Rattle.sg_manifest.specs.Snapshot.{is_version, form_of};

use crate::snapshot::Draft;
use sg_base::limits::{
    MANIFEST_CAMPAIGNS, MANIFEST_DAYPARTS, MANIFEST_EVENTS, MANIFEST_FILES, MANIFEST_LAYOUTS,
};
use sg_base::{LayoutId, Rows};
use sg_rows::{ManifestRow, RowForm};
use sg_scan::{Scan, ScanRow, scan_rows, scan_zone};
use std::alloc::Global;

/// Whether ids ascend.
fn rises<T: ManifestRow>(rows: &[T]) -> bool
    ensures { IsTrue result → IsDistinct (same_number T.key) rows.now }
{
    let mut least = 0u64;
    for row in rows {
        let id = u64::from(row.key());
        if id < least {
            return false;
        }
        least = id + 1;
    }
    true
}

/// The rows of a list of at most so many, behind a piece, which opens the list. Their ids ascend.
fn rows<T: ManifestRow + ScanRow>(
    alloc: Global,
    form: RowForm,
    text: &mut Scan,
    piece: &[u8],
    most: u64,
) -> Option<Rows<T>>
    ensures valid { IfSome result (λ v. AllByRecursion (T.ScanRow.valid form) v) }
    ensures few { IfSome result (λ v. length v ≤ most) }
    ensures apart { IfSome result (λ v. IsDistinct (same_number T.key) v) }
{
    text.pass(piece)?;
    let rows = scan_rows(alloc, form, text)?;
    if rows.len() as u64 > most {
        return None;
    }
    if rises(rows.as_slice()) {
        Some(Rows::from_vec(rows))
    } else {
        None
    }
}

/// More bytes than stand in a good text from the name of its version on.
const ENDING: usize = 256;

/// The form of the version that is named last, near the end of the text.
fn last_form(bytes: &[u8]) -> RowForm {
    let first = bytes.len().saturating_sub(ENDING);
    for place in (first..bytes.len()).rev() {
        let end = &bytes[place..];
        if end.starts_with(b"\"version\":") {
            return if end.starts_with(b"\"version\":1") {
                RowForm::Version1
            } else {
                RowForm::Version2
            };
        }
    }
    RowForm::Version2
}

/// The version whose rows stand in a form.
fn version(form: RowForm, text: &mut Scan) -> Option<u32>
    ensures known { IfSome result (λ n. IsTrue (is_version n)) }
    ensures form { IfSome result (λ n. form ≡ form_of n) }
{
    match form {
        RowForm::Version1 => {
            text.pass(b",\"version\":1")?;
            Some(1)
        }
        RowForm::Version2 => {
            text.pass(b",\"version\":2")?;
            Some(2)
        }
        RowForm::Edit => None,
    }
}

impl Draft {
    ghost use Rattle.sg_manifest.specs.Fitting.{IsDraft};

    /// The rows in the order in which they stand, each by itself valid, and ids ascending. `None` where the bytes aren't a
    /// good text, or memory runs out.
    pub(crate) fn scan(alloc: Global, bytes: &[u8]) -> Option<Draft>
        ensures { IfSome result IsDraft }
    {
        let form = last_form(bytes);
        let mut text = Scan::new(bytes);
        let campaigns = rows(
            alloc,
            form,
            &mut text,
            b"{\"campaigns\":[",
            MANIFEST_CAMPAIGNS,
        )?;
        let dayparts = rows(
            alloc,
            form,
            &mut text,
            b",\"dayparts\":[",
            MANIFEST_DAYPARTS,
        )?;
        let default = text.id_after(b",\"default\":")?;
        let events = rows(alloc, form, &mut text, b",\"events\":[", MANIFEST_EVENTS)?;
        let files = rows(alloc, form, &mut text, b",\"files\":[", MANIFEST_FILES)?;
        let layouts = rows(alloc, form, &mut text, b",\"layouts\":[", MANIFEST_LAYOUTS)?;
        let version = version(form, &mut text)?;
        text.pass(b",\"zone\":")?;
        let zone = scan_zone(alloc, &mut text)?;
        Some(Draft {
            version,
            zone,
            default: LayoutId(default),
            layouts,
            campaigns,
            dayparts,
            events,
            files,
        })
    }
}
