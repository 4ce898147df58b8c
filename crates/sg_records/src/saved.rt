//! Rows of media, layouts, campaigns, dayparts, groups, displays and events as a keeper has them.

ghost use Rattle.std.specs.Prelude.{◌≡◌, ◌≢◌, ◌↔◌, ◌⊎◌, ◌<◌, ◌^◌, IfOk, IfSome, OnOk, MatchOption, IsTrue, Some, None, codes, true};
ghost use Rattle.std.specs.Prelude.{ℕ, Bool};
ghost use Rattle.serde_json.specs.Data.{Data, object, string, member, no_members};
ghost use Rattle.serde_json.specs.Written.{compact_text};
ghost use Rattle.serde_json.specs.View.{view};
ghost use Rattle.sg_base.specs.declared.file.Listed.{Listed};
ghost use Rattle.sg_base.specs.declared.kind.Kind.{Kind};
ghost use Rattle.sg_base.specs.declared.kind.Kind.TheVariants as of_kind;
ghost use Rattle.sg_base.specs.declared.row.Row.TheVariants as row_of;
ghost use Rattle.sg_base.specs.Keys.{number_of};
ghost use Rattle.sg_base.specs.Rows.{kind_of};
ghost use Rattle.sg_edit_rows.specs.EditRows.{IsRow, RowView, row_json};
ghost use Rattle.sg_edit_rows.specs.Older.{older_json};
ghost use Rattle.sg_rows.specs.declared.form.RowForm.TheVariants.{Edit};
ghost use Rattle.sg_rows.specs.Faults.{has_cause};
ghost use Rattle.sg_rows.specs.Rows.{IsListed};
ghost use Rattle.sg_rows.specs.Text.{file_json, whole};
ghost use Rattle.sg_records.specs.Reading.{flag_in};
ghost use Rattle.sg_records.specs.Saved.{IsSaved, IsSavedText, is_state, medium_json, saved_json, saved_text};
ghost use Rattle.sg_tables.specs.Entries.{Kept, fresh, number_of_kept};
ghost use Rattle.sg_tables.specs.Rows.{code_of};
ghost use Rattle.sg_tables.specs.Tables.{file_of};

use crate::members::{flag_in, number_in, text_in};
use crate::text;
use serde_json::{Value, json};
use sg_base::limits::PIECE_LEN;
use sg_base::{Key, Kind, Listed, Row, Rows};
use sg_edit_rows::{read_row, write_older_row, write_row};
use sg_rows::{ManifestRow, RowFault, RowForm};
use sg_tables::RowId;
use std::alloc::{AllocError, Global};
use std::marker::Model;

/// A row as it was kept: of a medium, how many of its bytes have come, and whether it is complete.
#[derive(Debug, Drop)]
pub struct Saved {
    row: Row,
    received: u32,
    complete: bool,
}

impl Model for Saved {
    ghost use Rattle.sg_tables.specs.Entries.{Kept};

    ghost Value = { Kept };

    ghost view = { λ s. record { row = s.row; received = s.received; complete = s.complete } };
}

impl Saved {
    /// The row.
    pub fn row(&self) -> &Row
        ensures { result.now ≡ self.now.row }
    {
        &self.row
    }

    /// How many bytes of a medium have come.
    pub fn received(&self) -> u32
        ensures { result ≡ self.now.received }
    {
        self.received
    }

    /// Whether it is complete.
    pub fn is_complete(&self) -> bool
        ensures { result ≡ self.now.complete }
    {
        self.complete
    }
}

// ---- texts

fn medium_value(
    alloc: Global,
    file: &Listed,
    received: u32,
    complete: bool,
) -> Result<Value, AllocError>
    ensures { IfOk result (λ v. view v ≡ medium_json file.now received complete) }
{
    let digits = hex::encode(alloc, file.md5.as_slice())?;
    json!(in alloc; {
        "complete": complete,
        "id": file.media.0,
        "length": file.length,
        "md5": digits,
        "received": received
    })
}

/// The text of a medium's row.
#[tactic(auto, unfolding(crate::specs::Saved::saved_text))]
pub fn write_medium(
    alloc: Global,
    file: &Listed,
    received: u32,
    complete: bool,
) -> Result<Rows<u8>, AllocError>
    ensures { IfOk result (λ text. text ≡ saved_text
        (record { row = row_of.Media file.now; received = received; complete = complete })) }
{
    let value = medium_value(alloc, file, received, complete)?;
    text::write(alloc, &value)
}

// The text of a row with what has come of it, if it is a medium.
#[tactic(auto, unfolding(crate::specs::Saved::saved_text))]
fn write_saved(
    alloc: Global,
    row: &Row,
    received: u32,
    complete: bool,
) -> Result<Rows<u8>, AllocError>
    requires { IsRow Edit row.now }
    ensures { IfOk result (λ text. text
        ≡ saved_text (record { row = row.now; received = received; complete = complete })) }
{
    match row {
        Row::Media(file) => write_medium(alloc, file, received, complete),
        Row::Layout(_)
        | Row::Campaign(_)
        | Row::Daypart(_)
        | Row::Group(_)
        | Row::Display(_)
        | Row::Event(_) => write_other(alloc, row),
    }
}

// The text of a row by itself.
fn write_other(alloc: Global, row: &Row) -> Result<Rows<u8>, AllocError>
    requires { IsRow Edit row.now }
    ensures { IfOk result (λ text. text ≡ compact_text (row_json Edit row.now)) }
{
    let value = write_row(alloc, row, RowForm::Edit)?;
    text::write(alloc, &value)
}

/// The text of a row that has just come in.
pub fn write_fresh(alloc: Global, row: &Row) -> Result<Rows<u8>, AllocError>
    requires { IsRow Edit row.now }
    ensures { IfOk result (λ text. text ≡ saved_text (fresh row.now)) }
{
    write_saved(alloc, row, 0, !matches!(row, Row::Media(_)))
}

// Whether bytes are a text that a server wrote before version 2.
fn is_older_text(alloc: Global, row: &Row, bytes: &[u8]) -> Result<bool, AllocError>
    requires { IsRow Edit row.now }
    ensures { IfOk result (λ is. IsTrue is ↔ ((json : Data) × (older_json row.now ≡ Some json)
        × (bytes.now ≡ compact_text json))) }
{
    match write_older_row(alloc, row)? {
        Some(value) => {
            let text = text::write(alloc, &value)?;
            Ok(text.as_slice() == bytes)
        }
        None => Ok(false),
    }
}

// Whether bytes are a text of a row.
fn is_text(alloc: Global, saved: &Saved, bytes: &[u8]) -> Result<bool, AllocError>
    requires { IsRow Edit saved.now.row }
    ensures { IfOk result (λ is. IsTrue is ↔ IsSavedText saved.now bytes.now) }
{
    let text = write_saved(alloc, &saved.row, saved.received, saved.complete)?;
    if text.as_slice() == bytes {
        return Ok(true);
    }
    is_older_text(alloc, &saved.row, bytes)
}

// ---- reading

// The kind of rows of this number.
fn kind_at(code: u8) -> Option<Kind>
    ensures found { IfSome result (λ kind. (code_of kind ≡ code) × (kind ≢ of_kind.Client)) }
    ensures only { (kind : Kind) → code_of kind ≡ code → kind ≢ of_kind.Client → result ≡ Some kind }
{
    match code {
        1 => Some(Kind::Media),
        2 => Some(Kind::Layout),
        3 => Some(Kind::Campaign),
        4 => Some(Kind::Daypart),
        5 => Some(Kind::Group),
        6 => Some(Kind::Display),
        7 => Some(Kind::Event),
        _ => None,
    }
}

// Nothing, unless memory ran out.
fn unless_memory(fault: RowFault) -> Result<(), AllocError>
    ensures { OnOk result (has_cause fault ≡ true) }
{
    match fault {
        RowFault::Memory => Err(AllocError),
        RowFault::Shape
        | RowFault::Later
        | RowFault::Layout(_)
        | RowFault::Daypart(_)
        | RowFault::Repeat(_)
        | RowFault::Event(_)
        | RowFault::Zone(_)
        | RowFault::NoReplace
        | RowFault::Incomplete(_) => Ok(()),
    }
}

// The file that its own JSON says.
fn listed_in(alloc: Global, value: &Value) -> Result<Option<Listed>, AllocError>
    ensures valid { IfOk result (λ found. IfSome found IsListed) }
    ensures again { IfOk result (λ found. (f : Listed) → IsListed f → view value.now ≡ file_json f → found ≡ Some f) }
{
    match Listed::read(alloc, RowForm::Edit, value) {
        Ok(file) => Ok(Some(file)),
        Err(fault) => {
            unless_memory(fault)?;
            Ok(None)
        }
    }
}

// The JSON of a file.
fn file_value(alloc: Global, id: u32, length: u32, digits: &str) -> Result<Value, AllocError>
    ensures { IfOk result (λ v. view v ≡ object
        (member (codes "id") (whole id)
        (member (codes "length") (whole length)
        (member (codes "md5") (string digits.now) no_members)))) }
{
    json!(in alloc; {"id": id, "length": length, "md5": digits})
}

// The file that JSON says by the members of a medium.
fn file_in(alloc: Global, value: &Value) -> Result<Option<Listed>, AllocError>
    ensures valid { IfOk result (λ found. IfSome found IsListed) }
    ensures again { IfOk result (λ found. (f : Listed) (received : ℕ) (complete : Bool) → IsListed f
        → view value.now ≡ medium_json f received complete → found ≡ Some f) }
{
    match (
        number_in(value, "id"),
        number_in(value, "length"),
        text_in(value, "md5"),
    ) {
        (Some(id), Some(length), Some(digits)) => {
            let file = file_value(alloc, id, length, digits)?;
            listed_in(alloc, &file)
        }
        _ => Ok(None),
    }
}

// The medium that JSON says, with what has come of it.
fn medium_in(alloc: Global, value: &Value) -> Result<Option<Saved>, AllocError>
    ensures valid { IfOk result (λ found. IfSome found (λ s. IsRow Edit s.row × (kind_of s.row ≡ of_kind.Media))) }
    ensures again { IfOk result (λ found. (f : Listed) (received : ℕ) (complete : Bool) → IsListed f
        → received < 2 ^ 32 → view value.now ≡ medium_json f received complete
        → found ≡ Some (record { row = row_of.Media f; received = received; complete = complete })) }
{
    let (Some(received), Some(complete)) = (
        number_in(value, "received"),
        flag_in(value, "complete"),
    ) else {
        return Ok(None);
    };
    let Some(file) = file_in(alloc, value)? else {
        return Ok(None);
    };
    Ok(Some(Saved {
        row: Row::Media(file),
        received,
        complete,
    }))
}

// The row of a kind that JSON says, today or before version 2.
fn row_in(alloc: Global, kind: Kind, value: &Value) -> Result<Option<Row>, AllocError>
    requires { kind ≢ of_kind.Client }
    ensures valid { IfOk result (λ found. IfSome found (λ r. IsRow Edit r × (kind_of r ≡ kind))) }
    ensures again { IfOk result (λ found. (r : RowView) → IsRow Edit r → kind_of r ≡ kind
        → (view value.now ≡ row_json Edit r) ⊎ (older_json r ≡ Some (view value.now))
        → found ≡ Some r) }
{
    match read_row(alloc, kind, RowForm::Edit, value) {
        Ok(row) => Ok(Some(row)),
        Err(fault) => {
            unless_memory(fault)?;
            Ok(None)
        }
    }
}

// What JSON says of a row of a kind.
fn saved_in(alloc: Global, kind: Kind, value: &Value) -> Result<Option<Saved>, AllocError>
    requires { kind ≢ of_kind.Client }
    ensures valid { IfOk result (λ found. IfSome found (λ s. IsRow Edit s.row × (kind_of s.row ≡ kind))) }
    ensures again { IfOk result (λ found. (e : Kept) → IsSaved e → kind_of e.row ≡ kind
        → (view value.now ≡ saved_json e) ⊎ (older_json e.row ≡ Some (view value.now))
        → found ≡ Some e) }
{
    match kind {
        Kind::Media => {
            let found = medium_in(alloc, value)?;
            Ok(found)
        }
        Kind::Layout
        | Kind::Campaign
        | Kind::Daypart
        | Kind::Group
        | Kind::Display
        | Kind::Event
        | Kind::Client => other_in(alloc, kind, value),
    }
}

// What JSON says of a row that is no medium.
fn other_in(alloc: Global, kind: Kind, value: &Value) -> Result<Option<Saved>, AllocError>
    requires rows { kind ≢ of_kind.Client }
    requires other { kind ≢ of_kind.Media }
    ensures valid { IfOk result (λ found. IfSome found (λ s. IsRow Edit s.row × (kind_of s.row ≡ kind))) }
    ensures again { IfOk result (λ found. (e : Kept) → IsSaved e → kind_of e.row ≡ kind
        → (view value.now ≡ saved_json e) ⊎ (older_json e.row ≡ Some (view value.now))
        → found ≡ Some e) }
{
    match row_in(alloc, kind, value)? {
        Some(row) => Ok(Some(Saved {
            row,
            received: 0,
            complete: true,
        })),
        None => Ok(None),
    }
}

fn is_state(saved: &Saved) -> bool
    ensures { result ≡ is_state (file_of saved.now.row) saved.now.received saved.now.complete }
{
    match &saved.row {
        Row::Media(file) => if saved.complete {
            saved.received == file.length
        } else {
            saved.received < file.length && saved.received % PIECE_LEN == 0
        },
        Row::Layout(_)
        | Row::Campaign(_)
        | Row::Daypart(_)
        | Row::Group(_)
        | Row::Display(_)
        | Row::Event(_) => saved.received == 0 && saved.complete,
    }
}

// Whether a row is kept so under a key.
fn is_own(key: Key, saved: &Saved) -> bool
    ensures { IsTrue result ↔ ((number_of_kept saved.now ≡ number_of key)
        × IsTrue (is_state (file_of saved.now.row) saved.now.received saved.now.complete)) }
{
    RowId::of(&saved.row).key() == key && is_state(saved)
}

// What a text says of a row of a kind.
fn said(alloc: Global, kind: Kind, bytes: &[u8]) -> Result<Option<Saved>, AllocError>
    requires { kind ≢ of_kind.Client }
    ensures valid { IfOk result (λ found. IfSome found (λ s. IsRow Edit s.row × (kind_of s.row ≡ kind))) }
    ensures again { IfOk result (λ found. (e : Kept) → IsSaved e → kind_of e.row ≡ kind
        → IsSavedText e bytes.now → found ≡ Some e) }
{
    match text::read(alloc, bytes)? {
        Some(value) => saved_in(alloc, kind, &value),
        None => Ok(None),
    }
}

// The row of a kind that is kept under a key with a text.
fn read_of(alloc: Global, kind: Kind, key: Key, bytes: &[u8]) -> Result<Option<Saved>, AllocError>
    requires rows { kind ≢ of_kind.Client }
    requires kind { code_of kind ≡ key.kind }
    ensures { IfOk result (λ found. MatchOption found
        ((e : Kept) → IsSaved e → number_of_kept e ≡ number_of key → IsSavedText e bytes.now → ⊥)
        (λ s. IsSaved s × (number_of_kept s ≡ number_of key) × IsSavedText s bytes.now)) }
{
    match said(alloc, kind, bytes)? {
        Some(saved) => {
            if !is_own(key, &saved) {
                return Ok(None);
            }
            if is_text(alloc, &saved, bytes)? {
                Ok(Some(saved))
            } else {
                Ok(None)
            }
        }
        None => Ok(None),
    }
}

/// The row that is kept under a key with a text; `None` if no row is kept so.
pub fn read_saved(alloc: Global, key: Key, bytes: &[u8]) -> Result<Option<Saved>, AllocError>
    ensures { IfOk result (λ found. MatchOption found
        ((e : Kept) → IsSaved e → number_of_kept e ≡ number_of key → IsSavedText e bytes.now → ⊥)
        (λ s. IsSaved s × (number_of_kept s ≡ number_of key) × IsSavedText s bytes.now)) }
{
    match kind_at(key.kind) {
        Some(kind) => read_of(alloc, kind, key, bytes),
        None => Ok(None),
    }
}
