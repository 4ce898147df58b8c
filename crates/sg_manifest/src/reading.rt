//! From bytes to a snapshot.

ghost use Rattle.std.specs.Prelude.{◌≡◌, ℕ, ◌≤◌, List, nat_le, length, IfOk, OnOk, Ok, None};
ghost use Rattle.serde_json.specs.View.{view};
ghost use Rattle.sg_manifest.specs.Snapshot.{SnapshotRow, IsSnapshot};
ghost use Rattle.sg_manifest.specs.Text.{text, IsManifest};
ghost use Rattle.sg_manifest.specs.Faults.{Gives};
ghost use Rattle.sg_manifest.specs.Fitting.{IsDraft};
ghost use Rattle.sg_manifest.specs.Reading.{json_at, rows_of, none_of, dangling, canonical, manifest_at};
ghost use Rattle.sg_rows.specs.Faults.{needs};
ghost use Rattle.sg_base.specs.declared.kind.LimitName.TheVariants.{Text};
ghost use Rattle.sg_manifest.specs.declared.fault.ManifestFault.TheVariants.{Limit};

use crate::fault::ManifestFault;
use crate::naming::dangling;
use crate::snapshot::{Draft, Snapshot};
use crate::text::first_difference;
use serde_json::Value;
use sg_base::LimitName;
use sg_base::limits::MANIFEST_TEXT;
use std::alloc::Global;

/// The JSON of bytes.
#[tactic(auto, unfolding(crate::specs::Reading::json_at))]
fn parse(alloc: Global, bytes: &[u8]) -> Result<Value, ManifestFault>
    ensures { Gives view result (json_at bytes.now) }
{
    match Value::from_slice(alloc, bytes) {
        Ok(value) => Ok(value),
        Err(error) => if error.is_memory() {
            Err(ManifestFault::Memory)
        } else {
            Err(ManifestFault::NotJson)
        },
    }
}

/// The rows that bytes say. The parsed JSON is dropped here.
#[tactic(auto, unfolding(crate::specs::Reading::rows_of))]
fn rows(alloc: Global, bytes: &[u8]) -> Result<Draft, ManifestFault>
    ensures gives { Gives (λ s. s) result (rows_of bytes.now) }
    ensures sound { IfOk result IsDraft }
{
    let value = parse(alloc, bytes)?;
    Draft::read(alloc, &value)
}

/// The snapshot, where the bytes are its text.
#[tactic(auto, using(crate::proofs::ReadLemmas::canonical_same, crate::proofs::ReadLemmas::canonical_other))]
fn compared(snapshot: Snapshot, bytes: &[u8]) -> Result<Snapshot, ManifestFault>
    ensures gives { Gives (λ s. s) result (canonical bytes.now snapshot) }
    ensures same { IfOk result (λ s. IsSnapshot s × (bytes.now ≡ text s)) }
{
    match first_difference(bytes, &snapshot) {
        None => Ok(snapshot),
        Some(place) => Err(ManifestFault::NotCanonical(place as u64)),
    }
}

/// Nothing that rows name is missing.
#[tactic(auto, using(crate::proofs::NamingLemmas::own_fault))]
fn nothing_missing(alloc: Global, draft: &Draft) -> Result<(), ManifestFault>
    ensures gives { Gives (λ one. one) result (none_of (dangling draft.now)) }
    ensures none { OnOk result (dangling draft.now ≡ None) }
{
    match dangling(alloc, draft)? {
        Some(fault) => Err(fault),
        None => Ok(()),
    }
}

/// The text isn't too long.
fn short(bytes: &[u8]) -> Result<(), ManifestFault>
    ensures gives { Gives (λ one. one) result
        (needs (nat_le (length bytes.now) MANIFEST_TEXT) (Limit Text (length bytes.now))) }
    ensures few { OnOk result (length bytes.now ≤ MANIFEST_TEXT) }
{
    if bytes.len() as u64 > MANIFEST_TEXT {
        Err(ManifestFault::Limit {
            name: LimitName::Text,
            count: bytes.len() as u64,
        })
    } else {
        Ok(())
    }
}

/// The snapshot that bytes say, or their first fault.
#[tactic(auto, unfolding(crate::specs::Reading::manifest_at))]
fn checked(alloc: Global, bytes: &[u8]) -> Result<Snapshot, ManifestFault>
    ensures exact { Gives (λ s. s) result (manifest_at bytes.now) }
    ensures found { IfOk result (IsManifest bytes.now) }
{
    let draft = rows(alloc, bytes)?;
    nothing_missing(alloc, &draft)?;
    short(bytes)?;
    compared(Snapshot::new(draft.ordered()), bytes)
}

/// The snapshot that the bytes of a good text say. Other bytes give an error that isn't always their first fault.
fn scanned(alloc: Global, bytes: &[u8]) -> Result<Snapshot, ManifestFault>
    ensures { IfOk result (IsManifest bytes.now) }
{
    let Some(draft) = Draft::scan(alloc, bytes) else {
        return Err(ManifestFault::NotJson);
    };
    nothing_missing(alloc, &draft)?;
    short(bytes)?;
    let snapshot = Snapshot::new(draft.ordered());
    compared(snapshot, bytes)
}

/// The snapshot whose canonical text the bytes are. Other bytes give their first fault, in the order of
/// [`ManifestFault`]. A good text is read from the bytes to the rows, and compared with their text while that is written
/// again. Only other bytes are parsed to JSON, to find their fault.
pub fn read(alloc: Global, bytes: &[u8]) -> Result<Snapshot, ManifestFault>
    // Which snapshot, or which fault with all its fields. A row's fault inside is never want of memory.
    ensures exact { Gives (λ s. s) result (manifest_at bytes.now) }
    // What is read is the valid snapshot whose text the bytes are. That it is valid is a fact of its type, too.
    ensures found { IfOk result (IsManifest bytes.now) }
    // The text of each valid snapshot is read, unless memory runs out.
    ensures only { (s : SnapshotRow) → IsManifest bytes.now s → Gives (λ t. t) result (Ok s) }
{
    match scanned(alloc, bytes) {
        Ok(snapshot) => Ok(snapshot),
        Err(_) => checked(alloc, bytes),
    }
}

/// No two valid snapshots have one text. It does nothing when it runs; its clause is the law.
pub fn one_text()
    ensures { (s t : SnapshotRow) → IsSnapshot s → IsSnapshot t → text s ≡ text t → s ≡ t }
{}

/// The text of each valid snapshot, within the limit, is read as that snapshot, and what is read is the valid snapshot
/// whose text the bytes are. It does nothing when it runs; its clauses are the laws.
pub fn reads_text()
    ensures reads { (bytes : List ℕ) (s : SnapshotRow) → IsManifest bytes s → manifest_at bytes ≡ Ok s }
    ensures found { (bytes : List ℕ) (s : SnapshotRow) → manifest_at bytes ≡ Ok s → IsManifest bytes s }
{}
