//! The canonical text of a snapshot.

ghost use Rattle.std.specs.Prelude.{◌≡◌, ◌↔◌, IfOk, IfSome, IsNone, OnOk, length};
ghost use Rattle.sg_rows.specs.Written.{Takes, text_before};
ghost use Rattle.sg_manifest.specs.Snapshot.{IsSnapshot};
ghost use Rattle.sg_manifest.specs.Text.{text, snapshot_json};
ghost use Rattle.sg_manifest.specs.Reading.{common};

use crate::comparison::Comparison;
use crate::draft::form_of;
use crate::snapshot::Snapshot;
use sg_rows::{TextBuffer, TextLength, TextOut, put_number, put_rows, put_zone};
use std::alloc::{AllocError, Global};

/// Writes the text of a snapshot, piece by piece.
fn put_snapshot<O: TextOut>(snapshot: &Snapshot, out: &mut O) -> Result<(), O::Error>
    ensures text { OnOk result (Takes O.after out.old out.new (text_before (snapshot_json snapshot.now))) }
    ensures valid { IsSnapshot snapshot.now }
{
    let version = snapshot.version();
    let form = form_of(version);
    put_rows(out, b"{\"campaigns\":[", form, snapshot.campaigns())?;
    put_rows(out, b",\"dayparts\":[", form, snapshot.dayparts())?;
    put_number(out, b",\"default\":", snapshot.default().0)?;
    put_rows(out, b",\"events\":[", form, snapshot.events())?;
    put_rows(out, b",\"files\":[", form, snapshot.files())?;
    put_rows(out, b",\"layouts\":[", form, snapshot.layouts())?;
    put_number(out, b",\"version\":", version)?;
    out.put(b",\"zone\":")?;
    put_zone(out, snapshot.zone())?;
    out.put(b"}")?;
    Ok(())
}

/// The canonical text of a snapshot, in UTF-8.
pub fn write(alloc: Global, snapshot: &Snapshot) -> Result<Vec<u8>, AllocError>
    ensures { IfOk result (λ t. t.items ≡ text snapshot.now) }
{
    let mut out = TextBuffer::new(alloc);
    put_snapshot(snapshot, &mut out)?;
    Ok(out.into_vec())
}

/// How many bytes the text of a snapshot has, whatever the limit. The text isn't made.
pub fn text_len(snapshot: &Snapshot) -> u64
    ensures { result ≡ length (text snapshot.now) }
{
    let mut out = TextLength::new();
    match put_snapshot(snapshot, &mut out) {
        Ok(()) => out.bytes(),
        Err(never) => match never {},
    }
}

/// How many first bytes two texts have in common.
#[tactic(auto, using(crate::proofs::TextLemmas::common_over, crate::proofs::TextLemmas::common_stop, crate::proofs::TextLemmas::common_next))]
pub(crate) fn common_length(one: &[u8], other: &[u8]) -> usize
    ensures { result ≡ common one.now other.now }
{
    for (place, byte) in one.iter().enumerate() {
        if place >= other.len() {
            return place;
        }
        if *byte != other[place] {
            return place;
        }
    }
    one.len()
}

/// The place of the first byte in which bytes differ from the text of a snapshot, or the shorter length; nothing where they
/// are the text. The text isn't kept.
pub(crate) fn first_difference(bytes: &[u8], snapshot: &Snapshot) -> Option<usize>
    ensures same { IsNone result ↔ (bytes.now ≡ text snapshot.now) }
    ensures place { IfSome result (λ n. n ≡ common bytes.now (text snapshot.now)) }
{
    let mut comparison = Comparison::new(bytes);
    match put_snapshot(snapshot, &mut comparison) {
        Ok(()) => comparison.difference(),
        Err(never) => match never {},
    }
}
