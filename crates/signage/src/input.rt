//! The input of `preview`: one manifest.

ghost use Rattle.std.specs.Prelude.{◌≡◌, ◌<◌, ◌≤◌, vec_len, IfOk, MatchResult};
ghost use Rattle.std.specs.Io.KnownBytes.{Consumes, IsAtEnd};
ghost use Rattle.sg_manifest.specs.Text.{IsManifest};
ghost use Rattle.sg_lines.specs.Reading.{side};
ghost use Rattle.signage.specs.Preview.{Reads, body_of};
ghost use Rattle.signage.specs.Loading.{Stops, ReadsSome, Refused};

use crate::stop::Stop;
use sg_base::limits::MANIFEST_TEXT;
use sg_manifest::{ManifestFault, Snapshot, read};
use sg_outside::Source;
use std::alloc::Global;

/// The most bytes of an input: those of a manifest's text and one line feed.
const LIMIT: usize = MANIFEST_TEXT as usize + 1;

/// How many bytes one take asks for.
const PIECE: usize = 4096;

/// Reads the input to its end, or until it has one byte more than an input may have.
fn read_input<S: Source>(alloc: Global, source: &mut S) -> Result<Vec<u8>, Stop>
    ensures { MatchResult result
        (λ v. ReadsSome (S.left source.old) (S.left source.new) v.items
        × (S.take_faults source.new ≡ S.take_faults source.old))
        (λ stop. Stops (side S.left S.take_faults source.old) (side S.left S.take_faults source.new) stop) }
{
    let mut bytes = Vec::new(alloc);
    let mut piece = [0u8; PIECE];
    // Each take but the last gives a byte at least.
    while bytes.len() <= LIMIT {
        let room = PIECE.min(LIMIT + 1 - bytes.len());
        match source.take(&mut piece[..room]) {
            Ok(0) => return Ok(bytes),
            Ok(count) => {
                if bytes.extend_from_slice(&piece[..count]).is_err() {
                    return Err(Stop::Memory);
                }
            }
            Err(_) => return Err(Stop::Read),
        }
    }
    Ok(bytes)
}

/// An input without its final line feed.
fn body(input: &[u8]) -> &[u8]
    ensures { result.now ≡ body_of input.now }
{
    match input {
        [front @ .., b'\n'] => front,
        _ => input,
    }
}

/// Reads the whole input, and the snapshot whose text it is.
pub(crate) fn load<S: Source>(alloc: Global, source: &mut S) -> Result<Snapshot, Stop>
    ensures { MatchResult result
        (λ s. Reads (side S.left S.take_faults source.old) (side S.left S.take_faults source.new) s)
        (λ stop. Stops (side S.left S.take_faults source.old) (side S.left S.take_faults source.new) stop) }
{
    let input = read_input(alloc, source)?;
    if input.len() > LIMIT {
        return Err(Stop::TooLong);
    }
    manifest(alloc, body(input.as_slice()))
}

/// The snapshot whose text the bytes are.
#[tactic(auto, using(crate::proofs::PreviewLemmas::cause_of))]
fn manifest(alloc: Global, bytes: &[u8]) -> Result<Snapshot, Stop>
    ensures { MatchResult result
        (λ s. IsManifest bytes.now s)
        (λ stop. Refused bytes.now stop) }
{
    match read(alloc, bytes) {
        Ok(snapshot) => Ok(snapshot),
        Err(ManifestFault::Memory) => Err(Stop::Memory),
        Err(fault) => Err(Stop::NoManifest(fault)),
    }
}
