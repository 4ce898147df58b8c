// A manifest with its text.
ghost use Rattle.std.specs.Prelude.{◌≡◌, ◌↔◌, ◌≤◌, All, IsTrue, length, true};
ghost use Rattle.sg_base.specs.declared.limits.TheConstants.{MANIFEST_TEXT};
ghost use Rattle.sg_intake.specs.Listings.{IsListing};
ghost use Rattle.sg_listing.specs.Plans.{ReadsAs};
ghost use Rattle.sg_manifest.specs.Text.{IsManifest};
ghost use Rattle.sg_missing.specs.Missing.{IsPart, holding, missing};

use sg_base::Listed;
use sg_manifest::{ManifestFault, Snapshot, read};
use sg_missing::{Staging, count_missing};
use std::alloc::Global;
use std::marker::Model;

/// A snapshot with its text. It is read once, and neither changes.
#[derive(Drop)]
pub struct Listing {
    text: Vec<u8>,
    snapshot: Snapshot,
}

impl Model for Listing {
    ghost use Rattle.sg_listing.specs.Plans.{Plan};
    ghost use Rattle.sg_manifest.specs.Text.{IsManifest};

    ghost Value = { Plan };

    ghost view = { λ l. record { text = l.text.items; snapshot = l.snapshot } };

    ghost invariant = { λ l. IsManifest l.text.items l.snapshot };
}

impl Listing {
    /// The snapshot whose text this is, or the first fault of the text.
    pub fn read(alloc: Global, text: &[u8]) -> Result<Listing, ManifestFault>
        ensures { ReadsAs text.now result }
    {
        let snapshot = match read(alloc, text) {
            Ok(snapshot) => snapshot,
            Err(fault) => return Err(fault),
        };
        match Vec::from_slice(alloc, text) {
            Ok(text) => Ok(Listing { text, snapshot }),
            Err(_) => Err(ManifestFault::Memory),
        }
    }

    /// The snapshot.
    pub fn snapshot(&self) -> &Snapshot
        ensures snapshot { result.now ≡ self.now.snapshot }
        ensures manifest { IsManifest self.now.text self.now.snapshot }
    {
        &self.snapshot
    }

    /// Its text.
    pub fn text(&self) -> &[u8]
        ensures text { result.now ≡ self.now.text }
        ensures some { 1 ≤ length result.now }
        ensures long { length result.now ≤ MANIFEST_TEXT }
    {
        self.text.as_slice()
    }

    /// The files that it lists, by ascending id.
    pub fn files(&self) -> &[Listed]
        ensures files { result.now ≡ self.now.snapshot.files }
        ensures listing { IsListing result.now }
    {
        self.snapshot.files()
    }

    /// How many pieces of its files are missing of a store.
    pub fn missing<S: Staging>(&self, store: &S) -> u32
        requires { IsPart (S.part store.now) }
        ensures { result ≡ length (missing (holding (S.holds store.now) (S.part store.now))
            self.now.snapshot.files) }
    {
        count_missing(self.files(), store)
    }

    /// Whether a store has each of its files whole, so that it can be switched to.
    pub fn is_ready<S: Staging>(&self, store: &S) -> bool
        ensures { IsTrue result ↔ All (λ f. S.holds store.now f ≡ true) self.now.snapshot.files }
    {
        are_held(self.files(), store)
    }
}

// Whether each of these files is whole.
fn are_held<S: Staging>(files: &[Listed], store: &S) -> bool
    ensures { IsTrue result ↔ All (λ f. S.holds store.now f ≡ true) files.now }
{
    for file in files {
        if !store.held(file) {
            return false;
        }
    }
    true
}
