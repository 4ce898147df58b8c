// An idle sync asks for the manifest.
ghost use Rattle.std.specs.Prelude.{◌≡◌, ◌⊎◌, Bool, length, IfOk, IfSome, Err, OnErr, OnOk, None, Some, false};
ghost use Rattle.sg_base.specs.declared.file.Listed.{Listed};
ghost use Rattle.sg_devices.specs.Blame.{CountsFault};
ghost use Rattle.sg_disk.specs.Runs.{Broke, Ran};
ghost use Rattle.sg_exchange.specs.Heard.{Outcome};
ghost use Rattle.sg_intake.specs.Listings.{IsListing};
ghost use Rattle.sg_intake.specs.Stocks.{stock};
ghost use Rattle.sg_missing.specs.Missing.{IsPart, holding, missing};
ghost use Rattle.sg_sync.specs.Steps.{AsksForManifest, Begins, IsFit, IsShown, ManifestEnds, TextEnds, is_link_begin};

use sg_base::Listed;
use sg_devices::Link;
use sg_disk::{Disk, DiskFailed};
use sg_exchange::{Asker, Heard};
use sg_fetch::StepFault;
use sg_intake::Programme;
use sg_listing::Listing;
use sg_manifest::ManifestFault;
use sg_missing::keeps_part;
use sg_timeline::{Cause, StepEnd};
use std::alloc::Global;

// The snapshot that is to be got, if there is one, and how the step ended.
#[derive(Drop)]
pub(crate) struct Begun {
    pub(crate) listing: Option<Listing>,
    pub(crate) end: StepEnd,
}

// Asks for the manifest, and begins to get its snapshot if it is new.
pub(crate) fn list<L: Link, S: Programme, D: Disk>(
    alloc: Global,
    asker: &mut Asker,
    link: &mut L,
    store: &mut S,
    disk: &mut D,
) -> Result<Begun, StepFault>
    requires part { IsPart (S.part store.old) }
    requires disk { (D.view disk.old).size ≡ S.room store.old }
    ensures listed { IfOk result (λ begun. (outcome : Outcome)
        × AsksForManifest asker.old (L.told link.old) (L.told link.new) outcome
        × ManifestEnds (S.shows store.old (D.view disk.old)) outcome
        (stock (S.holds store.old) (S.part store.old) (S.came store.old))
        (stock (S.holds store.new) (S.part store.new) (S.came store.new)) begun.listing begun.end) }
    ensures ran { OnOk result (Ran 0 (D.view disk.old) (D.view disk.new)) }
    ensures fit { IfOk result (λ begun.
        IsFit begun.listing (holding (S.holds store.new) (S.part store.new))) }
    ensures only { IfOk result (λ begun. IfSome begun.listing (λ plan.
        S.only store.new plan.snapshot.files)) }
    ensures asked { OnErr result ((link.new ≡ link.old) ⊎ ((outcome : Outcome)
        × AsksForManifest asker.old (L.told link.old) (L.told link.new) outcome)) }
    ensures memory { result ≡ Err StepFault.Memory → store.new ≡ store.old }
    ensures broke { result ≡ Err StepFault.Disk
        → Broke (D.view disk.old) (D.view disk.new) }
    ensures blamed { CountsFault (is_link_begin result) (L.faults link.old) (L.faults link.new) }
    ensures kept { asker.new ≡ record asker.old { reply = asker.new.reply } }
    ensures room { S.room store.new ≡ S.room store.old }
    ensures size { (D.view disk.new).size ≡ (D.view disk.old).size }
{
    let heard = match asker.manifest(link) {
        Ok(heard) => heard,
        Err(_) => return Err(StepFault::Memory),
    };
    let cause = match heard {
        Heard::Whole(body) => return take_text(alloc, asker.bytes(body), store, disk),
        Heard::Cut { got, length, .. } => Cause::Cut { got, length },
        Heard::LinkFault => Cause::LinkFault,
        Heard::NotHttp => Cause::NotHttp,
        Heard::Status(status) => Cause::Status(status),
        Heard::Length { got, expected } => Cause::Length { got, expected },
    };
    Ok(Begun {
        listing: None,
        end: StepEnd::Stay(cause),
    })
}

// Reads a text that came, unless it is that of the snapshot.
fn take_text<S: Programme, D: Disk>(
    alloc: Global,
    text: &[u8],
    store: &mut S,
    disk: &mut D,
) -> Result<Begun, StepFault>
    requires part { IsPart (S.part store.old) }
    requires disk { (D.view disk.old).size ≡ S.room store.old }
    ensures taken { IfOk result (λ begun. (same : Bool)
        × IsShown (S.shows store.old (D.view disk.old)) text.now same
        × TextEnds same text.now
        (stock (S.holds store.old) (S.part store.old) (S.came store.old))
        (stock (S.holds store.new) (S.part store.new) (S.came store.new)) begun.listing begun.end) }
    ensures ran { OnOk result (Ran 0 (D.view disk.old) (D.view disk.new)) }
    ensures fit { IfOk result (λ begun.
        IsFit begun.listing (holding (S.holds store.new) (S.part store.new))) }
    ensures only { IfOk result (λ begun. IfSome begun.listing (λ plan.
        S.only store.new plan.snapshot.files)) }
    ensures came { is_link_begin result ≡ false }
    ensures memory { result ≡ Err StepFault.Memory → store.new ≡ store.old }
    ensures broke { result ≡ Err StepFault.Disk
        → Broke (D.view disk.old) (D.view disk.new) }
    ensures room { S.room store.new ≡ S.room store.old }
    ensures size { (D.view disk.new).size ≡ (D.view disk.old).size }
{
    match store.has_text(disk, text) {
        Ok(true) => {
            return Ok(Begun {
                listing: None,
                end: StepEnd::UpToDate,
            });
        }
        Ok(false) => {}
        Err(_) => return Err(StepFault::Disk),
    }
    match Listing::read(alloc, text) {
        Ok(listing) => begin(listing, store, disk),
        Err(ManifestFault::Memory) => Err(StepFault::Memory),
        Err(fault) => Ok(Begun {
            listing: None,
            end: StepEnd::Stay(Cause::Manifest(fault)),
        }),
    }
}

// Gives up what isn't listed, and counts what is missing.
fn begin<S: Programme, D: Disk>(
    listing: Listing,
    store: &mut S,
    disk: &mut D,
) -> Result<Begun, StepFault>
    requires part { IsPart (S.part store.old) }
    requires disk { (D.view disk.old).size ≡ S.room store.old }
    ensures begun { IfOk result (λ begun. (begun.listing ≡ Some listing)
        × Begins (stock (S.holds store.old) (S.part store.old) (S.came store.old))
        listing.snapshot.files (stock (S.holds store.new) (S.part store.new) (S.came store.new))
        × (begun.end ≡ StepEnd.Listed (length (missing
        (holding (S.holds store.new) (S.part store.new)) listing.snapshot.files)))) }
    ensures ran { OnOk result (Ran 0 (D.view disk.old) (D.view disk.new)) }
    ensures only { OnOk result (S.only store.new listing.snapshot.files) }
    ensures disk { OnErr result ((result ≡ Err StepFault.Disk)
        × Broke (D.view disk.old) (D.view disk.new)) }
    ensures room { S.room store.new ≡ S.room store.old }
    ensures size { (D.view disk.new).size ≡ (D.view disk.old).size }
{
    let Ok(()) = keep_listed(listing.files(), store, disk) else {
        return Err(StepFault::Disk);
    };
    let pieces = listing.missing(store);
    Ok(Begun {
        listing: Some(listing),
        end: StepEnd::Listed(pieces),
    })
}

// Gives up what isn't of these files, and a part that isn't of the first that isn't whole.
fn keep_listed<S: Programme, D: Disk>(
    files: &[Listed],
    store: &mut S,
    disk: &mut D,
) -> Result<(), DiskFailed>
    requires files { IsListing files.now }
    requires part { IsPart (S.part store.old) }
    requires disk { (D.view disk.old).size ≡ S.room store.old }
    ensures begins { OnOk result
        (Begins (stock (S.holds store.old) (S.part store.old) (S.came store.old)) files.now
        (stock (S.holds store.new) (S.part store.new) (S.came store.new))) }
    ensures only { OnOk result (S.only store.new files.now) }
    ensures ran { OnOk result (Ran 0 (D.view disk.old) (D.view disk.new)) }
    ensures broke { OnErr result (Broke (D.view disk.old) (D.view disk.new)) }
    ensures room { S.room store.new ≡ S.room store.old }
    ensures size { (D.view disk.new).size ≡ (D.view disk.old).size }
{
    let Ok(()) = store.keep(disk, files) else {
        return Err(DiskFailed);
    };
    if !keeps_part(files, store) {
        store.forget();
    }
    Ok(())
}
