// What was got becomes the snapshot.
ghost use Rattle.std.specs.Prelude.{◌≡◌, All, Err, IfOk, None, OnErr, OnOk, true};
ghost use Rattle.md5.specs.Md5.{md5};
ghost use Rattle.sg_disk.specs.Runs.{Broke, Ran};
ghost use Rattle.sg_sync.specs.Steps.{switch_calls_of, switch_end};

use md5::{Digest, Md5};
use sg_disk::Disk;
use sg_fetch::StepFault;
use sg_intake::{Programme, SwitchFault};
use sg_listing::Listing;
use sg_timeline::{Cause, StepEnd};

// Makes a snapshot of which each file is whole the current one.
pub(crate) fn switch<S: Programme, D: Disk>(
    listing: &Listing,
    store: &mut S,
    disk: &mut D,
) -> Result<StepEnd, StepFault>
    requires held { All (λ f. S.holds store.old f ≡ true) listing.now.snapshot.files }
    requires part { S.part store.old ≡ None }
    requires disk { (D.view disk.old).size ≡ S.room store.old }
    ensures end { IfOk result (λ end. end ≡ switch_end (S.number store.old) listing.now.text) }
    ensures part { OnOk result (S.part store.new ≡ None) }
    ensures ran { IfOk result (λ end.
        Ran (switch_calls_of S.switch_calls end) (D.view disk.old) (D.view disk.new)) }
    ensures disk { OnErr result ((result ≡ Err StepFault.Disk)
        × Broke (D.view disk.old) (D.view disk.new)) }
    ensures room { S.room store.new ≡ S.room store.old }
    ensures size { (D.view disk.new).size ≡ (D.view disk.old).size }
{
    let text = listing.text();
    match store.switch(disk, text, listing.files()) {
        Ok(()) => Ok(StepEnd::Switched {
            number: store.number(),
            md5: digest(text),
        }),
        Err(SwitchFault::Spent) => Ok(StepEnd::Stay(Cause::Spent)),
        Err(SwitchFault::Disk) => Err(StepFault::Disk),
    }
}

fn digest(text: &[u8]) -> [u8; 16]
    ensures { result ≡ md5 text.now }
{
    let mut hasher = Md5::new();
    hasher.update(text);
    hasher.finalize()
}
