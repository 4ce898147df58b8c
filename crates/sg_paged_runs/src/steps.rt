// The calls of a list, each where it is lawful.
ghost use Rattle.std.specs.Prelude.{◌≡◌, ℕ, ◌+◌, List, [], ◌∷◌, OnOk, IfErr, IsErrOf};
ghost use Rattle.sg_disk.specs.Runs.{LeavesOnly, Ran, Broke};
ghost use Rattle.sg_disk.specs.StandsFor.{HasOneJournal};
ghost use Rattle.sg_contents.specs.StandsFor.{disk_len};
ghost use Rattle.sg_paged_runs.specs.declared.call.Call.{Call};
ghost use Rattle.sg_paged_runs.specs.Lawful.{IsLawful};
ghost use Rattle.sg_paged_runs.specs.Stage.{Stage, Shows, IsAt};
ghost use Rattle.sg_paged_runs.specs.Steps.{Step, StandsForSome};
ghost use Rattle.sg_paged_runs.specs.Stops.{BlamesDisk, Tells};

use crate::call::Call;
use crate::lawful::{may_begin, may_bring, may_seal, may_switch};
use crate::stop::Stop;
use sg_base::Listed;
use sg_disk::Disk;
use sg_paged_store::Store;
use std::alloc::Global;

// Begins to stage a file.
fn begin(store: &mut Store, file: &Listed) -> Result<(), Stop>

    // After `Ok` the store is a step further.
    ensures stepped { OnOk result ((c : List ℕ) (old : Stage) → Shows store.old c old
        → (new : Stage) × Step old (Call.Begin file.now) new × Shows store.new c new) }
    ensures room { store.new.room ≡ store.old.room }

    // Why it is refused, and what that tells.
    ensures unlawful { IsErrOf result Stop.Unlawful → IsLawful store.old (Call.Begin file.now) → ⊥ }
    ensures kept { IsErrOf result Stop.Unlawful → store.new ≡ store.old }
    ensures passed { IsErrOf result Stop.Disk → ⊥ }
    ensures undamaged { IfErr result (λ stop. BlamesDisk stop → ⊥) }
    ensures told { IfErr result (λ stop. Tells store.new stop) }
{
    if !may_begin(store, file) {
        return Err(Stop::Unlawful);
    }
    store.stage_begin(file)?;
    Ok(())
}

// Takes the half staged file as held.
fn seal(store: &mut Store) -> Result<(), Stop>

    // After `Ok` the store is a step further.
    ensures stepped { OnOk result ((c : List ℕ) (old : Stage) → Shows store.old c old
        → (new : Stage) × Step old Call.Seal new × Shows store.new c new) }
    ensures room { store.new.room ≡ store.old.room }

    // Why it is refused, and what that tells.
    ensures unlawful { IsErrOf result Stop.Unlawful → IsLawful store.old Call.Seal → ⊥ }
    ensures kept { IsErrOf result Stop.Unlawful → store.new ≡ store.old }
    ensures passed { IsErrOf result Stop.Disk → ⊥ }
    ensures undamaged { IfErr result (λ stop. BlamesDisk stop → ⊥) }
    ensures told { IfErr result (λ stop. Tells store.new stop) }
{
    if !may_seal(store) {
        return Err(Stop::Unlawful);
    }
    store.stage_seal()?;
    Ok(())
}

// Gives up the staged files that aren't among these.
fn keep(store: &mut Store, files: &[Listed])
    ensures stepped { (c : List ℕ) (old : Stage) → Shows store.old c old
        → (new : Stage) × Step old (Call.Keep files.now) new × Shows store.new c new }
    ensures room { store.new.room ≡ store.old.room }
{
    store.stage_keep(files);
}

// Brings the next bytes of the half staged file.
fn bring<D: Disk>(store: &mut Store, disk: &mut D, bytes: &[u8]) -> Result<(), Stop>
    requires disk { (D.view disk.old).size ≡ disk_len store.old.room }

    // A crash at any moment leaves the contents before the call or after it.
    ensures any_moment { (old : Stage) → IsAt (D.view disk.old) store.old old
        → LeavesOnly (StandsForSome old (Call.Bytes bytes.now ∷ [])) (D.view disk.old)
        (D.view disk.new) }

    // After `Ok` the store is a step further.
    ensures stepped { OnOk result ((old : Stage) → IsAt (D.view disk.old) store.old old
        → (new : Stage) × Step old (Call.Bytes bytes.now) new
        × IsAt (D.view disk.new) store.new new) }
    ensures size { OnOk result ((D.view disk.new).size ≡ disk_len store.new.room) }
    ensures journal { OnOk result ((D.view disk.old).told → HasOneJournal (D.view disk.old)
        → HasOneJournal (D.view disk.new)) }
    ensures passed { OnOk result (Ran 0 (D.view disk.old) (D.view disk.new)) }

    // Why it is refused, and what that tells.
    ensures unlawful { IsErrOf result Stop.Unlawful → IsLawful store.old (Call.Bytes bytes.now)
        → ⊥ }
    ensures kept { IsErrOf result Stop.Unlawful → store.new ≡ store.old }
    ensures broke { IsErrOf result Stop.Disk → Broke (D.view disk.old) (D.view disk.new) }
    ensures undamaged { IfErr result (λ stop. BlamesDisk stop → ⊥) }
    ensures told { IfErr result (λ stop. Tells store.new stop) }
{
    if !may_bring(store, bytes.len()) {
        return Err(Stop::Unlawful);
    }
    store.stage_bytes(disk, bytes)?;
    Ok(())
}

// Makes a manifest and its files current.
fn switch<D: Disk>(
    store: &mut Store,
    disk: &mut D,
    manifest: &[u8],
    files: &[Listed],
) -> Result<(), Stop>
    requires disk { (D.view disk.old).size ≡ disk_len store.old.room }

    // A crash at any moment leaves the contents before the call or after it.
    ensures any_moment { (old : Stage) → IsAt (D.view disk.old) store.old old
        → LeavesOnly (StandsForSome old (Call.Switch manifest.now files.now ∷ [])) (D.view disk.old)
        (D.view disk.new) }

    // After `Ok` the store is a step further.
    ensures stepped { OnOk result ((old : Stage) → IsAt (D.view disk.old) store.old old
        → (new : Stage) × Step old (Call.Switch manifest.now files.now) new
        × IsAt (D.view disk.new) store.new new) }
    ensures size { OnOk result ((D.view disk.new).size ≡ disk_len store.new.room) }
    ensures journal { OnOk result ((D.view disk.old).told → HasOneJournal (D.view disk.old)
        → HasOneJournal (D.view disk.new)) }
    ensures passed { OnOk result (Ran 0 (D.view disk.old) (D.view disk.new)) }

    // Why it is refused, and what that tells.
    ensures unlawful { IsErrOf result Stop.Unlawful
        → IsLawful store.old (Call.Switch manifest.now files.now) → ⊥ }
    ensures kept { IsErrOf result Stop.Unlawful → store.new ≡ store.old }
    ensures broke { IsErrOf result Stop.Disk → Broke (D.view disk.old) (D.view disk.new) }
    ensures undamaged { IfErr result (λ stop. BlamesDisk stop → ⊥) }
    ensures told { IfErr result (λ stop. Tells store.new stop) }
{
    if !may_switch(store, manifest, files) {
        return Err(Stop::Unlawful);
    }
    store.switch(disk, manifest, files)?;
    Ok(())
}

// Opens the store again, in its place.
fn open_again<D: Disk>(alloc: Global, store: &mut Store, disk: &mut D) -> Result<(), Stop>

    // A crash at any moment leaves the contents before the call or after it.
    ensures any_moment { (old : Stage) → IsAt (D.view disk.old) store.old old
        → LeavesOnly (StandsForSome old (Call.Open ∷ [])) (D.view disk.old) (D.view disk.new) }

    // After `Ok` the store is a step further.
    ensures stepped { OnOk result ((old : Stage) → IsAt (D.view disk.old) store.old old
        → (new : Stage) × Step old Call.Open new × IsAt (D.view disk.new) store.new new) }
    ensures size { OnOk result ((D.view disk.new).size ≡ disk_len store.new.room) }
    ensures journal { OnOk result ((D.view disk.old).told → HasOneJournal (D.view disk.old)
        → HasOneJournal (D.view disk.new)) }
    ensures passed { OnOk result (Ran 0 (D.view disk.old) (D.view disk.new)) }

    // Why it is refused, and what that tells.
    ensures unlawful { IsErrOf result Stop.Unlawful → IsLawful store.old Call.Open → ⊥ }
    ensures kept { IsErrOf result Stop.Unlawful → store.new ≡ store.old }
    ensures broke { IsErrOf result Stop.Disk → Broke (D.view disk.old) (D.view disk.new) }
    ensures undamaged { (old : Stage) → IsAt (D.view disk.old) store.old old
        → IfErr result (λ stop. BlamesDisk stop → ⊥) }
    ensures told { IfErr result (λ stop. Tells store.new stop) }
{
    *store = Store::open(alloc, disk)?;
    Ok(())
}

/// Makes one call, where it is lawful.
pub fn step<D: Disk>(
    alloc: Global,
    store: &mut Store,
    disk: &mut D,
    call: &Call,
) -> Result<(), Stop>
    requires disk { (D.view disk.old).size ≡ disk_len store.old.room }

    // A crash at any moment leaves the contents before the call or after it.
    ensures any_moment { (old : Stage) → IsAt (D.view disk.old) store.old old
        → LeavesOnly (StandsForSome old (call.now ∷ [])) (D.view disk.old) (D.view disk.new) }

    // After `Ok` the store is a step further.
    ensures stepped { OnOk result ((old : Stage) → IsAt (D.view disk.old) store.old old
        → (new : Stage) × Step old call.now new × IsAt (D.view disk.new) store.new new) }
    ensures size { OnOk result ((D.view disk.new).size ≡ disk_len store.new.room) }
    ensures journal { OnOk result ((D.view disk.old).told → HasOneJournal (D.view disk.old)
        → HasOneJournal (D.view disk.new)) }
    ensures passed { OnOk result (Ran 0 (D.view disk.old) (D.view disk.new)) }

    // Why it is refused, and what that tells.
    ensures unlawful { IsErrOf result Stop.Unlawful → IsLawful store.old call.now → ⊥ }
    ensures kept { IsErrOf result Stop.Unlawful → store.new ≡ store.old }
    ensures broke { IsErrOf result Stop.Disk → Broke (D.view disk.old) (D.view disk.new) }
    ensures undamaged { (old : Stage) → IsAt (D.view disk.old) store.old old
        → IfErr result (λ stop. BlamesDisk stop → ⊥) }
    ensures told { IfErr result (λ stop. Tells store.new stop) }
{
    match call {
        Call::Begin(file) => begin(store, file),
        Call::Bytes(bytes) => bring(store, disk, bytes.as_slice()),
        Call::Seal => seal(store),
        Call::Keep(files) => {
            keep(store, files.as_slice());
            Ok(())
        }
        Call::Switch { manifest, files } => {
            switch(store, disk, manifest.as_slice(), files.as_slice())
        }
        Call::Open => open_again(alloc, store, disk),
    }
}
