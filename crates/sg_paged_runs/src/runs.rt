// A list of calls, one behind another.
ghost use Rattle.std.specs.Prelude.{◌≡◌, ℕ, ◌+◌, OnOk, IfErr, IsErrOf, Contains};
ghost use Rattle.sg_disk.specs.Runs.{LeavesOnly, Ran, Broke};
ghost use Rattle.sg_disk.specs.StandsFor.{HasOneJournal};
ghost use Rattle.sg_contents.specs.StandsFor.{disk_len};
ghost use Rattle.sg_paged_runs.specs.declared.call.Call.{Call};
ghost use Rattle.sg_paged_runs.specs.Lawful.{IsLawful};
ghost use Rattle.sg_paged_runs.specs.Stage.{Stage, IsAt};
ghost use Rattle.sg_paged_runs.specs.Steps.{Runs, StandsForSome};
ghost use Rattle.sg_paged_runs.specs.Stops.{BlamesDisk, Tells};

use crate::call::Call;
use crate::steps::step;
use crate::stop::Stop;
use sg_disk::Disk;
use sg_paged_store::Store;
use std::alloc::Global;

/// Makes calls in their order, on the disk on which the store was opened, up to the first that isn't lawful or that the store
/// refuses.
///
/// `Unlawful` comes before a call that the store doesn't let be made as things stand. `Disk` comes only where the disk's
/// count of faults rose. After `Disk`, and after a refused `Call::Open`, the store has to be opened again. Only
/// `Call::Open` takes memory, all that a store needs.
pub fn run<D: Disk>(
    alloc: Global,
    store: &mut Store,
    disk: &mut D,
    calls: &[Call],
) -> Result<(), Stop>
    requires disk { (D.view disk.old).size ≡ disk_len store.old.room }

    // Whatever the answer, a crash at any moment leaves the contents after some first calls.
    ensures any_moment { (start : Stage) → IsAt (D.view disk.old) store.old start
        → LeavesOnly (StandsForSome start calls.now) (D.view disk.old) (D.view disk.new) }
    ensures ran { OnOk result ((start : Stage) → IsAt (D.view disk.old) store.old start
        → (end : Stage) × Runs start calls.now end × IsAt (D.view disk.new) store.new end) }
    ensures size { OnOk result ((D.view disk.new).size ≡ disk_len store.new.room) }
    ensures journal { OnOk result ((D.view disk.old).told → HasOneJournal (D.view disk.old)
        → HasOneJournal (D.view disk.new)) }
    ensures passed { OnOk result (Ran 0 (D.view disk.old) (D.view disk.new)) }
    ensures broke { IsErrOf result Stop.Disk → Broke (D.view disk.old) (D.view disk.new) }
    ensures unlawful { IsErrOf result Stop.Unlawful
        → (call : Call) × Contains calls.now call × (IsLawful store.new call → ⊥) }
    ensures told { IfErr result (λ stop. Tells store.new stop) }

    // No opening among the calls finds the disk without a store, or damaged.
    ensures undamaged { (start : Stage) → IsAt (D.view disk.old) store.old start
        → IfErr result (λ stop. BlamesDisk stop → ⊥) }
{
    for call in calls {
        step(alloc, store, disk, call)?;
    }
    Ok(())
}
