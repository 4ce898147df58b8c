// Several plays, one behind another.
ghost use Rattle.std.specs.Prelude.{◌≡◌, ℕ, ◌+◌, ◌*◌, ◌<◌, ◌≤◌, ◌++◌, length, take, slice_get, Some, OnOk, IsErrOf};
ghost use Rattle.sg_base.specs.declared.play.PlayBody.{PlayBody};
ghost use Rattle.sg_disk.specs.Contents.{Contents};
ghost use Rattle.sg_disk.specs.StandsFor.{Two};
ghost use Rattle.sg_contents.specs.StandsFor.{Between};
ghost use Rattle.sg_disk.specs.Runs.{LeavesOnly, Ran, Broke, Within};
ghost use Rattle.sg_journal.specs.Ready.{IsReady, first_of, plays_of};
ghost use Rattle.sg_journal.specs.Series.{played_all, StandsForSome};

use crate::fault::AppendFault;
use crate::journal::Journal;
use sg_base::PlayBody;
use sg_disk::{APPEND_CALLS, DATA, Disk, JOURNAL, JOURNAL_LEN};

/// Records plays in their order, up to the first that is refused. A crash at any moment leaves some first of them, each of
/// them whole. Each takes the calls of [`Journal::append`], and none takes memory.
pub fn append_all<D: Disk>(
    journal: &mut Journal,
    disk: &mut D,
    plays: &[PlayBody],
) -> Result<(), AppendFault>
    requires disk { DATA ≤ (D.view disk.old).size }
    requires rise { (i : ℕ) (play : PlayBody) → slice_get plays.now i ≡ Some play
        → play.from < play.to }
    requires layouts { (i : ℕ) (play : PlayBody) → slice_get plays.now i ≡ Some play
        → 1 ≤ play.layout }

    // A crash at any moment leaves some first of the plays, each whole. Nothing but the journal's area is written.
    ensures any_moment { (p : Contents) → IsReady (D.view disk.old) journal.old p
        → LeavesOnly (StandsForSome p plays.now) (D.view disk.old) (D.view disk.new) }
    ensures within { Within JOURNAL JOURNAL_LEN (D.view disk.old) (D.view disk.new) }
    ensures size { (D.view disk.new).size ≡ (D.view disk.old).size }

    // After `Ok` all of them are recorded.
    ensures recorded { OnOk result ((p : Contents) → IsReady (D.view disk.old) journal.old p
        → IsReady (D.view disk.new) journal.new (played_all p plays.now)) }
    ensures plays { OnOk result (plays_of journal.new ≡ plays_of journal.old ++ plays.now) }
    ensures ran { OnOk result (Ran (APPEND_CALLS * length plays.now) (D.view disk.old)
        (D.view disk.new)) }

    // What is so in both cases, and why the call is refused.
    ensures first { first_of journal.new ≡ first_of journal.old }
    ensures broke { IsErrOf result AppendFault.Disk → Broke (D.view disk.old) (D.view disk.new) }
    ensures between { IsErrOf result AppendFault.Disk
        → (p : Contents) → IsReady (D.view disk.old) journal.old p
        → (i : ℕ) × (i < length plays.now)
        × Between (D.view disk.new)
        (Two (played_all p (take i plays.now)) (played_all p (take (i + 1) plays.now))) }
{
    for play in plays {
        journal.append(disk, play)?;
    }
    Ok(())
}
