// The upgrade, call by call.
ghost use Rattle.std.specs.Prelude.{◌≡◌, ◌+◌, ◌-◌, ◌≤◌, slice_index, codes, OnOk, OnErr};
ghost use Rattle.sg_disk.specs.View.{range, Only};
ghost use Rattle.sg_disk.specs.Runs.{After, LeavesOnly, Ran, Broke};
ghost use Rattle.sg_slots.specs.Bytes.{AreZeros};
ghost use Rattle.sg_upgrade.specs.Upgrading.{AreLong, IsOldStill, IsNewBut, IsUpgrading};

use crate::clearing::{PIECE, clear_behind};
use crate::places::{SECOND_MARK, WHOLE};
use sg_base::limits::MAX_ROOM;
use sg_disk::{DATA, Disk, DiskFailed, VERSION, write_synced};

/// Makes a disk of the old format, with a data area of `room` bytes, one of the new format. It gives the disk its new length;
/// writes zeros over both maps and the seals, and the second mark; syncs; writes the one byte of the version; and syncs.
pub fn upgrade<D: Disk>(disk: &mut D, room: u64) -> Result<(), DiskFailed>
    requires { room ≤ MAX_ROOM }

    // At any moment a crash leaves a disk of the old format still, or one of the new format but for its version byte.
    ensures any_moment { (D.view disk.old).told → AreLong room (D.view disk.old)
        → LeavesOnly (After (IsUpgrading room) (D.view disk.old)) (D.view disk.old)
        (D.view disk.new) }

    // After `Ok` the version is 2, and a crash leaves what a read gives.
    ensures whole { OnOk result ((D.view disk.old).told → AreLong room (D.view disk.old)
        → IsNewBut room (D.view disk.old).bytes (D.view disk.new).bytes) }
    ensures version { OnOk result ((D.view disk.old).told
        → slice_index (D.view disk.new).bytes VERSION ≡ 2) }
    ensures stable { OnOk result ((D.view disk.old).told
        → Only (D.view disk.new).bytes (D.view disk.new)) }
    ensures size { OnOk result ((D.view disk.new).size ≡ WHOLE + room) }
    ensures ran { OnOk result (Ran 5 (D.view disk.old) (D.view disk.new)) }
    ensures broke { OnErr result (Broke (D.view disk.old) (D.view disk.new)) }
{
    prepare(disk, room)?;
    write_synced(disk, VERSION, &[2])?;
    Ok(())
}

// All but the version.
fn prepare<D: Disk>(disk: &mut D, room: u64) -> Result<(), DiskFailed>
    requires { room ≤ MAX_ROOM }
    ensures any_moment { AreLong room (D.view disk.old)
        → LeavesOnly (After (IsOldStill room) (D.view disk.old)) (D.view disk.old)
        (D.view disk.new) }
    ensures still { OnOk result ((D.view disk.old).told → AreLong room (D.view disk.old)
        → IsOldStill room (D.view disk.old).bytes (D.view disk.new).bytes) }
    ensures mark { OnOk result ((D.view disk.old).told
        → range (D.view disk.new).bytes SECOND_MARK 8 ≡ codes "SGNSTOR2") }
    ensures zeros { OnOk result ((D.view disk.old).told
        → AreZeros (DATA + room) (WHOLE - DATA) (D.view disk.new).bytes) }
    ensures stable { OnOk result ((D.view disk.old).told
        → Only (D.view disk.new).bytes (D.view disk.new)) }
    ensures size { OnOk result ((D.view disk.new).size ≡ WHOLE + room) }
    ensures ran { OnOk result (Ran 3 (D.view disk.old) (D.view disk.new)) }
    ensures broke { OnErr result (Broke (D.view disk.old) (D.view disk.new)) }
{
    disk.resize(WHOLE + room)?;
    clear_behind(disk, room, &[0; PIECE])?;
    write_synced(disk, SECOND_MARK, b"SGNSTOR2")?;
    Ok(())
}
