// The clearing of what stands behind the data area.
ghost use Rattle.std.specs.Prelude.{◌≡◌, ◌+◌, ◌-◌, ◌≤◌, replicate, OnOk, OnErr};
ghost use Rattle.sg_disk.specs.Runs.{Ran, Broke, Within};
ghost use Rattle.sg_slots.specs.Bytes.{AreZeros};

use crate::places::WHOLE;
use sg_base::limits::MAX_ROOM;
use sg_disk::{DATA, Disk, DiskFailed};

/// The zeros of one write, which the area behind the data is that many times as long as.
pub(crate) const PIECE: usize = 16_384;

const PIECES: u64 = 132;

/// Writes zeros over both maps and the seals, a piece at a time.
pub(crate) fn clear_behind<D: Disk>(disk: &mut D, room: u64, zeros: &[u8]) -> Result<(), DiskFailed>
    requires room { room ≤ MAX_ROOM }
    requires disk { WHOLE + room ≤ (D.view disk.old).size }
    requires zeros { zeros.now ≡ replicate PIECE 0 }
    ensures within { Within (DATA + room) (WHOLE - DATA) (D.view disk.old) (D.view disk.new) }
    ensures zeros { OnOk result ((D.view disk.old).told
        → AreZeros (DATA + room) (WHOLE - DATA) (D.view disk.new).bytes) }
    ensures size { (D.view disk.new).size ≡ (D.view disk.old).size }
    ensures ran { OnOk result (Ran 0 (D.view disk.old) (D.view disk.new)) }
    ensures broke { OnErr result (Broke (D.view disk.old) (D.view disk.new)) }
{
    for piece in 0..PIECES {
        disk.write_at(DATA + room + PIECE as u64 * piece, zeros)?;
    }
    Ok(())
}
