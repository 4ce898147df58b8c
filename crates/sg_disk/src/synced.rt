// A write and a sync, and the closing of a gate: one byte that stands open where it is 1.
ghost use Rattle.std.specs.Prelude.{◌≡◌, ◌+◌, ◌≤◌, false, [], ◌∷◌, length, OnOk, OnErr, if◌then◌else◌};
ghost use Rattle.sg_disk.specs.View.{put, Only};
ghost use Rattle.sg_disk.specs.Runs.{LeavesOnly, Ran, Broke, Within};

use crate::device::{Disk, DiskFailed};

/// Writes, and makes it stable. A crash at any moment leaves any bytes in the range, and the rest as it was.
pub fn write_synced<D: Disk>(disk: &mut D, place: u64, bytes: &[u8]) -> Result<(), DiskFailed>
    requires { place + length bytes.now ≤ (D.view disk.old).size }

    // Every moment of the call keeps what stands outside the range.
    ensures within { Within place (length bytes.now) (D.view disk.old) (D.view disk.new) }
    ensures size { (D.view disk.new).size ≡ (D.view disk.old).size }

    // After `Ok` a crash leaves exactly the bytes with these written.
    ensures written { OnOk result ((D.view disk.old).told
        → (D.view disk.new).bytes ≡ put (D.view disk.old).bytes place bytes.now) }
    ensures durable { OnOk result ((D.view disk.old).told
        → Only (put (D.view disk.old).bytes place bytes.now) (D.view disk.new)) }
    ensures ran { OnOk result (Ran 2 (D.view disk.old) (D.view disk.new)) }
    ensures broke { OnErr result (Broke (D.view disk.old) (D.view disk.new)) }
{
    disk.write_at(place, bytes)?;
    disk.sync()?;
    Ok(())
}

// Closes a gate that is open, and looks at one that is closed: one call in both cases.
fn touch_gate<D: Disk>(disk: &mut D, place: u64, opened: bool) -> Result<(), DiskFailed>
    requires { place + 1 ≤ (D.view disk.old).size }

    // Every moment of the call keeps what stands outside the gate; a gate that is closed isn't written.
    ensures within { Within place 1 (D.view disk.old) (D.view disk.new) }
    ensures untouched { opened ≡ false → LeavesOnly (D.view disk.old).images (D.view disk.old)
        (D.view disk.new) }
    ensures size { (D.view disk.new).size ≡ (D.view disk.old).size }

    // After `Ok` a read gives a closed gate.
    ensures written { OnOk result ((D.view disk.old).told
        → (D.view disk.new).bytes
        ≡ (if opened then put (D.view disk.old).bytes place (0 ∷ [])
        else (D.view disk.old).bytes)) }
    ensures ran { OnOk result (Ran 1 (D.view disk.old) (D.view disk.new)) }
    ensures broke { OnErr result (Broke (D.view disk.old) (D.view disk.new)) }
{
    if opened {
        disk.write_at(place, &[0])?;
        Ok(())
    } else {
        disk.read(place, &mut [0])?;
        Ok(())
    }
}

/// Writes 0 at a gate that stands open, and syncs. A closed gate is only read, so that a crash can't open it, and both
/// cases make two calls. `opened` says how the gate stands.
pub fn close_gate<D: Disk>(disk: &mut D, place: u64, opened: bool) -> Result<(), DiskFailed>
    requires { place + 1 ≤ (D.view disk.old).size }

    // Every moment of the call keeps what stands outside the gate; a gate that is closed isn't written.
    ensures within { Within place 1 (D.view disk.old) (D.view disk.new) }
    ensures untouched { opened ≡ false → LeavesOnly (D.view disk.old).images (D.view disk.old)
        (D.view disk.new) }
    ensures size { (D.view disk.new).size ≡ (D.view disk.old).size }

    // After `Ok` the gate is closed.
    ensures written { OnOk result ((D.view disk.old).told
        → (D.view disk.new).bytes
        ≡ (if opened then put (D.view disk.old).bytes place (0 ∷ [])
        else (D.view disk.old).bytes)) }
    ensures durable { OnOk result ((D.view disk.old).told
        → Only (D.view disk.new).bytes (D.view disk.new)) }
    ensures ran { OnOk result (Ran 2 (D.view disk.old) (D.view disk.new)) }
    ensures broke { OnErr result (Broke (D.view disk.old) (D.view disk.new)) }
{
    touch_gate(disk, place, opened)?;
    disk.sync()?;
    Ok(())
}
