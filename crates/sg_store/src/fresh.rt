// The making of a new store.
ghost use Rattle.std.specs.Prelude.{◌≡◌, ◌+◌, ◌*◌, ◌<◌, ◌≤◌, ◌^◌, [], ◌∷◌, length, replicate, OnOk, OnErr};
ghost use Rattle.sg_disk.specs.View.{put, Torn, Sized, Only};
ghost use Rattle.sg_disk.specs.Runs.{Ran, Broke};
ghost use Rattle.sg_disk.specs.Contents.{IsRoom, fresh};
ghost use Rattle.sg_disk.specs.StandsFor.{disk_len, Settled};
ghost use Rattle.sg_slots.specs.Bytes.{header_fields, AreZeros};

use sg_base::limits::MAX_EPOCH;
use sg_disk::{
    DATA, Disk, DiskFailed, FIELDS, FORMAT_CALLS, JOURNAL, JOURNAL_LEN, SLOT_ONE, SLOT_ZERO,
    write_synced,
};
use sg_slots::{Format, header_fields_of};

// The zeros of one write over the journal, which is that many times this long.
const PIECE: usize = 16_384;

const PIECES: u64 = 256;

/// Makes a new store of the disk, whatever it held. After `Ok` it stands for the display and the epoch, with no snapshot
/// and no plays. A crash inside it, or a failure, promises nothing: it is run again.
///
/// The old header's gate is closed and synced first, so that no other byte changes behind an open one.
pub fn format<D: Disk>(disk: &mut D, format: &Format) -> Result<(), DiskFailed>
    requires display { 1 ≤ format.now.display }
    requires epoch { (1 ≤ format.now.epoch) × (format.now.epoch ≤ MAX_EPOCH) }
    requires room { IsRoom format.now.room }
    ensures fresh { OnOk result ((D.view disk.old).told
        → Settled (D.view disk.new) (fresh format.now.display format.now.epoch format.now.room)) }
    ensures stable { OnOk result ((D.view disk.old).told
        → Only (D.view disk.new).bytes (D.view disk.new)) }
    ensures size { OnOk result ((D.view disk.new).size ≡ disk_len format.now.room) }
    ensures ran { OnOk result (Ran FORMAT_CALLS (D.view disk.old) (D.view disk.new)) }
    ensures broke { OnErr result (Broke (D.view disk.old) (D.view disk.new)) }
{
    // The display is read for the proof, which learns its range there.
    let _display = format.display;
    close_header(disk)?;
    disk.resize(DATA + format.room)?;
    clear(disk)?;
    fill_header(disk, format)?;
    Ok(())
}

// Closes the header's gate, where the disk has a byte.
fn close_header<D: Disk>(disk: &mut D) -> Result<(), DiskFailed>
    ensures ran { OnOk result (Ran 0 (D.view disk.old) (D.view disk.new)) }
    ensures broke { OnErr result (Broke (D.view disk.old) (D.view disk.new)) }
{
    if disk.len()? > 0 {
        write_synced(disk, 0, &[0])?;
    }
    Ok(())
}

// Closes the header, both slots and every record.
fn clear<D: Disk>(disk: &mut D) -> Result<(), DiskFailed>
    requires disk { DATA ≤ (D.view disk.old).size }
    ensures zero { OnOk result ((D.view disk.old).told
        → AreZeros SLOT_ZERO 1 (D.view disk.new).bytes) }
    ensures one { OnOk result ((D.view disk.old).told
        → AreZeros SLOT_ONE 1 (D.view disk.new).bytes) }
    ensures journal { OnOk result ((D.view disk.old).told
        → AreZeros JOURNAL JOURNAL_LEN (D.view disk.new).bytes) }
    ensures size { (D.view disk.new).size ≡ (D.view disk.old).size }
    ensures ran { OnOk result (Ran 0 (D.view disk.old) (D.view disk.new)) }
    ensures broke { OnErr result (Broke (D.view disk.old) (D.view disk.new)) }
{
    disk.write_at(0, &[0])?;
    disk.write_at(SLOT_ZERO, &[0])?;
    disk.write_at(SLOT_ONE, &[0])?;
    clear_journal(disk, &[0; PIECE])?;
    Ok(())
}

// Writes zeros over the journal, a piece at a time.
fn clear_journal<D: Disk>(disk: &mut D, zeros: &[u8]) -> Result<(), DiskFailed>
    requires disk { DATA ≤ (D.view disk.old).size }
    requires zeros { zeros.now ≡ replicate PIECE 0 }
    ensures torn { OnOk result ((D.view disk.old).told
        → Torn JOURNAL JOURNAL_LEN (D.view disk.old).bytes (D.view disk.new).bytes) }
    ensures journal { OnOk result ((D.view disk.old).told
        → AreZeros JOURNAL JOURNAL_LEN (D.view disk.new).bytes) }
    ensures size { (D.view disk.new).size ≡ (D.view disk.old).size }
    ensures ran { OnOk result (Ran 0 (D.view disk.old) (D.view disk.new)) }
    ensures broke { OnErr result (Broke (D.view disk.old) (D.view disk.new)) }
{
    for piece in 0..PIECES {
        disk.write_at(JOURNAL + PIECE as u64 * piece, zeros)?;
    }
    Ok(())
}

// Writes the header behind its closed gate, syncs, and opens the gate.
fn fill_header<D: Disk>(disk: &mut D, format: &Format) -> Result<(), DiskFailed>
    requires disk { DATA ≤ (D.view disk.old).size }
    ensures written { OnOk result ((D.view disk.old).told
        → (D.view disk.new).bytes
        ≡ put (put (D.view disk.old).bytes FIELDS
        (header_fields format.now.display format.now.epoch format.now.room)) 0 (1 ∷ [])) }
    ensures stable { OnOk result ((D.view disk.old).told
        → Only (D.view disk.new).bytes (D.view disk.new)) }
    ensures size { (D.view disk.new).size ≡ (D.view disk.old).size }
    ensures ran { OnOk result (Ran 4 (D.view disk.old) (D.view disk.new)) }
    ensures broke { OnErr result (Broke (D.view disk.old) (D.view disk.new)) }
{
    write_synced(disk, FIELDS, &header_fields_of(format))?;
    write_synced(disk, 0, &[1])?;
    Ok(())
}
