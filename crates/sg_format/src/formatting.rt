// The making of a new store, call by call.
ghost use Rattle.std.specs.Prelude.{◌≡◌, ℕ, ◌+◌, ◌*◌, ◌<◌, ◌≤◌, [], ◌∷◌, length, replicate, OnOk, OnErr};
ghost use Rattle.sg_disk.specs.View.{put, Torn, Only};
ghost use Rattle.sg_disk.specs.Runs.{Ran, Broke};
ghost use Rattle.sg_disk.specs.Contents.{IsRoom, fresh};
ghost use Rattle.sg_slots.specs.Bytes.{AreZeros};
ghost use Rattle.sg_contents.specs.StandsFor.{Settled, disk_len};
ghost use Rattle.sg_format.specs.Formatting.{new_header};

use sg_base::limits::{MAX_EPOCH, MAX_ROOM};
use sg_contents::SEALS_LEN;
use sg_disk::{
    DATA, Disk, DiskFailed, FIELDS, FORMAT_CALLS, JOURNAL, JOURNAL_LEN, SLOT_ONE, SLOT_ZERO,
    write_synced,
};
use sg_pages::MAP_LEN;
use sg_slots::Format;
use sg_upgrade::WHOLE;

// The zeros of one write, and how many of them clear the journal, and the area of seals.
const PIECE: usize = 16_384;

const JOURNAL_PIECES: u64 = 256;

const SEALS_PIECES: u64 = 128;

const _: () = prove!(PIECE as u64 * JOURNAL_PIECES == JOURNAL_LEN);

const _: () = prove!(PIECE as u64 * SEALS_PIECES == SEALS_LEN);

/// Makes a new store of the disk, whatever it held. After `Ok` it stands for the display and the epoch, with no snapshot
/// and no plays. A crash inside it, or a failure, promises nothing: it is run again, and asks nothing of what it finds.
///
/// The old header's gate is closed and synced first, so that no other byte changes behind an open one. What stands in the data
/// area and in the maps is left: nothing reads it while both slots are closed.
pub fn format<D: Disk>(disk: &mut D, format: &Format) -> Result<(), DiskFailed>
    requires display { 1 ≤ format.now.display }
    requires epoch { (1 ≤ format.now.epoch) × (format.now.epoch ≤ MAX_EPOCH) }
    requires room { IsRoom format.now.room }
    ensures fresh { OnOk result ((D.view disk.old).told
        → Settled (D.view disk.new) (fresh format.now.display format.now.epoch format.now.room)) }
    ensures stable { OnOk result ((D.view disk.old).told
        → Only (D.view disk.new).bytes (D.view disk.new)) }
    ensures size { OnOk result ((D.view disk.new).size ≡ disk_len format.now.room) }
    ensures ran { OnOk result (Ran FORMAT_CALLS (D.view disk.old) (D.view disk.new)) }
    ensures broke { OnErr result (Broke (D.view disk.old) (D.view disk.new)) }
{
    // The display is read for the proof, which learns its range there.
    let _display = format.display;
    close_header(disk)?;
    disk.resize(WHOLE + format.room)?;
    close_gates(disk)?;
    clear_areas(disk, format.room)?;
    fill_header(disk, format)?;
    Ok(())
}

// Closes the header's gate, where the disk has a byte.
fn close_header<D: Disk>(disk: &mut D) -> Result<(), DiskFailed>
    ensures ran { OnOk result (Ran 0 (D.view disk.old) (D.view disk.new)) }
    ensures broke { OnErr result (Broke (D.view disk.old) (D.view disk.new)) }
{
    if disk.len()? > 0 {
        write_synced(disk, 0, &[0])?;
    }
    Ok(())
}

// Closes the gates of the header and of both slots.
fn close_gates<D: Disk>(disk: &mut D) -> Result<(), DiskFailed>
    requires disk { WHOLE ≤ (D.view disk.old).size }
    ensures zero { OnOk result ((D.view disk.old).told
        → AreZeros SLOT_ZERO 1 (D.view disk.new).bytes) }
    ensures one { OnOk result ((D.view disk.old).told
        → AreZeros SLOT_ONE 1 (D.view disk.new).bytes) }
    ensures size { (D.view disk.new).size ≡ (D.view disk.old).size }
    ensures ran { OnOk result (Ran 0 (D.view disk.old) (D.view disk.new)) }
    ensures broke { OnErr result (Broke (D.view disk.old) (D.view disk.new)) }
{
    disk.write_at(0, &[0])?;
    disk.write_at(SLOT_ZERO, &[0])?;
    disk.write_at(SLOT_ONE, &[0])?;
    Ok(())
}

// Writes zeros over the journal and over the area of seals.
fn clear_areas<D: Disk>(disk: &mut D, room: u64) -> Result<(), DiskFailed>
    requires room { room ≤ MAX_ROOM }
    requires disk { WHOLE + room ≤ (D.view disk.old).size }
    ensures kept { OnOk result ((D.view disk.old).told → (place n : ℕ) → place + n ≤ JOURNAL
        → AreZeros place n (D.view disk.old).bytes → AreZeros place n (D.view disk.new).bytes) }
    ensures journal { OnOk result ((D.view disk.old).told
        → AreZeros JOURNAL JOURNAL_LEN (D.view disk.new).bytes) }
    ensures seals { OnOk result ((D.view disk.old).told
        → AreZeros (DATA + room + 2 * MAP_LEN) SEALS_LEN (D.view disk.new).bytes) }
    ensures size { (D.view disk.new).size ≡ (D.view disk.old).size }
    ensures ran { OnOk result (Ran 0 (D.view disk.old) (D.view disk.new)) }
    ensures broke { OnErr result (Broke (D.view disk.old) (D.view disk.new)) }
{
    let zeros = [0; PIECE];
    clear_area(disk, JOURNAL, JOURNAL_PIECES, &zeros)?;
    clear_area(disk, DATA + room + 2 * MAP_LEN, SEALS_PIECES, &zeros)?;
    Ok(())
}

// Writes zeros from a place on, a piece at a time.
fn clear_area<D: Disk>(
    disk: &mut D,
    place: u64,
    pieces: u64,
    zeros: &[u8],
) -> Result<(), DiskFailed>
    requires disk { place + PIECE * pieces ≤ (D.view disk.old).size }
    requires zeros { zeros.now ≡ replicate PIECE 0 }
    requires fits { (pieces ≤ JOURNAL_PIECES) × (place ≤ WHOLE + MAX_ROOM) }
    ensures torn { OnOk result ((D.view disk.old).told
        → Torn place (PIECE * pieces) (D.view disk.old).bytes (D.view disk.new).bytes) }
    ensures zeros { OnOk result ((D.view disk.old).told
        → AreZeros place (PIECE * pieces) (D.view disk.new).bytes) }
    ensures size { (D.view disk.new).size ≡ (D.view disk.old).size }
    ensures ran { OnOk result (Ran 0 (D.view disk.old) (D.view disk.new)) }
    ensures broke { OnErr result (Broke (D.view disk.old) (D.view disk.new)) }
{
    for piece in 0..pieces {
        disk.write_at(place + PIECE as u64 * piece, zeros)?;
    }
    Ok(())
}

// Writes the header behind its closed gate, syncs, and opens the gate.
fn fill_header<D: Disk>(disk: &mut D, format: &Format) -> Result<(), DiskFailed>
    requires disk { DATA ≤ (D.view disk.old).size }
    ensures written { OnOk result ((D.view disk.old).told
        → (D.view disk.new).bytes
        ≡ put (put (D.view disk.old).bytes FIELDS
        (new_header format.now.display format.now.epoch format.now.room)) 0 (1 ∷ [])) }
    ensures stable { OnOk result ((D.view disk.old).told
        → Only (D.view disk.new).bytes (D.view disk.new)) }
    ensures size { (D.view disk.new).size ≡ (D.view disk.old).size }
    ensures ran { OnOk result (Ran 4 (D.view disk.old) (D.view disk.new)) }
    ensures broke { OnErr result (Broke (D.view disk.old) (D.view disk.new)) }
{
    write_synced(disk, FIELDS, &new_header_of(format))?;
    write_synced(disk, 0, &[1])?;
    Ok(())
}

// The header's fields, from its byte 4 on.
fn new_header_of(format: &Format) -> [u8; 36]
    ensures { result ≡ new_header format.now.display format.now.epoch format.now.room }
{
    let [d0, d1, d2, d3] = format.display.to_le_bytes();
    let [e0, e1, e2, e3] = format.epoch.to_le_bytes();
    let [r0, r1, r2, r3, r4, r5, r6, r7] = format.room.to_le_bytes();
    [
        2, 0, 0, 0, b'S', b'G', b'N', b'S', b'T', b'O', b'R', b'E', d0, d1, d2, d3, e0, e1, e2, e3,
        r0, r1, r2, r3, r4, r5, r6, r7, b'S', b'G', b'N', b'S', b'T', b'O', b'R', b'2',
    ]
}
