// The reading of the journal's area, piece by piece.
ghost use Rattle.std.specs.Prelude.{◌≡◌, ℕ, ◌+◌, ◌*◌, ◌<◌, ◌≤◌, List, [], ◌++◌, length, IfOk, IfErr, OnOk, IsErrOf, vec_len};
ghost use Rattle.sg_disk.specs.StandsFor.{journal_of};
ghost use Rattle.sg_disk.specs.Runs.{LeavesOnly, Quiet};
ghost use Rattle.sg_journal.specs.Records.{IsFirstWrong};
ghost use Rattle.sg_journal.specs.Entries.{AreRead, EndedBy};

use crate::fault::OpenFault;
use crate::record::{Entry, Wrong, read_record};
use sg_base::limits::JOURNAL_RECORDS;
use sg_disk::{DATA, Disk, JOURNAL, RECORD_LEN};
use std::alloc::{AllocError, Global};

// The area is read in pieces of so many bytes, through one buffer.
const PIECE_LEN: u64 = 65_536;

// The records of a piece.
const PIECE_RECORDS: u64 = 1_024;

/// How many pieces the area has.
pub const PIECES: u64 = 64;

// What an opening answers for a record that has something wrong.
fn damaged(k: u64, wrong: Wrong) -> OpenFault
    requires { k < JOURNAL_RECORDS }
    ensures { result ≡ OpenFault.Damaged (JOURNAL + RECORD_LEN * k + wrong.place) wrong.found }
{
    OpenFault::Damaged {
        place: JOURNAL + RECORD_LEN * k + u64::from(wrong.place),
        found: u64::from(wrong.found),
    }
}

// So many zeros.
fn zeros(alloc: Global, len: usize) -> Result<Vec<u8>, AllocError>
    ensures { IfOk result (λ bytes. length bytes.items ≡ len) }
{
    vec![in alloc; 0u8; len]
}

// Looks over the records of a piece, of which the first is record `from`, and adds them to the entries.
fn read_piece(
    buffer: &[u8],
    from: u64,
    epoch: u32,
    entries: &mut Vec<Option<Entry>>,
) -> Result<(), OpenFault>
    requires long { length buffer.now ≡ PIECE_LEN }
    requires from { from + PIECE_RECORDS ≤ JOURNAL_RECORDS }
    ensures read { OnOk result ((area : List ℕ) → length area ≡ RECORD_LEN * from
        → AreRead epoch from area entries.old.items
        → AreRead epoch (from + PIECE_RECORDS) (area ++ buffer.now) entries.new.items) }
    ensures damaged { (place found : ℕ) → IsErrOf result (OpenFault.Damaged place found)
        → (area : List ℕ) → length area ≡ RECORD_LEN * from
        → AreRead epoch from area entries.old.items
        → IsFirstWrong epoch (from + PIECE_RECORDS) (area ++ buffer.now) place found }
    ensures passed { IsErrOf result OpenFault.Disk → ⊥ }
{
    for i in 0..PIECE_RECORDS {
        let start = (RECORD_LEN * i) as usize;
        match read_record(&buffer[start..start + RECORD_LEN as usize], from + i, epoch) {
            Ok(entry) => entries.push(entry)?,
            Err(wrong) => return Err(damaged(from + i, wrong)),
        }
    }
    Ok(())
}

// Reads the whole area, and looks over each piece as it comes.
fn read_pieces<D: Disk>(
    disk: &mut D,
    epoch: u32,
    buffer: &mut [u8],
    entries: &mut Vec<Option<Entry>>,
) -> Result<(), OpenFault>
    requires disk { DATA ≤ (D.view disk.old).size }
    requires long { length buffer.old ≡ PIECE_LEN }
    requires empty { entries.old.items ≡ [] }
    ensures read { OnOk result ((area : List ℕ)
        × ((D.view disk.old).told → area ≡ journal_of (D.view disk.old).bytes)
        × AreRead epoch JOURNAL_RECORDS area entries.new.items) }
    ensures damaged { (place found : ℕ) → IsErrOf result (OpenFault.Damaged place found)
        → (D.view disk.old).told → IsFirstWrong epoch JOURNAL_RECORDS
        (journal_of (D.view disk.old).bytes) place found }
    ensures any_moment { LeavesOnly (D.view disk.old).images (D.view disk.old) (D.view disk.new) }
    ensures quiet { OnOk result (Quiet PIECES (D.view disk.old) (D.view disk.new)) }
    ensures bytes { (D.view disk.old).told → (D.view disk.new).bytes ≡ (D.view disk.old).bytes }
    ensures size { (D.view disk.new).size ≡ (D.view disk.old).size }
    ensures ended { IfErr result (λ fault. EndedBy fault (D.view disk.old) (D.view disk.new)) }
{
    for piece in 0..PIECES {
        disk.read(JOURNAL + PIECE_LEN * piece, buffer)?;
        read_piece(buffer, PIECE_RECORDS * piece, epoch, entries)?;
    }
    Ok(())
}

/// Reads all records of the journal's area, up to the first that has something wrong. It takes 64 reads, and memory for one
/// piece and for the entries.
pub fn read_records<D: Disk>(
    alloc: Global,
    disk: &mut D,
    epoch: u32,
) -> Result<Vec<Option<Entry>>, OpenFault>
    requires { DATA ≤ (D.view disk.old).size }
    ensures read { IfOk result (λ entries. (area : List ℕ)
        × ((D.view disk.old).told → area ≡ journal_of (D.view disk.old).bytes)
        × AreRead epoch JOURNAL_RECORDS area entries.items) }
    ensures damaged { (place found : ℕ) → IsErrOf result (OpenFault.Damaged place found)
        → (D.view disk.old).told → IsFirstWrong epoch JOURNAL_RECORDS
        (journal_of (D.view disk.old).bytes) place found }
    ensures any_moment { LeavesOnly (D.view disk.old).images (D.view disk.old) (D.view disk.new) }
    ensures quiet { OnOk result (Quiet PIECES (D.view disk.old) (D.view disk.new)) }
    ensures bytes { (D.view disk.old).told → (D.view disk.new).bytes ≡ (D.view disk.old).bytes }
    ensures size { (D.view disk.new).size ≡ (D.view disk.old).size }
    ensures ended { IfErr result (λ fault. EndedBy fault (D.view disk.old) (D.view disk.new)) }
{
    let mut buffer = zeros(alloc, PIECE_LEN as usize)?;
    let mut entries = Vec::with_capacity(alloc, JOURNAL_RECORDS as usize)?;
    read_pieces(disk, epoch, &mut buffer, &mut entries)?;
    Ok(entries)
}
