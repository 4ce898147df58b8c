// The header: its bytes, and its reading.
ghost use Rattle.std.specs.Prelude.{◌≡◌, ◌≢◌, ◌⊎◌, ℕ, ◌+◌, ◌<◌, ◌≤◌, None, Some, length, IfOk, IfErr, OnOk, OnErr, IsErrOf, slice_index};
ghost use Rattle.sg_disk.specs.View.{Only};
ghost use Rattle.sg_disk.specs.StandsFor.{disk_len};
ghost use Rattle.sg_disk.specs.Runs.{LeavesOnly, Ran};
ghost use Rattle.sg_slots.specs.Bytes.{header_fields, u32_at, u64_at};
ghost use Rattle.sg_slots.specs.Damage.{mark_damage, format_damage, header_damage, is_room};
ghost use Rattle.sg_slots.specs.Refusals.{EndedBy};

use crate::entries::{u32_in, u64_in};
use crate::fault::OpenFault;
use crate::formats::Format;
use sg_base::limits::{MAX_ROOM, ROOM_UNIT};
use sg_disk::{DATA, DISPLAY, Disk, EPOCH, MARK, ROOM, VERSION};

// `SGNSTORE`, low byte first.
const STORE: u64 = 0x4552_4F54_534E_4753;

/// The fields of a header, which stand from its byte 4 on.
pub fn header_fields_of(format: &Format) -> [u8; 28]
    ensures { result ≡ header_fields format.now.display format.now.epoch format.now.room }
{
    let [d0, d1, d2, d3] = format.display.to_le_bytes();
    let [e0, e1, e2, e3] = format.epoch.to_le_bytes();
    let [r0, r1, r2, r3, r4, r5, r6, r7] = format.room.to_le_bytes();
    [
        1, 0, 0, 0, b'S', b'G', b'N', b'S', b'T', b'O', b'R', b'E', d0, d1, d2, d3, e0, e1, e2, e3,
        r0, r1, r2, r3, r4, r5, r6, r7,
    ]
}

/// Syncs, and reads the header. A disk that is too short for a store, or whose gate isn't open, is unformatted.
pub fn read_header<D: Disk>(disk: &mut D) -> Result<Format, OpenFault>

    // A crash at any moment of it leaves what a crash before it could leave.
    ensures any_moment { LeavesOnly (D.view disk.old).images (D.view disk.old) (D.view disk.new) }

    // After `Ok` it has read a sound header, and a crash leaves what a read gives.
    ensures formatted { OnOk result ((D.view disk.old).told
        → slice_index (D.view disk.old).bytes 0 ≡ 1) }
    ensures sound { OnOk result ((D.view disk.old).told
        → header_damage (D.view disk.new).size (D.view disk.old).bytes ≡ None) }
    ensures display { IfOk result (λ h. (D.view disk.old).told
        → h.display ≡ u32_at (D.view disk.old).bytes DISPLAY) }
    ensures epoch { IfOk result (λ h. (D.view disk.old).told
        → h.epoch ≡ u32_at (D.view disk.old).bytes EPOCH) }
    ensures room { IfOk result (λ h. (D.view disk.old).told
        → h.room ≡ u64_at (D.view disk.old).bytes ROOM) }
    ensures few { IfOk result (λ h. h.room ≤ MAX_ROOM) }
    ensures size { IfOk result (λ h. (D.view disk.new).size ≡ disk_len h.room) }
    ensures stable { OnOk result ((D.view disk.old).told
        → Only (D.view disk.old).bytes (D.view disk.new)) }
    ensures bytes { OnOk result ((D.view disk.old).told
        → (D.view disk.new).bytes ≡ (D.view disk.old).bytes) }
    ensures ran { OnOk result (Ran 2 (D.view disk.old) (D.view disk.new)) }

    // Why it is refused, and what that leaves of the disk.
    ensures unformatted { IsErrOf result OpenFault.Unformatted
        → ((D.view disk.new).size < DATA)
        ⊎ ((D.view disk.old).told → slice_index (D.view disk.old).bytes 0 ≢ 1) }
    ensures damaged { (place found : ℕ) → IsErrOf result (OpenFault.Damaged place found)
        → (D.view disk.old).told → header_damage (D.view disk.new).size (D.view disk.old).bytes
        ≡ Some (record { place = place; found = found }) }
    ensures opened { (place found : ℕ) → IsErrOf result (OpenFault.Damaged place found)
        → (D.view disk.old).told → slice_index (D.view disk.old).bytes 0 ≡ 1 }
    ensures long { (place found : ℕ) → IsErrOf result (OpenFault.Damaged place found)
        → DATA ≤ (D.view disk.new).size }
    ensures memory { IsErrOf result OpenFault.Memory → ⊥ }
    ensures ended { IfErr result (λ fault. EndedBy fault (D.view disk.old) (D.view disk.new)) }
    ensures told_size { (D.view disk.old).told → (D.view disk.new).size ≡ (D.view disk.old).size }
{
    disk.sync()?;
    let size = disk.len()?;
    if size < DATA {
        return Err(OpenFault::Unformatted);
    }
    let mut bytes = [0; 32];
    disk.read(0, &mut bytes)?;
    if bytes[0] != 1 {
        return Err(OpenFault::Unformatted);
    }
    check_header(size, &bytes)
}

// The fields of a header on a disk of this length.
fn check_header(size: u64, bytes: &[u8]) -> Result<Format, OpenFault>
    requires { length bytes.now ≡ 32 }
    ensures damaged { (place found : ℕ) → IsErrOf result (OpenFault.Damaged place found)
        → header_damage size bytes.now ≡ Some (record { place = place; found = found }) }
    ensures only { OnErr result ((place : ℕ) × (found : ℕ)
        × IsErrOf result (OpenFault.Damaged place found)) }
    ensures sound { OnOk result (header_damage size bytes.now ≡ None) }
    ensures display { IfOk result (λ h. h.display ≡ u32_at bytes.now DISPLAY) }
    ensures epoch { IfOk result (λ h. h.epoch ≡ u32_at bytes.now EPOCH) }
    ensures room { IfOk result (λ h. h.room ≡ u64_at bytes.now ROOM) }
    ensures few { IfOk result (λ h. h.room ≤ MAX_ROOM) }
    ensures size { IfOk result (λ h. size ≡ DATA + h.room) }
{
    check_mark(u32_in(bytes, VERSION), u64_in(bytes, MARK))?;
    let header = Format {
        display: u32_in(bytes, DISPLAY),
        epoch: u32_in(bytes, EPOCH),
        room: u64_in(bytes, ROOM),
    };
    check_fields(size, &header)?;
    Ok(header)
}

// Looks at the version and the mark.
fn check_mark(version: u32, mark: u64) -> Result<(), OpenFault>
    ensures damaged { (place found : ℕ) → IsErrOf result (OpenFault.Damaged place found)
        → mark_damage version mark ≡ Some (record { place = place; found = found }) }
    ensures only { OnErr result ((place : ℕ) × (found : ℕ)
        × IsErrOf result (OpenFault.Damaged place found)) }
    ensures sound { OnOk result (mark_damage version mark ≡ None) }
{
    if version != 1 {
        return Err(OpenFault::Damaged {
            place: VERSION,
            found: u64::from(version),
        });
    }
    if mark != STORE {
        return Err(OpenFault::Damaged {
            place: MARK,
            found: mark,
        });
    }
    Ok(())
}

// Looks at the display, the epoch and the length of the data area.
fn check_fields(size: u64, header: &Format) -> Result<(), OpenFault>
    ensures damaged { (place found : ℕ) → IsErrOf result (OpenFault.Damaged place found)
        → format_damage size header.now ≡ Some (record { place = place; found = found }) }
    ensures only { OnErr result ((place : ℕ) × (found : ℕ)
        × IsErrOf result (OpenFault.Damaged place found)) }
    ensures sound { OnOk result (format_damage size header.now ≡ None) }
    ensures few { OnOk result (header.now.room ≤ MAX_ROOM) }
    ensures size { OnOk result (size ≡ DATA + header.now.room) }
{
    if header.display == 0 {
        return Err(OpenFault::Damaged {
            place: DISPLAY,
            found: 0,
        });
    }
    if header.epoch == 0 {
        return Err(OpenFault::Damaged {
            place: EPOCH,
            found: 0,
        });
    }
    if !is_room(header.room) || size != DATA + header.room {
        return Err(OpenFault::Damaged {
            place: ROOM,
            found: header.room,
        });
    }
    Ok(())
}

/// Whether a data area may have this length.
pub fn is_room(room: u64) -> bool
    ensures { result ≡ is_room room }
{
    ROOM_UNIT <= room && room <= MAX_ROOM && room % ROOM_UNIT == 0
}
