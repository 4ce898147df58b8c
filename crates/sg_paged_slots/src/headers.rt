// The header of a store of either format.
ghost use Rattle.std.specs.Prelude.{◌≡◌, ◌≢◌, ◌⊎◌, ℕ, ◌<◌, ◌≤◌, None, Some, length, IfOk, IfErr, OnOk, OnErr, IsErrOf, slice_index, true};
ghost use Rattle.sg_disk.specs.View.{Only};
ghost use Rattle.sg_disk.specs.Runs.{LeavesOnly, Ran};
ghost use Rattle.sg_slots.specs.Damage.{check, is_room};
ghost use Rattle.sg_slots.specs.Refusals.{EndedBy};
ghost use Rattle.sg_paged_slots.specs.Headers.{header_at, is_version, is_store, fits_disk, fields_damage_of, any_header_damage};

use sg_base::limits::MAX_ROOM;
use sg_disk::{DATA, DISPLAY, Disk, EPOCH, MARK, ROOM, VERSION};
use sg_slots::{Format, OpenFault, is_room, u32_in, u64_in};
use sg_upgrade::{SECOND_MARK, WHOLE};

// `SGNSTORE` and `SGNSTOR2`, low byte first.
const STORE: u64 = 0x4552_4F54_534E_4753;

const STORE_TWO: u64 = 0x3252_4F54_534E_4753;

/// What a header says.
#[derive(Clone, Copy, Debug, PartialEq, Eq)]
pub struct Header {
    /// What the store was made for.
    pub format: Format,
    /// Whether it is of the old format.
    pub old: bool,
}

/// Syncs, and reads the header of a store of either format. A disk that is too short for a store, or whose gate isn't open, is
/// unformatted.
pub fn read_any_header<D: Disk>(disk: &mut D) -> Result<Header, OpenFault>

    // A crash at any moment of it leaves what a crash before it could leave.
    ensures any_moment { LeavesOnly (D.view disk.old).images (D.view disk.old) (D.view disk.new) }

    // After `Ok` it has read a sound header, and a crash leaves what a read gives.
    ensures formatted { OnOk result ((D.view disk.old).told
        → slice_index (D.view disk.old).bytes 0 ≡ 1) }
    ensures sound { OnOk result ((D.view disk.old).told
        → any_header_damage (D.view disk.new).size (D.view disk.old).bytes ≡ None) }
    ensures header { IfOk result (λ h. (D.view disk.old).told
        → h ≡ header_at (D.view disk.old).bytes) }
    ensures few { IfOk result (λ h. h.format.room ≤ MAX_ROOM) }
    ensures room { IfOk result (λ h. is_room h.format.room ≡ true) }
    ensures size { IfOk result (λ h. fits_disk (D.view disk.new).size h ≡ true) }
    ensures stable { OnOk result ((D.view disk.old).told
        → Only (D.view disk.old).bytes (D.view disk.new)) }
    ensures bytes { OnOk result ((D.view disk.old).told
        → (D.view disk.new).bytes ≡ (D.view disk.old).bytes) }
    ensures ran { OnOk result (Ran 2 (D.view disk.old) (D.view disk.new)) }

    // Why it is refused, and what that leaves of the disk.
    ensures unformatted { IsErrOf result OpenFault.Unformatted
        → ((D.view disk.new).size < DATA)
        ⊎ ((D.view disk.old).told → slice_index (D.view disk.old).bytes 0 ≢ 1) }
    ensures damaged { (place found : ℕ) → IsErrOf result (OpenFault.Damaged place found)
        → (D.view disk.old).told
        → any_header_damage (D.view disk.new).size (D.view disk.old).bytes
        ≡ Some (record { place = place; found = found }) }
    ensures opened { (place found : ℕ) → IsErrOf result (OpenFault.Damaged place found)
        → (D.view disk.old).told → slice_index (D.view disk.old).bytes 0 ≡ 1 }
    ensures long { (place found : ℕ) → IsErrOf result (OpenFault.Damaged place found)
        → DATA ≤ (D.view disk.new).size }
    ensures byte { (place found : ℕ) → IsErrOf result (OpenFault.Damaged place found)
        → (D.view disk.old).told → slice_index (D.view disk.old).bytes VERSION < 256 }
    ensures memory { IsErrOf result OpenFault.Memory → ⊥ }
    ensures ended { IfErr result (λ fault. EndedBy fault (D.view disk.old) (D.view disk.new)) }
    ensures told_size { (D.view disk.old).told → (D.view disk.new).size ≡ (D.view disk.old).size }
{
    disk.sync()?;
    let size = disk.len()?;
    if size < DATA {
        return Err(OpenFault::Unformatted);
    }
    let mut bytes = [0; 40];
    disk.read(0, &mut bytes)?;
    if bytes[0] != 1 {
        return Err(OpenFault::Unformatted);
    }
    check_any_header(size, &bytes)
}

// The fields of a header on a disk of this length.
fn check_any_header(size: u64, bytes: &[u8]) -> Result<Header, OpenFault>
    requires { length bytes.now ≡ 40 }
    ensures damaged { (place found : ℕ) → IsErrOf result (OpenFault.Damaged place found)
        → any_header_damage size bytes.now ≡ Some (record { place = place; found = found }) }
    ensures only { OnErr result ((place : ℕ) × (found : ℕ)
        × IsErrOf result (OpenFault.Damaged place found)) }
    ensures sound { OnOk result (any_header_damage size bytes.now ≡ None) }
    ensures header { IfOk result (λ h. h ≡ header_at bytes.now) }
    ensures few { IfOk result (λ h. h.format.room ≤ MAX_ROOM) }
    ensures room { IfOk result (λ h. is_room h.format.room ≡ true) }
    ensures size { IfOk result (λ h. fits_disk size h ≡ true) }
    ensures byte { slice_index bytes.now VERSION < 256 }
{
    check_version(u32_in(bytes, VERSION), u64_in(bytes, SECOND_MARK))?;
    check_store(u64_in(bytes, MARK))?;
    let header = Header {
        format: Format {
            display: u32_in(bytes, DISPLAY),
            epoch: u32_in(bytes, EPOCH),
            room: u64_in(bytes, ROOM),
        },
        old: u32_in(bytes, VERSION) == 1,
    };
    check_formats(size, &header)?;
    Ok(header)
}

// Looks at the version, which is that of either format.
fn check_version(version: u32, second: u64) -> Result<(), OpenFault>
    ensures damaged { (place found : ℕ) → IsErrOf result (OpenFault.Damaged place found)
        → check (is_version version second) VERSION version
        ≡ Some (record { place = place; found = found }) }
    ensures only { OnErr result ((place : ℕ) × (found : ℕ)
        × IsErrOf result (OpenFault.Damaged place found)) }
    ensures sound { OnOk result (check (is_version version second) VERSION version ≡ None) }
{
    if version != 1 && (version > 255 || second != STORE_TWO) {
        return Err(OpenFault::Damaged {
            place: VERSION,
            found: u64::from(version),
        });
    }
    Ok(())
}

// Looks at the mark.
fn check_store(mark: u64) -> Result<(), OpenFault>
    ensures damaged { (place found : ℕ) → IsErrOf result (OpenFault.Damaged place found)
        → check (is_store mark) MARK mark ≡ Some (record { place = place; found = found }) }
    ensures only { OnErr result ((place : ℕ) × (found : ℕ)
        × IsErrOf result (OpenFault.Damaged place found)) }
    ensures sound { OnOk result (check (is_store mark) MARK mark ≡ None) }
{
    if mark != STORE {
        return Err(OpenFault::Damaged {
            place: MARK,
            found: mark,
        });
    }
    Ok(())
}

// Looks at the display, the epoch and the length of the data area.
fn check_formats(size: u64, header: &Header) -> Result<(), OpenFault>
    ensures damaged { (place found : ℕ) → IsErrOf result (OpenFault.Damaged place found)
        → fields_damage_of size header.now ≡ Some (record { place = place; found = found }) }
    ensures only { OnErr result ((place : ℕ) × (found : ℕ)
        × IsErrOf result (OpenFault.Damaged place found)) }
    ensures sound { OnOk result (fields_damage_of size header.now ≡ None) }
    ensures few { OnOk result (header.now.format.room ≤ MAX_ROOM) }
    ensures room { OnOk result (is_room header.now.format.room ≡ true) }
    ensures size { OnOk result (fits_disk size header.now ≡ true) }
{
    if header.format.display == 0 {
        return Err(OpenFault::Damaged {
            place: DISPLAY,
            found: 0,
        });
    }
    if header.format.epoch == 0 {
        return Err(OpenFault::Damaged {
            place: EPOCH,
            found: 0,
        });
    }
    if !is_room(header.format.room) || !fits_disk(size, header) {
        return Err(OpenFault::Damaged {
            place: ROOM,
            found: header.format.room,
        });
    }
    Ok(())
}

// Whether a disk of this length has the areas of its format.
fn fits_disk(size: u64, header: &Header) -> bool
    ensures { result ≡ fits_disk size header.now }
{
    let room = header.format.room;
    room <= size && (size - room == WHOLE || header.old && size - room == DATA)
}
