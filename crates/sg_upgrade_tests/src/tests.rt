// Upgrades of disks in memory: what they leave, and what a crash in one leaves. The places were worked out by the layout: with a
// data area of 65,536 bytes the old disk has 6,402,048 bytes and the new one 8,564,736.
use sg_disk::{Fuse, MemDisk, Pick};
use sg_upgrade::upgrade;
use std::alloc::Global;
use std::test::Fail;

const ROOM: u64 = 65_536;

const OLD: usize = 6_402_048;

const NEW: usize = 8_564_736;

// What a test can't go on with.
#[derive(Clone, Copy, Debug, Drop)]
struct Unmet;

// A disk of the old format of so many bytes: an open gate, the version 1, and anything else.
fn old_bytes(alloc: Global, len: usize) -> Result<Vec<u8>, Fail> {
    let mut bytes = Vec::new(alloc);
    bytes.resize(len, 170)?;
    if bytes.len() < 8 {
        return Err(Unmet)?;
    }
    bytes.as_mut_slice()[..8].copy_from_slice(&[1, 9, 9, 9, 1, 0, 0, 0]);
    Ok(bytes)
}

// Whether what the old format reads stands as it stood, but for the version byte.
fn keeps_the_old(first: &[u8], bytes: &[u8]) -> bool {
    first.len() >= OLD
        && bytes.len() >= OLD
        && bytes[..4] == first[..4]
        && bytes[5..32] == first[5..32]
        && bytes[40..OLD] == first[40..OLD]
}

// Whether what the new format has besides stands: its length, the second mark, and zeros behind the data area.
fn has_the_new(bytes: &[u8]) -> bool {
    bytes.len() == NEW
        && &bytes[32..40] == b"SGNSTOR2".as_slice()
        && bytes[OLD..].iter().all(|byte| *byte == 0)
}

// Whether the bytes are a disk of the old format still, or else one of the new format.
fn is_upgrading(first: &[u8], bytes: &[u8]) -> bool {
    let length = bytes.len() == first.len() || bytes.len() == NEW;
    let old_still = length && bytes.get(4).copied() == Some(1);
    keeps_the_old(first, bytes) && (old_still || has_the_new(bytes))
}

#[test]
fn an_upgrade_gives_a_disk_its_new_form(rt: HostRuntime) -> Result<(), Fail> {
    // The new length stands already where an earlier upgrade was cut off.
    for len in [OLD, NEW] {
        let first = old_bytes(rt.alloc(), len)?;
        let mut disk = MemDisk::new(rt.alloc(), first.as_slice().to_vec(rt.alloc())?)?;
        upgrade(&mut disk, ROOM)?;
        let bytes = disk.bytes();
        assert!(rt; keeps_the_old(first.as_slice(), bytes), "from {len} bytes");
        assert!(rt; has_the_new(bytes), "from {len} bytes");
        assert_eq!(rt; bytes.get(4).copied(), Some(2));
    }
    Ok(())
}

// The images that a crash is tried with.
const PICKS: [Pick; 6] = [
    Pick::Nothing,
    Pick::All,
    Pick::Byte(0),
    Pick::Byte(1),
    Pick::Byte(77),
    Pick::Byte(255),
];

// After how many calls a crash comes: in the resize, in the first zeros, some between and the last, in the second mark and its
// sync, and in the version and its sync.
const CALLS: [u64; 8] = [0, 1, 66, 132, 133, 134, 135, 136];

// The versions of the images, where each is a disk of one of both formats.
fn versions_after(alloc: Global, first: &[u8], calls: u64) -> Result<[u8; 6], Fail> {
    let mut disk = MemDisk::new(alloc, first.to_vec(alloc)?)?;
    disk.set_fuse(Fuse::Crash(calls));
    if upgrade(&mut disk, ROOM).is_ok() {
        return Err(Unmet)?;
    }
    let mut versions = [0; 6];
    for (version, pick) in versions.iter_mut().zip(PICKS) {
        let image = disk.image(pick)?;
        if !is_upgrading(first, image.as_slice()) {
            return Err(Unmet)?;
        }
        *version = image.as_slice().get(4).copied().unwrap_or(0);
    }
    Ok(versions)
}

#[test]
fn a_crash_leaves_the_old_disk_or_the_new_one(rt: HostRuntime) -> Result<(), Fail> {
    for len in [OLD, NEW] {
        let first = old_bytes(rt.alloc(), len)?;
        for calls in CALLS {
            // The version is the last byte that is written. A torn one is 1, or another byte over a disk that is whole.
            let wanted = if calls < 135 {
                [1; 6]
            } else {
                [1, 2, 0, 1, 77, 255]
            };
            let found = versions_after(rt.alloc(), first.as_slice(), calls)?;
            assert_eq!(rt; found, wanted, "from {len} bytes, after {calls} calls");
        }
    }
    Ok(())
}
