// Two media on a disk: medium 2 of 70,000 bytes, and every other of 3 bytes.
ghost use Rattle.std.specs.Prelude.{◌≡◌, ◌+◌, ◌%◌, ◌≤◌, ◌==◌, ℕ, List, IfOk, IfSome, IsSomeAnd, OnOk, Some, length, is_err, if◌then◌else◌};
ghost use Rattle.sg_disk.specs.Memory.{mem_view};

use sg_base::MediaId;
use sg_devices::{MemPanel, Screen};
use sg_disk::{Disk, DiskFailed, MemDisk};
use sg_outside::Sink;
use sg_panels::{PaintFault, Shelf, paint_all};
use std::alloc::{AllocError, Global};
use std::test::Fail;

/// The bytes of the disk.
pub const DISK_LEN: usize = 131_072;

#[derive(Drop)]
pub struct OnDisk {
    pub room: u64,
    ghost long: { 131072 ≤ room },
}

impl Shelf for OnDisk {
    ghost room = { λ s. s.room };

    ghost lengths = { λ s m. Some (if m == 2 then 70000 else 3) };

    // Nothing is claimed of the bytes: the tests compare them.
    ghost knows = { λ s v bytes. ⊥ };

    fn length(&self, media: MediaId) -> Option<u32> {
        if media.0 == 2 { Some(70_000) } else { Some(3) }
    }

    fn read<D: Disk>(
        &self,
        disk: &mut D,
        media: MediaId,
        offset: u32,
        into: &mut [u8],
    ) -> Result<(), DiskFailed> {
        let place = if media.0 == 2 {
            16
        } else {
            u64::from(media.0 % 4)
        };
        disk.read(place + u64::from(offset), into)
    }
}

/// A disk whose byte i is `i mod 251`.
pub fn disk(alloc: Global) -> Result<MemDisk, AllocError> {
    let mut bytes = Vec::new(alloc);
    for i in 0..DISK_LEN {
        bytes.push((i % 251) as u8)?;
    }
    MemDisk::new(alloc, bytes)
}

/// A live screen whose panel fails in these calls.
pub fn screen(alloc: Global, failing: &[u64]) -> Result<Screen, AllocError> {
    let panel = MemPanel::new(alloc).with_failing(failing.to_vec(alloc)?);
    Ok(Screen {
        panel: Box::new(alloc, panel)?,
        live: true,
    })
}

/// As many live screens, whose panels fail in these calls.
pub fn screens(alloc: Global, failing: &[&'static [u64]]) -> Result<Vec<Screen>, AllocError> {
    let mut screens = Vec::new(alloc);
    for calls in failing {
        screens.push(screen(alloc, calls)?)?;
    }
    Ok(screens)
}

/// Which of these are live.
pub fn live(alloc: Global, screens: &[Screen]) -> Result<Vec<bool>, AllocError> {
    screens.iter().map(|screen| screen.live).collect(alloc)
}

/// Paints a picture.
pub fn paint<O: Sink>(
    alloc: Global,
    panels: &mut Vec<Screen>,
    spares: &mut Vec<Screen>,
    picture: &[(u32, MediaId)],
    disk: &mut MemDisk,
    out: &mut O,
) -> Result<Result<(), PaintFault>, Fail> {
    let room = disk.len()?;
    if room < 131_072 {
        return Err(Fail::new("a short disk"));
    }
    let shelf = OnDisk { room };
    let mut piece = vec![in alloc; 0u8; 65_536]?;
    Ok(paint_all(
        panels,
        spares,
        picture,
        &shelf,
        disk,
        piece.as_mut_slice(),
        out,
    ))
}
