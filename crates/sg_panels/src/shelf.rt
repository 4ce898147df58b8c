// Where the bytes of a picture come from.
ghost use Rattle.std.specs.Prelude.{◌≡◌, ◌+◌, ◌%◌, ◌≤◌, ℕ, List, IfSome, IsSomeAnd, OnOk, Some, length, is_err};
ghost use Rattle.std.specs.declared.option.Option.{Option};
ghost use Rattle.sg_base.specs.declared.limits.TheConstants.{PIECE_LEN};
ghost use Rattle.sg_disk.specs.View.{View, range};
ghost use Rattle.sg_panels.specs.Reads.{OnlyReads, StaysKnown};

use sg_base::MediaId;
use sg_disk::{Disk, DiskFailed};

/// The media of pictures, which lie on a disk. It needs the disk on which they lie.
pub trait Shelf {
    // How long that disk is.
    ghost room: { Self → ℕ };

    // How many bytes a medium has, if it is here.
    ghost lengths: { Self → ℕ → Option ℕ };

    // By this disk, these are the bytes of each medium that is here.
    ghost knows: { Self → View → (ℕ → List ℕ) → Type 0 };

    /// How many bytes a medium has: one at least. `None` if it isn't here.
    fn length(&self, media: MediaId) -> Option<u32>
        ensures value { result ≡ lengths self.now media.0 }
        ensures some { IfSome result (λ n. 1 ≤ n) };

    /// Reads bytes of a medium that is here, from an offset on. They lie in one piece of it.
    fn read<D: Disk>(
        &self,
        disk: &mut D,
        media: MediaId,
        offset: u32,
        into: &mut [u8],
    ) -> Result<(), DiskFailed>
        requires disk { (D.view disk.old).size ≡ room self.now }
        requires file { IsSomeAnd (lengths self.now media.0) (λ n. offset + length into.old ≤ n) }
        requires piece { offset % PIECE_LEN + length into.old ≤ PIECE_LEN }

        // After `Ok` these are the bytes of the medium, where they are known, and all that was known still is.
        ensures bytes { OnOk result ((bytes : ℕ → List ℕ) → knows self.now (D.view disk.old) bytes
            → into.new ≡ range (bytes media.0) offset (length into.old)) }
        ensures long { OnOk result ((bytes : ℕ → List ℕ) → knows self.now (D.view disk.old) bytes
            → lengths self.now media.0 ≡ Some (length (bytes media.0))) }
        ensures known { OnOk result (StaysKnown (knows self.now (D.view disk.old))
            (knows self.now (D.view disk.new))) }

        // The disk stays as it is, at every moment.
        ensures only { OnlyReads (is_err result) (D.view disk.old) (D.view disk.new) };
}
