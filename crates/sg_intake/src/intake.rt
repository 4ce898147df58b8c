// What a fetching asks of a store.
ghost use Rattle.std.specs.Prelude.{◌≡◌, ◌≢◌, ◌+◌, ◌%◌, ◌≤◌, ◌||◌, ◌++◌, [], ℕ, Bool, List, Contains, IfErr, IfOk, IfSome, IsSomeAnd, None, OnErr, OnOk, Some, false, length, min, option_map};
ghost use Rattle.std.specs.declared.option.Option.{Option};
ghost use Rattle.md5.specs.Md5.{md5};
ghost use Rattle.sg_base.specs.declared.file.Listed.{Listed};
ghost use Rattle.sg_base.specs.declared.limits.TheConstants.{PIECE_LEN};
ghost use Rattle.sg_disk.specs.Runs.{Broke, Ran};
ghost use Rattle.sg_intake.specs.declared.intake.Lack.{Lack};
ghost use Rattle.sg_intake.specs.declared.intake.Sealing.TheVariants.{Differs, Held};
ghost use Rattle.sg_intake.specs.Listings.{IsListing};
ghost use Rattle.sg_placing.specs.Placing.{same_file};

use sg_base::Listed;
use sg_disk::{Disk, DiskFailed};
use sg_missing::Staging;

/// A file finds no room.
#[derive(Clone, Copy, Debug, PartialEq, Eq)]
pub struct Lack {
    /// The bytes that it needs.
    pub need: u64,
    /// The most that one file could have.
    pub largest: u64,
}

/// What became of a file of which all bytes have come.
#[derive(Clone, Copy, Debug, PartialEq, Eq)]
pub enum Sealing {
    /// They have the listed MD5, and the file is whole.
    Held,
    /// They have this one, and the file was given up.
    Differs([u8; 16]),
}

/// A store that takes in the bytes of new files, on a disk. It needs the disk on which it lies.
pub trait Intake: Staging {
    // How long that disk is.
    ghost room: { Self → ℕ };

    // These bytes have come of the file of which a part is staged.
    ghost came: { Self → List ℕ → Type 0 };

    // Each file that is staged, whole or in part, is among these.
    ghost only: { Self → List Listed → Type 0 };

    // What a file lacks if it finds no room.
    ghost lack: { Self → Listed → Option Lack };

    // The least number of disk calls in which a whole file is kept.
    ghost seal_calls: { ℕ };

    /// Begins to stage a file that is listed. It is refused exactly where there is no room for it, and then nothing
    /// changes.
    fn begin(&mut self, file: &Listed) -> Result<(), Lack>
        requires new { Self.holds self.old file.now ≡ false }
        requires idle { Self.part self.old ≡ None }
        requires listed { (files : List Listed) × IsListing files × Contains files file.now
            × only self.old files }
        ensures began { OnOk result (Self.part self.new ≡ Some (file.now, 0)) }
        ensures none { OnOk result (came self.new []) }
        ensures enough { OnOk result (lack self.old file.now ≡ None) }
        ensures lacks { IfErr result (λ less. lack self.old file.now ≡ Some less) }
        ensures unchanged { OnErr result (self.new ≡ self.old) }

        // What stays.
        ensures holds { (f : Listed) → Self.holds self.new f ≡ Self.holds self.old f }
        ensures only { (files : List Listed) → only self.old files → Contains files file.now
            → only self.new files }
        ensures room { room self.new ≡ room self.old };

    /// Takes in the next bytes of the file of which a part is staged. They lie in one piece of it.
    fn bring<D: Disk>(&mut self, disk: &mut D, bytes: &[u8]) -> Result<(), DiskFailed>
        requires fits { IsSomeAnd (Self.part self.old)
            (λ p. p.1 + length bytes.now ≤ p.0.length) }
        requires piece { IsSomeAnd (Self.part self.old)
            (λ p. p.1 % PIECE_LEN + length bytes.now ≤ PIECE_LEN) }
        requires disk { (D.view disk.old).size ≡ room self.old }
        ensures part { OnOk result (Self.part self.new
            ≡ option_map (λ p. (p.0, p.1 + length bytes.now)) (Self.part self.old)) }
        ensures came { OnOk result ((before : List ℕ) → came self.old before
            → came self.new (before ++ bytes.now)) }
        ensures ran { OnOk result (Ran 0 (D.view disk.old) (D.view disk.new)) }
        ensures broke { OnErr result (Broke (D.view disk.old) (D.view disk.new)) }

        // What stays.
        ensures holds { (f : Listed) → Self.holds self.new f ≡ Self.holds self.old f }
        ensures only { (files : List Listed) → only self.old files → only self.new files }
        ensures room { room self.new ≡ room self.old }
        ensures size { (D.view disk.new).size ≡ (D.view disk.old).size };

    /// Takes the file of which all bytes have come as whole, where they have the listed MD5. Otherwise it is given
    /// up.
    fn seal<D: Disk>(&mut self, disk: &mut D) -> Result<Sealing, DiskFailed>
        requires whole { IsSomeAnd (Self.part self.old) (λ p. p.1 ≡ p.0.length) }
        requires disk { (D.view disk.old).size ≡ room self.old }
        ensures idle { OnOk result (Self.part self.new ≡ None) }

        // It is held, and its bytes have the listed MD5.
        ensures held { IfOk result (λ end. end ≡ Held → IfSome (Self.part self.old) (λ p.
            (f : Listed) → Self.holds self.new f ≡ (Self.holds self.old f || same_file p.0 f))) }
        ensures digest { IfOk result (λ end. end ≡ Held → IfSome (Self.part self.old) (λ p.
            (bytes : List ℕ) → came self.old bytes → md5 bytes ≡ p.0.md5)) }
        ensures ran_sealed { IfOk result (λ end. end ≡ Held
            → Ran seal_calls (D.view disk.old) (D.view disk.new)) }

        // Or they have another one, and nothing else is held than before.
        ensures given_up { IfOk result (λ end. (found : List ℕ) → end ≡ Differs found
            → (f : Listed) → Self.holds self.new f ≡ Self.holds self.old f) }
        ensures differs { IfOk result (λ end. (found : List ℕ) → end ≡ Differs found
            → IfSome (Self.part self.old) (λ p. (bytes : List ℕ) → came self.old bytes
            → (md5 bytes ≡ found) × (found ≢ p.0.md5))) }
        ensures ran { OnOk result (Ran 0 (D.view disk.old) (D.view disk.new)) }
        ensures broke { OnErr result (Broke (D.view disk.old) (D.view disk.new)) }

        // What stays.
        ensures only { (files : List Listed) → only self.old files → only self.new files }
        ensures room { room self.new ≡ room self.old }
        ensures size { (D.view disk.new).size ≡ (D.view disk.old).size };
}
