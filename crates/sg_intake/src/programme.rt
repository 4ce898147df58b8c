// What a sync asks of a store's snapshot.
ghost use Rattle.std.specs.Prelude.{◌≡◌, ◌≢◌, ◌+◌, ◌≤◌, ◌<◌, ◌↔◌, ℕ, List, All, AllPairs, IfOk, IsErrOf, IsTrue, None, OnErr, OnOk, Some, length, true};
ghost use Rattle.std.specs.declared.option.Option.{Option};
ghost use Rattle.sg_base.specs.declared.file.Listed.{Listed};
ghost use Rattle.sg_base.specs.declared.limits.TheConstants.{MANIFEST_FILES, MANIFEST_TEXT};
ghost use Rattle.sg_disk.specs.Runs.{Broke, Ran};
ghost use Rattle.sg_disk.specs.View.{View};
ghost use Rattle.sg_intake.specs.Stocks.{kept_part};
ghost use Rattle.sg_placing.specs.Placing.{is_listed};

use crate::intake::Intake;
use sg_base::Listed;
use sg_disk::{Disk, DiskFailed};
use thiserror::Error;

/// Why no snapshot became the current one.
#[derive(Clone, Copy, Debug, PartialEq, Eq, Error)]
pub enum SwitchFault {
    /// There is no switch number left. Nothing changed.
    #[error("there is no switch number left")]
    Spent,
    /// The disk failed, and has counted it. The store is to be opened again.
    #[error("the disk failed")]
    Disk,
}

/// A store with a snapshot, which what was taken in can follow.
pub trait Programme: Intake {
    // The switch number of the snapshot, 0 without one.
    ghost number: { Self → ℕ };

    // By this disk, this is the text of the snapshot, if there is one.
    ghost shows: { Self → View → Option (List ℕ) → Type 0 };

    // The least number of disk calls in which a switch is made.
    ghost switch_calls: { ℕ };

    /// The switch number of the snapshot, 0 without one.
    fn number(&self) -> u32
        ensures { result ≡ number self.now };

    /// Whether this is the text of the snapshot.
    fn has_text<D: Disk>(&self, disk: &mut D, text: &[u8]) -> Result<bool, DiskFailed>
        requires { (D.view disk.old).size ≡ Self.room self.now }
        ensures same { IfOk result (λ same. (shown : Option (List ℕ))
            → shows self.now (D.view disk.old) shown → (IsTrue same ↔ (shown ≡ Some text.now))) }
        ensures ran { OnOk result (Ran 0 (D.view disk.old) (D.view disk.new)) }
        ensures broke { OnErr result (Broke (D.view disk.old) (D.view disk.new)) }
        ensures size { (D.view disk.new).size ≡ (D.view disk.old).size };

    /// Gives up the staged files that aren't among these, and the one of which a part is staged too.
    fn keep<D: Disk>(&mut self, disk: &mut D, files: &[Listed]) -> Result<(), DiskFailed>
        requires { (D.view disk.old).size ≡ Self.room self.old }
        ensures holds { OnOk result ((f : Listed) → is_listed files.now f ≡ true
            → Self.holds self.new f ≡ Self.holds self.old f) }
        ensures part { OnOk result
            (Self.part self.new ≡ kept_part files.now (Self.part self.old)) }
        ensures came { OnOk result ((bytes : List ℕ) → Self.part self.new ≢ None
            → Self.came self.old bytes → Self.came self.new bytes) }
        ensures only { OnOk result (Self.only self.new files.now) }
        ensures ran { OnOk result (Ran 0 (D.view disk.old) (D.view disk.new)) }
        ensures broke { OnErr result (Broke (D.view disk.old) (D.view disk.new)) }
        ensures number { number self.new ≡ number self.old }
        ensures room { Self.room self.new ≡ Self.room self.old }
        ensures size { (D.view disk.new).size ≡ (D.view disk.old).size };

    /// Gives up the file of which a part is staged.
    fn forget(&mut self)
        ensures part { Self.part self.new ≡ None }
        ensures holds { (f : Listed) → Self.holds self.new f ≡ Self.holds self.old f }
        ensures only { (files : List Listed) → Self.only self.old files
            → Self.only self.new files }
        ensures number { number self.new ≡ number self.old }
        ensures room { Self.room self.new ≡ Self.room self.old };

    /// Makes a text and its files the snapshot, of which each file is whole.
    fn switch<D: Disk>(
        &mut self,
        disk: &mut D,
        text: &[u8],
        files: &[Listed],
    ) -> Result<(), SwitchFault>
        requires held { All (λ f. Self.holds self.old f ≡ true) files.now }
        requires few { length files.now ≤ MANIFEST_FILES }
        requires ascending { AllPairs (λ (f g : Listed). f.media.0 < g.media.0) files.now }
        requires some { 1 ≤ length text.now }
        requires long { length text.now ≤ MANIFEST_TEXT }
        requires disk { (D.view disk.old).size ≡ Self.room self.old }

        // After `Ok` its files and no others are held, and the number is one higher. Where the text before it was
        // known, this one is.
        ensures number { OnOk result (number self.new ≡ number self.old + 1) }
        ensures shows { OnOk result ((shown : Option (List ℕ)) → shows self.old (D.view disk.old) shown
            → shows self.new (D.view disk.new) (Some text.now)) }
        ensures part { OnOk result (Self.part self.new ≡ None) }
        ensures holds { OnOk result ((f : Listed)
            → Self.holds self.new f ≡ is_listed files.now f) }
        ensures ran { OnOk result (Ran switch_calls (D.view disk.old) (D.view disk.new)) }

        // Where the numbers are used up, nothing changes.
        ensures spent { IsErrOf result SwitchFault.Spent → (number self.old ≡ u32.MAX)
            × (self.new ≡ self.old) × (disk.new ≡ disk.old) }
        ensures spent_so { number self.old ≡ u32.MAX → IsErrOf result SwitchFault.Spent }
        ensures broke { IsErrOf result SwitchFault.Disk
            → Broke (D.view disk.old) (D.view disk.new) }
        ensures room { Self.room self.new ≡ Self.room self.old }
        ensures size { (D.view disk.new).size ≡ (D.view disk.old).size };
}
