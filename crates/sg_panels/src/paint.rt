// A picture is painted on screens, with spares for those that fail.
ghost use Rattle.std.specs.Prelude.{◌≡◌, ◌<◌, ℕ, All, IfOk, IsSome, List, OnOk, Err, false, is_err, length, map, true};
ghost use Rattle.std.specs.Io.KnownBytes.{Appends};
ghost use Rattle.std.specs.List.{concat};
ghost use Rattle.sg_base.specs.Causes.{Rose};
ghost use Rattle.sg_base.specs.declared.limits.TheConstants.{PIECE_LEN};
ghost use Rattle.sg_devices.specs.Blame.{CountsFault};
ghost use Rattle.sg_panels.specs.Faults.{is_disk_fault, is_write_fault};
ghost use Rattle.sg_panels.specs.Marks.{EndsInLine, lines_from};
ghost use Rattle.sg_panels.specs.Reads.{OnlyReads, StaysKnown};
ghost use Rattle.sg_panels.specs.Screens.{IsMarked, IsPainted, Paints, Place, Tries, TriesOne, failed_after, screen_view};

use crate::draw::{Drawn, draw};
use crate::mark::{Marks, put_marks};
use crate::shelf::Shelf;
use sg_base::MediaId;
use sg_devices::Screen;
use sg_disk::{Disk, DiskFailed};
use sg_outside::Sink;
use std::mem;

/// Why a painting was given up.
#[derive(Clone, Copy, Debug, PartialEq, Eq)]
pub enum PaintFault {
    /// The disk failed.
    Disk,
    /// The sink of the lines failed.
    Write,
}

// What became of a spare that was tried.
#[derive(Clone, Copy, Debug, PartialEq, Eq)]
pub(crate) enum Tried {
    Dark,
    Failed,
    Painted,
}

impl Tried {
    // How many spares were marked, where so many were before this one.
    fn counted(self, before: usize) -> usize
        requires { before < usize.MAX }
        ensures { result ≡ failed_after before self }
    {
        match self {
            Tried::Failed => before + 1,
            Tried::Dark => before,
            Tried::Painted => before,
        }
    }
}

/// Paints every live screen of the list, and puts a line for each mark. One that fails is marked, and the first live spare
/// takes its place and is painted in turn. `piece` has room for a piece of a medium.
///
/// After `Err` the painting has come so far as the lines tell, or one place further; nothing else is said of the screens.
pub fn paint_all<D: Disk, S: Shelf, O: Sink>(
    panels: &mut Vec<Screen>,
    spares: &mut Vec<Screen>,
    picture: &[(u32, MediaId)],
    shelf: &S,
    disk: &mut D,
    piece: &mut [u8],
    out: &mut O,
) -> Result<(), PaintFault>
    requires disk { (D.view disk.old).size ≡ S.room shelf.now }
    requires here { All (λ entry. IsSome (S.lengths shelf.now entry.1.0)) picture.now }
    requires piece { length piece.old ≡ PIECE_LEN }

    // After `Ok` each place was painted, and the lines of all marks were put.
    ensures painted { OnOk result ((marks : List Marks)
        × Paints (S.knows shelf.now (D.view disk.old)) picture.now
        (map (λ s. screen_view s.live (seen (s.panel.vtable, s.panel.value))) panels.old.items)
        (map (λ s. screen_view s.live (seen (s.panel.vtable, s.panel.value))) spares.old.items)
        (map (λ s. screen_view s.live (seen (s.panel.vtable, s.panel.value))) panels.new.items)
        (map (λ s. screen_view s.live (seen (s.panel.vtable, s.panel.value))) spares.new.items) marks
        × Appends (O.written out.old) (O.written out.new) (concat (lines_from 1 marks))) }

    // Why it is given up, and which lines were put.
    ensures disk { result ≡ Err PaintFault.Disk → (marks : List Marks)
        × Appends (O.written out.old) (O.written out.new) (concat (lines_from 1 marks)) }
    ensures write { result ≡ Err PaintFault.Write → (marks : List Marks)
        × EndsInLine (O.written out.old) (O.written out.new) (lines_from 1 marks) }
    ensures cause { CountsFault (is_write_fault result) (O.put_faults out.old)
        (O.put_faults out.new) }

    // The disk stays as it is, at every moment, and what is known of its media stays known.
    ensures only { OnlyReads (is_disk_fault result) (D.view disk.old) (D.view disk.new) }
    ensures known { is_disk_fault result ≡ false → StaysKnown
        (S.knows shelf.now (D.view disk.old)) (S.knows shelf.now (D.view disk.new)) }
{
    for i in 0..panels.len() {
        let marks = match paint_place(&mut panels[i], spares, picture, shelf, disk, piece) {
            Ok(marks) => marks,
            Err(_) => return Err(PaintFault::Disk),
        };
        match put_marks(out, i as u64 + 1, marks) {
            Ok(()) => {}
            Err(_) => return Err(PaintFault::Write),
        }
    }
    Ok(())
}

/// Paints one place, and says what befell it.
pub fn paint_place<D: Disk, S: Shelf>(
    screen: &mut Screen,
    spares: &mut Vec<Screen>,
    picture: &[(u32, MediaId)],
    shelf: &S,
    disk: &mut D,
    piece: &mut [u8],
) -> Result<Marks, DiskFailed>
    requires disk { (D.view disk.old).size ≡ S.room shelf.now }
    requires here { All (λ entry. IsSome (S.lengths shelf.now entry.1.0)) picture.now }
    requires piece { length piece.old ≡ PIECE_LEN }
    ensures place { IfOk result (λ marks.
        Place (S.knows shelf.now (D.view disk.old)) picture.now
        (screen_view screen.old.live (seen (screen.old.panel.vtable, screen.old.panel.value)))
        (map (λ s. screen_view s.live (seen (s.panel.vtable, s.panel.value))) spares.old.items)
        (screen_view screen.new.live (seen (screen.new.panel.vtable, screen.new.panel.value)))
        (map (λ s. screen_view s.live (seen (s.panel.vtable, s.panel.value))) spares.new.items) marks) }
    ensures only { OnlyReads (is_err result) (D.view disk.old) (D.view disk.new) }
    ensures known { OnOk result (StaysKnown
        (S.knows shelf.now (D.view disk.old)) (S.knows shelf.now (D.view disk.new))) }
{
    if !screen.live {
        return Ok(Marks::none());
    }
    match paint(screen, picture, shelf, disk, piece) {
        Ok(true) => return Ok(Marks::none()),
        Ok(false) => {}
        Err(failed) => return Err(failed),
    }
    match try_spares(screen, spares, picture, shelf, disk, piece) {
        Ok(marks) => Ok(marks),
        Err(failed) => Err(failed),
    }
}

// The spares are tried in the place of a marked screen.
fn try_spares<D: Disk, S: Shelf>(
    screen: &mut Screen,
    spares: &mut Vec<Screen>,
    picture: &[(u32, MediaId)],
    shelf: &S,
    disk: &mut D,
    piece: &mut [u8],
) -> Result<Marks, DiskFailed>
    requires disk { (D.view disk.old).size ≡ S.room shelf.now }
    requires here { All (λ entry. IsSome (S.lengths shelf.now entry.1.0)) picture.now }
    requires piece { length piece.old ≡ PIECE_LEN }
    ensures tries { IfOk result (λ marks.
        Tries (S.knows shelf.now (D.view disk.old)) picture.now
        (screen_view screen.old.live (seen (screen.old.panel.vtable, screen.old.panel.value)))
        (map (λ s. screen_view s.live (seen (s.panel.vtable, s.panel.value))) spares.old.items)
        (screen_view screen.new.live (seen (screen.new.panel.vtable, screen.new.panel.value)))
        (map (λ s. screen_view s.live (seen (s.panel.vtable, s.panel.value))) spares.new.items) marks) }
    ensures only { OnlyReads (is_err result) (D.view disk.old) (D.view disk.new) }
    ensures known { OnOk result (StaysKnown
        (S.knows shelf.now (D.view disk.old)) (S.knows shelf.now (D.view disk.new))) }
{
    let mut failed = 0;
    for j in 0..spares.len() {
        let tried = match try_spare(screen, &mut spares[j], picture, shelf, disk, piece) {
            Ok(tried) => tried,
            Err(fault) => return Err(fault),
        };
        if let Tried::Painted = tried {
            return Ok(Marks::dropped(failed, true));
        }
        failed = tried.counted(failed);
    }
    Ok(Marks::dropped(failed, false))
}

// A live spare changes places with the marked screen and is painted.
fn try_spare<D: Disk, S: Shelf>(
    screen: &mut Screen,
    spare: &mut Screen,
    picture: &[(u32, MediaId)],
    shelf: &S,
    disk: &mut D,
    piece: &mut [u8],
) -> Result<Tried, DiskFailed>
    requires disk { (D.view disk.old).size ≡ S.room shelf.now }
    requires here { All (λ entry. IsSome (S.lengths shelf.now entry.1.0)) picture.now }
    requires piece { length piece.old ≡ PIECE_LEN }
    ensures tried { IfOk result (TriesOne (S.knows shelf.now (D.view disk.old)) picture.now
        (screen_view screen.old.live (seen (screen.old.panel.vtable, screen.old.panel.value)))
        (screen_view spare.old.live (seen (spare.old.panel.vtable, spare.old.panel.value)))
        (screen_view screen.new.live (seen (screen.new.panel.vtable, screen.new.panel.value)))
        (screen_view spare.new.live (seen (spare.new.panel.vtable, spare.new.panel.value)))) }
    ensures only { OnlyReads (is_err result) (D.view disk.old) (D.view disk.new) }
    ensures known { OnOk result (StaysKnown
        (S.knows shelf.now (D.view disk.old)) (S.knows shelf.now (D.view disk.new))) }
{
    if !spare.live {
        return Ok(Tried::Dark);
    }
    mem::swap(screen, spare);
    match paint(screen, picture, shelf, disk, piece) {
        Ok(true) => Ok(Tried::Painted),
        Ok(false) => Ok(Tried::Failed),
        Err(failed) => Err(failed),
    }
}

// Paints a live screen, and marks it if its panel fails. Says whether it shows the picture.
fn paint<D: Disk, S: Shelf>(
    screen: &mut Screen,
    picture: &[(u32, MediaId)],
    shelf: &S,
    disk: &mut D,
    piece: &mut [u8],
) -> Result<bool, DiskFailed>
    requires live { screen.old.live ≡ true }
    requires disk { (D.view disk.old).size ≡ S.room shelf.now }
    requires here { All (λ entry. IsSome (S.lengths shelf.now entry.1.0)) picture.now }
    requires piece { length piece.old ≡ PIECE_LEN }
    ensures painted { IfOk result (λ shows. shows ≡ true
        → IsPainted (S.knows shelf.now (D.view disk.old)) picture.now
        (screen_view screen.old.live (seen (screen.old.panel.vtable, screen.old.panel.value)))
        (screen_view screen.new.live (seen (screen.new.panel.vtable, screen.new.panel.value)))) }
    ensures marked { IfOk result (λ shows. shows ≡ false
        → IsMarked (screen_view screen.old.live (seen (screen.old.panel.vtable, screen.old.panel.value)))
        (screen_view screen.new.live (seen (screen.new.panel.vtable, screen.new.panel.value)))) }
    ensures only { OnlyReads (is_err result) (D.view disk.old) (D.view disk.new) }
    ensures known { OnOk result (StaysKnown
        (S.knows shelf.now (D.view disk.old)) (S.knows shelf.now (D.view disk.new))) }
{
    match draw(&mut screen.panel, picture, shelf, disk, piece) {
        Drawn::Done => Ok(true),
        Drawn::PanelFailed => {
            screen.live = false;
            Ok(false)
        }
        Drawn::DiskFailed => Err(DiskFailed),
    }
}
