// A picture is drawn on one panel.
ghost use Rattle.std.specs.Prelude.{◌≡◌, ◌+◌, ◌%◌, ◌≤◌, ℕ, List, All, IsSome, IsSomeAnd, OnOk, None, Some, false, is_err, length};
ghost use Rattle.sg_base.specs.declared.limits.TheConstants.{PIECE_LEN};
ghost use Rattle.sg_devices.specs.Blame.{CountsFault};
ghost use Rattle.sg_devices.specs.Panels.{HasRoom, IsWhole, cleared, closed, extended, opened};
ghost use Rattle.sg_disk.specs.View.{range};
ghost use Rattle.sg_panels.specs.declared.draw.Drawn.TheVariants.{Done};
ghost use Rattle.sg_panels.specs.Draws.{IsBegun, Shows, has_disk_failed, has_panel_failed, shown_of, with_shown};
ghost use Rattle.sg_panels.specs.Reads.{OnlyReads, StaysKnown};

use crate::shelf::Shelf;
use sg_base::MediaId;
use sg_base::limits::PIECE_LEN;
use sg_devices::{Panel, PanelFailed};
use sg_disk::Disk;

// What became of a part of a drawing.
#[derive(Clone, Copy, Debug, PartialEq, Eq)]
pub(crate) enum Drawn {
    Done,
    PanelFailed,
    DiskFailed,
}

// Clears a panel and draws each region of a picture on it. `piece` has room for a piece.
pub(crate) fn draw<D: Disk, S: Shelf>(
    panel: &mut Box<dyn Panel>,
    picture: &[(u32, MediaId)],
    shelf: &S,
    disk: &mut D,
    piece: &mut [u8],
) -> Drawn
    requires disk { (D.view disk.old).size ≡ S.room shelf.now }
    requires here { All (λ entry. IsSome (S.lengths shelf.now entry.1.0)) picture.now }
    requires piece { length piece.old ≡ PIECE_LEN }
    ensures shows { result ≡ Done → Shows (S.knows shelf.now (D.view disk.old)) picture.now
        (seen panel.old) (seen panel.new) }
    ensures cause { CountsFault (has_panel_failed result) (seen panel.old).faults
        (seen panel.new).faults }
    ensures known { has_disk_failed result ≡ false → StaysKnown
        (S.knows shelf.now (D.view disk.old)) (S.knows shelf.now (D.view disk.new)) }
    ensures only { OnlyReads (has_disk_failed result) (D.view disk.old) (D.view disk.new) }
{
    let Ok(()) = clear(panel) else {
        return Drawn::PanelFailed;
    };
    for i in 0..picture.len() {
        let (region, media) = picture[i];
        match show(panel, region, media, shelf, disk, piece) {
            Drawn::Done => {}
            failed => return failed,
        }
    }
    Drawn::Done
}

fn clear(panel: &mut Box<dyn Panel>) -> Result<(), PanelFailed>
    ensures cleared { OnOk result (seen panel.new ≡ cleared (seen panel.old)) }
    ensures cause { CountsFault (is_err result) (seen panel.old).faults (seen panel.new).faults }
{
    panel.clear()
}

// Shows a medium in a region, after what is shown.
fn show<D: Disk, S: Shelf>(
    panel: &mut Box<dyn Panel>,
    region: u32,
    media: MediaId,
    shelf: &S,
    disk: &mut D,
    piece: &mut [u8],
) -> Drawn
    requires begun { (seen panel.old).begun ≡ None }
    requires disk { (D.view disk.old).size ≡ S.room shelf.now }
    requires here { IsSome (S.lengths shelf.now media.0) }
    requires piece { length piece.old ≡ PIECE_LEN }
    ensures shown { result ≡ Done → (bytes : ℕ → List ℕ)
        → S.knows shelf.now (D.view disk.old) bytes
        → seen panel.new ≡ with_shown (shown_of bytes (region, media)) (seen panel.old) }
    ensures begun { result ≡ Done → (seen panel.new).begun ≡ None }
    ensures cause { CountsFault (has_panel_failed result) (seen panel.old).faults
        (seen panel.new).faults }
    ensures known { has_disk_failed result ≡ false → StaysKnown
        (S.knows shelf.now (D.view disk.old)) (S.knows shelf.now (D.view disk.new)) }
    ensures only { OnlyReads (has_disk_failed result) (D.view disk.old) (D.view disk.new) }
{
    let Some(size) = shelf.length(media) else {
        unreachable!();
    };
    let Ok(()) = begin(panel, region, media, size) else {
        return Drawn::PanelFailed;
    };
    match give_all(panel, media, size, shelf, disk, piece) {
        Drawn::Done => {}
        failed => return failed,
    }
    let Ok(()) = end(panel) else {
        return Drawn::PanelFailed;
    };
    Drawn::Done
}

fn begin(
    panel: &mut Box<dyn Panel>,
    region: u32,
    media: MediaId,
    size: u32,
) -> Result<(), PanelFailed>
    requires { (seen panel.old).begun ≡ None }
    ensures opened { OnOk result (seen panel.new ≡ opened region media.0 size (seen panel.old)) }
    ensures cause { CountsFault (is_err result) (seen panel.old).faults (seen panel.new).faults }
{
    panel.begin(region, media.0, size)
}

fn end(panel: &mut Box<dyn Panel>) -> Result<(), PanelFailed>
    requires { IsWhole (seen panel.old).begun }
    ensures closed { OnOk result (seen panel.new ≡ closed (seen panel.old)) }
    ensures cause { CountsFault (is_err result) (seen panel.old).faults (seen panel.new).faults }
{
    panel.end()
}

// Gives all bytes of what was begun.
fn give_all<D: Disk, S: Shelf>(
    panel: &mut Box<dyn Panel>,
    media: MediaId,
    size: u32,
    shelf: &S,
    disk: &mut D,
    piece: &mut [u8],
) -> Drawn
    requires begun { IsBegun size (seen panel.old).begun }
    requires some { 1 ≤ size }
    requires disk { (D.view disk.old).size ≡ S.room shelf.now }
    requires here { S.lengths shelf.now media.0 ≡ Some size }
    requires piece { length piece.old ≡ PIECE_LEN }
    ensures given { result ≡ Done → (part : List ℕ) × (length part ≡ size)
        × (seen panel.new ≡ extended part (seen panel.old))
        × ((bytes : ℕ → List ℕ) → S.knows shelf.now (D.view disk.old) bytes → part ≡ bytes media.0) }
    ensures cause { CountsFault (has_panel_failed result) (seen panel.old).faults
        (seen panel.new).faults }
    ensures known { has_disk_failed result ≡ false → StaysKnown
        (S.knows shelf.now (D.view disk.old)) (S.knows shelf.now (D.view disk.new)) }
    ensures only { OnlyReads (has_disk_failed result) (D.view disk.old) (D.view disk.new) }
{
    let mut at = 0;
    while at < size {
        let count = PIECE_LEN.min(size - at);
        match give(panel, media, at, shelf, disk, &mut piece[..count as usize]) {
            Drawn::Done => {}
            failed => return failed,
        }
        at += count;
    }
    Drawn::Done
}

// Gives the next bytes of what was begun, as many as `piece` has room for.
fn give<D: Disk, S: Shelf>(
    panel: &mut Box<dyn Panel>,
    media: MediaId,
    at: u32,
    shelf: &S,
    disk: &mut D,
    piece: &mut [u8],
) -> Drawn
    requires room { HasRoom (seen panel.old).begun (length piece.old) }
    requires disk { (D.view disk.old).size ≡ S.room shelf.now }
    requires file { IsSomeAnd (S.lengths shelf.now media.0) (λ n. at + length piece.old ≤ n) }
    requires inside { at % PIECE_LEN + length piece.old ≤ PIECE_LEN }
    ensures given { result ≡ Done → seen panel.new ≡ extended piece.new (seen panel.old) }
    ensures bytes { result ≡ Done → (bytes : ℕ → List ℕ)
        → S.knows shelf.now (D.view disk.old) bytes
        → piece.new ≡ range (bytes media.0) at (length piece.old) }
    ensures long { result ≡ Done → (bytes : ℕ → List ℕ)
        → S.knows shelf.now (D.view disk.old) bytes
        → S.lengths shelf.now media.0 ≡ Some (length (bytes media.0)) }
    ensures cause { CountsFault (has_panel_failed result) (seen panel.old).faults
        (seen panel.new).faults }
    ensures known { has_disk_failed result ≡ false → StaysKnown
        (S.knows shelf.now (D.view disk.old)) (S.knows shelf.now (D.view disk.new)) }
    ensures only { OnlyReads (has_disk_failed result) (D.view disk.old) (D.view disk.new) }
{
    let Ok(()) = shelf.read(disk, media, at, piece) else {
        return Drawn::DiskFailed;
    };
    let Ok(()) = bytes(panel, piece) else {
        return Drawn::PanelFailed;
    };
    Drawn::Done
}

fn bytes(panel: &mut Box<dyn Panel>, piece: &[u8]) -> Result<(), PanelFailed>
    requires { HasRoom (seen panel.old).begun (length piece.now) }
    ensures extended { OnOk result (seen panel.new ≡ extended piece.now (seen panel.old)) }
    ensures cause { CountsFault (is_err result) (seen panel.old).faults (seen panel.new).faults }
{
    panel.bytes(piece)
}
