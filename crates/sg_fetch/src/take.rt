// What came of a piece is taken in.
ghost use Rattle.std.specs.Prelude.{◌≡◌, ◌+◌, ◌==◌, List, IfOk, OnErr, Some, false, length};
ghost use Rattle.sg_base.specs.declared.file.Listed.{Listed};
ghost use Rattle.sg_base.specs.declared.limits.TheConstants.{PIECE_LEN};
ghost use Rattle.sg_disk.specs.Runs.{Broke, Ran};
ghost use Rattle.sg_exchange.specs.declared.heard.TheConstants.{REPLY_ROOM};
ghost use Rattle.sg_exchange.specs.Heard.{IsHeardWithin, IsPiece, is_link_fault, outcome_at};
ghost use Rattle.sg_fetch.specs.Fetching.{PieceEnds, WholeEnds, calls_of, is_link_stay};
ghost use Rattle.sg_intake.specs.Stocks.{stock};
ghost use Rattle.sg_missing.specs.Pieces.{piece_end};

use sg_disk::{Disk, DiskFailed};
use sg_exchange::{Asker, Heard};
use sg_intake::{Intake, Sealing};
use sg_missing::Wanted;
use sg_timeline::{Cause, StepEnd};

// Takes in what was heard of a piece, of whose file the bytes before it are staged.
pub(crate) fn take_in<S: Intake, D: Disk>(
    asker: &Asker,
    heard: Heard,
    store: &mut S,
    disk: &mut D,
    piece: &Wanted,
) -> Result<StepEnd, DiskFailed>
    requires within { IsHeardWithin REPLY_ROOM heard }
    requires piece { IsPiece piece.now.count heard }
    requires begun { S.part store.old ≡ Some (piece.now.file, piece.now.at) }
    requires ends { piece.now.at + piece.now.count
        ≡ piece_end piece.now.at piece.now.file.length }
    requires disk { (D.view disk.old).size ≡ S.room store.old }
    ensures ended { IfOk result (λ end. PieceEnds piece.now
        (stock (S.holds store.old) (S.part store.old) (S.came store.old))
        (outcome_at asker.now.reply heard)
        (stock (S.holds store.new) (S.part store.new) (S.came store.new)) end) }
    ensures ran { IfOk result (λ end.
        Ran (calls_of S.seal_calls end) (D.view disk.old) (D.view disk.new)) }
    ensures blamed { IfOk result (λ end. is_link_stay end ≡ is_link_fault heard) }
    ensures came { OnErr result (is_link_fault heard ≡ false) }
    ensures broke { OnErr result (Broke (D.view disk.old) (D.view disk.new)) }
    ensures only { (files : List Listed) → S.only store.old files → S.only store.new files }
    ensures room { S.room store.new ≡ S.room store.old }
    ensures size { (D.view disk.new).size ≡ (D.view disk.old).size }
{
    let cause = match heard {
        Heard::Whole(body) => return take_whole(asker.bytes(body), store, disk, piece),
        Heard::Cut { got, length, body } => {
            let Ok(()) = store.bring(disk, asker.bytes(body)) else {
                return Err(DiskFailed);
            };
            Cause::Cut { got, length }
        }
        Heard::LinkFault => Cause::LinkFault,
        Heard::NotHttp => Cause::NotHttp,
        Heard::Status(status) => Cause::Status(status),
        Heard::Length { got, expected } => Cause::Length { got, expected },
    };
    Ok(StepEnd::Stay(cause))
}

// Takes in a whole piece. The last one of a file seals it.
fn take_whole<S: Intake, D: Disk>(
    body: &[u8],
    store: &mut S,
    disk: &mut D,
    piece: &Wanted,
) -> Result<StepEnd, DiskFailed>
    requires whole { length body.now ≡ piece.now.count }
    requires begun { S.part store.old ≡ Some (piece.now.file, piece.now.at) }
    requires ends { piece.now.at + piece.now.count
        ≡ piece_end piece.now.at piece.now.file.length }
    requires disk { (D.view disk.old).size ≡ S.room store.old }
    ensures ended { IfOk result (λ end.
        WholeEnds (piece.now.at + piece.now.count == piece.now.file.length) piece.now
        (stock (S.holds store.old) (S.part store.old) (S.came store.old)) body.now
        (stock (S.holds store.new) (S.part store.new) (S.came store.new)) end) }
    ensures ran { IfOk result (λ end.
        Ran (calls_of S.seal_calls end) (D.view disk.old) (D.view disk.new)) }
    ensures blamed { IfOk result (λ end. is_link_stay end ≡ false) }
    ensures broke { OnErr result (Broke (D.view disk.old) (D.view disk.new)) }
    ensures only { (files : List Listed) → S.only store.old files → S.only store.new files }
    ensures room { S.room store.new ≡ S.room store.old }
    ensures size { (D.view disk.new).size ≡ (D.view disk.old).size }
{
    let Ok(()) = store.bring(disk, body) else {
        return Err(DiskFailed);
    };
    if piece.at + piece.count != piece.file.length {
        return Ok(StepEnd::Piece {
            media: piece.file.media,
            at: piece.at,
        });
    }
    match store.seal(disk) {
        Ok(Sealing::Held) => Ok(StepEnd::Sealed(piece.file.media)),
        Ok(Sealing::Differs(found)) => Ok(StepEnd::Stay(Cause::DigestDiffers {
            media: piece.file.media,
            listed: piece.file.md5,
            found,
        })),
        Err(failed) => Err(failed),
    }
}
