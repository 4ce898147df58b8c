// The next missing piece is asked for, and taken in.
ghost use Rattle.std.specs.Prelude.{◌≡◌, ◌+◌, [], length, OnOk, true, List, Contains, IfNone, IfOk, IfSome, Err, None, Some, false};
ghost use Rattle.sg_base.specs.declared.file.Listed.{Listed};
ghost use Rattle.sg_devices.specs.Blame.{CountsFault};
ghost use Rattle.sg_disk.specs.Runs.{Broke, Ran};
ghost use Rattle.sg_exchange.specs.Heard.{Outcome};
ghost use Rattle.sg_fetch.specs.Fetching.{AsksFor, Fetches, IsNext, calls_of, comes_whole, is_link_answer, is_link_end, lack_of};
ghost use Rattle.sg_intake.specs.Listings.{IsListing};
ghost use Rattle.sg_intake.specs.Stocks.{Gains, stock};
ghost use Rattle.sg_missing.specs.Missing.{IsAlone, IsFirst, IsUnderWay, holding, missing};
ghost use Rattle.sg_missing.specs.declared.wanted.Wanted.{Wanted};

use crate::take::take_in;
use sg_base::Listed;
use sg_devices::Link;
use sg_disk::Disk;
use sg_exchange::Asker;
use sg_intake::{Intake, Lack};
use sg_missing::{Wanted, next_piece};
use sg_timeline::{Cause, StepEnd};
use thiserror::Error;

/// Why a step of a sync came to no end.
#[derive(Clone, Copy, Debug, PartialEq, Eq, Error)]
pub enum StepFault {
    /// The disk failed, and has counted it. The store is to be opened again.
    #[error("the disk failed")]
    Disk,
    /// Memory ran out.
    #[error("memory ran out")]
    Memory,
}

/// Fetches the first piece that is missing of these files, in one exchange at most. `None` if each file is whole.
///
/// Nothing may be staged in part but bytes of the first file that isn't whole.
pub fn fetch_next<L: Link, S: Intake, D: Disk>(
    asker: &mut Asker,
    link: &mut L,
    store: &mut S,
    disk: &mut D,
    files: &[Listed],
) -> Result<Option<StepEnd>, StepFault>
    requires files { IsListing files.now }
    requires under_way { IsUnderWay (holding (S.holds store.old) (S.part store.old)) files.now }
    requires only { S.only store.old files.now }
    requires disk { (D.view disk.old).size ≡ S.room store.old }

    // How the first missing piece was fetched; or nothing is missing, and nothing was done.
    ensures fetched { IfOk result (λ found. IfSome found (λ end. (piece : Wanted)
        × IsFirst (holding (S.holds store.old) (S.part store.old)) files.now piece
        × Fetches (lack_of (S.part store.old) (S.lack store.old piece.file)) asker.old piece
        (L.told link.old) (L.told link.new)
        (stock (S.holds store.old) (S.part store.old) (S.came store.old))
        (stock (S.holds store.new) (S.part store.new) (S.came store.new)) end)) }
    ensures none { IfOk result (λ found. IfNone found
        (missing (holding (S.holds store.old) (S.part store.old)) files.now ≡ [])) }
    ensures idle { IfOk result (λ found. IfNone found ((asker.new ≡ asker.old)
        × (link.new ≡ link.old) × (store.new ≡ store.old) × (disk.new ≡ disk.old))) }

    // Nothing is staged in part then but bytes of the first file that isn't whole, and a piece that came whole is
    // one less.
    ensures under_way { OnOk result
        (IsUnderWay (holding (S.holds store.new) (S.part store.new)) files.now) }
    ensures counts { IfOk result (λ found. IfSome found (λ end. comes_whole end ≡ true
        → length (missing (holding (S.holds store.old) (S.part store.old)) files.now)
        ≡ length (missing (holding (S.holds store.new) (S.part store.new)) files.now) + 1)) }
    ensures ran { IfOk result (λ found. IfSome found (λ end.
        Ran (calls_of S.seal_calls end) (D.view disk.old) (D.view disk.new))) }

    // Why it is refused, and what then stays.
    ensures memory { result ≡ Err StepFault.Memory → (asker.new ≡ asker.old)
        × (link.new ≡ link.old) × (store.new ≡ store.old) × (disk.new ≡ disk.old) }
    ensures asked { result ≡ Err StepFault.Disk → (piece : Wanted)
        × IsFirst (holding (S.holds store.old) (S.part store.old)) files.now piece
        × ((outcome : Outcome)
        × AsksFor asker.old piece (L.told link.old) (L.told link.new) outcome) }
    ensures broke { result ≡ Err StepFault.Disk
        → Broke (D.view disk.old) (D.view disk.new) }
    ensures blamed { CountsFault (is_link_end result) (L.faults link.old) (L.faults link.new) }

    // What is so in all cases.
    ensures kept { asker.new ≡ record asker.old { reply = asker.new.reply } }
    ensures only { S.only store.new files.now }
    ensures room { S.room store.new ≡ S.room store.old }
    ensures size { (D.view disk.new).size ≡ (D.view disk.old).size }
{
    match next_piece(files, store) {
        Some(piece) => match fetch(asker, link, store, disk, &piece) {
            Ok(end) => Ok(Some(end)),
            Err(why) => Err(why),
        },
        None => Ok(None),
    }
}

// Fetches a piece that is the next of its file.
fn fetch<L: Link, S: Intake, D: Disk>(
    asker: &mut Asker,
    link: &mut L,
    store: &mut S,
    disk: &mut D,
    piece: &Wanted,
) -> Result<StepEnd, StepFault>
    requires new { S.holds store.old piece.now.file ≡ false }
    requires next { IsNext (S.part store.old) piece.now }
    requires listed { (files : List Listed) × IsListing files × Contains files piece.now.file
        × S.only store.old files }
    requires disk { (D.view disk.old).size ≡ S.room store.old }
    ensures fetched { IfOk result (λ end.
        Fetches (lack_of (S.part store.old) (S.lack store.old piece.now.file)) asker.old piece.now
        (L.told link.old) (L.told link.new)
        (stock (S.holds store.old) (S.part store.old) (S.came store.old))
        (stock (S.holds store.new) (S.part store.new) (S.came store.new)) end) }
    ensures ran { IfOk result (λ end.
        Ran (calls_of S.seal_calls end) (D.view disk.old) (D.view disk.new)) }
    ensures memory { result ≡ Err StepFault.Memory → (asker.new ≡ asker.old)
        × (link.new ≡ link.old) × (store.new ≡ store.old) × (disk.new ≡ disk.old) }
    ensures asked { result ≡ Err StepFault.Disk → (outcome : Outcome)
        × AsksFor asker.old piece.now (L.told link.old) (L.told link.new) outcome }
    ensures broke { result ≡ Err StepFault.Disk
        → Broke (D.view disk.old) (D.view disk.new) }
    ensures blamed { CountsFault (is_link_answer result) (L.faults link.old) (L.faults link.new) }
    ensures kept { asker.new ≡ record asker.old { reply = asker.new.reply } }
    ensures only { (files : List Listed) → S.only store.old files
        → Contains files piece.now.file → S.only store.new files }
    ensures room { S.room store.new ≡ S.room store.old }
    ensures size { (D.view disk.new).size ≡ (D.view disk.old).size }
{
    let Ok(request) = asker.piece_request(piece.file.media, piece.at) else {
        return Err(StepFault::Memory);
    };
    match begin_once(store, &piece.file) {
        Some(lack) => Ok(StepEnd::Stay(Cause::NoSpace {
            need: lack.need,
            largest: lack.largest,
        })),
        None => {
            let heard = asker.ask_piece(link, request.as_slice(), piece.count);
            match take_in(asker, heard, store, disk, piece) {
                Ok(end) => Ok(end),
                Err(_) => Err(StepFault::Disk),
            }
        }
    }
}

// Begins to stage a file, where no part of it is staged. Says what it lacks, if there is no room for it.
fn begin_once<S: Intake>(store: &mut S, file: &Listed) -> Option<Lack>
    requires new { S.holds store.old file.now ≡ false }
    requires alone { IsAlone (S.part store.old) file.now }
    requires listed { (files : List Listed) × IsListing files × Contains files file.now
        × S.only store.old files }
    ensures lack { result ≡ lack_of (S.part store.old) (S.lack store.old file.now) }
    ensures begun { IfNone result
        (Gains (stock (S.holds store.old) (S.part store.old) (S.came store.old)) file.now []
        (stock (S.holds store.new) (S.part store.new) (S.came store.new))) }
    ensures unchanged { IfSome result (λ _. store.new ≡ store.old) }
    ensures only { (files : List Listed) → S.only store.old files → Contains files file.now
        → S.only store.new files }
    ensures room { S.room store.new ≡ S.room store.old }
{
    match store.staged() {
        Some(_) => None,
        None => match store.begin(file) {
            Ok(()) => None,
            Err(lack) => Some(lack),
        },
    }
}
