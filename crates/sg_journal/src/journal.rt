// The journal: what it keeps in memory, and its calls.

ghost use Rattle.std.specs.Prelude.{◌+◌, ◌^◌, ◌<◌, ◌≤◌, length};
ghost use Rattle.std.specs.VecDeque.{deque_capacity};
ghost use Rattle.sg_base.specs.declared.limits.TheConstants.{JOURNAL_RECORDS};

use crate::batch::Batch;
use crate::entries::{fill, next_start};
use crate::fault::{AppendFault, OpenFault};
use crate::reading::read_records;
use crate::record::{Entry, record_fields};
use sg_base::PlayBody;
use sg_base::limits::{BATCH_PLAYS, JOURNAL_RECORDS};
use sg_disk::{
    APPEND_CALLS, DATA, Disk, DiskFailed, JOURNAL, JOURNAL_LEN, OPEN_CALLS, RECORD_LEN,
    write_synced,
};
use std::alloc::Global;
use std::collections::VecDeque;

/// The journal of an epoch's plays, on the disk that it was opened on. In memory it has the plays that aren't acknowledged,
/// and the room for as many as the disk has records.
#[derive(Debug, Drop)]
pub struct Journal {
    epoch: u32,
    // the least number whose record may be open
    oldest: u32,
    // the number of the first play that isn't acknowledged
    first: u32,
    plays: VecDeque<PlayBody>,
    ghost starts: { 1 ≤ oldest },
    ghost known: { oldest ≤ first },
    ghost ring: { first + length plays.items ≤ oldest + JOURNAL_RECORDS },
    ghost fits: { first + length plays.items < 2 ^ 32 },
    ghost room: { JOURNAL_RECORDS ≤ deque_capacity plays },
}

impl Journal {
    ghost use Rattle.std.specs.Prelude.{◌≡◌, ◌⊎◌, ◌+◌, ◌-◌, ◌*◌, ◌%◌, ◌<◌, ◌≤◌, ◌^◌, ℕ, List, [], ◌∷◌, ◌++◌, length, take, drop, min, IfOk, IfErr, OnOk, OnErr, IsErrOf};
    ghost use Rattle.sg_disk.specs.Contents.{Contents, played};
    ghost use Rattle.sg_disk.specs.View.{Only};
    ghost use Rattle.sg_disk.specs.StandsFor.{Two, journal_of};
    ghost use Rattle.sg_contents.specs.StandsFor.{StandsFor, Either, Between};
    ghost use Rattle.sg_disk.specs.Runs.{LeavesOnly, Ran, Broke, Quiet, Within, Keeps};
    ghost use Rattle.sg_journal.specs.Ready.{epoch_of, first_of, next_of, oldest_of, plays_of, Agrees, IsReady};
    ghost use Rattle.sg_journal.specs.Entries.{AreOwn, IsRecovered, IsGapAt, EndedBy};
    ghost use Rattle.sg_journal.specs.Records.{FirstDamage, Holds};
    ghost use Rattle.sg_journal.specs.BatchPlays.{batch_first, batch_plays};

    /// Opens the journal of an epoch's plays, on a disk that has room for a store's areas, 6,336,512 bytes. It begins with a
    /// sync, reads the journal's area in 64 pieces, and changes nothing. Every play that is found is taken as not acknowledged.
    ///
    /// It is refused with `Damaged` where the area holds what no journal of the epoch does: at the first open record that has
    /// something wrong, or else at the record with the least number behind a gap. `Disk` comes only where the disk's count of
    /// faults rose, and `Memory` for want of memory, of which it takes one mebibyte to keep and two and a half while it opens.
    pub fn open<D: Disk>(alloc: Global, disk: &mut D, epoch: u32) -> Result<Journal, OpenFault>
        requires { DATA ≤ (D.view disk.old).size }

        // A crash at any moment of the call leaves what one before it could leave.
        ensures any_moment { LeavesOnly (D.view disk.old).images (D.view disk.old)
            (D.view disk.new) }
        ensures ready { IfOk result (λ j. (r : Contents) → (D.view disk.old).told
            → StandsFor r (D.view disk.old).bytes → r.epoch ≡ epoch
            → (first_of j ≤ r.floor) × IsReady (D.view disk.new) j
            (record r { floor = first_of j })) }

        // What was found, whatever wrote it.
        ensures holds { IfOk result (λ j. (D.view disk.old).told
            → Holds epoch (journal_of (D.view disk.old).bytes) (first_of j) (plays_of j)) }
        ensures damaged { (place found : ℕ) → IsErrOf result (OpenFault.Damaged place found)
            → (D.view disk.old).told → FirstDamage epoch
            (journal_of (D.view disk.old).bytes) place found }
        ensures undamaged { (r : Contents) → (D.view disk.old).told
            → StandsFor r (D.view disk.old).bytes → r.epoch ≡ epoch → (place found : ℕ)
            → IsErrOf result (OpenFault.Damaged place found) → ⊥ }

        // What it leaves of the disk.
        ensures ended { IfErr result (λ fault. EndedBy fault (D.view disk.old) (D.view disk.new)) }
        ensures ran { OnOk result (Ran OPEN_CALLS (D.view disk.old) (D.view disk.new)) }
        ensures quiet { OnOk result (Quiet OPEN_CALLS (D.view disk.old) (D.view disk.new)) }
        ensures stable { OnOk result ((D.view disk.old).told
            → Only (D.view disk.new).bytes (D.view disk.new)) }
        ensures bytes { (D.view disk.old).told → (D.view disk.new).bytes ≡ (D.view disk.old).bytes }
        ensures size { (D.view disk.new).size ≡ (D.view disk.old).size }
    {
        disk.sync()?;
        let entries = read_records(alloc, disk, epoch)?;
        Journal::gather(alloc, epoch, &entries)
    }

    /// The number of the first play that isn't acknowledged. It is `next` where all are.
    pub fn first(&self) -> u32
        ensures { result ≡ first_of self.now }
    {
        self.first
    }

    /// The number that the next play will have, at most 4,294,967,295, which no play has.
    pub fn next(&self) -> u32
        ensures { result ≡ next_of self.now }
    {
        self.first + self.plays.len() as u32
    }

    /// Takes the plays below a number as acknowledged, in this life of the journal alone. Their records may be used again.
    pub fn acknowledged(&mut self, next: u32)
        requires first { first_of self.old ≤ next }
        requires next { next ≤ next_of self.old }
        ensures first { first_of self.new ≡ next }
        ensures next { next_of self.new ≡ next_of self.old }
        ensures plays { plays_of self.new ≡ drop (next - first_of self.old) (plays_of self.old) }
        ensures oldest { oldest_of self.new ≡ oldest_of self.old }
        ensures epoch { epoch_of self.new ≡ epoch_of self.old }
        ensures agrees { (p : Contents) (area : List ℕ) → Agrees self.old p area
            → Agrees self.new (record p { floor = next }) area }
    {
        // at most one turn for each record
        for _ in self.first..next {
            self.plays.pop_front();
            self.first += 1;
        }
    }

    /// Puts the first plays that aren't acknowledged into a batch, in place of what it held: as many as the limit says, or
    /// all of them where there are fewer.
    pub fn batch(&self, limit: usize, into: &mut Batch)
        requires low { 1 ≤ limit }
        requires high { limit ≤ BATCH_PLAYS }
        ensures first { batch_first into.new ≡ first_of self.now }
        ensures plays { batch_plays into.new ≡ take limit (plays_of self.now) }
    {
        into.restart(self.first);
        for i in 0..limit.min(self.plays.len()) {
            into.push(self.plays[i]);
        }
    }

    /// Records a play on the disk that was opened, and answers its number. At `Ok` every crash leaves it. It makes four calls
    /// of the disk, or six where the record that it takes still holds an acknowledged play, and takes no memory.
    ///
    /// It is refused with `Full` where 65,536 plays aren't acknowledged, and with `Spent` where the numbers of the epoch are
    /// used up; then nothing is changed. `Disk` comes only where the disk's count of faults rose. The play is then recorded
    /// or not, and the journal is opened again.
    pub fn append<D: Disk>(&mut self, disk: &mut D, play: &PlayBody) -> Result<u32, AppendFault>
        requires disk { DATA ≤ (D.view disk.old).size }
        requires rises { play.now.from < play.now.to }
        requires layout { 1 ≤ play.now.layout }

        // A crash at any moment of the call leaves what was there, with the play or without.
        ensures any_moment { (p : Contents) → IsReady (D.view disk.old) self.old p
            → LeavesOnly (Either p (played p play.now)) (D.view disk.old) (D.view disk.new) }
        ensures recorded { OnOk result ((p : Contents) → IsReady (D.view disk.old) self.old p
            → IsReady (D.view disk.new) self.new (played p play.now)) }
        ensures number { IfOk result (λ n. n ≡ next_of self.old) }
        ensures plays { OnOk result (plays_of self.new ≡ plays_of self.old ++ play.now ∷ []) }
        ensures kept { OnErr result (plays_of self.new ≡ plays_of self.old) }
        ensures first { first_of self.new ≡ first_of self.old }

        // Why it isn't recorded.
        ensures full { (a b : ℕ) → IsErrOf result (AppendFault.Full a b)
            → (a ≡ first_of self.old) × (b ≡ next_of self.old) × (b ≡ a + JOURNAL_RECORDS) }
        ensures full_so { next_of self.old ≡ first_of self.old + JOURNAL_RECORDS
            → IsErrOf result (AppendFault.Full (first_of self.old) (next_of self.old)) }
        ensures full_kept { (a b : ℕ) → IsErrOf result (AppendFault.Full a b)
            → (self.new ≡ self.old) × (disk.new ≡ disk.old) }
        ensures spent { IsErrOf result AppendFault.Spent → next_of self.old ≡ u32.MAX }
        ensures spent_so { next_of self.old < first_of self.old + JOURNAL_RECORDS
            → next_of self.old ≡ u32.MAX → IsErrOf result AppendFault.Spent }
        ensures spent_kept { IsErrOf result AppendFault.Spent
            → (self.new ≡ self.old) × (disk.new ≡ disk.old) }
        ensures broke { IsErrOf result AppendFault.Disk
            → Broke (D.view disk.old) (D.view disk.new) }
        ensures between { IsErrOf result AppendFault.Disk
            → (p : Contents) → IsReady (D.view disk.old) self.old p
            → Between (D.view disk.new) (Two p (played p play.now)) }

        // What it leaves of the disk.
        ensures within { Within JOURNAL JOURNAL_LEN (D.view disk.old) (D.view disk.new) }
        ensures keeps { (place n : ℕ) → (place + n ≤ JOURNAL) ⊎ (JOURNAL + JOURNAL_LEN ≤ place)
            → Keeps place n (D.view disk.old) (D.view disk.new) }
        ensures size { (D.view disk.new).size ≡ (D.view disk.old).size }
        ensures stable { OnOk result ((D.view disk.old).told
            → Only (D.view disk.new).bytes (D.view disk.new)) }
        ensures ran { OnOk result (Ran APPEND_CALLS (D.view disk.old) (D.view disk.new)) }
    {
        if self.next() - self.first == JOURNAL_RECORDS as u32 {
            return Err(AppendFault::Full {
                first: self.first,
                next: self.next(),
            });
        }
        if self.next() == u32::MAX {
            return Err(AppendFault::Spent);
        }
        let number = self.next();
        self.close(disk)?;
        self.write_record(disk, play)?;
        Ok(number)
    }

    // The journal of the entries that an opening has read.
    fn gather(alloc: Global, epoch: u32, entries: &[Option<Entry>]) -> Result<Journal, OpenFault>
        requires { AreOwn entries.now }
        ensures recovered { IfOk result (λ j. IsRecovered entries.now (first_of j) (plays_of j)) }
        ensures oldest { IfOk result (λ j. oldest_of j ≡ first_of j) }
        ensures epoch { IfOk result (λ j. epoch_of j ≡ epoch) }
        ensures gap { (place found : ℕ) → IsErrOf result (OpenFault.Damaged place found)
            → IsGapAt entries.now place found }
        ensures passed { IsErrOf result OpenFault.Disk → ⊥ }
    {
        let mut plays = VecDeque::with_capacity(alloc, JOURNAL_RECORDS as usize)?;
        let Some(first) = next_start(entries, 0) else {
            return Ok(Journal {
                epoch,
                oldest: 1,
                first: 1,
                plays,
            });
        };
        if let Some(number) = next_start(entries, first) {
            return Err(OpenFault::Damaged {
                place: JOURNAL + RECORD_LEN * (u64::from(number - 1) % JOURNAL_RECORDS),
                found: u64::from(number),
            });
        }
        fill(entries, first, &mut plays);
        Ok(Journal {
            epoch,
            oldest: first,
            first,
            plays,
        })
    }

    // Where the next play's record stands on the disk.
    fn place(&self) -> u64
        ensures { result ≡ JOURNAL + RECORD_LEN * ((next_of self.now - 1) % JOURNAL_RECORDS) }
    {
        JOURNAL + RECORD_LEN * (u64::from(self.next() - 1) % JOURNAL_RECORDS)
    }

    // Closes the next play's record, where it still holds a play.
    fn close<D: Disk>(&mut self, disk: &mut D) -> Result<(), DiskFailed>
        requires disk { DATA ≤ (D.view disk.old).size }
        requires acknowledged { next_of self.old < first_of self.old + JOURNAL_RECORDS }
        ensures any_moment { (p : Contents) → IsReady (D.view disk.old) self.old p
            → LeavesOnly (StandsFor p) (D.view disk.old) (D.view disk.new) }
        ensures ready { OnOk result ((p : Contents) → IsReady (D.view disk.old) self.old p
            → IsReady (D.view disk.new) self.new p) }
        ensures free { OnOk result (next_of self.new < oldest_of self.new + JOURNAL_RECORDS) }
        ensures plays { plays_of self.new ≡ plays_of self.old }
        ensures first { first_of self.new ≡ first_of self.old }
        ensures ran { OnOk result (Ran 0 (D.view disk.old) (D.view disk.new)) }
        ensures within { Within JOURNAL JOURNAL_LEN (D.view disk.old) (D.view disk.new) }
        ensures size { (D.view disk.new).size ≡ (D.view disk.old).size }
        ensures broke { OnErr result (Broke (D.view disk.old) (D.view disk.new)) }
    {
        if self.next() - self.oldest < JOURNAL_RECORDS as u32 {
            return Ok(());
        }
        write_synced(disk, self.place(), &[0])?;
        self.oldest += 1;
        Ok(())
    }

    // Writes the next play's record behind its closed gate, and opens the gate.
    fn write_record<D: Disk>(&mut self, disk: &mut D, play: &PlayBody) -> Result<(), DiskFailed>
        requires disk { DATA ≤ (D.view disk.old).size }
        requires free { next_of self.old < oldest_of self.old + JOURNAL_RECORDS }
        requires room { next_of self.old < first_of self.old + JOURNAL_RECORDS }
        requires unspent { next_of self.old + 1 < 2 ^ 32 }
        requires rises { play.now.from < play.now.to }
        requires layout { 1 ≤ play.now.layout }
        ensures any_moment { (p : Contents) → IsReady (D.view disk.old) self.old p
            → LeavesOnly (Either p (played p play.now)) (D.view disk.old) (D.view disk.new) }
        ensures ready { OnOk result ((p : Contents) → IsReady (D.view disk.old) self.old p
            → IsReady (D.view disk.new) self.new (played p play.now)) }
        ensures plays { OnOk result (plays_of self.new ≡ plays_of self.old ++ play.now ∷ []) }
        ensures kept { OnErr result (plays_of self.new ≡ plays_of self.old) }
        ensures first { first_of self.new ≡ first_of self.old }
        ensures ran { OnOk result (Ran APPEND_CALLS (D.view disk.old) (D.view disk.new)) }
        ensures within { Within JOURNAL JOURNAL_LEN (D.view disk.old) (D.view disk.new) }
        ensures size { (D.view disk.new).size ≡ (D.view disk.old).size }
        ensures broke { OnErr result (Broke (D.view disk.old) (D.view disk.new)) }
        ensures stable { OnOk result ((D.view disk.old).told
            → Only (D.view disk.new).bytes (D.view disk.new)) }
    {
        let gate = self.place();
        write_synced(
            disk,
            gate + 4,
            &record_fields(self.epoch, self.next(), play),
        )?;
        write_synced(disk, gate, &[1])?;
        self.plays.push_back_reserved(*play);
        Ok(())
    }
}
