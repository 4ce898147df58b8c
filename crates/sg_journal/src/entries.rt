// The records that were read: which numbers they have, and the plays that follow each other.
ghost use Rattle.std.specs.Prelude.{◌≡◌, ◌⊎◌, ℕ, ◌+◌, ◌-◌, ◌<◌, ◌≤◌, true, false, [], length, MatchOption, IfSome, IsSome, Some, None, min};
ghost use Rattle.std.specs.VecDeque.{deque_capacity};
ghost use Rattle.sg_journal.specs.declared.record.Entry.{Entry};
ghost use Rattle.sg_journal.specs.Entries.{AreOwn, held_by, IsStart, IsLeastStart, IsRun};

use crate::record::Entry;
use sg_base::PlayBody;
use sg_base::limits::{JOURNAL_RECORDS, MAX_PLAYS};
use std::collections::VecDeque;

// The play with a number.
fn play_numbered(entries: &[Option<Entry>], number: u32) -> Option<PlayBody>
    requires count { length entries.now ≡ JOURNAL_RECORDS }
    requires low { 1 ≤ number }
    ensures { result ≡ held_by entries.now number }
{
    let entry = entries[((number - 1) % JOURNAL_RECORDS as u32) as usize]?;
    if entry.number == number {
        Some(entry.play)
    } else {
        None
    }
}

// Whether no play has the number before this one.
fn begins(entries: &[Option<Entry>], number: u32) -> bool
    requires count { length entries.now ≡ JOURNAL_RECORDS }
    requires low { 1 ≤ number }
    ensures begins { result ≡ true → (number ≡ 1) ⊎ (held_by entries.now (number - 1) ≡ None) }
    ensures goes_on { result ≡ false → (number ≡ 1 → ⊥)
        × IsSome (held_by entries.now (number - 1)) }
{
    number == 1 || play_numbered(entries, number - 1).is_none()
}

// The number of an entry, where it is above another and no play has the number before it.
fn start_of(entries: &[Option<Entry>], above: u32, entry: Option<Entry>) -> Option<u32>
    requires count { length entries.now ≡ JOURNAL_RECORDS }
    requires own { (e : Entry) → entry ≡ Some e
        → (1 ≤ e.number) × (held_by entries.now e.number ≡ Some e.play) }
    ensures start { IfSome result (λ n. IsStart entries.now above n) }
    ensures none { result ≡ None → (e : Entry) → entry ≡ Some e → IsStart entries.now above e.number
        → ⊥ }
    ensures number { (n : ℕ) → result ≡ Some n → (e : Entry) × (entry ≡ Some e) × (e.number ≡ n) }
{
    let number = entry?.number;
    if number > above && begins(entries, number) {
        Some(number)
    } else {
        None
    }
}

// The lower of two numbers, where there are two.
fn lower(best: Option<u32>, number: u32) -> u32
    ensures { MatchOption best (result ≡ number) (λ b. result ≡ min b number) }
{
    match best {
        Some(best) => best.min(number),
        None => number,
    }
}

/// The least number above another that has a play while the one before it has none. It looks at each entry once.
pub fn next_start(entries: &[Option<Entry>], above: u32) -> Option<u32>
    requires { AreOwn entries.now }
    ensures { MatchOption result ((n : ℕ) → IsStart entries.now above n
        → ⊥) (λ n. IsLeastStart entries.now above n) }
{
    let mut best = None;
    for entry in entries {
        if let Some(number) = start_of(entries, above, *entry) {
            best = Some(lower(best, number));
        }
    }
    best
}

/// Takes the plays that follow each other from a number on, at most one from each entry.
pub fn fill(entries: &[Option<Entry>], first: u32, plays: &mut VecDeque<PlayBody>)
    requires entries { AreOwn entries.now }
    requires first { (1 ≤ first) × (first ≤ MAX_PLAYS) }
    requires empty { plays.old.items ≡ [] }
    requires room { JOURNAL_RECORDS ≤ deque_capacity plays.old }
    ensures run { IsRun entries.now first plays.new.items }
    ensures room { JOURNAL_RECORDS ≤ deque_capacity plays.new }
{
    for _ in 0..JOURNAL_RECORDS {
        let Some(play) = play_numbered(entries, first + plays.len() as u32) else {
            return;
        };
        plays.push_back_reserved(play);
    }
}
