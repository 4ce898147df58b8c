//! The plays and the interrupts of the entries that are marked as active.
//!
//! Nothing here takes memory: each list is put in room that a layer has taken.

ghost use Rattle.std.specs.Prelude.{◌≡◌, ◌+◌, ◌<◌, ◌≤◌, max, Bool, List, [], ◌∷◌, ◌++◌, map, filter, ◌==◌, length, vec_len, vec_capacity};
ghost use Rattle.std.specs.List.{AllByRecursion};
ghost use Rattle.sg_voice.specs.declared.play.Play.{Play as PlayValue};
ghost use Rattle.sg_voice.specs.Hour.{IsPlay, total};
ghost use Rattle.sg_layer.specs.declared.entry.Entry.{Entry as EntryValue};
ghost use Rattle.sg_layer.specs.Lists.{IsEntry, greatest_priority, highest, plays_of, or_else, interrupt_of};
ghost use Rattle.sg_layer.specs.Front.{marked, plays_of_marked, Leads, IsFront};

use crate::entry::Entry;
use sg_base::limits::HOUR;
use sg_voice::{Interrupt, Play};

// Appends where there is room.
pub(crate) fn append<T: Drop>(items: &mut Vec<T>, item: T)
    requires room { vec_len items.old < vec_capacity items.old }
    ensures items { items.new.items ≡ items.old.items ++ item ∷ [] }
    ensures room { vec_capacity items.old ≤ vec_capacity items.new }
{
    match items.push(item) {
        Ok(()) => {}
        Err(_) => unreachable!(),
    }
}

/// Lists the plays of the marked entries of the greatest priority, or else the play that stands in: all of them, or as
/// many as fill an hour.
pub(crate) fn list_plays(
    entries: &[Entry],
    marks: &[bool],
    default: Option<Play>,
    plays: &mut Vec<Play>,
)
    requires entries { AllByRecursion IsEntry entries.now }
    requires marks { length marks.now ≡ length entries.now }
    requires room { HOUR ≤ vec_capacity plays.old }
    ensures items { IsFront plays.new.items
        (or_else default (plays_of (highest (marked marks.now entries.now)))) }
    ensures room { HOUR ≤ vec_capacity plays.new }
{
    list_marked(entries, marks, plays);
    if plays.is_empty() {
        if let Some(play) = default {
            append(plays, play);
        }
    }
}

// Lists the plays of the marked entries of the greatest priority.
fn list_marked(entries: &[Entry], marks: &[bool], plays: &mut Vec<Play>)
    requires entries { AllByRecursion IsEntry entries.now }
    requires marks { length marks.now ≡ length entries.now }
    requires room { HOUR ≤ vec_capacity plays.old }
    ensures items { IsFront plays.new.items (plays_of (highest (marked marks.now entries.now))) }
    ensures room { HOUR ≤ vec_capacity plays.new }
{
    plays.clear();
    let top = top_priority(entries, marks);
    let mut seconds = 0;
    for i in 0..entries.len() {
        seconds = offer_plays(&entries[i], marks[i], top, seconds, plays);
    }
}

// Appends the plays of an entry, if it is marked and of a priority, until they fill an hour, and gives the seconds of all.
fn offer_plays(entry: &Entry, mark: bool, top: u32, seconds: u32, plays: &mut Vec<Play>) -> u32
    requires entry { IsEntry entry.now }
    requires seconds { seconds ≡ total plays.old.items }
    requires few { vec_len plays.old ≤ seconds }
    requires room { HOUR ≤ vec_capacity plays.old }
    ensures items { (bs : List Bool) (xs : List EntryValue) (all : List PlayValue) →
        Leads plays.old.items (plays_of_marked top (mark ∷ bs) (entry.now ∷ xs)) all
        → Leads plays.new.items (plays_of_marked top bs xs) all }
    ensures seconds { result ≡ total plays.new.items }
    ensures few { vec_len plays.new ≤ result }
    ensures room { HOUR ≤ vec_capacity plays.new }
{
    if !mark {
        return seconds;
    }
    if entry.event.priority() != top {
        return seconds;
    }
    add_plays(entry.plays.as_slice(), seconds, plays)
}

// Appends plays until they fill an hour, and gives the seconds of all.
fn add_plays(added: &[Play], seconds: u32, plays: &mut Vec<Play>) -> u32
    requires added { AllByRecursion IsPlay added.now }
    requires seconds { seconds ≡ total plays.old.items }
    requires few { vec_len plays.old ≤ seconds }
    requires room { HOUR ≤ vec_capacity plays.old }
    ensures items { (next all : List PlayValue) →
        Leads plays.old.items (added.now ++ next) all → Leads plays.new.items next all }
    ensures seconds { result ≡ total plays.new.items }
    ensures few { vec_len plays.new ≤ result }
    ensures room { HOUR ≤ vec_capacity plays.new }
{
    let mut seconds = seconds;
    for play in added {
        seconds = add_play(*play, seconds, plays);
    }
    seconds
}

// Appends a play, unless an hour is full, and gives the seconds of all.
fn add_play(play: Play, seconds: u32, plays: &mut Vec<Play>) -> u32
    requires play { IsPlay play }
    requires seconds { seconds ≡ total plays.old.items }
    requires few { vec_len plays.old ≤ seconds }
    requires room { HOUR ≤ vec_capacity plays.old }
    ensures items { (next all : List PlayValue) →
        Leads plays.old.items (play ∷ next) all → Leads plays.new.items next all }
    ensures seconds { result ≡ total plays.new.items }
    ensures few { vec_len plays.new ≤ result }
    ensures room { HOUR ≤ vec_capacity plays.new }
{
    if seconds >= HOUR {
        return seconds;
    }
    append(plays, play);
    seconds + play.seconds
}

// The greatest priority of the marked entries.
fn top_priority(entries: &[Entry], marks: &[bool]) -> u32
    requires { length marks.now ≡ length entries.now }
    ensures { result ≡ greatest_priority (marked marks.now entries.now) }
{
    let mut top = 0;
    for i in 0..entries.len() {
        top = greater(&entries[i], marks[i], top);
    }
    top
}

// The greater of a priority and that of an entry, if the entry is marked.
fn greater(entry: &Entry, mark: bool, top: u32) -> u32
    ensures { (bs : List Bool) (xs : List EntryValue) → max result (greatest_priority (marked bs xs))
        ≡ max top (greatest_priority (marked (mark ∷ bs) (entry.now ∷ xs))) }
{
    if mark {
        top.max(entry.event.priority())
    } else {
        top
    }
}

/// Lists the marked entries of the greatest priority, as interrupts.
pub(crate) fn list_interrupts(entries: &[Entry], marks: &[bool], interrupts: &mut Vec<Interrupt>)
    requires entries { AllByRecursion IsEntry entries.now }
    requires marks { length marks.now ≡ length entries.now }
    requires room { length entries.now ≤ vec_capacity interrupts.old }
    ensures items { interrupts.new.items
        ≡ map interrupt_of (highest (marked marks.now entries.now)) }
    ensures room { vec_capacity interrupts.old ≤ vec_capacity interrupts.new }
{
    interrupts.clear();
    let top = top_priority(entries, marks);
    for i in 0..entries.len() {
        offer_interrupt(&entries[i], marks[i], top, interrupts);
    }
}

// Appends an interrupt, if it is marked and of a priority.
fn offer_interrupt(entry: &Entry, mark: bool, top: u32, interrupts: &mut Vec<Interrupt>)
    requires entry { IsEntry entry.now }
    requires room { vec_len interrupts.old < vec_capacity interrupts.old }
    ensures items { (bs : List Bool) (xs : List EntryValue) →
        interrupts.new.items
        ++ map interrupt_of (filter (λ x. x.event.priority == top) (marked bs xs))
        ≡ interrupts.old.items ++ map interrupt_of
        (filter (λ x. x.event.priority == top) (marked (mark ∷ bs) (entry.now ∷ xs))) }
    ensures few { vec_len interrupts.new ≤ vec_len interrupts.old + 1 }
    ensures room { vec_capacity interrupts.old ≤ vec_capacity interrupts.new }
{
    if !mark {
        return;
    }
    if entry.event.priority() != top {
        return;
    }
    append(interrupts, interrupt(entry));
}

// What an interrupt asks of the hour.
fn interrupt(entry: &Entry) -> Interrupt
    requires { IsEntry entry.now }
    ensures { result ≡ interrupt_of entry.now }
{
    let play = entry.plays.as_slice()[0];
    Interrupt {
        event: play.event,
        layout: play.layout,
        seconds: play.seconds,
        share: entry.event.share(),
    }
}
