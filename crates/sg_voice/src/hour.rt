// The loop of an hour.
ghost use Rattle.std.specs.Prelude.{◌≡◌, ℕ, ◌+◌, ◌-◌, ◌<◌, ◌≤◌, List, [], length, IfOk, vec_len, vec_capacity, sum, map, filter, ◌^◌, ◌==◌, ◌↔◌};
ghost use Rattle.std.specs.List.{AllByRecursion, Contains};
ghost use Rattle.sg_voice.specs.declared.play.Slot.{Slot};
ghost use Rattle.sg_voice.specs.Hour.{IsPlay, IsInterrupt, IsLeast, total, interrupt_plays, normal_count, slots_of, Tiles, covering, event_seconds, seconds_shown};
ghost use Rattle.sg_voice.specs.Begin.{IsSlot};
ghost use Rattle.sg_voice.specs.Law.{HourLaw};

use crate::mix::{fill, lay, mix};
use crate::play::{Interrupt, Play, Slot};
use crate::rounds::gather;
use sg_base::limits::HOUR;
use std::alloc::{AllocError, Global};
use std::marker::Model;

// No play is shorter than a second, so no hour has more slots.
const ROOM: usize = HOUR as usize;

/// The slots of an hour, in order. It is made once with room for any hour, and then built again and again.
#[derive(Debug, Drop)]
pub struct Loop {
    slots: Vec<Slot>,
    // two buffers of the build: the plays of the interrupts, and the interrupts that play in later rounds
    plays: Vec<Play>,
    alive: Vec<Interrupt>,
}

impl Model for Loop {
    ghost use Rattle.std.specs.Prelude.{List, vec_capacity, ◌≤◌};
    ghost use Rattle.sg_base.specs.declared.limits.TheConstants.{HOUR};
    ghost use Rattle.sg_voice.specs.declared.play.Slot.{Slot};

    ghost Value = { List Slot };

    ghost view = { λ l. l.slots.items };

    ghost invariant = { λ l.
        (HOUR ≤ vec_capacity l.slots) × (HOUR ≤ vec_capacity l.plays) × (HOUR ≤ vec_capacity l.alive) };
}

impl Loop {
    /// A loop with no slots yet, and with the room that every later call needs. Its only error is want of memory.
    pub fn reserve(alloc: Global) -> Result<Loop, AllocError>
        ensures { IfOk result (λ l. l ≡ []) }
    {
        let slots = Vec::with_capacity(alloc, ROOM)?;
        let plays = Vec::with_capacity(alloc, ROOM)?;
        let alive = Vec::with_capacity(alloc, ROOM)?;
        Ok(Loop {
            slots,
            plays,
            alive,
        })
    }
}

/// Builds the loop of an hour from the normal plays and the interrupts that are active in it, in place of what `into` held.
///
/// An interrupt plays as often as its share asks for, rounded up, and the interrupts take turns in rounds, in the order of
/// the list. The normal plays fill the rest of the hour in turn, as few of them as reach its end, with the interrupts' plays
/// spread evenly between them. Where the interrupts fill the hour alone, no normal play is shown. The end of the hour cuts
/// the last slot. The lists may be of any length: no more is kept than an hour holds, and no memory is taken.
pub fn build_loop(normal: &[Play], interrupts: &[Interrupt], into: &mut Loop)
    requires some { 0 < length normal.now }
    requires normal { AllByRecursion IsPlay normal.now }
    requires interrupts { AllByRecursion IsInterrupt interrupts.now }
    ensures slots { into.new ≡ slots_of normal.now interrupts.now }
    ensures tiles { Tiles 0 into.new }

    // The slots in closed form, where `normal_count` is the least number that fills the room.
    ensures exact { (s : Slot) →
        Contains into.new s ↔ IsSlot normal.now (interrupt_plays interrupts.now) s }
    ensures least { let room = HOUR - total (interrupt_plays interrupts.now) in
        IsLeast normal.now room (normal_count normal.now room) }

    // How many seconds each of them has.
    ensures law { total (interrupt_plays interrupts.now) < HOUR →
        HourLaw normal.now interrupts.now into.new }
{
    build(
        normal,
        interrupts,
        &mut into.slots,
        &mut into.plays,
        &mut into.alive,
    );
}

// The slots of the hour, with the two buffers that it takes.
fn build(
    normal: &[Play],
    interrupts: &[Interrupt],
    slots: &mut Vec<Slot>,
    plays: &mut Vec<Play>,
    alive: &mut Vec<Interrupt>,
)
    requires some { 0 < length normal.now }
    requires normal { AllByRecursion IsPlay normal.now }
    requires interrupts { AllByRecursion IsInterrupt interrupts.now }
    requires slots { HOUR ≤ vec_capacity slots.old }
    requires plays { HOUR ≤ vec_capacity plays.old }
    requires alive { HOUR ≤ vec_capacity alive.old }
    ensures items { slots.new.items ≡ slots_of normal.now interrupts.now }
    ensures slots { HOUR ≤ vec_capacity slots.new }
    ensures plays { HOUR ≤ vec_capacity plays.new }
    ensures alive { HOUR ≤ vec_capacity alive.new }
{
    slots.clear();
    let room = gather(interrupts, alive, plays);
    if room == 0 {
        lay(plays.as_slice(), slots);
        return;
    }
    let n = fill(normal, room);
    mix(normal, plays.as_slice(), n, slots);
}

/// The slot that covers second `p` of the hour, with `p` in 0..=3599.
pub fn slot_at(from: &Loop, p: u32) -> Slot
    requires built { Tiles 0 from.now }
    requires hour { p < HOUR }
    ensures value { result ≡ covering p from.now }
    ensures begun { result.place ≤ p }
    ensures lasts { p < result.place + result.seconds }
    ensures one { Contains from.now result }
    ensures only { (s : Slot) →
        Contains from.now s → s.place ≤ p → p < s.place + s.seconds → s ≡ result }
{
    // the slots after the one that covers p begin later, and the search for them halves the list
    let later = from.slots.partition_point(|slot| slot.place <= p);
    from.slots[later - 1]
}

/// The seconds of the hour that the slots of an event have together.
pub fn seconds_of(from: &Loop, event: u32) -> u32
    requires built { Tiles 0 from.now }
    ensures value { result ≡ event_seconds event from.now }
    ensures shown { result ≡ seconds_shown event from.now }
{
    sum_of(from.slots.as_slice(), event)
}

// The sum of the seconds of an event's slots.
fn sum_of(slots: &[Slot], event: u32) -> u32
    requires { sum (map (λ s. s.seconds) (filter (λ s. s.event == event) slots.now)) < 2 ^ 32 }
    ensures { result ≡ sum (map (λ s. s.seconds) (filter (λ s. s.event == event) slots.now)) }
{
    slots
        .iter()
        .filter(|slot| slot.event == event)
        .map(|slot| slot.seconds)
        .sum()
}
