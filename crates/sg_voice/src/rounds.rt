// The plays of the interrupts, round after round, as far as they begin in the hour.
ghost use Rattle.std.specs.Prelude.{◌≡◌, ℕ, ◌+◌, ◌-◌, ◌*◌, ◌<◌, ◌≤◌, List, [], ◌∷◌, ◌++◌, length, nat_lt, vec_len, vec_capacity, filter};
ghost use Rattle.std.specs.List.{AllByRecursion};
ghost use Rattle.sg_voice.specs.declared.play.Play.{Play};
ghost use Rattle.sg_voice.specs.declared.play.Interrupt.{Interrupt};
ghost use Rattle.sg_voice.specs.Hour.{IsInterrupt, count_of, part_of, round_of, rounds_of, most_of, interrupt_plays, total};
ghost use Rattle.sg_voice.specs.Within.{within};

use crate::play::{Interrupt, Play};
use sg_base::limits::HOUR;

// How often an interrupt plays.
fn count(interrupt: Interrupt) -> u32
    requires { IsInterrupt interrupt }
    ensures { result ≡ count_of interrupt }
{
    interrupt.share.div_ceil(interrupt.seconds)
}

// The number of rounds.
fn most(interrupts: &[Interrupt]) -> u32
    requires { AllByRecursion IsInterrupt interrupts.now }
    ensures { result ≡ most_of interrupts.now }
{
    let mut most = 0;
    for interrupt in interrupts {
        most = most.max(count(*interrupt));
    }
    most
}

// Appends a play, and answers the room that is left after it.
fn append(play: Play, room: u32, plays: &mut Vec<Play>) -> u32
    requires room { 0 < room }
    requires some { 0 < play.seconds }
    requires hour { vec_len plays.old + room ≤ HOUR }
    requires capacity { HOUR ≤ vec_capacity plays.old }
    ensures items { plays.new.items ≡ plays.old.items ++ play ∷ [] }
    ensures left { result ≡ room - play.seconds }
    ensures hour { vec_len plays.new + result ≤ HOUR }
    ensures capacity { HOUR ≤ vec_capacity plays.new }
{
    match plays.push(play) {
        Ok(()) => room.saturating_sub(play.seconds),
        Err(_) => unreachable!(),
    }
}

// Appends what an interrupt adds to a round, if there is room, and answers the room that is left.
fn offer(interrupt: Interrupt, round: u32, room: u32, plays: &mut Vec<Play>) -> u32
    requires interrupt { IsInterrupt interrupt }
    requires hour { vec_len plays.old + room ≤ HOUR }
    requires capacity { HOUR ≤ vec_capacity plays.old }
    ensures items { (rest : List Play) →
        plays.new.items ++ within result rest
        ≡ plays.old.items ++ within room (part_of round interrupt ++ rest) }
    ensures left { result ≡ room - total (part_of round interrupt) }
    ensures hour { vec_len plays.new + result ≤ HOUR }
    ensures capacity { HOUR ≤ vec_capacity plays.new }
{
    if room == 0 {
        return 0;
    }
    if round >= count(interrupt) {
        return room;
    }
    let play = Play {
        event: interrupt.event,
        layout: interrupt.layout,
        seconds: interrupt.seconds,
    };
    append(play, room, plays)
}

// Appends a round, as far as there is room, and answers the room that is left.
fn one_round(interrupts: &[Interrupt], round: u32, room: u32, plays: &mut Vec<Play>) -> u32
    requires each { AllByRecursion IsInterrupt interrupts.now }
    requires hour { vec_len plays.old + room ≤ HOUR }
    requires capacity { HOUR ≤ vec_capacity plays.old }
    ensures items { (rest : List Play) →
        plays.new.items ++ within result rest
        ≡ plays.old.items ++ within room (round_of round interrupts.now ++ rest) }
    ensures left { result ≡ room - total (round_of round interrupts.now) }
    ensures hour { vec_len plays.new + result ≤ HOUR }
    ensures capacity { HOUR ≤ vec_capacity plays.new }
{
    let mut left = room;
    for interrupt in interrupts {
        left = offer(*interrupt, round, left, plays);
    }
    left
}

// Whether an interrupt's share reaches past the plays of the rounds before this one.
fn lasts(interrupt: Interrupt, round: u32) -> bool
    ensures { result ≡ nat_lt (round * interrupt.seconds) interrupt.share }
{
    u64::from(round) * u64::from(interrupt.seconds) < u64::from(interrupt.share)
}

// Drops the interrupts that play in no round from this one on.
fn keep(alive: &mut Vec<Interrupt>, round: u32)
    ensures items { alive.new.items ≡ filter (λ i. nat_lt (round * i.seconds) i.share) alive.old.items }
    ensures capacity { vec_capacity alive.new ≡ vec_capacity alive.old }
{
    alive.retain(|interrupt| lasts(*interrupt, round));
}

// Appends the rounds after the first, as far as there is room, and answers the room that is left. An interrupt is
// looked at once in each of its rounds, since it is dropped after its last one.
fn later_rounds(alive: &mut Vec<Interrupt>, room: u32, plays: &mut Vec<Play>) -> u32
    requires each { AllByRecursion IsInterrupt alive.old.items }
    requires hour { vec_len plays.old + room ≤ HOUR }
    requires plays { HOUR ≤ vec_capacity plays.old }
    requires alive { HOUR ≤ vec_capacity alive.old }
    ensures items { plays.new.items
        ≡ plays.old.items
        ++ within room (rounds_of (most_of alive.old.items - 1) 1 alive.old.items) }
    ensures left { result ≡ room - total (rounds_of (most_of alive.old.items - 1) 1 alive.old.items) }
    ensures hour { vec_len plays.new + result ≤ HOUR }
    ensures plays { HOUR ≤ vec_capacity plays.new }
    ensures alive { HOUR ≤ vec_capacity alive.new }
{
    let mut left = room;
    for round in 1..most(alive.as_slice()) {
        if left == 0 {
            break;
        }
        keep(alive, round);
        left = one_round(alive.as_slice(), round, left, plays);
    }
    left
}

// Gathers the plays of the interrupts, as far as they begin in the hour, and answers the room that is left in it. No
// more than an hour of plays is kept, however many there are in all.
pub fn gather(interrupts: &[Interrupt], alive: &mut Vec<Interrupt>, plays: &mut Vec<Play>) -> u32
    requires each { AllByRecursion IsInterrupt interrupts.now }
    requires alive { HOUR ≤ vec_capacity alive.old }
    requires plays { HOUR ≤ vec_capacity plays.old }
    ensures items { plays.new.items ≡ within HOUR (interrupt_plays interrupts.now) }
    ensures left { result ≡ HOUR - total (interrupt_plays interrupts.now) }
    ensures hour { vec_len plays.new + result ≤ HOUR }
    ensures plays { HOUR ≤ vec_capacity plays.new }
    ensures alive { HOUR ≤ vec_capacity alive.new }
{
    plays.clear();
    let left = one_round(interrupts, 0, HOUR, plays);
    if left == 0 {
        return 0;
    }
    alive.clear();
    match alive.extend_from_slice(interrupts) {
        Ok(()) => later_rounds(alive, left, plays),
        Err(_) => unreachable!(),
    }
}
