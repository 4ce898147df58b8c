// The slots of an hour: plays put end to end, and the walk that puts the interrupt plays between the normal ones.
ghost use Rattle.std.specs.Prelude.{◌≡◌, ℕ, ◌+◌, ◌-◌, ◌*◌, ◌<◌, ◌≤◌, List, [], ◌∷◌, ◌++◌, length, vec_len, vec_capacity};
ghost use Rattle.std.specs.List.{AllByRecursion};
ghost use Rattle.sg_voice.specs.declared.play.Play.{Play};
ghost use Rattle.sg_voice.specs.Hour.{IsPlay, cyclic, normal_count, mixed_plays, placed};

use crate::play::{Play, Slot};
use sg_base::limits::HOUR;

// Appends the slot of a play that goes to a second, if that is in the hour, and answers where the next play goes.
fn put(slots: &mut Vec<Slot>, play: Play, at: u32) -> u32
    requires play { IsPlay play }
    requires behind { vec_len slots.old ≤ at }
    requires capacity { HOUR ≤ vec_capacity slots.old }
    ensures items { (rest : List Play) →
        slots.new.items ++ placed result rest ≡ slots.old.items ++ placed at (play ∷ rest) }
    ensures behind { vec_len slots.new ≤ result }
    ensures capacity { HOUR ≤ vec_capacity slots.new }
{
    if at >= HOUR {
        return at;
    }
    let slot = Slot {
        event: play.event,
        layout: play.layout,
        place: at,
        seconds: play.seconds.min(HOUR - at),
    };
    match slots.push(slot) {
        Ok(()) => at + play.seconds,
        Err(_) => unreachable!(),
    }
}

// Puts plays end to end from the hour's start on.
pub fn lay(plays: &[Play], slots: &mut Vec<Slot>)
    requires each { AllByRecursion IsPlay plays.now }
    requires empty { slots.old.items ≡ [] }
    requires capacity { HOUR ≤ vec_capacity slots.old }
    ensures items { slots.new.items ≡ placed 0 plays.now }
    ensures capacity { HOUR ≤ vec_capacity slots.new }
{
    let mut at = 0;
    for play in plays {
        at = put(slots, *play, at);
    }
}

// Normal play j: the list is read again and again.
fn turn(normal: &[Play], j: usize) -> Play
    requires some { 0 < length normal.now }
    requires each { AllByRecursion IsPlay normal.now }
    ensures value { result ≡ cyclic normal.now j }
    ensures play { IsPlay result }
{
    normal[j % normal.len()]
}

// The least number of normal plays that fill the room.
pub fn fill(normal: &[Play], room: u32) -> usize
    requires some { 0 < length normal.now }
    requires each { AllByRecursion IsPlay normal.now }
    requires hour { room ≤ HOUR }
    ensures value { result ≡ normal_count normal.now room }
    ensures few { result ≤ HOUR }
{
    let mut n = 0;
    let mut left = room;
    while left > 0 {
        left = left.saturating_sub(turn(normal, n).seconds);
        n += 1;
    }
    n
}

// Puts n normal plays end to end, each after the interrupt plays that come between. Of k interrupt plays, (j + 1) k / n
// come before normal play j: the walk counts k up for each normal play, and puts an interrupt play for each whole n in it.
pub fn mix(normal: &[Play], plays: &[Play], n: usize, slots: &mut Vec<Slot>)
    requires some { 0 < length normal.now }
    requires normal { AllByRecursion IsPlay normal.now }
    requires plays { AllByRecursion IsPlay plays.now }
    requires few { length plays.now ≤ HOUR }
    requires n { n ≤ HOUR }
    requires empty { slots.old.items ≡ [] }
    requires capacity { HOUR ≤ vec_capacity slots.old }
    ensures items { slots.new.items ≡ placed 0 (mixed_plays n normal.now plays.now) }
    ensures capacity { HOUR ≤ vec_capacity slots.new }
{
    let mut at = 0;
    let mut next = 0usize;
    let mut remainder = 0usize;
    for j in 0..n {
        remainder += plays.len();
        while remainder >= n {
            remainder -= n;
            let play = plays[next];
            at = put(slots, play, at);
            next += 1;
        }
        let normal_play = turn(normal, j);
        at = put(slots, normal_play, at);
    }
}
