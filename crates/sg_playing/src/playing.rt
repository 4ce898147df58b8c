// The play that runs.
ghost use Rattle.std.specs.Prelude.{◌≡◌, ◌<◌, ◌≤◌, None, IfSome, max};
ghost use Rattle.sg_playing.specs.Plays.{IsNamed, IsRunning, begun, closed_by, closed_last, ended, goes_on, opened_by, turn};

use crate::slot::ShownSlot;
use sg_base::{Moment, PlayBody};
use std::marker::Model;

/// A play that runs: its slot, the moment at which the slot was first shown, and the moment of the last turn.
#[derive(Clone, Copy, Debug, PartialEq, Eq)]
pub struct OpenPlay {
    pub slot: ShownSlot,
    pub from: Moment,
    pub last: Moment,
}

/// The play that runs in a life, if one does. Contracts see it as that play.
#[derive(Debug, Drop)]
pub struct Playing {
    running: Option<OpenPlay>,
}

impl Model for Playing {
    ghost use Rattle.std.specs.Prelude.{Option};
    ghost use Rattle.sg_playing.specs.declared.playing.OpenPlay.{OpenPlay};
    ghost use Rattle.sg_playing.specs.Plays.{IsRunning};

    ghost Value = { Option OpenPlay };

    ghost view = { λ p. p.running };

    ghost invariant = { λ p. IsRunning p.running };
}

impl Playing {
    /// No play runs.
    pub fn new() -> Playing
        ensures { result ≡ None }
    {
        Playing { running: None }
    }

    /// A turn at a moment shows this slot, or nothing. The play that runs goes on where its slot is shown and the clock
    /// didn't go back; else it ends, and a new one begins. Gives the play that ended, if it has a second.
    pub fn show(&mut self, moment: Moment, slot: &Option<ShownSlot>) -> Option<PlayBody>
        requires named { IsNamed slot.now }
        ensures closed { result ≡ closed_by self.old (turn moment slot.now) }
        ensures opened { self.new ≡ opened_by self.old (turn moment slot.now) }

        // What is given can be recorded.
        ensures rises { IfSome result (λ p. p.from < p.to) }
        ensures layout { IfSome result (λ p. 1 ≤ p.layout) }
    {
        let closed = closed_by(&self.running, moment, slot);
        self.running = opened_by(&self.running, moment, slot);
        closed
    }

    /// The turns are over: the play that runs ends at the moment of the last one. Gives it, if it has a second.
    pub fn close(self) -> Option<PlayBody>
        ensures closed { result ≡ closed_last self }

        // What is given can be recorded.
        ensures rises { IfSome result (λ p. p.from < p.to) }
        ensures layout { IfSome result (λ p. 1 ≤ p.layout) }
    {
        match &self.running {
            Some(play) => play.ended(play.last),
            None => None,
        }
    }
}

impl OpenPlay {
    // Whether it goes on in a turn.
    fn goes_on(&self, moment: Moment, slot: &Option<ShownSlot>) -> bool
        ensures { result ≡ goes_on self.now (turn moment slot.now) }
    {
        match slot {
            Some(shown) => self.slot.is(shown) && self.last.seconds() <= moment.seconds(),
            None => false,
        }
    }

    // The play that it was where it ends at a moment, if it has a second.
    fn ended(&self, to: Moment) -> Option<PlayBody>
        ensures ended { result ≡ ended self.now to }
        ensures rises { IfSome result (λ p. p.from < p.to) }
        ensures layout { IfSome result (λ p. p.layout ≡ self.now.slot.layout) }
    {
        if self.from.seconds() < to.seconds() {
            Some(PlayBody {
                event: self.slot.event,
                layout: self.slot.layout,
                from: self.from,
                to,
            })
        } else {
            None
        }
    }
}

// The play that a turn ends.
fn closed_by(
    running: &Option<OpenPlay>,
    moment: Moment,
    slot: &Option<ShownSlot>,
) -> Option<PlayBody>
    requires { IsRunning running.now }
    ensures closed { result ≡ closed_by running.now (turn moment slot.now) }
    ensures rises { IfSome result (λ p. p.from < p.to) }
    ensures layout { IfSome result (λ p. 1 ≤ p.layout) }
{
    match running {
        Some(play) => {
            if play.goes_on(moment, slot) {
                None
            } else {
                play.ended(later(play.last, moment))
            }
        }
        None => None,
    }
}

// The play that runs after a turn.
fn opened_by(
    running: &Option<OpenPlay>,
    moment: Moment,
    slot: &Option<ShownSlot>,
) -> Option<OpenPlay>
    requires running { IsRunning running.now }
    requires named { IsNamed slot.now }
    ensures opened { result ≡ opened_by running.now (turn moment slot.now) }
    ensures running { IsRunning result }
{
    match running {
        Some(play) => {
            if play.goes_on(moment, slot) {
                Some(OpenPlay {
                    slot: play.slot,
                    from: play.from,
                    last: moment,
                })
            } else {
                begun(moment, slot)
            }
        }
        None => begun(moment, slot),
    }
}

// The play that begins with a slot.
fn begun(moment: Moment, slot: &Option<ShownSlot>) -> Option<OpenPlay>
    requires { IsNamed slot.now }
    ensures begun { result ≡ begun (turn moment slot.now) }
    ensures running { IsRunning result }
{
    match slot {
        Some(slot) => Some(OpenPlay {
            slot: *slot,
            from: moment,
            last: moment,
        }),
        None => None,
    }
}

fn later(a: Moment, b: Moment) -> Moment
    ensures { result ≡ max a b }
{
    if a.seconds() <= b.seconds() { b } else { a }
}
