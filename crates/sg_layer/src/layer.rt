//! A layer, ready to be asked what it shows.

ghost use Rattle.std.specs.Prelude.{◌≡◌, ◌+◌, ◌*◌, ◌<◌, ◌≤◌, true, false, None, Some, IfOk, IfSome, OnSome, IsSome, List, length, Option};
ghost use Rattle.std.specs.List.{AllByRecursion, Contains};
ghost use Rattle.sg_base.specs.Seconds.{IsAskable};
ghost use Rattle.sg_layer.specs.Segment.{is_inside as is_inside_of, IsKeptFrom};

use crate::asking::ask;
use crate::entry::Entry;
use crate::hour::{hour_end, place_in_hour};
use crate::listing::{list_interrupts, list_plays};
use crate::room::Room;
use sg_base::limits::HOUR;
use sg_base::{LocalSec, Steps};
use sg_voice::{Loop, Play, Slot, build_loop, slot_at};
use std::alloc::{AllocError, Global};
use std::marker::Model;
use std::sync::ledger::Ledger;

/// Entries in their order, with the room that their hour needs, taken once.
#[derive(Debug, Drop)]
pub struct Layer {
    normal: Vec<Entry>,
    interrupts: Vec<Entry>,
    default: Option<Play>,
    room: Room,
    // the segment of local seconds for which the room holds the hour
    kept: Option<(LocalSec, LocalSec)>,
}

impl Model for Layer {
    ghost use Rattle.sg_layer.specs.Shown.{LayerValue};

    ghost Value = { LayerValue };

    ghost use Rattle.sg_layer.specs.Ready.{IsReady};

    ghost view = { λ l. record {
      normal = l.normal.items;
      interrupts = l.interrupts.items;
      default = l.default;
      kept = l.kept;
    } };

    ghost invariant = { λ l. IsReady (record {
      normal = l.normal.items;
      interrupts = l.interrupts.items;
      default = l.default;
      kept = l.kept;
    }) l.room };
}

impl Layer {
    ghost use Rattle.sg_layer.specs.Shown.{LayerValue, IsLayer, IsSlotAt, entries_of, slot_at as slot_at_of};

    /// A layer of normal entries in order, of interrupts in order, and of a play that stands in where no normal entry is
    /// played. All the memory that later answers need is taken here.
    pub fn new(
        alloc: Global,
        normal: Vec<Entry>,
        interrupts: Vec<Entry>,
        default: Option<Play>,
    ) -> Result<Layer, AllocError>
        requires { IsLayer (record { normal = normal.items; interrupts = interrupts.items; default = default; kept = None }) }
        ensures { IfOk result (λ l. l ≡ record { normal = normal.items; interrupts = interrupts.items; default = default; kept = None }) }
    {
        let room = room_for(alloc, normal.len().max(interrupts.len()))?;
        Ok(Layer {
            normal,
            interrupts,
            default,
            room,
            kept: None,
        })
    }

    /// The segment of local seconds for which the hour is kept that was built last: from the first of them up to the second.
    pub fn kept(&self) -> Option<(LocalSec, LocalSec)>
        ensures { result ≡ self.now.kept }
    {
        self.kept
    }

    /// The slot that is shown at a local second; `None` where no normal entry is played and no play stands in.
    ///
    /// For a second in the kept segment nothing is asked. Else each entry is asked whether it is active and when that
    /// changes next, which counts two steps at most, and the segment of the second is kept.
    #[tactic(auto, unfolding(crate::specs::Shown::slot_at))]
    pub fn slot_at<L: Ledger>(&mut self, t: LocalSec, steps: &mut Steps<L>) -> Option<Slot>
        requires second { IsAskable t }
        ensures value { result ≡ slot_at_of self.old t }
        ensures closed { IfSome result (IsSlotAt self.old t) }
        ensures same { self.new ≡ record self.old { kept = self.new.kept } }

        // What is kept, and how many steps are counted.
        ensures inside { is_inside_of self.old.kept t ≡ true →
            (self.new.kept ≡ self.old.kept) × (steps.new ≡ steps.old) }
        ensures anew { is_inside_of self.old.kept t ≡ false →
            IsKeptFrom (entries_of self.old) t self.new.kept
            × (steps.new ≤ steps.old + 2 * length (entries_of self.old)) }
    {
        if !is_inside(self.kept, t) {
            self.build(t, steps);
        }
        self.read(t)
    }

    // Builds the hour of a local second, and keeps the segment for which it stays.
    fn build<L: Ledger>(&mut self, t: LocalSec, steps: &mut Steps<L>)
        requires second { IsAskable t }
        ensures same { self.new ≡ record self.old { kept = self.new.kept } }
        ensures kept { IsKeptFrom (entries_of self.old) t self.new.kept }
        ensures inside { is_inside_of self.new.kept t ≡ true }
        ensures ticks { steps.new ≤ steps.old + 2 * length (entries_of self.old) }
    {
        let end = fill(
            self.normal.as_slice(),
            self.interrupts.as_slice(),
            self.default,
            t,
            steps,
            &mut self.room,
        );
        self.kept = Some((t, end));
    }

    // The slot at a second of the kept segment.
    fn read(&self, t: LocalSec) -> Option<Slot>
        requires { is_inside_of self.now.kept t ≡ true }
        ensures value { result ≡ slot_at_of self.now t }
        ensures closed { IfSome result (IsSlotAt self.now t) }
    {
        if self.room.plays.is_empty() {
            return None;
        }
        Some(slot_at(&self.room.hour, place_in_hour(t)))
    }
}

ghost use Rattle.std.specs.Prelude.{◌<ℤ◌};
ghost use Rattle.sg_layer.specs.Shown.{IsLayer};
ghost use Rattle.sg_layer.specs.Ready.{HasRoom, Holds};

// Room for so many entries.
fn room_for(alloc: Global, count: usize) -> Result<Room, AllocError>
    ensures { IfOk result (HasRoom count count) }
{
    let active = Vec::with_capacity(alloc, count)?;
    let plays = Vec::with_capacity(alloc, HOUR as usize)?;
    let sharing = Vec::with_capacity(alloc, count)?;
    let hour = Loop::reserve(alloc)?;
    Ok(Room {
        active,
        plays,
        sharing,
        hour,
    })
}

// Whether a second is in a segment.
fn is_inside(kept: Option<(LocalSec, LocalSec)>, t: LocalSec) -> bool
    ensures { result ≡ is_inside_of kept t }
{
    match kept {
        Some((from, till)) => from.second() <= t.second() && t.second() < till.second(),
        None => false,
    }
}

// Lists what is played at a local second, builds the hour of it, and gives the second up to which it stays.
fn fill<L: Ledger>(
    normal: &[Entry],
    interrupts: &[Entry],
    default: Option<Play>,
    t: LocalSec,
    steps: &mut Steps<L>,
    room: &mut Room,
) -> LocalSec
    requires second { IsAskable t }
    requires layer { IsLayer (record { normal = normal.now; interrupts = interrupts.now; default = default; kept = None }) }
    requires room { HasRoom (length normal.now) (length interrupts.now) room.old }
    ensures room { HasRoom (length normal.now) (length interrupts.now) room.new }
    ensures holds { Holds (record { normal = normal.now; interrupts = interrupts.now; default = default; kept = None }) t result room.new }
    ensures later { t <ℤ result }
    ensures ticks { steps.new ≤ steps.old + 2 * (length interrupts.now + length normal.now) }
{
    let end = ask(interrupts, t, hour_end(t), steps, &mut room.active);
    list_interrupts(interrupts, room.active.as_slice(), &mut room.sharing);
    let end = ask(normal, t, end, steps, &mut room.active);
    list_plays(normal, room.active.as_slice(), default, &mut room.plays);
    if !room.plays.is_empty() {
        build_loop(
            room.plays.as_slice(),
            room.sharing.as_slice(),
            &mut room.hour,
        );
    }
    end
}
