//! What is shown at a local second.

ghost use Rattle.std.specs.Prelude.{◌≡◌, ◌≤◌};
ghost use Rattle.sg_base.specs.Seconds.{IsAskable};
ghost use Rattle.sg_layer.specs.Shown.{place_of};
ghost use Rattle.sg_resolver.specs.Shown.{show_of as show_of_slot};

use sg_base::LocalSec;
use sg_layer::place_in_hour;
use sg_voice::Slot;

/// The event (0 for the default layout) and the layout that are shown, the local second at which their slot
/// began, and the seconds since then.
#[derive(Clone, Copy, Debug, PartialEq, Eq)]
pub struct Show {
    pub event: u32,
    pub layout: u32,
    pub slot_start: LocalSec,
    pub offset: u32,
}

/// What is shown at a local second by a slot of its hour that has begun.
pub fn show_of(t: LocalSec, slot: Slot) -> Show
    requires begun { slot.place ≤ place_of t }
    requires second { IsAskable t }
    ensures { result ≡ show_of_slot t slot }
{
    let place = place_in_hour(t);
    Show {
        event: slot.event,
        layout: slot.layout,
        slot_start: LocalSec::new(t.second() - place as i64 + slot.place as i64),
        offset: place - slot.place,
    }
}
