//! Events: what is scheduled, when, and with which precedence.

ghost use Rattle.std.specs.Prelude.{◌≡◌, ◌≤◌, Some, None, IfSome, MatchResult};

use crate::event_rules::fault_of;
use crate::ids::{CampaignId, DaypartId, EventId, LayoutId};
use crate::limits::{MAX_LAYER, MAX_ORDER, MAX_SHARE};
use crate::repeat::Repeat;
use std::marker::Model;
use thiserror::Error;

/// When an event happens, its repeats apart.
#[derive(Clone, Copy, Debug, PartialEq, Eq)]
pub enum When {
    /// At every second.
    Always,
    /// From one local second up to another.
    Custom { from: u32, to: u32 },
    /// In a daypart's window of a date, a day number.
    Named { daypart: DaypartId, date: u32 },
}

/// What an event shows.
#[derive(Clone, Copy, Debug, PartialEq, Eq)]
pub enum Target {
    Layout(LayoutId),
    Campaign(CampaignId),
}

/// Why values make no event.
#[derive(Clone, Copy, Debug, PartialEq, Eq, Error)]
pub enum EventFault {
    #[error("an order or a priority is above 65,535")]
    BigNumber,
    #[error("a share of voice is above 3,600 seconds")]
    BigShare,
    #[error("an interrupt shows a layout, and no campaign")]
    InterruptCampaign,
    #[error("the time ends where it begins, or before")]
    EmptyTime,
    #[error("the time is after 2099")]
    PastRange,
    #[error("an event at every second has no repeat")]
    AlwaysRepeats,
    #[error("a daypart doesn't repeat by the hour")]
    HourDaypart,
    #[error("the last day is before the first")]
    UntilBeforeBase,
    #[error("there are the layers 0 and 1")]
    BadLayer,
    #[error("an overlay shows a layout, and has no share of voice")]
    OverlayForm,
}

/// An event: a layout or a campaign at a time, with an order and a priority of at most 65,535. A share of
/// 1 to 3,600 seconds an hour makes it an interrupt, and 0 a normal event. One of layer 1 is an overlay: its layout
/// is shown above the picture of the events of layer 0.
#[derive(Clone, Copy, Debug)]
pub struct Event {
    id: EventId,
    layer: u32,
    target: Target,
    when: When,
    repeat: Option<Repeat>,
    order: u32,
    priority: u32,
    share: u32,
}

impl Model for Event {
    ghost use Rattle.sg_base.specs.Event.{EventValue, IsEvent};

    ghost Value = { EventValue };

    ghost view = { λ e. record {
      id = e.id;
      layer = e.layer;
      target = e.target;
      when = e.when;
      repeat = e.repeat;
      order = e.order;
      priority = e.priority;
      share = e.share;
    } };

    ghost invariant = { λ e. IsEvent (record {
      id = e.id;
      layer = e.layer;
      target = e.target;
      when = e.when;
      repeat = e.repeat;
      order = e.order;
      priority = e.priority;
      share = e.share;
    }) };

    ghost inverse = { λ e. record {
      id = e.id;
      layer = e.layer;
      target = e.target;
      when = e.when;
      repeat = e.repeat;
      order = e.order;
      priority = e.priority;
      share = e.share;
    } };
}

impl Event {
    ghost use Rattle.sg_base.specs.Event.{IsEvent, event_fault};

    /// An event. It is refused with `BigNumber` for an order or a priority above 65,535; `BigShare` above
    /// 3,600; `InterruptCampaign` for a campaign with a share above 0; `EmptyTime` for a time that ends where
    /// it begins, or before; `PastRange` for an end above 4,102,444,800 or a date above 47,481 (2099-12-31);
    /// `AlwaysRepeats`; `HourDaypart` for a daypart that repeats by the hour; `UntilBeforeBase` for a
    /// repeat whose last day is before the day that the first occurrence begins on; `BadLayer` above 1; and
    /// `OverlayForm` for layer 1 with a campaign or a share above 0. The first of these is the answer.
    pub fn new(
        id: EventId,
        layer: u32,
        target: Target,
        when: When,
        repeat: Option<Repeat>,
        order: u32,
        priority: u32,
        share: u32,
    ) -> Result<Event, EventFault>
        ensures { MatchResult result
            (λ e. (event_fault layer target when repeat order priority share ≡ None)
            × (e ≡ record {
              id = id;
              layer = layer;
              target = target;
              when = when;
              repeat = repeat;
              order = order;
              priority = priority;
              share = share;
            }))
            (λ f. event_fault layer target when repeat order priority share ≡ Some f) }
    {
        match fault_of(layer, target, when, &repeat, order, priority, share) {
            Some(fault) => Err(fault),
            None => Ok(Event {
                id,
                layer,
                target,
                when,
                repeat,
                order,
                priority,
                share,
            }),
        }
    }

    /// The event's identity.
    pub fn id(&self) -> EventId
        ensures { result ≡ self.now.id }
    {
        self.id
    }

    /// 0 for the picture, 1 for an overlay above it.
    pub fn layer(&self) -> u32
        ensures value { result ≡ self.now.layer }
        ensures few { result ≤ MAX_LAYER }
        ensures valid { IsEvent self.now }
    {
        self.layer
    }

    /// What it shows.
    pub fn target(&self) -> Target
        ensures value { result ≡ self.now.target }
        ensures valid { IsEvent self.now }
    {
        self.target
    }

    /// When it happens, its repeats apart.
    pub fn when(&self) -> When
        ensures value { result ≡ self.now.when }
        ensures valid { IsEvent self.now }
    {
        self.when
    }

    /// How it repeats.
    pub fn repeat(&self) -> &Option<Repeat>
        ensures value { result.now ≡ self.now.repeat }
        ensures valid { IsEvent self.now }
    {
        &self.repeat
    }

    /// Its place among events of its priority.
    pub fn order(&self) -> u32
        ensures value { result ≡ self.now.order }
        ensures few { result ≤ MAX_ORDER }
        ensures valid { IsEvent self.now }
    {
        self.order
    }

    /// Of the events that are active together those of the greatest priority are shown.
    pub fn priority(&self) -> u32
        ensures value { result ≡ self.now.priority }
        ensures few { result ≤ MAX_ORDER }
        ensures valid { IsEvent self.now }
    {
        self.priority
    }

    /// Seconds of each hour that an interrupt is to have, and 0 for a normal event.
    pub fn share(&self) -> u32
        ensures value { result ≡ self.now.share }
        ensures few { result ≤ MAX_SHARE }
        ensures valid { IsEvent self.now }
    {
        self.share
    }
}
