//! The rules of an event, each a function over plain values that finds its first fault.

ghost use Rattle.std.specs.Prelude.{◌≡◌, IfNone, IfSome};
ghost use Rattle.sg_base.specs.Repeat.{IsRepeat};
ghost use Rattle.sg_base.specs.Event.{event_fault, numbers_fault as numbers_fault_of, time_fault as time_fault_of, repeat_fault as repeat_fault_of, until_fault as until_fault_of, layer_fault as layer_fault_of};

use crate::event::{EventFault, Target, When};
use crate::limits::{DAY, LAST_DAY, MAX_LAYER, MAX_ORDER, MAX_SHARE, TIME_END};
use crate::repeat::{Repeat, Unit};

/// The first fault of an event's values. Where there is none the repeat is known to be valid, as each repeat
/// is.
pub(crate) fn fault_of(
    layer: u32,
    target: Target,
    when: When,
    repeat: &Option<Repeat>,
    order: u32,
    priority: u32,
    share: u32,
) -> Option<EventFault>
    ensures fault { result ≡ event_fault layer target when repeat.now order priority share }
    ensures valid { IfNone result (IfSome repeat.now IsRepeat) }
{
    if let Some(fault) = numbers_fault(target, order, priority, share) {
        return Some(fault);
    }
    if let Some(fault) = time_fault(when) {
        return Some(fault);
    }
    match repeat_fault(when, repeat) {
        Some(fault) => Some(fault),
        None => layer_fault(layer, target, share),
    }
}

fn numbers_fault(target: Target, order: u32, priority: u32, share: u32) -> Option<EventFault>
    ensures { result ≡ numbers_fault_of target order priority share }
{
    if order > MAX_ORDER || priority > MAX_ORDER {
        return Some(EventFault::BigNumber);
    }
    if share > MAX_SHARE {
        return Some(EventFault::BigShare);
    }
    match target {
        Target::Campaign(_) if share > 0 => Some(EventFault::InterruptCampaign),
        _ => None,
    }
}

fn time_fault(when: When) -> Option<EventFault>
    ensures { result ≡ time_fault_of when }
{
    match when {
        When::Always => None,
        When::Custom { from, to } => {
            if to <= from {
                Some(EventFault::EmptyTime)
            } else if to > TIME_END {
                Some(EventFault::PastRange)
            } else {
                None
            }
        }
        When::Named { date, .. } => (date > LAST_DAY).then_some(EventFault::PastRange),
    }
}

fn repeat_fault(when: When, repeat: &Option<Repeat>) -> Option<EventFault>
    ensures fault { result ≡ repeat_fault_of when repeat.now }
    ensures valid { IfSome repeat.now IsRepeat }
{
    let Some(repeat) = repeat else {
        return None;
    };
    let until = repeat.until();
    match when {
        When::Always => Some(EventFault::AlwaysRepeats),
        When::Custom { from, .. } => until_fault(from / DAY, until),
        When::Named { date, .. } => {
            if repeat.unit() == Unit::Hour {
                Some(EventFault::HourDaypart)
            } else {
                until_fault(date, until)
            }
        }
    }
}

fn until_fault(base: u32, until: Option<u32>) -> Option<EventFault>
    ensures { result ≡ until_fault_of base until }
{
    match until {
        Some(day) if day < base => Some(EventFault::UntilBeforeBase),
        _ => None,
    }
}

fn layer_fault(layer: u32, target: Target, share: u32) -> Option<EventFault>
    ensures { result ≡ layer_fault_of layer target share }
{
    if layer > MAX_LAYER {
        return Some(EventFault::BadLayer);
    }
    match target {
        Target::Layout(_) if share == 0 => None,
        _ => (layer > 0).then_some(EventFault::OverlayForm),
    }
}
