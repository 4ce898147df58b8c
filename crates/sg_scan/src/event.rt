//! Events.

ghost use Rattle.std.specs.Prelude.{IfSome};
ghost use Rattle.sg_rows.specs.Forms.{AllowsLayer};
ghost use Rattle.sg_rows.specs.Rows.{IsTarget, IsWhen};

use crate::list::ScanRow;
use crate::repeat::scan_repeat;
use crate::scan::Scan;
use sg_base::limits::MAX_LAYER;
use sg_base::{CampaignId, DaypartId, Event, EventId, LayoutId, Target, When};
use sg_rows::RowForm;
use std::alloc::Global;

fn target(text: &mut Scan) -> Option<Target>
    ensures { IfSome result IsTarget }
{
    if text.pass(b"{\"layout\":").is_some() {
        let layout = text.id()?;
        text.pass(b"}")?;
        return Some(Target::Layout(LayoutId(layout)));
    }
    let campaign = text.id_after(b"{\"campaign\":")?;
    text.pass(b"}")?;
    Some(Target::Campaign(CampaignId(campaign)))
}

fn when(text: &mut Scan) -> Option<When>
    ensures { IfSome result IsWhen }
{
    if text.pass(b"{\"always\":true}").is_some() {
        return Some(When::Always);
    }
    if text.pass(b"{\"from\":").is_some() {
        let from = text.number()?;
        let to = text.number_after(b",\"to\":")?;
        text.pass(b"}")?;
        return Some(When::Custom { from, to });
    }
    let date = text.number_after(b"{\"date\":")?;
    let daypart = text.id_after(b",\"daypart\":")?;
    text.pass(b"}")?;
    Some(When::Named {
        daypart: DaypartId(daypart),
        date,
    })
}

/// The layer, of which version 1 says nothing.
fn layer(form: RowForm, text: &mut Scan) -> Option<u32>
    ensures { IfSome result (AllowsLayer form) }
{
    match form {
        RowForm::Version1 => Some(0),
        RowForm::Version2 | RowForm::Edit => {
            let layer = text.number_after(b",\"layer\":")?;
            if layer <= MAX_LAYER {
                Some(layer)
            } else {
                None
            }
        }
    }
}

impl ScanRow for Event {
    ghost use Rattle.sg_rows.specs.Rows.{IsEventRow};

    ghost valid = { IsEventRow };

    fn scan(_alloc: Global, form: RowForm, text: &mut Scan) -> Option<Event> {
        let id = text.id_after(b"{\"id\":")?;
        let layer = layer(form, text)?;
        let order = text.number_after(b",\"order\":")?;
        let priority = text.number_after(b",\"priority\":")?;
        text.pass(b",\"repeat\":")?;
        let repeat = scan_repeat(form, text)?;
        let share = text.number_after(b",\"share\":")?;
        text.pass(b",\"target\":")?;
        let target = target(text)?;
        text.pass(b",\"when\":")?;
        let when = when(text)?;
        text.pass(b"}")?;
        match Event::new(
            EventId(id),
            layer,
            target,
            when,
            repeat,
            order,
            priority,
            share,
        ) {
            Ok(event) => Some(event),
            Err(_) => None,
        }
    }
}
