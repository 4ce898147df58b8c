//! Zone rules.

ghost use Rattle.std.specs.Prelude.{IfSome};
ghost use Rattle.sg_rows.specs.Zone.{IsZone};

use crate::scan::Scan;
use sg_base::{Rows, ZoneRule};
use sg_calendar::Zone;
use std::alloc::Global;

/// The minutes of an offset.
fn minutes(text: &mut Scan) -> Option<i32> {
    let west = text.pass(b"-").is_some();
    let number = text.number()?;
    if number > 840 {
        return None;
    }
    let minutes = number as i32;
    Some(if west { -minutes } else { minutes })
}

fn rule(alloc: Global, text: &mut Scan) -> Option<ZoneRule> {
    if text.pass(b"{\"offset\":").is_some() {
        let minutes = minutes(text)?;
        text.pass(b"}")?;
        return Some(ZoneRule::Offset(minutes));
    }
    text.pass(b"{\"posix\":\"")?;
    let name = text.text()?;
    text.pass(b"}")?;
    let bytes = name.to_vec(alloc).ok()?;
    Some(ZoneRule::Posix(Rows::from_vec(bytes)))
}

/// A rule that tells a zone.
pub fn scan_zone(alloc: Global, text: &mut Scan) -> Option<ZoneRule>
    ensures { IfSome result IsZone }
{
    let rule = rule(alloc, text)?;
    match Zone::read(&rule) {
        Ok(_) => Some(rule),
        Err(_) => None,
    }
}
