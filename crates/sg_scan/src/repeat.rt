//! Repeats of events.

ghost use Rattle.std.specs.Prelude.{◌≡◌, ◌^◌, ◌<◌, IfSome};
ghost use Rattle.sg_rows.specs.Forms.{AllowsUnit};
ghost use Rattle.sg_rows.specs.Rows.{IsRepeatRow};

use crate::scan::Scan;
use sg_base::{Repeat, Unit};
use sg_rows::RowForm;

/// The bits of the weekdays, Monday first.
const WEEKDAY_BITS: [u8; 7] = [1, 2, 4, 8, 16, 32, 64];

/// The bits of some weekdays and of one more.
fn with_weekday(bits: u8, weekday: u32) -> Option<u8> {
    if weekday < 1 || weekday > 7 {
        return None;
    }
    Some(bits | WEEKDAY_BITS[weekday as usize - 1])
}

/// The bits of the weekdays of a list, behind its opening bracket.
fn days(text: &mut Scan) -> Option<u8> {
    let mut bits = 0;
    if text.pass(b"]").is_some() {
        return Some(bits);
    }
    for _ in 0..7u8 {
        bits = with_weekday(bits, text.number()?)?;
        if text.pass(b"]").is_some() {
            return Some(bits);
        }
        text.pass(b",")?;
    }
    None
}

fn unit_of(name: &[u8]) -> Option<Unit> {
    match name {
        b"hour" => Some(Unit::Hour),
        b"day" => Some(Unit::Day),
        b"week" => Some(Unit::Week),
        b"month" => Some(Unit::Month),
        b"month-weekday" => Some(Unit::MonthWeekday),
        b"year" => Some(Unit::Year),
        _ => None,
    }
}

/// A unit that the form has.
fn unit(form: RowForm, text: &mut Scan) -> Option<Unit>
    ensures { IfSome result (AllowsUnit form) }
{
    let unit = unit_of(text.text()?)?;
    match form {
        RowForm::Version1 => if unit == Unit::MonthWeekday {
            None
        } else {
            Some(unit)
        },
        RowForm::Version2 | RowForm::Edit => Some(unit),
    }
}

/// The last day, or null.
fn until(text: &mut Scan) -> Option<Option<u32>>
    ensures { IfSome result (λ o. IfSome o (λ day. day < 2 ^ 32)) }
{
    if text.pass(b"null").is_some() {
        return Some(None);
    }
    let day = text.number()?;
    Some(Some(day))
}

fn made(unit: Unit, every: u32, days: u8, until: Option<u32>) -> Option<Repeat>
    requires { IfSome until (λ day. day < 2 ^ 32) }
    ensures valid { IfSome result IsRepeatRow }
    ensures same { IfSome result (λ r. r.unit ≡ unit) }
{
    if days > 127 {
        return None;
    }
    match Repeat::new(unit, every, days, until) {
        Ok(repeat) => Some(repeat),
        Err(_) => None,
    }
}

/// How an event repeats, behind the opening brace.
fn some(form: RowForm, text: &mut Scan) -> Option<Repeat>
    ensures valid { IfSome result IsRepeatRow }
    ensures unit { IfSome result (λ r. AllowsUnit form r.unit) }
{
    text.pass(b"\"days\":[")?;
    let days = days(text)?;
    let every = text.number_after(b",\"every\":")?;
    text.pass(b",\"unit\":\"")?;
    let unit = unit(form, text)?;
    text.pass(b",\"until\":")?;
    let until = until(text)?;
    text.pass(b"}")?;
    made(unit, every, days, until)
}

/// How an event repeats, or null.
pub(crate) fn scan_repeat(form: RowForm, text: &mut Scan) -> Option<Option<Repeat>>
    ensures valid { IfSome result (λ o. IfSome o IsRepeatRow) }
    ensures unit { IfSome result (λ o. IfSome o (λ r. AllowsUnit form r.unit)) }
{
    if text.pass(b"null").is_some() {
        return Some(None);
    }
    text.pass(b"{")?;
    let repeat = some(form, text)?;
    Some(Some(repeat))
}
