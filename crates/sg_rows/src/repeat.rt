//! Repeats of events in JSON.

ghost use Rattle.std.specs.Prelude.{◌≡◌, ◌==◌, ◌-◌, ◌/◌, ◌%◌, ◌^◌, ◌<◌, ◌≤◌, ◌++◌, List, ℕ, false, map, IfOk, OnOk, IfSome};
ghost use Rattle.json.specs.Print.{escape};
ghost use Rattle.serde_json.specs.Data.{Items};
ghost use Rattle.serde_json.specs.View.{view, items_of};
ghost use Rattle.sg_base.specs.Repeat.{IsRepeat};
ghost use Rattle.sg_rows.specs.Text.{list_of, whole, weekdays, unit_text, until_json, repeat_json};
ghost use Rattle.sg_rows.specs.Written.{Takes, text_before, items_before, with_chosen};
ghost use Rattle.sg_rows.specs.Faults.{Gives};
ghost use Rattle.sg_rows.specs.Parts.{number_at, nullable_at};
ghost use Rattle.sg_rows.specs.Rows.{IsRepeatRow};
ghost use Rattle.sg_rows.specs.Reading.{with_weekday, days_at, unit_at, unit_of, repeat_at, made_repeat};
ghost use Rattle.sg_rows.specs.Forms.{is_later_repeat};

use crate::entry::{Entry, write_list};
use crate::fault::RowFault;
use crate::out::TextOut;
use crate::part;
use crate::writing::{put_item, put_number};
use serde_json::{Value, json};
use sg_base::{Repeat, Unit};
use std::alloc::{AllocError, Global};
use std::marker::Model;

/// The bits of the weekdays, Monday first.
const WEEKDAY_BITS: [u8; 7] = [1, 2, 4, 8, 16, 32, 64];

/// The bit of a weekday, 1 (Monday) to 7 (Sunday).
#[tactic(auto, using(crate::proofs::DayLemmas::bit_at, crate::proofs::DayLemmas::bit_low))]
fn weekday_bit(weekday: u32) -> u8
    requires some { 1 ≤ weekday }
    requires few { weekday ≤ 7 }
    ensures value { result ≡ 2 ^ (weekday - 1) }
    ensures few { result ≤ 64 }
{
    WEEKDAY_BITS[weekday as usize - 1]
}

/// The bits of some weekdays and of a later one.
fn with_weekday(bits: u8, weekday: u32) -> Result<u8, RowFault>
    requires { bits < 2 ^ 7 }
    ensures gives { Gives (λ n. n) result (with_weekday bits weekday) }
    ensures few { IfOk result (λ n. n < 2 ^ 7) }
{
    if weekday < 1 || weekday > 7 {
        return Err(RowFault::Shape);
    }
    let bit = weekday_bit(weekday);
    if bits < bit {
        Ok(bits + bit)
    } else {
        Err(RowFault::Shape)
    }
}

/// The bits of weekdays that ascend.
fn read_days(value: &Value) -> Result<u8, RowFault>
    ensures gives { Gives (λ n. n) result (days_at (view value.now)) }
    ensures few { IfOk result (λ n. n < 2 ^ 7) }
{
    let mut bits = 0;
    for item in part::items(value)? {
        bits = with_weekday(bits, part::whole(item)?)?;
    }
    Ok(bits)
}

/// Whether bits have that of a weekday.
fn is_chosen(days: u8, weekday: u32) -> bool
    requires some { 1 ≤ weekday }
    requires few { weekday ≤ 7 }
    ensures { result ≡ (days / 2 ^ (weekday - 1) % 2 == 1) }
{
    days / weekday_bit(weekday) % 2 == 1
}

/// The weekdays of bits, by their numbers.
fn weekdays_of(alloc: Global, days: u8) -> Result<Vec<u32>, AllocError>
    ensures { IfOk result (λ chosen. chosen.items ≡ weekdays days) }
{
    let mut chosen = Vec::new(alloc);
    for weekday in 1..8u32 {
        if is_chosen(days, weekday) {
            chosen.push(weekday)?;
        }
    }
    Ok(chosen)
}

impl Entry for u32 {
    ghost use Rattle.std.specs.Prelude.{◌^◌, ◌<◌};
    ghost use Rattle.sg_rows.specs.Text.{whole};
    ghost use Rattle.sg_rows.specs.Parts.{number_at};

    ghost json = { whole };

    ghost at = { number_at };

    ghost valid = { λ n. n < 2 ^ 32 };

    fn write(&self, _alloc: Global) -> Result<Value, AllocError> {
        Ok(Value::from(*self))
    }

    fn read(_alloc: Global, value: &Value) -> Result<u32, RowFault> {
        part::whole(value)
    }

    fn put<O: TextOut>(&self, out: &mut O) -> Result<(), O::Error> {
        put_number(out, b"", *self)
    }
}

fn write_days(alloc: Global, days: u8) -> Result<Value, AllocError>
    ensures { IfOk result (λ v. view v ≡ list_of whole (weekdays days)) }
{
    let chosen = weekdays_of(alloc, days)?;
    write_list(alloc, chosen.as_slice())
}

fn unit_name(unit: Unit) -> &'static str
    ensures { result.now ≡ unit_text unit }
{
    match unit {
        Unit::Hour => "hour",
        Unit::Day => "day",
        Unit::Week => "week",
        Unit::Month => "month",
        Unit::MonthWeekday => "month-weekday",
        Unit::Year => "year",
    }
}

fn unit_of(name: &str) -> Option<Unit>
    ensures { result ≡ unit_of name.now }
{
    if name == "hour" {
        Some(Unit::Hour)
    } else if name == "day" {
        Some(Unit::Day)
    } else if name == "week" {
        Some(Unit::Week)
    } else if name == "month" {
        Some(Unit::Month)
    } else if name == "month-weekday" {
        Some(Unit::MonthWeekday)
    } else if name == "year" {
        Some(Unit::Year)
    } else {
        None
    }
}

fn read_unit(value: &Value) -> Result<Unit, RowFault>
    ensures { Gives (λ u. u) result (unit_at (view value.now)) }
{
    unit_of(part::text(value)?).ok_or(RowFault::Shape)
}

/// A day number, or null.
fn read_until(value: &Value) -> Result<Option<u32>, RowFault>
    ensures gives { Gives (λ o. o) result (nullable_at number_at (view value.now)) }
    ensures fits { IfOk result (λ o. IfSome o (λ day. day < 2 ^ 32)) }
{
    if value.is_null() {
        return Ok(None);
    }
    let day = part::whole(value)?;
    Ok(Some(day))
}

fn until_value(until: Option<u32>) -> Value
    ensures { view result ≡ until_json until }
{
    match until {
        None => Value::Null,
        Some(day) => Value::from(day),
    }
}

/// The values of a repeat, each of its form. Contracts see them as the repeat that they would make.
#[derive(Clone, Copy, Debug)]
pub(crate) struct RepeatParts {
    unit: Unit,
    every: u32,
    days: u8,
    until: Option<u32>,
}

impl Model for RepeatParts {
    ghost use Rattle.sg_base.specs.Repeat.{RepeatRow};

    ghost Value = { RepeatRow };

    ghost view = { λ r. record { unit = r.unit; every = r.every; days = r.days; until = r.until } };

    ghost inverse = { λ r. record { unit = r.unit; every = r.every; days = r.days; until = r.until } };
}

#[tactic(auto, unfolding(crate::specs::Reading::repeat_at))]
fn read_some(value: &Value) -> Result<RepeatParts, RowFault>
    ensures gives { Gives (λ r. r) result (repeat_at (view value.now)) }
    ensures sound { IfOk result IsRepeatRow }
{
    part::exactly(value, 4)?;
    let days = read_days(part::member(value, "days")?)?;
    let every = part::number(value, "every")?;
    let unit = read_unit(part::member(value, "unit")?)?;
    let until = read_until(part::member(value, "until")?)?;
    Ok(RepeatParts {
        unit,
        every,
        days,
        until,
    })
}

/// How an event repeats, or null. It is of its form, and may have a fault of its own yet.
pub(crate) fn read_repeat(value: &Value) -> Result<Option<RepeatParts>, RowFault>
    ensures gives { Gives (λ o. o) result (nullable_at repeat_at (view value.now)) }
    ensures sound { IfOk result (λ o. IfSome o IsRepeatRow) }
{
    if value.is_null() {
        return Ok(None);
    }
    let repeat = read_some(value)?;
    Ok(Some(repeat))
}

/// The repeat that values make.
pub(crate) fn made_repeat(parts: Option<RepeatParts>) -> Result<Option<Repeat>, RowFault>
    requires { IfSome parts IsRepeatRow }
    ensures gives { Gives (λ o. o) result (made_repeat parts) }
    ensures sound { IfOk result (λ o. IfSome o IsRepeatRow) }
    ensures accepted { IfOk result (λ o. IfSome o IsRepeat) }
    ensures same { IfOk result (λ o. o ≡ parts) }
{
    match parts {
        None => Ok(None),
        Some(r) => match Repeat::new(r.unit, r.every, r.days, r.until) {
            Ok(repeat) => Ok(Some(repeat)),
            Err(fault) => Err(RowFault::Repeat(fault)),
        },
    }
}

/// Whether a repeat is by the weekday of the month, which version 1 hasn't.
pub(crate) fn is_later(value: &Value) -> bool
    ensures { result ≡ is_later_repeat (view value.now) }
{
    match value.get("unit") {
        Some(unit) => match unit.as_str() {
            Some(name) => name == "month-weekday",
            None => false,
        },
        None => false,
    }
}

/// How an event repeats, as JSON, or null.
pub fn write_repeat(alloc: Global, repeat: &Option<Repeat>) -> Result<Value, AllocError>
    ensures { IfOk result (λ v. view v ≡ repeat_json repeat.now) }
{
    match repeat {
        None => Ok(Value::Null),
        Some(repeat) => {
            let days = write_days(alloc, repeat.days())?;
            let unit = unit_name(repeat.unit());
            let until = until_value(repeat.until());
            json!(in alloc; {"days": days, "every": repeat.every(), "unit": unit, "until": until})
        }
    }
}

/// Writes a weekday where bits have it, behind a comma if another was written. The answer is whether one was by now.
fn put_weekday<O: TextOut>(
    out: &mut O,
    days: u8,
    weekday: u32,
    later: bool,
) -> Result<bool, O::Error>
    requires some { 1 ≤ weekday }
    requires few { weekday ≤ 7 }
    ensures { IfOk result (λ more. (ds : Items) (rest : List ℕ) →
        O.after out.new (items_before more ds rest)
        ≡ O.after out.old (items_before later (with_chosen days weekday ds) rest)) }
{
    if is_chosen(days, weekday) {
        put_item(out, later, &weekday)?;
        Ok(true)
    } else {
        Ok(later)
    }
}

/// Writes a piece, which opens a list, and the weekdays of bits.
fn put_days<O: TextOut>(out: &mut O, piece: &[u8], days: u8) -> Result<(), O::Error>
    ensures { OnOk result (Takes O.after out.old out.new
        (λ rest. piece.now ++ items_before false (items_of (map whole (weekdays days))) rest)) }
{
    out.put(piece)?;
    let mut later = false;
    for weekday in 1..8u32 {
        later = put_weekday(out, days, weekday, later)?;
    }
    out.put(b"]")
}

fn put_until<O: TextOut>(out: &mut O, until: Option<u32>) -> Result<(), O::Error>
    ensures { OnOk result (Takes O.after out.old out.new (text_before (until_json until))) }
{
    match until {
        None => out.put(b"null"),
        Some(day) => put_number(out, b"", day),
    }
}

#[tactic(auto, using(crate::proofs::WrittenLemmas::unit_plain))]
fn put_unit<O: TextOut>(out: &mut O, unit: Unit) -> Result<(), O::Error>
    ensures { OnOk result (Takes O.after out.old out.new (λ rest. escape (unit_text unit) ++ rest)) }
{
    out.put(unit_name(unit).as_bytes())
}

/// Writes how an event repeats, or null.
#[tactic(auto, unfolding(json::specs::Print::escape_byte))]
pub(crate) fn put_repeat<O: TextOut>(out: &mut O, repeat: &Option<Repeat>) -> Result<(), O::Error>
    ensures { OnOk result (Takes O.after out.old out.new (text_before (repeat_json repeat.now))) }
{
    let Some(repeat) = repeat else {
        return out.put(b"null");
    };
    put_days(out, b"{\"days\":[", repeat.days())?;
    put_number(out, b",\"every\":", repeat.every())?;
    out.put(b",\"unit\":\"")?;
    put_unit(out, repeat.unit())?;
    out.put(b"\",\"until\":")?;
    put_until(out, repeat.until())?;
    out.put(b"}")
}
