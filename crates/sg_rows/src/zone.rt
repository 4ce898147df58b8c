//! Zone rules in JSON.

ghost use Rattle.std.specs.Prelude.{◌≡◌, ◌≤◌, ◌==◌, ◌||◌, ◌++◌, IfOk, OnOk, string_bytes};
ghost use Rattle.json.specs.Print.{escape, escape_byte};
ghost use Rattle.serde_json.specs.Data.{number};
ghost use Rattle.serde_json.specs.Find.{of_integer};
ghost use Rattle.serde_json.specs.View.{view};
ghost use Rattle.sg_rows.specs.Text.{zone_json};
ghost use Rattle.sg_rows.specs.Zone.{IsZone, ArePrintable};
ghost use Rattle.sg_rows.specs.Written.{Takes, text_before};
ghost use Rattle.sg_rows.specs.Faults.{Gives};
ghost use Rattle.sg_rows.specs.Parts.{text_at};
ghost use Rattle.sg_rows.specs.Reading.{rule_at, zone_at, telling};
ghost use Rattle.sg_calendar.specs.Zone.{zone_of};

use crate::fault::RowFault;
use crate::out::TextOut;
use crate::part;
use itoa::Buffer;
use serde_json::{Value, json};
use sg_base::{Rows, ZoneRule};
use sg_calendar::Zone;
use std::alloc::{AllocError, Global};

/// The bytes of a text.
fn text(alloc: Global, value: &Value) -> Result<Rows<u8>, RowFault>
    ensures { Gives (λ t. t) result (text_at (view value.now)) }
{
    let text = part::text(value)?;
    Ok(Rows::from_vec(text.as_bytes().to_vec(alloc)?))
}

fn rule(alloc: Global, value: &Value) -> Result<ZoneRule, RowFault>
    ensures { Gives (λ z. z) result (rule_at (view value.now)) }
{
    part::exactly(value, 1)?;
    if part::has(value, "offset") {
        let minutes = part::integer(value, "offset")?;
        Ok(ZoneRule::Offset(minutes))
    } else {
        let text = text(alloc, part::member(value, "posix")?)?;
        Ok(ZoneRule::Posix(text))
    }
}

/// The rule itself, where it tells a zone.
fn telling(rule: ZoneRule) -> Result<ZoneRule, RowFault>
    ensures gives { Gives (λ z. z) result (telling (zone_of rule) rule) }
    ensures sound { IfOk result IsZone }
{
    match Zone::read(&rule) {
        Ok(_) => Ok(rule),
        Err(fault) => Err(RowFault::Zone(fault)),
    }
}

/// A rule that tells a zone.
#[tactic(auto, unfolding(crate::specs::Reading::zone_at))]
pub fn read_zone(alloc: Global, value: &Value) -> Result<ZoneRule, RowFault>
    ensures gives { Gives (λ z. z) result (zone_at (view value.now)) }
    ensures sound { IfOk result IsZone }
{
    telling(rule(alloc, value)?)
}

/// A zone's rule, whose text is ASCII.
#[tactic(auto, using(crate::proofs::ZoneLemmas::utf8_of_zone))]
pub fn write_zone(alloc: Global, zone: &ZoneRule) -> Result<Value, AllocError>
    requires { IsZone zone.now }
    ensures { IfOk result (λ v. view v ≡ zone_json zone.now) }
{
    match zone {
        ZoneRule::Offset(minutes) => json!(in alloc; {"offset": *minutes}),
        ZoneRule::Posix(text) => match str::from_utf8(text.as_slice()) {
            Ok(text) => json!(in alloc; {"posix": text}),
            Err(_) => unreachable!(),
        },
    }
}

/// Whether a printable byte has a backslash before it in a text of JSON.
fn is_escaped(byte: u8) -> bool
    ensures { result ≡ ((byte == 34) || (byte == 92)) }
{
    byte == b'"' || byte == b'\\'
}

/// Writes a printable byte of ASCII as it stands in a text of JSON.
#[tactic(auto, using(crate::proofs::WrittenLemmas::escaped_byte, crate::proofs::WrittenLemmas::plain_byte))]
fn put_printable<O: TextOut>(out: &mut O, byte: u8) -> Result<(), O::Error>
    requires { 32 ≤ byte }
    ensures { OnOk result (Takes O.after out.old out.new (λ rest. escape_byte byte ++ rest)) }
{
    if is_escaped(byte) {
        out.put(&[b'\\', byte])
    } else {
        out.put(&[byte])
    }
}

fn put_text<O: TextOut>(out: &mut O, text: &[u8]) -> Result<(), O::Error>
    requires { ArePrintable text.now }
    ensures { OnOk result (Takes O.after out.old out.new (λ rest. escape text.now ++ rest)) }
{
    for byte in text {
        put_printable(out, *byte)?;
    }
    Ok(())
}

#[tactic(auto, using(crate::proofs::WrittenLemmas::integer_text))]
fn put_minutes<O: TextOut>(out: &mut O, minutes: i32) -> Result<(), O::Error>
    ensures { OnOk result (Takes O.after out.old out.new (text_before (number (of_integer minutes)))) }
{
    let mut digits = Buffer::new();
    out.put(digits.format(minutes).as_bytes())
}

/// Writes a zone's rule.
#[tactic(auto, using(crate::proofs::ZoneLemmas::printable_zone), unfolding(json::specs::Print::escape_byte))]
pub fn put_zone<O: TextOut>(out: &mut O, zone: &ZoneRule) -> Result<(), O::Error>
    requires { IsZone zone.now }
    ensures { OnOk result (Takes O.after out.old out.new (text_before (zone_json zone.now))) }
{
    match zone {
        ZoneRule::Offset(minutes) => {
            out.put(b"{\"offset\":")?;
            put_minutes(out, *minutes)?;
            out.put(b"}")
        }
        ZoneRule::Posix(text) => {
            out.put(b"{\"posix\":\"")?;
            put_text(out, text.as_slice())?;
            out.put(b"\"}")
        }
    }
}
