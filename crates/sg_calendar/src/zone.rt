//! Zones: the local second of a moment.

ghost use Rattle.std.specs.Prelude.{◌≡◌, ◌≤◌, neg_ℤ, ◌≤ℤ◌, nat_le, ◌&&◌, MatchResult, IsOk, IfOk};
ghost use Rattle.std.specs.List.{list_all};

use jiff_core::Timestamp;
use jiff_tz::posix::TimeZone;
use sg_base::limits::{FIRST_LOCAL, LAST_MOMENT, MAX_OFFSET, MAX_ZONE_TEXT};
use sg_base::{LocalSec, Moment, ZoneRule};
use std::alloc::AllocError;
use std::marker::Model;
use thiserror::Error;

const NANOS_PER_SECOND: i128 = 1_000_000_000;

/// Why a rule tells no zone.
#[derive(Clone, Copy, Debug, PartialEq, Eq, Error)]
pub enum ZoneFault {
    #[error("an offset of {0} minutes is more than 14 hours")]
    OffsetRange(i32),
    #[error("the text is no POSIX time zone")]
    BadZone,
    #[error("out of memory")]
    Memory,
}

/// A zone, read from a rule. Contracts see what the rule says.
#[derive(Clone, Debug, Drop)]
pub struct Zone {
    kind: Kind,
}

#[derive(Clone, Debug, Drop)]
enum Kind {
    Fixed(i32),
    Rule(TimeZone),
}

impl Model for Zone {
    ghost use Rattle.sg_calendar.specs.Zone.{ZoneView};

    ghost Value = { ZoneView };

    ghost use Rattle.sg_calendar.specs.ZoneKind.{kind_view, IsInRange};

    ghost view = { λ z. kind_view z.kind };

    ghost invariant = { λ z. IsInRange z.kind };
}

impl Zone {
    ghost use Rattle.sg_base.specs.Seconds.{IsAskable};
    ghost use Rattle.sg_calendar.specs.Zone.{zone_of, local_at};

    /// Reads a rule. It is refused with `OffsetRange` where an offset has more than 840 minutes to either
    /// side, and with `BadZone` where a text has not 1 to 64 bytes, or a byte outside 0x20..=0x7E, or isn't
    /// a POSIX TZ text. A rule needs no memory, so `Memory` never comes.
    pub fn read(rule: &ZoneRule) -> Result<Zone, ZoneFault>
        ensures { MatchResult result
            (λ z. zone_of rule.now ≡ Ok z)
            (λ e. zone_of rule.now ≡ Err e) }
    {
        match rule {
            ZoneRule::Offset(minutes) => read_offset(*minutes),
            ZoneRule::Posix(text) => read_text(text.as_slice()),
        }
    }

    /// The local second of a moment. It needs no memory, so it is always `Ok`.
    pub fn local(&self, moment: Moment) -> Result<LocalSec, AllocError>
        ensures ok { IsOk result }
        ensures value { IfOk result (λ t. t ≡ local_at self.now moment) }
        ensures second { IfOk result IsAskable }
    {
        let seconds = moment.seconds();
        let ahead = match &self.kind {
            Kind::Fixed(minutes) => *minutes * 60,
            Kind::Rule(rule) => seconds_ahead(rule, seconds),
        };
        Ok(LocalSec::new(seconds as i64 + ahead as i64))
    }
}

ghost use Rattle.sg_calendar.specs.Zone.{zone_of, zone_of_text, is_text, offset_of};
ghost use Rattle.sg_base.specs.declared.zone.ZoneRule.TheVariants.{Offset as OffsetRule};
ghost use Rattle.jiff_tz.specs.PosixText.{tz_view};

fn read_offset(minutes: i32) -> Result<Zone, ZoneFault>
    ensures { MatchResult result
        (λ z. zone_of (OffsetRule minutes) ≡ Ok z)
        (λ e. zone_of (OffsetRule minutes) ≡ Err e) }
{
    if minutes < -MAX_OFFSET || minutes > MAX_OFFSET {
        return Err(ZoneFault::OffsetRange(minutes));
    }
    Ok(Zone {
        kind: Kind::Fixed(minutes),
    })
}

fn read_text(text: &[u8]) -> Result<Zone, ZoneFault>
    ensures { MatchResult result
        (λ z. zone_of_text text.now ≡ Ok z)
        (λ e. zone_of_text text.now ≡ Err e) }
{
    if !is_zone_text(text) {
        return Err(ZoneFault::BadZone);
    }
    match TimeZone::parse(text) {
        Ok(rule) => Ok(Zone {
            kind: Kind::Rule(rule),
        }),
        Err(_) => Err(ZoneFault::BadZone),
    }
}

// 1 to 64 printable bytes of ASCII.
fn is_zone_text(text: &[u8]) -> bool
    ensures { result ≡ is_text text.now }
{
    text.len() >= 1 && text.len() <= MAX_ZONE_TEXT && are_printable(text)
}

fn are_printable(text: &[u8]) -> bool
    ensures { result ≡ list_all (λ b. nat_le 32 b && nat_le b 126) text.now }
{
    text.iter().all(|b| *b >= 32 && *b <= 126)
}

// How far the rule's clock is ahead of UTC at a moment, in seconds.
fn seconds_ahead(rule: &TimeZone, moment: u32) -> i32
    requires { moment ≤ LAST_MOMENT }
    ensures value { result ≡ offset_of (tz_view rule.now) moment }
    ensures low { FIRST_LOCAL ≤ℤ result }
    ensures high { result ≤ℤ neg_ℤ FIRST_LOCAL }
{
    let instant = Timestamp {
        nanosecond: moment as i128 * NANOS_PER_SECOND,
    };
    rule.to_offset(instant).seconds
}
