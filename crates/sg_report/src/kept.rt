//! Plays as a keeper has them, read back from their rows.

ghost use Rattle.std.specs.Prelude.{◌≡◌, ◌<◌, ◌++◌, MatchOption, length};
ghost use Rattle.std.specs.Int.{w32, to_le_bytes};
ghost use Rattle.sg_base.specs.declared.play.PlayBody.{PlayBody};
ghost use Rattle.sg_records.specs.Numbers.{play_bytes};
ghost use Rattle.sg_report.specs.Counting.{BeginsWith};
ghost use Rattle.sg_report.specs.Plays.{IsPlay};

use sg_base::{Key, Moment, PlayBody};

/// A play that a keeper has.
#[derive(Clone, Copy, Debug, PartialEq, Eq)]
pub struct KeptPlay {
    pub display: u32,
    pub epoch: u32,
    /// Counted from 1 in the epoch.
    pub number: u32,
    pub play: PlayBody,
}

impl KeptPlay {
    ghost use Rattle.std.specs.Prelude.{◌≡◌, ◌<◌, ◌^◌};
    ghost use Rattle.sg_report.specs.Lines.{begins_within, seconds_of};
    ghost use Rattle.sg_report.specs.Plays.{IsKept, IsReadAs};

    /// The play that is kept under a key with these bytes. `None` if no play is kept so: the key isn't a play's, or there
    /// are more or fewer bytes than a play has, or they name no layout, no second, or a moment after 2099.
    pub fn read(key: Key, bytes: &[u8]) -> Option<KeptPlay>
        ensures { IsReadAs (key, bytes.now) result }
    {
        if key.kind != 10 || key.b == 0 || key.b > 4_294_967_295 {
            return None;
        }
        match play_in(bytes) {
            Some(play) => Some(KeptPlay {
                display: (key.a / 4_294_967_296) as u32,
                epoch: (key.a % 4_294_967_296) as u32,
                number: key.b as u32,
                play,
            }),
            None => None,
        }
    }

    /// How many seconds it lasted.
    pub(crate) fn seconds(&self) -> u32
        requires { IsKept self.now }
        ensures value { result ≡ seconds_of self.now }
        ensures fits { result < 2 ^ 32 }
    {
        self.play.to.seconds() - self.play.from.seconds()
    }

    /// Whether it began at one moment or later, and before another.
    pub(crate) fn begins_within(&self, from: Moment, to: Moment) -> bool
        ensures { result ≡ begins_within from to self.now.play }
    {
        from <= self.play.from && self.play.from < to
    }
}

// The play that a row's bytes say.
fn play_in(bytes: &[u8]) -> Option<PlayBody>
    ensures { MatchOption result
        ((p : PlayBody) → IsPlay p → play_bytes p ≡ bytes.now → ⊥)
        (λ p. IsPlay p × (play_bytes p ≡ bytes.now)) }
{
    let (event, rest) = word_in(bytes)?;
    let (layout, rest) = word_in(rest)?;
    let (from, rest) = word_in(rest)?;
    let (to, rest) = word_in(rest)?;
    if !rest.is_empty() {
        return None;
    }
    play_of(event, layout, from, to)
}

// The number that the first four bytes say, and the bytes after them.
fn word_in(bytes: &[u8]) -> Option<(u32, &[u8])>
    ensures { MatchOption result (length bytes.now < 4) (λ word. BeginsWith bytes.now word.0 word.1.now) }
{
    match bytes.split_first_chunk::<4>() {
        Some((digits, rest)) => Some((number_in(*digits), rest)),
        None => None,
    }
}

// The number that four bytes say.
fn number_in(digits: [u8; 4]) -> u32
    ensures { to_le_bytes w32 result ≡ digits }
{
    u32::from_le_bytes(digits)
}

// The play of these numbers, if there is one.
fn play_of(event: u32, layout: u32, from: u32, to: u32) -> Option<PlayBody>
    ensures { MatchOption result
        ((p : PlayBody) → IsPlay p → p.event ≡ event → p.layout ≡ layout → p.from ≡ from → p.to ≡ to → ⊥)
        (λ p. IsPlay p × (p.event ≡ event) × (p.layout ≡ layout) × (p.from ≡ from) × (p.to ≡ to)) }
{
    if layout == 0 || to <= from {
        return None;
    }
    match (Moment::new(from), Moment::new(to)) {
        (Some(from), Some(to)) => Some(PlayBody {
            event,
            layout,
            from,
            to,
        }),
        _ => None,
    }
}
