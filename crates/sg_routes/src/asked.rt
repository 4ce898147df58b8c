//! What a message asks for.

ghost use Rattle.std.specs.Prelude.{◌≡◌};
ghost use Rattle.sg_routes.specs.Asked.{ask, asked_at, decimal_in, id_at, moment_at, offset_at};
ghost use Rattle.sg_routes.specs.Paths.{segments};

use crate::route::{Route, route_of};
use crate::segments::segment;
use sg_base::limits::LAST_MOMENT;
use sg_base::{DisplayId, MediaId, Moment};
use sg_http::{Verb, number};

/// What a message asks for, by its method and its target.
#[derive(Clone, Copy, Debug, PartialEq, Eq)]
pub enum Asked {
    /// To make an edit.
    Edits,
    /// To take a piece of a medium, which begins at this byte of it.
    Piece {
        media: MediaId,
        offset: u32,
    },
    /// For the plays that began at one moment or after it and before another.
    Report {
        from: Moment,
        to: Moment,
    },
    /// For the display's next epoch.
    Enrol(DisplayId),
    /// For the display's manifest.
    Manifest(DisplayId),
    /// For a piece of a file of the display, from this byte of it on.
    File {
        display: DisplayId,
        media: MediaId,
        offset: u32,
    },
    /// To take plays of the display.
    Plays(DisplayId),
}

/// Why a message asks for nothing that there is.
#[derive(Clone, Copy, Debug, PartialEq, Eq)]
pub enum RouteFault {
    /// There is no such path.
    Path,
    /// The path takes another method: this one.
    Method(Verb),
}

/// What a message asks for.
pub fn ask(verb: Verb, target: &[u8]) -> Result<Asked, RouteFault>
    ensures { result ≡ ask verb target.now }
{
    if target.contains(&b'?') {
        return Err(RouteFault::Path);
    }
    match route_of(target) {
        None => Err(RouteFault::Path),
        Some(route) => if route.verb() != verb {
            Err(RouteFault::Method(route.verb()))
        } else {
            asked_at(route, target).ok_or(RouteFault::Path)
        },
    }
}

// What a path of a route asks for, if its parameters are numbers in their ranges.
fn asked_at(route: Route, target: &[u8]) -> Option<Asked>
    ensures { result ≡ asked_at route (segments target.now) }
{
    match route {
        Route::Edits => Some(Asked::Edits),
        Route::Media => {
            let media = id_at(target, 2)?;
            let offset = offset_at(target, 3)?;
            Some(Asked::Piece {
                media: MediaId(media),
                offset,
            })
        }
        Route::Report => {
            let from = moment_at(target, 3)?;
            let to = moment_at(target, 4)?;
            Some(Asked::Report { from, to })
        }
        Route::Enrol => {
            let display = id_at(target, 2)?;
            Some(Asked::Enrol(DisplayId(display)))
        }
        Route::Manifest => {
            let display = id_at(target, 2)?;
            Some(Asked::Manifest(DisplayId(display)))
        }
        Route::File => {
            let display = id_at(target, 2)?;
            let media = id_at(target, 4)?;
            let offset = offset_at(target, 5)?;
            Some(Asked::File {
                display: DisplayId(display),
                media: MediaId(media),
                offset,
            })
        }
        Route::Plays => {
            let display = id_at(target, 2)?;
            Some(Asked::Plays(DisplayId(display)))
        }
    }
}

fn id_at(target: &[u8], index: usize) -> Option<u32>
    ensures { result ≡ id_at index (segments target.now) }
{
    decimal_in(segment(target, index), 1, u32::MAX)
}

fn offset_at(target: &[u8], index: usize) -> Option<u32>
    ensures { result ≡ offset_at index (segments target.now) }
{
    decimal_in(segment(target, index), 0, u32::MAX)
}

fn moment_at(target: &[u8], index: usize) -> Option<Moment>
    ensures { result ≡ moment_at index (segments target.now) }
{
    match decimal_in(segment(target, index), 0, LAST_MOMENT) {
        None => None,
        Some(seconds) => Moment::new(seconds),
    }
}

// The decimal number of a range that a text is, without a sign and without leading zeros.
fn decimal_in(text: &[u8], low: u32, high: u32) -> Option<u32>
    ensures { result ≡ decimal_in low high text.now }
{
    let value = number(text, 1 << 32)?;
    if text.len() > 1 && text[0] == b'0' {
        return None;
    }
    if value < u64::from(low) || value > u64::from(high) {
        return None;
    }
    Some(value as u32)
}
