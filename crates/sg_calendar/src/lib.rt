//! The calendar of a schedule: the local second of a moment, the dates and starts of an event, and the
//! windows of a daypart.
//!
//! Local seconds are counted from the local midnight that begins 1970-01-01, dates are day numbers with
//! day 0 on 1970-01-01, and weekdays go from 1 (Monday) to 7 (Sunday). Callers see a zone as what its rule
//! says (`specs/Zone.antt`). Dates and starts are defined in `specs/Dates.antt` over the civil dates of
//! `specs/Civil.antt`, and windows in `specs/Windows.antt`. `Nearest`, `Turns` and `ZoneKind` are for private
//! clauses.
#![tactic(auto)]

pub use dates::{next_date, on_date};
pub use starts::{latest_start, next_start};
pub use windows::{FIRST_WINDOW, window};
pub use zone::{Zone, ZoneFault};

mod civil;
mod dates;
mod nearest;
mod periods;
mod starts;
mod windows;
mod zone;
