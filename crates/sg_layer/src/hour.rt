//! Where a local second stands in its hour.

ghost use Rattle.std.specs.Prelude.{◌≡◌, ◌<◌, ◌<ℤ◌, ◌≤ℤ◌};
ghost use Rattle.sg_base.specs.Seconds.{IsAskable};
ghost use Rattle.sg_layer.specs.Shown.{place_of};
ghost use Rattle.sg_layer.specs.Segment.{hour_end as hour_end_of};

use sg_base::LocalSec;
use sg_base::limits::{HOUR, LOCAL_END};

/// The second of its hour at which a local second stands, 0 to 3,599.
pub fn place_in_hour(t: LocalSec) -> u32
    ensures value { result ≡ place_of t }
    ensures hour { result < HOUR }
{
    t.second().rem_euclid(HOUR as i64) as u32
}

/// The local second at which the hour of another ends.
pub(crate) fn hour_end(t: LocalSec) -> LocalSec
    requires { IsAskable t }
    ensures value { result ≡ hour_end_of t }
    ensures later { t <ℤ result }
    ensures bound { result ≤ℤ LOCAL_END }
{
    LocalSec::new(t.second() - place_in_hour(t) as i64 + HOUR as i64)
}
