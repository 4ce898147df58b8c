//! Lines of the report.

ghost use Rattle.std.specs.Prelude.{◌≡◌, OnOk};
ghost use Rattle.sg_report.specs.Counting.{CanAdd, with_play};
ghost use Rattle.sg_base.specs.Ranks.{rank_of};
ghost use Rattle.sg_report.specs.Lines.{pair, pair_of};
ghost use Rattle.sg_report.specs.Plays.{IsKept};

use crate::kept::KeptPlay;
use sg_base::{Rank, Ranked, Sorted};
use std::alloc::AllocError;

/// What a display played of a layout.
#[derive(Clone, Copy, Debug, PartialEq, Eq)]
pub struct Line {
    pub display: u32,
    pub layout: u32,
    /// How many plays there are.
    pub count: u64,
    /// How many seconds they lasted together. A u64 can't hold what all plays of a display may last.
    pub seconds: u128,
}

impl Ranked for Line {
    ghost rank = { pair_of };

    fn rank(&self) -> Rank {
        pair_rank(self.display, self.layout)
    }
}

impl Line {
    ghost use Rattle.std.specs.Prelude.{◌≡◌, None, Some};
    ghost use Rattle.sg_report.specs.Counting.{HasRoom, more_of};
    ghost use Rattle.sg_report.specs.Plays.{IsKept};

    // The line of one play.
    fn of(play: &KeptPlay) -> Line
        requires { IsKept play.now }
        ensures { result ≡ more_of play.now None }
    {
        Line {
            display: play.display,
            layout: play.play.layout,
            count: 1,
            seconds: u128::from(play.seconds()),
        }
    }

    // The line with one play more.
    fn with(&self, play: &KeptPlay) -> Line
        requires kept { IsKept play.now }
        requires room { HasRoom self.now }
        ensures { result ≡ more_of play.now (Some self.now) }
    {
        Line {
            display: self.display,
            layout: self.layout,
            count: self.count + 1,
            seconds: self.seconds + u128::from(play.seconds()),
        }
    }
}

// The rank of the line of a display and a layout.
fn pair_rank(display: u32, layout: u32) -> Rank
    ensures { rank_of result ≡ pair display layout }
{
    Rank {
        high: 0,
        low: (u128::from(display) << 32) + u128::from(layout),
    }
}

/// Adds a play to the line of its display and its layout.
pub(crate) fn add_play(lines: &mut Sorted<Line>, play: &KeptPlay) -> Result<(), AllocError>
    requires kept { IsKept play.now }
    requires room { CanAdd play.now lines.old.items }
    ensures { OnOk result (lines.new.items ≡ with_play play.now lines.old.items) }
{
    match lines.find(pair_rank(play.display, play.play.layout)) {
        Some(line) => {
            let more = line.with(play);
            lines.replace(more);
            Ok(())
        }
        None => {
            lines.reserve(1)?;
            lines.put(Line::of(play));
            Ok(())
        }
    }
}
