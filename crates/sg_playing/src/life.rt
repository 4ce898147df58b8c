// The plays of a whole life.
ghost use Rattle.std.specs.Prelude.{◌≡◌, ℕ, ◌++◌, List, All, IfOk, OnOk, sum_by};
ghost use Rattle.sg_playing.specs.Plays.{IsNamed, ahead, plays_of};
ghost use Rattle.sg_playing.specs.Seconds.{IsForward, IsInOrder, seconds_for, shown_seconds};

use crate::playing::Playing;
use crate::slot::ShownSlot;
use sg_base::{Moment, PlayBody};
use std::alloc::{AllocError, Global};

/// One turn: its moment, and the slot that it shows, if there is one.
#[derive(Clone, Copy, Debug, PartialEq, Eq)]
pub struct Turn {
    pub moment: Moment,
    pub slot: Option<ShownSlot>,
}

/// The plays of a life whose turns these are, to its end.
pub fn plays_of(alloc: Global, turns: &[Turn]) -> Result<Vec<PlayBody>, AllocError>
    requires { All (λ t. IsNamed t.slot) turns.now }
    ensures plays { IfOk result (λ plays. plays.items ≡ plays_of turns.now) }

    // For each event and layout they have as many seconds as the clock went on while this was shown.
    ensures seconds { IfOk result (λ plays. (event layout : ℕ)
        → sum_by (seconds_for event layout) plays.items ≡ shown_seconds event layout turns.now) }

    // Where the clock never goes back, none begins before the one ahead of it has ended.
    ensures order { IfOk result (λ plays. IsForward turns.now → IsInOrder plays.items) }
{
    let mut playing = Playing::new();
    let mut plays = Vec::new(alloc);
    for turn in turns {
        keep(&mut plays, playing.show(turn.moment, &turn.slot))?;
    }
    keep(&mut plays, playing.close())?;
    Ok(plays)
}

// Puts a play after the others, if there is one.
fn keep(plays: &mut Vec<PlayBody>, play: Option<PlayBody>) -> Result<(), AllocError>
    ensures { OnOk result ((rest : List PlayBody)
        → plays.new.items ++ rest ≡ plays.old.items ++ ahead play rest) }
{
    if let Some(play) = play {
        plays.push(play)?;
    }
    Ok(())
}
