//! The body of a batch of plays.

ghost use Rattle.std.specs.Prelude.{◌≡◌};
ghost use Rattle.serde_json.specs.View.{view, items_view};
ghost use Rattle.sg_bodies.specs.Bodies.{batch_at, moment_at, play_at, play_of, plays_body_in, plays_parts};
ghost use Rattle.sg_rows.specs.Faults.{Gives};
ghost use Rattle.sg_rows.specs.Parts.{each_at};

use serde_json::Value;
use sg_base::limits::BATCH_PLAYS;
use sg_base::{Moment, PlayBody, Rows};
use sg_rows::{RowFault, part};
use std::alloc::Global;

/// The plays of an epoch, of which the first has this number.
#[derive(Debug, Drop)]
pub struct PlaysBody {
    pub epoch: u32,
    pub first: u32,
    pub plays: Rows<PlayBody>,
}

/// What the JSON of a batch's body says.
#[tactic(auto, unfolding(crate::specs::Bodies::plays_body_in))]
pub fn read_plays_body(alloc: Global, value: &Value) -> Result<PlaysBody, RowFault>
    ensures gives { Gives (λ body. plays_parts body.epoch body.first body.plays) result
        (plays_body_in (view value.now)) }
{
    part::exactly(value, 3)?;
    let epoch = part::id(value, "epoch")?;
    let first = part::id(value, "first")?;
    let plays = read_batch(alloc, part::member(value, "plays")?)?;
    Ok(PlaysBody {
        epoch,
        first,
        plays,
    })
}

// 1 to 64 plays.
#[tactic(auto, unfolding(crate::specs::Bodies::batch_at))]
fn read_batch(alloc: Global, value: &Value) -> Result<Rows<PlayBody>, RowFault>
    ensures gives { Gives (λ plays. plays) result (batch_at (view value.now)) }
{
    let items = part::items(value)?;
    if items.is_empty() {
        return Err(RowFault::Shape);
    }
    if items.len() > BATCH_PLAYS {
        return Err(RowFault::Shape);
    }
    match read_plays(alloc, items) {
        Ok(plays) => Ok(Rows::from_vec(plays)),
        Err(fault) => Err(fault),
    }
}

fn read_plays(alloc: Global, items: &[Value]) -> Result<Vec<PlayBody>, RowFault>
    ensures gives { Gives (λ plays. plays.items) result (each_at play_at (items_view items.now)) }
{
    let mut plays = Vec::new(alloc);
    for item in items {
        plays.push(read_play(item)?)?;
    }
    Ok(plays)
}

// A list of event, layout, begin and end.
#[tactic(auto, unfolding(crate::specs::Bodies::play_at))]
fn read_play(value: &Value) -> Result<PlayBody, RowFault>
    ensures gives { Gives (λ play. play) result (play_at (view value.now)) }
{
    let items = part::items(value)?;
    if items.len() != 4 {
        return Err(RowFault::Shape);
    }
    read_parts(&items[0], &items[1], &items[2], &items[3])
}

#[tactic(auto, unfolding(crate::specs::Bodies::play_of))]
fn read_parts(event: &Value, layout: &Value, from: &Value, to: &Value) -> Result<PlayBody, RowFault>
    ensures gives { Gives (λ play. play) result
        (play_of (view event.now) (view layout.now) (view from.now) (view to.now)) }
{
    let event = part::whole(event)?;
    let layout = part::whole_id(layout)?;
    let from = read_moment(from)?;
    let to = read_moment(to)?;
    if from.seconds() >= to.seconds() {
        return Err(RowFault::Shape);
    }
    Ok(PlayBody {
        event,
        layout,
        from,
        to,
    })
}

#[tactic(auto, unfolding(crate::specs::Bodies::moment_at))]
fn read_moment(value: &Value) -> Result<Moment, RowFault>
    ensures gives { Gives (λ moment. moment) result (moment_at (view value.now)) }
{
    match Moment::new(part::whole(value)?) {
        Some(moment) => Ok(moment),
        None => Err(RowFault::Shape),
    }
}
