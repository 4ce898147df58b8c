//! What bodies ask.

ghost use Rattle.std.specs.Prelude.{◌≡◌, ◌≤◌, IfErr, IfOk, length};
ghost use Rattle.sg_answers.specs.Calls.{MakeEdit, Refuse, TakePlays, edit_in, plays_in};
ghost use Rattle.sg_base.specs.declared.ids.DisplayId.{DisplayId};
ghost use Rattle.sg_base.specs.declared.limits.TheConstants.{BATCH_PLAYS};
ghost use Rattle.sg_bodies.specs.Bodies.{json_at};
ghost use Rattle.sg_bodies.specs.declared.body.BodyFault.TheVariants.{Body};
ghost use Rattle.sg_replies.specs.declared.refusal.Refusal.TheVariants as refusal;
ghost use Rattle.sg_steps.specs.Edits.{IsEdit};

use sg_bodies::{BodyFault, PlaysBody, read_edit_body, read_json, read_plays_body};
use sg_steps::{Edit, read_edit};
use std::alloc::Global;

/// An edit, with its client and its number.
#[derive(Drop)]
pub(crate) struct EditCall {
    pub client: u32,
    pub seq: u32,
    pub edit: Edit,
}

/// The edit that a body asks for.
pub(crate) fn read_edit_call(alloc: Global, bytes: &[u8]) -> Result<EditCall, BodyFault>
    ensures call { IfOk result (λ e. edit_in (json_at bytes.now) ≡ MakeEdit e.client e.seq e.edit) }
    ensures valid { IfOk result (λ e. IsEdit e.edit) }
    ensures refused { IfErr result (λ fault. fault ≡ Body → edit_in (json_at bytes.now) ≡ Refuse refusal.Body) }
{
    let value = read_json(alloc, bytes)?;
    let body = read_edit_body(&value)?;
    match read_edit(alloc, body.edit) {
        Ok(edit) => Ok(EditCall {
            client: body.client,
            seq: body.seq,
            edit,
        }),
        Err(_) => Err(BodyFault::Memory),
    }
}

/// The batch of plays that a body asks for.
pub(crate) fn read_plays_call(alloc: Global, bytes: &[u8]) -> Result<PlaysBody, BodyFault>
    ensures call { (display : DisplayId) → IfOk result (λ p.
        plays_in display (json_at bytes.now) ≡ TakePlays display p.epoch p.first p.plays) }
    ensures few { IfOk result (λ p. length p.plays ≤ BATCH_PLAYS) }
    ensures refused { (display : DisplayId) → IfErr result (λ fault. fault ≡ Body →
        plays_in display (json_at bytes.now) ≡ Refuse refusal.Body) }
{
    let value = read_json(alloc, bytes)?;
    let body = read_plays_body(alloc, &value)?;
    Ok(body)
}
