//! The edit that a line says.

ghost use Rattle.std.specs.Prelude.{◌≡◌, Some, None, MatchResult};
ghost use Rattle.serde_json.specs.View.{view};
ghost use Rattle.sg_steps.specs.Edits.{IsEdit};
ghost use Rattle.sg_edit_command.specs.Asking.{said_at, said_by};
ghost use Rattle.sg_edit_command.specs.Answering.{IsUnsaid};

use serde_json::Value;
use sg_bodies::{BodyFault, read_edit_body, read_json};
use sg_endings::Stop;
use sg_rows::RowFault;
use sg_steps::{Edit, read_edit};
use std::alloc::Global;

/// Whose edit it is, which number it has, and what it asks.
#[derive(Debug, Drop)]
pub struct Said {
    pub client: u32,
    pub seq: u32,
    pub edit: Edit,
}

/// The edit that a line says as the body of a message; the line has this number.
pub(crate) fn said_at(alloc: Global, line: &[u8], number: u64) -> Result<Said, Stop>
    ensures { MatchResult result
        (λ said. (said_at line.now ≡ Some said) × IsEdit said.edit)
        (λ stop. IsUnsaid stop number (said_at line.now)) }
{
    match read_json(alloc, line) {
        Ok(value) => said_by(alloc, &value, number),
        Err(BodyFault::Memory) => Err(Stop::Memory),
        Err(BodyFault::Body) => Err(Stop::Line(number)),
    }
}

// The edit that JSON says as the body of a message.
#[tactic(auto, using(crate::proofs::SayLemmas::not_said))]
fn said_by(alloc: Global, value: &Value, number: u64) -> Result<Said, Stop>
    ensures { MatchResult result
        (λ said. (said_by (Some (view value.now)) ≡ Some said) × IsEdit said.edit)
        (λ stop. IsUnsaid stop number (said_by (Some (view value.now)))) }
{
    match read_edit_body(value) {
        Ok(body) => match read_edit(alloc, body.edit) {
            Ok(edit) => Ok(Said {
                client: body.client,
                seq: body.seq,
                edit,
            }),
            Err(_) => Err(Stop::Memory),
        },
        Err(RowFault::Memory) => Err(Stop::Memory),
        Err(_) => Err(Stop::Line(number)),
    }
}
