//! The body of an edit.

ghost use Rattle.std.specs.Prelude.{◌≡◌};
ghost use Rattle.serde_json.specs.View.{view};
ghost use Rattle.sg_bodies.specs.Bodies.{edit_body_in, edit_parts};
ghost use Rattle.sg_rows.specs.Faults.{Gives};

use serde_json::Value;
use sg_rows::{RowFault, part};

/// Whose edit it is, which number it has, and the edit itself as JSON.
#[derive(Clone, Copy)]
pub struct EditBody<'v> {
    pub client: u32,
    pub seq: u32,
    pub edit: &'v Value,
}

/// What the JSON of an edit's body says. It takes no memory: the fault is always of the form.
#[tactic(auto, unfolding(crate::specs::Bodies::edit_body_in))]
pub fn read_edit_body(value: &Value) -> Result<EditBody<'_>, RowFault>
    ensures { Gives (λ body. edit_parts body.client body.seq (view body.edit.now)) result
        (edit_body_in (view value.now)) }
{
    part::exactly(value, 3)?;
    let client = part::id(value, "client")?;
    let seq = part::id(value, "seq")?;
    let edit = part::member(value, "edit")?;
    Ok(EditBody { client, seq, edit })
}
