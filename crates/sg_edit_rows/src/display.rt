//! Displays in JSON.

ghost use Rattle.std.specs.Prelude.{◌≡◌, ◌<◌, IfOk, IsTrue};
ghost use Rattle.serde_json.specs.View.{view};
ghost use Rattle.sg_rows.specs.Faults.{Gives};
ghost use Rattle.sg_base.specs.Texts.{is_key};
ghost use Rattle.sg_edit_rows.specs.EditRows.{display_at, display_json, key_at, IsDisplay};

use crate::group::read_few;
use serde_json::{Value, json};
use sg_base::{DisplayId, DisplayRow, LayoutId, Rows, is_key};
use sg_rows::{RowFault, part, read_zone, write_list, write_zone};
use std::alloc::{AllocError, Global};

fn read_key(alloc: Global, value: &Value) -> Result<Rows<u8>, RowFault>
    ensures gives { Gives (λ key. key) result (key_at (view value.now)) }
    ensures sound { IfOk result (λ key. IsTrue (is_key key)) }
{
    let key = part::text(value)?.as_bytes();
    if !is_key(key) {
        return Err(RowFault::Shape);
    }
    Ok(Rows::from_vec(key.to_vec(alloc)?))
}

#[tactic(auto, unfolding(crate::specs::EditRows::display_at))]
pub(crate) fn read_display(alloc: Global, value: &Value) -> Result<DisplayRow, RowFault>
    ensures gives { Gives (λ d. d) result (display_at (view value.now)) }
    ensures sound { IfOk result IsDisplay }
{
    part::exactly(value, 5)?;
    let default = part::id(value, "default")?;
    let groups = read_few(alloc, part::member(value, "groups")?)?;
    let id = part::id(value, "id")?;
    let key = read_key(alloc, part::member(value, "key")?)?;
    let zone = read_zone(alloc, part::member(value, "zone")?)?;
    Ok(DisplayRow {
        id: DisplayId(id),
        default: LayoutId(default),
        groups,
        key,
        zone,
    })
}

/// The display as JSON. Its key is ASCII.
#[tactic(auto, using(sg_base::proofs::TextLemmas::utf8_of_key))]
pub(crate) fn write_display(alloc: Global, display: &DisplayRow) -> Result<Value, AllocError>
    requires { IsDisplay display.now }
    ensures { IfOk result (λ v. view v ≡ display_json display.now) }
{
    let groups = write_list(alloc, display.groups.as_slice())?;
    let zone = write_zone(alloc, &display.zone)?;
    match str::from_utf8(display.key.as_slice()) {
        Ok(key) => json!(in alloc; {
            "default": display.default.0,
            "groups": groups,
            "id": display.id.0,
            "key": key,
            "zone": zone
        }),
        Err(_) => unreachable!(),
    }
}
