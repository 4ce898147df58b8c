//! Groups of displays in JSON, and lists of a few ids.

ghost use Rattle.std.specs.Prelude.{◌≡◌, map, IfOk};
ghost use Rattle.std.specs.List.{AllByRecursion};
ghost use Rattle.serde_json.specs.View.{view};
ghost use Rattle.sg_rows.specs.Faults.{Gives};
ghost use Rattle.sg_edit_rows.specs.EditRows.{group_at, group_json, rise_from, few_at, AreFew};
ghost use Rattle.sg_rows.specs.Ids.{IsGroup};

use serde_json::{Value, json};
use sg_base::limits::MAX_FEW;
use sg_base::{GroupId, Rows};
use sg_rows::{Keyed, RowFault, part, read_list};
use std::alloc::{AllocError, Global};

/// Whether ids ascend, from 1 on.
fn rise<T: Keyed>(rows: &[T]) -> bool
    ensures { result ≡ rise_from 0 (map T.key rows.now) }
{
    let mut last = 0;
    for row in rows {
        let id = row.key();
        if id <= last {
            return false;
        }
        last = id;
    }
    true
}

/// Ids that ascend, no more than a display or an event may have.
pub(crate) fn read_few<T: Keyed>(alloc: Global, value: &Value) -> Result<Rows<T>, RowFault>
    ensures gives { Gives (λ ids. ids) result (few_at T.at T.key (view value.now)) }
    ensures sound { IfOk result (λ ids. AllByRecursion T.valid ids) }
    ensures few { IfOk result (AreFew T.key) }
{
    let ids = read_list(alloc, value)?;
    if ids.len() > MAX_FEW || !rise(ids.as_slice()) {
        return Err(RowFault::Shape);
    }
    Ok(Rows::from_vec(ids))
}

#[tactic(auto, unfolding(crate::specs::EditRows::group_at))]
pub(crate) fn read_group(value: &Value) -> Result<GroupId, RowFault>
    ensures gives { Gives (λ g. g) result (group_at (view value.now)) }
    ensures sound { IfOk result IsGroup }
{
    part::exactly(value, 1)?;
    let id = part::id(value, "id")?;
    Ok(GroupId(id))
}

pub(crate) fn write_group(alloc: Global, group: GroupId) -> Result<Value, AllocError>
    ensures { IfOk result (λ v. view v ≡ group_json group) }
{
    json!(in alloc; {"id": group.0})
}
