//! Ids of groups and displays in JSON, as the rows of edits have them in lists.

ghost use Rattle.std.specs.Prelude.{◌≡◌};

use crate::entry::{Entry, Keyed};
use crate::fault::RowFault;
use crate::out::TextOut;
use crate::part;
use crate::writing::put_number;
use serde_json::Value;
use sg_base::{DisplayId, GroupId};
use std::alloc::{AllocError, Global};

#[tactic(auto, unfolding(crate::specs::Ids::group_id_at))]
impl Entry for GroupId {
    ghost use Rattle.sg_rows.specs.Ids.{group_id_json, group_id_at, IsGroup};

    ghost json = { group_id_json };

    ghost at = { group_id_at };

    ghost valid = { IsGroup };

    fn write(&self, _alloc: Global) -> Result<Value, AllocError> {
        Ok(Value::from(self.0))
    }

    fn read(_alloc: Global, value: &Value) -> Result<GroupId, RowFault> {
        let id = part::whole_id(value)?;
        Ok(GroupId(id))
    }

    fn put<O: TextOut>(&self, out: &mut O) -> Result<(), O::Error> {
        put_number(out, b"", self.0)
    }
}

impl Keyed for GroupId {
    ghost key = { λ g. g.0 };

    fn key(&self) -> u32 {
        self.0
    }
}

#[tactic(auto, unfolding(crate::specs::Ids::display_id_at))]
impl Entry for DisplayId {
    ghost use Rattle.sg_rows.specs.Ids.{display_id_json, display_id_at, IsDisplayId};

    ghost json = { display_id_json };

    ghost at = { display_id_at };

    ghost valid = { IsDisplayId };

    fn write(&self, _alloc: Global) -> Result<Value, AllocError> {
        Ok(Value::from(self.0))
    }

    fn read(_alloc: Global, value: &Value) -> Result<DisplayId, RowFault> {
        let id = part::whole_id(value)?;
        Ok(DisplayId(id))
    }

    fn put<O: TextOut>(&self, out: &mut O) -> Result<(), O::Error> {
        put_number(out, b"", self.0)
    }
}

impl Keyed for DisplayId {
    ghost key = { λ d. d.0 };

    fn key(&self) -> u32 {
        self.0
    }
}
