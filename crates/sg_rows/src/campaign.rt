//! Campaigns in JSON.

ghost use Rattle.std.specs.Prelude.{◌≡◌, ◌≤◌, length, IfOk};
ghost use Rattle.std.specs.List.{AllByRecursion};
ghost use Rattle.sg_rows.specs.Rows.{IsLayoutId};
ghost use Rattle.sg_rows.specs.Faults.{Gives};
ghost use Rattle.sg_rows.specs.Reading.{some_layouts};

use crate::entry::{Entry, read_list, write_list};
use crate::fault::RowFault;
use crate::form::RowForm;
use crate::out::TextOut;
use crate::part;
use crate::row::ManifestRow;
use crate::writing::{put_list, put_number};
use serde_json::{Value, json};
use sg_base::limits::MAX_CAMPAIGN_LAYOUTS;
use sg_base::{Campaign, CampaignId, LayoutId, Rows};
use std::alloc::{AllocError, Global};

#[tactic(auto, unfolding(crate::specs::Reading::layout_id_at))]
impl Entry for LayoutId {
    ghost use Rattle.sg_rows.specs.Text.{layout_id_json};
    ghost use Rattle.sg_rows.specs.Reading.{layout_id_at};
    ghost use Rattle.sg_rows.specs.Rows.{IsLayoutId};

    ghost json = { layout_id_json };

    ghost at = { layout_id_at };

    ghost valid = { IsLayoutId };

    fn write(&self, _alloc: Global) -> Result<Value, AllocError> {
        Ok(Value::from(self.0))
    }

    fn read(_alloc: Global, value: &Value) -> Result<LayoutId, RowFault> {
        let id = part::whole_id(value)?;
        Ok(LayoutId(id))
    }

    fn put<O: TextOut>(&self, out: &mut O) -> Result<(), O::Error> {
        put_number(out, b"", self.0)
    }
}

/// At least one layout, and no more than a campaign may have.
fn some_layouts(layouts: Vec<LayoutId>) -> Result<Rows<LayoutId>, RowFault>
    requires { AllByRecursion IsLayoutId layouts.items }
    ensures gives { Gives (λ ls. ls) result (some_layouts layouts.items) }
    ensures some { IfOk result (λ ls. 1 ≤ length ls) }
    ensures few { IfOk result (λ ls. length ls ≤ MAX_CAMPAIGN_LAYOUTS) }
    ensures sound { IfOk result (λ ls. AllByRecursion IsLayoutId ls) }
{
    if layouts.is_empty() || layouts.len() > MAX_CAMPAIGN_LAYOUTS {
        return Err(RowFault::Shape);
    }
    Ok(Rows::from_vec(layouts))
}

#[tactic(auto, unfolding(crate::specs::Reading::campaign_at))]
impl ManifestRow for Campaign {
    ghost use Rattle.sg_rows.specs.Text.{campaign_json};
    ghost use Rattle.sg_rows.specs.Reading.{campaign_at};
    ghost use Rattle.sg_rows.specs.Rows.{IsCampaignRow};

    ghost json = { λ _. campaign_json };

    ghost at = { λ _. campaign_at };

    ghost valid = { λ _. IsCampaignRow };

    ghost key = { λ c. c.id.0 };

    fn write(&self, alloc: Global, _form: RowForm) -> Result<Value, AllocError> {
        let layouts = write_list(alloc, self.layouts.as_slice())?;
        json!(in alloc; {"id": self.id.0, "layouts": layouts})
    }

    fn read(alloc: Global, _form: RowForm, value: &Value) -> Result<Campaign, RowFault> {
        part::exactly(value, 2)?;
        let id = part::id(value, "id")?;
        let layouts = some_layouts(read_list(alloc, part::member(value, "layouts")?)?)?;
        Ok(Campaign {
            id: CampaignId(id),
            layouts,
        })
    }

    fn key(&self) -> u32 {
        self.id.0
    }

    #[tactic(auto, unfolding(json::specs::Print::escape_byte))]
    fn put<O: TextOut>(&self, _form: RowForm, out: &mut O) -> Result<(), O::Error> {
        put_number(out, b"{\"id\":", self.id.0)?;
        put_list(out, b",\"layouts\":[", self.layouts.as_slice())?;
        out.put(b"}")
    }
}
