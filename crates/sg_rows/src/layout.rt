//! Layouts in JSON: regions with their items.

ghost use Rattle.std.specs.Prelude.{◌≡◌};

use crate::entry::{Entry, read_list, write_list};
use crate::fault::RowFault;
use crate::form::RowForm;
use crate::out::TextOut;
use crate::part;
use crate::row::ManifestRow;
use crate::writing::{put_list, put_number};
use serde_json::{Value, json};
use sg_base::{Item, Layout, LayoutId, MediaId, Region, Rows};
use std::alloc::{AllocError, Global};

#[tactic(auto, unfolding(crate::specs::Reading::item_at))]
impl Entry for Item {
    ghost use Rattle.sg_rows.specs.Text.{item_json};
    ghost use Rattle.sg_rows.specs.Reading.{item_at};
    ghost use Rattle.sg_rows.specs.Rows.{IsItem};

    ghost json = { item_json };

    ghost at = { item_at };

    ghost valid = { IsItem };

    fn write(&self, alloc: Global) -> Result<Value, AllocError> {
        json!(in alloc; {"media": self.media.0, "seconds": self.seconds})
    }

    fn read(_alloc: Global, value: &Value) -> Result<Item, RowFault> {
        part::exactly(value, 2)?;
        let media = part::id(value, "media")?;
        let seconds = part::number(value, "seconds")?;
        Ok(Item {
            media: MediaId(media),
            seconds,
        })
    }

    #[tactic(auto, unfolding(json::specs::Print::escape_byte))]
    fn put<O: TextOut>(&self, out: &mut O) -> Result<(), O::Error> {
        put_number(out, b"{\"media\":", self.media.0)?;
        put_number(out, b",\"seconds\":", self.seconds)?;
        out.put(b"}")
    }
}

#[tactic(auto, unfolding(crate::specs::Reading::region_at))]
impl Entry for Region {
    ghost use Rattle.sg_rows.specs.Text.{region_json};
    ghost use Rattle.sg_rows.specs.Reading.{region_at};
    ghost use Rattle.sg_rows.specs.Rows.{IsRegion};

    ghost json = { region_json };

    ghost at = { region_at };

    ghost valid = { IsRegion };

    fn write(&self, alloc: Global) -> Result<Value, AllocError> {
        let items = write_list(alloc, self.items.as_slice())?;
        json!(in alloc; {"id": self.id, "items": items})
    }

    fn read(alloc: Global, value: &Value) -> Result<Region, RowFault> {
        part::exactly(value, 2)?;
        let id = part::id(value, "id")?;
        let items = read_list(alloc, part::member(value, "items")?)?;
        Ok(Region {
            id,
            items: Rows::from_vec(items),
        })
    }

    #[tactic(auto, unfolding(json::specs::Print::escape_byte))]
    fn put<O: TextOut>(&self, out: &mut O) -> Result<(), O::Error> {
        put_number(out, b"{\"id\":", self.id)?;
        put_list(out, b",\"items\":[", self.items.as_slice())?;
        out.put(b"}")
    }
}

#[tactic(auto, unfolding(crate::specs::Reading::layout_at), using(crate::proofs::RowLemmas::regions_have_ids))]
impl ManifestRow for Layout {
    ghost use Rattle.sg_rows.specs.Text.{layout_json};
    ghost use Rattle.sg_rows.specs.Reading.{layout_at};
    ghost use Rattle.sg_rows.specs.Rows.{IsLayoutRow};

    ghost json = { λ _. layout_json };

    ghost at = { λ _. layout_at };

    ghost valid = { λ _. IsLayoutRow };

    ghost key = { λ l. l.id.0 };

    fn write(&self, alloc: Global, _form: RowForm) -> Result<Value, AllocError> {
        let regions = write_list(alloc, self.regions())?;
        json!(in alloc; {"id": self.id().0, "regions": regions})
    }

    fn read(alloc: Global, _form: RowForm, value: &Value) -> Result<Layout, RowFault> {
        part::exactly(value, 2)?;
        let id = part::id(value, "id")?;
        let regions = read_list(alloc, part::member(value, "regions")?)?;
        match Layout::new(LayoutId(id), regions) {
            Ok(layout) => Ok(layout),
            Err(fault) => Err(RowFault::Layout(fault)),
        }
    }

    fn key(&self) -> u32 {
        self.id().0
    }

    #[tactic(auto, unfolding(json::specs::Print::escape_byte))]
    fn put<O: TextOut>(&self, _form: RowForm, out: &mut O) -> Result<(), O::Error> {
        put_number(out, b"{\"id\":", self.id().0)?;
        put_list(out, b",\"regions\":[", self.regions())?;
        out.put(b"}")
    }
}
