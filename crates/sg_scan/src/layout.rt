//! Layouts, with their regions and items.

ghost use Rattle.std.specs.Prelude.{IfSome};

use crate::list::{ScanPart, ScanRow, scan_parts};
use crate::scan::Scan;
use sg_base::{Item, Layout, LayoutId, MediaId, Region, Rows};
use sg_rows::RowForm;
use std::alloc::Global;

impl ScanPart for Item {
    ghost use Rattle.sg_rows.specs.Rows.{IsItem};

    ghost valid = { IsItem };

    fn scan(_alloc: Global, text: &mut Scan) -> Option<Item> {
        let media = text.id_after(b"{\"media\":")?;
        let seconds = text.number_after(b",\"seconds\":")?;
        text.pass(b"}")?;
        Some(Item {
            media: MediaId(media),
            seconds,
        })
    }
}

impl ScanPart for Region {
    ghost use Rattle.sg_rows.specs.Rows.{IsRegion};

    ghost valid = { IsRegion };

    fn scan(alloc: Global, text: &mut Scan) -> Option<Region> {
        let id = text.id_after(b"{\"id\":")?;
        text.pass(b",\"items\":[")?;
        let items = scan_parts(alloc, text)?;
        text.pass(b"}")?;
        Some(Region {
            id,
            items: Rows::from_vec(items),
        })
    }
}

#[tactic(auto, using(sg_rows::proofs::RowLemmas::regions_have_ids))]
impl ScanRow for Layout {
    ghost use Rattle.sg_rows.specs.Rows.{IsLayoutRow};

    ghost valid = { λ _. IsLayoutRow };

    fn scan(alloc: Global, _form: RowForm, text: &mut Scan) -> Option<Layout> {
        let id = text.id_after(b"{\"id\":")?;
        text.pass(b",\"regions\":[")?;
        let regions = scan_parts(alloc, text)?;
        text.pass(b"}")?;
        match Layout::new(LayoutId(id), regions) {
            Ok(layout) => Some(layout),
            Err(_) => None,
        }
    }
}
