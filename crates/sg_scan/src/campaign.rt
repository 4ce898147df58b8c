//! Campaigns.

ghost use Rattle.std.specs.Prelude.{IfSome};

use crate::list::{ScanPart, ScanRow, scan_parts};
use crate::scan::Scan;
use sg_base::limits::MAX_CAMPAIGN_LAYOUTS;
use sg_base::{Campaign, CampaignId, LayoutId, Rows};
use sg_rows::RowForm;
use std::alloc::Global;

impl ScanPart for LayoutId {
    ghost use Rattle.sg_rows.specs.Rows.{IsLayoutId};

    ghost valid = { IsLayoutId };

    fn scan(_alloc: Global, text: &mut Scan) -> Option<LayoutId> {
        let id = text.id()?;
        Some(LayoutId(id))
    }
}

impl ScanRow for Campaign {
    ghost use Rattle.sg_rows.specs.Rows.{IsCampaignRow};

    ghost valid = { λ _. IsCampaignRow };

    fn scan(alloc: Global, _form: RowForm, text: &mut Scan) -> Option<Campaign> {
        let id = text.id_after(b"{\"id\":")?;
        text.pass(b",\"layouts\":[")?;
        let layouts = scan_parts(alloc, text)?;
        text.pass(b"}")?;
        if layouts.is_empty() || layouts.len() > MAX_CAMPAIGN_LAYOUTS {
            return None;
        }
        Some(Campaign {
            id: CampaignId(id),
            layouts: Rows::from_vec(layouts),
        })
    }
}
