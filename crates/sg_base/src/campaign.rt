//! Campaigns.

use crate::ids::{CampaignId, LayoutId};
use crate::list::Rows;
use std::alloc::AllocError;

/// An ordered list of layouts, which an event schedules as one. A layout may stand in it more than once.
#[derive(Debug, PartialEq, Drop)]
pub struct Campaign {
    pub id: CampaignId,
    pub layouts: Rows<LayoutId>,
}

impl Clone for Campaign {
    ghost use Rattle.std.specs.Prelude.{◌≡◌};

    ghost is_clone = { λ x y. y ≡ x };

    fn clone(&self) -> Result<Campaign, AllocError> {
        let layouts = self.layouts.clone()?;
        Ok(Campaign {
            id: self.id,
            layouts,
        })
    }
}
