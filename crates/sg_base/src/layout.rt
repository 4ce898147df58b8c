//! Layouts: regions that play items one after another.

ghost use Rattle.std.specs.Prelude.{◌≡◌, ◌==◌, ◌<◌, ◌≤◌, ◌%◌, [], length, Some, None, MatchResult, slice_get};
ghost use Rattle.std.specs.List.{AllByRecursion, list_any};

use crate::ids::{LayoutId, MediaId};
use crate::layout_rules::{fault_of, longest_of, shown_at};
use crate::limits::HOUR;
use crate::list::Rows;
use std::alloc::AllocError;
use std::marker::Model;
use thiserror::Error;

/// A medium, and the seconds for which a region shows it.
#[derive(Clone, Copy, Debug, PartialEq, Eq)]
pub struct Item {
    pub media: MediaId,
    pub seconds: u32,
}

/// A part of the screen that plays items one after another, and begins again at the end.
#[derive(Debug, PartialEq, Drop)]
pub struct Region {
    pub id: u32,
    pub items: Rows<Item>,
}

/// Why regions make no layout.
#[derive(Clone, Copy, Debug, PartialEq, Eq, Error)]
pub enum LayoutFault {
    #[error("a layout has at least one region")]
    NoRegion,
    #[error("{0} regions of a layout, or items of a region, are too many")]
    TooMany(u64),
    #[error("region {0} stands twice")]
    DoubleRegion(u32),
    #[error("region {0} has no item")]
    EmptyRegion(u32),
    #[error("item {1} of region {0} has no second")]
    ZeroSeconds(u32, u32),
    #[error("the {0} seconds of a region are too many")]
    TooLong(u64),
}

/// A layout: 1 to 16 regions of different ids, each of 1 to 64 items of at least a second, which together
/// last at most 3,600 seconds.
#[derive(Debug, Drop)]
pub struct Layout {
    id: LayoutId,
    regions: Rows<Region>,
}

impl Model for Layout {
    ghost use Rattle.sg_base.specs.Layout.{LayoutRow, IsLayout};

    ghost Value = { LayoutRow };

    ghost view = { λ l. record { id = l.id; regions = l.regions } };

    ghost invariant = { λ l. IsLayout (record { id = l.id; regions = l.regions }) };
}

impl Layout {
    ghost use Rattle.sg_base.specs.Layout.{IsLayout, HasId, layout_fault, longest, seconds_of, medium_at, Covers};

    /// A layout of regions, whose ids are at least 1. It is refused with `NoRegion`; `TooMany` above 16
    /// regions; `DoubleRegion`; then region by region with `EmptyRegion`, `TooMany` above 64 items,
    /// `ZeroSeconds` (the region's id and the item's index), `TooLong` above 3,600 seconds. The first of
    /// these is the answer. A refusal drops the regions.
    pub fn new(id: LayoutId, regions: Vec<Region>) -> Result<Layout, LayoutFault>
        requires ids { AllByRecursion HasId regions.items }
        ensures { MatchResult result
            (λ l. (layout_fault regions.items ≡ None) × (l ≡ record { id = id; regions = regions.items }))
            (λ e. layout_fault regions.items ≡ Some e) }
    {
        match fault_of(regions.as_slice()) {
            Some(fault) => Err(fault),
            None => Ok(Layout {
                id,
                regions: Rows::from_vec(regions),
            }),
        }
    }

    /// The layout's identity.
    pub fn id(&self) -> LayoutId
        ensures { result ≡ self.now.id }
    {
        self.id
    }

    /// The regions in their order.
    pub fn regions(&self) -> &[Region]
        ensures value { result.now ≡ self.now.regions }
        ensures valid { IsLayout self.now }
    {
        self.regions.as_slice()
    }

    /// Its seconds: those of the region that lasts longest, 1 to 3,600.
    pub fn duration(&self) -> u32
        ensures value { result ≡ longest self.now.regions }
        ensures some { 0 < result }
        ensures few { result ≤ HOUR }
    {
        longest_of(self.regions.as_slice())
    }

    /// The medium that a region shows at an offset in seconds from the layout's start. A region that is
    /// shorter begins again.
    pub fn item_at(&self, region: usize, offset: u32) -> MediaId
        requires { region < length self.now.regions }
        ensures value { (r : Region) → slice_get self.now.regions region ≡ Some r
            → result ≡ medium_at r offset }
        ensures covers { (r : Region) → slice_get self.now.regions region ≡ Some r
            → Covers r.items (offset % seconds_of r.items) result }
    {
        shown_at(&self.regions.as_slice()[region], offset)
    }
}

impl Clone for Region {
    ghost use Rattle.std.specs.Prelude.{◌≡◌};

    ghost is_clone = { λ x y. y ≡ x };

    fn clone(&self) -> Result<Region, AllocError> {
        let items = self.items.clone()?;
        Ok(Region { id: self.id, items })
    }
}

impl Clone for Layout {
    ghost use Rattle.std.specs.Prelude.{◌≡◌};

    ghost is_clone = { λ x y. y ≡ x };

    fn clone(&self) -> Result<Layout, AllocError> {
        let regions = self.regions.clone()?;
        Ok(Layout {
            id: self.id,
            regions,
        })
    }
}
