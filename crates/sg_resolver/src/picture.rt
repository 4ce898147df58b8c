//! The picture of a layout.

ghost use Rattle.std.specs.Prelude.{◌≡◌, ◌==◌, ◌<◌, ◌≤◌, [], ◌∷◌, ◌++◌, length, map, Some, slice_get};
ghost use Rattle.sg_base.specs.Layout.{medium_at};

use sg_base::limits::MAX_REGIONS;
use sg_base::{Layout, MediaId};
use std::marker::Model;

/// The medium of each region of a layout, in the layout's order: at most 16 entries, in fixed room.
#[derive(Clone, Debug, Drop)]
pub struct Picture {
    entries: [(u32, MediaId); MAX_REGIONS],
    count: usize,
}

impl Model for Picture {
    ghost use Rattle.std.specs.Prelude.{ℕ, ◌≡◌, ◌≤◌, List, take, length};
    ghost use Rattle.sg_base.specs.declared.ids.MediaId.{MediaId};
    ghost use Rattle.sg_base.specs.declared.limits.TheConstants.{MAX_REGIONS};

    ghost Value = { List (ℕ × MediaId) };

    ghost view = { λ p. take p.count p.entries };

    ghost invariant = { λ p. (p.count ≤ MAX_REGIONS) × (length p.entries ≡ MAX_REGIONS) };
}

impl Picture {
    /// A picture with no entry.
    pub(crate) fn new() -> Picture
        ensures { result ≡ [] }
    {
        Picture {
            entries: [(0, MediaId(0)); MAX_REGIONS],
            count: 0,
        }
    }

    /// The picture of a layout at a second since it began.
    pub(crate) fn of_layout(layout: &Layout, offset: u32) -> Picture
        ensures { result ≡ map (λ r. (r.id, medium_at r offset)) layout.now.regions }
    {
        let mut picture = Picture::new();
        for (i, region) in layout.regions().iter().enumerate() {
            picture.add(region.id, layout.item_at(i, offset));
        }
        picture
    }

    // Adds an entry after the others.
    fn add(&mut self, region: u32, media: MediaId)
        requires { length self.old < MAX_REGIONS }
        ensures { self.new ≡ self.old ++ (region, media) ∷ [] }
    {
        self.entries[self.count] = (region, media);
        self.count += 1;
    }

    /// How many entries there are.
    pub fn len(&self) -> usize
        ensures value { result ≡ length self.now }
        ensures few { result ≤ MAX_REGIONS }
    {
        self.count
    }

    /// Whether there is no entry.
    pub fn is_empty(&self) -> bool
        ensures { result ≡ (length self.now == 0) }
    {
        self.count == 0
    }

    /// The entry at a place, counted from 0: a region and its medium.
    pub fn at(&self, i: usize) -> (u32, MediaId)
        requires { i < length self.now }
        ensures { slice_get self.now i ≡ Some result }
    {
        let entries = &self.entries;
        entries[i]
    }
}
