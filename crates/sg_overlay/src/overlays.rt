//! The overlays of a snapshot, ready to be asked what they show.

ghost use Rattle.std.specs.Prelude.{◌≡◌, ◌+◌, ◌*◌, ◌≤◌, true, false, None, length, Contains, IfOk, IfSome};
ghost use Rattle.sg_base.specs.Seconds.{IsAskable};

use sg_base::{LocalSec, Steps};
use sg_layer::{Kind, Layer};
use sg_manifest::Snapshot;
use sg_resolver::{Catalog, Picture, Show, show_of};
use std::alloc::{AllocError, Global};
use std::marker::Model;
use std::sync::ledger::Ledger;

/// A snapshot's overlays with the room that their answers need, taken once, and with the hour that was built last.
#[derive(Debug, Drop)]
pub struct Overlays {
    catalog: Catalog,
    layer: Layer,
}

impl Model for Overlays {
    ghost use Rattle.sg_resolver.specs.Ready.{Adopted};
    ghost use Rattle.sg_overlay.specs.Ready.{IsReady};

    ghost Value = { Adopted };

    ghost view = { λ o. record { snapshot = o.catalog; kept = o.layer.kept } };

    ghost invariant = { λ o. IsReady o.catalog o.layer };
}

impl Overlays {
    ghost use Rattle.sg_layer.specs.Shown.{entries_of};
    ghost use Rattle.sg_layer.specs.Segment.{is_inside, IsKeptFrom};
    ghost use Rattle.sg_manifest.specs.Snapshot.{layout_ids};
    ghost use Rattle.sg_resolver.specs.Shown.{picture_of};
    ghost use Rattle.sg_overlay.specs.Over.{overlay_layer, overlay_events, over, IsOver};

    /// Makes a snapshot's overlays ready. All the memory that later answers need is taken here.
    pub fn adopt(alloc: Global, s: &Snapshot) -> Result<Overlays, AllocError>
        ensures { IfOk result (λ o. o ≡ record { snapshot = s.now; kept = None }) }
    {
        let catalog = Catalog::new(alloc, s)?;
        let layer = layer_of(alloc, &catalog)?;
        Ok(Overlays { catalog, layer })
    }

    /// The segment of local seconds for which the hour is kept that was built last: from the first of them up to the
    /// second.
    pub fn kept(&self) -> Option<(LocalSec, LocalSec)>
        ensures { result ≡ self.now.kept }
    {
        self.layer.kept()
    }

    /// What is shown above the picture at a local second, if an overlay is active. It takes no memory.
    ///
    /// For a second in the kept segment no event is asked. Else each event of layer 1 is asked at most twice, and the segment
    /// that begins at the second is kept: it ends with the second's hour, or where such an event may change.
    pub fn over_at<L: Ledger>(&mut self, t: LocalSec, steps: &mut Steps<L>) -> Option<Show>
        requires second { IsAskable t }
        ensures value { result ≡ over self.old.snapshot t }
        ensures closed { IfSome result (IsOver self.old.snapshot t) }
        ensures known { IfSome result (λ show. Contains (layout_ids self.old.snapshot) show.layout) }
        ensures same { self.new.snapshot ≡ self.old.snapshot }

        // What is kept, and how many steps are counted.
        ensures inside { is_inside self.old.kept t ≡ true →
            (self.new.kept ≡ self.old.kept) × (steps.new ≡ steps.old) }
        ensures kept { is_inside self.old.kept t ≡ false →
            IsKeptFrom (entries_of (overlay_layer self.old.snapshot None)) t self.new.kept }
        ensures ticks { is_inside self.old.kept t ≡ false →
            steps.new ≤ steps.old + 2 * length (overlay_events self.old.snapshot) }
    {
        let Some(slot) = self.layer.slot_at(t, steps) else {
            return None;
        };
        Some(show_of(t, slot))
    }

    /// The picture at a show of a layout of the snapshot: the medium of each region. It takes no memory.
    pub fn picture(&self, show: &Show) -> Picture
        requires { Contains (layout_ids self.now.snapshot) show.now.layout }
        ensures { result ≡ picture_of self.now.snapshot show.now }
    {
        self.catalog.picture(show)
    }
}

ghost use Rattle.sg_overlay.specs.Over.{overlay_layer};

// The layer above the picture.
fn layer_of(alloc: Global, catalog: &Catalog) -> Result<Layer, AllocError>
    ensures { IfOk result (λ l. l ≡ overlay_layer catalog.now None) }
{
    let normal = catalog.entries(alloc, Kind::Overlay)?;
    Layer::new(alloc, normal, Vec::new(alloc), None)
}
