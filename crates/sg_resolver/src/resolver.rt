//! A snapshot, ready to be asked what it shows.

ghost use Rattle.std.specs.Prelude.{◌≡◌, ◌+◌, ◌*◌, ◌≤◌, true, false, None, length, Contains, Ok, IfOk, IsOk};
ghost use Rattle.sg_base.specs.Seconds.{IsAskable};

use crate::catalog::Catalog;
use crate::picture::Picture;
use crate::show::{Show, show_of};
use sg_base::{LocalSec, Moment, Steps};
use sg_calendar::Zone;
use sg_layer::{Kind, Layer};
use sg_manifest::Snapshot;
use std::alloc::{AllocError, Global};
use std::marker::Model;
use std::sync::ledger::Ledger;

/// A snapshot with the room that its answers need, taken once, and with the hour that was built last.
#[derive(Debug, Drop)]
pub struct Resolver {
    catalog: Catalog,
    zone: Zone,
    layer: Layer,
}

impl Model for Resolver {
    ghost use Rattle.sg_resolver.specs.Ready.{Adopted, IsReady};

    ghost Value = { Adopted };

    ghost view = { λ r. record { snapshot = r.catalog; kept = r.layer.kept } };

    ghost invariant = { λ r. IsReady r.catalog r.zone r.layer };
}

impl Resolver {
    ghost use Rattle.sg_calendar.specs.Zone.{zone_of};
    ghost use Rattle.sg_layer.specs.Shown.{entries_of};
    ghost use Rattle.sg_layer.specs.Segment.{is_inside, IsKeptFrom};
    ghost use Rattle.sg_manifest.specs.Snapshot.{IsSnapshot, layout_ids};
    ghost use Rattle.sg_resolver.specs.Lists.{picture_layer, picture_events};
    ghost use Rattle.sg_resolver.specs.Shown.{local_of, shown, IsShown, picture_of};

    /// Makes a snapshot ready. All the memory that later answers need is taken here.
    pub fn adopt(alloc: Global, s: &Snapshot) -> Result<Resolver, AllocError>
        ensures { IfOk result (λ r. r ≡ record { snapshot = s.now; kept = None }) }
    {
        let zone = zone_told(s);
        let catalog = Catalog::new(alloc, s)?;
        let layer = layer_of(alloc, &catalog)?;
        Ok(Resolver {
            catalog,
            zone,
            layer,
        })
    }

    /// The local second of a moment, by the snapshot's zone. It takes no memory, so it is always `Ok`.
    pub fn local(&self, moment: Moment) -> Result<LocalSec, AllocError>
        ensures given { IsOk result }
        ensures value { IfOk result (λ t. t ≡ local_of self.now.snapshot moment) }
        ensures second { IfOk result IsAskable }
    {
        self.zone.local(moment)
    }

    /// The segment of local seconds for which the hour is kept that was built last: from the first of them up to the
    /// second.
    pub fn kept(&self) -> Option<(LocalSec, LocalSec)>
        ensures { result ≡ self.now.kept }
    {
        self.layer.kept()
    }

    /// What is shown at a local second. It takes no memory.
    ///
    /// For a second in the kept segment no event is asked. Else each event of layer 0 is asked at most twice, and the segment
    /// that begins at the second is kept: it ends with the second's hour, or where such an event may change.
    pub fn show_at<L: Ledger>(&mut self, t: LocalSec, steps: &mut Steps<L>) -> Show
        requires second { IsAskable t }
        ensures value { result ≡ shown self.old.snapshot t }
        ensures closed { IsShown self.old.snapshot t result }
        ensures known { Contains (layout_ids self.old.snapshot) result.layout }
        ensures same { self.new.snapshot ≡ self.old.snapshot }

        // What is kept, and how many steps are counted.
        ensures inside { is_inside self.old.kept t ≡ true →
            (self.new.kept ≡ self.old.kept) × (steps.new ≡ steps.old) }
        ensures kept { is_inside self.old.kept t ≡ false →
            IsKeptFrom (entries_of (picture_layer self.old.snapshot None)) t self.new.kept }
        ensures ticks { is_inside self.old.kept t ≡ false →
            steps.new ≤ steps.old + 2 * length (picture_events self.old.snapshot) }
    {
        match self.layer.slot_at(t, steps) {
            Some(slot) => show_of(t, slot),
            None => unreachable!(),
        }
    }

    /// The picture at a show of a layout of the snapshot: the medium of each region. It takes no memory.
    pub fn picture(&self, show: &Show) -> Picture
        requires { Contains (layout_ids self.now.snapshot) show.now.layout }
        ensures { result ≡ picture_of self.now.snapshot show.now }
    {
        self.catalog.picture(show)
    }
}

ghost use Rattle.sg_calendar.specs.Zone.{zone_of};
ghost use Rattle.sg_resolver.specs.Lists.{picture_layer};

// The zone of a valid snapshot's rule.
fn zone_told(s: &Snapshot) -> Zone
    ensures { zone_of s.now.zone ≡ Ok result }
{
    match Zone::read(s.zone()) {
        Ok(zone) => zone,
        Err(_) => unreachable!(),
    }
}

// The layer of the picture.
fn layer_of(alloc: Global, catalog: &Catalog) -> Result<Layer, AllocError>
    ensures { IfOk result (λ l. l ≡ picture_layer catalog.now None) }
{
    let normal = catalog.entries(alloc, Kind::Normal)?;
    let interrupts = catalog.entries(alloc, Kind::Interrupt)?;
    let default = catalog.play(0, catalog.snapshot().default());
    Layer::new(alloc, normal, interrupts, Some(default))
}
