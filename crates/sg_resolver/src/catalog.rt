//! A snapshot's rows, found by their id.

ghost use Rattle.std.specs.Prelude.{◌≡◌, ◌==◌, map, find, Contains, IfOk, option_copied};
ghost use Rattle.sg_base.specs.Layout.{longest};
ghost use Rattle.sg_manifest.specs.Snapshot.{layout_ids};
ghost use Rattle.sg_resolver.specs.Rows.{regions_of};
ghost use Rattle.sg_resolver.specs.Shown.{picture_of};

use crate::picture::Picture;
use crate::show::Show;
use sg_base::{Campaign, Daypart, Layout, index_of};
use sg_manifest::Snapshot;
use std::alloc::{AllocError, Global};
use std::marker::Model;

/// A snapshot, with the ids of its rows, by which these are found, and the seconds of its layouts. Both are gathered
/// once. Callers see it as the snapshot.
#[derive(Debug, Drop)]
pub struct Catalog {
    snapshot: Snapshot,
    layouts: Vec<u32>,
    seconds: Vec<u32>,
    campaigns: Vec<u32>,
    dayparts: Vec<u32>,
}

impl Model for Catalog {
    ghost use Rattle.std.specs.Prelude.{◌≡◌, map};
    ghost use Rattle.sg_manifest.specs.Snapshot.{SnapshotRow};
    ghost use Rattle.sg_resolver.specs.Catalog.{IsCatalog};

    ghost Value = { SnapshotRow };

    ghost view = { λ c. c.snapshot };

    ghost invariant = { λ c. IsCatalog c.snapshot c.layouts.items c.seconds.items c.campaigns.items c.dayparts.items };
}

impl Catalog {
    /// A copy of a snapshot, ready for searches. Its only error is want of memory.
    pub fn new(alloc: Global, s: &Snapshot) -> Result<Catalog, AllocError>
        ensures { IfOk result (λ c. c ≡ s.now) }
    {
        let layouts = layout_ids(alloc, s.layouts())?;
        let seconds = durations(alloc, s.layouts())?;
        let campaigns = campaign_ids(alloc, s.campaigns())?;
        let dayparts = daypart_ids(alloc, s.dayparts())?;
        let snapshot = s.clone()?;
        Ok(Catalog {
            snapshot,
            layouts,
            seconds,
            campaigns,
            dayparts,
        })
    }

    /// The snapshot itself.
    pub fn snapshot(&self) -> &Snapshot
        ensures { result.now ≡ self.now }
    {
        &self.snapshot
    }

    /// The layout with this id.
    pub(crate) fn layout(&self, id: u32) -> Option<&Layout>
        ensures { option_copied result ≡ find (λ l. l.id.0 == id) self.now.layouts }
    {
        match index_of(self.layouts.as_slice(), id) {
            Some(place) => Some(&self.snapshot.layouts()[place]),
            None => None,
        }
    }

    /// How many seconds the layout with this id lasts; 0 where there is no such layout.
    pub(crate) fn seconds(&self, id: u32) -> u32
        ensures { result ≡ longest (regions_of self.now id) }
    {
        match index_of(self.layouts.as_slice(), id) {
            Some(place) => self.seconds[place],
            None => 0,
        }
    }

    /// The picture at a show of a layout of the snapshot: the medium of each region. It takes no memory.
    pub fn picture(&self, show: &Show) -> Picture
        requires { Contains (layout_ids self.now) show.now.layout }
        ensures { result ≡ picture_of self.now show.now }
    {
        match self.layout(show.layout) {
            Some(layout) => Picture::of_layout(layout, show.offset),
            None => Picture::new(),
        }
    }

    /// The campaign with this id.
    pub(crate) fn campaign(&self, id: u32) -> Option<&Campaign>
        ensures { option_copied result ≡ find (λ c. c.id.0 == id) self.now.campaigns }
    {
        match index_of(self.campaigns.as_slice(), id) {
            Some(place) => Some(&self.snapshot.campaigns()[place]),
            None => None,
        }
    }

    /// The daypart with this id.
    pub(crate) fn daypart(&self, id: u32) -> Option<&Daypart>
        ensures { option_copied result ≡ find (λ d. d.id.0 == id) self.now.dayparts }
    {
        match index_of(self.dayparts.as_slice(), id) {
            Some(place) => Some(&self.snapshot.dayparts()[place]),
            None => None,
        }
    }
}

fn layout_ids(alloc: Global, layouts: &[Layout]) -> Result<Vec<u32>, AllocError>
    ensures { IfOk result (λ ids. ids.items ≡ map (λ l. l.id.0) layouts.now) }
{
    layouts.iter().map(|layout| layout.id().0).collect(alloc)
}

fn durations(alloc: Global, layouts: &[Layout]) -> Result<Vec<u32>, AllocError>
    ensures { IfOk result (λ seconds. seconds.items ≡ map (λ l. longest l.regions) layouts.now) }
{
    layouts
        .iter()
        .map(|layout| layout.duration())
        .collect(alloc)
}

fn campaign_ids(alloc: Global, campaigns: &[Campaign]) -> Result<Vec<u32>, AllocError>
    ensures { IfOk result (λ ids. ids.items ≡ map (λ c. c.id.0) campaigns.now) }
{
    campaigns
        .iter()
        .map(|campaign| campaign.id.0)
        .collect(alloc)
}

fn daypart_ids(alloc: Global, dayparts: &[Daypart]) -> Result<Vec<u32>, AllocError>
    ensures { IfOk result (λ ids. ids.items ≡ map (λ d. d.id.0) dayparts.now) }
{
    dayparts.iter().map(|daypart| daypart.id().0).collect(alloc)
}
