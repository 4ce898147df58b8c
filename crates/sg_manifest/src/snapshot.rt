//! A valid snapshot.

ghost use Rattle.std.specs.Prelude.{◌≡◌};

use sg_base::{Campaign, Daypart, Event, Layout, LayoutId, Listed, Rows, ZoneRule};
use std::alloc::AllocError;
use std::marker::Model;

/// The rows of a manifest, of which nothing is known yet.
#[derive(Debug, Drop)]
pub struct Draft {
    pub version: u32,
    pub zone: ZoneRule,
    pub default: LayoutId,
    pub layouts: Rows<Layout>,
    pub campaigns: Rows<Campaign>,
    pub dayparts: Rows<Daypart>,
    pub events: Rows<Event>,
    pub files: Rows<Listed>,
}

impl Model for Draft {
    ghost use Rattle.sg_manifest.specs.Snapshot.{SnapshotRow};

    ghost Value = { SnapshotRow };

    ghost view = { λ s. record { version = s.version; zone = s.zone; default = s.default; layouts = s.layouts; campaigns = s.campaigns; dayparts = s.dayparts; events = s.events; files = s.files } };
}

/// What a display shows, in a version of the text: its zone, its default layout, and by ascending id the layouts, campaigns, dayparts,
/// events and files. Every snapshot is valid.
#[derive(Debug, Drop)]
pub struct Snapshot {
    rows: Draft,
}

impl Model for Snapshot {
    ghost use Rattle.sg_manifest.specs.Snapshot.{SnapshotRow, IsSnapshot};

    ghost Value = { SnapshotRow };

    ghost view = { λ s. s.rows };

    ghost invariant = { λ s. IsSnapshot s.rows };
}

impl Snapshot {
    ghost use Rattle.sg_manifest.specs.Snapshot.{IsSnapshot};

    /// The snapshot of valid rows.
    pub fn new(rows: Draft) -> Snapshot
        requires { IsSnapshot rows }
        ensures { result ≡ rows }
    {
        Snapshot { rows }
    }

    /// The version of its text, 1 or 2.
    pub fn version(&self) -> u32
        ensures value { result ≡ self.now.version }
        ensures valid { IsSnapshot self.now }
    {
        self.rows.version
    }

    /// The rule by which moments become local seconds.
    pub fn zone(&self) -> &ZoneRule
        ensures value { result.now ≡ self.now.zone }
        ensures valid { IsSnapshot self.now }
    {
        &self.rows.zone
    }

    /// The layout that is shown when no event is active.
    pub fn default(&self) -> LayoutId
        ensures value { result ≡ self.now.default }
        ensures valid { IsSnapshot self.now }
    {
        self.rows.default
    }

    /// The layouts, by ascending id: 1 to 512.
    pub fn layouts(&self) -> &[Layout]
        ensures value { result.now ≡ self.now.layouts }
        ensures valid { IsSnapshot self.now }
    {
        self.rows.layouts.as_slice()
    }

    /// The campaigns, by ascending id: at most 256.
    pub fn campaigns(&self) -> &[Campaign]
        ensures value { result.now ≡ self.now.campaigns }
        ensures valid { IsSnapshot self.now }
    {
        self.rows.campaigns.as_slice()
    }

    /// The dayparts, by ascending id: at most 64.
    pub fn dayparts(&self) -> &[Daypart]
        ensures value { result.now ≡ self.now.dayparts }
        ensures valid { IsSnapshot self.now }
    {
        self.rows.dayparts.as_slice()
    }

    /// The events, by ascending id: at most 1,024.
    pub fn events(&self) -> &[Event]
        ensures value { result.now ≡ self.now.events }
        ensures valid { IsSnapshot self.now }
    {
        self.rows.events.as_slice()
    }

    /// The files that the layouts show, by ascending id: at most 512.
    pub fn files(&self) -> &[Listed]
        ensures value { result.now ≡ self.now.files }
        ensures valid { IsSnapshot self.now }
    {
        self.rows.files.as_slice()
    }
}

impl Clone for Draft {
    ghost use Rattle.std.specs.Prelude.{◌≡◌};

    ghost is_clone = { λ x y. y ≡ x };

    fn clone(&self) -> Result<Draft, AllocError> {
        let zone = self.zone.clone()?;
        let layouts = self.layouts.clone()?;
        let campaigns = self.campaigns.clone()?;
        let dayparts = self.dayparts.clone()?;
        let events = self.events.clone()?;
        let files = self.files.clone()?;
        Ok(Draft {
            version: self.version,
            zone,
            default: self.default,
            layouts,
            campaigns,
            dayparts,
            events,
            files,
        })
    }
}

impl Clone for Snapshot {
    ghost use Rattle.std.specs.Prelude.{◌≡◌};

    ghost is_clone = { λ x y. y ≡ x };

    fn clone(&self) -> Result<Snapshot, AllocError> {
        let rows = self.rows.clone()?;
        Ok(Snapshot { rows })
    }
}
