//! The rows of a manifest, from JSON.

ghost use Rattle.std.specs.Prelude.{◌≡◌, IfOk, IsTrue, codes};
ghost use Rattle.serde_json.specs.View.{view};
ghost use Rattle.sg_rows.specs.Faults.{Gives as RowGives};
ghost use Rattle.sg_rows.specs.Parts.{member_at};
ghost use Rattle.sg_rows.specs.Reading.{zone_at};
ghost use Rattle.sg_rows.specs.Rows.{IsId};
ghost use Rattle.sg_rows.specs.Zone.{IsZone};
ghost use Rattle.sg_manifest.specs.Faults.{Gives};
ghost use Rattle.sg_manifest.specs.Snapshot.{is_version, form_of};
ghost use Rattle.sg_manifest.specs.Reading.{version_at, members_at};

use crate::fault::ManifestFault;
use crate::lists::{CAMPAIGNS, DAYPARTS, EVENTS, FILES, LAYOUTS, read_rows};
use crate::snapshot::Draft;
use serde_json::Value;
use sg_base::{LayoutId, Rows, ZoneRule};
use sg_rows::{RowFault, RowForm, part, read_zone};
use std::alloc::Global;

/// The version of the text, 1 or 2.
#[tactic(auto, unfolding(crate::specs::Reading::version_at))]
fn read_version(value: &Value) -> Result<u32, ManifestFault>
    ensures gives { Gives (λ n. n) result (version_at (view value.now)) }
    ensures known { IfOk result (λ n. IsTrue (is_version n)) }
{
    let version = part::number(value, "version")?;
    if version == 1 || version == 2 {
        Ok(version)
    } else {
        Err(ManifestFault::Version(version))
    }
}

/// The form in which the rows of a version stand.
pub(crate) fn form_of(version: u32) -> RowForm
    ensures { result ≡ form_of version }
{
    if version == 1 {
        RowForm::Version1
    } else {
        RowForm::Version2
    }
}

/// The eight members, each of its JSON type. The answer is the default layout.
#[tactic(auto, unfolding(crate::specs::Reading::members_at))]
fn members(value: &Value) -> Result<LayoutId, RowFault>
    ensures gives { RowGives (λ l. l) result (members_at (view value.now)) }
    ensures sound { IfOk result (λ l. IsId l.0) }
{
    part::exactly(value, 8)?;
    let default = part::id(value, "default")?;
    part::items(part::member(value, "campaigns")?)?;
    part::items(part::member(value, "dayparts")?)?;
    part::items(part::member(value, "events")?)?;
    part::items(part::member(value, "files")?)?;
    part::items(part::member(value, "layouts")?)?;
    part::member(value, "zone")?;
    Ok(LayoutId(default))
}

fn zone(alloc: Global, value: &Value) -> Result<ZoneRule, RowFault>
    ensures gives { RowGives (λ z. z) result (member_at zone_at (codes "zone") (view value.now)) }
    ensures sound { IfOk result IsZone }
{
    read_zone(alloc, part::member(value, "zone")?)
}

impl Draft {
    ghost use Rattle.sg_manifest.specs.Reading.{draft_at};
    ghost use Rattle.sg_manifest.specs.Fitting.{IsDraft};

    /// The rows in the order in which they stand, each by itself valid, and ids distinct.
    #[tactic(auto, unfolding(crate::specs::Reading::draft_at))]
    pub(crate) fn read(alloc: Global, value: &Value) -> Result<Draft, ManifestFault>
        ensures gives { Gives (λ s. s) result (draft_at (view value.now)) }
        ensures sound { IfOk result IsDraft }
    {
        let version = read_version(value)?;
        let form = form_of(version);
        let default = members(value)?;
        let zone = zone(alloc, value)?;
        let files = read_rows(alloc, value, "files", &FILES, form)?;
        let layouts = read_rows(alloc, value, "layouts", &LAYOUTS, form)?;
        let campaigns = read_rows(alloc, value, "campaigns", &CAMPAIGNS, form)?;
        let dayparts = read_rows(alloc, value, "dayparts", &DAYPARTS, form)?;
        let events = read_rows(alloc, value, "events", &EVENTS, form)?;
        Ok(Draft {
            version,
            zone,
            default,
            layouts: Rows::from_vec(layouts),
            campaigns: Rows::from_vec(campaigns),
            dayparts: Rows::from_vec(dayparts),
            events: Rows::from_vec(events),
            files: Rows::from_vec(files),
        })
    }
}
