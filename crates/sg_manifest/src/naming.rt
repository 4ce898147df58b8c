//! Whether what rows name is there.

ghost use Rattle.std.specs.Prelude.{◌≡◌, map, IfOk, IsPermutation};
ghost use Rattle.std.specs.List.Sorted.{IsNonDecreasing};
ghost use Rattle.sg_base.specs.Faults.{first_in};
ghost use Rattle.sg_manifest.specs.Reading.{missing as missing_of, missing_media, missing_file, missing_layout as layout_missing_of, missing_target as target_missing_of, missing_daypart as daypart_missing_of, missing_in_target, missing_in_when, dangling_by, dangling};

use crate::fault::ManifestFault;
use crate::snapshot::Draft;
use sg_base::{Campaign, Daypart, Event, Kind, Layout, Listed, Region, Target, When, index_of};
use sg_rows::ManifestRow;
use std::alloc::{AllocError, Global};

/// The ids of rows, ascending.
fn ids_of<T: ManifestRow>(alloc: Global, rows: &[T]) -> Result<Vec<u32>, AllocError>
    ensures same { IfOk result (λ ids. IsPermutation (map T.key rows.now) ids.items) }
    ensures rising { IfOk result (λ ids. IsNonDecreasing ids.items) }
{
    let mut ids = Vec::new(alloc);
    for row in rows {
        ids.push(row.key())?;
    }
    ids.sort_unstable();
    Ok(ids)
}

/// The fault where a row of this id isn't among ascending ids.
#[tactic(auto, using(crate::proofs::SearchLemmas::there, crate::proofs::SearchLemmas::not_there))]
fn missing(kind: Kind, ids: &[u32], id: u32) -> Option<ManifestFault>
    requires { IsNonDecreasing ids.now }
    ensures { result ≡ missing_of kind ids.now id }
{
    match index_of(ids, id) {
        Some(_) => None,
        None => Some(ManifestFault::Dangling { kind, id }),
    }
}

fn in_region(files: &[u32], region: &Region) -> Option<ManifestFault>
    requires { IsNonDecreasing files.now }
    ensures { result ≡ missing_media files.now region.now }
{
    for item in region.items.as_slice() {
        if let Some(fault) = missing(Kind::Media, files, item.media.0) {
            return Some(fault);
        }
    }
    None
}

fn in_layout(files: &[u32], layout: &Layout) -> Option<ManifestFault>
    requires { IsNonDecreasing files.now }
    ensures { result ≡ missing_file files.now layout.now }
{
    for region in layout.regions() {
        if let Some(fault) = in_region(files, region) {
            return Some(fault);
        }
    }
    None
}

fn in_layouts(files: &[u32], layouts: &[Layout]) -> Option<ManifestFault>
    requires { IsNonDecreasing files.now }
    ensures { result ≡ first_in (missing_file files.now) layouts.now }
{
    for layout in layouts {
        if let Some(fault) = in_layout(files, layout) {
            return Some(fault);
        }
    }
    None
}

fn in_campaign(layouts: &[u32], campaign: &Campaign) -> Option<ManifestFault>
    requires { IsNonDecreasing layouts.now }
    ensures { result ≡ layout_missing_of layouts.now campaign.now }
{
    for layout in campaign.layouts.as_slice() {
        if let Some(fault) = missing(Kind::Layout, layouts, layout.0) {
            return Some(fault);
        }
    }
    None
}

fn in_campaigns(layouts: &[u32], campaigns: &[Campaign]) -> Option<ManifestFault>
    requires { IsNonDecreasing layouts.now }
    ensures { result ≡ first_in (layout_missing_of layouts.now) campaigns.now }
{
    for campaign in campaigns {
        if let Some(fault) = in_campaign(layouts, campaign) {
            return Some(fault);
        }
    }
    None
}

fn in_target(layouts: &[u32], campaigns: &[u32], target: Target) -> Option<ManifestFault>
    requires layouts { IsNonDecreasing layouts.now }
    requires campaigns { IsNonDecreasing campaigns.now }
    ensures { result ≡ target_missing_of layouts.now campaigns.now target }
{
    match target {
        Target::Layout(layout) => missing(Kind::Layout, layouts, layout.0),
        Target::Campaign(campaign) => missing(Kind::Campaign, campaigns, campaign.0),
    }
}

fn in_targets(layouts: &[u32], campaigns: &[u32], events: &[Event]) -> Option<ManifestFault>
    requires layouts { IsNonDecreasing layouts.now }
    requires campaigns { IsNonDecreasing campaigns.now }
    ensures { result ≡ first_in (missing_in_target layouts.now campaigns.now) events.now }
{
    for event in events {
        if let Some(fault) = in_target(layouts, campaigns, event.target()) {
            return Some(fault);
        }
    }
    None
}

fn in_when(dayparts: &[u32], when: When) -> Option<ManifestFault>
    requires { IsNonDecreasing dayparts.now }
    ensures { result ≡ daypart_missing_of dayparts.now when }
{
    match when {
        When::Always | When::Custom { .. } => None,
        When::Named { daypart, .. } => missing(Kind::Daypart, dayparts, daypart.0),
    }
}

fn in_whens(dayparts: &[u32], events: &[Event]) -> Option<ManifestFault>
    requires { IsNonDecreasing dayparts.now }
    ensures { result ≡ first_in (missing_in_when dayparts.now) events.now }
{
    for event in events {
        if let Some(fault) = in_when(dayparts, event.when()) {
            return Some(fault);
        }
    }
    None
}

/// The first row that is named and isn't among ascending ids.
fn dangling_by(
    draft: &Draft,
    layouts: &[u32],
    campaigns: &[u32],
    dayparts: &[u32],
    files: &[u32],
) -> Option<ManifestFault>
    requires layouts { IsNonDecreasing layouts.now }
    requires campaigns { IsNonDecreasing campaigns.now }
    requires dayparts { IsNonDecreasing dayparts.now }
    requires files { IsNonDecreasing files.now }
    ensures { result ≡ dangling_by draft.now layouts.now campaigns.now dayparts.now files.now }
{
    if let Some(fault) = missing(Kind::Layout, layouts, draft.default.0) {
        return Some(fault);
    }
    if let Some(fault) = in_layouts(files, draft.layouts.as_slice()) {
        return Some(fault);
    }
    if let Some(fault) = in_campaigns(layouts, draft.campaigns.as_slice()) {
        return Some(fault);
    }
    if let Some(fault) = in_targets(layouts, campaigns, draft.events.as_slice()) {
        return Some(fault);
    }
    in_whens(dayparts, draft.events.as_slice())
}

/// The first row that is named and isn't there: the default layout, then the layouts' media, the campaigns' layouts,
/// the events' targets and the events' dayparts. Each look-up halves ascending ids.
#[tactic(auto, using(crate::proofs::NamingLemmas::dangling_same))]
pub(crate) fn dangling(alloc: Global, draft: &Draft) -> Result<Option<ManifestFault>, AllocError>
    ensures { IfOk result (λ fault. fault ≡ dangling draft.now) }
{
    let layouts = ids_of(alloc, draft.layouts.as_slice())?;
    let campaigns = ids_of(alloc, draft.campaigns.as_slice())?;
    let dayparts = ids_of(alloc, draft.dayparts.as_slice())?;
    let files = ids_of(alloc, draft.files.as_slice())?;
    Ok(dangling_by(
        draft,
        layouts.as_slice(),
        campaigns.as_slice(),
        dayparts.as_slice(),
        files.as_slice(),
    ))
}
