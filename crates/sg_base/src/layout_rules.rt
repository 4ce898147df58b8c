//! The rules of a layout, each a function over plain regions: its faults, its duration, and what it shows.

ghost use Rattle.std.specs.Prelude.{◌≡◌, ◌==◌, ◌<◌, ◌≤◌, ◌%◌, None, length};
ghost use Rattle.std.specs.List.{list_any};
ghost use Rattle.sg_base.specs.Faults.{first_in};
ghost use Rattle.sg_base.specs.Layout.{layout_fault, double_fault, region_fault, zero_fault, long_fault, seconds_of, longest, medium_in, medium_at, Covers};

use crate::ids::MediaId;
use crate::layout::{Item, LayoutFault, Region};
use crate::limits::{HOUR, MAX_ITEMS, MAX_REGIONS};

/// The first fault of a layout's regions.
pub(crate) fn fault_of(regions: &[Region]) -> Option<LayoutFault>
    ensures { result ≡ layout_fault regions.now }
{
    if regions.is_empty() {
        return Some(LayoutFault::NoRegion);
    }
    if regions.len() > MAX_REGIONS {
        return Some(LayoutFault::TooMany(regions.len() as u64));
    }
    match doubled(regions) {
        Some(fault) => Some(fault),
        None => first_own(regions),
    }
}

fn has_region(seen: &[Region], id: u32) -> bool
    ensures { result ≡ list_any (λ s. s.id == id) seen.now }
{
    seen.iter().any(|s| s.id == id)
}

// At most 16 regions are compared with those before them.
#[tactic(auto, using(crate::proofs::FaultLemmas::double_next, crate::proofs::FaultLemmas::double_found))]
fn doubled(regions: &[Region]) -> Option<LayoutFault>
    ensures { result ≡ double_fault regions.now }
{
    for (i, region) in regions.iter().enumerate() {
        if has_region(&regions[..i], region.id) {
            return Some(LayoutFault::DoubleRegion(region.id));
        }
    }
    None
}

fn first_own(regions: &[Region]) -> Option<LayoutFault>
    ensures { result ≡ first_in region_fault regions.now }
{
    for region in regions {
        if let Some(fault) = own_fault(region) {
            return Some(fault);
        }
    }
    None
}

fn own_fault(region: &Region) -> Option<LayoutFault>
    ensures { result ≡ region_fault region.now }
{
    let items = region.items.as_slice();
    if items.is_empty() {
        return Some(LayoutFault::EmptyRegion(region.id));
    }
    if items.len() > MAX_ITEMS {
        return Some(LayoutFault::TooMany(items.len() as u64));
    }
    match without_second(region.id, items) {
        Some(fault) => Some(fault),
        None => too_long(items),
    }
}

fn without_second(region: u32, items: &[Item]) -> Option<LayoutFault>
    requires { length items.now ≤ MAX_ITEMS }
    ensures { result ≡ zero_fault region 0 items.now }
{
    let mut index = 0;
    for item in items {
        if item.seconds == 0 {
            return Some(LayoutFault::ZeroSeconds(region, index));
        }
        index += 1;
    }
    None
}

fn too_long(items: &[Item]) -> Option<LayoutFault>
    requires { length items.now ≤ MAX_ITEMS }
    ensures { result ≡ long_fault items.now }
{
    let seconds = seconds(items);
    if seconds > HOUR as u64 {
        Some(LayoutFault::TooLong(seconds))
    } else {
        None
    }
}

/// The seconds of some items together.
fn seconds(items: &[Item]) -> u64
    requires { length items.now ≤ MAX_ITEMS }
    ensures { result ≡ seconds_of items.now }
{
    let mut sum = 0;
    for item in items {
        sum += item.seconds as u64;
    }
    sum
}

/// The seconds of the region that lasts longest.
#[tactic(auto, using(crate::proofs::LayoutLemmas::layout_bounds))]
pub(crate) fn longest_of(regions: &[Region]) -> u32
    requires { layout_fault regions.now ≡ None }
    ensures value { result ≡ longest regions.now }
    ensures some { 0 < result }
    ensures few { result ≤ HOUR }
{
    let mut most = 0;
    for region in regions {
        most = seconds(region.items.as_slice()).max(most);
    }
    most as u32
}

/// The medium that a region shows at an offset from the layout's start.
#[tactic(auto, using(crate::proofs::LayoutLemmas::region_short))]
pub(crate) fn shown_at(region: &Region, offset: u32) -> MediaId
    requires { region_fault region.now ≡ None }
    ensures value { result ≡ medium_at region.now offset }
    ensures covers { Covers region.now.items (offset % seconds_of region.now.items) result }
{
    let items = region.items.as_slice();
    covering(items, offset as u64 % seconds(items))
}

// At most 64 items are passed.
#[tactic(auto, using(crate::proofs::LayoutLemmas::medium_next, crate::proofs::LayoutLemmas::seconds_front, crate::proofs::LayoutLemmas::seconds_back))]
fn covering(items: &[Item], second: u64) -> MediaId
    requires { second < seconds_of items.now }
    ensures value { result ≡ medium_in items.now second }
    ensures covers { Covers items.now second result }
{
    let mut left = second;
    for item in items {
        if left < item.seconds as u64 {
            return item.media;
        }
        left -= item.seconds as u64;
    }
    unreachable!()
}
