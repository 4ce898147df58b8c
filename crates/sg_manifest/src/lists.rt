//! The lists of a manifest: how many entries one may have, and entry by entry its fault and its id.

ghost use Rattle.std.specs.Prelude.{◌≡◌, ◌==◌, ◌<◌, ◌≤◌, [], length, IfOk};
ghost use Rattle.std.specs.List.{AllByRecursion, IsDistinct, list_any};
ghost use Rattle.serde_json.specs.View.{view, items_view};
ghost use Rattle.sg_rows.specs.Order.{same_number};
ghost use Rattle.sg_rows.specs.Parts.{member_at, items_at};
ghost use Rattle.sg_rows.specs.Faults.{Gives as RowGives};
ghost use Rattle.sg_manifest.specs.Faults.{Gives, in_entry};
ghost use Rattle.sg_manifest.specs.Reading.{entries_at, rows_at};

use crate::fault::{ManifestFault, in_entry};
use serde_json::Value;
use sg_base::limits::{
    MANIFEST_CAMPAIGNS, MANIFEST_DAYPARTS, MANIFEST_EVENTS, MANIFEST_FILES, MANIFEST_LAYOUTS,
};
use sg_base::{Kind, LimitName};
use sg_rows::{ManifestRow, RowFault, RowForm, part};
use std::alloc::Global;

/// How a list of a manifest is numbered, named and limited, and of which kind its rows are.
pub(crate) struct ListRule {
    list: u32,
    name: LimitName,
    most: u64,
    kind: Kind,
}

pub(crate) const FILES: ListRule = ListRule {
    list: 1,
    name: LimitName::Files,
    most: MANIFEST_FILES,
    kind: Kind::Media,
};

pub(crate) const LAYOUTS: ListRule = ListRule {
    list: 2,
    name: LimitName::Layouts,
    most: MANIFEST_LAYOUTS,
    kind: Kind::Layout,
};

pub(crate) const CAMPAIGNS: ListRule = ListRule {
    list: 3,
    name: LimitName::Campaigns,
    most: MANIFEST_CAMPAIGNS,
    kind: Kind::Campaign,
};

pub(crate) const DAYPARTS: ListRule = ListRule {
    list: 4,
    name: LimitName::Dayparts,
    most: MANIFEST_DAYPARTS,
    kind: Kind::Daypart,
};

pub(crate) const EVENTS: ListRule = ListRule {
    list: 5,
    name: LimitName::Events,
    most: MANIFEST_EVENTS,
    kind: Kind::Event,
};

/// The entry at an index of a list.
#[tactic(auto, using(crate::proofs::FaultLemmas::entry_exit))]
fn read_entry<T: ManifestRow>(
    alloc: Global,
    form: RowForm,
    value: &Value,
    list: u32,
    index: u32,
) -> Result<T, ManifestFault>
    ensures gives { Gives (λ x. x) result (in_entry list index (T.at form (view value.now))) }
    ensures sound { IfOk result (T.valid form) }
{
    match T::read(alloc, form, value) {
        Ok(row) => Ok(row),
        Err(fault) => Err(in_entry(list, index, fault)),
    }
}

/// Whether an id was seen.
fn is_seen(seen: &[u32], id: u32) -> bool
    ensures { result ≡ list_any (λ n. n == id) seen.now }
{
    seen.iter().any(|other| *other == id)
}

/// Each entry of a list, in one pass. The longest list that a manifest may have is that of events.
fn read_entries<T: ManifestRow>(
    alloc: Global,
    items: &[Value],
    rule: &ListRule,
    form: RowForm,
) -> Result<Vec<T>, ManifestFault>
    requires { length items.now ≤ MANIFEST_EVENTS }
    ensures gives { Gives (λ v. v.items) result
        (entries_at rule.now.list rule.now.kind (T.at form) T.key 0 [] (items_view items.now)) }
    ensures sound { IfOk result (λ v. AllByRecursion (T.valid form) v.items) }
    ensures long { IfOk result (λ v. length v.items ≡ length items.now) }
    ensures apart { IfOk result (λ v. IsDistinct (same_number T.key) v.items) }
{
    let mut rows = Vec::new(alloc);
    let mut seen = Vec::new(alloc);
    for (index, item) in items.iter().enumerate() {
        let row: T = read_entry(alloc, form, item, rule.list, index as u32)?;
        let id = row.key();
        if is_seen(seen.as_slice(), id) {
            return Err(ManifestFault::Double {
                kind: rule.kind,
                id,
            });
        }
        seen.push(id)?;
        rows.push(row)?;
    }
    Ok(rows)
}

fn member_items<'v>(value: &'v Value, name: &str) -> Result<&'v [Value], RowFault>
    ensures { RowGives (λ vs. items_view vs.now) result (member_at items_at name.now (view value.now)) }
{
    part::items(part::member(value, name)?)
}

/// The rows of the list that is the member of this name. Its limit is looked at before its entries.
pub(crate) fn read_rows<T: ManifestRow>(
    alloc: Global,
    value: &Value,
    name: &str,
    rule: &ListRule,
    form: RowForm,
) -> Result<Vec<T>, ManifestFault>
    requires { rule.now.most ≤ MANIFEST_EVENTS }
    ensures gives { Gives (λ v. v.items) result
        (rows_at rule.now.list rule.now.name rule.now.most rule.now.kind (T.at form) T.key
        name.now (view value.now)) }
    ensures sound { IfOk result (λ v. AllByRecursion (T.valid form) v.items) }
    ensures few { IfOk result (λ v. length v.items ≤ rule.now.most) }
    ensures apart { IfOk result (λ v. IsDistinct (same_number T.key) v.items) }
{
    let items = member_items(value, name)?;
    if items.len() as u64 > rule.most {
        return Err(ManifestFault::Limit {
            name: rule.name,
            count: items.len() as u64,
        });
    }
    read_entries(alloc, items, rule, form)
}
