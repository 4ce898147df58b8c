//! Rows of one kind as a manifest has them.

ghost use Rattle.std.specs.Prelude.{◌≡◌, List, ◌++◌, IfOk, OnOk};
ghost use Rattle.std.specs.List.Sorted.{IsNonDecreasing};
ghost use Rattle.sg_base.specs.declared.row.Row.{Row as AnyRow};
ghost use Rattle.sg_own_rows.specs.Numbers.{picked, naming};
ghost use Rattle.sg_own_rows.specs.Own.{all_in, campaign_in, daypart_in, event_in, file_in, layout_in};

use crate::names::{has, names_one};
use sg_base::{Campaign, Daypart, Event, Layout, Listed, Row, Rows};
use sg_tables::Entry;
use std::alloc::{AllocError, Global};

/// A row of a kind that a manifest lists.
pub trait OfManifest: Sized + Drop {
    /// The row itself, if it is of the kind.
    ghost inside: { AnyRow → List Self };

    /// Adds a copy of a row, if it is of the kind.
    fn add(rows: &mut Vec<Self>, row: &Row) -> Result<(), AllocError>
        ensures { OnOk result (rows.new.items ≡ rows.old.items ++ inside row.now) };
}

/// Copies of the rows that are among some.
pub fn copies<T: OfManifest>(
    alloc: Global,
    entries: &[Entry],
    among: &[u64],
) -> Result<Rows<T>, AllocError>
    requires { IsNonDecreasing among.now }
    ensures { IfOk result (λ rows. rows ≡ all_in T.inside (picked among.now entries.now)) }
{
    let mut rows = Vec::new(alloc);
    for entry in entries {
        if has(among, entry.id()) {
            T::add(&mut rows, entry.row())?;
        }
    }
    Ok(Rows::from_vec(rows))
}

/// Copies of the events that name one of some.
pub fn copies_naming(
    alloc: Global,
    entries: &[Entry],
    some: &[u64],
) -> Result<Rows<Event>, AllocError>
    requires { IsNonDecreasing some.now }
    ensures { IfOk result (λ rows. rows ≡ all_in event_in (naming some.now entries.now)) }
{
    let mut rows = Vec::new(alloc);
    for entry in entries {
        if names_one(some, entry) {
            Event::add(&mut rows, entry.row())?;
        }
    }
    Ok(Rows::from_vec(rows))
}

impl OfManifest for Layout {
    ghost inside = { layout_in };

    fn add(rows: &mut Vec<Layout>, row: &Row) -> Result<(), AllocError> {
        if let Row::Layout(layout) = row {
            rows.push(layout.clone()?)?;
        }
        Ok(())
    }
}

impl OfManifest for Campaign {
    ghost inside = { campaign_in };

    fn add(rows: &mut Vec<Campaign>, row: &Row) -> Result<(), AllocError> {
        if let Row::Campaign(campaign) = row {
            rows.push(campaign.clone()?)?;
        }
        Ok(())
    }
}

impl OfManifest for Daypart {
    ghost inside = { daypart_in };

    fn add(rows: &mut Vec<Daypart>, row: &Row) -> Result<(), AllocError> {
        if let Row::Daypart(daypart) = row {
            rows.push(daypart.clone()?)?;
        }
        Ok(())
    }
}

impl OfManifest for Event {
    ghost inside = { event_in };

    fn add(rows: &mut Vec<Event>, row: &Row) -> Result<(), AllocError> {
        if let Row::Event(row) = row {
            rows.push(row.event)?;
        }
        Ok(())
    }
}

impl OfManifest for Listed {
    ghost inside = { file_in };

    fn add(rows: &mut Vec<Listed>, row: &Row) -> Result<(), AllocError> {
        if let Row::Media(file) = row {
            rows.push(*file)?;
        }
        Ok(())
    }
}
