//! A display's own rows.

ghost use Rattle.std.specs.Prelude.{◌≡◌, ◌^◌, ◌<◌, Some, All, IfOk, OnOk};
ghost use Rattle.std.specs.Option.{option_copied};
ghost use Rattle.std.specs.List.{AllByRecursion};
ghost use Rattle.sg_base.specs.declared.kind.Kind.TheVariants as kind;
ghost use Rattle.sg_base.specs.declared.row.Row.TheVariants as row;
ghost use Rattle.sg_base.specs.Rising.{IsRising};
ghost use Rattle.sg_edit_rows.specs.EditRows.{IsDisplay, IsRow};
ghost use Rattle.sg_own_rows.specs.Numbers.{AreNames, IsListOf};
ghost use Rattle.sg_own_rows.specs.Own.{IsSnapshotIn, addresses, files_of, own_of, over, own_of_display, own_snapshot, too_large};
ghost use Rattle.sg_rows.specs.declared.form.RowForm.TheVariants.{Edit};
ghost use Rattle.sg_tables.specs.Counts.{IsBounded, IsShort};
ghost use Rattle.sg_tables.specs.Entries.{number_of_kept};
ghost use Rattle.sg_tables.specs.Refusals.{AreClosed, row_at};
ghost use Rattle.sg_tables.specs.Rows.{at, references};

use crate::copies::{copies, copies_naming};
use crate::names::{add, add_groups, add_named, add_naming, add_references, order};
use sg_base::limits::{
    MANIFEST_CAMPAIGNS, MANIFEST_DAYPARTS, MANIFEST_EVENTS, MANIFEST_FILES, MANIFEST_LAYOUTS,
};
use sg_base::{DisplayId, DisplayRow, Kind, LimitName, Listed, Row, Rows};
use sg_manifest::Draft;
use sg_tables::{Entry, RowId, Tables};
use std::alloc::{AllocError, Global};

/// What a display's manifest is made of.
#[derive(Debug, Drop)]
pub enum Own {
    /// There is no such display.
    Unknown,
    /// There are more own rows than a manifest may have: the first limit that is exceeded, and how many there are.
    TooLarge { name: LimitName, count: u64 },
    /// The rows, which make a snapshot.
    Rows(Draft),
}

/// The rows of a display's manifest, or why it has none.
pub fn own_rows(alloc: Global, tables: &Tables, display: DisplayId) -> Result<Own, AllocError>
    ensures own { IfOk result (λ own. own ≡ own_of display tables.now.rows) }

    // Rows that are each valid by themselves are so together.
    ensures valid { AllByRecursion (λ e. IsRow Edit e.row) tables.now.rows
        → IfOk result IsSnapshotIn }
{
    match display_entry(tables, display) {
        None => Ok(Own::Unknown),
        Some(entry) => match entry.row() {
            Row::Display(row) => rows_of(alloc, tables, entry, row),
            _ => Ok(Own::Unknown),
        },
    }
}

/// The files of a display, also where it has more rows than a manifest may have; none of a display that isn't there.
pub fn own_files(
    alloc: Global,
    tables: &Tables,
    display: DisplayId,
) -> Result<Rows<Listed>, AllocError>
    ensures { IfOk result (λ files. files ≡ files_of display tables.now.rows) }
{
    match display_entry(tables, display) {
        None => Ok(Rows::from_vec(Vec::new(alloc))),
        Some(entry) => match entry.row() {
            Row::Display(row) => {
                let names = Names::of(alloc, tables, entry, row)?;
                let files = copies(alloc, tables.rows_of(Kind::Media), &names.by_layouts)?;
                Ok(files)
            }
            _ => Ok(Rows::from_vec(Vec::new(alloc))),
        },
    }
}

fn display_entry(tables: &Tables, display: DisplayId) -> Option<&Entry>
    ensures { option_copied result ≡ row_at (at kind.Display display.0) tables.now.rows }
{
    tables.entry(RowId {
        kind: Kind::Display,
        id: display.0,
    })
}

// What own rows name, from step to step.
#[derive(Drop)]
struct Names {
    // the display and its groups
    addresses: Vec<u64>,
    by_events: Vec<u64>,
    // what the display, its events and its campaigns name
    shown: Vec<u64>,
    by_layouts: Vec<u64>,
}

impl Names {
    fn of(
        alloc: Global,
        tables: &Tables,
        entry: &Entry,
        display: &DisplayRow,
    ) -> Result<Names, AllocError>
        requires row { entry.now.row ≡ row.Display display.now }
        requires bounded { IsBounded entry.now }
        ensures rising { OnOk result (IsRising number_of_kept tables.now.rows) }
        ensures closed { OnOk result (AreClosed tables.now.rows) }
        ensures fits { OnOk result (AllByRecursion IsBounded tables.now.rows) }
        ensures names { IfOk result (λ names. AreNames display.now tables.now.rows names.addresses.items
            names.by_events.items names.shown.items names.by_layouts.items) }
    {
        let addresses = addresses_of(alloc, display)?;
        let mut by_events = Vec::new(alloc);
        add_naming(&mut by_events, tables.rows_of(Kind::Event), &addresses)?;
        let mut shown = Vec::new(alloc);
        add_references(&mut shown, entry)?;
        shown.extend_from_slice(by_events.as_slice())?;
        order(&mut by_events);
        add_named(&mut shown, tables.rows_of(Kind::Campaign), &by_events)?;
        order(&mut shown);
        let mut by_layouts = Vec::new(alloc);
        add_named(&mut by_layouts, tables.rows_of(Kind::Layout), &shown)?;
        order(&mut by_layouts);
        Ok(Names {
            addresses,
            by_events,
            shown,
            by_layouts,
        })
    }
}

fn addresses_of(alloc: Global, display: &DisplayRow) -> Result<Vec<u64>, AllocError>
    requires short { display.now.id.0 < 2 ^ 32 }
    requires named { All IsShort (references (row.Display display.now)) }
    ensures { IfOk result (λ numbers. IsListOf (addresses display.now) numbers.items) }
{
    let mut numbers = Vec::new(alloc);
    let id = RowId {
        kind: Kind::Display,
        id: display.id.0,
    };
    add(&mut numbers, id)?;
    add_groups(&mut numbers, display.groups.as_slice())?;
    order(&mut numbers);
    Ok(numbers)
}

fn rows_of(
    alloc: Global,
    tables: &Tables,
    entry: &Entry,
    display: &DisplayRow,
) -> Result<Own, AllocError>
    requires row { entry.now.row ≡ row.Display display.now }
    requires bounded { IsBounded entry.now }
    requires there { row_at (at kind.Display display.now.id.0) tables.now.rows ≡ Some entry.now }
    ensures own { IfOk result (λ own. own ≡ own_of_display tables.now.rows (Some display.now)) }
    ensures valid { AllByRecursion (λ e. IsRow Edit e.row) tables.now.rows
        → IsDisplay display.now → IfOk result IsSnapshotIn }
{
    let names = Names::of(alloc, tables, entry, display)?;
    let draft = draft_of(alloc, tables, display, &names)?;
    match too_large(&draft) {
        Some(large) => Ok(large),
        None => Ok(Own::Rows(draft)),
    }
}

fn draft_of(
    alloc: Global,
    tables: &Tables,
    display: &DisplayRow,
    names: &Names,
) -> Result<Draft, AllocError>
    requires { AreNames display.now tables.now.rows names.now.addresses.items
        names.now.by_events.items names.now.shown.items names.now.by_layouts.items }
    ensures { IfOk result (λ draft. draft ≡ own_snapshot display.now tables.now.rows) }
{
    let zone = display.zone.clone()?;
    let layouts = copies(alloc, tables.rows_of(Kind::Layout), &names.shown)?;
    let campaigns = copies(alloc, tables.rows_of(Kind::Campaign), &names.by_events)?;
    let dayparts = copies(alloc, tables.rows_of(Kind::Daypart), &names.by_events)?;
    let events = copies_naming(alloc, tables.rows_of(Kind::Event), &names.addresses)?;
    let files = copies(alloc, tables.rows_of(Kind::Media), &names.by_layouts)?;
    Ok(Draft {
        version: 2,
        zone,
        default: display.default,
        layouts,
        campaigns,
        dayparts,
        events,
        files,
    })
}

// The first limit that is exceeded.
fn too_large(draft: &Draft) -> Option<Own>
    ensures { result ≡ too_large draft.now }
{
    if let Some(large) = over(LimitName::Files, MANIFEST_FILES, draft.files.len()) {
        return Some(large);
    }
    if let Some(large) = over(LimitName::Layouts, MANIFEST_LAYOUTS, draft.layouts.len()) {
        return Some(large);
    }
    if let Some(large) = over(
        LimitName::Campaigns,
        MANIFEST_CAMPAIGNS,
        draft.campaigns.len(),
    ) {
        return Some(large);
    }
    if let Some(large) = over(LimitName::Dayparts, MANIFEST_DAYPARTS, draft.dayparts.len()) {
        return Some(large);
    }
    over(LimitName::Events, MANIFEST_EVENTS, draft.events.len())
}

fn over(name: LimitName, most: u64, count: usize) -> Option<Own>
    ensures { result ≡ over name most count }
{
    let count = count as u64;
    if most < count {
        Some(Own::TooLarge { name, count })
    } else {
        None
    }
}
