//! Dayparts, with their windows for weekdays and for dates.

ghost use Rattle.std.specs.Prelude.{IfSome};
ghost use Rattle.std.specs.List.{AllByRecursion};
ghost use Rattle.sg_rows.specs.Forms.{AllowsDates};
ghost use Rattle.sg_rows.specs.Rows.{IsId, IsWindow, IsException, IsDate, IsDaypartRow};

use crate::list::{ScanPart, ScanRow, scan_parts};
use crate::scan::Scan;
use sg_base::{Daypart, DaypartId, Window};
use sg_rows::RowForm;
use std::alloc::Global;

/// The last members of an exception or of a date.
fn window(text: &mut Scan) -> Option<Window>
    ensures { IfSome result IsWindow }
{
    let end = text.number_after(b",\"end\":")?;
    let start = text.number_after(b",\"start\":")?;
    text.pass(b"}")?;
    Some(Window { start, end })
}

impl ScanPart for (u8, Window) {
    ghost use Rattle.sg_rows.specs.Rows.{IsException};

    ghost valid = { IsException };

    fn scan(_alloc: Global, text: &mut Scan) -> Option<(u8, Window)> {
        let day = text.number_after(b"{\"day\":")?;
        if day > 255 {
            return None;
        }
        let window = window(text)?;
        Some((day as u8, window))
    }
}

impl ScanPart for (u32, Window) {
    ghost use Rattle.sg_rows.specs.Rows.{IsDate};

    ghost valid = { IsDate };

    fn scan(_alloc: Global, text: &mut Scan) -> Option<(u32, Window)> {
        let date = text.number_after(b"{\"date\":")?;
        let window = window(text)?;
        Some((date, window))
    }
}

/// The dates, of which version 1 has none, and the name of the next member.
fn dates(alloc: Global, form: RowForm, text: &mut Scan) -> Option<Vec<(u32, Window)>>
    ensures valid { IfSome result (λ ds. AllByRecursion IsDate ds.items) }
    ensures allowed { IfSome result (λ ds. AllowsDates form ds.items) }
{
    match form {
        RowForm::Version1 => {
            text.pass(b"{\"end\":")?;
            Some(Vec::new(alloc))
        }
        RowForm::Version2 | RowForm::Edit => {
            text.pass(b"{\"dates\":[")?;
            let dates = scan_parts(alloc, text)?;
            text.pass(b",\"end\":")?;
            Some(dates)
        }
    }
}

/// The daypart of windows.
fn made(
    form: RowForm,
    id: u32,
    window: Window,
    exceptions: Vec<(u8, Window)>,
    dates: Vec<(u32, Window)>,
) -> Option<Daypart>
    requires id { IsId id }
    requires window { IsWindow window }
    requires exceptions { AllByRecursion IsException exceptions.items }
    requires dates { AllByRecursion IsDate dates.items }
    requires allowed { AllowsDates form dates.items }
    ensures { IfSome result (IsDaypartRow form) }
{
    match Daypart::new(DaypartId(id), window, exceptions, dates) {
        Ok(daypart) => Some(daypart),
        Err(_) => None,
    }
}

impl ScanRow for Daypart {
    ghost use Rattle.sg_rows.specs.Rows.{IsDaypartRow};

    ghost valid = { IsDaypartRow };

    fn scan(alloc: Global, form: RowForm, text: &mut Scan) -> Option<Daypart> {
        let dates = dates(alloc, form, text)?;
        let end = text.number()?;
        text.pass(b",\"exceptions\":[")?;
        let exceptions = scan_parts(alloc, text)?;
        let id = text.id_after(b",\"id\":")?;
        let start = text.number_after(b",\"start\":")?;
        text.pass(b"}")?;
        made(form, id, Window { start, end }, exceptions, dates)
    }
}
