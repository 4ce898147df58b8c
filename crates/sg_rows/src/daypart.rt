//! Dayparts in JSON: a window, with other windows for weekdays and for dates.

ghost use Rattle.std.specs.Prelude.{◌≡◌, ◌^◌, ◌<◌, ◌++◌, [], true, decimal, IfOk, OnOk, not, codes};
ghost use Rattle.std.specs.List.{AllByRecursion};
ghost use Rattle.serde_json.specs.View.{view};
ghost use Rattle.sg_base.specs.Daypart.{IsDaypart, daypart_fault};
ghost use Rattle.sg_rows.specs.Faults.{Gives, needs, faultless};
ghost use Rattle.sg_rows.specs.Forms.{AllowsDates, is_later_daypart, new_member_at, with_new};
ghost use Rattle.sg_rows.specs.Order.{sorted_by};
ghost use Rattle.sg_rows.specs.Parts.{exactly, list_at};
ghost use Rattle.sg_rows.specs.Rows.{IsWindow, IsException, IsDate, IsDaypartRow, IsId};
ghost use Rattle.sg_rows.specs.Reading.{small, window_at, date_at};
ghost use Rattle.sg_rows.specs.Written.{Takes, text_before, members_before};
ghost use Rattle.sg_rows.specs.Text.{list_of, window_members, later_members, date_json, exception_json, undated_json, dated_json};
ghost use Rattle.sg_rows.specs.declared.fault.RowFault.TheVariants.{Later, Daypart as DaypartCause};

use crate::entry::{Entry, read_list, write_list};
use crate::fault::RowFault;
use crate::form::RowForm;
use crate::out::TextOut;
use crate::part;
use crate::row::ManifestRow;
use crate::writing::{put_list, put_number};
use serde_json::{Value, json};
use sg_base::{Daypart, DaypartId, Window};
use std::alloc::{AllocError, Global};

/// A number of 8 bits.
fn small(number: u32) -> Result<u8, RowFault>
    ensures { Gives (λ n. n) result (small number) }
{
    if number < 256 {
        Ok(number as u8)
    } else {
        Err(RowFault::Shape)
    }
}

#[tactic(auto, unfolding(crate::specs::Reading::window_at))]
fn window(value: &Value) -> Result<Window, RowFault>
    ensures gives { Gives (λ w. w) result (window_at (view value.now)) }
    ensures sound { IfOk result IsWindow }
{
    let start = part::number(value, "start")?;
    let end = part::number(value, "end")?;
    Ok(Window { start, end })
}

/// Writes the last members of an exception or of a date.
#[tactic(auto, unfolding(json::specs::Print::escape_byte))]
fn put_window<O: TextOut>(out: &mut O, window: Window) -> Result<(), O::Error>
    ensures { OnOk result (Takes O.after out.old out.new (members_before true (window_members window))) }
{
    put_number(out, b",\"end\":", window.end)?;
    put_number(out, b",\"start\":", window.start)?;
    out.put(b"}")
}

#[tactic(auto, unfolding(crate::specs::Reading::exception_at))]
impl Entry for (u8, Window) {
    ghost use Rattle.sg_rows.specs.Text.{exception_json};
    ghost use Rattle.sg_rows.specs.Reading.{exception_at};
    ghost use Rattle.sg_rows.specs.Rows.{IsException};

    ghost json = { exception_json };

    ghost at = { exception_at };

    ghost valid = { IsException };

    fn write(&self, alloc: Global) -> Result<Value, AllocError> {
        json!(in alloc; {"day": self.0, "end": self.1.end, "start": self.1.start})
    }

    fn read(_alloc: Global, value: &Value) -> Result<(u8, Window), RowFault> {
        part::exactly(value, 3)?;
        let day = small(part::number(value, "day")?)?;
        let window = window(value)?;
        Ok((day, window))
    }

    #[tactic(auto, unfolding(json::specs::Print::escape_byte))]
    fn put<O: TextOut>(&self, out: &mut O) -> Result<(), O::Error> {
        put_number(out, b"{\"day\":", u32::from(self.0))?;
        put_window(out, self.1)
    }
}

#[tactic(auto, unfolding(crate::specs::Reading::date_at))]
impl Entry for (u32, Window) {
    ghost use Rattle.sg_rows.specs.Text.{date_json};
    ghost use Rattle.sg_rows.specs.Reading.{date_at};
    ghost use Rattle.sg_rows.specs.Rows.{IsDate};

    ghost json = { date_json };

    ghost at = { date_at };

    ghost valid = { IsDate };

    fn write(&self, alloc: Global) -> Result<Value, AllocError> {
        json!(in alloc; {"date": self.0, "end": self.1.end, "start": self.1.start})
    }

    fn read(_alloc: Global, value: &Value) -> Result<(u32, Window), RowFault> {
        part::exactly(value, 3)?;
        let date = part::number(value, "date")?;
        let window = window(value)?;
        Ok((date, window))
    }

    #[tactic(auto, unfolding(json::specs::Print::escape_byte))]
    fn put<O: TextOut>(&self, out: &mut O) -> Result<(), O::Error> {
        put_number(out, b"{\"date\":", self.0)?;
        put_window(out, self.1)
    }
}

/// Version 1 has no dates, so a daypart that has them is of a later one.
fn not_later(form: RowForm, value: &Value) -> Result<(), RowFault>
    ensures { Gives (λ one. one) result
        (needs (not (is_later_daypart form (view value.now))) Later) }
{
    if form == RowForm::Version1 && part::has(value, "dates") {
        Err(RowFault::Later)
    } else {
        Ok(())
    }
}

/// Four members, and the dates where they are one.
fn members(form: RowForm, value: &Value) -> Result<(), RowFault>
    ensures { Gives (λ one. one) result
        (exactly (with_new form 4 (codes "dates") (view value.now)) (view value.now)) }
{
    if form.has_new(value, "dates") {
        part::exactly(value, 5)
    } else {
        part::exactly(value, 4)
    }
}

/// The dates that have a window of their own, in the order given.
#[tactic(auto, using(crate::proofs::FormLemmas::some_dates, crate::proofs::FormLemmas::no_dates))]
fn read_dates(alloc: Global, form: RowForm, value: &Value) -> Result<Vec<(u32, Window)>, RowFault>
    ensures gives { Gives (λ ds. ds.items) result
        (new_member_at form (list_at date_at) [] (codes "dates") (view value.now)) }
    ensures sound { IfOk result (λ ds. AllByRecursion IsDate ds.items) }
    ensures allowed { IfOk result (λ ds. AllowsDates form ds.items) }
{
    if form.has_new(value, "dates") {
        read_list(alloc, part::member(value, "dates")?)
    } else {
        Ok(Vec::new(alloc))
    }
}

/// The daypart of windows, its exceptions by weekday and its dates ascending.
fn made(
    form: RowForm,
    id: u32,
    window: Window,
    exceptions: Vec<(u8, Window)>,
    dates: Vec<(u32, Window)>,
) -> Result<Daypart, RowFault>
    requires id { IsId id }
    requires window { IsWindow window }
    requires exceptions { AllByRecursion IsException exceptions.items }
    requires dates { AllByRecursion IsDate dates.items }
    requires allowed { AllowsDates form dates.items }
    ensures gives { Gives (λ d. d) result
        (faultless DaypartCause (daypart_fault window exceptions.items dates.items)
        (record {
          id = record { 0 = id };
          window = window;
          exceptions = sorted_by (λ e. e.0) exceptions.items;
          dates = sorted_by (λ e. e.0) dates.items;
        })) }
    ensures sound { IfOk result (IsDaypartRow form) }
{
    match Daypart::new(DaypartId(id), window, exceptions, dates) {
        Ok(daypart) => Ok(daypart),
        Err(fault) => Err(RowFault::Daypart(fault)),
    }
}

/// A daypart without its dates, as JSON: as version 1 has it.
pub fn write_undated(alloc: Global, daypart: &Daypart) -> Result<Value, AllocError>
    ensures { IfOk result (λ v. view v ≡ undated_json daypart.now) }
{
    let exceptions = write_list(alloc, daypart.exceptions())?;
    let window = daypart.window();
    json!(in alloc; {
        "end": window.end,
        "exceptions": exceptions,
        "id": daypart.id().0,
        "start": window.start
    })
}

/// The two lists of a daypart, as JSON.
#[derive(Drop)]
struct Lists {
    dates: Value,
    exceptions: Value,
}

fn write_lists(alloc: Global, daypart: &Daypart) -> Result<Lists, AllocError>
    ensures dates { IfOk result (λ l. view l.dates ≡ list_of date_json daypart.now.dates) }
    ensures exceptions { IfOk result
        (λ l. view l.exceptions ≡ list_of exception_json daypart.now.exceptions) }
{
    let dates = write_list(alloc, daypart.dates())?;
    let exceptions = write_list(alloc, daypart.exceptions())?;
    Ok(Lists { dates, exceptions })
}

fn write_dated(alloc: Global, daypart: &Daypart) -> Result<Value, AllocError>
    ensures { IfOk result (λ v. view v ≡ dated_json daypart.now) }
{
    let lists = write_lists(alloc, daypart)?;
    let window = daypart.window();
    json!(in alloc; {
        "dates": lists.dates,
        "end": window.end,
        "exceptions": lists.exceptions,
        "id": daypart.id().0,
        "start": window.start
    })
}

/// Writes a piece and the members of a daypart without its dates, the name of the first in the piece.
#[tactic(auto, unfolding(json::specs::Print::escape_byte))]
fn put_members<O: TextOut>(out: &mut O, piece: &[u8], daypart: &Daypart) -> Result<(), O::Error>
    ensures { OnOk result (Takes O.after out.old out.new
        (λ rest. piece.now ++ (decimal daypart.now.window.end
        ++ members_before true (later_members daypart.now) rest))) }
{
    let window = daypart.window();
    put_number(out, piece, window.end)?;
    put_list(out, b",\"exceptions\":[", daypart.exceptions())?;
    put_number(out, b",\"id\":", daypart.id().0)?;
    put_number(out, b",\"start\":", window.start)?;
    out.put(b"}")?;
    Ok(())
}

#[tactic(auto, unfolding(json::specs::Print::escape_byte))]
fn put_undated<O: TextOut>(out: &mut O, daypart: &Daypart) -> Result<(), O::Error>
    ensures { OnOk result (Takes O.after out.old out.new (text_before (undated_json daypart.now))) }
{
    put_members(out, b"{\"end\":", daypart)
}

#[tactic(auto, unfolding(json::specs::Print::escape_byte))]
fn put_dated<O: TextOut>(out: &mut O, daypart: &Daypart) -> Result<(), O::Error>
    ensures { OnOk result (Takes O.after out.old out.new (text_before (dated_json daypart.now))) }
{
    put_list(out, b"{\"dates\":[", daypart.dates())?;
    put_members(out, b",\"end\":", daypart)?;
    Ok(())
}

#[tactic(auto, unfolding(crate::specs::Reading::daypart_at))]
impl ManifestRow for Daypart {
    ghost use Rattle.sg_rows.specs.Text.{daypart_json};
    ghost use Rattle.sg_rows.specs.Reading.{daypart_at};
    ghost use Rattle.sg_rows.specs.Rows.{IsDaypartRow};

    ghost json = { daypart_json };

    ghost at = { daypart_at };

    ghost valid = { IsDaypartRow };

    ghost key = { λ d. d.id.0 };

    fn write(&self, alloc: Global, form: RowForm) -> Result<Value, AllocError> {
        match form {
            RowForm::Version1 => write_undated(alloc, self),
            RowForm::Version2 | RowForm::Edit => write_dated(alloc, self),
        }
    }

    fn read(alloc: Global, form: RowForm, value: &Value) -> Result<Daypart, RowFault> {
        not_later(form, value)?;
        members(form, value)?;
        let id = part::id(value, "id")?;
        let window = window(value)?;
        let exceptions = read_list(alloc, part::member(value, "exceptions")?)?;
        let dates = read_dates(alloc, form, value)?;
        made(form, id, window, exceptions, dates)
    }

    fn key(&self) -> u32 {
        self.id().0
    }

    fn put<O: TextOut>(&self, form: RowForm, out: &mut O) -> Result<(), O::Error> {
        match form {
            RowForm::Version1 => put_undated(out, self),
            RowForm::Version2 | RowForm::Edit => put_dated(out, self),
        }
    }
}
