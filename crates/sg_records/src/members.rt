//! Members of a kept client's JSON.

ghost use Rattle.std.specs.Prelude.{◌≡◌, option_map};
ghost use Rattle.serde_json.specs.View.{view};
ghost use Rattle.sg_records.specs.Reading.{fault_named, flag_in, full_in, in_use_in, invalid_in, kind_in, kind_named, number_in, refusal_in, reply_in, row_in, text_in};

use crate::reply::{FaultName, Reply};
use serde_json::Value;
use sg_base::Kind;
use sg_tables::RowId;

/// The member of this name, a whole number of 32 bits.
pub(crate) fn number_in(value: &Value, name: &str) -> Option<u32>
    ensures { result ≡ number_in name.now (view value.now) }
{
    match value.get(name).and_then(Value::as_u64) {
        Some(n) if n < 4_294_967_296 => Some(n as u32),
        _ => None,
    }
}

pub(crate) fn text_in<'v>(value: &'v Value, name: &str) -> Option<&'v str>
    ensures { option_map (λ text. text.now) result ≡ text_in name.now (view value.now) }
{
    value.get(name).and_then(Value::as_str)
}

pub(crate) fn flag_in(value: &Value, name: &str) -> Option<bool>
    ensures { result ≡ flag_in name.now (view value.now) }
{
    value.get(name).and_then(Value::as_bool)
}

/// The kind of this name.
pub fn kind_named(name: &str) -> Option<Kind>
    ensures { result ≡ kind_named name.now }
{
    Kind::of_name(name)
}

fn fault_named(name: &str) -> Option<FaultName>
    ensures { result ≡ fault_named name.now }
{
    if name == "Shape" {
        Some(FaultName::Shape)
    } else if name == "Later" {
        Some(FaultName::Later)
    } else if name == "Layout" {
        Some(FaultName::Layout)
    } else if name == "Daypart" {
        Some(FaultName::Daypart)
    } else if name == "Repeat" {
        Some(FaultName::Repeat)
    } else if name == "Event" {
        Some(FaultName::Event)
    } else if name == "Zone" {
        Some(FaultName::Zone)
    } else if name == "NoReplace" {
        Some(FaultName::NoReplace)
    } else if name == "Incomplete" {
        Some(FaultName::Incomplete)
    } else {
        None
    }
}

fn kind_in(value: &Value, name: &str) -> Option<Kind>
    ensures { result ≡ kind_in name.now (view value.now) }
{
    kind_named(text_in(value, name)?)
}

fn row_in(value: &Value) -> Option<RowId>
    ensures { result ≡ row_in (view value.now) }
{
    let kind = kind_in(value, "kind")?;
    let id = number_in(value, "id")?;
    Some(RowId { kind, id })
}

fn in_use_in(value: &Value) -> Option<Reply>
    ensures { result ≡ in_use_in (view value.now) }
{
    let row = row_in(value)?;
    let by = row_in(value.get("by")?)?;
    Some(Reply::InUse {
        kind: row.kind,
        id: row.id,
        by_kind: by.kind,
        by_id: by.id,
    })
}

fn full_in(value: &Value) -> Option<Reply>
    ensures { result ≡ full_in (view value.now) }
{
    let kind = kind_in(value, "kind")?;
    let limit = number_in(value, "limit")?;
    Some(Reply::Full { kind, limit })
}

fn invalid_in(value: &Value) -> Option<Reply>
    ensures { result ≡ invalid_in (view value.now) }
{
    let fault = fault_named(text_in(value, "fault")?)?;
    Some(Reply::Invalid(fault))
}

// The refusal of a name.
fn refusal_in(value: &Value, name: &str) -> Option<Reply>
    ensures { result ≡ refusal_in (view value.now) name.now }
{
    if name == "Unknown" {
        let row = row_in(value)?;
        Some(Reply::Unknown {
            kind: row.kind,
            id: row.id,
        })
    } else if name == "Exists" {
        let row = row_in(value)?;
        Some(Reply::Exists {
            kind: row.kind,
            id: row.id,
        })
    } else if name == "InUse" {
        in_use_in(value)
    } else if name == "Full" {
        full_in(value)
    } else if name == "Invalid" {
        invalid_in(value)
    } else {
        None
    }
}

/// The reply that JSON says.
pub(crate) fn reply_in(value: &Value) -> Option<Reply>
    ensures { result ≡ reply_in (view value.now) }
{
    match number_in(value, "done") {
        Some(seq) => Some(Reply::Done(seq)),
        None => refusal_in(value, text_in(value, "refused")?),
    }
}
