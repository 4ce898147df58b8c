//! The parts of rows in JSON: members, numbers, ids, digests.

ghost use Rattle.std.specs.Prelude.{◌≡◌, ◌&&◌, ◌||◌, nat_le, not, IfOk};
ghost use Rattle.std.specs.List.{list_all};
ghost use Rattle.serde_json.specs.Find.{get};
ghost use Rattle.serde_json.specs.View.{view, items_view};
ghost use Rattle.sg_rows.specs.Faults.{Gives, needs, wants};
ghost use Rattle.sg_rows.specs.Parts.{has_count, exactly, has_member, member_at, number_at, id_at, text_at, integer_at, is_digit, digest_at, items_at};
ghost use Rattle.sg_rows.specs.Rows.{IsId};
ghost use Rattle.sg_rows.specs.declared.fault.RowFault.TheVariants.{Shape};

use crate::fault::RowFault;
use hex::FromHex;
use serde_json::Value;

/// Whether an object has this many members.
pub(crate) fn has_members(value: &Value, count: usize) -> bool
    ensures { result ≡ has_count count (view value.now) }
{
    match value.as_object() {
        Some(members) => members.len() == count,
        None => false,
    }
}

/// An object of this many members. Where a row's names are as many, and each is found, it has no other.
pub fn exactly(value: &Value, count: usize) -> Result<(), RowFault>
    ensures { Gives (λ one. one) result (exactly count (view value.now)) }
{
    if has_members(value, count) {
        Ok(())
    } else {
        Err(RowFault::Shape)
    }
}

/// The member of this name.
pub fn member<'v>(value: &'v Value, name: &str) -> Result<&'v Value, RowFault>
    ensures { Gives (λ v. view v.now) result (wants (get name.now (view value.now)) Shape) }
{
    value.get(name).ok_or(RowFault::Shape)
}

/// Whether there is a member of this name.
pub fn has(value: &Value, name: &str) -> bool
    ensures { result ≡ has_member name.now (view value.now) }
{
    match value.get(name) {
        Some(_) => true,
        None => false,
    }
}

/// A whole number of 32 bits.
pub fn whole(value: &Value) -> Result<u32, RowFault>
    ensures { Gives (λ n. n) result (number_at (view value.now)) }
{
    match value.as_u64() {
        Some(n) if n < 4_294_967_296 => Ok(n as u32),
        _ => Err(RowFault::Shape),
    }
}

/// The id of a row: a number of at least 1.
#[tactic(auto, unfolding(crate::specs::Parts::id_at))]
pub fn whole_id(value: &Value) -> Result<u32, RowFault>
    ensures gives { Gives (λ n. n) result (id_at (view value.now)) }
    ensures sound { IfOk result IsId }
{
    let n = whole(value)?;
    if n > 0 { Ok(n) } else { Err(RowFault::Shape) }
}

/// The member of this name, a whole number of 32 bits.
pub fn number(value: &Value, name: &str) -> Result<u32, RowFault>
    ensures { Gives (λ n. n) result (member_at number_at name.now (view value.now)) }
{
    whole(member(value, name)?)
}

/// The member of this name, an id.
pub fn id(value: &Value, name: &str) -> Result<u32, RowFault>
    ensures gives { Gives (λ n. n) result (member_at id_at name.now (view value.now)) }
    ensures sound { IfOk result IsId }
{
    whole_id(member(value, name)?)
}

/// A text.
pub fn text(value: &Value) -> Result<&str, RowFault>
    ensures { Gives (λ t. t.now) result (text_at (view value.now)) }
{
    value.as_str().ok_or(RowFault::Shape)
}

/// The entries of a list.
pub fn items(value: &Value) -> Result<&[Value], RowFault>
    ensures { Gives (λ vs. items_view vs.now) result (items_at (view value.now)) }
{
    match value.as_array() {
        Some(items) => Ok(items.as_slice()),
        None => Err(RowFault::Shape),
    }
}

/// Whether a text has no other than the hexadecimal digits 0 to 9 and a to f.
fn is_lower(text: &str) -> bool
    ensures { result ≡ list_all is_digit text.now }
{
    text.as_bytes()
        .iter()
        .all(|b| 48 <= *b && *b <= 57 || 97 <= *b && *b <= 102)
}

/// The digest of 16 bytes that digits say.
#[tactic(auto, unfolding(crate::specs::Parts::digest_at))]
fn digest_of(value: &Value) -> Result<[u8; 16], RowFault>
    ensures { Gives (λ d. d) result (digest_at (view value.now)) }
{
    let digits = text(value)?;
    if !is_lower(digits) {
        return Err(RowFault::Shape);
    }
    <[u8; 16] as FromHex>::from_hex(digits)
        .ok()
        .ok_or(RowFault::Shape)
}

/// The member of this name, a digest of 16 bytes.
pub(crate) fn digest(value: &Value, name: &str) -> Result<[u8; 16], RowFault>
    ensures { Gives (λ d. d) result (member_at digest_at name.now (view value.now)) }
{
    digest_of(member(value, name)?)
}

/// The member of this name, an integer of 32 bits with sign.
pub(crate) fn integer(value: &Value, name: &str) -> Result<i32, RowFault>
    ensures { Gives (λ z. z) result (member_at integer_at name.now (view value.now)) }
{
    match member(value, name)?.as_i64() {
        Some(n) if -2_147_483_648 <= n && n <= 2_147_483_647 => Ok(n as i32),
        _ => Err(RowFault::Shape),
    }
}
