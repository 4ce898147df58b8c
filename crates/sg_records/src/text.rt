//! JSON from the bytes of a row and to them.

ghost use Rattle.std.specs.Prelude.{◌≡◌, IfOk, MatchOption, Some, false};
ghost use Rattle.serde_json.specs.Read.{read as json_of};
ghost use Rattle.serde_json.specs.View.{view};
ghost use Rattle.serde_json.specs.Written.{compact_text, has_float};
ghost use Rattle.serde_json.specs.Data.{Data};
ghost use Rattle.sg_rows.specs.Compact.{IsPlain};

use serde_json::Value;
use sg_base::Rows;
use std::alloc::{AllocError, Global};

/// The text of JSON that has no float.
pub(crate) fn write(alloc: Global, value: &Value) -> Result<Rows<u8>, AllocError>
    requires { has_float (view value.now) ≡ false }
    ensures { IfOk result (λ text. text ≡ compact_text (view value.now)) }
{
    Ok(Rows::from_vec(value.to_string(alloc)?.into_bytes()))
}

/// The JSON of a text; `None` if it is the text of no plain JSON.
pub(crate) fn read(alloc: Global, bytes: &[u8]) -> Result<Option<Value>, AllocError>
    ensures { IfOk result (λ found. (json : Data) → IsPlain json → bytes.now ≡ compact_text json
        → json_of (compact_text json) ≡ Some json
        → MatchOption found ⊥ (λ value. view value ≡ json)) }
{
    match Value::from_slice(alloc, bytes) {
        Ok(value) => Ok(Some(value)),
        Err(error) => if error.is_memory() {
            Err(AllocError)
        } else {
            Ok(None)
        },
    }
}
