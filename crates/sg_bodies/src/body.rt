//! The JSON of a body.

ghost use Rattle.std.specs.Prelude.{◌≡◌, IfOk, IfErr, None, Some};
ghost use Rattle.serde_json.specs.View.{view};
ghost use Rattle.sg_bodies.specs.Bodies.{json_at};
ghost use Rattle.sg_bodies.specs.declared.body.BodyFault.TheVariants.{Body};

use serde_json::Value;
use sg_rows::RowFault;
use std::alloc::Global;

/// Why a body isn't read.
#[derive(Clone, Copy, Debug, PartialEq, Eq)]
pub enum BodyFault {
    /// It isn't of its form.
    Body,
    Memory,
}

impl From<RowFault> for BodyFault {
    ghost use Rattle.std.specs.Prelude.{◌≡◌};
    ghost use Rattle.sg_bodies.specs.Bodies.{fault_of};

    ghost from_gives = { λ fault body. body ≡ fault_of fault };

    fn from(fault: RowFault) -> BodyFault {
        match fault {
            RowFault::Memory => BodyFault::Memory,
            _ => BodyFault::Body,
        }
    }
}

/// The JSON (RFC 8259) of bytes in UTF-8.
pub fn read_json(alloc: Global, bytes: &[u8]) -> Result<Value, BodyFault>
    ensures json { IfOk result (λ value. json_at bytes.now ≡ Some (view value)) }
    ensures none { IfErr result (λ fault. fault ≡ Body → json_at bytes.now ≡ None) }
{
    match Value::from_slice(alloc, bytes) {
        Ok(value) => Ok(value),
        Err(error) => if error.is_memory() {
            Err(BodyFault::Memory)
        } else {
            Err(BodyFault::Body)
        },
    }
}
