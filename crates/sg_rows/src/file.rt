//! Listed files in JSON.

ghost use Rattle.std.specs.Prelude.{◌≡◌, ◌≤◌, ◌++◌, length, IfOk, OnOk};
ghost use Rattle.json.specs.Print.{escape};
ghost use Rattle.hex.specs.Hex.{encode_lower};
ghost use Rattle.sg_rows.specs.Faults.{Gives};
ghost use Rattle.sg_rows.specs.Written.{Takes};
ghost use Rattle.sg_rows.specs.Reading.{file_length};

use crate::fault::RowFault;
use crate::form::RowForm;
use crate::out::TextOut;
use crate::part;
use crate::row::ManifestRow;
use crate::writing::put_number;
use hex::encode_to_slice;
use serde_json::{Value, json};
use sg_base::limits::MAX_FILE_LEN;
use sg_base::{Listed, MediaId};
use std::alloc::{AllocError, Global};

#[tactic(auto, unfolding(crate::specs::Reading::file_at))]
impl ManifestRow for Listed {
    ghost use Rattle.sg_rows.specs.Text.{file_json};
    ghost use Rattle.sg_rows.specs.Reading.{file_at};
    ghost use Rattle.sg_rows.specs.Rows.{IsListed};

    ghost json = { λ _. file_json };

    ghost at = { λ _. file_at };

    ghost valid = { λ _. IsListed };

    ghost key = { λ f. f.media.0 };

    fn write(&self, alloc: Global, _form: RowForm) -> Result<Value, AllocError> {
        let digits = hex::encode(alloc, self.md5.as_slice())?;
        json!(in alloc; {"id": self.media.0, "length": self.length, "md5": digits})
    }

    fn read(_alloc: Global, _form: RowForm, value: &Value) -> Result<Listed, RowFault> {
        part::exactly(value, 3)?;
        let media = part::id(value, "id")?;
        let length = file_length(part::number(value, "length")?)?;
        let md5 = part::digest(value, "md5")?;
        Ok(Listed {
            media: MediaId(media),
            length,
            md5,
        })
    }

    fn key(&self) -> u32 {
        self.media.0
    }

    #[tactic(auto, unfolding(json::specs::Print::escape_byte))]
    fn put<O: TextOut>(&self, _form: RowForm, out: &mut O) -> Result<(), O::Error> {
        put_number(out, b"{\"id\":", self.media.0)?;
        put_number(out, b",\"length\":", self.length)?;
        put_digest(out, b",\"md5\":\"", self.md5.as_slice())?;
        out.put(b"\"}")
    }
}

/// Writes a piece and the digits of a digest.
fn put_digest<O: TextOut>(out: &mut O, piece: &[u8], md5: &[u8]) -> Result<(), O::Error>
    requires { length md5.now ≡ 16 }
    ensures { OnOk result (Takes O.after out.old out.new
        (λ rest. piece.now ++ (escape (encode_lower md5.now) ++ rest))) }
{
    let mut digits = [0; 32];
    out.put(piece)?;
    match encode_to_slice(md5, &mut digits) {
        Ok(()) => out.put(&digits),
        Err(_) => unreachable!(),
    }
}

/// A length of at least a byte, and of no more than a file may have.
fn file_length(length: u32) -> Result<u32, RowFault>
    ensures gives { Gives (λ n. n) result (file_length length) }
    ensures some { IfOk result (λ n. 1 ≤ n) }
    ensures few { IfOk result (λ n. n ≤ MAX_FILE_LEN) }
{
    if length as u64 > MAX_FILE_LEN || length == 0 {
        Err(RowFault::Shape)
    } else {
        Ok(length)
    }
}
