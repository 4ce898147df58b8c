//! Listed files.

ghost use Rattle.std.specs.Prelude.{IfSome};

use crate::list::ScanRow;
use crate::scan::Scan;
use hex::decode_to_slice;
use sg_base::limits::MAX_FILE_LEN;
use sg_base::{Listed, MediaId};
use sg_rows::RowForm;
use std::alloc::Global;

fn digest(text: &mut Scan) -> Option<[u8; 16]> {
    text.pass(b",\"md5\":\"")?;
    let digits = text.text()?;
    let mut md5 = [0u8; 16];
    match decode_to_slice(digits, &mut md5) {
        Ok(()) => Some(md5),
        Err(_) => None,
    }
}

impl ScanRow for Listed {
    ghost use Rattle.sg_rows.specs.Rows.{IsListed};

    ghost valid = { λ _. IsListed };

    fn scan(_alloc: Global, _form: RowForm, text: &mut Scan) -> Option<Listed> {
        let media = text.id_after(b"{\"id\":")?;
        let length = text.number_after(b",\"length\":")?;
        if length == 0 || length as u64 > MAX_FILE_LEN {
            return None;
        }
        let md5 = digest(text)?;
        text.pass(b"}")?;
        Some(Listed {
            media: MediaId(media),
            length,
            md5,
        })
    }
}
