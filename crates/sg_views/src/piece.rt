//! The pieces of a display's files.

ghost use Rattle.std.specs.Prelude.{◌≡◌, ℕ, ◌<◌, ◌%◌, List, IfOk, IfErr, OnOk, drop};
ghost use Rattle.std.specs.Option.{option_copied};
ghost use Rattle.sg_base.specs.declared.limits.TheConstants.{PIECE_LEN};
ghost use Rattle.sg_keeper.specs.View.{Ran, Refused, Same};
ghost use Rattle.sg_own_rows.specs.Own.{files_of};
ghost use Rattle.sg_views.specs.Pieces.{HavePieces, IsFileReply, file_reply, listed, piece_from};

use sg_base::limits::PIECE_LEN;
use sg_base::{DisplayId, Listed, MediaId, Rows};
use sg_keeper::{Keeper, KeeperFail};
use sg_own_rows::own_files;
use sg_records::piece_key;
use sg_tables::Tables;
use std::alloc::{AllocError, Global};

/// The answer to a display that asks for a piece of a file.
#[derive(Debug, Drop)]
pub enum FileReply {
    /// The bytes from the offset to the next multiple of 65,536, or to the end of the file.
    Bytes(Rows<u8>),
    /// The medium isn't among the files of the display.
    NotListed,
    /// The file has no byte at this offset: it ends at this length or before.
    PastEnd { length: u32 },
}

/// A piece of a file of a display. One row of the keeper is read, and nothing is changed.
pub fn piece_of<K: Keeper>(
    alloc: Global,
    tables: &Tables,
    keeper: &mut K,
    display: DisplayId,
    media: MediaId,
    offset: u32,
) -> Result<FileReply, KeeperFail>
    // Bytes are given exactly where the medium is listed and the offset is below its length.
    ensures form { IfOk result
        (IsFileReply (listed media (files_of display tables.now.rows)) offset) }

    // If the keeper tells its rows, they are the medium's bytes.
    ensures bytes { IfOk result (λ reply. (stored : List ℕ) → (K.view keeper.old).told
        → HavePieces media.0 stored (K.view keeper.old).rows
        → reply ≡ file_reply (listed media (files_of display tables.now.rows)) offset stored) }
    ensures ran { OnOk result (Ran 0 (K.view keeper.old) (K.view keeper.new)) }
    ensures refused { IfErr result (λ fail. Refused fail (K.view keeper.old) (K.view keeper.new)) }
    ensures same { Same (K.view keeper.old) (K.view keeper.new) }
{
    let files = own_files(alloc, tables, display)?;
    match find_listed(files.as_slice(), media) {
        None => Ok(FileReply::NotListed),
        Some(file) => if offset < file.length {
            let bytes = bytes_from(alloc, keeper, media, offset)?;
            Ok(FileReply::Bytes(bytes))
        } else {
            Ok(FileReply::PastEnd {
                length: file.length,
            })
        },
    }
}

fn find_listed(files: &[Listed], media: MediaId) -> Option<&Listed>
    ensures { option_copied result ≡ listed media files.now }
{
    files.iter().find(|file| file.media.0 == media.0)
}

// The bytes of a medium from an offset on, as far as its piece has them.
fn bytes_from<K: Keeper>(
    alloc: Global,
    keeper: &mut K,
    media: MediaId,
    offset: u32,
) -> Result<Rows<u8>, KeeperFail>
    ensures bytes { IfOk result (λ bytes. (stored : List ℕ) → (K.view keeper.old).told
        → HavePieces media.0 stored (K.view keeper.old).rows → bytes ≡ piece_from offset stored) }
    ensures ran { OnOk result (Ran 0 (K.view keeper.old) (K.view keeper.new)) }
    ensures refused { IfErr result (λ fail. Refused fail (K.view keeper.old) (K.view keeper.new)) }
    ensures same { Same (K.view keeper.old) (K.view keeper.new) }
{
    match keeper.get(&piece_key(media, offset / PIECE_LEN))? {
        None => Ok(Rows::from_vec(Vec::new(alloc))),
        Some(bytes) => {
            let rest = rest_of(alloc, bytes, (offset % PIECE_LEN) as usize)?;
            Ok(rest)
        }
    }
}

// The bytes from a place on.
fn rest_of(alloc: Global, bytes: Vec<u8>, from: usize) -> Result<Rows<u8>, AllocError>
    ensures { IfOk result (λ rest. rest ≡ drop from bytes.items) }
{
    if from == 0 {
        return Ok(Rows::from_vec(bytes));
    }
    if from >= bytes.len() {
        return Ok(Rows::from_vec(Vec::new(alloc)));
    }
    let rest = Vec::from_slice(alloc, &bytes[from..])?;
    Ok(Rows::from_vec(rest))
}
