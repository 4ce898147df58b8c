// The calls of a store, as data.

use sg_base::{Listed, Rows};

/// One call of a store.
#[derive(Debug, Drop)]
pub enum Call {
    /// Begins to stage a file.
    Begin(Listed),
    /// Brings the next bytes of the half staged file.
    Bytes(Rows<u8>),
    /// Takes the half staged file as held.
    Seal,
    /// Gives up the staged files that aren't among these.
    Keep(Rows<Listed>),
    /// Makes a manifest and its files current.
    Switch {
        manifest: Rows<u8>,
        files: Rows<Listed>,
    },
    /// Opens the store again.
    Open,
}
