//! Changes for which there is room.

use crate::entry::Entry;
use sg_base::Kind;

/// A change that nothing refuses, with all that it needs.
#[derive(Drop)]
pub enum Prepared {
    Insert(Entry),
    Replace(Entry),
    Remove(Kind, u32),
}
