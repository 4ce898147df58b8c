//! The header and the two slots of a store: their bytes, what they say, and which damage they may have.
//!
//! A caller sees them as functions of the disk's bytes: `format_at`, and for each slot `head_at` and `files_at`
//! (`specs/Slots.antt`), over the bytes of a header, a slot and a table (`specs/Bytes.antt`). `specs/Damage.antt` has the
//! checks of an opening in their order, each with its place and what it found there: `damage_of` is the first that
//! fails. No call here opens a gate.
#![tactic(auto)]

mod entries;
mod fault;
mod formats;
mod header;
mod overlaps;
mod pair;
mod slot_reads;
mod slot_writes;
mod slots;

pub use entries::{placed_in, u32_in, u64_in};
pub use fault::OpenFault;
pub use formats::Format;
pub use header::{header_fields_of, is_room, read_header};
pub use pair::{SlotPair, choose, read_slots};
pub use slot_reads::{check_head, damage, read_head, read_table, set_len};
pub use slot_writes::{fill_slot, fill_table, head_fields_of};
pub use slots::{Head, Slot};
