//! The upgrade of a store whose files stand in ranges: its disk gets the maps and the area of seals that the new format has.
//!
//! `upgrade` changes one byte last, the version. A crash at any moment leaves the old disk, or the new one with every byte in
//! place but that one (`specs/Upgrading.antt`). In both, all that the old format reads stands as it stood, but for that byte. No
//! file is moved.
#![tactic(auto)]

mod clearing;
mod places;
mod upgrading;

pub use places::{SECOND_MARK, WHOLE};
pub use upgrading::upgrade;
