//! Why bytes are no manifest.

ghost use Rattle.std.specs.Prelude.{◌≡◌};
ghost use Rattle.sg_manifest.specs.Faults.{fault_in};

use sg_base::{Kind, LimitName};
use sg_rows::RowFault;
use std::alloc::{AllocError, AllocFailed};
use thiserror::Error;

/// Why [`read`](crate::read) gives no snapshot. The checks are made in this order, and the first fault is the answer:
/// the bytes are JSON; the version; the members of the top; the zone; then list by list, files, layouts, campaigns,
/// dayparts and events, how many entries there are, and entry by entry its own fault and whether an earlier one has
/// its id; then what rows name; the length of the text; and whether it is the canonical one.
#[derive(Clone, Copy, Debug, PartialEq, Eq, Error)]
pub enum ManifestFault {
    /// The bytes aren't JSON.
    #[error("the bytes aren't JSON")]
    NotJson,
    /// A row isn't valid by itself. The lists are files (1), layouts (2), campaigns (3), dayparts (4) and events (5);
    /// list 0 with index 0 is the manifest itself and its zone. Indices count from 0. The row's fault is never
    /// `Memory`.
    #[error("entry {index} of list {list} isn't valid: {fault}")]
    BadField {
        list: u32,
        index: u32,
        fault: RowFault,
    },
    /// A list has too many entries, or the text too many bytes.
    #[error("{count} are too many")]
    Limit {
        name: LimitName,
        count: u64,
    },
    /// A row is named that isn't there.
    #[error("what is named as {id} isn't there")]
    Dangling {
        kind: Kind,
        id: u32,
    },
    /// An id stands twice in a list.
    #[error("id {id} stands twice")]
    Double {
        kind: Kind,
        id: u32,
    },
    /// The version is neither 1 nor 2.
    #[error("the version is {0}")]
    Version(u32),
    /// The bytes aren't the canonical text of what they say. They have this many first bytes in common with it.
    #[error("the text isn't canonical from byte {0} on")]
    NotCanonical(u64),
    /// Memory ran out.
    #[error("memory ran out")]
    Memory,
}

impl ManifestFault {
    ghost use Rattle.sg_manifest.specs.Faults.{name_of};

    /// Its name without its fields, as a program shows it.
    pub fn name(&self) -> &'static str
        ensures { result.now ≡ name_of self.now }
    {
        match self {
            ManifestFault::NotJson => "NotJson",
            ManifestFault::BadField { .. } => "BadField",
            ManifestFault::Limit { .. } => "Limit",
            ManifestFault::Dangling { .. } => "Dangling",
            ManifestFault::Double { .. } => "Double",
            ManifestFault::Version(_) => "Version",
            ManifestFault::NotCanonical(_) => "NotCanonical",
            ManifestFault::Memory => "Memory",
        }
    }
}

impl From<AllocError> for ManifestFault {
    ghost use Rattle.std.specs.Prelude.{◌≡◌};
    ghost use Rattle.sg_manifest.specs.declared.fault.ManifestFault.TheVariants.{Memory};

    ghost from_gives = { λ _ fault. fault ≡ Memory };

    fn from(_refused: AllocError) -> ManifestFault {
        ManifestFault::Memory
    }
}

impl<T: Drop> From<AllocFailed<T>> for ManifestFault {
    ghost use Rattle.std.specs.Prelude.{◌≡◌};
    ghost use Rattle.sg_manifest.specs.declared.fault.ManifestFault.TheVariants.{Memory};

    ghost from_gives = { λ _ fault. fault ≡ Memory };

    fn from(_refused: AllocFailed<T>) -> ManifestFault {
        ManifestFault::Memory
    }
}

/// A fault of the manifest's own members: it stands in list 0.
impl From<RowFault> for ManifestFault {
    ghost use Rattle.std.specs.Prelude.{◌≡◌};
    ghost use Rattle.sg_manifest.specs.Faults.{fault_in};

    ghost from_gives = { λ fault made. made ≡ fault_in 0 0 fault };

    fn from(fault: RowFault) -> ManifestFault {
        in_entry(0, 0, fault)
    }
}

/// A row's fault by its place. Want of memory has none.
pub(crate) fn in_entry(list: u32, index: u32, fault: RowFault) -> ManifestFault
    ensures { result ≡ fault_in list index fault }
{
    match fault {
        RowFault::Memory => ManifestFault::Memory,
        fault => ManifestFault::BadField { list, index, fault },
    }
}
