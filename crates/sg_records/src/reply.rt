//! What an edit is answered.

ghost use Rattle.std.specs.Prelude.{◌≡◌};

use serde_json::{Value, json};
use sg_base::Kind;
use sg_rows::RowFault;
use sg_tables::TableRefusal;
use std::alloc::{AllocError, Global};

/// The name of a row's fault, without what it says besides.
#[derive(Clone, Copy, Debug, PartialEq, Eq)]
pub enum FaultName {
    Shape,
    Later,
    Layout,
    Daypart,
    Repeat,
    Event,
    Zone,
    /// A medium can't be replaced.
    NoReplace,
    /// The row names a medium that isn't complete.
    Incomplete,
}

/// The answer to an edit.
#[derive(Clone, Copy, Debug, PartialEq, Eq)]
pub enum Reply {
    /// It was made. The number is its own.
    Done(u32),
    /// There is no such row: the one to be replaced or removed, or one that the new row names.
    Unknown {
        kind: Kind,
        id: u32,
    },
    /// Another row names the one to be removed.
    InUse {
        kind: Kind,
        id: u32,
        by_kind: Kind,
        by_id: u32,
    },
    /// The row to be inserted is there.
    Exists {
        kind: Kind,
        id: u32,
    },
    /// A limit is reached.
    Full {
        kind: Kind,
        limit: u32,
    },
    /// Another number was expected of the client: 0 if it has used up its numbers. This reply isn't kept.
    Sequence {
        expected: u32,
    },
    /// The row has a fault of its own.
    Invalid(FaultName),
}

impl Reply {
    ghost use Rattle.sg_records.specs.Replies.{status_of};

    /// The status of HTTP that goes with it.
    pub fn status(self) -> u16
        ensures { result ≡ status_of self }
    {
        match self {
            Reply::Done(_) => 200,
            Reply::Invalid(_) => 422,
            Reply::Unknown { .. }
            | Reply::InUse { .. }
            | Reply::Exists { .. }
            | Reply::Full { .. }
            | Reply::Sequence { .. } => 409,
        }
    }
}

impl Reply {
    ghost use Rattle.std.specs.Prelude.{IfOk, ◌≢◌};
    ghost use Rattle.sg_tables.specs.declared.change.TableRefusal.TheVariants.{Memory};
    ghost use Rattle.serde_json.specs.View.{view};
    ghost use Rattle.sg_records.specs.Replies.{reply_json, refused_by};

    /// Its JSON.
    pub fn write(self, alloc: Global) -> Result<Value, AllocError>
        ensures { IfOk result (λ v. view v ≡ reply_json self) }
    {
        match self {
            Reply::Done(seq) => json!(in alloc; { "done": seq }),
            Reply::Unknown { kind, id } => {
                json!(in alloc; { "id": id, "kind": kind.name(), "refused": "Unknown" })
            }
            Reply::InUse {
                kind,
                id,
                by_kind,
                by_id,
            } => {
                let by = json!(in alloc; { "id": by_id, "kind": by_kind.name() })?;
                json!(in alloc; { "by": by, "id": id, "kind": kind.name(), "refused": "InUse" })
            }
            Reply::Exists { kind, id } => {
                json!(in alloc; { "id": id, "kind": kind.name(), "refused": "Exists" })
            }
            Reply::Full { kind, limit } => {
                json!(in alloc; { "kind": kind.name(), "limit": limit, "refused": "Full" })
            }
            Reply::Sequence { expected } => {
                json!(in alloc; { "expected": expected, "refused": "Sequence" })
            }
            Reply::Invalid(fault) => {
                json!(in alloc; { "fault": fault.name(), "refused": "Invalid" })
            }
        }
    }

    /// That of a change which the tables refuse. Want of memory is answered by none.
    pub fn of(refusal: TableRefusal) -> Result<Reply, AllocError>
        ensures { IfOk result (λ reply. (refusal ≢ Memory) × (reply ≡ refused_by refusal)) }
    {
        match refusal {
            TableRefusal::Unknown { kind, id } => Ok(Reply::Unknown { kind, id }),
            TableRefusal::InUse {
                kind,
                id,
                by_kind,
                by_id,
            } => Ok(Reply::InUse {
                kind,
                id,
                by_kind,
                by_id,
            }),
            TableRefusal::Exists { kind, id } => Ok(Reply::Exists { kind, id }),
            TableRefusal::Full { kind, limit } => Ok(Reply::Full { kind, limit }),
            TableRefusal::Incomplete(_) => Ok(Reply::Invalid(FaultName::Incomplete)),
            TableRefusal::Memory => Err(AllocError),
        }
    }
}

impl FaultName {
    ghost use Rattle.sg_records.specs.Replies.{fault_name, name_of};

    /// That of a fault, which isn't want of memory.
    pub fn of(fault: RowFault) -> FaultName
        ensures { result ≡ name_of fault }
    {
        match fault {
            RowFault::Shape | RowFault::Memory => FaultName::Shape,
            RowFault::Later => FaultName::Later,
            RowFault::Layout(_) => FaultName::Layout,
            RowFault::Daypart(_) => FaultName::Daypart,
            RowFault::Repeat(_) => FaultName::Repeat,
            RowFault::Event(_) => FaultName::Event,
            RowFault::Zone(_) => FaultName::Zone,
            RowFault::NoReplace => FaultName::NoReplace,
            RowFault::Incomplete(_) => FaultName::Incomplete,
        }
    }

    /// As it stands in a reply.
    pub fn name(self) -> &'static str
        ensures { result.now ≡ fault_name self }
    {
        match self {
            FaultName::Shape => "Shape",
            FaultName::Later => "Later",
            FaultName::Layout => "Layout",
            FaultName::Daypart => "Daypart",
            FaultName::Repeat => "Repeat",
            FaultName::Event => "Event",
            FaultName::Zone => "Zone",
            FaultName::NoReplace => "NoReplace",
            FaultName::Incomplete => "Incomplete",
        }
    }
}
