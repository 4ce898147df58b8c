//! What the programs reach outside themselves: a [`Source`] of bytes, a [`Sink`] for bytes, and the [`Door`] at which a
//! server's connections come, each with a version in memory and a real one.
//!
//! Callers see an object by its trait's ghost members: what it has left or has got, where it tells that, and its count
//! of faults, by which every failure has its cause outside the program. The definitions stand in specs/: `Streams` (what
//! a call does to bytes), `Lists` (what a call does to a list that may be told), `Doors` (what a door gives), `Memory`
//! (the versions in memory).
#![tactic(auto)]

mod calls;
mod door;
mod ends;
mod memory;
mod memory_door;
mod standard;
mod tcp_door;

pub use calls::Calls;
pub use door::{Door, DoorFailed};
pub use ends::{Ends, Sink, SinkFailed, Source, SourceFailed, put_all};
pub use memory::{MemSink, MemSource};
pub use memory_door::{MemConn, MemDoor};
pub use standard::{StdSink, StdSource};
pub use tcp_door::{STALL_SECONDS, TcpConn, TcpDoor};
