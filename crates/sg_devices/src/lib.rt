//! What a player reaches outside itself, besides bytes and its disk: a [`Clock`], a [`Link`] to the server, and the
//! [`Panel`]s that show its pictures, each with a version in memory and a real one.
//!
//! Callers see an object by its trait's ghost members: what it tells of its contents, and its count of faults, by which
//! every failure has its cause outside the program. The definitions stand in specs/: `Exchanges` (what a link is asked and
//! tells), `Panels` (what is seen on a panel), `Memory` (the versions in memory), `Folder` (a panel over a folder).
#![tactic(auto)]

mod clock;
mod folder_panel;
mod link;
mod memory_link;
mod memory_panel;
mod panel;
mod tcp_link;

pub use clock::{Clock, ClockFailed, MemClock, SystemClock};
pub use folder_panel::FolderPanel;
pub use link::{Exchange, Link, LinkFailed};
pub use memory_link::MemLink;
pub use memory_panel::MemPanel;
pub use panel::{Begun, Panel, PanelFailed, Screen, Shown};
pub use tcp_link::{ANSWER_SECONDS, TcpLink};
