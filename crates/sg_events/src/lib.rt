//! When an event is active, and when that may change next.
//!
//! `specs/Active.antt` has the relation in plain words, `IsActive`, and the test by which lists of active
//! events are filtered, `is_active_at`; `active` gives both. `specs/Edges.antt` has the seconds at which an
//! occurrence begins or is over, and `next_change` gives the next of them; between two of them nothing changes
//! (`activity_stays`). `is_quiet` (`specs/Quiet.antt`) tells of many events that neither needs to be asked.
#![tactic(auto)]

pub use activity::active;
pub use changes::next_change;
pub use law::activity_stays;
pub use quiet::is_quiet;

mod activity;
mod changes;
mod law;
mod quiet;
