//! The rows that everything else speaks of: identities, moments, layouts, campaigns, dayparts, repeats,
//! events, listed files, plays, and the server's rows with their kinds; and the limits of the product.
//!
//! A row with nothing to keep is a plain struct or enum, which contracts see as it stands. A row that keeps a
//! fact (a layout, a daypart, a repeat, an event) has private fields and is seen as a record of `specs/`
//! with fields of the same names; that the record is valid means that its constructor finds no fault in
//! it. A `Vec` in a row is a `Rows`, which contracts see as the list. The definitions stand in `specs/`, one file
//! for each row. `specs/Causes` and `specs/Stops` have the words for every object of the outside: a count of faults,
//! and how many calls still pass. `limits` has every limit, each as one constant.
#![tactic(auto)]

pub use campaign::Campaign;
pub use daypart::{Daypart, DaypartFault, Window};
pub use event::{Event, EventFault, Target, When};
pub use file::Listed;
pub use ids::{CampaignId, DaypartId, DisplayId, EventId, GroupId, LayoutId, MediaId};
pub use key::Key;
pub use kind::{Kind, LimitName};
pub use layout::{Item, Layout, LayoutFault, Region};
pub use list::Rows;
pub use play::PlayBody;
pub use repeat::{Repeat, RepeatFault, Unit};
pub use row::{DisplayRow, EventRow, Row};
pub use search::index_of;
pub use sorted::{Rank, Ranked, Sorted};
pub use steps::Steps;
pub use text::{is_key, is_short};
pub use time::{LocalSec, Moment};
pub use zone::ZoneRule;

mod campaign;
mod daypart;
mod daypart_rules;
mod event;
mod event_rules;
mod file;
mod ids;
mod key;
mod kind;
mod layout;
mod layout_rules;
pub mod limits;
mod list;
mod play;
mod repeat;
mod row;
mod search;
mod sorted;
mod steps;
mod text;
mod time;
mod zone;
