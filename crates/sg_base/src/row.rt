//! The server's rows.

use crate::campaign::Campaign;
use crate::daypart::Daypart;
use crate::event::Event;
use crate::file::Listed;
use crate::ids::{DisplayId, GroupId, LayoutId};
use crate::kind::Kind;
use crate::layout::Layout;
use crate::list::Rows;
use crate::zone::ZoneRule;
use std::alloc::AllocError;

/// A display: the layout that it shows by default, its groups by ascending id, the key by which it is known, and its
/// zone.
#[derive(Debug, Drop)]
pub struct DisplayRow {
    pub id: DisplayId,
    pub default: LayoutId,
    /// At most 32.
    pub groups: Rows<GroupId>,
    /// 1 to 64 letters and digits of ASCII.
    pub key: Rows<u8>,
    pub zone: ZoneRule,
}

/// An event with the displays and the groups that it is for, at least one in all, each by ascending id.
#[derive(Debug, Drop)]
pub struct EventRow {
    pub event: Event,
    /// At most 32.
    pub displays: Rows<DisplayId>,
    /// At most 32.
    pub groups: Rows<GroupId>,
}

/// A row of the server.
#[derive(Debug, Drop)]
pub enum Row {
    Media(Listed),
    Layout(Layout),
    Campaign(Campaign),
    Daypart(Daypart),
    Group(GroupId),
    Display(DisplayRow),
    Event(EventRow),
}

impl Row {
    ghost use Rattle.std.specs.Prelude.{◌≡◌};
    ghost use Rattle.sg_base.specs.Rows.{kind_of};

    /// Its kind, never `Client`.
    pub fn kind(&self) -> Kind
        ensures { result ≡ kind_of self.now }
    {
        match self {
            Row::Media(_) => Kind::Media,
            Row::Layout(_) => Kind::Layout,
            Row::Campaign(_) => Kind::Campaign,
            Row::Daypart(_) => Kind::Daypart,
            Row::Group(_) => Kind::Group,
            Row::Display(_) => Kind::Display,
            Row::Event(_) => Kind::Event,
        }
    }
}

impl Clone for DisplayRow {
    ghost use Rattle.std.specs.Prelude.{◌≡◌};

    ghost is_clone = { λ x y. y ≡ x };

    fn clone(&self) -> Result<DisplayRow, AllocError> {
        let groups = self.groups.clone()?;
        let key = self.key.clone()?;
        let zone = self.zone.clone()?;
        Ok(DisplayRow {
            id: self.id,
            default: self.default,
            groups,
            key,
            zone,
        })
    }
}

impl Clone for EventRow {
    ghost use Rattle.std.specs.Prelude.{◌≡◌};

    ghost is_clone = { λ x y. y ≡ x };

    fn clone(&self) -> Result<EventRow, AllocError> {
        let displays = self.displays.clone()?;
        let groups = self.groups.clone()?;
        Ok(EventRow {
            event: self.event,
            displays,
            groups,
        })
    }
}

impl Clone for Row {
    ghost use Rattle.std.specs.Prelude.{◌≡◌};

    ghost is_clone = { λ x y. y ≡ x };

    fn clone(&self) -> Result<Row, AllocError> {
        match self {
            Row::Media(file) => Ok(Row::Media(*file)),
            Row::Layout(layout) => Ok(Row::Layout(layout.clone()?)),
            Row::Campaign(campaign) => Ok(Row::Campaign(campaign.clone()?)),
            Row::Daypart(daypart) => Ok(Row::Daypart(daypart.clone()?)),
            Row::Group(group) => Ok(Row::Group(*group)),
            Row::Display(display) => Ok(Row::Display(display.clone()?)),
            Row::Event(event) => Ok(Row::Event(event.clone()?)),
        }
    }
}
