//! The forms in which a row stands.

ghost use Rattle.std.specs.Prelude.{◌≡◌};
ghost use Rattle.serde_json.specs.View.{view};
ghost use Rattle.sg_rows.specs.Forms.{has_new, event_members};

use crate::part;
use serde_json::Value;

/// In what a row stands, and so which members it has and what it can say.
#[derive(Clone, Copy, Debug, PartialEq, Eq)]
pub enum RowForm {
    /// A list of a manifest of version 1. A daypart has no dates, a repeat no weekday of the month, an event no layer.
    Version1,
    /// A list of a manifest of version 2.
    Version2,
    /// An edit: as in version 2, where an event also says for which displays and groups it is. A daypart's dates and an
    /// event's layer may be missing.
    Edit,
}

impl RowForm {
    /// Whether a member that version 2 brought is one of a row's.
    pub(crate) fn has_new(self, value: &Value, name: &str) -> bool
        ensures { result ≡ has_new self name.now (view value.now) }
    {
        match self {
            RowForm::Version1 => false,
            RowForm::Version2 => true,
            RowForm::Edit => part::has(value, name),
        }
    }

    /// How many members an event has, its layer apart.
    pub(crate) fn event_members(self) -> usize
        ensures { result ≡ event_members self }
    {
        match self {
            RowForm::Version1 | RowForm::Version2 => 7,
            RowForm::Edit => 9,
        }
    }
}
