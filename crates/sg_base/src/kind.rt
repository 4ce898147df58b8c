//! Which kinds of rows there are, which lists of a manifest have a limit, and how both are named in texts.

ghost use Rattle.std.specs.Prelude.{◌≡◌, IfSome, Some};

/// A kind of rows of the server.
#[derive(Clone, Copy, Debug, PartialEq, Eq)]
pub enum Kind {
    Media,
    Layout,
    Campaign,
    Daypart,
    Group,
    Display,
    Event,
    /// A client that sends edits. No edit names one.
    Client,
}

/// What of a manifest has a limit.
#[derive(Clone, Copy, Debug, PartialEq, Eq)]
pub enum LimitName {
    Files,
    Layouts,
    Campaigns,
    Dayparts,
    Events,
    /// The bytes of its text.
    Text,
}

impl Kind {
    ghost use Rattle.sg_base.specs.Names.{kind_name};

    /// Its name in edits and replies.
    pub fn name(self) -> &'static str
        ensures { result.now ≡ kind_name self }
    {
        match self {
            Kind::Media => "media",
            Kind::Layout => "layout",
            Kind::Campaign => "campaign",
            Kind::Daypart => "daypart",
            Kind::Group => "group",
            Kind::Display => "display",
            Kind::Event => "event",
            Kind::Client => "client",
        }
    }

    /// The kind of this name, where one has it.
    pub fn of_name(name: &str) -> Option<Kind>
        ensures found { IfSome result (λ kind. name.now ≡ kind_name kind) }
        ensures only { (kind : Kind) → name.now ≡ kind_name kind → result ≡ Some kind }
    {
        if name == "media" {
            Some(Kind::Media)
        } else if name == "layout" {
            Some(Kind::Layout)
        } else if name == "campaign" {
            Some(Kind::Campaign)
        } else if name == "daypart" {
            Some(Kind::Daypart)
        } else if name == "group" {
            Some(Kind::Group)
        } else if name == "display" {
            Some(Kind::Display)
        } else if name == "event" {
            Some(Kind::Event)
        } else if name == "client" {
            Some(Kind::Client)
        } else {
            None
        }
    }
}

impl LimitName {
    ghost use Rattle.sg_base.specs.Names.{limit_name};

    /// Its name in replies.
    pub fn name(self) -> &'static str
        ensures { result.now ≡ limit_name self }
    {
        match self {
            LimitName::Files => "files",
            LimitName::Layouts => "layouts",
            LimitName::Campaigns => "campaigns",
            LimitName::Dayparts => "dayparts",
            LimitName::Events => "events",
            LimitName::Text => "text",
        }
    }
}
