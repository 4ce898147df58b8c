// A panel shows the media of a picture, region by region.
ghost use Rattle.std.specs.Prelude.{◌≡◌, None, length, option_map, OnOk};
ghost use Rattle.sg_base.specs.Causes.{HasCause};
ghost use Rattle.sg_devices.specs.Panels.{PanelView, HasRoom, IsWhole, cleared, opened, extended, closed, with_more};

use sg_base::Rows;
use thiserror::Error;

/// A panel failed, and has counted it.
#[derive(Clone, Copy, Debug, PartialEq, Eq, Error)]
#[error("the panel failed")]
pub struct PanelFailed;

/// A medium that is shown whole in a region.
#[derive(Debug, Drop)]
pub struct Shown {
    pub region: u32,
    pub media: u32,
    pub bytes: Rows<u8>,
}

/// A medium that was begun in a region: its length in bytes, and how many of these came.
#[derive(Clone, Copy, Debug, PartialEq, Eq)]
pub struct Begun {
    pub region: u32,
    pub media: u32,
    pub length: u32,
    pub got: u32,
}

/// Shows media in regions. A call that fails has been counted as a fault, and nothing is said of what is seen after it,
/// until the panel is cleared.
pub trait Panel: Drop {
    // All that contracts see of it.
    ghost seen: { Self → PanelView };

    /// Leaves nothing shown, and nothing begun.
    fn clear(&mut self) -> Result<(), PanelFailed>
        ensures cleared { OnOk result (seen self.new ≡ cleared (seen self.old)) }
        ensures cause { HasCause (seen self.old).faults (seen self.new).faults result };

    /// Begins a medium of `length` bytes in a region. What is shown stays until it ends.
    fn begin(&mut self, region: u32, media: u32, length: u32) -> Result<(), PanelFailed>
        requires { (seen self.old).begun ≡ None }
        ensures opened { OnOk result (seen self.new ≡ opened region media length (seen self.old)) }
        ensures cause { HasCause (seen self.old).faults (seen self.new).faults result };

    /// Gives the next bytes of what was begun.
    fn bytes(&mut self, bytes: &[u8]) -> Result<(), PanelFailed>
        requires { HasRoom (seen self.old).begun (length bytes.now) }
        ensures extended { OnOk result (seen self.new ≡ extended bytes.now (seen self.old)) }
        ensures cause { HasCause (seen self.old).faults (seen self.new).faults result };

    /// Shows what was begun, all of whose bytes have come.
    fn end(&mut self) -> Result<(), PanelFailed>
        requires { IsWhole (seen self.old).begun }
        ensures closed { OnOk result (seen self.new ≡ closed (seen self.old)) }
        ensures cause { HasCause (seen self.old).faults (seen self.new).faults result };
}

/// A panel in its place, and whether it is called. One that failed isn't live any more.
#[derive(Drop)]
pub struct Screen {
    pub panel: Box<dyn Panel>,
    pub live: bool,
}

// What was begun, once so many bytes more came.
pub(crate) fn grown(begun: Option<Begun>, count: usize) -> Option<Begun>
    requires { HasRoom begun count }
    ensures { result ≡ option_map (with_more count) begun }
{
    match begun {
        Some(begun) => Some(Begun {
            got: begun.got + count as u32,
            ..begun
        }),
        None => None,
    }
}
