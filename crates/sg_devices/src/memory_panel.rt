// A panel in memory.
ghost use Rattle.std.specs.Prelude.{◌≡◌, ◌↔◌, None, Some, length, is_err, IsErr, OnOk};
ghost use Rattle.sg_base.specs.Causes.{HasCause};
ghost use Rattle.sg_outside.specs.Memory.{NextFails, after_call, no_calls};
ghost use Rattle.sg_devices.specs.Memory.{panel_view};
ghost use Rattle.sg_devices.specs.Panels.{HasRoom, IsWhole, blank, cleared, opened, extended, closed, shown_more};

use crate::panel::{Begun, Panel, PanelFailed, Shown, grown};
use sg_base::Rows;
use sg_outside::Calls;
use std::alloc::{AllocError, Global};
use std::marker::Model;
use std::mem;

/// A panel in memory. It keeps what it shows, and fails in the calls that it was told, and where memory for the bytes
/// runs out.
#[derive(Debug, Drop)]
pub struct MemPanel {
    alloc: Global,
    shown: Vec<Shown>,
    begun: Option<Begun>,
    part: Vec<u8>,
    calls: Calls,
}

impl Model for MemPanel {
    ghost use Rattle.sg_devices.specs.Memory.{PanelInMemory};

    ghost Value = { PanelInMemory };

    ghost view = { λ p. record {
      face = record { shown = p.shown.items; part = p.part.items };
      begun = p.begun;
      calls = p.calls;
    } };
}

impl MemPanel {
    /// A panel that shows nothing, and fails only where memory runs out.
    pub fn new(alloc: Global) -> MemPanel
        ensures start { result ≡ record { face = blank; begun = None; calls = no_calls } }
    {
        MemPanel {
            alloc,
            shown: Vec::new(alloc),
            begun: None,
            part: Vec::new(alloc),
            calls: Calls::new(alloc),
        }
    }

    /// The same panel, but the calls of these numbers fail. The first call ever made has the number 1.
    pub fn with_failing(mut self, failing: Vec<u64>) -> MemPanel
        ensures { result ≡ record self { calls = record self.calls { failing = failing.items } } }
    {
        self.calls.set_failing(failing);
        self
    }

    /// The media that are shown whole, in the order in which they came.
    pub fn shown(&self) -> &[Shown]
        ensures { result.now ≡ self.now.face.shown }
    {
        self.shown.as_slice()
    }

    /// The medium that was begun and hasn't ended, if there is one.
    pub fn begun(&self) -> Option<Begun>
        ensures { result ≡ self.now.begun }
    {
        self.begun
    }

    /// How often it has failed.
    pub fn faults(&self) -> u64
        ensures { result ≡ self.now.calls.faults }
    {
        self.calls.faults()
    }

    // Shows what was begun, if anything was.
    fn show(&mut self) -> Result<(), AllocError>
        ensures face { OnOk result (self.new.face ≡ shown_more self.old.begun self.old.face) }
        ensures begun { OnOk result (self.new.begun ≡ None) }
        ensures calls { self.new.calls ≡ self.old.calls }
    {
        let Some(begun) = self.begun else {
            return Ok(());
        };
        self.begun = None;
        let part = mem::replace(&mut self.part, Vec::new(self.alloc));
        self.shown.push(Shown {
            region: begun.region,
            media: begun.media,
            bytes: Rows::from_vec(part),
        })?;
        Ok(())
    }
}

impl Panel for MemPanel {
    ghost use Rattle.sg_devices.specs.Memory.{panel_view};

    ghost seen = { panel_view };

    fn clear(&mut self) -> Result<(), PanelFailed>
        ensures cleared { OnOk result (panel_view self.new ≡ cleared (panel_view self.old)) }
        ensures cause { HasCause self.old.calls.faults self.new.calls.faults result }

        // It fails in the calls that it was told, and in no other.
        ensures listed { IsErr result ↔ NextFails self.old.calls }
        ensures calls { self.new.calls ≡ after_call self.old.calls (is_err result) }
    {
        let fails = self.calls.next_fails();
        self.calls.count(fails);
        if fails {
            return Err(PanelFailed);
        }
        self.shown.clear();
        self.part.clear();
        self.begun = None;
        Ok(())
    }

    fn begin(&mut self, region: u32, media: u32, length: u32) -> Result<(), PanelFailed>
        requires { self.old.begun ≡ None }
        ensures opened { OnOk result (panel_view self.new ≡
            opened region media length (panel_view self.old)) }
        ensures cause { HasCause self.old.calls.faults self.new.calls.faults result }

        // It fails in the calls that it was told, and in no other.
        ensures listed { IsErr result ↔ NextFails self.old.calls }
        ensures calls { self.new.calls ≡ after_call self.old.calls (is_err result) }
    {
        let fails = self.calls.next_fails();
        self.calls.count(fails);
        if fails {
            return Err(PanelFailed);
        }
        self.part.clear();
        self.begun = Some(Begun {
            region,
            media,
            length,
            got: 0,
        });
        Ok(())
    }

    fn bytes(&mut self, bytes: &[u8]) -> Result<(), PanelFailed>
        requires { HasRoom self.old.begun (length bytes.now) }
        ensures extended { OnOk result (panel_view self.new ≡
            extended bytes.now (panel_view self.old)) }
        ensures cause { HasCause self.old.calls.faults self.new.calls.faults result }

        // It fails in the calls that it was told; elsewhere only memory can be wanting.
        ensures listed { NextFails self.old.calls → IsErr result }
        ensures calls { self.new.calls ≡ after_call self.old.calls (is_err result) }
    {
        let fails = self.calls.next_fails() || self.part.extend_from_slice(bytes).is_err();
        self.calls.count(fails);
        if fails {
            return Err(PanelFailed);
        }
        self.begun = grown(self.begun, bytes.len());
        Ok(())
    }

    fn end(&mut self) -> Result<(), PanelFailed>
        requires { IsWhole self.old.begun }
        ensures closed { OnOk result (panel_view self.new ≡ closed (panel_view self.old)) }
        ensures cause { HasCause self.old.calls.faults self.new.calls.faults result }

        // It fails in the calls that it was told; elsewhere only memory can be wanting.
        ensures listed { NextFails self.old.calls → IsErr result }
        ensures calls { self.new.calls ≡ after_call self.old.calls (is_err result) }
    {
        let fails = self.calls.next_fails() || self.show().is_err();
        self.calls.count(fails);
        if fails { Err(PanelFailed) } else { Ok(()) }
    }
}
