//! A snapshot, ready to tell the line of a moment.

ghost use Rattle.std.specs.Prelude.{◌≡◌, IfOk, option_map};
ghost use Rattle.sg_base.specs.Seconds.{IsAskable};
ghost use Rattle.sg_resolver.specs.Shown.{local_of, shown as shown_of};
ghost use Rattle.sg_overlay.specs.Over.{over as over_of};
ghost use Rattle.signage.specs.Lines.{pictured, line_at};

use sg_base::{LocalSec, Moment, Steps};
use sg_line::{Line, Shown};
use sg_manifest::Snapshot;
use sg_overlay::Overlays;
use sg_resolver::Resolver;
use std::alloc::{AllocError, Global};
use std::marker::Model;
use std::sync::ledger::Ledger;

/// A snapshot's picture and its overlays. Contracts see them as the snapshot.
#[derive(Drop)]
pub(crate) struct Display {
    resolver: Resolver,
    overlays: Overlays,
}

impl Model for Display {
    ghost use Rattle.std.specs.Prelude.{◌≡◌};
    ghost use Rattle.sg_manifest.specs.Snapshot.{SnapshotRow};

    ghost Value = { SnapshotRow };

    ghost view = { λ d. d.resolver.snapshot };

    ghost invariant = { λ d. d.overlays.snapshot ≡ d.resolver.snapshot };
}

impl Display {
    /// Makes a snapshot ready. All the memory that its lines need is taken here.
    pub(crate) fn adopt(alloc: Global, s: &Snapshot) -> Result<Display, AllocError>
        ensures { IfOk result (λ d. d ≡ s.now) }
    {
        let resolver = Resolver::adopt(alloc, s)?;
        let overlays = Overlays::adopt(alloc, s)?;
        Ok(Display { resolver, overlays })
    }

    /// The line of a moment.
    #[tactic(auto, unfolding(crate::specs::Lines::line_at))]
    pub(crate) fn line<L: Ledger>(&mut self, moment: Moment, steps: &mut Steps<L>) -> Line
        ensures text { result ≡ line_at self.old moment }
        ensures same { self.new ≡ self.old }
    {
        let t = self.local(moment);
        let shown = self.shown(t, steps);
        let over = self.over(t, steps);
        Line::new(moment, &shown, &over)
    }

    // The local second of a moment, which takes no memory.
    fn local(&self, moment: Moment) -> LocalSec
        ensures value { result ≡ local_of self.now moment }
        ensures second { IsAskable result }
    {
        match self.resolver.local(moment) {
            Ok(t) => t,
            Err(_) => unreachable!(),
        }
    }

    // What the picture shows.
    fn shown<L: Ledger>(&mut self, t: LocalSec, steps: &mut Steps<L>) -> Shown
        requires { IsAskable t }
        ensures value { result ≡ pictured self.old (shown_of self.old t) }
        ensures same { self.new ≡ self.old }
    {
        let show = self.resolver.show_at(t, steps);
        let picture = self.resolver.picture(&show);
        Shown { show, picture }
    }

    // What is shown above it, if an overlay is active.
    fn over<L: Ledger>(&mut self, t: LocalSec, steps: &mut Steps<L>) -> Option<Shown>
        requires { IsAskable t }
        ensures value { result ≡ option_map (pictured self.old) (over_of self.old t) }
        ensures same { self.new ≡ self.old }
    {
        match self.overlays.over_at(t, steps) {
            Some(show) => {
                let picture = self.overlays.picture(&show);
                Some(Shown { show, picture })
            }
            None => None,
        }
    }
}
