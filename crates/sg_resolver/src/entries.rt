//! The events of a snapshot, each with its daypart and its plays.

ghost use Rattle.std.specs.Prelude.{◌≡◌, map, IfOk};
ghost use Rattle.sg_manifest.specs.Snapshot.{IsSnapshot};
ghost use Rattle.sg_resolver.specs.Rows.{daypart_of};
ghost use Rattle.sg_resolver.specs.Lists.{play_of, plays_of, entry_of, entries_of};

use crate::catalog::Catalog;
use sg_base::{Daypart, Event, LayoutId, Rows, Target, When};
use sg_layer::{Entry, Kind, events_of};
use sg_voice::Play;
use std::alloc::{AllocError, Global};

impl Catalog {
    /// The entries of a kind of event, in the kind's order.
    pub fn entries(&self, alloc: Global, kind: Kind) -> Result<Vec<Entry>, AllocError>
        ensures value { IfOk result (λ v. v.items ≡ entries_of self.now kind) }
        ensures valid { IsSnapshot self.now }
    {
        let events = events_of(alloc, self.snapshot().events(), kind)?;
        let mut entries = Vec::new(alloc);
        for event in events.as_slice() {
            entries.push(self.entry(alloc, event)?)?;
        }
        Ok(entries)
    }

    /// One play of a layout, for an event.
    pub(crate) fn play(&self, event: u32, layout: LayoutId) -> Play
        ensures { result ≡ play_of self.now event layout }
    {
        Play {
            event,
            layout: layout.0,
            seconds: self.seconds(layout.0),
        }
    }

    // An event with its daypart and its plays.
    fn entry(&self, alloc: Global, event: &Event) -> Result<Entry, AllocError>
        ensures { IfOk result (λ x. x ≡ entry_of self.now event.now) }
    {
        let daypart = self.named(event.when())?;
        let plays = self.plays(alloc, event)?;
        Ok(Entry {
            event: *event,
            daypart,
            plays: Rows::from_vec(plays),
        })
    }

    // A copy of the daypart that an event names.
    fn named(&self, when: When) -> Result<Option<Daypart>, AllocError>
        ensures { IfOk result (λ d. d ≡ daypart_of self.now when) }
    {
        match when {
            When::Always | When::Custom { .. } => Ok(None),
            When::Named { daypart, .. } => match self.daypart(daypart.0) {
                Some(daypart) => Ok(Some(daypart.clone()?)),
                None => Ok(None),
            },
        }
    }

    // The plays of an event.
    fn plays(&self, alloc: Global, event: &Event) -> Result<Vec<Play>, AllocError>
        ensures { IfOk result (λ v. v.items ≡ plays_of self.now event.now) }
    {
        let id = event.id().0;
        match event.target() {
            Target::Layout(layout) => self.plays_in(alloc, id, &[layout]),
            Target::Campaign(campaign) => match self.campaign(campaign.0) {
                Some(campaign) => self.plays_in(alloc, id, campaign.layouts.as_slice()),
                None => Ok(Vec::new(alloc)),
            },
        }
    }

    // A play of each layout, for an event.
    fn plays_in(
        &self,
        alloc: Global,
        event: u32,
        layouts: &[LayoutId],
    ) -> Result<Vec<Play>, AllocError>
        ensures { IfOk result (λ v. v.items ≡ map (play_of self.now event) layouts.now) }
    {
        let mut plays = Vec::with_capacity(alloc, layouts.len())?;
        for layout in layouts {
            plays.push(self.play(event, *layout))?;
        }
        Ok(plays)
    }
}
