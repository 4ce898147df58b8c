// A player's sync.
ghost use Rattle.std.specs.Prelude.{◌≡◌, ◌↔◌, ◌≤◌, All, IfOk, IfSome, IsNone, IsSomeAnd, IsTrue, None, OnErr, length, true};
ghost use Rattle.sg_devices.specs.Blame.{CountsFault};
ghost use Rattle.sg_exchange.specs.declared.heard.TheConstants.{REPLY_ROOM};
ghost use Rattle.sg_exchange.specs.declared.heard.Wants.TheVariants.{Anything};
ghost use Rattle.sg_exchange.specs.Asking.{Hears};
ghost use Rattle.sg_exchange.specs.Ends.{BatchEnds, EnrolEnds, is_batch_link_fault, is_enrol_link_fault};
ghost use Rattle.sg_exchange.specs.Heard.{Outcome};
ghost use Rattle.sg_exchange.specs.Requests.{batch_request, enrol_request};

use sg_base::PlayBody;
use sg_devices::Link;
use sg_exchange::{Asker, BatchEnd, EnrolEnd};
use sg_listing::Listing;
use sg_manifest::Snapshot;
use sg_missing::Staging;
use std::alloc::{AllocError, Global};
use std::marker::Model;

/// A display with its key, and the snapshot that it is getting from its server, if there is one.
#[derive(Drop)]
pub struct Sync {
    pub(crate) alloc: Global,
    pub(crate) asker: Asker,
    pub(crate) listing: Option<Listing>,
}

impl Model for Sync {
    ghost use Rattle.sg_sync.specs.Steps.{Syncing};

    ghost Value = { Syncing };

    ghost view = { λ s. record { caller = s.asker; plan = s.listing } };
}

impl Sync {
    /// The sync of a display with this number and key. It is idle, and takes the room for replies.
    pub fn new(alloc: Global, display: u32, key: &[u8]) -> Result<Sync, AllocError>
        ensures idle { IfOk result (λ sync. sync.plan ≡ None) }
        ensures display { IfOk result (λ sync. sync.caller.display ≡ display) }
        ensures key { IfOk result (λ sync. sync.caller.key ≡ key.now) }
    {
        let asker = Asker::new(alloc, display, key)?;
        Ok(Sync {
            alloc,
            asker,
            listing: None,
        })
    }

    /// The snapshot that is being got. `None` if the sync is idle.
    pub fn listed(&self) -> Option<&Snapshot>
        ensures some { IfSome result (λ snapshot.
            IsSomeAnd self.now.plan (λ plan. plan.snapshot ≡ snapshot.now)) }
        ensures none { IsNone result → self.now.plan ≡ None }
    {
        match &self.listing {
            Some(listing) => Some(listing.snapshot()),
            None => None,
        }
    }

    /// Whether a snapshot is being got of which a store has each file whole. Then the next step switches.
    pub fn ready<S: Staging>(&self, store: &S) -> bool
        ensures { IsTrue result ↔ IsSomeAnd self.now.plan
            (λ plan. All (λ f. S.holds store.now f ≡ true) plan.snapshot.files) }
    {
        match &self.listing {
            Some(listing) => listing.is_ready(store),
            None => false,
        }
    }

    /// Sends plays of an epoch, the first of which has the number `first`; `next` is the number of the next play to be
    /// recorded, above which no reply can go.
    pub fn send<L: Link>(
        &mut self,
        link: &mut L,
        epoch: u32,
        first: u32,
        plays: &[PlayBody],
        next: u32,
    ) -> Result<BatchEnd, AllocError>
        ensures sent { IfOk result (λ end. (outcome : Outcome)
            × Hears REPLY_ROOM (L.told link.old) (L.told link.new)
            (batch_request self.old.caller.display self.old.caller.key epoch first plays.now)
            Anything outcome × BatchEnds first next outcome end) }
        ensures cause { IfOk result (λ end.
            CountsFault (is_batch_link_fault end) (L.faults link.old) (L.faults link.new)) }
        ensures plan { self.new.plan ≡ self.old.plan }
        ensures kept { self.new.caller
            ≡ record self.old.caller { reply = self.new.caller.reply } }
        ensures err { OnErr result (link.new ≡ link.old) }
    {
        self.asker.send(link, epoch, first, plays, next)
    }
}

/// Asks for an epoch of a display, with its key.
pub fn enrol<L: Link>(
    alloc: Global,
    link: &mut L,
    display: u32,
    key: &[u8],
) -> Result<EnrolEnd, AllocError>
    ensures enrolled { IfOk result (λ end. (outcome : Outcome)
        × Hears REPLY_ROOM (L.told link.old) (L.told link.new) (enrol_request display key.now)
        Anything outcome × EnrolEnds outcome end) }
    ensures cause { IfOk result (λ end.
        CountsFault (is_enrol_link_fault end) (L.faults link.old) (L.faults link.new)) }
    ensures err { OnErr result (link.new ≡ link.old) }
{
    let mut asker = Asker::new(alloc, display, key)?;
    asker.enrol(link)
}
