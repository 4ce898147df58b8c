// One step of a sync.
ghost use Rattle.std.specs.Prelude.{◌≡◌, ◌≢◌, ◌+◌, [], length, IfOk, IfSome, Err, None, Some, true};
ghost use Rattle.sg_devices.specs.Blame.{CountsFault};
ghost use Rattle.sg_disk.specs.Runs.{Broke, Ran};
ghost use Rattle.sg_exchange.specs.Heard.{Outcome};
ghost use Rattle.sg_fetch.specs.Fetching.{Fetches, comes_whole, is_link_answer, lack_of};
ghost use Rattle.sg_intake.specs.Stocks.{stock};
ghost use Rattle.sg_listing.specs.Plans.{Plan};
ghost use Rattle.sg_missing.specs.declared.wanted.Wanted.{Wanted};
ghost use Rattle.sg_missing.specs.Missing.{IsFirst, holding, missing};
ghost use Rattle.sg_sync.specs.Steps.{AsksForManifest, IsFit, ManifestEnds, calls_of, goes_on, plan_after, switch_end};

use crate::list::list;
use crate::switch::switch;
use crate::sync::Sync;
use sg_devices::Link;
use sg_disk::Disk;
use sg_exchange::Asker;
use sg_fetch::{StepFault, fetch_next};
use sg_intake::Programme;
use sg_listing::Listing;
use sg_timeline::{Cause, StepEnd};

impl Sync {
    /// Makes one step, with one exchange at most. An idle sync asks for the manifest. One under way asks for the
    /// first piece that is missing; where none is, it switches to what was got.
    ///
    /// What is staged has to be as the last step left it, and the disk is that on which the store lies. After
    /// `Disk` the store is opened again and the sync made anew.
    pub fn step<L: Link, S: Programme, D: Disk>(
        &mut self,
        link: &mut L,
        store: &mut S,
        disk: &mut D,
    ) -> Result<StepEnd, StepFault>
        requires fit { IsFit self.old.plan (holding (S.holds store.old) (S.part store.old)) }
        requires only { IfSome self.old.plan (λ plan. S.only store.old plan.snapshot.files) }
        requires disk { (D.view disk.old).size ≡ S.room store.old }

        // An idle sync makes one exchange, for the manifest.
        ensures lists { self.old.plan ≡ None → IfOk result (λ end. (outcome : Outcome)
            × AsksForManifest self.old.caller (L.told link.old) (L.told link.new) outcome
            × ManifestEnds (S.shows store.old (D.view disk.old)) outcome
            (stock (S.holds store.old) (S.part store.old) (S.came store.old))
            (stock (S.holds store.new) (S.part store.new) (S.came store.new)) self.new.plan end) }

        // One under way makes one exchange, for the first piece that is missing, or none where there is no room.
        ensures fetches { (plan : Plan) → self.old.plan ≡ Some plan
            → missing (holding (S.holds store.old) (S.part store.old)) plan.snapshot.files ≢ []
            → IfOk result (λ end. (piece : Wanted)
            × IsFirst (holding (S.holds store.old) (S.part store.old)) plan.snapshot.files piece
            × Fetches (lack_of (S.part store.old) (S.lack store.old piece.file)) self.old.caller piece
            (L.told link.old) (L.told link.new)
            (stock (S.holds store.old) (S.part store.old) (S.came store.old))
            (stock (S.holds store.new) (S.part store.new) (S.came store.new)) end
            × (self.new.plan ≡ plan_after end plan)) }

        // A piece that came whole is one less that is missing.
        ensures counts { (plan : Plan) → self.old.plan ≡ Some plan
            → IfOk result (λ end. comes_whole end ≡ true
            → length (missing (holding (S.holds store.old) (S.part store.old)) plan.snapshot.files)
            ≡ length (missing (holding (S.holds store.new) (S.part store.new)) plan.snapshot.files)
            + 1) }

        // Where none is missing it switches, with no exchange.
        ensures switches { (plan : Plan) → self.old.plan ≡ Some plan
            → missing (holding (S.holds store.old) (S.part store.old)) plan.snapshot.files ≡ []
            → IfOk result (λ end. (end ≡ switch_end (S.number store.old) plan.text)
            × (link.new ≡ link.old) × (self.new.plan ≡ None)) }

        // What the next step asks for.
        ensures fit { IfOk result (λ _.
            IsFit self.new.plan (holding (S.holds store.new) (S.part store.new))) }
        ensures only { IfOk result (λ _.
            IfSome self.new.plan (λ plan. S.only store.new plan.snapshot.files)) }
        ensures room { S.room store.new ≡ S.room store.old }
        ensures size { (D.view disk.new).size ≡ (D.view disk.old).size }

        // How many disk calls were made, why it is refused, and what then stays.
        ensures ran { IfOk result (λ end.
            Ran (calls_of S.seal_calls S.switch_calls end) (D.view disk.old) (D.view disk.new)) }
        ensures memory { result ≡ Err StepFault.Memory → (store.new ≡ store.old)
            × (self.new.plan ≡ self.old.plan) }
        ensures broke { result ≡ Err StepFault.Disk → Broke (D.view disk.old) (D.view disk.new) }
        ensures blamed { CountsFault (is_link_answer result) (L.faults link.old) (L.faults link.new) }
        ensures kept { self.new.caller
            ≡ record self.old.caller { reply = self.new.caller.reply } }
    {
        let Some(listing) = &self.listing else {
            let begun = match list(self.alloc, &mut self.asker, link, store, disk) {
                Ok(begun) => begun,
                Err(why) => return Err(why),
            };
            self.listing = begun.listing;
            return Ok(begun.end);
        };
        let end = match advance(&mut self.asker, listing, link, store, disk) {
            Ok(end) => end,
            Err(why) => return Err(why),
        };
        if !goes_on(end) {
            self.listing = None;
        }
        Ok(end)
    }
}

// A snapshot is got further: its next piece, or the switch.
fn advance<L: Link, S: Programme, D: Disk>(
    asker: &mut Asker,
    listing: &Listing,
    link: &mut L,
    store: &mut S,
    disk: &mut D,
) -> Result<StepEnd, StepFault>
    requires fit { IsFit (Some listing.now) (holding (S.holds store.old) (S.part store.old)) }
    requires only { S.only store.old listing.now.snapshot.files }
    requires disk { (D.view disk.old).size ≡ S.room store.old }
    ensures fetches { missing (holding (S.holds store.old) (S.part store.old))
        listing.now.snapshot.files ≢ [] → IfOk result (λ end. (piece : Wanted)
        × IsFirst (holding (S.holds store.old) (S.part store.old)) listing.now.snapshot.files piece
        × Fetches (lack_of (S.part store.old) (S.lack store.old piece.file)) asker.old piece
        (L.told link.old) (L.told link.new)
        (stock (S.holds store.old) (S.part store.old) (S.came store.old))
        (stock (S.holds store.new) (S.part store.new) (S.came store.new)) end) }
    ensures counts { IfOk result (λ end. comes_whole end ≡ true
        → length (missing (holding (S.holds store.old) (S.part store.old)) listing.now.snapshot.files)
        ≡ length (missing (holding (S.holds store.new) (S.part store.new)) listing.now.snapshot.files)
        + 1) }
    ensures switches { missing (holding (S.holds store.old) (S.part store.old))
        listing.now.snapshot.files ≡ []
        → IfOk result (λ end. (end ≡ switch_end (S.number store.old) listing.now.text)
        × (link.new ≡ link.old)) }
    ensures fit { IfOk result (λ end. IsFit (plan_after end listing.now)
        (holding (S.holds store.new) (S.part store.new))) }
    ensures only { IfOk result (λ end. goes_on end ≡ true
        → S.only store.new listing.now.snapshot.files) }
    ensures room { S.room store.new ≡ S.room store.old }
    ensures size { (D.view disk.new).size ≡ (D.view disk.old).size }
    ensures ran { IfOk result (λ end.
        Ran (calls_of S.seal_calls S.switch_calls end) (D.view disk.old) (D.view disk.new)) }
    ensures memory { result ≡ Err StepFault.Memory → store.new ≡ store.old }
    ensures broke { result ≡ Err StepFault.Disk → Broke (D.view disk.old) (D.view disk.new) }
    ensures blamed { CountsFault (is_link_answer result) (L.faults link.old) (L.faults link.new) }
    ensures kept { asker.new ≡ record asker.old { reply = asker.new.reply } }
{
    match fetch_next(asker, link, store, disk, listing.files()) {
        Ok(Some(end)) => Ok(end),
        Ok(None) => switch(listing, store, disk),
        Err(why) => Err(why),
    }
}

// Whether a sync goes on after a step that ended so.
fn goes_on(end: StepEnd) -> bool
    ensures { result ≡ goes_on end }
{
    match end {
        StepEnd::Stay(cause) => match cause {
            Cause::LinkFault => true,
            Cause::Cut { .. } => true,
            _ => false,
        },
        StepEnd::Piece { .. } => true,
        StepEnd::Sealed(_) => true,
        _ => false,
    }
}
