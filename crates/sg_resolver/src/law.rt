//! How long an hour shows an event.

ghost use Rattle.std.specs.Prelude.{◌≡◌, ℕ, ℤ, List};
ghost use Rattle.sg_voice.specs.declared.play.Play.{Play};
ghost use Rattle.sg_voice.specs.declared.play.Interrupt.{Interrupt};
ghost use Rattle.sg_voice.specs.Hour.{slots_of, event_seconds};
ghost use Rattle.sg_manifest.specs.Snapshot.{SnapshotRow, IsSnapshot};
ghost use Rattle.sg_resolver.specs.Steady.{IsSteady, seconds_shown};

/// Where the two lists stay the same throughout an hour, an event is shown at as many of its local seconds as the
/// slots of the event have seconds, of which the hour's law speaks. It does nothing when it runs; its clause is the law.
pub fn hour_shows()
    ensures { (s : SnapshotRow) (begin : ℤ) (ns : List Play) (is : List Interrupt) (event : ℕ) → IsSnapshot s
        → IsSteady s begin ns is → seconds_shown s begin event ≡ event_seconds event (slots_of ns is) }
{}
