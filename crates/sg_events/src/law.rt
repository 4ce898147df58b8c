//! The law of edges.

ghost use Rattle.std.specs.Prelude.{◌≡◌, Option, IfSome, ℤ, ◌<ℤ◌, ◌≤ℤ◌};
ghost use Rattle.sg_base.specs.declared.event.When.{When};
ghost use Rattle.sg_base.specs.Daypart.{DaypartRow, IsDaypart};
ghost use Rattle.sg_base.specs.Repeat.{RepeatRow};
ghost use Rattle.sg_events.specs.Active.{is_active_at};
ghost use Rattle.sg_events.specs.Edges.{IsEdge, IsUpTo};

/// From a second up to one that no edge of an event comes before, as its next edge, nothing changes: it stays active, or
/// stays idle. It does nothing when it runs; its clause is the law.
pub fn activity_stays()
    ensures { (w : When) (r : Option RepeatRow) (d : Option DaypartRow) (t x u : ℤ)
        → IfSome d IsDaypart → IsUpTo (IsEdge w r d) t x → t ≤ℤ u → u <ℤ x
        → is_active_at w r d u ≡ is_active_at w r d t }
{}
