//! Laws of all runs of a server.

ghost use Rattle.sg_edit_runs.specs.Laws.{AddsOnce, IsExecutedOnce, IsGivenOnce, IsOneServer};

/// The same rows stand for one server alone. It does nothing when it runs; its clause is the law.
pub fn one_server()
    ensures { IsOneServer }
{}

/// A number of a client is executed once. It does nothing when it runs; its clause is the law.
pub fn numbers_once()
    ensures { IsExecutedOnce }
{}

/// The plays of a batch are counted once, however often it comes. It does nothing when it runs; its clause is the law.
pub fn batches_once()
    ensures { AddsOnce }
{}

/// An epoch of a display is given once. It does nothing when it runs; its clause is the law.
pub fn epochs_once()
    ensures { IsGivenOnce }
{}
