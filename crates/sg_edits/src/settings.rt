//! What is chosen for a server.

ghost use Rattle.std.specs.Prelude.{◌≤◌};
ghost use Rattle.sg_base.specs.declared.limits.TheConstants.{MAX_PLAYS};

/// What is chosen for a server.
#[derive(Clone, Copy, Debug)]
pub struct Settings {
    /// The most plays of an epoch.
    pub plays_limit: u32,
    ghost few: { plays_limit ≤ MAX_PLAYS },
}
