//! The routes of the server.

ghost use Rattle.std.specs.Prelude.{◌≡◌};
ghost use Rattle.sg_routes.specs.Paths.{fits, pattern_of, route_of, segments, verb_for};

use crate::segments::fits;
use sg_http::Verb;

/// A path that the server has, whatever its parameters are.
#[derive(Clone, Copy, Debug, PartialEq, Eq)]
pub enum Route {
    /// An edit.
    Edits,
    /// A piece of a medium.
    Media,
    /// The report of plays between two moments.
    Report,
    /// The next epoch of a display.
    Enrol,
    /// The manifest of a display.
    Manifest,
    /// A piece of a file of a display.
    File,
    /// A batch of plays of a display.
    Plays,
}

impl Route {
    /// Its pattern, in which `{}` is a parameter.
    pub fn pattern(self) -> &'static [u8]
        ensures { result.now ≡ pattern_of self }
    {
        match self {
            Route::Edits => b"/edits",
            Route::Media => b"/media/{}/{}",
            Route::Report => b"/reports/plays/{}/{}",
            Route::Enrol => b"/displays/{}/enrol",
            Route::Manifest => b"/displays/{}/manifest",
            Route::File => b"/displays/{}/files/{}/{}",
            Route::Plays => b"/displays/{}/plays",
        }
    }

    /// The one method that it takes.
    pub fn verb(self) -> Verb
        ensures { result ≡ verb_for self }
    {
        match self {
            Route::Edits => Verb::Post,
            Route::Media => Verb::Put,
            Route::Report => Verb::Get,
            Route::Enrol => Verb::Post,
            Route::Manifest => Verb::Get,
            Route::File => Verb::Get,
            Route::Plays => Verb::Post,
        }
    }
}

const ROUTES: [Route; 7] = [
    Route::Edits,
    Route::Media,
    Route::Report,
    Route::Enrol,
    Route::Manifest,
    Route::File,
    Route::Plays,
];

/// The route of a target.
pub fn route_of(target: &[u8]) -> Option<Route>
    ensures { result ≡ route_of (segments target.now) }
{
    ROUTES
        .iter()
        .copied()
        .find(|route| fits_route(target, *route))
}

fn fits_route(target: &[u8], route: Route) -> bool
    ensures { result ≡ fits (segments (pattern_of route)) (segments target.now) }
{
    fits(route.pattern(), target)
}
