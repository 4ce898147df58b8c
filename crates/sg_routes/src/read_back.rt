//! A path that is written is read as what it asks for.

ghost use Rattle.std.specs.Prelude.{◌≡◌, Ok};
ghost use Rattle.sg_routes.specs.declared.asked.Asked.{Asked as AskedFor};
ghost use Rattle.sg_routes.specs.Asked.{IsAskable, ask, path_of, route_for};
ghost use Rattle.sg_routes.specs.Paths.{verb_for};

/// The path of what is asked for, with the method of its route, asks for that and for nothing else. It does nothing when it
/// runs; its clause is the law.
pub fn paths_read_back()
    ensures { (asked : AskedFor) → IsAskable asked
        → ask (verb_for (route_for asked)) (path_of asked) ≡ Ok asked }
{}
