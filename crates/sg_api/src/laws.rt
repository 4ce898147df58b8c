//! What messages leave that were answered one after another.

ghost use Rattle.std.specs.Prelude.{◌≡◌, List};
ghost use Rattle.sg_api.specs.Rule.{Answered};
ghost use Rattle.sg_api.specs.Folds.{Counted, StandsAfter, failures, exchanges_of};
ghost use Rattle.sg_api.specs.declared.server.Server.{Server as Served};
ghost use Rattle.sg_connection.specs.Exchanges.{Answers, Exchange, in_pairs, left_by};
ghost use Rattle.sg_connection.specs.Serving.{Scene};
ghost use Rattle.sg_connection.specs.Visits.{Visit, Visits};

use sg_keeper::Keeper;

/// The messages of a connection, and those of all connections of a door, are one list, each answered in the state that
/// the one before it left. After them the server stands for the fold of the steps that were made; and the keeper's
/// count rose by as many as there were 503s at least, unless it stands at its last value. It does nothing when it runs;
/// its clauses are the law.
pub fn answered_in_turn<C, K: Keeper>()
    ensures stands { (s : Served × K) (es : List (Exchange (Served × K)))
        → Answers (in_pairs (Answered K.view)) s es → StandsAfter K.view s es }
    ensures counted { (s : Served × K) (es : List (Exchange (Served × K)))
        → Answers (in_pairs (Answered K.view)) s es
        → Counted (K.view s.1).faults (K.view (left_by s es).1).faults (failures es) }
    ensures door { (scene : C → Served × K → Scene (Served × K))
        → ((conn : C) (state : Served × K) → (scene conn state).state ≡ state)
        → (s t : Served × K) (vs : List (Visit C)) (visits : Visits (in_pairs (Answered K.view)) scene s vs t)
        → let es = exchanges_of (in_pairs (Answered K.view)) scene s vs t visits in
        Answers (in_pairs (Answered K.view)) s es × (t ≡ left_by s es) }
{}
