//! A server, loaded.

ghost use Rattle.std.specs.Prelude.{◌≡◌, ◌≤◌, IfOk, IfErr, OnOk};
ghost use Rattle.std.specs.Result.{IsErrOf};
ghost use Rattle.sg_base.specs.declared.key.Key.{Key};
ghost use Rattle.sg_base.specs.declared.limits.TheConstants.{MAX_PLAYS};
ghost use Rattle.sg_base.specs.Keys.{number_of};
ghost use Rattle.sg_keeper.specs.View.{Ran, Same};
ghost use Rattle.sg_loading.specs.Loading.{Failed, HasKinds, IsFirstBad, IsLawful, core_of};
ghost use Rattle.sg_steps.specs.State.{AreRows};

use crate::fault::LoadFault;
use crate::pages::load_kind;
use crate::parts::Parts;
use sg_keeper::Keeper;
use std::alloc::Global;

/// The server that the rows of a keeper stand for, whose epochs may have so many plays: what it has in memory. Refuses the
/// first row by key that may not be kept after those before it, whatever comes later. The keeper's rows stay as they are.
pub fn load<K: Keeper>(alloc: Global, keeper: &mut K, limit: u32) -> Result<Parts, LoadFault>
    requires { limit ≤ MAX_PLAYS }

    // Its rows are those of the keeper, and whatever the keeper tells they are lawful.
    ensures rows { IfOk result (λ parts. (K.view keeper.old).told
        → HasKinds (K.view keeper.old).rows
        → AreRows (core_of parts limit) (K.view keeper.old).rows) }
    ensures lawful { IfOk result (λ parts. IsLawful (core_of parts limit)) }

    // A bad row is the first one.
    ensures bad { (at : Key) → IsErrOf result (LoadFault.BadRow at) → (K.view keeper.old).told
        → HasKinds (K.view keeper.old).rows
        → IsFirstBad limit (K.view keeper.old).rows (number_of at) }

    // The keeper ran, or it failed; its rows are as they were.
    ensures ran { OnOk result (Ran 9 (K.view keeper.old) (K.view keeper.new)) }
    ensures failed { IfErr result (λ fault. Failed fault (K.view keeper.old) (K.view keeper.new)) }
    ensures same { Same (K.view keeper.old) (K.view keeper.new) }
{
    let mut parts = Parts::new(alloc);
    for kind in 1..10 {
        load_kind(alloc, keeper, limit, &mut parts, kind)?;
    }
    Ok(parts)
}
