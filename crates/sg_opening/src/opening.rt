//! Opening a server.

ghost use Rattle.std.specs.Prelude.{◌≡◌, IfErr, IfOk, OnOk};
ghost use Rattle.sg_keeper.specs.View.{Ran, Same};
ghost use Rattle.sg_opening.specs.Opening.{IsOpened, IsUnopened, stop_of};

use sg_base::limits::PLAYS_LIMIT;
use sg_edits::{Cms, Settings};
use sg_endings::Stop;
use sg_keeper::Keeper;
use sg_loading::LoadFault;
use std::alloc::Global;

/// The server that a keeper's rows stand for, or how the command ends that can't open it: the keeper failed, memory ran out, or a row
/// may not be kept. The keeper's rows stay as they are.
pub fn open_server<K: Keeper>(alloc: Global, keeper: &mut K) -> Result<Cms, Stop>
    ensures opened { IfOk result (λ core. IsOpened (K.view keeper.old) core) }
    ensures ran { OnOk result (Ran 9 (K.view keeper.old) (K.view keeper.new)) }
    ensures stop { IfErr result (λ stop. IsUnopened (K.view keeper.old) (K.view keeper.new) stop) }
    ensures same { Same (K.view keeper.old) (K.view keeper.new) }
{
    let settings = Settings {
        plays_limit: PLAYS_LIMIT,
    };
    match Cms::load(alloc, keeper, settings) {
        Ok(cms) => Ok(cms),
        Err(fault) => Err(stop_of(fault)),
    }
}

// How a command ends that opens no server.
fn stop_of(fault: LoadFault) -> Stop
    ensures { result ≡ stop_of fault }
{
    match fault {
        LoadFault::Keeper => Stop::Keeper,
        LoadFault::BadRow(key) => Stop::BadRow(key),
        LoadFault::Memory => Stop::Memory,
    }
}
