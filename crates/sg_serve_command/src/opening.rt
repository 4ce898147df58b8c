//! The server of a keeper's rows, with its operator's key.

ghost use Rattle.std.specs.Prelude.{IfErr, IfOk};
ghost use Rattle.sg_keeper.specs.View.{Same};
ghost use Rattle.sg_opening.specs.Opening.{IsUnopened};
ghost use Rattle.sg_serve_command.specs.Serves.{IsOpenedFor};

use sg_api::{Gate, Server};
use sg_base::Rows;
use sg_endings::Stop;
use sg_keeper::Keeper;
use sg_opening::open_server;
use std::alloc::Global;

/// The server that the rows of a keeper stand for, or why there is none. The rows stay as they are.
pub(crate) fn open_for<K: Keeper>(
    alloc: Global,
    operator: &[u8],
    keeper: &mut K,
) -> Result<Server, Stop>
    ensures opened { IfOk result (IsOpenedFor operator.now (K.view keeper.old) (K.view keeper.new)) }
    ensures stop { IfErr result (IsUnopened (K.view keeper.old) (K.view keeper.new)) }
    ensures same { Same (K.view keeper.old) (K.view keeper.new) }
{
    let key = match Vec::from_slice(alloc, operator) {
        Ok(key) => key,
        Err(_) => return Err(Stop::Memory),
    };
    match open_server(alloc, keeper) {
        Ok(cms) => Ok(Server {
            cms,
            gate: Gate {
                operator: Rows::from_vec(key),
            },
        }),
        Err(stop) => Err(stop),
    }
}
