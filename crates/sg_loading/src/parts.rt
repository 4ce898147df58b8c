//! What a server has in memory.

ghost use Rattle.std.specs.Prelude.{◌≡◌, []};

use sg_base::Sorted;
use sg_records::{Client, Epoch};
use sg_tables::Tables;
use std::alloc::Global;

/// What a server has in memory: its rows, its clients and the epochs of its displays.
#[derive(Drop)]
pub struct Parts {
    pub tables: Tables,
    pub clients: Sorted<Client>,
    pub epochs: Sorted<Epoch>,
}

impl Parts {
    // Those of a server without rows. It takes no memory.
    pub(crate) fn new(alloc: Global) -> Parts
        ensures tables { result.tables.rows ≡ [] }
        ensures clients { result.clients.items ≡ [] }
        ensures epochs { result.epochs.items ≡ [] }
    {
        Parts {
            tables: Tables::new(alloc),
            clients: Sorted::new(alloc),
            epochs: Sorted::new(alloc),
        }
    }
}
