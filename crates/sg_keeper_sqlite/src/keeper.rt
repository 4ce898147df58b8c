// The keeper over the file. It is the trusted edge: no contract can say what a file holds.
ghost use Rattle.std.specs.Prelude.{◌≡◌, OnOk, OnErr, IfOk, IfErr, option_map};
ghost use Rattle.sg_base.specs.Keys.{number_of};
ghost use Rattle.sg_base.specs.Stops.{LowersByOne};
ghost use Rattle.sg_keeper.specs.View.{Ran, Refused, Same};
ghost use Rattle.sg_keeper.specs.Changes.{applied};
ghost use Rattle.sg_keeper.specs.Pages.{start_of, end_of, IsPage, HasPageForm};

use crate::open::{Base, open};
use crate::rows;
use sg_base::{Key, Rows};
use sg_keeper::{Change, Keeper, KeeperFail};
use sqlite_trees::error::StoreError;

/// A keeper over an SQLite file and its log. The first call opens the file, and makes it where it isn't there; no other
/// process can open it until the keeper is dropped. Each `apply` is one commit. A call that the file or the system
/// refuses is a counted fault.
pub struct SqliteKeeper {
    rt: HostRuntime,
    path: String,
    store: Option<Base>,
    faults: u64,
}

// Written out, so that a crate above doesn't prove again how each part of a store is dropped.
impl Drop for SqliteKeeper {
    fn drop(self) {
        let SqliteKeeper {
            rt: _,
            path: _,
            store: _,
            faults: _,
        } = self;
    }
}

impl SqliteKeeper {
    ghost use Rattle.sg_keeper_sqlite.specs.File.{file_view};

    /// A keeper over the file at this path. It touches nothing before the first call.
    pub fn new(rt: HostRuntime, path: String) -> SqliteKeeper
        ensures faults { (file_view result).faults ≡ 0 }
    {
        SqliteKeeper {
            rt,
            path,
            store: None,
            faults: 0,
        }
    }

    /// How many calls have failed.
    pub fn faults(&self) -> u64
        ensures { result ≡ (file_view self.now).faults }
    {
        self.faults
    }

    // Want of memory is an answer of its own; every other error is a counted fault.
    fn answer<T: Drop>(&mut self, outcome: Result<T, StoreError>) -> Result<T, KeeperFail>
        ensures value { IfOk result (λ value. outcome ≡ Ok value) }
        ensures ran { OnOk result (Ran 1 (file_view self.old) (file_view self.new)) }
        ensures refused { IfErr result (λ fail.
            Refused fail (file_view self.old) (file_view self.new)) }
    {
        match outcome {
            Ok(value) => Ok(value),
            Err(StoreError::OutOfMemory) => Err(KeeperFail::Memory),
            Err(_) => {
                self.faults = self.faults.saturating_add(1);
                Err(KeeperFail::Failed)
            }
        }
    }
}

// The store of a file, which is opened where that wasn't done yet.
fn opened<'a>(
    rt: &HostRuntime,
    path: &str,
    store: &'a mut Option<Base>,
) -> Result<&'a mut Base, StoreError> {
    if store.is_none() {
        *store = Some(open(rt, path)?);
    }
    store.as_mut().ok_or(StoreError::Broken)
}

impl Keeper for SqliteKeeper {
    ghost use Rattle.sg_keeper_sqlite.specs.File.{file_view};

    ghost view = { file_view };

    fn apply(&mut self, changes: &[Change]) -> Result<(), KeeperFail> {
        let alloc = self.rt.alloc();
        let outcome = match opened(&self.rt, self.path.as_str(), &mut self.store) {
            Ok(store) => rows::apply(alloc, store, changes),
            Err(error) => Err(error),
        };
        self.answer(outcome)
    }

    fn get(&mut self, key: &Key) -> Result<Option<Vec<u8>>, KeeperFail> {
        let alloc = self.rt.alloc();
        let outcome = match opened(&self.rt, self.path.as_str(), &mut self.store) {
            Ok(store) => rows::get(alloc, store, key),
            Err(error) => Err(error),
        };
        self.answer(outcome)
    }

    fn list(
        &mut self,
        kind: u8,
        after: Option<(u64, u64)>,
        limit: usize,
    ) -> Result<Vec<(Key, Rows<u8>)>, KeeperFail> {
        let alloc = self.rt.alloc();
        let outcome = match opened(&self.rt, self.path.as_str(), &mut self.store) {
            Ok(store) => rows::list(alloc, store, kind, after, limit),
            Err(error) => Err(error),
        };
        self.answer(outcome)
    }
}
