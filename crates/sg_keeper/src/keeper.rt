//! What a keeper of rows is asked, and what its answers promise.

ghost use Rattle.std.specs.Prelude.{◌≡◌, OnOk, OnErr, IfOk, IfErr, option_map};
ghost use Rattle.sg_base.specs.Keys.{number_of};
ghost use Rattle.sg_base.specs.Stops.{LowersByOne};
ghost use Rattle.sg_keeper.specs.View.{View, Ran, Refused, Same};
ghost use Rattle.sg_keeper.specs.Changes.{applied};
ghost use Rattle.sg_keeper.specs.Pages.{start_of, end_of, IsPage, HasPageForm};

use sg_base::{Key, Rows};
use std::alloc::AllocError;

/// One change of the rows.
#[derive(Debug, Drop)]
pub enum Change {
    /// The row of this key is these bytes from now on.
    Put(Key, Rows<u8>),
    /// There is no row of this key from now on.
    Drop(Key),
}

/// Why a keeper refused a call. The rows are as they were.
#[derive(Clone, Copy, Debug, PartialEq, Eq)]
pub enum KeeperFail {
    /// The keeper failed, and its count of faults rose.
    Failed,
    Memory,
}

impl From<AllocError> for KeeperFail {
    ghost use Rattle.std.specs.Prelude.{◌≡◌};
    ghost use Rattle.sg_keeper.specs.declared.keeper.KeeperFail.TheVariants.{Memory};

    ghost from_gives = { λ _ fail. fail ≡ Memory };

    fn from(_fault: AllocError) -> KeeperFail {
        KeeperFail::Memory
    }
}

/// Rows by key.
pub trait Keeper {
    /// The keeper as contracts see it.
    ghost view: { Self → View };

    /// Makes all changes, one after another, or none of them.
    fn apply(&mut self, changes: &[Change]) -> Result<(), KeeperFail>
        ensures applied { OnOk result ((view self.old).told →
            (view self.new).rows ≡ applied changes.now (view self.old).rows) }
        ensures ran { OnOk result (Ran 1 (view self.old) (view self.new)) }

        // A refusal says its cause, and leaves the rows as they were.
        ensures refused { IfErr result (λ fail. Refused fail (view self.old) (view self.new)) }
        ensures same { OnErr result (Same (view self.old) (view self.new)) }

        ensures by_one { LowersByOne (view self.old).stop (view self.new).stop };

    /// The row of a key.
    fn get(&mut self, key: &Key) -> Result<Option<Vec<u8>>, KeeperFail>
        ensures row { IfOk result (λ row. (view self.old).told →
            option_map (λ bytes. bytes.items) row ≡ (view self.old).rows (number_of key.now)) }
        ensures ran { OnOk result (Ran 1 (view self.old) (view self.new)) }
        ensures refused { IfErr result (λ fail. Refused fail (view self.old) (view self.new)) }

        // Whatever it answers, the rows are as they were.
        ensures same { Same (view self.old) (view self.new) }
        ensures by_one { LowersByOne (view self.old).stop (view self.new).stop };

    /// The first rows of a kind, or the first of it after one, by key: at most `limit`, and fewer only where there are
    /// no more.
    fn list(
        &mut self,
        kind: u8,
        after: Option<(u64, u64)>,
        limit: usize,
    ) -> Result<Vec<(Key, Rows<u8>)>, KeeperFail>
        ensures page { IfOk result (λ page. (view self.old).told →
            IsPage (start_of kind after) (end_of kind) limit (view self.old).rows page.items) }
        ensures form { IfOk result (λ page.
            HasPageForm (start_of kind after) (end_of kind) limit page.items) }
        ensures ran { OnOk result (Ran 1 (view self.old) (view self.new)) }
        ensures refused { IfErr result (λ fail. Refused fail (view self.old) (view self.new)) }

        // Whatever it answers, the rows are as they were.
        ensures same { Same (view self.old) (view self.new) }
        ensures by_one { LowersByOne (view self.old).stop (view self.new).stop };
}
