//! Pages of rows, taken into a server.

ghost use Rattle.std.specs.Prelude.{◌≡◌, ◌≢◌, ℕ, ◌-◌, ◌<◌, ◌≤◌, ◌^◌, List, Option, length, OnOk, IfErr, IfOk};
ghost use Rattle.std.specs.Result.{IsErrOf};
ghost use Rattle.sg_base.specs.declared.key.Key.{Key};
ghost use Rattle.sg_base.specs.declared.limits.TheConstants.{MAX_PLAYS};
ghost use Rattle.sg_base.specs.Keys.{number, number_of};
ghost use Rattle.sg_keeper.specs.Pages.{HasPageForm, end_of, start_of};
ghost use Rattle.sg_keeper.specs.View.{Ran, Same};
ghost use Rattle.sg_loading.specs.Loading.{Failed, IsFirstBad, IsLawful, core_of, rows_below};
ghost use Rattle.sg_loading.specs.Pages.{AreNext, Continues, left, reached};
ghost use Rattle.sg_steps.specs.State.{AreRows};

use crate::fault::LoadFault;
use crate::parts::Parts;
use crate::rows::load_row;
use sg_base::{Key, Rows};
use sg_keeper::{Keeper, KeeperFail};
use std::alloc::Global;

// How many rows are read at a time.
const PAGE: usize = 256;

/// Takes all rows of a kind in.
pub fn load_kind<K: Keeper>(
    alloc: Global,
    keeper: &mut K,
    limit: u32,
    parts: &mut Parts,
    kind: u8,
) -> Result<(), LoadFault>
    requires limit { limit ≤ MAX_PLAYS }
    requires kind { kind ≤ 9 }
    requires lawful { IsLawful (core_of parts.old limit) }
    ensures lawful { OnOk result (IsLawful (core_of parts.new limit)) }
    ensures rows { OnOk result ((K.view keeper.old).told
        → AreRows (core_of parts.old limit) (rows_below (number kind 0 0) (K.view keeper.old).rows)
        → AreRows (core_of parts.new limit) (rows_below (end_of kind) (K.view keeper.old).rows)) }
    ensures bad { (at : Key) → IsErrOf result (LoadFault.BadRow at) → (K.view keeper.old).told
        → AreRows (core_of parts.old limit) (rows_below (number kind 0 0) (K.view keeper.old).rows)
        → IsFirstBad limit (K.view keeper.old).rows (number_of at) }

    // The keeper ran, or it failed; its rows are as they were.
    ensures ran { OnOk result (Ran 1 (K.view keeper.old) (K.view keeper.new)) }
    ensures failed { IfErr result (λ fault. Failed fault (K.view keeper.old) (K.view keeper.new)) }
    ensures same { Same (K.view keeper.old) (K.view keeper.new) }
{
    let mut after = load_next(alloc, keeper, limit, parts, kind, None)?;
    while let Some(key) = after {
        after = load_next(alloc, keeper, limit, parts, kind, Some(key))?;
    }
    Ok(())
}

// Takes the next page of a kind in: its first rows, or those after a key. Says after which key the page after it begins,
// if there is one.
fn load_next<K: Keeper>(
    alloc: Global,
    keeper: &mut K,
    limit: u32,
    parts: &mut Parts,
    kind: u8,
    after: Option<(u64, u64)>,
) -> Result<Option<(u64, u64)>, LoadFault>
    requires limit { limit ≤ MAX_PLAYS }
    requires kind { kind ≤ 9 }
    requires start { start_of kind after ≤ end_of kind }
    requires lawful { IsLawful (core_of parts.old limit) }
    ensures lawful { OnOk result (IsLawful (core_of parts.new limit)) }

    // Each page leaves less of the kind.
    ensures left { IfOk result (λ next. left kind next ≤ end_of kind - start_of kind after) }
    ensures within { IfOk result (λ next. reached kind next ≤ end_of kind) }

    // The rows up to there are in, or the first bad one is found.
    ensures rows { IfOk result (λ next. (K.view keeper.old).told
        → AreRows (core_of parts.old limit)
        (rows_below (start_of kind after) (K.view keeper.old).rows)
        → AreRows (core_of parts.new limit)
        (rows_below (reached kind next) (K.view keeper.old).rows)) }
    ensures bad { (at : Key) → IsErrOf result (LoadFault.BadRow at) → (K.view keeper.old).told
        → AreRows (core_of parts.old limit)
        (rows_below (start_of kind after) (K.view keeper.old).rows)
        → IsFirstBad limit (K.view keeper.old).rows (number_of at) }

    // The keeper ran, or it failed; its rows are as they were.
    ensures ran { OnOk result (Ran 1 (K.view keeper.old) (K.view keeper.new)) }
    ensures failed { IfErr result (λ fault. Failed fault (K.view keeper.old) (K.view keeper.new)) }
    ensures same { Same (K.view keeper.old) (K.view keeper.new) }
{
    let page = match keeper.list(kind, after, PAGE) {
        Ok(page) => page,
        Err(KeeperFail::Failed) => return Err(LoadFault::Keeper),
        Err(KeeperFail::Memory) => return Err(LoadFault::Memory),
    };
    let next = next_after(page.as_slice(), PAGE);
    load_page(alloc, limit, parts, page)?;
    Ok(next)
}

// After which key the page after this one begins; `None` if there is none.
fn next_after(page: &[(Key, Rows<u8>)], size: usize) -> Option<(u64, u64)>
    requires { 0 < size }
    ensures { (kind start : ℕ) → number kind 0 0 ≤ start → start ≤ end_of kind
        → HasPageForm start (end_of kind) size page.now
        → Continues kind start size page.now result }
{
    if page.len() < size {
        return None;
    }
    match page.last() {
        Some(last) => Some(numbers_of(last.0)),
        None => None,
    }
}

// The two numbers of a key, which fit their types.
fn numbers_of(key: Key) -> (u64, u64)
    ensures value { result ≡ (key.a, key.b) }
    ensures fits { (key.a < 2 ^ 64) × (key.b < 2 ^ 64) }
{
    (key.a, key.b)
}

// Takes a page of rows in.
fn load_page(
    alloc: Global,
    limit: u32,
    parts: &mut Parts,
    page: Vec<(Key, Rows<u8>)>,
) -> Result<(), LoadFault>
    requires limit { limit ≤ MAX_PLAYS }
    requires lawful { IsLawful (core_of parts.old limit) }
    ensures lawful { OnOk result (IsLawful (core_of parts.new limit)) }
    ensures rows { OnOk result ((kept : ℕ → Option (List ℕ)) (start end : ℕ)
        → AreNext kept start end page.items
        → AreRows (core_of parts.old limit) (rows_below start kept)
        → AreRows (core_of parts.new limit) (rows_below end kept)) }
    ensures bad { (at : Key) → IsErrOf result (LoadFault.BadRow at)
        → (kept : ℕ → Option (List ℕ)) (start end : ℕ)
        → AreNext kept start end page.items
        → AreRows (core_of parts.old limit) (rows_below start kept)
        → IsFirstBad limit kept (number_of at) }
    ensures failed { IfErr result (λ fault. fault ≢ LoadFault.Keeper) }
{
    let mut rest = page.into_iter();
    while let Some((key, bytes)) = rest.next() {
        load_row(alloc, limit, parts, key, bytes.as_slice())?;
    }
    Ok(())
}
