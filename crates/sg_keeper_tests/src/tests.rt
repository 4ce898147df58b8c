//! A keeper in memory through its trait: changes, pages, and the calls that are to fail.

use sg_base::{Key, Rows};
use sg_keeper::{Change, Keeper, KeeperFail, MapKeeper};
use std::alloc::{AllocError, Global};
use std::test::Fail;

fn key(kind: u8, a: u64, b: u64) -> Key {
    Key { kind, a, b }
}

fn put(alloc: Global, key: Key, byte: u8) -> Result<Change, AllocError> {
    let bytes = Vec::from_slice(alloc, &[byte])?;
    Ok(Change::Put(key, Rows::from_vec(bytes)))
}

// Puts one row of one byte.
fn put_one<K: Keeper>(alloc: Global, keeper: &mut K, key: Key, byte: u8) -> Result<(), KeeperFail> {
    match put(alloc, key, byte) {
        Ok(change) => keeper.apply(&[change]),
        Err(_) => Err(KeeperFail::Memory),
    }
}

// The byte of a row.
fn byte_of<K: Keeper>(keeper: &mut K, key: Key) -> Result<Option<u8>, KeeperFail> {
    let row = keeper.get(&key)?;
    Ok(row.and_then(|bytes| bytes.as_slice().first().copied()))
}

// The second numbers of a page's keys, or none where the call failed.
fn numbers_of<K: Keeper>(
    alloc: Global,
    keeper: &mut K,
    kind: u8,
    after: Option<(u64, u64)>,
    limit: usize,
) -> Result<Vec<u64>, AllocError> {
    let mut numbers = Vec::new(alloc);
    if let Ok(page) = keeper.list(kind, after, limit) {
        for (key, _) in &page {
            numbers.push(key.b)?;
        }
    }
    Ok(numbers)
}

#[test]
fn changes_are_made_in_their_order(rt: HostRuntime) -> Result<(), Fail> {
    let alloc = rt.alloc();
    let mut keeper = MapKeeper::new(alloc);
    let (one, two, three) = (key(1, 1, 0), key(1, 2, 0), key(2, 1, 0));
    let changes = [
        put(alloc, one, 10)?,
        put(alloc, two, 20)?,
        put(alloc, one, 11)?,
        Change::Drop(two),
        Change::Drop(three),
    ];
    assert_eq!(rt; keeper.apply(&changes), Ok(()));
    assert_eq!(rt; byte_of(&mut keeper, one), Ok(Some(11)));
    assert_eq!(rt; byte_of(&mut keeper, two), Ok(None));
    assert_eq!(rt; byte_of(&mut keeper, three), Ok(None));
    Ok(())
}

// Rows of two kinds. The second number of each key is its own.
fn some_rows(alloc: Global) -> MapKeeper {
    let mut keeper = MapKeeper::new(alloc);
    for (kind, a, b) in [(9, 7, 4), (9, 7, 1), (10, 0, 5), (9, 2, 3), (9, 2, 2)] {
        let _done = put_one(alloc, &mut keeper, key(kind, a, b), 0);
    }
    keeper
}

// What a page is asked for, and the second numbers of the keys that it has.
#[derive(Drop)]
struct Page {
    kind: u8,
    after: Option<(u64, u64)>,
    limit: usize,
    has: &'static [u64],
}

impl Page {
    fn new(kind: u8, after: Option<(u64, u64)>, limit: usize, has: &'static [u64]) -> Page {
        Page {
            kind,
            after,
            limit,
            has,
        }
    }
}

#[test]
fn a_page_has_the_first_rows_of_a_kind(rt: HostRuntime) -> Result<(), Fail> {
    let mut keeper = some_rows(rt.alloc());
    let pages = [
        Page::new(9, None, 9, &[2, 3, 1, 4]),
        Page::new(9, None, 3, &[2, 3, 1]),
        Page::new(9, None, 0, &[]),
        Page::new(9, Some((2, 2)), 9, &[3, 1, 4]),
        Page::new(9, Some((2, 9)), 1, &[1]),
        Page::new(9, Some((7, 4)), 9, &[]),
        Page::new(8, Some((u64::MAX, u64::MAX)), 9, &[]),
        Page::new(10, None, 9, &[5]),
        Page::new(255, None, 9, &[]),
    ];
    for page in &pages {
        let has = numbers_of(rt.alloc(), &mut keeper, page.kind, page.after, page.limit)?;
        assert_eq!(rt;
            has.as_slice(),
            page.has,
            "{} {:?} {}",
            page.kind,
            page.after,
            page.limit
        );
    }
    Ok(())
}

#[test]
fn exactly_the_named_calls_fail_and_change_nothing(rt: HostRuntime) -> Result<(), Fail> {
    let alloc = rt.alloc();
    let mut keeper = MapKeeper::with_failing(alloc, Vec::from_slice(alloc, &[1, 3, 4])?);
    let one = key(1, 1, 0);
    assert_eq!(rt; put_one(alloc, &mut keeper, one, 10), Ok(()));
    assert_eq!(rt;
        put_one(alloc, &mut keeper, one, 11),
        Err(KeeperFail::Failed)
    );
    assert_eq!(rt; byte_of(&mut keeper, one), Ok(Some(10)));
    assert_eq!(rt; byte_of(&mut keeper, one), Err(KeeperFail::Failed));
    assert_eq!(rt; keeper.list(1, None, 1).err(), Some(KeeperFail::Failed));
    assert_eq!(rt; byte_of(&mut keeper, one), Ok(Some(10)));
    assert_eq!(rt; (keeper.begun(), keeper.faults()), (6, 3));
    Ok(())
}

#[test]
fn a_stop_fails_one_call_and_is_over(rt: HostRuntime) -> Result<(), Fail> {
    let mut keeper = MapKeeper::new(rt.alloc());
    keeper.set_stop(Some(2));
    let calls = [
        (Some(1), Ok(None)),
        (Some(0), Ok(None)),
        (None, Err(KeeperFail::Failed)),
        (None, Ok(None)),
    ];
    for (stop, answer) in calls {
        assert_eq!(rt; byte_of(&mut keeper, key(1, 1, 0)), answer, "{stop:?}");
        assert_eq!(rt; keeper.stop(), stop);
    }
    Ok(())
}
