// The rows of the keeper in the table and its index.
ghost use Rattle.std.specs.Prelude.{◌≡◌, ℕ, ◌<◌, ◌≤◌, length, IfOk, OnOk, IsSome};
ghost use Rattle.sg_base.specs.Ranks.{rank_of};
ghost use Rattle.sg_keeper.specs.Pages.{start_of, end_of, HasPageForm};

use crate::open::{INDEX, TABLE};
use sg_base::{Key, Rank, Rows};
use sg_keeper::Change;
use sqlite_trees::error::StoreError;
use sqlite_trees::store::{Direction, Shape, Store};
use sqlite_value::keys::Order;
use sqlite_value::row::Row;
use sqlite_value::value::ValueRef;
use std::alloc::Global;

const CURSOR: u16 = 0;

/// Makes all changes in one commit, or none of them.
pub(crate) fn apply<S: Store>(
    alloc: Global,
    store: &mut S,
    changes: &[Change],
) -> Result<(), StoreError> {
    match change_all(alloc, store, changes) {
        Ok(()) => store.commit(),
        Err(error) => {
            store.rollback();
            Err(error)
        }
    }
}

fn change_all<S: Store>(
    alloc: Global,
    store: &mut S,
    changes: &[Change],
) -> Result<(), StoreError> {
    let mut entry = Row::new(alloc);
    let mut row = Row::new(alloc);
    for change in changes {
        match change {
            Change::Put(key, bytes) => {
                put_one(store, key, bytes.as_slice(), &mut entry, &mut row)?;
            }
            Change::Drop(key) => drop_one(store, key, &mut entry, &mut row)?,
        }
    }
    Ok(())
}

// Puts the row of a key, under the number that it has, or a new one.
fn put_one<S: Store>(
    store: &mut S,
    key: &Key,
    bytes: &[u8],
    entry: &mut Row,
    row: &mut Row,
) -> Result<(), StoreError> {
    entry.clear();
    push_key(entry, key)?;
    let number = match find(store, entry, row)? {
        Some(number) => number,
        None => {
            let number = next_number(store, row)?;
            entry.push(ValueRef::Int(number))?;
            insert(store, entry)?;
            number
        }
    };
    row.clear();
    row.push(ValueRef::Int(number))?;
    push_key(row, key)?;
    row.push(ValueRef::Blob(bytes))?;
    put(store, row)
}

// Drops the row of a key, where there is one.
fn drop_one<S: Store>(
    store: &mut S,
    key: &Key,
    entry: &mut Row,
    row: &mut Row,
) -> Result<(), StoreError> {
    entry.clear();
    push_key(entry, key)?;
    match find(store, entry, row)? {
        Some(number) => {
            remove(store, row)?;
            delete(store, number)
        }
        None => Ok(()),
    }
}

/// The row of a key, or none.
pub(crate) fn get<S: Store>(
    alloc: Global,
    store: &mut S,
    key: &Key,
) -> Result<Option<Vec<u8>>, StoreError> {
    let mut entry = Row::new(alloc);
    let mut row = Row::new(alloc);
    push_key(&mut entry, key)?;
    match find(store, &entry, &mut row)? {
        Some(number) => {
            read(store, number, &mut row)?;
            Ok(Some(value_of(&row)?.to_vec(alloc)?))
        }
        None => Ok(None),
    }
}

/// The first rows of a kind after one of its keys, by key.
pub(crate) fn list<S: Store>(
    alloc: Global,
    store: &mut S,
    kind: u8,
    after: Option<(u64, u64)>,
    limit: usize,
) -> Result<Vec<(Key, Rows<u8>)>, StoreError>
    ensures { IfOk result (λ page. HasPageForm (start_of kind after) (end_of kind) limit page.items) }
{
    let mut entry = Row::new(alloc);
    let mut row = Row::new(alloc);
    let mut page = Vec::new(alloc);
    let mut from = first_from(kind, after);
    entry.push(ValueRef::Int(i64::from(kind)))?;
    if let Some((a, b)) = after {
        push_number(&mut entry, a)?;
        push_number(&mut entry, b)?;
    }
    seek(store, &entry)?;
    for _ in 0..u64::MAX {
        if page.len() >= limit || !next(store, &mut entry)? {
            break;
        }
        let key = key_of(&entry)?;
        if key.kind != kind {
            break;
        }
        from = push_entry(alloc, store, &entry, &mut row, key, after, &mut page, from)?;
    }
    Ok(page)
}

// Puts the row of an entry at the end of a page, unless it is that of the key after which the page begins. Says from
// which rank the row after it has to come.
fn push_entry<S: Store>(
    alloc: Global,
    store: &mut S,
    entry: &Row,
    row: &mut Row,
    key: Key,
    after: Option<(u64, u64)>,
    page: &mut Vec<(Key, Rows<u8>)>,
    from: Rank,
) -> Result<Rank, StoreError>
    ensures live { IsSome ((S.view store.old).cursors CURSOR)
        → OnOk result (IsSome ((S.view store.new).cursors CURSOR)) }
    ensures form { IfOk result (λ next. (start limit : ℕ) → start ≤ rank_of from
        → length page.old.items < limit → HasPageForm start (rank_of from) limit page.old.items
        → HasPageForm start (rank_of next) limit page.new.items) }
    ensures later { IfOk result (λ next. rank_of from ≤ rank_of next) }
    ensures within { IfOk result (λ next. rank_of from ≤ end_of key.kind
        → rank_of next ≤ end_of key.kind) }
{
    if after == Some((key.a, key.b)) {
        return Ok(from);
    }
    read(store, number_of_row(entry)?, row)?;
    let bytes = value_of(row)?.to_vec(alloc)?;
    push_row(page, from, key, bytes)
}

// Puts a row at the end of a page, of which the next row is to come at the rank `from` or after it. Says from which one
// the row after this has to come. A key before `from` is out of its order: the index is damaged.
fn push_row(
    page: &mut Vec<(Key, Rows<u8>)>,
    from: Rank,
    key: Key,
    bytes: Vec<u8>,
) -> Result<Rank, StoreError>
    ensures form { IfOk result (λ next. (start limit : ℕ) → start ≤ rank_of from
        → length page.old.items < limit → HasPageForm start (rank_of from) limit page.old.items
        → HasPageForm start (rank_of next) limit page.new.items) }
    ensures later { IfOk result (λ next. rank_of from ≤ rank_of next) }
    ensures within { IfOk result (λ next. rank_of next ≤ end_of key.kind) }
{
    if key.rank().is_below(from) {
        return Err(StoreError::Corrupt);
    }
    page.push((key, Rows::from_vec(bytes)))?;
    Ok(key.rank_after())
}

// The least rank of a page: that of the kind's first key, or the one after a key of it.
fn first_from(kind: u8, after: Option<(u64, u64)>) -> Rank
    ensures start { rank_of result ≡ start_of kind after }
    ensures within { rank_of result ≤ end_of kind }
{
    match after {
        Some((a, b)) => Key { kind, a, b }.rank_after(),
        None => Key { kind, a: 0, b: 0 }.rank(),
    }
}

// Puts a key's three columns at the end of a row.
fn push_key(row: &mut Row, key: &Key) -> Result<(), StoreError> {
    row.push(ValueRef::Int(i64::from(key.kind)))?;
    push_number(row, key.a)?;
    push_number(row, key.b)
}

// Eight bytes, the highest first, so that they stand in the order of the numbers.
fn push_number(row: &mut Row, number: u64) -> Result<(), StoreError> {
    row.push(ValueRef::Blob(number.to_be_bytes().as_slice()))?;
    Ok(())
}

// The key of an entry of the index.
fn key_of(entry: &Row) -> Result<Key, StoreError> {
    let ValueRef::Int(kind) = entry.get(0) else {
        return Err(StoreError::Corrupt);
    };
    let Ok(kind) = u8::try_from(kind) else {
        return Err(StoreError::Corrupt);
    };
    Ok(Key {
        kind,
        a: number_at(entry, 1)?,
        b: number_at(entry, 2)?,
    })
}

fn number_at(entry: &Row, column: usize) -> Result<u64, StoreError> {
    let ValueRef::Blob(bytes) = entry.get(column) else {
        return Err(StoreError::Corrupt);
    };
    match <[u8; 8]>::try_from(bytes) {
        Ok(bytes) => Ok(u64::from_be_bytes(bytes)),
        Err(_) => Err(StoreError::Corrupt),
    }
}

// The number of the row that an entry of the index stands for.
fn number_of_row(entry: &Row) -> Result<i64, StoreError> {
    match entry.get(3) {
        ValueRef::Int(number) => Ok(number),
        _ => Err(StoreError::Corrupt),
    }
}

// The value of a row of the table.
fn value_of(row: &Row) -> Result<&[u8], StoreError> {
    match row.get(4) {
        ValueRef::Blob(bytes) => Ok(bytes),
        _ => Err(StoreError::Corrupt),
    }
}

// Looks up a key in the index. Where it is there, `found` is its entry, whose number comes back.
fn find<S: Store>(store: &mut S, key: &Row, found: &mut Row) -> Result<Option<i64>, StoreError> {
    seek(store, key)?;
    if !next(store, found)? || !found.cmp_prefix(Order::PLAIN, key).is_eq() {
        return Ok(None);
    }
    Ok(Some(number_of_row(found)?))
}

// The number for a new row: one above the last.
fn next_number<S: Store>(store: &mut S, last: &mut Row) -> Result<i64, StoreError> {
    seek_last(store, last)?;
    if !next(store, last)? {
        return Ok(1);
    }
    match last.get(0) {
        ValueRef::Int(number) => number.checked_add(1).ok_or(StoreError::Full),
        _ => Err(StoreError::Corrupt),
    }
}

// Places the cursor at the first entry of the index that is not below a key.
fn seek<S: Store>(store: &mut S, key: &Row) -> Result<(), StoreError>
    ensures live { OnOk result (IsSome ((S.view store.new).cursors CURSOR)) }
{
    let Shape::Index(_) = store.shape(INDEX) else {
        return Err(StoreError::Broken);
    };
    store.seek(CURSOR, INDEX, key, Direction::Forward)
}

// Places the cursor at the last row of the table.
fn seek_last<S: Store>(store: &mut S, last: &mut Row) -> Result<(), StoreError>
    ensures live { OnOk result (IsSome ((S.view store.new).cursors CURSOR)) }
{
    let Shape::Table = store.shape(TABLE) else {
        return Err(StoreError::Broken);
    };
    last.clear();
    last.push(ValueRef::Int(i64::MAX))?;
    store.seek(CURSOR, TABLE, last, Direction::Backward)
}

// Gives the entry at the cursor and moves on, or says that there is none.
fn next<S: Store>(store: &mut S, entry: &mut Row) -> Result<bool, StoreError>
    requires { IsSome ((S.view store.old).cursors CURSOR) }
    ensures live { OnOk result (IsSome ((S.view store.new).cursors CURSOR)) }
{
    store.next(CURSOR, entry)
}

// The row of this number, which an entry of the index names.
fn read<S: Store>(store: &mut S, number: i64, row: &mut Row) -> Result<(), StoreError>
    ensures live { IsSome ((S.view store.old).cursors CURSOR)
        → OnOk result (IsSome ((S.view store.new).cursors CURSOR)) }
{
    let Shape::Table = store.shape(TABLE) else {
        return Err(StoreError::Broken);
    };
    if store.get(TABLE, number, row)? {
        Ok(())
    } else {
        Err(StoreError::Corrupt)
    }
}

fn put<S: Store>(store: &mut S, row: &Row) -> Result<(), StoreError> {
    let Shape::Table = store.shape(TABLE) else {
        return Err(StoreError::Broken);
    };
    let ValueRef::Int(_) = row.get(0) else {
        return Err(StoreError::Broken);
    };
    store.put(TABLE, row)
}

fn delete<S: Store>(store: &mut S, number: i64) -> Result<(), StoreError> {
    let Shape::Table = store.shape(TABLE) else {
        return Err(StoreError::Broken);
    };
    store.delete(TABLE, number)
}

fn insert<S: Store>(store: &mut S, entry: &Row) -> Result<(), StoreError> {
    let Shape::Index(_) = store.shape(INDEX) else {
        return Err(StoreError::Broken);
    };
    store.insert(INDEX, entry)
}

fn remove<S: Store>(store: &mut S, entry: &Row) -> Result<(), StoreError> {
    let Shape::Index(_) = store.shape(INDEX) else {
        return Err(StoreError::Broken);
    };
    store.remove(INDEX, entry)
}
