// Opening the file of the keeper, or making it.
ghost use Rattle.std.specs.Prelude.{IsTrue};

use crate::plain::Plain;
use sqlite_disk::{Disk, Files, Unknown};
use sqlite_pager::{Options, Pager};
use sqlite_pool::probe_blank;
use sqlite_std_file::File;
use sqlite_store::{FileStore, OpenError, Unopened};
use sqlite_trees::error::StoreError;
use sqlite_trees::schema::Object;
use sqlite_trees::store::Shape;
use sqlite_value::keys::Order;
use sqlite_value::row::Row;
use sqlite_value::value::ValueRef;
use sqlite_wal::PageSize;
use std::alloc::Global;
use std::hash::{BuildHasher, RandomState};

/// The file of a keeper, opened.
pub(crate) type Base = FileStore<Plain<File>>;

/// The table of rows, by a number that each row gets when it is put.
pub(crate) const TABLE: u32 = 0;

/// The index of the table: kind, a and b of each row, and its number.
pub(crate) const INDEX: u32 = 1;

const PAGE_LEN: usize = 4_096;

const TEXT: &str =
    "CREATE TABLE keeper (kind INTEGER NOT NULL, a BLOB NOT NULL, b BLOB NOT NULL, value BLOB NOT NULL, PRIMARY KEY (kind, a, b)) STRICT";

const SCHEMA: [Object<'static>; 2] = [
    Object {
        shape: Shape::Table,
        kind: "table",
        name: "keeper",
        table: "keeper",
        reals: 0,
        sql: Some(TEXT),
    },
    Object {
        shape: Shape::Index(Order::PLAIN),
        kind: "index",
        name: "sqlite_autoindex_keeper_1",
        table: "keeper",
        reals: 0,
        sql: None,
    },
];

/// Opens the file at a path. One that isn't there, or is empty, gets the table. A file without it, or with more, is
/// refused. What the trees of the file hold is read when it is asked for, and trusted as SQLite trusts it.
pub(crate) fn open(rt: &HostRuntime, path: &str) -> Result<Base, StoreError> {
    let alloc = rt.alloc();
    if path.is_empty() || path == ":memory:" || path.starts_with("file:") {
        return Err(StoreError::Io);
    }
    let Files { log, db } = match sqlite_std_file::open(rt, path, Unknown) {
        Ok(files) => files,
        Err(sqlite_std_file::OpenError::OutOfMemory) => return Err(StoreError::OutOfMemory),
        Err(_) => return Err(StoreError::Io),
    };
    let files = Files {
        log: Plain::new(log),
        db: Plain::new(db),
    };
    let Ok(state) = RandomState::new(rt) else {
        return Err(StoreError::Io);
    };
    found_in(alloc, files, state.hash_one(&0u8))
}

// The store in these files, which are made a database where they are none.
fn found_in(alloc: Global, mut files: Files<Plain<File>>, seed: u64) -> Result<Base, StoreError>
    requires log { IsTrue (⟦<Plain<File> as Disk>⟧.is_usable files.log) }
    requires db { IsTrue (⟦<Plain<File> as Disk>⟧.is_usable files.db) }
{
    let Some(size) = PageSize::new(PAGE_LEN) else {
        return Err(StoreError::Broken);
    };
    let is_new = match probe_blank(alloc, &mut files, size, false) {
        Ok(is_new) => is_new,
        Err(sqlite_wal::Error::OutOfMemory) => return Err(StoreError::OutOfMemory),
        Err(_) => return Err(StoreError::Io),
    };
    let Ok(pager) = Pager::new(alloc, files, size, Options::new(seed)) else {
        return Err(StoreError::OutOfMemory);
    };
    let Ok(mut found) = Unopened::new(alloc, pager, &SCHEMA) else {
        return Err(StoreError::OutOfMemory);
    };
    let opened = if is_new {
        found.create()
    } else {
        match found.read_catalog() {
            Ok(listed) if lists_ours(listed.as_slice()) => found.open_trusted(),
            Ok(_) => return Err(StoreError::Corrupt),
            Err(error) => return Err(fault(error)),
        }
    };
    match opened {
        Ok(store) => Ok(store),
        Err((error, _)) => Err(fault(error)),
    }
}

fn fault(error: OpenError) -> StoreError {
    match error {
        OpenError::OutOfMemory => StoreError::OutOfMemory,
        OpenError::Io => StoreError::Io,
        OpenError::Full => StoreError::Full,
        OpenError::Refused => StoreError::Corrupt,
    }
}

// Whether the table and its index are listed, with these very texts, and nothing else is. An entry is its number, its
// type, its name, its table, its root and its text.
fn lists_ours(listed: &[Row]) -> bool {
    match listed {
        [table, index] => is_listed(table, &SCHEMA[0]) && is_listed(index, &SCHEMA[1]),
        _ => false,
    }
}

fn is_listed(entry: &Row, object: &Object<'_>) -> bool {
    let text = match (entry.get(5), object.sql) {
        (ValueRef::Text(text), Some(sql)) => text == sql.as_bytes(),
        (ValueRef::Null, None) => true,
        _ => false,
    };
    text && is_text(entry.get(1), object.kind)
        && is_text(entry.get(2), object.name)
        && is_text(entry.get(3), object.table)
}

fn is_text(value: ValueRef<'_>, text: &str) -> bool {
    match value {
        ValueRef::Text(found) => found == text.as_bytes(),
        _ => false,
    }
}
