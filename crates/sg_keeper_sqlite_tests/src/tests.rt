// Rows in a file, as the keeper gives them back in the same life and in the next, and as SQL reads and writes them.
use sg_base::{Key, Rows};
use sg_keeper::{Change, Keeper, KeeperFail};
use sg_keeper_sqlite::SqliteKeeper;
use sqlite::{Alter, Connection, Error, File, FileStore, Row, params};
use std::alloc::{AllocError, Global};
use std::fs;
use std::test::Fail;

/// An empty folder of this name.
fn empty_folder(rt: &HostRuntime, folder: &str) -> Result<(), Fail> {
    let _ = fs::remove_dir_all(rt, folder);
    fs::create_dir(rt, folder)?;
    Ok(())
}

/// A keeper over the file at a path.
fn over(rt: &HostRuntime, path: &str) -> Result<SqliteKeeper, Fail> {
    Ok(SqliteKeeper::new(rt.clone()?, String::from_str(rt.alloc(), path)?))
}

fn key(kind: u8, a: u64, b: u64) -> Key {
    Key { kind, a, b }
}

fn put(alloc: Global, key: Key, bytes: &[u8]) -> Result<Change, AllocError> {
    Ok(Change::Put(key, Rows::from_vec(bytes.to_vec(alloc)?)))
}

/// Puts the rows of a table in one call: two kinds, numbers that differ in their highest and their lowest byte.
fn fill(alloc: Global, keeper: &mut SqliteKeeper) -> Result<(), Fail> {
    let rows: [(Key, &[u8]); 6] = [
        (key(10, 9_223_372_036_854_775_808, 1), b"high"),
        (key(10, 255, 2), b"b"),
        (key(10, 256, 0), b"c"),
        (key(10, 255, 1), b"a"),
        (key(1, 18_446_744_073_709_551_615, 0), b"last of one"),
        (key(11, 0, 0), b""),
    ];
    let mut changes = Vec::new(alloc);
    for (key, bytes) in rows {
        changes.push(put(alloc, key, bytes)?)?;
    }
    keeper.apply(changes.as_slice())?;
    Ok(())
}

/// The values of a page, each with a blank after it.
fn values(alloc: Global, page: &[(Key, Rows<u8>)]) -> Result<Vec<u8>, AllocError> {
    let mut text = Vec::new(alloc);
    for (_, bytes) in page {
        text.extend_from_slice(bytes.as_slice())?;
        text.push(b' ')?;
    }
    Ok(text)
}

#[test]
fn pages_come_by_key(rt: HostRuntime) -> Result<(), Fail> {
    let alloc = rt.alloc();
    empty_folder(&rt, "keeper_pages")?;
    let mut keeper = over(&rt, "keeper_pages/db")?;
    fill(alloc, &mut keeper)?;
    // The kind, the key after which the page begins, the limit, and the values.
    let rows: [(u8, Option<(u64, u64)>, usize, &[u8]); 9] = [
        (10, None, 9, b"a b c high "),
        (10, None, 2, b"a b "),
        (10, None, 0, b""),
        (10, Some((255, 1)), 9, b"b c high "),
        (10, Some((255, 3)), 1, b"c "),
        (10, Some((9_223_372_036_854_775_808, 1)), 9, b""),
        (1, None, 9, b"last of one "),
        (1, Some((18_446_744_073_709_551_615, 0)), 9, b""),
        (11, None, 9, b" "),
    ];
    for (kind, after, limit, want) in rows {
        let page = keeper.list(kind, after, limit)?;
        assert_eq!(rt;
            values(alloc, page.as_slice())?.as_slice(),
            want,
            "kind {kind} limit {limit}"
        );
    }
    assert_eq!(rt; keeper.faults(), 0);
    fs::remove_dir_all(&rt, "keeper_pages")?;
    Ok(())
}

#[test]
fn rows_stay_in_the_next_life(rt: HostRuntime) -> Result<(), Fail> {
    let alloc = rt.alloc();
    empty_folder(&rt, "keeper_lives")?;
    let mut keeper = over(&rt, "keeper_lives/db")?;
    fill(alloc, &mut keeper)?;
    // One row gives way to a longer one, one goes, one that isn't there goes, and one comes and goes in a call.
    let piece = vec![in alloc; 7; 65_536]?;
    let mut changes = Vec::new(alloc);
    changes.push(put(alloc, key(10, 255, 1), piece.as_slice())?)?;
    changes.push(Change::Drop(key(10, 256, 0)))?;
    changes.push(Change::Drop(key(10, 257, 0)))?;
    changes.push(put(alloc, key(3, 1, 0), b"short")?)?;
    changes.push(Change::Drop(key(3, 1, 0)))?;
    keeper.apply(changes.as_slice())?;
    drop(keeper);
    let mut again = over(&rt, "keeper_lives/db")?;
    let found = again.get(&key(10, 255, 1))?;
    assert!(rt; found.is_some_and(|bytes| bytes.as_slice() == piece.as_slice()));
    for (gone, there) in [
        (key(10, 256, 0), false),
        (key(3, 1, 0), false),
        (key(11, 0, 0), true),
    ] {
        assert_eq!(rt; again.get(&gone)?.is_some(), there);
    }
    let page = again.list(10, Some((255, 1)), 9)?;
    assert_eq!(rt;
        values(alloc, page.as_slice())?.as_slice(),
        b"b high ".as_slice()
    );
    assert_eq!(rt; again.faults(), 0);
    fs::remove_dir_all(&rt, "keeper_lives")?;
    Ok(())
}

/// A connection to the file at a path.
fn connected(rt: &HostRuntime, path: &str) -> Result<Connection<FileStore<File>>, Error> {
    Connection::open(rt, path)
}

/// The rows of the table, in the order of the key.
fn all_rows<S: Alter>(conn: &mut Connection<S>) -> Result<Vec<Row>, Error> {
    conn.query_all(
        "SELECT kind, a, b, value FROM keeper ORDER BY kind, a, b",
        &[],
    )
}

/// The column of a row, which is a blob.
fn blob(row: &Row, column: usize) -> Result<Vec<u8>, Error> {
    row.get(column)
}

/// A row as its kind, the highest and the lowest byte of a, the lowest of b, and the length of the value.
fn told(alloc: Global, row: &Row) -> Result<String, Error> {
    let kind = row.get::<i64>(0)?;
    let a = blob(row, 1)?;
    let b = blob(row, 2)?;
    let length = blob(row, 3)?.len();
    match (a.first(), a.last(), b.last()) {
        (Some(high), Some(low), Some(last)) => {
            Ok(format!(in alloc; "{kind}:{high}:{low}:{last}:{length} ")?)
        }
        _ => Ok(String::new(alloc)),
    }
}

/// All rows of the table at a path, by SQL.
fn by_sql(rt: &HostRuntime, path: &str) -> Result<String, Error> {
    let alloc = rt.alloc();
    let mut conn = connected(rt, path)?;
    let mut text = String::new(alloc);
    for row in all_rows(&mut conn)?.as_slice() {
        text.push_str(told(alloc, row)?.as_str())?;
    }
    Ok(text)
}

/// Runs statements.
fn run<S: Alter>(conn: &mut Connection<S>, text: &str) -> Result<(), Error> {
    conn.execute_batch(text)
}

/// Puts a row of the kind 5.
fn insert<S: Alter>(conn: &mut Connection<S>) -> Result<(), Error> {
    let a = 258u64.to_be_bytes();
    let b = 0u64.to_be_bytes();
    conn.execute(
        "INSERT INTO keeper (kind, a, b, value) VALUES (?1, ?2, ?3, ?4)",
        params![5i64, a.as_slice(), b.as_slice(), b"by SQL".as_slice()],
    )?;
    Ok(())
}

/// Makes a file by SQL, with this text and then a row of the kind 5.
fn made_by_sql(rt: &HostRuntime, path: &str, text: &str) -> Result<(), Error> {
    let mut conn = connected(rt, path)?;
    run(&mut conn, text)?;
    insert(&mut conn)
}

const TABLE: &str =
    "CREATE TABLE keeper (kind INTEGER NOT NULL, a BLOB NOT NULL, b BLOB NOT NULL, value BLOB NOT NULL, PRIMARY KEY (kind, a, b)) STRICT";

#[test]
fn sql_reads_what_the_keeper_wrote(rt: HostRuntime) -> Result<(), Fail> {
    empty_folder(&rt, "keeper_to_sql")?;
    let mut keeper = over(&rt, "keeper_to_sql/db")?;
    fill(rt.alloc(), &mut keeper)?;
    drop(keeper);
    assert_eq!(rt;
        by_sql(&rt, "keeper_to_sql/db")?.as_str(),
        "1:255:255:0:11 10:0:255:1:1 10:0:255:2:1 10:0:0:0:1 10:128:0:1:4 11:0:0:0:0 "
    );
    fs::remove_dir_all(&rt, "keeper_to_sql")?;
    Ok(())
}

#[test]
fn the_keeper_reads_what_sql_wrote(rt: HostRuntime) -> Result<(), Fail> {
    let alloc = rt.alloc();
    empty_folder(&rt, "keeper_by_sql")?;
    made_by_sql(&rt, "keeper_by_sql/db", TABLE)?;
    let mut keeper = over(&rt, "keeper_by_sql/db")?;
    let found = keeper.get(&key(5, 258, 0))?;
    assert!(rt; found.is_some_and(|bytes| bytes.as_slice() == b"by SQL".as_slice()));
    fill(alloc, &mut keeper)?;
    let mut changes = Vec::new(alloc);
    changes.push(put(alloc, key(5, 258, 0), b"by the keeper")?)?;
    keeper.apply(changes.as_slice())?;
    drop(keeper);
    assert_eq!(rt;
        by_sql(&rt, "keeper_by_sql/db")?.as_str(),
        "1:255:255:0:11 5:0:2:0:13 10:0:255:1:1 10:0:255:2:1 10:0:0:0:1 10:128:0:1:4 11:0:0:0:0 "
    );
    fs::remove_dir_all(&rt, "keeper_by_sql")?;
    Ok(())
}

#[test]
fn files_that_are_none_of_ours_are_refused(rt: HostRuntime) -> Result<(), Fail> {
    let alloc = rt.alloc();
    empty_folder(&rt, "keeper_refused")?;
    made_by_sql(
        &rt,
        "keeper_refused/other",
        "CREATE TABLE keeper (kind INTEGER, a BLOB, b BLOB, value BLOB) STRICT",
    )?;
    let more = format!(in alloc; "{TABLE}; CREATE TABLE more (x INTEGER) STRICT")?;
    made_by_sql(&rt, "keeper_refused/more", more.as_str())?;
    fs::write(&rt, "keeper_refused/text", b"a text".as_slice())?;
    fs::write(
        &rt,
        "keeper_refused/zeros",
        vec![in alloc; 0; 8_192]?.as_slice(),
    )?;
    let paths = [
        "keeper_refused/other",
        "keeper_refused/more",
        "keeper_refused/text",
        "keeper_refused/zeros",
        "keeper_refused/nowhere/db",
        "keeper_refused",
        "",
        ":memory:",
        "file:keeper_refused/new",
    ];
    for path in paths {
        let mut keeper = over(&rt, path)?;
        assert_eq!(rt;
            keeper.get(&key(1, 1, 0)),
            Err(KeeperFail::Failed),
            "{path}"
        );
        assert_eq!(rt; keeper.apply(&[]), Err(KeeperFail::Failed), "{path}");
        assert_eq!(rt; keeper.faults(), 2, "{path}");
    }
    fs::remove_dir_all(&rt, "keeper_refused")?;
    Ok(())
}

#[test]
fn a_file_is_open_once(rt: HostRuntime) -> Result<(), Fail> {
    empty_folder(&rt, "keeper_once")?;
    // One byte is what a file may have that was being made.
    fs::write(&rt, "keeper_once/db", b"S".as_slice())?;
    let mut first = over(&rt, "keeper_once/db")?;
    fill(rt.alloc(), &mut first)?;
    let mut second = over(&rt, "keeper_once/db")?;
    assert_eq!(rt; second.list(10, None, 9).is_err(), true);
    assert_eq!(rt; second.faults(), 1);
    drop(first);
    assert_eq!(rt; second.list(10, None, 9)?.len(), 4);
    assert_eq!(rt; second.faults(), 1);
    fs::remove_dir_all(&rt, "keeper_once")?;
    Ok(())
}
