//! Edits that are read and tried, clients' numbers, epochs and plays. The answers are those of the rules, worked by hand.

ghost use Rattle.std.specs.Prelude.{◌≡◌, ◌<◌, ◌≤◌, IfOk};
ghost use Rattle.sg_steps.specs.Edits.{IsEdit};

use serde_json::Value;
use sg_base::{Kind, Moment, PlayBody, Sorted};
use sg_keeper::{Keeper, MapKeeper};
use sg_records::{Client, Epoch, FaultName, Reply, play_key};
use sg_rows::RowFault;
use sg_steps::{
    CmsFault, Edit, EnrolReply, PlaysReply, add_plays, attempt, changes_of, epoch_after, expected,
    give_epoch, given_reply, make, read_edit,
};
use sg_tables::Tables;
use std::alloc::{AllocError, Global};
use std::test::Fail;

const GROUP: &str = r#"{"op":"insert","kind":"group","row":{"id":3}}"#;

const MEDIUM: &str =
    r#"{"op":"insert","kind":"media","row":{"id":1,"length":3,"md5":"900150983cd24fb0d6963f7d28e17f72"}}"#;

// ---- edits

fn edit_of(alloc: Global, text: &str) -> Result<Edit, Fail> {
    let value = Value::from_str(alloc, text)?;
    Ok(read_edit(alloc, &value)?)
}

const FAULTY: [&str; 8] = [
    r#"{"op":"remove","kind":"group","id":0}"#,
    r#"{"op":"remove","kind":"client","id":1}"#,
    r#"{"op":"move","kind":"group","id":3}"#,
    r#"{"op":"remove","kind":"group","id":3,"row":{}}"#,
    r#"{"op":"remove","kind":"group","row":{"id":3}}"#,
    r#"{"op":"insert","kind":"group","id":3}"#,
    r#"{"op":"insert","kind":"group","row":{"id":3,"name":1}}"#,
    r#"[]"#,
];

fn is_out_of_form(alloc: Global, text: &str) -> Result<bool, Fail> {
    Ok(matches!(edit_of(alloc, text)?, Edit::Faulty(RowFault::Shape)))
}

fn removes_group_3(alloc: Global, text: &str) -> Result<bool, Fail> {
    Ok(matches!(edit_of(alloc, text)?, Edit::Remove(Kind::Group, 3)))
}

#[test]
fn an_edit_of_another_form_is_faulty(rt: HostRuntime) -> Result<(), Fail> {
    for text in FAULTY {
        assert!(rt; is_out_of_form(rt.alloc(), text)?, "{text}");
    }
    // Members come in any order.
    let text = r#"{"id":3,"kind":"group","op":"remove"}"#;
    assert!(rt; removes_group_3(rt.alloc(), text)?);
    Ok(())
}

// Makes an edit, if nothing refuses it.
fn commit(alloc: Global, tables: &mut Tables, text: &str) -> Result<(), Fail> {
    let edit = edit_of(alloc, text)?;
    if let Ok(ready) = attempt(tables, &edit)? {
        tables.commit(ready);
    }
    Ok(())
}

// Group 3, and medium 1, of which nothing has come.
fn some_rows(alloc: Global) -> Result<Tables, Fail> {
    let mut tables = Tables::new(alloc);
    commit(alloc, &mut tables, GROUP)?;
    commit(alloc, &mut tables, MEDIUM)?;
    Ok(tables)
}

const NO_GROUP: Reply = Reply::Unknown {
    kind: Kind::Group,
    id: 4,
};

const NO_MEDIUM: Reply = Reply::Unknown {
    kind: Kind::Media,
    id: 99,
};

const GROUP_EXISTS: Reply = Reply::Exists {
    kind: Kind::Group,
    id: 3,
};

const SHAPE: Reply = Reply::Invalid(FaultName::Shape);

// What edits of these rows are answered if they aren't made.
const REFUSED: [(&str, Option<Reply>); 13] = [
    (GROUP, Some(GROUP_EXISTS)),
    (
        r#"{"op":"insert","kind":"group","row":{"id":3,"name":1}}"#,
        Some(SHAPE),
    ),
    (
        r#"{"op":"replace","kind":"group","row":{"id":4}}"#,
        Some(NO_GROUP),
    ),
    (r#"{"op":"replace","kind":"group","row":{"id":3}}"#, None),
    (
        r#"{"op":"replace","kind":"media","row":{"id":1,"length":3,"md5":"900150983cd24fb0d6963f7d28e17f72"}}"#,
        Some(Reply::Invalid(FaultName::NoReplace)),
    ),
    (
        r#"{"op":"replace","kind":"media","row":{"id":1,"length":0,"md5":"900150983cd24fb0d6963f7d28e17f72"}}"#,
        Some(SHAPE),
    ),
    (
        r#"{"op":"insert","kind":"layout","row":{"id":1,"regions":[{"id":1,"items":[{"media":99,"seconds":10}]}]}}"#,
        Some(NO_MEDIUM),
    ),
    (
        r#"{"op":"insert","kind":"layout","row":{"id":1,"regions":[{"id":1,"items":[{"media":1,"seconds":10},{"media":99,"seconds":10}]}]}}"#,
        Some(Reply::Invalid(FaultName::Incomplete)),
    ),
    (
        r#"{"op":"insert","kind":"layout","row":{"id":1,"regions":[]}}"#,
        Some(Reply::Invalid(FaultName::Layout)),
    ),
    (
        r#"{"op":"insert","kind":"event","row":{"displays":[7],"groups":[],"id":2,"layer":1,"order":0,"priority":0,"repeat":null,"share":1,"target":{"layout":1},"when":{"always":true}}}"#,
        Some(Reply::Invalid(FaultName::Event)),
    ),
    (r#"{"op":"remove","kind":"media","id":99}"#, Some(NO_MEDIUM)),
    (r#"{"op":"remove","kind":"group","id":3}"#, None),
    (r#"{"op":"remove","kind":"media","id":1}"#, None),
];

fn is_answered(
    alloc: Global,
    tables: &mut Tables,
    text: &str,
    reply: Option<Reply>,
) -> Result<bool, Fail> {
    let edit = edit_of(alloc, text)?;
    Ok(attempt(tables, &edit)?.err() == reply)
}

#[test]
fn an_edit_is_refused_in_the_order_of_the_rules(rt: HostRuntime) -> Result<(), Fail> {
    let mut tables = some_rows(rt.alloc())?;
    for (text, reply) in REFUSED {
        assert!(rt;
            is_answered(rt.alloc(), &mut tables, text, reply)?,
            "{text}"
        );
    }
    Ok(())
}

// ---- numbers of clients

// A client and its last number, which was done.
fn client(client: u32, last: u32) -> Client {
    Client {
        client,
        last,
        reply: Reply::Done(last),
    }
}

// Clients from 1 on, each with its number 1 done.
fn some_clients(alloc: Global, count: u32) -> Result<Sorted<Client>, AllocError> {
    let mut clients = Sorted::new(alloc);
    for id in 0..count {
        clients.reserve(1)?;
        clients.put(client(id.saturating_add(1), 1));
    }
    Ok(clients)
}

// Whether a client that had this number last has that one next, and is given this reply to another.
fn goes_on(
    alloc: Global,
    last: u32,
    next: u32,
    seq: u32,
    reply: Option<Reply>,
) -> Result<bool, AllocError> {
    let mut clients = Sorted::new(alloc);
    clients.reserve(1)?;
    clients.put(client(1, last));
    Ok(expected(&clients, 1) == next && given_reply(&clients, 1, seq) == reply)
}

const DONE: Option<Reply> = Some(Reply::Done(1));

const SECOND: Option<Reply> = Some(Reply::Sequence { expected: 2 });

const ALL_DONE: Option<Reply> = Some(Reply::Done(u32::MAX));

const SPENT: Option<Reply> = Some(Reply::Sequence { expected: 0 });

// The last number, the next one, and the reply to another.
const NUMBERS: [(u32, u32, u32, Option<Reply>); 5] = [
    (1, 2, 1, DONE),
    (1, 2, 2, None),
    (1, 2, 3, SECOND),
    (u32::MAX, 0, u32::MAX, ALL_DONE),
    (u32::MAX, 0, 1, SPENT),
];

#[test]
fn a_number_is_executed_once(rt: HostRuntime) -> Result<(), Fail> {
    for (last, next, seq, reply) in NUMBERS {
        assert!(rt;
            goes_on(rt.alloc(), last, next, seq, reply)?,
            "{last} {seq}"
        );
    }
    Ok(())
}

#[test]
fn one_client_too_many_is_refused(rt: HostRuntime) -> Result<(), Fail> {
    let full = Reply::Full {
        kind: Kind::Client,
        limit: 1_000,
    };
    let clients = some_clients(rt.alloc(), 999)?;
    assert!(rt; given_reply(&clients, 1_000, 1).is_none());
    assert_eq!(rt;
        given_reply(&clients, 1_000, 2),
        Some(Reply::Sequence { expected: 1 })
    );
    let clients = some_clients(rt.alloc(), 1_000)?;
    assert_eq!(rt; given_reply(&clients, 1_001, 1), Some(full));
    Ok(())
}

// ---- a table and the keeper

// The edit that inserts a group.
fn group(alloc: Global) -> Result<Edit, Fail>
    ensures { IfOk result IsEdit }
{
    let value = Value::from_str(alloc, GROUP)?;
    Ok(read_edit(alloc, &value)?)
}

// Keeps client 1 and group 3, or says why not.
fn keep(
    alloc: Global,
    clients: &mut Sorted<Client>,
    keeper: &mut MapKeeper,
) -> Result<Option<CmsFault>, Fail> {
    let changes = changes_of(alloc, &Tables::new(alloc), &group(alloc)?)?;
    Ok(make(keeper, clients, client(1, 1), changes.as_slice()).err())
}

// Whether the groups of a keeper are this one row.
fn has_group(keeper: &mut MapKeeper, text: &[u8]) -> Result<bool, Fail> {
    let rows = keeper.list(5, None, 9)?;
    Ok(rows.len() == 1 && rows[0].1.as_slice() == text)
}

#[test]
fn the_keeper_changes_with_the_table_or_neither_does(rt: HostRuntime) -> Result<(), Fail> {
    let alloc = rt.alloc();
    let mut clients = Sorted::new(alloc);
    let mut keeper = MapKeeper::new(alloc);
    keeper.set_stop(Some(0));
    assert_eq!(rt;
        keep(alloc, &mut clients, &mut keeper)?,
        Some(CmsFault::Keeper)
    );
    assert_eq!(rt; expected(&clients, 1), 1);
    assert_eq!(rt; keep(alloc, &mut clients, &mut keeper)?, None);
    assert_eq!(rt; expected(&clients, 1), 2);
    assert!(rt; has_group(&mut keeper, br#"{"id":3}"#)?);
    Ok(())
}

// ---- epochs and plays

fn epoch(display: u32, epoch: u32, plays: u32) -> Epoch
    ensures { result.plays ≡ plays }
{
    Epoch {
        display,
        epoch,
        plays,
    }
}

// What a display is given after this epoch.
fn given_after(alloc: Global, known: Epoch, display: u32) -> Result<EnrolReply, Fail> {
    let mut epochs = Sorted::new(alloc);
    let mut keeper = MapKeeper::new(alloc);
    epochs.reserve(1)?;
    epochs.put(known);
    Ok(give_epoch(alloc, &mut epochs, &mut keeper, display)?)
}

// The display and its last epoch, another or the same, and what this one is given.
const EPOCHS: [(u32, u32, EnrolReply); 4] = [
    (7, 1, EnrolReply::Epoch(2)),
    (9, 1, EnrolReply::Epoch(1)),
    (7, 65_534, EnrolReply::Epoch(65_535)),
    (7, 65_535, EnrolReply::EpochsSpent),
];

#[test]
fn a_display_gets_its_epochs_one_after_another(rt: HostRuntime) -> Result<(), Fail> {
    for (display, last, reply) in EPOCHS {
        let given = given_after(rt.alloc(), epoch(7, last, 0), display)?;
        assert!(rt; given == reply, "{display} {last}");
    }
    Ok(())
}

// The first epoch above one, where display 7 has its epoch 3 with 5 plays.
fn first_above(
    alloc: Global,
    display: u32,
    above: u32,
) -> Result<Option<(u32, u32, u32)>, AllocError> {
    let mut epochs = Sorted::new(alloc);
    epochs.reserve(1)?;
    epochs.put(epoch(7, 3, 5));
    Ok(epoch_after(&epochs, display, above))
}

#[test]
fn epochs_stand_by_display_and_number(rt: HostRuntime) -> Result<(), Fail> {
    let alloc = rt.alloc();
    assert!(rt; first_above(alloc, 0, 0)? == Some((7, 3, 5)));
    assert!(rt; first_above(alloc, 7, 2)? == Some((7, 3, 5)));
    assert!(rt; first_above(alloc, 7, 3)?.is_none());
    Ok(())
}

fn play(from: u32) -> Result<PlayBody, Fail>
    requires { from < 1000 }
{
    Ok(PlayBody {
        event: 0,
        layout: 1,
        from: Moment::new(from).ok_or("late")?,
        to: Moment::new(from + 1).ok_or("late")?,
    })
}

const LIMIT: u32 = 5;

// What the first plays of five are answered, by epoch 1 of display 7, which has so many.
fn added(
    alloc: Global,
    keeper: &mut MapKeeper,
    have: u32,
    of: (u32, u32),
    first: u32,
    count: usize,
) -> Result<PlaysReply, Fail>
    requires have { have ≤ 5 }
    requires count { count ≤ 5 }
{
    let (old, new) = (play(0)?, play(3)?);
    let plays = [old, old, old, new, new];
    let mut epochs = Sorted::new(alloc);
    epochs.reserve(1)?;
    epochs.put(epoch(7, 1, have));
    Ok(add_plays(
        alloc,
        &mut epochs,
        keeper,
        LIMIT,
        of,
        first,
        &plays[..count],
    )?)
}

// How many plays there are, which epoch the batch is of, its first number, how many plays it has, and the answer.
const BATCHES: [(u32, (u32, u32), u32, usize, PlaysReply); 9] = [
    (0, (9, 1), 1, 1, PlaysReply::NoEpoch),
    (0, (7, 9), 2, 1, PlaysReply::NoEpoch),
    (0, (7, 1), 2, 1, PlaysReply::Gap { next: 1 }),
    (0, (7, 1), 1, 3, PlaysReply::Next(4)),
    (3, (7, 1), 1, 3, PlaysReply::Next(4)),
    (3, (7, 1), 1, 5, PlaysReply::Next(6)),
    (5, (7, 1), 7, 1, PlaysReply::Gap { next: 6 }),
    (5, (7, 1), 6, 1, PlaysReply::PlaysFull { limit: LIMIT }),
    (5, (7, 1), 5, 1, PlaysReply::Next(6)),
];

// Whether a keeper has five plays, of which the fourth has this row.
fn has_plays(keeper: &mut MapKeeper, fourth: &[u8]) -> Result<bool, Fail> {
    let rows = keeper.list(10, None, 99)?;
    let row = keeper.get(&play_key(7, 1, 4))?.ok_or("no play")?;
    Ok(rows.len() == 5 && row.as_slice() == fourth)
}

#[test]
fn a_batch_adds_its_new_plays(rt: HostRuntime) -> Result<(), Fail> {
    let mut keeper = MapKeeper::new(rt.alloc());
    for (have, of, first, count, reply) in BATCHES {
        assert!(rt; have <= 5 && count <= 5);
        let given = added(rt.alloc(), &mut keeper, have, of, first, count)?;
        assert!(rt; given == reply, "{have} {first}");
    }
    assert!(rt;
        has_plays(
            &mut keeper,
            &[0, 0, 0, 0, 1, 0, 0, 0, 3, 0, 0, 0, 4, 0, 0, 0]
        )?
    );
    Ok(())
}
