//! `edit` over a source, a sink and a keeper in memory. The replies were worked out by hand from the rules of edits.

use sg_base::{Key, Rows};
use sg_edit_command::edit;
use sg_keeper::{Change, Keeper, MapKeeper};
use sg_outside::{MemSink, MemSource};
use std::alloc::Global;
use std::process::Abort;
use std::test::Fail;

// An edit, an empty line, the same edit with the client's next number, and a last line without a line feed: the same again.
const THREE: &str = r#"{"client":1,"seq":1,"edit":{"op":"insert","kind":"group","row":{"id":3}}}

{"seq":2,"client":1,"edit":{"op":"insert","kind":"group","row":{"id":3}}}
{"seq":2,"client":1,"edit":{"op":"insert","kind":"group","row":{"id":3}}}"#;

const THREE_REPLIES: &str = r#"{"done":1}
{"id":3,"kind":"group","refused":"Exists"}
{"id":3,"kind":"group","refused":"Exists"}
"#;

// What comes after these over the same rows: a number too far, the next one, and an edit that isn't of its form.
const LATER: &str = r#"{"client":1,"seq":4,"edit":{"op":"insert","kind":"group","row":{"id":4}}}
{"client":1,"seq":3,"edit":{"op":"insert","kind":"group","row":{"id":4}}}
{"client":1,"seq":4,"edit":{"op":"paint"}}
"#;

const LATER_REPLIES: &str = r#"{"expected":3,"refused":"Sequence"}
{"done":3}
{"fault":"Shape","refused":"Invalid"}
"#;

// The third line is no edit, and the one after it isn't read.
const FAULTY: &str = r#"
{"client":1,"seq":1,"edit":{"op":"insert","kind":"group","row":{"id":3}}}
{"client":1,"seq":2}
{"client":1,"seq":2,"edit":{"op":"insert","kind":"group","row":{"id":4}}}
"#;

const FAULTY_REPLIES: &str = r#"{"done":1}
input: line 3
"#;

fn source_of(alloc: Global, text: &str) -> Result<MemSource, Fail> {
    Ok(MemSource::new(alloc, Vec::from_slice(alloc, text.as_bytes())?))
}

fn expect(
    rt: &impl Abort,
    alloc: Global,
    keeper: &mut MapKeeper,
    input: &str,
    status: u8,
    output: &str,
) -> Result<(), Fail> {
    let mut source = source_of(alloc, input)?.with_limit(5);
    let mut out = MemSink::new(alloc).with_limit(7);
    assert_eq!(rt;
        edit(alloc, &mut source, &mut out, keeper),
        status,
        "{input}"
    );
    assert_eq!(rt; out.bytes(), output.as_bytes(), "{input}");
    Ok(())
}

// How many groups a keeper has.
fn groups(keeper: &mut MapKeeper) -> Result<usize, Fail> {
    Ok(keeper.list(5, None, 9)?.len())
}

#[test]
fn each_line_is_answered_and_kept(rt: HostRuntime) -> Result<(), Fail> {
    let alloc = rt.alloc();
    let mut keeper = MapKeeper::new(alloc);
    for (input, status, output, kept) in [
        ("", 0, "", 0),
        ("\n\n", 0, "", 0),
        ("x", 3, "input: line 1\n", 0),
        ("\n \n", 3, "input: line 2\n", 0),
        (THREE, 0, THREE_REPLIES, 1),
        (LATER, 0, LATER_REPLIES, 2),
    ] {
        expect(&rt, alloc, &mut keeper, input, status, output)?;
        assert_eq!(rt; groups(&mut keeper)?, kept, "{input}");
    }
    let mut other = MapKeeper::new(alloc);
    expect(&rt, alloc, &mut other, FAULTY, 3, FAULTY_REPLIES)?;
    assert_eq!(rt; groups(&mut other)?, 1);
    Ok(())
}

// Opening makes nine calls, and each edit that is executed makes one more. The edits before one that fails are kept.
#[test]
fn each_call_of_the_keeper_fails_in_turn(rt: HostRuntime) -> Result<(), Fail> {
    let alloc = rt.alloc();
    for (call, output, kept) in [
        (0, "fault: keeper\n", 0),
        (8, "fault: keeper\n", 0),
        (9, "fault: keeper\n", 0),
        (10, "{\"done\":1}\nfault: keeper\n", 1),
    ] {
        let mut keeper = MapKeeper::new(alloc);
        keeper.set_stop(Some(call));
        expect(&rt, alloc, &mut keeper, THREE, 12, output)?;
        keeper.set_stop(None);
        assert_eq!(rt; groups(&mut keeper)?, kept, "call {call}");
    }
    Ok(())
}

#[test]
fn the_first_bad_row_is_told(rt: HostRuntime) -> Result<(), Fail> {
    let alloc = rt.alloc();
    let mut keeper = MapKeeper::new(alloc);
    let key = Key {
        kind: 5,
        a: 3,
        b: 0,
    };
    let row = Rows::from_vec(Vec::from_slice(alloc, b"{}")?);
    let mut changes = Vec::new(alloc);
    changes.push(Change::Put(key, row))?;
    keeper.apply(changes.as_slice())?;
    expect(&rt, alloc, &mut keeper, THREE, 15, "rows: bad 5 3 0\n")
}

// Where the sink fails, it has got the front of the replies, and the edits before are kept.
#[test]
fn each_put_and_each_take_fails_in_turn(rt: HostRuntime) -> Result<(), Fail> {
    let alloc = rt.alloc();
    for count in [0, 9, 10, 11, 60] {
        let mut keeper = MapKeeper::new(alloc);
        let mut source = source_of(alloc, THREE)?;
        let failing = vec![in alloc; count as u64 + 1]?;
        let mut out = MemSink::new(alloc).with_limit(1).with_failing(failing);
        assert_eq!(rt; edit(alloc, &mut source, &mut out, &mut keeper), 5);
        let front = THREE_REPLIES.get(..count).ok_or("within a character")?;
        assert_eq!(rt; out.bytes(), front.as_bytes());
        assert_eq!(rt; groups(&mut keeper)?, 1, "{count}");
    }
    let mut keeper = MapKeeper::new(alloc);
    let failing = vec![in alloc; 2]?;
    let mut source = source_of(alloc, THREE)?
        .with_limit(80)
        .with_failing(failing);
    let mut out = MemSink::new(alloc);
    assert_eq!(rt; edit(alloc, &mut source, &mut out, &mut keeper), 4);
    assert_eq!(rt; out.bytes(), "{\"done\":1}\nfault: read\n".as_bytes());
    Ok(())
}
