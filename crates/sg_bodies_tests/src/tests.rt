//! Bodies, with what each says.

use sg_bodies::{BodyFault, read_edit_body, read_json, read_plays_body};
use std::alloc::{AllocError, Global};
use std::process::Abort;
use std::test::Fail;

// The client, the number and the edit of a body, or that it is none.
fn edit(alloc: Global, body: &[u8]) -> Result<String, AllocError> {
    match read_json(alloc, body) {
        Err(fault) => format!(in alloc; "{fault:?}"),
        Ok(value) => match read_edit_body(&value) {
            Err(_) => String::from_str(alloc, "no edit"),
            Ok(edit) => {
                let text = edit.edit.to_string(alloc)?;
                let client = edit.client;
                let seq = edit.seq;
                format!(in alloc; "{client} {seq} {text}")
            }
        },
    }
}

// The epoch, the first number and the plays of a body, or that it is none.
fn batch(alloc: Global, body: &[u8]) -> Result<String, AllocError> {
    match read_json(alloc, body) {
        Err(fault) => format!(in alloc; "{fault:?}"),
        Ok(value) => match read_plays_body(alloc, &value) {
            Err(_) => String::from_str(alloc, "no batch"),
            Ok(batch) => {
                let mut text = format!(in alloc; "{} {}", batch.epoch, batch.first)?;
                for play in batch.plays.as_slice() {
                    let from = play.from.seconds();
                    let to = play.to.seconds();
                    let play = format!(in alloc; " {}/{}/{from}/{to}", play.event, play.layout)?;
                    text.push_str(play.as_str())?;
                }
                Ok(text)
            }
        },
    }
}

// A body, and what it says.
type Case = (&'static str, &'static str);

const EDITS: [Case; 17] = [
    (
        r#"{"client":1,"seq":2,"edit":{"op":"insert","kind":"group","row":{"id":3}}}"#,
        r#"1 2 {"kind":"group","op":"insert","row":{"id":3}}"#,
    ),
    (
        r#" { "edit" : null , "seq" : 1 , "client" : 4294967295 } "#,
        "4294967295 1 null",
    ),
    (r#"{"client":1,"seq":1,"edit":[]}"#, "1 1 []"),
    (r#"{"client":0,"seq":1,"edit":{}}"#, "no edit"),
    (r#"{"client":1,"seq":0,"edit":{}}"#, "no edit"),
    (r#"{"client":4294967296,"seq":1,"edit":{}}"#, "no edit"),
    (r#"{"client":1,"seq":4294967296,"edit":{}}"#, "no edit"),
    (r#"{"client":1.0,"seq":1,"edit":{}}"#, "no edit"),
    (r#"{"client":"1","seq":1,"edit":{}}"#, "no edit"),
    (r#"{"client":1,"seq":1e0,"edit":{}}"#, "no edit"),
    (r#"{"client":1,"seq":1}"#, "no edit"),
    (r#"{"client":1,"seq":1,"edits":{}}"#, "no edit"),
    (r#"{"client":1,"seq":1,"edit":{},"more":1}"#, "no edit"),
    (r#"[1,1,{}]"#, "no edit"),
    (r#"{"client":1,"seq":1,"edit":{}"#, "Body"),
    ("x", "Body"),
    ("", "Body"),
];

fn each_edit(rt: &impl Abort, alloc: Global, cases: &[Case]) -> Result<(), Fail> {
    for (body, wanted) in cases {
        assert_eq!(rt; edit(alloc, body.as_bytes())?.as_str(), *wanted, "{body}");
    }
    Ok(())
}

#[test]
fn an_edit_has_a_client_and_a_number(rt: HostRuntime) -> Result<(), Fail> {
    let alloc = rt.alloc();
    each_edit(&rt, alloc, &EDITS)?;
    assert_eq!(rt; edit(alloc, b"\"\xff\"")?.as_str(), "Body");
    Ok(())
}

const BATCHES: [Case; 18] = [
    (
        r#"{"epoch":1,"first":1,"plays":[[5,2,0,10]]}"#,
        "1 1 5/2/0/10",
    ),
    (
        r#"{"plays":[[0,1,7,8],[9,4294967295,4102444798,4102444799]],"first":4294967295,"epoch":65536}"#,
        "65536 4294967295 0/1/7/8 9/4294967295/4102444798/4102444799",
    ),
    (r#"{"epoch":0,"first":1,"plays":[[5,2,0,10]]}"#, "no batch"),
    (r#"{"epoch":1,"first":0,"plays":[[5,2,0,10]]}"#, "no batch"),
    (r#"{"epoch":1,"first":1,"plays":[]}"#, "no batch"),
    (r#"{"epoch":1,"first":1,"plays":{}}"#, "no batch"),
    (r#"{"epoch":1,"first":1,"plays":[[5,0,0,10]]}"#, "no batch"),
    (r#"{"epoch":1,"first":1,"plays":[[5,2,10,10]]}"#, "no batch"),
    (r#"{"epoch":1,"first":1,"plays":[[5,2,11,10]]}"#, "no batch"),
    (
        r#"{"epoch":1,"first":1,"plays":[[5,2,0,4102444800]]}"#,
        "no batch",
    ),
    (r#"{"epoch":1,"first":1,"plays":[[5,2,0]]}"#, "no batch"),
    (
        r#"{"epoch":1,"first":1,"plays":[[5,2,0,10,1]]}"#,
        "no batch",
    ),
    (
        r#"{"epoch":1,"first":1,"plays":[[5,2,0,10],5]}"#,
        "no batch",
    ),
    (r#"{"epoch":1,"first":1,"plays":[[-5,2,0,10]]}"#, "no batch"),
    (
        r#"{"epoch":1,"first":1,"plays":[[4294967296,2,0,10]]}"#,
        "no batch",
    ),
    (r#"{"epoch":1,"first":1}"#, "no batch"),
    (
        r#"{"epoch":1,"first":1,"plays":[[5,2,0,10]],"more":0}"#,
        "no batch",
    ),
    ("{", "Body"),
];

fn each_batch(rt: &impl Abort, alloc: Global, cases: &[Case]) -> Result<(), Fail> {
    for (body, wanted) in cases {
        assert_eq!(rt; batch(alloc, body.as_bytes())?.as_str(), *wanted, "{body}");
    }
    Ok(())
}

#[test]
fn a_batch_has_plays_in_their_ranges(rt: HostRuntime) -> Result<(), Fail> {
    each_batch(&rt, rt.alloc(), &BATCHES)
}

// A batch of so many plays.
fn many(alloc: Global, count: u32) -> Result<String, AllocError> {
    let mut body = String::from_str(alloc, r#"{"epoch":1,"first":1,"plays":[[5,2,0,1]"#)?;
    for _ in 1..count {
        body.push_str(",[5,2,0,1]")?;
    }
    body.push_str("]}")?;
    Ok(body)
}

#[test]
fn a_batch_has_at_most_64_plays(rt: HostRuntime) -> Result<(), Fail> {
    let alloc = rt.alloc();
    assert!(rt; batch(alloc, many(alloc, 64)?.as_bytes())?.starts_with("1 1 5/2/0/1"));
    assert_eq!(rt;
        batch(alloc, many(alloc, 65)?.as_bytes())?.as_str(),
        "no batch"
    );
    assert_eq!(rt; read_json(alloc, b"").err(), Some(BodyFault::Body));
    Ok(())
}
