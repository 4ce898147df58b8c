//! Lines of words, and what they say by the command table.

use sg_words::{Command, command_of, places};
use std::alloc::Global;
use std::process::Abort;
use std::test::Fail;

/// The words of a line. Two spaces stand around an empty word.
pub(crate) fn words_of(alloc: Global, line: &str) -> Result<Vec<String>, Fail> {
    let mut words = Vec::new(alloc);
    for word in line.split(' ') {
        words.push(String::from_str(alloc, word)?)?;
    }
    Ok(words)
}

// A command and its values, parted by spaces.
fn text_of(alloc: Global, command: &Command<'_>) -> Result<String, Fail> {
    match command {
        Command::Format {
            store,
            server,
            display,
            key,
            room,
        } => format_text(alloc, store, server, *display, key, *room),
        Command::Play {
            store,
            server,
            key,
            every,
            panel,
        } => play_text(alloc, store, server, key, *every, panel.unwrap_or("-")),
        Command::Serve {
            db,
            listen,
            key,
            connections,
        } => serve_text(alloc, db, listen, key, *connections),
        Command::Edit { db } => edit_text(alloc, db),
        Command::Report { db, from, to } => report_text(alloc, db, from.seconds(), to.seconds()),
        Command::Rehearse => Ok(String::from_str(alloc, "rehearse")?),
        Command::Made(number) => made_text(alloc, *number),
    }
}

fn format_text(
    alloc: Global,
    store: &str,
    server: &str,
    display: u32,
    key: &str,
    room: u64,
) -> Result<String, Fail> {
    Ok(format!(in alloc; "format {store} {server} {display} {key} {room}")?)
}

fn play_text(
    alloc: Global,
    store: &str,
    server: &str,
    key: &str,
    every: u32,
    panel: &str,
) -> Result<String, Fail> {
    Ok(format!(in alloc; "play {store} {server} {key} {every} {panel}")?)
}

fn serve_text(
    alloc: Global,
    db: &str,
    listen: &str,
    key: &str,
    connections: u32,
) -> Result<String, Fail> {
    Ok(format!(in alloc; "serve {db} {listen} {key} {connections}")?)
}

fn edit_text(alloc: Global, db: &str) -> Result<String, Fail> {
    Ok(format!(in alloc; "edit {db}")?)
}

fn report_text(alloc: Global, db: &str, from: u32, to: u32) -> Result<String, Fail> {
    Ok(format!(in alloc; "report {db} {from} {to}")?)
}

fn made_text(alloc: Global, number: u32) -> Result<String, Fail> {
    Ok(format!(in alloc; "made {number}")?)
}

// What words say; `none` if they aren't in the table.
pub(crate) fn said(alloc: Global, words: &[String]) -> Result<String, Fail> {
    match command_of(alloc, words) {
        Ok(Some(command)) => text_of(alloc, &command),
        Ok(None) => Ok(String::from_str(alloc, "none")?),
        Err(_) => Err("memory".into()),
    }
}

// Whether a line is in the table.
fn is_said(alloc: Global, line: &str) -> Result<bool, Fail> {
    let words = words_of(alloc, line)?;
    match command_of(alloc, words.as_slice()) {
        Ok(found) => Ok(found.is_some()),
        Err(_) => Err("memory".into()),
    }
}

fn expect(rt: &impl Abort, alloc: Global, line: &str, text: &str) -> Result<(), Fail> {
    let words = words_of(alloc, line)?;
    let found = said(alloc, words.as_slice())?;
    assert_eq!(rt; found.as_str(), text, "{line}");
    Ok(())
}

#[test]
fn options_stand_in_any_order(rt: HostRuntime) -> Result<(), Fail> {
    for (line, text) in [
        ("edit --db a", "edit a"),
        ("report --db a --from 0 --to 5", "report a 0 5"),
        ("report --to 5 --db a --from 0", "report a 0 5"),
        ("report --from 0 --to 5 --db a", "report a 0 5"),
        (
            "serve --db a --listen b:1 --key K1",
            "serve a b:1 K1 1000000",
        ),
        (
            "serve --connections 7 --key K1 --listen b:1 --db a",
            "serve a b:1 K1 7",
        ),
        (
            "format --store s --server b:1 --display 7 --key K1 --data 65536",
            "format s b:1 7 K1 65536",
        ),
        (
            "format --data 131072 --key K1 --display 7 --server b:1 --store s",
            "format s b:1 7 K1 131072",
        ),
        ("play --store s --server b:1 --key K1", "play s b:1 K1 1 -"),
        (
            "play --panel f --every 0 --key K1 --server b:1 --store s",
            "play s b:1 K1 0 f",
        ),
        ("rehearse", "rehearse"),
        ("rehearse --made 12", "made 12"),
    ] {
        expect(&rt, rt.alloc(), line, text)?;
    }
    Ok(())
}

#[test]
fn other_words_are_not_in_the_table(rt: HostRuntime) -> Result<(), Fail> {
    for line in [
        "",
        "edit",
        "Edit --db a",
        "edits --db a",
        "preview 0",
        "help",
        "--help",
        "edit --help",
        "edit --db a --help",
        "edit --db a -h",
        "edit --db a --version",
        "edit --db a help",
        "edit --db a --",
        "edit --db -- a",
        "edit -- --db a",
        "edit --db a b",
        "edit b --db a",
        "edit --db a ",
        "edit  --db a",
        "edit --d a",
        "edit --DB a",
        "edit -db a",
        "edit -d a",
        "edit ---db a",
        "edit --db -",
        "edit --db a -",
        "edit --db a --from 0",
        "report --db a --from 0 --to 5 --key K1",
        "rehearse a",
        "rehearse --made",
        "rehearse 12",
        "rehearse --made 12 13",
    ] {
        expect(&rt, rt.alloc(), line, "none")?;
    }
    Ok(())
}

#[test]
fn numbers_have_their_ranges(rt: HostRuntime) -> Result<(), Fail> {
    for (front, value, back, is_in) in [
        (
            "format --store s --server b --key K --data 65536 --display ",
            "0",
            "",
            false,
        ),
        (
            "format --store s --server b --key K --data 65536 --display ",
            "1",
            "",
            true,
        ),
        (
            "format --store s --server b --key K --data 65536 --display ",
            "4294967295",
            "",
            true,
        ),
        (
            "format --store s --server b --key K --data 65536 --display ",
            "4294967296",
            "",
            false,
        ),
        (
            "format --store s --server b --key K --display 1 --data ",
            "0",
            "",
            false,
        ),
        (
            "format --store s --server b --key K --display 1 --data ",
            "65535",
            "",
            false,
        ),
        (
            "format --store s --server b --key K --display 1 --data ",
            "65536",
            "",
            true,
        ),
        (
            "format --store s --server b --key K --display 1 --data ",
            "65537",
            "",
            false,
        ),
        (
            "format --store s --server b --key K --display 1 --data ",
            "1073741824",
            "",
            true,
        ),
        (
            "format --store s --server b --key K --display 1 --data ",
            "1073807360",
            "",
            false,
        ),
        ("play --store s --server b --key K --every ", "0", "", true),
        (
            "play --store s --server b --key K --every ",
            "1000000",
            "",
            true,
        ),
        (
            "play --store s --server b --key K --every ",
            "1000001",
            "",
            false,
        ),
        (
            "play --store s --server b --key K --every ",
            "01",
            "",
            false,
        ),
        (
            "serve --db a --listen b --key K --connections ",
            "0",
            "",
            false,
        ),
        (
            "serve --db a --listen b --key K --connections ",
            "1",
            "",
            true,
        ),
        (
            "serve --db a --listen b --key K --connections ",
            "1000000",
            "",
            true,
        ),
        (
            "serve --db a --listen b --key K --connections ",
            "1000001",
            "",
            false,
        ),
        ("report --db a --from 5 --to ", "4", "", false),
        ("report --db a --from 5 --to ", "5", "", true),
        ("report --db a --from 5 --to ", "4102444799", "", true),
        ("report --db a --from 5 --to ", "4102444800", "", false),
        (
            "report --db a --from ",
            "4102444799",
            " --to 4102444799",
            true,
        ),
        (
            "report --db a --from ",
            "4102444800",
            " --to 4102444800",
            false,
        ),
        ("report --db a --from ", "+0", " --to 5", false),
        ("rehearse --made ", "0", "", false),
        ("rehearse --made ", "1", "", true),
        ("rehearse --made ", "1000000", "", true),
        ("rehearse --made ", "1000001", "", false),
    ] {
        let line = format!(in rt.alloc(); "{front}{value}{back}")?;
        let is_found = is_said(rt.alloc(), line.as_str())?;
        assert_eq!(rt; is_found, is_in, "{line}");
    }
    Ok(())
}

#[test]
fn keys_and_places_have_their_lengths(rt: HostRuntime) -> Result<(), Fail> {
    for (front, letter, count, back, is_in) in [
        ("serve --db a --listen b --key ", "K", 64, "", true),
        ("serve --db a --listen b --key ", "K", 65, "", false),
        ("serve --db a --listen b --key ", "é", 1, "", false),
        ("serve --db a --listen b --key ", "_", 1, "", false),
        ("edit --db ", "a", 255, "", true),
        ("edit --db ", "a", 256, "", false),
        ("edit --db ", "é", 127, "", true),
        ("edit --db ", "é", 128, "", false),
        ("serve --listen ", "b", 255, " --db a --key K", true),
        ("serve --listen ", "b", 256, " --db a --key K", false),
        ("play --store ", "s", 256, " --server b --key K", false),
        ("play --server ", "b", 256, " --store s --key K", false),
        (
            "play --panel ",
            "f",
            255,
            " --store s --server b --key K",
            true,
        ),
        (
            "play --panel ",
            "f",
            256,
            " --store s --server b --key K",
            false,
        ),
    ] {
        let value = letter.repeat(rt.alloc(), count)?;
        let line = format!(in rt.alloc(); "{front}{value}{back}")?;
        let is_found = is_said(rt.alloc(), line.as_str())?;
        assert_eq!(rt; is_found, is_in, "{line}");
    }
    Ok(())
}

#[test]
fn places_are_those_of_the_options(rt: HostRuntime) -> Result<(), Fail> {
    for (line, want) in [
        ("edit --db a", ["", "a", "", "", ""]),
        ("report --db a --from 0 --to 5", ["", "a", "", "", ""]),
        (
            "serve --db a --listen b:1 --key K1",
            ["", "a", "", "b:1", ""],
        ),
        (
            "format --store s --server b:1 --display 7 --key K1 --data 65536",
            ["s", "", "b:1", "", ""],
        ),
        (
            "play --store s --server b:1 --key K1",
            ["s", "", "b:1", "", ""],
        ),
        (
            "play --store s --server b:1 --key K1 --panel f",
            ["s", "", "b:1", "", "f"],
        ),
        ("rehearse", [""; 5]),
        ("rehearse --made 12", [""; 5]),
        ("preview 0", [""; 5]),
        ("edit --db a b", [""; 5]),
        ("", [""; 5]),
    ] {
        let words = words_of(rt.alloc(), line)?;
        let found = places(rt.alloc(), words.as_slice())?;
        assert_eq!(rt; found.store.as_str(), want[0], "{line}");
        assert_eq!(rt; found.db.as_str(), want[1], "{line}");
        assert_eq!(rt; found.server.as_str(), want[2], "{line}");
        assert_eq!(rt; found.listen.as_str(), want[3], "{line}");
        assert_eq!(rt; found.panel.as_str(), want[4], "{line}");
    }
    Ok(())
}
