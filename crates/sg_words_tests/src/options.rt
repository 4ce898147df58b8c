//! Each option of each command, turned wrong in each way.

use crate::tests::said;
use std::alloc::Global;
use std::process::Abort;
use std::test::Fail;

// What becomes of an option with its value.
#[derive(Clone, Copy)]
enum Turn {
    Missing,
    Twice,
    Alone,
    Empty,
    Equals,
    Dash,
    NameAgain,
}

// A command with its options and their values.
type Line = (&'static str, &'static [(&'static str, &'static str)]);

// Those whose options are all required.
const REQUIRED: [Line; 5] = [
    (
        "format",
        &[
            ("--store", "s"),
            ("--server", "b:1"),
            ("--display", "7"),
            ("--key", "K1"),
            ("--data", "65536"),
        ],
    ),
    (
        "play",
        &[("--store", "s"), ("--server", "b:1"), ("--key", "K1")],
    ),
    (
        "serve",
        &[("--db", "a"), ("--listen", "b:1"), ("--key", "K1")],
    ),
    ("edit", &[("--db", "a")]),
    ("report", &[("--db", "a"), ("--from", "0"), ("--to", "5")]),
];

// Those with each option that may be missing.
const OPTIONAL: [Line; 3] = [
    (
        "play",
        &[
            ("--every", "7"),
            ("--panel", "f"),
            ("--store", "s"),
            ("--server", "b:1"),
            ("--key", "K1"),
        ],
    ),
    (
        "serve",
        &[
            ("--connections", "7"),
            ("--db", "a"),
            ("--listen", "b:1"),
            ("--key", "K1"),
        ],
    ),
    ("rehearse", &[("--made", "7")]),
];

fn add(alloc: Global, words: &mut Vec<String>, word: &str) -> Result<(), Fail> {
    words.push(String::from_str(alloc, word)?)?;
    Ok(())
}

fn add_option(
    alloc: Global,
    words: &mut Vec<String>,
    option: &str,
    value: &str,
) -> Result<(), Fail> {
    add(alloc, words, option)?;
    add(alloc, words, value)
}

fn add_turned(
    alloc: Global,
    words: &mut Vec<String>,
    option: &str,
    value: &str,
    turn: Turn,
) -> Result<(), Fail> {
    match turn {
        Turn::Missing => Ok(()),
        Turn::Twice => {
            add_option(alloc, words, option, value)?;
            add_option(alloc, words, option, value)
        }
        Turn::Alone => add(alloc, words, option),
        Turn::Empty => add_option(alloc, words, option, ""),
        Turn::Equals => {
            let word = format!(in alloc; "{option}={value}")?;
            add(alloc, words, word.as_str())
        }
        Turn::Dash => {
            let word = format!(in alloc; "-{value}")?;
            add_option(alloc, words, option, word.as_str())
        }
        Turn::NameAgain => add_option(alloc, words, option, option),
    }
}

// The words of a line whose option at an index is turned.
fn turned(alloc: Global, line: Line, index: usize, turn: Turn) -> Result<Vec<String>, Fail> {
    let mut words = Vec::new(alloc);
    add(alloc, &mut words, line.0)?;
    for (k, (option, value)) in line.1.iter().enumerate() {
        if k == index {
            add_turned(alloc, &mut words, option, value, turn)?;
        } else {
            add_option(alloc, &mut words, option, value)?;
        }
    }
    Ok(words)
}

fn expect_same(rt: &impl Abort, found: &str, want: &str, what: &str) {
    assert_eq!(rt; found, want, "{what}");
}

// Expects that no line of the table has the words whose options are turned, each in its turn.
fn expect_none(rt: &impl Abort, alloc: Global, line: Line, turn: Turn) -> Result<(), Fail> {
    for index in 0..line.1.len() {
        let words = turned(alloc, line, index, turn)?;
        let found = said(alloc, words.as_slice())?;
        expect_same(rt, found.as_str(), "none", line.0);
    }
    Ok(())
}

#[test]
fn no_required_option_is_missing(rt: HostRuntime) -> Result<(), Fail> {
    for line in REQUIRED {
        expect_none(&rt, rt.alloc(), line, Turn::Missing)?;
    }
    Ok(())
}

#[test]
fn each_option_has_one_value_and_stands_once(rt: HostRuntime) -> Result<(), Fail> {
    for turn in [
        Turn::Twice,
        Turn::Alone,
        Turn::Empty,
        Turn::Equals,
        Turn::Dash,
        Turn::NameAgain,
    ] {
        for line in REQUIRED {
            expect_none(&rt, rt.alloc(), line, turn)?;
        }
        for line in OPTIONAL {
            expect_none(&rt, rt.alloc(), line, turn)?;
        }
    }
    Ok(())
}

// An index past the last option turns none.
#[test]
fn each_line_as_it_is_says_its_command(rt: HostRuntime) -> Result<(), Fail> {
    let texts = [
        "format s b:1 7 K1 65536",
        "play s b:1 K1 1 -",
        "serve a b:1 K1 1000000",
        "edit a",
        "report a 0 5",
    ];
    for (line, text) in REQUIRED.iter().zip(texts) {
        let words = turned(rt.alloc(), *line, 9, Turn::Missing)?;
        let found = said(rt.alloc(), words.as_slice())?;
        assert_eq!(rt; found.as_str(), text);
    }
    Ok(())
}
