//! Sources, and the lines that they give.

use sg_lines::{LineStop, Lines};
use sg_outside::MemSource;
use std::alloc::Global;
use std::process::Abort;
use std::test::Fail;

fn source_of(alloc: Global, text: &str) -> Result<MemSource, Fail> {
    Ok(MemSource::new(alloc, Vec::from_slice(alloc, text.as_bytes())?))
}

// All lines, each in brackets, and the stop after them if there is one.
fn all_lines(
    alloc: Global,
    source: &mut MemSource,
    most: usize,
    limit: u64,
) -> Result<String, Fail> {
    let mut lines = Lines::new(alloc, most, limit);
    let mut text = String::new(alloc);
    for _ in 0..100 {
        match lines.next(source) {
            Ok(Some(line)) => {
                let line = String::from_utf8(line).map_err(|_| "bytes")?;
                text.push('[')?;
                text.push_str(line.as_str())?;
                text.push(']')?;
            }
            Ok(None) => return Ok(text),
            Err(stop) => {
                text.push_str(name_of(stop))?;
                return Ok(text);
            }
        }
    }
    Err("no end".into())
}

fn name_of(stop: LineStop) -> &'static str {
    match stop {
        LineStop::Read => "read",
        LineStop::LongLine => "long line",
        LineStop::TooLong => "too long",
        LineStop::Memory => "memory",
    }
}

fn expect(
    rt: &impl Abort,
    alloc: Global,
    text: &str,
    most: usize,
    limit: u64,
    want: &str,
) -> Result<(), Fail> {
    for piece in [1, 2, 3, 100] {
        let mut source = source_of(alloc, text)?.with_limit(piece);
        let found = all_lines(alloc, &mut source, most, limit)?;
        assert_eq!(rt; found.as_str(), want, "{text} in pieces of {piece}");
    }
    Ok(())
}

#[test]
fn lines_end_with_a_line_feed(rt: HostRuntime) -> Result<(), Fail> {
    for (text, want) in [
        ("", ""),
        ("\n", "[]"),
        ("a", "[a]"),
        ("a\n", "[a]"),
        ("a\n\n", "[a][]"),
        ("\n\na", "[][][a]"),
        ("one\ntwo", "[one][two]"),
        ("one\r\n\rtwo \n", "[one\r][\rtwo ]"),
    ] {
        expect(&rt, rt.alloc(), text, 100, 1_000, want)?;
    }
    Ok(())
}

#[test]
fn a_line_has_a_most(rt: HostRuntime) -> Result<(), Fail> {
    for (text, want) in [
        ("abc", "[abc]"),
        ("abc\n", "[abc]"),
        ("ab\nabc\n", "[ab][abc]"),
        ("abcd", "long line"),
        ("abcd\n", "long line"),
        ("ab\nabcd\nab\n", "[ab]long line"),
    ] {
        expect(&rt, rt.alloc(), text, 3, 1_000, want)?;
    }
    expect(&rt, rt.alloc(), "\n\na", 0, 1_000, "[][]long line")
}

#[test]
fn only_so_many_bytes_are_taken(rt: HostRuntime) -> Result<(), Fail> {
    for (text, want) in [
        ("ab\ncd", "[ab][cd]"),
        ("ab\nc\n", "[ab][c]"),
        ("ab\ncde", "[ab]too long"),
        ("ab\nc\n\n", "[ab][c]too long"),
        ("abcdef", "too long"),
    ] {
        expect(&rt, rt.alloc(), text, 100, 5, want)?;
    }
    Ok(())
}

// The lines before the take that fails are given, and no byte is lost.
#[test]
fn each_take_fails_in_turn(rt: HostRuntime) -> Result<(), Fail> {
    for (take, want) in [
        (1, "read"),
        (2, "read"),
        (3, "[a]read"),
        (4, "[a]read"),
        (5, "[a][b]read"),
        (6, "[a][b]"),
    ] {
        let failing = vec![in rt.alloc(); take]?;
        let mut source = source_of(rt.alloc(), "a\nb\n")?
            .with_limit(1)
            .with_failing(failing);
        let found = all_lines(rt.alloc(), &mut source, 10, 100)?;
        assert_eq!(rt; found.as_str(), want, "take {take}");
    }
    Ok(())
}

// After a last line without a line feed no take is made.
#[test]
fn the_end_is_seen_once(rt: HostRuntime) -> Result<(), Fail> {
    let failing = vec![in rt.alloc(); 3]?;
    let mut source = source_of(rt.alloc(), "a")?.with_failing(failing);
    let found = all_lines(rt.alloc(), &mut source, 10, 100)?;
    assert_eq!(rt; found.as_str(), "[a]");
    Ok(())
}

// A line of some pieces, and one that is a byte too long.
#[test]
fn long_lines_come_whole(rt: HostRuntime) -> Result<(), Fail> {
    for (count, is_whole) in [(100_000, true), (100_001, false)] {
        let source = vec![in rt.alloc(); b'x'; count]?;
        let mut source = MemSource::new(rt.alloc(), source);
        let mut lines = Lines::new(rt.alloc(), 100_000, 1_000_000);
        match lines.next(&mut source) {
            Ok(Some(line)) => assert_eq!(rt; (is_whole, line.len()), (true, count)),
            Ok(None) => assert!(rt; false, "no line"),
            Err(stop) => assert_eq!(rt; (is_whole, stop), (false, LineStop::LongLine)),
        }
    }
    Ok(())
}
