//! Each take and each put of a run failing in turn.
use crate::tests::{LINES, NOT_JSON, PLAIN, USAGE, expect, source_of};
use sg_outside::{MemSink, MemSource};
use std::alloc::Global;
use std::process::Abort;
use std::test::Fail;

// How many bytes the source gives at once, in the runs whose takes fail.
const GIVEN: usize = 7;

// The words of a run, its input, its status and its output.
type Run = (&'static str, &'static str, u8, &'static str);

const RUNS: [Run; 3] = [
    ("preview 0 3599 3600", PLAIN, 0, LINES),
    ("preview 01", PLAIN, 2, USAGE),
    ("preview 0", "{", 3, NOT_JSON),
];

// A source whose k-th take fails.
fn failing_source(alloc: Global, text: &str, k: u64) -> Result<MemSource, Fail> {
    let failing = vec![in alloc; k]?;
    Ok(
        source_of(alloc, text)?
            .with_limit(GIVEN)
            .with_failing(failing),
    )
}

// A sink of one byte at a time whose k-th put fails.
fn failing_sink(alloc: Global, k: u64) -> Result<MemSink, Fail> {
    let failing = vec![in alloc; k]?;
    Ok(MemSink::new(alloc).with_limit(1).with_failing(failing))
}

// A run takes the whole input in pieces, and once more to see its end. Where one of these takes fails, the output is
// that fault's line alone, whatever the bytes before it were.
#[test]
fn each_take_fails_in_turn(rt: HostRuntime) -> Result<(), Fail> {
    let alloc = rt.alloc();
    for (words, text) in [("preview 0 3599 3600", PLAIN), ("preview 0", "{")] {
        let takes = text.len().div_ceil(GIVEN) as u64 + 1;
        for k in 1..takes + 1 {
            let source = failing_source(alloc, text, k)?;
            let out = MemSink::new(alloc);
            expect(&rt, alloc, words, source, out, 4, "fault: read\n")?;
        }
    }
    Ok(())
}

// After the take that tells the end there is none.
#[test]
fn no_take_comes_after_the_end(rt: HostRuntime) -> Result<(), Fail> {
    let alloc = rt.alloc();
    let takes = PLAIN.len().div_ceil(GIVEN) as u64 + 1;
    let source = failing_source(alloc, PLAIN, takes + 1)?;
    let out = MemSink::new(alloc);
    expect(&rt, alloc, "preview 0 3599 3600", source, out, 0, LINES)
}

// Where a put fails, the output ends with the byte before, for the lines of a schedule and for the line of a refusal.
#[test]
fn each_put_fails_in_turn(rt: HostRuntime) -> Result<(), Fail> {
    let alloc = rt.alloc();
    for (words, input, _, output) in RUNS {
        for k in 0..output.len() {
            let source = source_of(alloc, input)?;
            let out = failing_sink(alloc, k as u64 + 1)?;
            let front = output.get(..k).ok_or("within a character")?;
            expect(&rt, alloc, words, source, out, 5, front)?;
        }
    }
    Ok(())
}

// A byte at a time, each run gives its status and its whole output.
#[test]
fn a_byte_at_a_time_serves(rt: HostRuntime) -> Result<(), Fail> {
    let alloc = rt.alloc();
    for (words, input, status, output) in RUNS {
        let source = source_of(alloc, input)?.with_limit(1);
        let out = MemSink::new(alloc).with_limit(1);
        expect(&rt, alloc, words, source, out, status, output)?;
    }
    Ok(())
}

// The line of a failed take may itself be cut by a failing put.
#[test]
fn a_put_fails_behind_a_failed_take(rt: HostRuntime) -> Result<(), Fail> {
    let alloc = rt.alloc();
    let source = failing_source(alloc, PLAIN, 2)?;
    let out = failing_sink(alloc, 4)?;
    expect(&rt, alloc, "preview 0", source, out, 5, "fau")
}
