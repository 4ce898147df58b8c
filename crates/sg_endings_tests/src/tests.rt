//! Stops with their statuses and lines, and sinks that get them.

use sg_base::Key;
use sg_endings::{Stop, finish, put_last};
use sg_outside::MemSink;
use std::test::Fail;

const BIG: u64 = 18_446_744_073_709_551_615;

fn key(kind: u8, a: u64, b: u64) -> Key {
    Key { kind, a, b }
}

#[test]
fn each_stop_has_its_status_and_its_line(rt: HostRuntime) -> Result<(), Fail> {
    for (stop, status, line) in [
        (Stop::TooLong, 3, "input: too long\n"),
        (Stop::Line(1), 3, "input: line 1\n"),
        (Stop::Line(BIG), 3, "input: line 18446744073709551615\n"),
        (Stop::Read, 4, "fault: read\n"),
        (Stop::Memory, 9, "fault: memory\n"),
        (Stop::Keeper, 12, "fault: keeper\n"),
        (Stop::BadRow(key(1, 5, 0)), 15, "rows: bad 1 5 0\n"),
        (
            Stop::BadRow(key(255, BIG, BIG)),
            15,
            "rows: bad 255 18446744073709551615 18446744073709551615\n",
        ),
    ] {
        let mut out = MemSink::new(rt.alloc());
        assert_eq!(rt; finish(&mut out, stop), status, "{line}");
        assert_eq!(rt; out.bytes(), line.as_bytes(), "{line}");
    }
    Ok(())
}

// Where a put fails, the sink has got the bytes before, and the status is 5.
#[test]
fn a_sink_that_fails_has_the_front(rt: HostRuntime) -> Result<(), Fail> {
    for count in 0..12 {
        let failing = vec![in rt.alloc(); count as u64 + 1]?;
        let mut out = MemSink::new(rt.alloc()).with_limit(1).with_failing(failing);
        assert_eq!(rt; finish(&mut out, Stop::Read), 5);
        let front = "fault: read\n".get(..count).ok_or("within a character")?;
        assert_eq!(rt; out.bytes(), front.as_bytes());
    }
    Ok(())
}

#[test]
fn a_last_text_goes_with_any_status(rt: HostRuntime) -> Result<(), Fail> {
    for (status, text) in [(0, ""), (0, "all\n"), (2, "usage\n")] {
        let mut out = MemSink::new(rt.alloc());
        assert_eq!(rt; put_last(&mut out, status, text.as_bytes()), status);
        assert_eq!(rt; out.bytes(), text.as_bytes());
    }
    Ok(())
}
