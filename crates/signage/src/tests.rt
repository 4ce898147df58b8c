use crate::previews::preview;
use crate::tops::{Outside, top};
use sg_base::Moment;
use sg_keeper::MapKeeper;
use sg_outside::{MemDoor, MemSink, MemSource};
use std::alloc::Global;
use std::process::Abort;
use std::test::Fail;

// A manifest of one layout of one medium.
pub(crate) const PLAIN: &str =
    r#"{"campaigns":[],"dayparts":[],"default":1,"events":[],"files":[{"id":1,"length":3,"md5":"900150983cd24fb0d6963f7d28e17f72"}],"layouts":[{"id":1,"regions":[{"id":1,"items":[{"media":1,"seconds":10}]}]}],"version":1,"zone":{"offset":0}}"#;

// The same with a layout of seven seconds, in a zone an hour behind.
const SEVEN: &str =
    r#"{"campaigns":[],"dayparts":[],"default":1,"events":[],"files":[{"id":1,"length":3,"md5":"900150983cd24fb0d6963f7d28e17f72"}],"layouts":[{"id":1,"regions":[{"id":1,"items":[{"media":1,"seconds":7}]}]}],"version":1,"zone":{"offset":-60}}"#;

pub(crate) const LINES: &str =
    "0 e0 l1 s0 o0 r1:m1\n3599 e0 l1 s3590 o9 r1:m1\n3600 e0 l1 s3600 o0 r1:m1\n";

pub(crate) const USAGE: &str = "usage: signage preview|format|play|serve|edit|report|rehearse\n";

pub(crate) const NOT_JSON: &str = "input: manifest NotJson\n";

const BAD_FIELD: &str = "input: manifest BadField\n";

const DANGLING: &str = "input: manifest Dangling\n";

const DOUBLE: &str = "input: manifest Double\n";

const VERSION: &str = "input: manifest Version\n";

const LIMIT: &str = "input: manifest Limit\n";

const NOT_CANONICAL: &str = "input: manifest NotCanonical\n";

// The words of a line, parted by single spaces.
pub(crate) fn words_of(alloc: Global, line: &str) -> Result<Vec<String>, Fail> {
    let mut words = Vec::new(alloc);
    for word in line.split_whitespace() {
        words.push(String::from_str(alloc, word)?)?;
    }
    Ok(words)
}

pub(crate) fn source_of(alloc: Global, text: &str) -> Result<MemSource, Fail> {
    Ok(MemSource::new(alloc, Vec::from_slice(alloc, text.as_bytes())?))
}

// Runs the words over the input, and compares the status and the output.
pub(crate) fn expect(
    rt: &impl Abort,
    alloc: Global,
    line: &str,
    source: MemSource,
    out: MemSink,
    status: u8,
    text: &str,
) -> Result<(), Fail> {
    let words = words_of(alloc, line)?;
    let keeper = MapKeeper::new(alloc);
    let door = MemDoor::new(alloc, Vec::new(alloc));
    let mut outside = Outside {
        source,
        out,
        keeper,
        door,
    };
    let answer = top(alloc, words.as_slice(), &mut outside);
    assert_eq!(rt; answer, status, "status of {line}");
    assert_eq!(rt; outside.out.bytes(), text.as_bytes(), "output of {line}");
    Ok(())
}

#[test]
fn previews_worked_lines(rt: HostRuntime) -> Result<(), Fail> {
    let alloc = rt.alloc();
    let seven = "3599 e0 l1 s-2 o1 r1:m1\n7199 e0 l1 s3598 o1 r1:m1\n7200 e0 l1 s3600 o0 r1:m1\n";
    for (manifest, words, text) in [
        (PLAIN, "preview 0 3599 3600", LINES),
        (SEVEN, "preview 3599 7199 7200", seven),
        (
            PLAIN,
            "preview 4102444799",
            "4102444799 e0 l1 s4102444790 o9 r1:m1\n",
        ),
    ] {
        expect(
            &rt,
            alloc,
            words,
            source_of(alloc, manifest)?,
            MemSink::new(alloc),
            0,
            text,
        )?;
    }
    Ok(())
}

/// A manifest of version 2 with one event, which is always active, in a layer.
fn layered(alloc: Global, layer: &str) -> Result<String, Fail> {
    let second = PLAIN.replacen(alloc, "\"version\":1", "\"version\":2", 1)?;
    let event = format!(in alloc;
        "\"events\":[{{\"id\":5,\"layer\":{layer},\"order\":0,\"priority\":0,\"repeat\":null,\"share\":0,\"target\":{{\"layout\":1}},\"when\":{{\"always\":true}}}}]"
    )?;
    Ok(
        second
            .as_str()
            .replacen(alloc, "\"events\":[]", event.as_str(), 1)?,
    )
}

#[test]
fn previews_version_2(rt: HostRuntime) -> Result<(), Fail> {
    let alloc = rt.alloc();
    let plain = PLAIN.replacen(alloc, "\"version\":1", "\"version\":2", 1)?;
    let shown = "0 e5 l1 s0 o0 r1:m1\n3599 e5 l1 s3590 o9 r1:m1\n3600 e5 l1 s3600 o0 r1:m1\n";
    let above =
        "0 e0 l1 s0 o0 r1:m1 v5 l1 s0 o0 r1:m1\n3599 e0 l1 s3590 o9 r1:m1 v5 l1 s3590 o9 r1:m1\n3600 e0 l1 s3600 o0 r1:m1 v5 l1 s3600 o0 r1:m1\n";
    for (text, status, output) in [
        (plain, 0, LINES),
        (layered(alloc, "0")?, 0, shown),
        (layered(alloc, "1")?, 0, above),
        (layered(alloc, "2")?, 3, BAD_FIELD),
    ] {
        expect(
            &rt,
            alloc,
            "preview 0 3599 3600",
            source_of(alloc, text.as_str())?,
            MemSink::new(alloc),
            status,
            output,
        )?;
    }
    Ok(())
}

#[test]
fn preview_without_words(rt: HostRuntime) -> Result<(), Fail> {
    let alloc = rt.alloc();
    let moments = [
        Moment::new(0).ok_or("after 2099")?,
        Moment::new(3599).ok_or("after 2099")?,
        Moment::new(3600).ok_or("after 2099")?,
    ];
    let mut source = source_of(alloc, PLAIN)?;
    let mut out = MemSink::new(alloc);
    assert_eq!(rt; preview(alloc, &moments, &mut source, &mut out), 0);
    assert_eq!(rt; out.bytes(), LINES.as_bytes());
    assert_eq!(rt; source.faults(), 0);
    Ok(())
}

#[test]
fn words_out_of_the_table_are_usage(rt: HostRuntime) -> Result<(), Fail> {
    let alloc = rt.alloc();
    for words in [
        "",
        "preview",
        "preview 01",
        "preview -1",
        "preview +1",
        "preview 4102444800",
        "preview 4294967296",
        "preview 0 x",
        "previews 0",
        "Preview 0",
        "0",
        "--help",
        "format",
        "play 0",
    ] {
        expect(
            &rt,
            alloc,
            words,
            source_of(alloc, PLAIN)?,
            MemSink::new(alloc),
            2,
            USAGE,
        )?;
    }
    Ok(())
}

#[test]
fn refuses_what_is_no_manifest(rt: HostRuntime) -> Result<(), Fail> {
    let alloc = rt.alloc();
    for (from, to, shown) in [
        ("\"version\":1", "\"version\":3", VERSION),
        ("{\"campaigns", "{ \"campaigns", NOT_CANONICAL),
        ("\"default\":1", "\"default\":2", DANGLING),
        ("\"seconds\":10", "\"seconds\":0", BAD_FIELD),
        ("\"seconds\":10", "\"seconds\":3601", BAD_FIELD),
        ("\"media\":1", "\"media\":2", DANGLING),
        ("\"offset\":0", "\"offset\":841", BAD_FIELD),
        (
            "\"files\":[",
            "\"files\":[{\"id\":1,\"length\":3,\"md5\":\"900150983cd24fb0d6963f7d28e17f72\"},",
            DOUBLE,
        ),
    ] {
        let text = PLAIN.replacen(alloc, from, to, 1)?;
        expect(
            &rt,
            alloc,
            "preview 0",
            source_of(alloc, text.as_str())?,
            MemSink::new(alloc),
            3,
            shown,
        )?;
    }
    expect(
        &rt,
        alloc,
        "preview 0",
        source_of(alloc, "{")?,
        MemSink::new(alloc),
        3,
        NOT_JSON,
    )?;
    expect(
        &rt,
        alloc,
        "preview 0",
        source_of(alloc, "")?,
        MemSink::new(alloc),
        3,
        NOT_JSON,
    )
}

#[test]
fn one_final_line_feed_is_dropped(rt: HostRuntime) -> Result<(), Fail> {
    let alloc = rt.alloc();
    let one = format!(in alloc; "{PLAIN}\n")?;
    let two = format!(in alloc; "{PLAIN}\n\n")?;
    expect(
        &rt,
        alloc,
        "preview 0 3599 3600",
        source_of(alloc, one.as_str())?,
        MemSink::new(alloc),
        0,
        LINES,
    )?;
    expect(
        &rt,
        alloc,
        "preview 0 3599 3600",
        source_of(alloc, two.as_str())?,
        MemSink::new(alloc),
        3,
        NOT_CANONICAL,
    )
}

#[test]
fn a_longer_input_is_too_long(rt: HostRuntime) -> Result<(), Fail> {
    let alloc = rt.alloc();
    let longest = MemSource::new(alloc, vec![in alloc; b' '; 1_048_577]?);
    expect(
        &rt,
        alloc,
        "preview 0",
        longest,
        MemSink::new(alloc),
        3,
        NOT_JSON,
    )?;
    // The plain manifest behind blanks: its text is a byte too long.
    let mut padded = vec![in alloc; b' '; 1_048_577 - PLAIN.len()]?;
    padded.extend_from_slice(PLAIN.as_bytes())?;
    expect(
        &rt,
        alloc,
        "preview 0",
        MemSource::new(alloc, padded),
        MemSink::new(alloc),
        3,
        LIMIT,
    )?;
    let longer = MemSource::new(alloc, vec![in alloc; b' '; 1_048_578]?);
    expect(
        &rt,
        alloc,
        "preview 0",
        longer,
        MemSink::new(alloc),
        3,
        "input: too long\n",
    )
}

#[test]
fn pieces_of_any_size_serve(rt: HostRuntime) -> Result<(), Fail> {
    let alloc = rt.alloc();
    for limit in 1..8 {
        let source = source_of(alloc, PLAIN)?.with_limit(limit);
        expect(
            &rt,
            alloc,
            "preview 0 3599 3600",
            source,
            MemSink::new(alloc).with_limit(limit),
            0,
            LINES,
        )?;
    }
    Ok(())
}

#[test]
fn faults_have_their_status(rt: HostRuntime) -> Result<(), Fail> {
    let alloc = rt.alloc();
    let first = vec![in alloc; 1]?;
    let source = source_of(alloc, PLAIN)?.with_failing(first);
    expect(
        &rt,
        alloc,
        "preview 0",
        source,
        MemSink::new(alloc),
        4,
        "fault: read\n",
    )?;
    let second = vec![in alloc; 2]?;
    let source = source_of(alloc, PLAIN)?.with_failing(second);
    expect(
        &rt,
        alloc,
        "preview 0",
        source,
        MemSink::new(alloc),
        4,
        "fault: read\n",
    )?;
    let third = vec![in alloc; 3]?;
    let source = source_of(alloc, PLAIN)?;
    let out = MemSink::new(alloc).with_failing(third);
    let two = "0 e0 l1 s0 o0 r1:m1\n3599 e0 l1 s3590 o9 r1:m1\n";
    expect(&rt, alloc, "preview 0 3599 3600", source, out, 5, two)
}

// The text of a manifest of 512 layouts, of which the last is the default.
fn of_most_layouts(alloc: Global) -> Result<String, Fail> {
    let mut text = String::from_str(
        alloc,
        r#"{"campaigns":[],"dayparts":[],"default":512,"events":[],"files":[{"id":1,"length":3,"md5":"900150983cd24fb0d6963f7d28e17f72"}],"layouts":["#,
    )?;
    for id in 1..513u32 {
        if id > 1 {
            text.push_str(",")?;
        }
        let layout = format!(in alloc;
            "{{\"id\":{id},\"regions\":[{{\"id\":2,\"items\":[{{\"media\":1,\"seconds\":{id}}}]}}]}}"
        )?;
        text.push_str(layout.as_str())?;
    }
    text.push_str(r#"],"version":1,"zone":{"offset":0}}"#)?;
    Ok(text)
}

#[test]
fn previews_most_layouts(rt: HostRuntime) -> Result<(), Fail> {
    let alloc = rt.alloc();
    let text = of_most_layouts(alloc)?;
    expect(
        &rt,
        alloc,
        "preview 511 512",
        source_of(alloc, text.as_str())?,
        MemSink::new(alloc),
        0,
        "511 e0 l512 s0 o511 r2:m1\n512 e0 l512 s512 o0 r2:m1\n",
    )
}
