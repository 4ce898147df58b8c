//! Bytes that are no manifest, texts that nest or last too long, and lists at their limits.

ghost use Rattle.std.specs.Prelude.{◌≤◌};

use crate::texts::{DATED, PLAIN, edited};
use sg_base::limits::MANIFEST_EVENTS;
use sg_base::{DaypartFault, Kind, LayoutFault, LimitName};
use sg_manifest::{ManifestFault, read};
use sg_rows::RowFault;
use std::alloc::Global;
use std::process::Abort;
use std::test::Fail;

/// The fault of the manifest's own members.
const TOP: ManifestFault = ManifestFault::BadField {
    list: 0,
    index: 0,
    fault: RowFault::Shape,
};

/// Sees that bytes have this first fault.
fn expect_bytes(rt: &impl Abort, alloc: Global, bytes: &[u8], fault: ManifestFault) {
    assert_eq!(rt; read(alloc, bytes).err(), Some(fault));
}

#[test]
fn bytes_that_are_no_object(rt: HostRuntime) {
    let alloc = rt.alloc();
    expect_bytes(&rt, alloc, b"", ManifestFault::NotJson);
    expect_bytes(&rt, alloc, b"{", ManifestFault::NotJson);
    expect_bytes(&rt, alloc, b"[", ManifestFault::NotJson);
    expect_bytes(&rt, alloc, b"\xff", ManifestFault::NotJson);
    expect_bytes(&rt, alloc, b"\"\xc3\"", ManifestFault::NotJson);
    expect_bytes(&rt, alloc, b"\"\xed\xa0\x80\"", ManifestFault::NotJson);
    expect_bytes(&rt, alloc, b"null", TOP);
    expect_bytes(&rt, alloc, b"1", TOP);
    expect_bytes(&rt, alloc, b"\"version\"", TOP);
    expect_bytes(&rt, alloc, b"[]", TOP);
    expect_bytes(&rt, alloc, b"{}", TOP);
    expect_bytes(&rt, alloc, b"{\"version\":1}", TOP);
    expect_bytes(&rt, alloc, b"{\"version\":2}", TOP);
    expect_bytes(&rt, alloc, b"{\"version\":3}", ManifestFault::Version(3));
}

#[test]
fn characters_that_no_line_has(rt: HostRuntime) -> Result<(), Fail> {
    let alloc = rt.alloc();
    let control = edited(alloc, PLAIN, "\"9001", "\"\u{1}9001")?;
    expect_bytes(&rt, alloc, control.as_bytes(), ManifestFault::NotJson);
    let mark = edited(alloc, PLAIN, "{", "\u{feff}{")?;
    expect_bytes(&rt, alloc, mark.as_bytes(), ManifestFault::NotJson);
    let feed = edited(alloc, PLAIN, "0}}", "0}}\n")?;
    expect_bytes(
        &rt,
        alloc,
        feed.as_bytes(),
        ManifestFault::NotCanonical(234),
    );
    let tab = edited(alloc, PLAIN, "0}}", "0\t}}")?;
    expect_bytes(&rt, alloc, tab.as_bytes(), ManifestFault::NotCanonical(232));
    Ok(())
}

/// Lists, one in another.
fn nested(alloc: Global, depth: usize) -> Result<String, Fail> {
    let mut text = String::new(alloc);
    for _ in 0..depth {
        text.push_str("[")?;
    }
    for _ in 0..depth {
        text.push_str("]")?;
    }
    Ok(text)
}

#[test]
fn deep_texts(rt: HostRuntime) -> Result<(), Fail> {
    let alloc = rt.alloc();
    // JSON is read up to a depth of 127.
    expect_bytes(&rt, alloc, nested(alloc, 127)?.as_bytes(), TOP);
    expect_bytes(
        &rt,
        alloc,
        nested(alloc, 128)?.as_bytes(),
        ManifestFault::NotJson,
    );
    expect_bytes(
        &rt,
        alloc,
        nested(alloc, 129)?.as_bytes(),
        ManifestFault::NotJson,
    );
    Ok(())
}

/// The plain manifest behind so many blanks that there are this many bytes.
fn padded(alloc: Global, text: &str, length: usize) -> Result<String, Fail> {
    let mut longer = String::new(alloc);
    for _ in text.len()..length {
        longer.push_str(" ")?;
    }
    longer.push_str(text)?;
    Ok(longer)
}

#[test]
fn long_texts(rt: HostRuntime) -> Result<(), Fail> {
    let alloc = rt.alloc();
    let longest = padded(alloc, PLAIN, 1_048_576)?;
    expect_bytes(
        &rt,
        alloc,
        longest.as_bytes(),
        ManifestFault::NotCanonical(0),
    );
    let longer = padded(alloc, PLAIN, 1_048_577)?;
    let limit = ManifestFault::Limit {
        name: LimitName::Text,
        count: 1_048_577,
    };
    expect_bytes(&rt, alloc, longer.as_bytes(), limit);
    // What is named comes before the length.
    let other = edited(alloc, longer.as_str(), "\"default\":1", "\"default\":2")?;
    let dangling = ManifestFault::Dangling {
        kind: Kind::Layout,
        id: 2,
    };
    expect_bytes(&rt, alloc, other.as_bytes(), dangling);
    Ok(())
}

/// The same entry so many times.
fn repeated(alloc: Global, entry: &str, count: usize) -> Result<String, Fail> {
    let mut text = String::new(alloc);
    for i in 0..count {
        if i > 0 {
            text.push_str(",")?;
        }
        text.push_str(entry)?;
    }
    Ok(text)
}

/// The plain manifest with so many entries `0` more at the front of a list, behind which some stand or none.
fn crowded(alloc: Global, list: &str, there: usize, count: usize) -> Result<String, Fail> {
    let entries = repeated(alloc, "0", count)?;
    let comma = if there == 0 { "" } else { "," };
    let old = format!(in alloc; "\"{list}\":[")?;
    let new = format!(in alloc; "{old}{entries}{comma}")?;
    edited(alloc, PLAIN, old.as_str(), new.as_str())
}

/// Sees that a list of as many entries as it may have, of which some stand there, has a fault of its own, and one more
/// is too many.
fn expect_limit(
    rt: &impl Abort,
    alloc: Global,
    list: &str,
    there: usize,
    most: usize,
    name: LimitName,
    number: u32,
) -> Result<(), Fail>
    requires some { there ≤ most }
    requires few { most ≤ MANIFEST_EVENTS }
{
    let full = crowded(alloc, list, there, most - there)?;
    let shape = ManifestFault::BadField {
        list: number,
        index: 0,
        fault: RowFault::Shape,
    };
    expect_bytes(rt, alloc, full.as_bytes(), shape);
    let over = crowded(alloc, list, there, most - there + 1)?;
    let limit = ManifestFault::Limit {
        name,
        count: most as u64 + 1,
    };
    expect_bytes(rt, alloc, over.as_bytes(), limit);
    Ok(())
}

#[test]
fn long_lists(rt: HostRuntime) -> Result<(), Fail> {
    let alloc = rt.alloc();
    expect_limit(&rt, alloc, "files", 1, 512, LimitName::Files, 1)?;
    expect_limit(&rt, alloc, "layouts", 1, 512, LimitName::Layouts, 2)?;
    expect_limit(&rt, alloc, "campaigns", 0, 256, LimitName::Campaigns, 3)?;
    expect_limit(&rt, alloc, "dayparts", 0, 64, LimitName::Dayparts, 4)?;
    expect_limit(&rt, alloc, "events", 0, 1024, LimitName::Events, 5)
}

/// The dated manifest whose daypart has this many dates.
fn dated(alloc: Global, count: u32) -> Result<String, Fail> {
    let mut dates = String::new(alloc);
    for date in 0..count {
        if date > 0 {
            dates.push_str(",")?;
        }
        let entry = format!(in alloc; "{{\"date\":{date},\"end\":2,\"start\":1}}")?;
        dates.push_str(entry.as_str())?;
    }
    let there =
        "{\"date\":20148,\"end\":39600,\"start\":36000},{\"date\":20149,\"end\":0,\"start\":0}";
    edited(alloc, DATED, there, dates.as_str())
}

#[test]
fn crowded_dates(rt: HostRuntime) -> Result<(), Fail> {
    let alloc = rt.alloc();
    assert!(rt; read(alloc, dated(alloc, 0)?.as_bytes()).is_ok());
    assert!(rt; read(alloc, dated(alloc, 64)?.as_bytes()).is_ok());
    let many = ManifestFault::BadField {
        list: 4,
        index: 0,
        fault: RowFault::Daypart(DaypartFault::ManyDates(65)),
    };
    expect_bytes(&rt, alloc, dated(alloc, 65)?.as_bytes(), many);
    Ok(())
}

/// The plain manifest with so many regions of so many items in its layout, all of one second.
fn spread(alloc: Global, regions: u32, items: usize) -> Result<String, Fail> {
    let shown = repeated(alloc, "{\"media\":1,\"seconds\":1}", items)?;
    let mut text = String::new(alloc);
    for i in 0..regions {
        if i > 0 {
            text.push_str(",")?;
        }
        let region = format!(in alloc; "{{\"id\":{},\"items\":[{shown}]}}", i as u64 + 1)?;
        text.push_str(region.as_str())?;
    }
    let old = "{\"id\":1,\"items\":[{\"media\":1,\"seconds\":10}]}";
    edited(alloc, PLAIN, old, text.as_str())
}

/// The fault of a first layout with too many regions or items.
fn many(count: u64) -> ManifestFault {
    ManifestFault::BadField {
        list: 2,
        index: 0,
        fault: RowFault::Layout(LayoutFault::TooMany(count)),
    }
}

#[test]
fn crowded_layouts(rt: HostRuntime) -> Result<(), Fail> {
    let alloc = rt.alloc();
    assert!(rt; read(alloc, spread(alloc, 16, 64)?.as_bytes()).is_ok());
    expect_bytes(&rt, alloc, spread(alloc, 17, 1)?.as_bytes(), many(17));
    expect_bytes(&rt, alloc, spread(alloc, 1, 65)?.as_bytes(), many(65));
    Ok(())
}
