//! Files, layouts, campaigns and zones.

use sg_base::{Campaign, Layout, Listed, ZoneRule};
use sg_rows::RowForm;
use sg_scan::{Scan, ScanRow, scan_rows, scan_zone};
use std::alloc::Global;
use std::test::Fail;

/// How many rows stand in a list, behind its opening bracket.
pub(crate) fn count<T: ScanRow>(alloc: Global, form: RowForm, list: &str) -> Option<usize> {
    let rows: Vec<T> = scan_rows(alloc, form, &mut Scan::new(list.as_bytes()))?;
    Some(rows.len())
}

#[test]
fn files(rt: HostRuntime) -> Result<(), Fail> {
    for (list, rows) in [
        ("]", Some(0)),
        (
            r#"{"id":1,"length":3,"md5":"900150983cd24fb0d6963f7d28e17f72"}]"#,
            Some(1),
        ),
        (
            r#"{"id":1,"length":3,"md5":"900150983cd24fb0d6963f7d28e17f72"},{"id":2,"length":1,"md5":"00000000000000000000000000000000"}],"#,
            Some(2),
        ),
        (
            r#"{"id":1,"length":3,"md5":"900150983cd24fb0d6963f7d28e17f72"}"#,
            None,
        ),
        (
            r#"{"id":0,"length":3,"md5":"900150983cd24fb0d6963f7d28e17f72"}]"#,
            None,
        ),
        (
            r#"{"id":1,"length":0,"md5":"900150983cd24fb0d6963f7d28e17f72"}]"#,
            None,
        ),
        (
            r#"{"id":1,"length":3,"md5":"900150983cd24fb0d6963f7d28e17f7"}]"#,
            None,
        ),
        (
            r#"{"id":1, "length":3,"md5":"900150983cd24fb0d6963f7d28e17f72"}]"#,
            None,
        ),
        (
            r#"{"id":4294967296,"length":3,"md5":"900150983cd24fb0d6963f7d28e17f72"}]"#,
            None,
        ),
        (
            r#"{"id":,"length":3,"md5":"900150983cd24fb0d6963f7d28e17f72"}]"#,
            None,
        ),
    ] {
        assert_eq!(rt;
            count::<Listed>(rt.alloc(), RowForm::Version1, list),
            rows,
            "{list}"
        );
    }
    Ok(())
}

#[test]
fn the_fields_of_a_file(rt: HostRuntime) -> Result<(), Fail> {
    let list = r#"{"id":4294967295,"length":3,"md5":"900150983cd24fb0d6963f7d28e17f72"}]"#;
    let mut text = Scan::new(list.as_bytes());
    let files: Vec<Listed> = scan_rows(rt.alloc(), RowForm::Version2, &mut text).ok_or(
        "a good list is given up",
    )?;
    let [file] = files.as_slice() else {
        return Err("one file".into());
    };
    assert_eq!(rt; file.media.0, 4_294_967_295);
    assert_eq!(rt; file.length, 3);
    // The digest of "abc", as RFC 1321 gives it.
    assert_eq!(rt;
        file.md5,
        [
            144, 1, 80, 152, 60, 210, 79, 176, 214, 150, 63, 125, 40, 225, 127, 114
        ]
    );
    Ok(())
}

#[test]
fn layouts(rt: HostRuntime) -> Result<(), Fail> {
    for (list, rows) in [
        (
            r#"{"id":1,"regions":[{"id":1,"items":[{"media":1,"seconds":10}]}]}]"#,
            Some(1),
        ),
        (
            r#"{"id":1,"regions":[{"id":2,"items":[{"media":7,"seconds":10},{"media":7,"seconds":20}]},{"id":1,"items":[{"media":7,"seconds":5}]}]}]"#,
            Some(1),
        ),
        (r#"{"id":1,"regions":[]}]"#, None),
        (
            r#"{"id":1,"regions":[{"id":1,"items":[{"media":1,"seconds":0}]}]}]"#,
            None,
        ),
        (
            r#"{"id":1,"regions":[{"id":1,"items":[{"media":1,"seconds":10},]}]}]"#,
            None,
        ),
    ] {
        assert_eq!(rt;
            count::<Layout>(rt.alloc(), RowForm::Version1, list),
            rows,
            "{list}"
        );
    }
    Ok(())
}

#[test]
fn campaigns(rt: HostRuntime) -> Result<(), Fail> {
    for (list, rows) in [
        (r#"{"id":4,"layouts":[1,2,1]}]"#, Some(1)),
        (r#"{"id":4,"layouts":[]}]"#, None),
        (r#"{"id":4,"layouts":[0]}]"#, None),
        (r#"{"id":4,"layouts":[1"#, None),
    ] {
        assert_eq!(rt;
            count::<Campaign>(rt.alloc(), RowForm::Version2, list),
            rows,
            "{list}"
        );
    }
    Ok(())
}

/// The minutes of a zone, or the length of its text.
fn told(alloc: Global, text: &str) -> Option<i32> {
    match scan_zone(alloc, &mut Scan::new(text.as_bytes()))? {
        ZoneRule::Offset(minutes) => Some(minutes),
        ZoneRule::Posix(_) => Some(1_000),
    }
}

#[test]
fn zones(rt: HostRuntime) -> Result<(), Fail> {
    for (text, told_by) in [
        (r#"{"offset":0}"#, Some(0)),
        (r#"{"offset":-840}"#, Some(-840)),
        (r#"{"offset":840}"#, Some(840)),
        (r#"{"offset":841}"#, None),
        (r#"{"posix":"CET-1CEST,M3.5.0,M10.5.0/3"}"#, Some(1_000)),
        (r#"{"posix":"CET-1CEST"}"#, None),
        (r#"{"posix":"CET-1"#, None),
        (r#"{"zone":1}"#, None),
    ] {
        assert_eq!(rt; told(rt.alloc(), text), told_by, "{text}");
    }
    Ok(())
}
