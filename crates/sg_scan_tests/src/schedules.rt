//! Dayparts and events, in each form.

use crate::rows::count;
use sg_base::{Daypart, Event};
use sg_rows::RowForm;
use std::alloc::Global;
use std::test::Fail;

#[test]
fn dayparts(rt: HostRuntime) -> Result<(), Fail> {
    for (list, first, second) in [
        (
            r#"{"end":0,"exceptions":[{"day":6,"end":75600,"start":36000}],"id":9,"start":28800}]"#,
            Some(1),
            None,
        ),
        (
            r#"{"dates":[{"date":20148,"end":39600,"start":36000}],"end":0,"exceptions":[],"id":9,"start":28800}]"#,
            None,
            Some(1),
        ),
        (
            r#"{"end":0,"exceptions":[{"day":8,"end":0,"start":0}],"id":9,"start":28800}]"#,
            None,
            None,
        ),
        (
            r#"{"end":0,"exceptions":[{"day":256,"end":0,"start":0}],"id":9,"start":28800}]"#,
            None,
            None,
        ),
    ] {
        assert_eq!(rt;
            count::<Daypart>(rt.alloc(), RowForm::Version1, list),
            first,
            "{list}"
        );
        assert_eq!(rt;
            count::<Daypart>(rt.alloc(), RowForm::Version2, list),
            second,
            "{list}"
        );
    }
    Ok(())
}

/// Whether an event of version 2 is read, with what differs.
fn is_read(
    alloc: Global,
    layer: &str,
    repeat: &str,
    target: &str,
    when: &str,
) -> Result<bool, Fail> {
    let list = format!(in alloc;
        r#"{{"id":2,"layer":{layer},"order":3,"priority":0,"repeat":{repeat},"share":0,"target":{target},"when":{when}}}]"#
    )?;
    Ok(count::<Event>(alloc, RowForm::Version2, list.as_str()).is_some())
}

const ALWAYS: &str = r#"{"always":true}"#;

const CUSTOM: &str = r#"{"from":1704067200,"to":1704070800}"#;

const LAYOUT: &str = r#"{"layout":1}"#;

#[test]
fn targets(rt: HostRuntime) -> Result<(), Fail> {
    for (target, read) in [
        (LAYOUT, true),
        (r#"{"campaign":4}"#, true),
        (r#"{"campaign":0}"#, false),
        (r#"{"medium":4}"#, false),
    ] {
        assert_eq!(rt;
            is_read(rt.alloc(), "0", "null", target, ALWAYS)?,
            read,
            "{target}"
        );
    }
    Ok(())
}

#[test]
fn whens(rt: HostRuntime) -> Result<(), Fail> {
    for (when, read) in [
        (ALWAYS, true),
        (CUSTOM, true),
        (r#"{"date":19723,"daypart":9}"#, true),
        (r#"{"always":false}"#, false),
        (r#"{"date":19723,"daypart":0}"#, false),
    ] {
        assert_eq!(rt;
            is_read(rt.alloc(), "0", "null", LAYOUT, when)?,
            read,
            "{when}"
        );
    }
    Ok(())
}

#[test]
fn repeats(rt: HostRuntime) -> Result<(), Fail> {
    for (repeat, read) in [
        (r#"{"days":[],"every":5,"unit":"hour","until":null}"#, true),
        (r#"{"days":[],"every":1,"unit":"day","until":19800}"#, true),
        (
            r#"{"days":[1,2,3,4,5,6,7],"every":1,"unit":"week","until":null}"#,
            true,
        ),
        (r#"{"days":[],"every":1,"unit":"month","until":null}"#, true),
        (
            r#"{"days":[],"every":1,"unit":"month-weekday","until":null}"#,
            true,
        ),
        (r#"{"days":[],"every":1,"unit":"year","until":null}"#, true),
        (
            r#"{"days":[],"every":1,"unit":"years","until":null}"#,
            false,
        ),
        (
            r#"{"days":[8],"every":1,"unit":"week","until":null}"#,
            false,
        ),
        (
            r#"{"days":[1,2,3,4,5,6,7,1],"every":1,"unit":"week","until":null}"#,
            false,
        ),
        (r#"{"days":[],"every":0,"unit":"day","until":null}"#, false),
    ] {
        assert_eq!(rt;
            is_read(rt.alloc(), "0", repeat, LAYOUT, CUSTOM)?,
            read,
            "{repeat}"
        );
    }
    Ok(())
}

#[test]
fn layers(rt: HostRuntime) -> Result<(), Fail> {
    assert_eq!(rt; is_read(rt.alloc(), "0", "null", LAYOUT, ALWAYS)?, true);
    assert_eq!(rt; is_read(rt.alloc(), "1", "null", LAYOUT, ALWAYS)?, true);
    assert_eq!(rt; is_read(rt.alloc(), "2", "null", LAYOUT, ALWAYS)?, false);
    Ok(())
}

#[test]
fn version_1_has_no_layer_and_no_weekday_of_the_month(rt: HostRuntime) -> Result<(), Fail> {
    for (list, rows) in [
        (
            r#"{"id":1,"order":0,"priority":65535,"repeat":null,"share":0,"target":{"layout":2},"when":{"always":true}}]"#,
            Some(1),
        ),
        (
            r#"{"id":1,"layer":0,"order":0,"priority":0,"repeat":null,"share":0,"target":{"layout":2},"when":{"always":true}}]"#,
            None,
        ),
        (
            r#"{"id":1,"order":0,"priority":0,"repeat":{"days":[],"every":1,"unit":"month-weekday","until":null},"share":0,"target":{"layout":2},"when":{"from":1704067200,"to":1704070800}}]"#,
            None,
        ),
    ] {
        assert_eq!(rt;
            count::<Event>(rt.alloc(), RowForm::Version1, list),
            rows,
            "{list}"
        );
    }
    Ok(())
}
