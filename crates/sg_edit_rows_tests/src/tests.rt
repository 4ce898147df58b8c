//! Rows of each kind that are read and written again, and rows that are refused.

ghost use Rattle.sg_rows.specs.declared.form.RowForm.TheVariants.{Version1, Version2, Edit};
ghost use Rattle.sg_edit_rows.specs.EditRows.{HasKind};

use serde_json::Value;
use sg_base::{
    CampaignId, DaypartFault, DisplayId, EventFault, GroupId, Kind, LayoutFault, LayoutId, MediaId,
    RepeatFault, Row, Target, Window, ZoneRule,
};
use sg_calendar::ZoneFault;
use sg_edit_rows::{read_row, write_older_row, write_row};
use sg_rows::{RowFault, RowForm};
use std::alloc::Global;
use std::process::Abort;
use std::test::Fail;

const FILE: &str = r#"{"id":7,"length":3,"md5":"900150983cd24fb0d6963f7d28e17f72"}"#;

const LAYOUT: &str =
    r#"{"id":1,"regions":[{"id":2,"items":[{"media":7,"seconds":10},{"media":9,"seconds":20}]}]}"#;

const CAMPAIGN: &str = r#"{"id":4,"layouts":[1,2,1]}"#;

const DAYPART: &str =
    r#"{"dates":[{"date":20148,"end":39600,"start":36000}],"end":0,"exceptions":[{"day":6,"end":75600,"start":36000}],"id":9,"start":28800}"#;

const GROUP: &str = r#"{"id":3}"#;

const DISPLAY: &str = r#"{"default":1,"groups":[3,5],"id":7,"key":"aZ09","zone":{"offset":60}}"#;

const EVENT: &str =
    r#"{"displays":[7],"groups":[3,5],"id":2,"layer":0,"order":3,"priority":4,"repeat":{"days":[1,5],"every":2,"unit":"week","until":19800},"share":0,"target":{"campaign":4},"when":{"date":19723,"daypart":9}}"#;

/// The row of a kind that a text says in an edit.
fn row_of(alloc: Global, kind: Kind, text: &str) -> Result<Row, Fail>
    requires { HasKind Edit kind }
{
    let value = Value::from_str(alloc, text)?;
    Ok(read_row(alloc, kind, RowForm::Edit, &value)?)
}

/// Sees that a text says a row whose text it is, in a form.
fn again(rt: &impl Abort, alloc: Global, kind: Kind, form: RowForm, text: &str) -> Result<(), Fail>
    requires { HasKind form kind }
{
    let value = Value::from_str(alloc, text)?;
    let row = read_row(alloc, kind, form, &value)?;
    assert_eq!(rt; row.kind(), kind);
    let written = write_row(alloc, &row, form)?.to_string(alloc)?;
    assert_eq!(rt; written.as_str(), text);
    Ok(())
}

#[test]
fn rows_of_edits_again(rt: HostRuntime) -> Result<(), Fail> {
    let alloc = rt.alloc();
    again(&rt, alloc, Kind::Media, RowForm::Edit, FILE)?;
    again(&rt, alloc, Kind::Layout, RowForm::Edit, LAYOUT)?;
    again(&rt, alloc, Kind::Campaign, RowForm::Edit, CAMPAIGN)?;
    again(&rt, alloc, Kind::Daypart, RowForm::Edit, DAYPART)?;
    again(&rt, alloc, Kind::Group, RowForm::Edit, GROUP)?;
    again(&rt, alloc, Kind::Display, RowForm::Edit, DISPLAY)?;
    again(&rt, alloc, Kind::Event, RowForm::Edit, EVENT)
}

/// A daypart of version 1, which a server before version 2 kept so too.
const UNDATED: &str =
    r#"{"end":0,"exceptions":[{"day":6,"end":75600,"start":36000}],"id":9,"start":28800}"#;

/// An event of version 1.
const FLAT: &str =
    r#"{"id":2,"order":3,"priority":4,"repeat":null,"share":0,"target":{"campaign":4},"when":{"always":true}}"#;

/// An event of version 2, by the weekday of the month.
const LAYERED: &str =
    r#"{"id":2,"layer":0,"order":3,"priority":4,"repeat":{"days":[],"every":1,"unit":"month-weekday","until":null},"share":0,"target":{"layout":1},"when":{"from":1736326800,"to":1736330400}}"#;

#[test]
fn rows_of_manifests_again(rt: HostRuntime) -> Result<(), Fail> {
    let alloc = rt.alloc();
    again(&rt, alloc, Kind::Media, RowForm::Version1, FILE)?;
    again(&rt, alloc, Kind::Layout, RowForm::Version2, LAYOUT)?;
    again(&rt, alloc, Kind::Campaign, RowForm::Version1, CAMPAIGN)?;
    again(&rt, alloc, Kind::Daypart, RowForm::Version1, UNDATED)?;
    again(&rt, alloc, Kind::Daypart, RowForm::Version2, DAYPART)?;
    again(&rt, alloc, Kind::Event, RowForm::Version1, FLAT)?;
    again(&rt, alloc, Kind::Event, RowForm::Version2, LAYERED)
}

/// A scheduled event as a server kept it before version 2.
const OLDER_EVENT: &str =
    r#"{"displays":[7],"groups":[3,5],"id":2,"order":3,"priority":4,"repeat":{"days":[1,5],"every":2,"unit":"week","until":19800},"share":0,"target":{"campaign":4},"when":{"date":19723,"daypart":9}}"#;

/// Sees that a text says a row in an edit, of which it is the older text.
fn older_again(rt: &impl Abort, alloc: Global, kind: Kind, text: &str) -> Result<(), Fail>
    requires { HasKind Edit kind }
{
    let row = row_of(alloc, kind, text)?;
    let older = write_older_row(alloc, &row)?.ok_or("no older text")?;
    assert_eq!(rt; older.to_string(alloc)?.as_str(), text);
    Ok(())
}

#[test]
fn older_rows(rt: HostRuntime) -> Result<(), Fail> {
    let alloc = rt.alloc();
    older_again(&rt, alloc, Kind::Daypart, UNDATED)?;
    older_again(&rt, alloc, Kind::Event, OLDER_EVENT)?;
    // What version 2 brought has no older text, and other rows have the text of today.
    assert!(rt; write_older_row(alloc, &row_of(alloc, Kind::Daypart, DAYPART)?)?.is_none());
    assert!(rt; write_older_row(alloc, &row_of(alloc, Kind::Group, GROUP)?)?.is_none());
    Ok(())
}

#[test]
fn dates_ascend(rt: HostRuntime) -> Result<(), Fail> {
    let text =
        r#"{"dates":[{"date":9,"end":2,"start":1},{"date":8,"end":4,"start":3}],"end":0,"exceptions":[],"id":9,"start":0}"#;
    match row_of(rt.alloc(), Kind::Daypart, text)? {
        Row::Daypart(daypart) => {
            let first = Window { start: 3, end: 4 };
            let second = Window { start: 1, end: 2 };
            assert_eq!(rt; daypart.dates(), [(8, first), (9, second)].as_slice());
        }
        _ => return Err(Fail::from("no daypart")),
    }
    Ok(())
}

#[test]
fn fields(rt: HostRuntime) -> Result<(), Fail> {
    let alloc = rt.alloc();
    // Members may come in any order, and a repeated member counts as it comes last.
    let text = r#" {"zone":{"offset":60}, "key":"aZ09","id":1,"groups":[3,5],"default":1,"id":7} "#;
    match row_of(alloc, Kind::Display, text)? {
        Row::Display(display) => {
            assert_eq!(rt; display.id, DisplayId(7));
            assert_eq!(rt; display.default, LayoutId(1));
            assert_eq!(rt;
                display.groups.as_slice(),
                [GroupId(3), GroupId(5)].as_slice()
            );
            assert_eq!(rt; display.key.as_slice(), b"aZ09".as_slice());
            assert_eq!(rt; display.zone, ZoneRule::Offset(60));
        }
        _ => return Err(Fail::from("no display")),
    }
    match row_of(alloc, Kind::Event, EVENT)? {
        Row::Event(event) => {
            assert_eq!(rt; event.event.id().0, 2);
            assert_eq!(rt; event.event.order(), 3);
            assert_eq!(rt; event.event.priority(), 4);
            assert_eq!(rt; event.event.target(), Target::Campaign(CampaignId(4)));
            assert_eq!(rt; event.displays.as_slice(), [DisplayId(7)].as_slice());
            assert_eq!(rt;
                event.groups.as_slice(),
                [GroupId(3), GroupId(5)].as_slice()
            );
        }
        _ => return Err(Fail::from("no event")),
    }
    match row_of(alloc, Kind::Media, FILE)? {
        Row::Media(file) => {
            assert_eq!(rt; file.media, MediaId(7));
            assert_eq!(rt; file.length, 3);
            assert_eq!(rt; file.md5[0], 0x90);
            assert_eq!(rt; file.md5[15], 0x72);
        }
        _ => return Err(Fail::from("no medium")),
    }
    Ok(())
}

#[test]
fn exceptions_by_weekday(rt: HostRuntime) -> Result<(), Fail> {
    let text =
        r#"{"end":0,"exceptions":[{"day":7,"end":2,"start":1},{"day":1,"end":4,"start":3}],"id":9,"start":0}"#;
    match row_of(rt.alloc(), Kind::Daypart, text)? {
        Row::Daypart(daypart) => {
            let monday = Window { start: 3, end: 4 };
            let sunday = Window { start: 1, end: 2 };
            assert_eq!(rt; daypart.exceptions(), [(1, monday), (7, sunday)].as_slice());
        }
        _ => return Err(Fail::from("no daypart")),
    }
    Ok(())
}

/// Sees that each text has this fault as a row of a kind in a form.
fn refuse(
    rt: &impl Abort,
    alloc: Global,
    kind: Kind,
    form: RowForm,
    texts: &[(&str, RowFault)],
) -> Result<(), Fail>
    requires { HasKind form kind }
{
    for (text, fault) in texts {
        let value = Value::from_str(alloc, text)?;
        assert_eq!(rt;
            read_row(alloc, kind, form, &value).err(),
            Some(*fault),
            "{text}"
        );
    }
    Ok(())
}

const GROUPS: [(&str, RowFault); 5] = [
    ("3", RowFault::Shape),
    ("{}", RowFault::Shape),
    (r#"{"id":0}"#, RowFault::Shape),
    (r#"{"id":4294967296}"#, RowFault::Shape),
    (r#"{"id":3,"name":"a"}"#, RowFault::Shape),
];

const DISPLAYS: [(&str, RowFault); 12] = [
    (
        r#"{"groups":[],"id":7,"key":"a","zone":{"offset":0}}"#,
        RowFault::Shape,
    ),
    (
        r#"{"default":1,"groups":[],"id":7,"key":"a","name":1,"zone":{"offset":0}}"#,
        RowFault::Shape,
    ),
    (
        r#"{"default":0,"groups":[],"id":7,"key":"a","zone":{"offset":0}}"#,
        RowFault::Shape,
    ),
    (
        r#"{"default":1,"groups":[5,3],"id":7,"key":"a","zone":{"offset":0}}"#,
        RowFault::Shape,
    ),
    (
        r#"{"default":1,"groups":[3,3],"id":7,"key":"a","zone":{"offset":0}}"#,
        RowFault::Shape,
    ),
    (
        r#"{"default":1,"groups":[0],"id":7,"key":"a","zone":{"offset":0}}"#,
        RowFault::Shape,
    ),
    (
        r#"{"default":1,"groups":[1,2,3,4,5,6,7,8,9,10,11,12,13,14,15,16,17,18,19,20,21,22,23,24,25,26,27,28,29,30,31,32,33],"id":7,"key":"a","zone":{"offset":0}}"#,
        RowFault::Shape,
    ),
    (
        r#"{"default":1,"groups":[],"id":7,"key":"","zone":{"offset":0}}"#,
        RowFault::Shape,
    ),
    (
        r#"{"default":1,"groups":[],"id":7,"key":"a b","zone":{"offset":0}}"#,
        RowFault::Shape,
    ),
    (
        r#"{"default":1,"groups":[],"id":7,"key":"aaaaaaaaaaaaaaaaaaaaaaaaaaaaaaaaaaaaaaaaaaaaaaaaaaaaaaaaaaaaaaaaa","zone":{"offset":0}}"#,
        RowFault::Shape,
    ),
    (
        r#"{"default":1,"groups":[],"id":7,"key":"a","zone":{"offset":841}}"#,
        RowFault::Zone(ZoneFault::OffsetRange(841)),
    ),
    // The form of every member comes before the zone's own fault.
    (
        r#"{"default":1,"groups":[],"id":7,"key":"-","zone":{"offset":841}}"#,
        RowFault::Shape,
    ),
];

const EVENTS: [(&str, RowFault); 11] = [
    // An event of a manifest is none of an edit.
    (
        r#"{"id":2,"order":3,"priority":0,"repeat":null,"share":0,"target":{"layout":4},"when":{"always":true}}"#,
        RowFault::Shape,
    ),
    (
        r#"{"displays":[],"groups":[],"id":2,"order":3,"priority":0,"repeat":null,"share":0,"target":{"layout":4},"when":{"always":true}}"#,
        RowFault::Shape,
    ),
    (
        r#"{"displays":[9,9],"groups":[],"id":2,"order":3,"priority":0,"repeat":null,"share":0,"target":{"layout":4},"when":{"always":true}}"#,
        RowFault::Shape,
    ),
    (
        r#"{"displays":[1],"groups":[2,1],"id":2,"order":3,"priority":0,"repeat":null,"share":0,"target":{"layout":4},"when":{"always":true}}"#,
        RowFault::Shape,
    ),
    // The form of every member comes before the repeat's own fault, and that before the event's.
    (
        r#"{"displays":[],"groups":[],"id":2,"order":65536,"priority":0,"repeat":{"days":[],"every":0,"unit":"day","until":null},"share":0,"target":{"layout":4},"when":{"from":0,"to":1}}"#,
        RowFault::Shape,
    ),
    (
        r#"{"displays":[1],"groups":[],"id":2,"order":65536,"priority":0,"repeat":{"days":[],"every":0,"unit":"day","until":null},"share":0,"target":{"layout":4},"when":{"from":0,"to":1}}"#,
        RowFault::Repeat(RepeatFault::ZeroStep),
    ),
    (
        r#"{"displays":[1],"groups":[],"id":2,"order":65536,"priority":0,"repeat":{"days":[],"every":1,"unit":"day","until":null},"share":0,"target":{"layout":4},"when":{"from":0,"to":1}}"#,
        RowFault::Event(EventFault::BigNumber),
    ),
    // An overlay shows a layout, and has no share.
    (
        r#"{"displays":[1],"groups":[],"id":2,"layer":1,"order":3,"priority":0,"repeat":null,"share":1,"target":{"layout":4},"when":{"always":true}}"#,
        RowFault::Event(EventFault::OverlayForm),
    ),
    (r#"{"layer":1}"#, RowFault::Shape),
    (
        r#"{"displays":[1],"groups":[],"id":2,"layer":2,"order":3,"priority":0,"repeat":null,"share":0,"target":{"layout":4},"when":{"always":true}}"#,
        RowFault::Event(EventFault::BadLayer),
    ),
    (
        r#"{"displays":[1],"groups":[],"id":2,"layer":"0","order":3,"priority":0,"repeat":null,"share":0,"target":{"layout":4},"when":{"always":true}}"#,
        RowFault::Shape,
    ),
];

const DATES: [(&str, RowFault); 5] = [
    (
        r#"{"dates":null,"end":0,"exceptions":[],"id":9,"start":0}"#,
        RowFault::Shape,
    ),
    (
        r#"{"dates":[{"date":8,"day":1,"end":4,"start":3}],"end":0,"exceptions":[],"id":9,"start":0}"#,
        RowFault::Shape,
    ),
    (
        r#"{"dates":[{"date":47482,"end":4,"start":3}],"end":0,"exceptions":[],"id":9,"start":0}"#,
        RowFault::Daypart(DaypartFault::BadDate(47_482)),
    ),
    (
        r#"{"dates":[{"date":8,"end":4,"start":3},{"date":8,"end":4,"start":3}],"end":0,"exceptions":[],"id":9,"start":0}"#,
        RowFault::Daypart(DaypartFault::DoubleDate(8)),
    ),
    (
        r#"{"dates":[{"date":8,"end":86400,"start":3}],"end":0,"exceptions":[{"day":8,"end":2,"start":1}],"id":9,"start":0}"#,
        RowFault::Daypart(DaypartFault::BadTime(86_400)),
    ),
];

#[test]
fn refused_rows(rt: HostRuntime) -> Result<(), Fail> {
    let alloc = rt.alloc();
    let edit = RowForm::Edit;
    refuse(&rt, alloc, Kind::Group, edit, GROUPS.as_slice())?;
    refuse(&rt, alloc, Kind::Display, edit, DISPLAYS.as_slice())?;
    refuse(&rt, alloc, Kind::Event, edit, EVENTS.as_slice())?;
    refuse(&rt, alloc, Kind::Daypart, edit, DATES.as_slice())?;
    let media = [(
        r#"{"complete":true,"id":7,"length":3,"md5":"900150983cd24fb0d6963f7d28e17f72"}"#,
        RowFault::Shape,
    )];
    refuse(&rt, alloc, Kind::Media, edit, media.as_slice())?;
    let layouts = [(
        r#"{"id":1,"regions":[]}"#,
        RowFault::Layout(LayoutFault::NoRegion),
    )];
    refuse(&rt, alloc, Kind::Layout, edit, layouts.as_slice())?;
    let campaigns = [(r#"{"id":7,"layouts":[]}"#, RowFault::Shape)];
    refuse(&rt, alloc, Kind::Campaign, edit, campaigns.as_slice())?;
    let dayparts = [(
        r#"{"end":0,"exceptions":[{"day":8,"end":2,"start":1}],"id":9,"start":0}"#,
        RowFault::Daypart(DaypartFault::BadWeekday(8)),
    )];
    refuse(&rt, alloc, Kind::Daypart, edit, dayparts.as_slice())
}

#[test]
fn what_version_1_cannot_say_is_later(rt: HostRuntime) -> Result<(), Fail> {
    let alloc = rt.alloc();
    let dates = [(r#"{"dates":0}"#, RowFault::Later)];
    refuse(
        &rt,
        alloc,
        Kind::Daypart,
        RowForm::Version1,
        dates.as_slice(),
    )?;
    let weekday = [(r#"{"repeat":{"unit":"month-weekday"}}"#, RowFault::Later)];
    refuse(
        &rt,
        alloc,
        Kind::Event,
        RowForm::Version1,
        weekday.as_slice(),
    )?;
    let layered = [
        (LAYERED, RowFault::Later),
        (r#"{"layer":1}"#, RowFault::Shape),
    ];
    refuse(
        &rt,
        alloc,
        Kind::Event,
        RowForm::Version1,
        layered.as_slice(),
    )?;
    let dated = [(UNDATED, RowFault::Shape)];
    refuse(
        &rt,
        alloc,
        Kind::Daypart,
        RowForm::Version2,
        dated.as_slice(),
    )?;
    let flat = [(FLAT, RowFault::Shape), (r#"{"layer":1}"#, RowFault::Shape)];
    refuse(&rt, alloc, Kind::Event, RowForm::Version2, flat.as_slice())
}
