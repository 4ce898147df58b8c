//! Manifests that are read, and a few that are refused.

use crate::texts::{BUSY, DATED, PLAIN, edited};
use sg_base::{
    CampaignId, DaypartId, Kind, LayoutId, LimitName, Target, Unit, When, Window, ZoneRule,
};
use sg_manifest::{ManifestFault, read, text_len, write};
use std::alloc::{AllocError, Global};
use std::test::Fail;

/// What stands in the busy manifest, and what may stand there too.
const GOOD_EDITS: [(&str, &str); 14] = [
    ("\"length\":3", "\"length\":1"),
    ("\"length\":3", "\"length\":67108864"),
    ("\"order\":3", "\"order\":65535"),
    ("\"to\":1704070800", "\"to\":4102444800"),
    ("\"start\":28800", "\"start\":86399"),
    ("\"priority\":65535", "\"priority\":0"),
    ("\"share\":600", "\"share\":3600"),
    ("\"until\":19800", "\"until\":19723"),
    ("\"until\":null", "\"until\":47481"),
    ("\"days\":[1,5,7]", "\"days\":[1,2,3,4,5,6,7]"),
    ("\"days\":[1,5,7]", "\"days\":[7]"),
    (
        "\"days\":[1,5,7],\"every\":2,\"unit\":\"week\"",
        "\"days\":[],\"every\":1000,\"unit\":\"year\"",
    ),
    ("{\"layout\":1}", "{\"layout\":2}"),
    (
        "{\"posix\":\"CET-1CEST,M3.5.0,M10.5.0/3\"}",
        "{\"offset\":840}",
    ),
];

#[test]
fn plain_manifest(rt: HostRuntime) -> Result<(), Fail> {
    let snapshot = read(rt.alloc(), PLAIN.as_bytes())?;
    assert_eq!(rt; *snapshot.zone(), ZoneRule::Offset(0));
    assert_eq!(rt; snapshot.default().0, 1);
    assert_eq!(rt;
        snapshot.layouts().first().map(|layout| layout.duration()),
        Some(10)
    );
    assert_eq!(rt; snapshot.files().first().map(|file| file.length), Some(3));
    assert!(rt; snapshot.campaigns().is_empty());
    assert!(rt; snapshot.dayparts().is_empty());
    assert!(rt; snapshot.events().is_empty());
    Ok(())
}

#[test]
fn campaign_and_daypart(rt: HostRuntime) -> Result<(), Fail> {
    let snapshot = read(rt.alloc(), BUSY.as_bytes())?;
    let campaign = snapshot.campaigns().first().ok_or("no campaign")?;
    assert_eq!(rt; campaign.id, CampaignId(4));
    assert_eq!(rt;
        campaign.layouts.as_slice(),
        [LayoutId(1), LayoutId(2), LayoutId(1)].as_slice()
    );
    let daypart = snapshot.dayparts().first().ok_or("no daypart")?;
    assert_eq!(rt; daypart.id(), DaypartId(9));
    assert_eq!(rt; daypart.window().start, 28_800);
    assert_eq!(rt; daypart.window().end, 0);
    let saturday = Window {
        start: 36_000,
        end: 75_600,
    };
    assert_eq!(rt; daypart.exceptions(), [(6, saturday)].as_slice());
    Ok(())
}

#[test]
fn what_version_2_says(rt: HostRuntime) -> Result<(), Fail> {
    let snapshot = read(rt.alloc(), DATED.as_bytes())?;
    assert_eq!(rt; snapshot.version(), 2);
    let daypart = snapshot.dayparts().first().ok_or("no daypart")?;
    let first = Window {
        start: 36_000,
        end: 39_600,
    };
    let second = Window { start: 0, end: 0 };
    assert_eq!(rt;
        daypart.dates(),
        [(20_148, first), (20_149, second)].as_slice()
    );
    let event = snapshot.events().get(1).ok_or("no second event")?;
    assert_eq!(rt; event.layer(), 0);
    let repeat = event.repeat().as_ref().ok_or("no repeat")?;
    assert_eq!(rt; repeat.unit(), Unit::MonthWeekday);
    Ok(())
}

#[test]
fn a_manifest_of_version_2_needs_nothing_new(rt: HostRuntime) -> Result<(), Fail> {
    let text = edited(rt.alloc(), PLAIN, "\"version\":1", "\"version\":2")?;
    assert_eq!(rt; read(rt.alloc(), text.as_bytes())?.version(), 2);
    assert_eq!(rt; read(rt.alloc(), PLAIN.as_bytes())?.version(), 1);
    Ok(())
}

#[test]
fn event_fields(rt: HostRuntime) -> Result<(), Fail> {
    let snapshot = read(rt.alloc(), BUSY.as_bytes())?;
    let event = snapshot.events().get(1).ok_or("no second event")?;
    assert_eq!(rt; event.id().0, 2);
    assert_eq!(rt; event.order(), 3);
    assert_eq!(rt; event.priority(), 0);
    assert_eq!(rt; event.share(), 0);
    assert_eq!(rt; event.target(), Target::Campaign(CampaignId(4)));
    let named = When::Named {
        daypart: DaypartId(9),
        date: 19_723,
    };
    assert_eq!(rt; event.when(), named);
    let repeat = event.repeat().as_ref().ok_or("no repeat")?;
    assert_eq!(rt; repeat.unit(), Unit::Week);
    assert_eq!(rt; repeat.every(), 2);
    assert_eq!(rt; repeat.days(), 0b101_0001);
    assert_eq!(rt; repeat.until(), Some(19_800));
    Ok(())
}

#[test]
fn good_busy_edits(rt: HostRuntime) -> Result<(), Fail> {
    for (old, new) in &GOOD_EDITS {
        let other = edited(rt.alloc(), BUSY, old, new)?;
        let snapshot = read(rt.alloc(), other.as_bytes())?;
        assert_eq!(rt; snapshot.events().len(), 3, "{new}");
    }
    Ok(())
}

/// A manifest whose layouts and files have these ids.
fn numbered(alloc: Global, ids: &[u32]) -> Result<String, Fail> {
    let mut files = String::new(alloc);
    let mut layouts = String::new(alloc);
    for id in ids {
        if !files.is_empty() {
            files.push_str(",")?;
            layouts.push_str(",")?;
        }
        let file = format!(in alloc;
            r#"{{"id":{id},"length":1,"md5":"0cc175b9c0f1b6a831c399e269772661"}}"#
        )?;
        files.push_str(file.as_str())?;
        let layout = format!(in alloc;
            r#"{{"id":{id},"regions":[{{"id":7,"items":[{{"media":{id},"seconds":3600}}]}}]}}"#
        )?;
        layouts.push_str(layout.as_str())?;
    }
    let first = ids.first().copied().ok_or("no id")?;
    Ok(format!(in alloc;
        r#"{{"campaigns":[],"dayparts":[],"default":{first},"events":[],"files":[{files}],"layouts":[{layouts}],"version":1,"zone":{{"offset":-840}}}}"#
    )?)
}

/// How many layouts are read of a manifest whose layouts and files have these ids, or its fault.
fn layouts_read(alloc: Global, ids: &[u32]) -> Result<Result<usize, ManifestFault>, Fail> {
    let text = numbered(alloc, ids)?;
    Ok(read(alloc, text.as_bytes()).map(|snapshot| snapshot.layouts().len()))
}

#[test]
fn order_of_lists(rt: HostRuntime) -> Result<(), Fail> {
    assert_eq!(rt; layouts_read(rt.alloc(), &[1, 2])?, Ok(2));
    assert_eq!(rt;
        layouts_read(rt.alloc(), &[4_294_967_294, 4_294_967_295])?,
        Ok(2)
    );
    // The files stand first: byte 69 is the first one's id.
    assert_eq!(rt;
        layouts_read(rt.alloc(), &[2, 1])?,
        Err(ManifestFault::NotCanonical(69))
    );
    let double = ManifestFault::Double {
        kind: Kind::Media,
        id: 5,
    };
    assert_eq!(rt; layouts_read(rt.alloc(), &[5, 5])?, Err(double));
    Ok(())
}

/// The ids from 1 on.
fn first_ids(alloc: Global, count: u32) -> Result<Vec<u32>, AllocError> {
    let mut ids = Vec::new(alloc);
    for id in 0..count {
        ids.push(id + 1)?;
    }
    Ok(ids)
}

#[test]
fn most_layouts(rt: HostRuntime) -> Result<(), Fail> {
    let most = first_ids(rt.alloc(), 512)?;
    assert_eq!(rt; layouts_read(rt.alloc(), most.as_slice())?, Ok(512));
    let more = first_ids(rt.alloc(), 513)?;
    let limit = ManifestFault::Limit {
        name: LimitName::Files,
        count: 513,
    };
    assert_eq!(rt; layouts_read(rt.alloc(), more.as_slice())?, Err(limit));
    Ok(())
}

#[test]
fn text_again(rt: HostRuntime) -> Result<(), Fail> {
    let second = edited(rt.alloc(), PLAIN, "\"version\":1", "\"version\":2")?;
    let west = edited(rt.alloc(), PLAIN, "{\"offset\":0}", "{\"offset\":-840}")?;
    for text in [PLAIN, BUSY, DATED, second.as_str(), west.as_str()] {
        let snapshot = read(rt.alloc(), text.as_bytes())?;
        assert_eq!(rt; write(rt.alloc(), &snapshot)?.as_slice(), text.as_bytes());
    }
    Ok(())
}

#[test]
fn texts_are_as_long_as_is_counted(rt: HostRuntime) -> Result<(), Fail> {
    let second = edited(rt.alloc(), PLAIN, "\"version\":1", "\"version\":2")?;
    let west = edited(rt.alloc(), PLAIN, "{\"offset\":0}", "{\"offset\":-840}")?;
    for text in [PLAIN, BUSY, DATED, second.as_str(), west.as_str()] {
        let snapshot = read(rt.alloc(), text.as_bytes())?;
        assert_eq!(rt; text_len(&snapshot), text.len() as u64);
    }
    Ok(())
}

/// The name of the fault of the plain manifest with an edit.
fn name_after(alloc: Global, old: &str, new: &str) -> Result<&'static str, Fail> {
    let text = edited(alloc, PLAIN, old, new)?;
    match read(alloc, text.as_bytes()) {
        Ok(_) => Ok("none"),
        Err(fault) => Ok(fault.name()),
    }
}

#[test]
fn names(rt: HostRuntime) -> Result<(), Fail> {
    let alloc = rt.alloc();
    assert_eq!(rt; name_after(alloc, "\"id\":1", "\"id\":1")?, "none");
    assert_eq!(rt; name_after(alloc, "{\"campaigns\"", "{")?, "NotJson");
    assert_eq!(rt;
        name_after(alloc, "\"version\":1", "\"version\":3")?,
        "Version"
    );
    assert_eq!(rt; name_after(alloc, "{", "{ ")?, "NotCanonical");
    assert_eq!(rt;
        name_after(alloc, "\"default\":1", "\"default\":2")?,
        "Dangling"
    );
    assert_eq!(rt;
        name_after(alloc, "\"seconds\":10", "\"seconds\":0")?,
        "BadField"
    );
    Ok(())
}
