//! Local seconds, slots and pictures that were worked out by hand.

ghost use Rattle.std.specs.Prelude.{◌≡◌, ◌<◌};

use sg_base::{LocalSec, MediaId, Moment, Steps};
use sg_manifest::read;
use sg_resolver::{Picture, Resolver, Show};
use std::alloc::Global;
use std::marker::Brand;
use std::sync::ledger::{Blank, Ledger};
use std::test::Fail;

/// Three layouts of one region each, of which the second is the default.
const THREE: &str =
    r#"{"campaigns":[],"dayparts":[],"default":4,"events":[],"files":[{"id":1,"length":3,"md5":"900150983cd24fb0d6963f7d28e17f72"},{"id":8,"length":3,"md5":"900150983cd24fb0d6963f7d28e17f72"}],"layouts":[{"id":1,"regions":[{"id":1,"items":[{"media":1,"seconds":10}]}]},{"id":4,"regions":[{"id":6,"items":[{"media":8,"seconds":25}]}]},{"id":9,"regions":[{"id":1,"items":[{"media":1,"seconds":7}]}]}],"version":1,"zone":{"offset":90}}"#;

/// A layout of 10 s, and one of 20 s for an event from second 1,000 up to 2,000.
const TIMED: &str =
    r#"{"campaigns":[],"dayparts":[],"default":1,"events":[{"id":5,"order":0,"priority":0,"repeat":null,"share":0,"target":{"layout":2},"when":{"from":1000,"to":2000}}],"files":[{"id":1,"length":3,"md5":"900150983cd24fb0d6963f7d28e17f72"}],"layouts":[{"id":1,"regions":[{"id":1,"items":[{"media":1,"seconds":10}]}]},{"id":2,"regions":[{"id":1,"items":[{"media":1,"seconds":20}]}]}],"version":1,"zone":{"offset":0}}"#;

/// The text of a manifest with one layout, which lasts so many seconds, and with an offset in minutes.
fn one_layout(alloc: Global, seconds: u32, minutes: i32) -> Result<String, Fail> {
    let head =
        r#"{"campaigns":[],"dayparts":[],"default":1,"events":[],"files":[{"id":1,"length":3,"md5":"900150983cd24fb0d6963f7d28e17f72"}],"layouts":[{"id":1,"regions":[{"id":1,"items":[{"media":1,"seconds":"#;
    let middle = r#"}]}]}],"version":1,"zone":{"offset":"#;
    Ok(format!(in alloc; "{head}{seconds}{middle}{minutes}}}}}")?)
}

/// A manifest's snapshot, ready to be asked.
fn resolver(alloc: Global, text: &str) -> Result<Resolver, Fail> {
    let snapshot = read(alloc, text.as_bytes())?;
    Ok(Resolver::adopt(alloc, &snapshot)?)
}

/// What is shown at a moment, and its picture.
fn shown_at<L: Ledger>(
    blank: Blank,
    resolver: &mut Resolver,
    second: u32,
) -> Result<(Show, Picture), Fail>
    requires name { blank.name ≡ L.name }
    requires parts { blank.parts ≡ L.parts }
    requires some { 0 < blank.parts }
{
    let mut steps = Steps::<L>::new(blank);
    let moment = Moment::new(second).ok_or("past 2099")?;
    let t = resolver.local(moment)?;
    let show = resolver.show_at(t, &mut steps);
    let picture = resolver.picture(&show);
    Ok((show, picture))
}

/// The show of a layout as the default one.
fn default_show(layout: u32, slot_start: i64, offset: u32) -> Show {
    Show {
        event: 0,
        layout,
        slot_start: LocalSec::new(slot_start),
        offset,
    }
}

#[test]
fn slots_of_the_default_layout(rt: HostRuntime) -> Result<(), Fail> {
    // The layout's seconds, the offset in minutes and the moment; the local second at which the slot began, and
    // the seconds since then.
    let rows = [
        (10, 0, 0, 0, 0),
        (10, 0, 3599, 3590, 9),
        (10, 0, 3600, 3600, 0),
        // 514 plays of 7 s end at 3,598, and the hour's end cuts the last one after 2 s.
        (7, 0, 3597, 3591, 6),
        (7, 0, 3598, 3598, 0),
        (7, 0, 3599, 3598, 1),
        (7, 0, 3600, 3600, 0),
        (7, 0, 3607, 3607, 0),
        // Ahead of UTC.
        (7, 840, 0, 50_400, 0),
        (7, 840, 3606, 54_000, 6),
        (10, 90, 0, 5400, 0),
        (7, 90, 0, 5399, 1),
        (7, 90, 1799, 7198, 1),
        // Behind UTC, before the local midnight that begins 1970.
        (7, -840, 0, -50_400, 0),
        (7, -840, 3599, -46_802, 1),
        (7, -90, 0, -5401, 1),
        (7, -90, 5399, -2, 1),
        (7, -90, 5400, 0, 0),
        (7, -1, 0, -65, 5),
        // A second, and a whole hour.
        (1, 0, 3599, 3599, 0),
        (3600, 0, 3599, 0, 3599),
        (3600, 0, 3600, 3600, 0),
        (3600, -90, 0, -7200, 1800),
        // The last moment, at the greatest offset.
        (10, 840, 4_102_444_799, 4_102_495_190, 9),
    ];
    for (seconds, minutes, moment, slot_start, offset) in rows {
        let text = one_layout(rt.alloc(), seconds, minutes)?;
        let mut resolver = resolver(rt.alloc(), text.as_str())?;
        let (show, picture) = shown_at::<Brand>(Blank::new(1), &mut resolver, moment)?;
        assert_eq!(rt;
            show,
            default_show(1, slot_start, offset),
            "{seconds} s at {minutes} min at {moment}"
        );
        assert_eq!(rt; picture.len(), 1);
        assert!(rt; !picture.is_empty());
        assert!(rt; 0 < picture.len());
        assert_eq!(rt; picture.at(0), (1, MediaId(1)));
    }
    Ok(())
}

#[test]
fn default_layout_among_others(rt: HostRuntime) -> Result<(), Fail> {
    let mut resolver = resolver(rt.alloc(), THREE)?;
    // One resolver is asked in any order. The local second is the moment and 5,400; 72 plays of 25 s are half an
    // hour.
    let rows = [
        (0, 5400, 0),
        (7224, 12_600, 24),
        (7225, 12_625, 0),
        (24, 5400, 24),
        (0, 5400, 0),
    ];
    for (moment, slot_start, offset) in rows {
        let (show, picture) = shown_at::<Brand>(Blank::new(1), &mut resolver, moment)?;
        assert_eq!(rt; show, default_show(4, slot_start, offset), "at {moment}");
        assert_eq!(rt; picture.len(), 1);
        assert!(rt; 0 < picture.len());
        assert_eq!(rt; picture.at(0), (6, MediaId(8)));
    }
    Ok(())
}

#[test]
fn a_segment_ends_with_the_hour_or_where_an_event_changes(rt: HostRuntime) -> Result<(), Fail> {
    let mut resolver = resolver(rt.alloc(), TIMED)?;
    assert_eq!(rt; resolver.kept(), None);
    // The moment, and the segment that is kept after it: from a second up to another.
    let rows = [
        (999, 999, 1000),
        (1000, 1000, 2000),
        (1500, 1000, 2000),
        (2000, 2000, 3600),
        (3600, 3600, 7200),
        // A second before the segment is outside of it.
        (3599, 3599, 3600),
    ];
    for (moment, from, till) in rows {
        let (_, picture) = shown_at::<Brand>(Blank::new(1), &mut resolver, moment)?;
        assert_eq!(rt; picture.len(), 1);
        let kept = Some((LocalSec::new(from), LocalSec::new(till)));
        assert_eq!(rt; resolver.kept(), kept, "at {moment}");
    }
    Ok(())
}
