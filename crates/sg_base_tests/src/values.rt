//! Moments, lists, names and the counter.

ghost use Rattle.std.specs.Prelude.{◌≡◌, ◌<◌};

use sg_base::{Kind, LimitName, LocalSec, Moment, Rows, Steps, is_key};
use std::marker::Brand;
use std::sync::ledger::{Blank, Ledger};
use std::test::Fail;

#[test]
fn bounds_moments(rt: HostRuntime) {
    for (second, want) in [
        (0, Some(0)),
        (4_102_444_799, Some(4_102_444_799)),
        (4_102_444_800, None),
        (u32::MAX, None),
    ] {
        assert_eq!(rt; Moment::new(second).map(|moment| moment.seconds()), want);
    }
    assert!(rt; Moment::new(1) < Moment::new(2));
    assert_eq!(rt; LocalSec::new(-93_599).second(), -93_599);
    assert!(rt; LocalSec::new(-1) < LocalSec::new(0));
}

#[test]
fn keeps_rows(rt: HostRuntime) -> Result<(), Fail> {
    let rows = Rows::from_vec(vec![in rt.alloc(); 3, 1, 4]?);
    assert_eq!(rt; (rows.len(), rows.is_empty()), (3, false));
    assert_eq!(rt; rows.as_slice(), [3, 1, 4].as_slice());
    assert!(rt; rows.clone()? == rows);
    assert_eq!(rt; rows.into_vec().as_slice(), [3, 1, 4].as_slice());
    assert!(rt; Rows::from_vec(Vec::<u32>::new(rt.alloc())).is_empty());
    Ok(())
}

#[test]
fn kinds_have_names(rt: HostRuntime) {
    for (kind, name) in [
        (Kind::Media, "media"),
        (Kind::Layout, "layout"),
        (Kind::Campaign, "campaign"),
        (Kind::Daypart, "daypart"),
        (Kind::Group, "group"),
        (Kind::Display, "display"),
        (Kind::Event, "event"),
        (Kind::Client, "client"),
    ] {
        assert_eq!(rt; kind.name(), name);
        assert_eq!(rt; Kind::of_name(name), Some(kind));
    }
    for name in ["", "Media", "medium", "events"] {
        assert_eq!(rt; Kind::of_name(name), None, "{name}");
    }
}

#[test]
fn limits_have_names(rt: HostRuntime) {
    for (limit, name) in [
        (LimitName::Files, "files"),
        (LimitName::Layouts, "layouts"),
        (LimitName::Campaigns, "campaigns"),
        (LimitName::Dayparts, "dayparts"),
        (LimitName::Events, "events"),
        (LimitName::Text, "text"),
    ] {
        assert_eq!(rt; limit.name(), name);
    }
}

fn two_ticks<L: Ledger>(blank: Blank) -> Steps<L>
    requires name { blank.name ≡ L.name }
    requires parts { blank.parts ≡ L.parts }
    requires some { 0 < blank.parts }
    ensures { result ≡ 2 }
{
    let mut steps = Steps::new(blank);
    steps.tick();
    steps.tick();
    steps
}

fn count<L: Ledger>(blank: Blank)
    requires name { blank.name ≡ L.name }
    requires parts { blank.parts ≡ L.parts }
    requires some { 0 < blank.parts }
{
    let _steps = two_ticks::<L>(blank);
}

#[test]
fn counts_in_no_room(rt: HostRuntime) {
    count::<Brand>(Blank::new(1));
    assert_eq!(rt; size_of::<Steps<Brand>>(), 0);
}

#[test]
fn a_key_has_letters_and_digits(rt: HostRuntime) -> Result<(), Fail> {
    let longest = "abcdefghijklmnopqrstuvwxyzABCDEFGHIJKLMNOPQRSTUVWXYZ0123456789zz";
    let longer = format!(in rt.alloc(); "{longest}0")?;
    assert_eq!(rt; (longest.len(), longer.len()), (64, 65));
    assert!(rt; !is_key(longer.as_bytes()));
    let keys = ["k", "0", "Z9", longest];
    let others = ["", "a b", "a-b", "a_b", "ä", "a/", "a\n"];
    assert!(rt; keys.iter().all(|word| is_key(word.as_bytes())));
    assert!(rt; !others.iter().any(|word| is_key(word.as_bytes())));
    Ok(())
}
