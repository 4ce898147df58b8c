//! Good texts, and how another is made of one.

use std::alloc::Global;
use std::test::Fail;

/// One layout of one region, which shows one file.
pub(crate) const PLAIN: &str =
    r#"{"campaigns":[],"dayparts":[],"default":1,"events":[],"files":[{"id":1,"length":3,"md5":"900150983cd24fb0d6963f7d28e17f72"}],"layouts":[{"id":1,"regions":[{"id":1,"items":[{"media":1,"seconds":10}]}]}],"version":1,"zone":{"offset":0}}"#;

/// Two layouts, of which one has two regions; a campaign, a daypart and three events; a zone that changes its clocks.
pub(crate) const BUSY: &str =
    r#"{"campaigns":[{"id":4,"layouts":[1,2,1]}],"dayparts":[{"end":0,"exceptions":[{"day":6,"end":75600,"start":36000}],"id":9,"start":28800}],"default":1,"events":[{"id":1,"order":0,"priority":65535,"repeat":null,"share":0,"target":{"layout":2},"when":{"always":true}},{"id":2,"order":3,"priority":0,"repeat":{"days":[1,5,7],"every":2,"unit":"week","until":19800},"share":0,"target":{"campaign":4},"when":{"date":19723,"daypart":9}},{"id":3,"order":1,"priority":0,"repeat":{"days":[],"every":1,"unit":"hour","until":null},"share":600,"target":{"layout":1},"when":{"from":1704067200,"to":1704070800}}],"files":[{"id":7,"length":3,"md5":"900150983cd24fb0d6963f7d28e17f72"}],"layouts":[{"id":1,"regions":[{"id":2,"items":[{"media":7,"seconds":10},{"media":7,"seconds":20}]},{"id":1,"items":[{"media":7,"seconds":5}]}]},{"id":2,"regions":[{"id":1,"items":[{"media":7,"seconds":3600}]}]}],"version":1,"zone":{"posix":"CET-1CEST,M3.5.0,M10.5.0/3"}}"#;

/// Version 2: a daypart with dates, and an event by the weekday of the month.
pub(crate) const DATED: &str =
    r#"{"campaigns":[],"dayparts":[{"dates":[{"date":20148,"end":39600,"start":36000},{"date":20149,"end":0,"start":0}],"end":0,"exceptions":[{"day":6,"end":75600,"start":36000}],"id":9,"start":28800}],"default":1,"events":[{"id":1,"layer":0,"order":0,"priority":65535,"repeat":null,"share":0,"target":{"layout":1},"when":{"date":19723,"daypart":9}},{"id":2,"layer":0,"order":3,"priority":0,"repeat":{"days":[],"every":1,"unit":"month-weekday","until":null},"share":0,"target":{"layout":1},"when":{"from":1736326800,"to":1736330400}}],"files":[{"id":7,"length":3,"md5":"900150983cd24fb0d6963f7d28e17f72"}],"layouts":[{"id":1,"regions":[{"id":1,"items":[{"media":7,"seconds":10}]}]}],"version":2,"zone":{"offset":0}}"#;

/// The text with the first occurrence of a part replaced.
pub(crate) fn edited(alloc: Global, text: &str, old: &str, new: &str) -> Result<String, Fail> {
    let (before, after) = text.split_once(old).ok_or("no such part")?;
    Ok(format!(in alloc; "{before}{new}{after}")?)
}
