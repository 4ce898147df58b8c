//! Texts that are no manifest, each with its first fault and all its fields.
//!
//! A line of a table says what is replaced in a good text, once, by what, and which fault the new text has, as it is
//! shown by `Debug`: `OLD -> NEW => FAULT`. Two replacements stand with ` ; ` between them. The faults were worked out by
//! hand from the order of the checks, and the places of texts that aren't canonical by another program.

use crate::texts::{BUSY, DATED, PLAIN, edited};
use sg_manifest::read;
use std::alloc::Global;
use std::process::Abort;
use std::test::Fail;

/// No JSON: halves of it, numbers and texts that it hasn't, lone surrogates.
const NOT_JSON: &str = r#"
{"campaigns" -> { => NotJson
{"offset":0}} -> {"offset":0} => NotJson
{"offset":0}} -> {"offset":0}}x => NotJson
{"offset":0}} -> {"offset":0}}{} => NotJson
"default":1 -> "default":01 => NotJson
"default":1 -> "default":+1 => NotJson
"default":1 -> "default":1. => NotJson
"default":1 -> "default":.5 => NotJson
"default":1 -> "default":1e999 => NotJson
"default":1 -> "default":- => NotJson
"default":1 -> "default": => NotJson
"default":1 -> "default":NaN => NotJson
"default":1 -> 'default':1 => NotJson
"default":1 -> "default":0x1 => NotJson
"campaigns":[] -> "campaigns":[,] => NotJson
"campaigns":[] -> "campaigns":[1,] => NotJson
"campaigns":[] -> "campaigns":[} => NotJson
"offset":0 -> "posix":"\ud800" => NotJson
"offset":0 -> "posix":"\udc00" => NotJson
"offset":0 -> "posix":"\ud800\u0041" => NotJson
"offset":0 -> "posix":"\x" => NotJson
"events":[], -> "events":[] => NotJson
"#;

/// A top without a whole number `version`, without exactly its members, or with one of another type; a zone of no form.
const TOPS: &str = r#"
"version":1 -> "version":"" => BadField { list: 0, index: 0, fault: Shape }
"version":1 -> "version":"1" => BadField { list: 0, index: 0, fault: Shape }
"version":1 -> "version":null => BadField { list: 0, index: 0, fault: Shape }
"version":1 -> "version":true => BadField { list: 0, index: 0, fault: Shape }
"version":1 -> "version":[1] => BadField { list: 0, index: 0, fault: Shape }
"version":1 -> "version":{} => BadField { list: 0, index: 0, fault: Shape }
"version":1 -> "version":1.0 => BadField { list: 0, index: 0, fault: Shape }
"version":1 -> "version":1e0 => BadField { list: 0, index: 0, fault: Shape }
"version":1 -> "version":-0 => BadField { list: 0, index: 0, fault: Shape }
"version":1 -> "version":-1 => BadField { list: 0, index: 0, fault: Shape }
"version":1 -> "version":0.5 => BadField { list: 0, index: 0, fault: Shape }
"version":1 -> "version":4294967296 => BadField { list: 0, index: 0, fault: Shape }
"version":1 -> "version":18446744073709551616 => BadField { list: 0, index: 0, fault: Shape }
,"version":1 ->  => BadField { list: 0, index: 0, fault: Shape }
"campaigns":[], ->  => BadField { list: 0, index: 0, fault: Shape }
"dayparts":[], ->  => BadField { list: 0, index: 0, fault: Shape }
"default":1, ->  => BadField { list: 0, index: 0, fault: Shape }
"events":[], ->  => BadField { list: 0, index: 0, fault: Shape }
"files":[{"id":1,"length":3,"md5":"900150983cd24fb0d6963f7d28e17f72"}], ->  => BadField { list: 0, index: 0, fault: Shape }
"layouts":[{"id":1,"regions":[{"id":1,"items":[{"media":1,"seconds":10}]}]}], ->  => BadField { list: 0, index: 0, fault: Shape }
,"zone":{"offset":0} ->  => BadField { list: 0, index: 0, fault: Shape }
"default":1 -> "default":0 => BadField { list: 0, index: 0, fault: Shape }
"default":1 -> "default":"1" => BadField { list: 0, index: 0, fault: Shape }
"default":1 -> "default":null => BadField { list: 0, index: 0, fault: Shape }
"default":1 -> "default":1.0 => BadField { list: 0, index: 0, fault: Shape }
"default":1 -> "default":1e0 => BadField { list: 0, index: 0, fault: Shape }
"default":1 -> "default":-0 => BadField { list: 0, index: 0, fault: Shape }
"default":1 -> "default":-1 => BadField { list: 0, index: 0, fault: Shape }
"default":1 -> "default":4294967296 => BadField { list: 0, index: 0, fault: Shape }
"default":1 -> "default":18446744073709551616 => BadField { list: 0, index: 0, fault: Shape }
"campaigns":[] -> "campaigns":{} => BadField { list: 0, index: 0, fault: Shape }
"campaigns":[] -> "campaigns":null => BadField { list: 0, index: 0, fault: Shape }
"dayparts":[] -> "dayparts":1 => BadField { list: 0, index: 0, fault: Shape }
"events":[] -> "events":"[]" => BadField { list: 0, index: 0, fault: Shape }
"files":[ -> "files":true,"file":[ => BadField { list: 0, index: 0, fault: Shape }
"layouts":[ -> "layouts":0,"layout":[ => BadField { list: 0, index: 0, fault: Shape }
"default":1 -> "default":1,"colour":1 => BadField { list: 0, index: 0, fault: Shape }
"default":1 -> "Default":1 => BadField { list: 0, index: 0, fault: Shape }
{"campaigns" -> {"":1,"campaigns" => BadField { list: 0, index: 0, fault: Shape }
{"offset":0} -> [] => BadField { list: 0, index: 0, fault: Shape }
{"offset":0} -> 1 => BadField { list: 0, index: 0, fault: Shape }
{"offset":0} -> null => BadField { list: 0, index: 0, fault: Shape }
{"offset":0} -> "UTC" => BadField { list: 0, index: 0, fault: Shape }
{"offset":0} -> {} => BadField { list: 0, index: 0, fault: Shape }
{"offset":0} -> {"offset":0,"posix":"UTC0"} => BadField { list: 0, index: 0, fault: Shape }
{"offset":0} -> {"offset":"0"} => BadField { list: 0, index: 0, fault: Shape }
{"offset":0} -> {"offset":0.0} => BadField { list: 0, index: 0, fault: Shape }
{"offset":0} -> {"offset":0e0} => BadField { list: 0, index: 0, fault: Shape }
{"offset":0} -> {"offset":-0} => BadField { list: 0, index: 0, fault: Shape }
{"offset":0} -> {"offset":2147483648} => BadField { list: 0, index: 0, fault: Shape }
{"offset":0} -> {"offset":-2147483649} => BadField { list: 0, index: 0, fault: Shape }
{"offset":0} -> {"offset":18446744073709551616} => BadField { list: 0, index: 0, fault: Shape }
{"offset":0} -> {"offset":null} => BadField { list: 0, index: 0, fault: Shape }
{"offset":0} -> {"posix":0} => BadField { list: 0, index: 0, fault: Shape }
{"offset":0} -> {"posix":null} => BadField { list: 0, index: 0, fault: Shape }
{"offset":0} -> {"name":"UTC"} => BadField { list: 0, index: 0, fault: Shape }
"#;

/// Whole numbers that are no version, and rules of the right form that tell no zone.
const VERSIONS_AND_ZONES: &str = r#"
"version":1 -> "version":0 => Version(0)
"version":1 -> "version":3 => Version(3)
"version":1 -> "version":4294967295 => Version(4294967295)
{"offset":0} -> {"offset":841} => BadField { list: 0, index: 0, fault: Zone(OffsetRange(841)) }
{"offset":0} -> {"offset":-841} => BadField { list: 0, index: 0, fault: Zone(OffsetRange(-841)) }
{"offset":0} -> {"offset":2147483647} => BadField { list: 0, index: 0, fault: Zone(OffsetRange(2147483647)) }
{"offset":0} -> {"offset":-2147483648} => BadField { list: 0, index: 0, fault: Zone(OffsetRange(-2147483648)) }
{"offset":0} -> {"posix":"hello"} => BadField { list: 0, index: 0, fault: Zone(BadZone) }
{"offset":0} -> {"posix":""} => BadField { list: 0, index: 0, fault: Zone(BadZone) }
{"offset":0} -> {"posix":"CET-1\u00e9"} => BadField { list: 0, index: 0, fault: Zone(BadZone) }
{"offset":0} -> {"posix":"UTC0\n"} => BadField { list: 0, index: 0, fault: Zone(BadZone) }
{"offset":0} -> {"posix":"AAAAAAAAAAAAAAAAAAAAAAAAAAAAAAAAAAAAAAAAAAAAAAAAAAAAAAAAAAAAA-100"} => BadField { list: 0, index: 0, fault: Zone(BadZone) }
"#;

/// The first file isn't of its form.
const FILES: &str = r#"
"files":[{ -> "files":[1,{ => BadField { list: 1, index: 0, fault: Shape }
"files":[{ -> "files":[[],{ => BadField { list: 1, index: 0, fault: Shape }
"files":[{ -> "files":[{},{ => BadField { list: 1, index: 0, fault: Shape }
{"id":1,"length" -> {"length" => BadField { list: 1, index: 0, fault: Shape }
"length":3, ->  => BadField { list: 1, index: 0, fault: Shape }
,"md5":"900150983cd24fb0d6963f7d28e17f72" ->  => BadField { list: 1, index: 0, fault: Shape }
"length":3 -> "length":3,"name":"a" => BadField { list: 1, index: 0, fault: Shape }
{"id":1,"length" -> {"id":0,"length" => BadField { list: 1, index: 0, fault: Shape }
{"id":1,"length" -> {"id":4294967296,"length" => BadField { list: 1, index: 0, fault: Shape }
{"id":1,"length" -> {"id":"1","length" => BadField { list: 1, index: 0, fault: Shape }
{"id":1,"length" -> {"id":1.0,"length" => BadField { list: 1, index: 0, fault: Shape }
"length":3 -> "length":0 => BadField { list: 1, index: 0, fault: Shape }
"length":3 -> "length":67108865 => BadField { list: 1, index: 0, fault: Shape }
"length":3 -> "length":-3 => BadField { list: 1, index: 0, fault: Shape }
"length":3 -> "length":null => BadField { list: 1, index: 0, fault: Shape }
"length":3 -> "length":3e0 => BadField { list: 1, index: 0, fault: Shape }
900150983cd2 -> 900150983CD2 => BadField { list: 1, index: 0, fault: Shape }
900150983cd2 -> 900150983cd => BadField { list: 1, index: 0, fault: Shape }
900150983cd2 -> 900150983cd20 => BadField { list: 1, index: 0, fault: Shape }
900150983cd2 -> 900150983cdg => BadField { list: 1, index: 0, fault: Shape }
"900150983cd24fb0d6963f7d28e17f72" -> "" => BadField { list: 1, index: 0, fault: Shape }
"900150983cd24fb0d6963f7d28e17f72" -> 9 => BadField { list: 1, index: 0, fault: Shape }
"900150983cd24fb0d6963f7d28e17f72" -> null => BadField { list: 1, index: 0, fault: Shape }
"#;

/// The first layout isn't of its form, or its regions make none.
const LAYOUTS: &str = r#"
"layouts":[{ -> "layouts":[null,{ => BadField { list: 2, index: 0, fault: Shape }
{"id":1,"regions":[{ -> {"regions":[{ => BadField { list: 2, index: 0, fault: Shape }
{"id":1,"regions":[{ -> {"id":1,"name":1,"regions":[{ => BadField { list: 2, index: 0, fault: Shape }
{"id":1,"regions":[{ -> {"id":0,"regions":[{ => BadField { list: 2, index: 0, fault: Shape }
{"id":1,"regions":[{ -> {"id":4294967296,"regions":[{ => BadField { list: 2, index: 0, fault: Shape }
"regions":[{ -> "regions":[0,{ => BadField { list: 2, index: 0, fault: Shape }
"regions":[{"id":1, -> "regions":[{"id":0, => BadField { list: 2, index: 0, fault: Shape }
"regions":[{"id":1, -> "regions":[{ => BadField { list: 2, index: 0, fault: Shape }
"regions":[{"id":1, -> "regions":[{"id":1,"x":0, => BadField { list: 2, index: 0, fault: Shape }
[{"media":1,"seconds":10}] -> {"media":1,"seconds":10} => BadField { list: 2, index: 0, fault: Shape }
"media":1 -> "media":0 => BadField { list: 2, index: 0, fault: Shape }
"media":1 -> "media":"1" => BadField { list: 2, index: 0, fault: Shape }
"media":1, ->  => BadField { list: 2, index: 0, fault: Shape }
"seconds":10 -> "seconds":10,"shade":1 => BadField { list: 2, index: 0, fault: Shape }
"seconds":10 -> "seconds":10.0 => BadField { list: 2, index: 0, fault: Shape }
"seconds":10 -> "seconds":-1 => BadField { list: 2, index: 0, fault: Shape }
"seconds":10 -> "seconds":4294967296 => BadField { list: 2, index: 0, fault: Shape }
,"seconds":10 ->  => BadField { list: 2, index: 0, fault: Shape }
"seconds":10 -> "seconds":0 => BadField { list: 2, index: 0, fault: Layout(ZeroSeconds(1, 0)) }
"seconds":10 -> "seconds":3601 => BadField { list: 2, index: 0, fault: Layout(TooLong(3601)) }
"seconds":10 -> "seconds":4294967295 => BadField { list: 2, index: 0, fault: Layout(TooLong(4294967295)) }
[{"media":1,"seconds":10}] -> [] => BadField { list: 2, index: 0, fault: Layout(EmptyRegion(1)) }
[{"id":1,"items":[{"media":1,"seconds":10}]}] -> [] => BadField { list: 2, index: 0, fault: Layout(NoRegion) }
"regions":[ -> "regions":[{"id":1,"items":[{"media":1,"seconds":0}]}, => BadField { list: 2, index: 0, fault: Layout(DoubleRegion(1)) }
{"media":1,"seconds":10} -> {"media":1,"seconds":10},{"media":1,"seconds":0} => BadField { list: 2, index: 0, fault: Layout(ZeroSeconds(1, 1)) }
{"media":1,"seconds":10} -> {"media":1,"seconds":3600},{"media":1,"seconds":1} => BadField { list: 2, index: 0, fault: Layout(TooLong(3601)) }
"regions":[ -> "regions":[{"id":9,"items":[]}, => BadField { list: 2, index: 0, fault: Layout(EmptyRegion(9)) }
"#;

/// The first campaign isn't of its form.
const CAMPAIGNS: &str = r#"
"campaigns":[{ -> "campaigns":[7,{ => BadField { list: 3, index: 0, fault: Shape }
[1,2,1] -> [] => BadField { list: 3, index: 0, fault: Shape }
[1,2,1] -> 1 => BadField { list: 3, index: 0, fault: Shape }
[1,2,1] -> [1,0] => BadField { list: 3, index: 0, fault: Shape }
[1,2,1] -> [1,4294967296] => BadField { list: 3, index: 0, fault: Shape }
[1,2,1] -> ["1"] => BadField { list: 3, index: 0, fault: Shape }
[1,2,1] -> [1,1,1,1,1,1,1,1,1,1,1,1,1,1,1,1,1,1,1,1,1,1,1,1,1,1,1,1,1,1,1,1,1,1,1,1,1,1,1,1,1,1,1,1,1,1,1,1,1,1,1,1,1,1,1,1,1,1,1,1,1,1,1,1,1] => BadField { list: 3, index: 0, fault: Shape }
{"id":4, -> { => BadField { list: 3, index: 0, fault: Shape }
{"id":4, -> {"id":0, => BadField { list: 3, index: 0, fault: Shape }
{"id":4, -> {"id":4,"name":"a", => BadField { list: 3, index: 0, fault: Shape }
,"layouts":[1,2,1] ->  => BadField { list: 3, index: 0, fault: Shape }
"#;

/// The first daypart isn't of its form, its windows make none, or it is of a later version.
const DAYPARTS: &str = r#"
"dayparts":[{ -> "dayparts":[false,{ => BadField { list: 4, index: 0, fault: Shape }
"id":9, -> "id":0, => BadField { list: 4, index: 0, fault: Shape }
"id":9, ->  => BadField { list: 4, index: 0, fault: Shape }
"id":9, -> "id":9,"name":1, => BadField { list: 4, index: 0, fault: Shape }
{"end":0, -> { => BadField { list: 4, index: 0, fault: Shape }
"start":28800 -> "start":"8:00" => BadField { list: 4, index: 0, fault: Shape }
,"start":28800 ->  => BadField { list: 4, index: 0, fault: Shape }
"start":28800 -> "start":4294967296 => BadField { list: 4, index: 0, fault: Shape }
"day":6 -> "day":256 => BadField { list: 4, index: 0, fault: Shape }
"day":6 -> "day":262 => BadField { list: 4, index: 0, fault: Shape }
"day":6 -> "day":-1 => BadField { list: 4, index: 0, fault: Shape }
"day":6, ->  => BadField { list: 4, index: 0, fault: Shape }
"day":6 -> "day":6,"date":1 => BadField { list: 4, index: 0, fault: Shape }
[{"day":6,"end":75600,"start":36000}] -> {} => BadField { list: 4, index: 0, fault: Shape }
[{"day":6,"end":75600,"start":36000}] -> [6] => BadField { list: 4, index: 0, fault: Shape }
"day":6 -> "day":0 => BadField { list: 4, index: 0, fault: Daypart(BadWeekday(0)) }
"day":6 -> "day":8 => BadField { list: 4, index: 0, fault: Daypart(BadWeekday(8)) }
"day":6 -> "day":255 => BadField { list: 4, index: 0, fault: Daypart(BadWeekday(255)) }
"start":28800 -> "start":86400 => BadField { list: 4, index: 0, fault: Daypart(BadTime(86400)) }
{"end":0, -> {"end":86400, => BadField { list: 4, index: 0, fault: Daypart(BadTime(86400)) }
"end":75600 -> "end":4294967295 => BadField { list: 4, index: 0, fault: Daypart(BadTime(4294967295)) }
"exceptions":[ -> "exceptions":[{"day":6,"end":1,"start":0}, => BadField { list: 4, index: 0, fault: Daypart(DoubleWeekday(6)) }
"exceptions":[ -> "exceptions":[{"day":9,"end":1,"start":86400}, => BadField { list: 4, index: 0, fault: Daypart(BadTime(86400)) }
"exceptions":[ -> "dates":[],"exceptions":[ => BadField { list: 4, index: 0, fault: Later }
"id":9, -> "dates":1,"id":0, => BadField { list: 4, index: 0, fault: Later }
"#;

/// The second event isn't of its form.
const EVENT_FORMS: &str = r#"
{"id":2,"order":3,"priority":0, -> 0,{"id":2,"order":3,"priority":0, => BadField { list: 5, index: 1, fault: Shape }
{"id":2,"order":3,"priority":0, -> {"order":3,"priority":0, => BadField { list: 5, index: 1, fault: Shape }
{"id":2,"order":3,"priority":0, -> {"id":0,"order":3,"priority":0, => BadField { list: 5, index: 1, fault: Shape }
{"id":2,"order":3,"priority":0, -> {"id":2,"order":"3","priority":0, => BadField { list: 5, index: 1, fault: Shape }
{"id":2,"order":3,"priority":0, -> {"id":2,"priority":0, => BadField { list: 5, index: 1, fault: Shape }
{"id":2,"order":3,"priority":0, -> {"id":2,"order":3,"priority":null, => BadField { list: 5, index: 1, fault: Shape }
{"id":2,"order":3,"priority":0, -> {"id":2,"name":1,"order":3,"priority":0, => BadField { list: 5, index: 1, fault: Shape }
"share":0,"target":{"campaign":4} -> "share":-1,"target":{"campaign":4} => BadField { list: 5, index: 1, fault: Shape }
"share":0,"target":{"campaign":4} -> "target":{"campaign":4} => BadField { list: 5, index: 1, fault: Shape }
{"campaign":4} -> {} => BadField { list: 5, index: 1, fault: Shape }
{"campaign":4} -> 4 => BadField { list: 5, index: 1, fault: Shape }
{"campaign":4} -> {"campaign":0} => BadField { list: 5, index: 1, fault: Shape }
{"campaign":4} -> {"campaign":4,"layout":1} => BadField { list: 5, index: 1, fault: Shape }
{"campaign":4} -> {"daypart":9} => BadField { list: 5, index: 1, fault: Shape }
{"campaign":4} -> {"campaign":"4"} => BadField { list: 5, index: 1, fault: Shape }
{"date":19723,"daypart":9} -> {} => BadField { list: 5, index: 1, fault: Shape }
{"date":19723,"daypart":9} -> {"date":19723} => BadField { list: 5, index: 1, fault: Shape }
{"date":19723,"daypart":9} -> {"daypart":9} => BadField { list: 5, index: 1, fault: Shape }
{"date":19723,"daypart":9} -> {"date":19723,"daypart":0} => BadField { list: 5, index: 1, fault: Shape }
{"date":19723,"daypart":9} -> {"date":19723,"daypart":9,"from":0} => BadField { list: 5, index: 1, fault: Shape }
{"date":19723,"daypart":9} -> {"always":false} => BadField { list: 5, index: 1, fault: Shape }
{"date":19723,"daypart":9} -> {"always":1} => BadField { list: 5, index: 1, fault: Shape }
{"date":19723,"daypart":9} -> {"always":true,"date":1} => BadField { list: 5, index: 1, fault: Shape }
{"date":19723,"daypart":9} -> {"from":0} => BadField { list: 5, index: 1, fault: Shape }
{"date":19723,"daypart":9} -> {"from":0,"until":9} => BadField { list: 5, index: 1, fault: Shape }
{"date":19723,"daypart":9} -> {"from":0,"to":4294967296} => BadField { list: 5, index: 1, fault: Shape }
{"date":19723,"daypart":9} -> null => BadField { list: 5, index: 1, fault: Shape }
[1,5,7] -> [1,7,5] => BadField { list: 5, index: 1, fault: Shape }
[1,5,7] -> [1,1,5] => BadField { list: 5, index: 1, fault: Shape }
[1,5,7] -> [0,1] => BadField { list: 5, index: 1, fault: Shape }
[1,5,7] -> [1,8] => BadField { list: 5, index: 1, fault: Shape }
[1,5,7] -> [1,257] => BadField { list: 5, index: 1, fault: Shape }
[1,5,7] -> ["1"] => BadField { list: 5, index: 1, fault: Shape }
[1,5,7] -> 81 => BadField { list: 5, index: 1, fault: Shape }
"days":[1,5,7], ->  => BadField { list: 5, index: 1, fault: Shape }
"every":2, ->  => BadField { list: 5, index: 1, fault: Shape }
"every":2 -> "every":2.0 => BadField { list: 5, index: 1, fault: Shape }
"unit":"week" -> "unit":"weeks" => BadField { list: 5, index: 1, fault: Shape }
"unit":"week" -> "unit":"Week" => BadField { list: 5, index: 1, fault: Shape }
"unit":"week" -> "unit":"minute" => BadField { list: 5, index: 1, fault: Shape }
"unit":"week" -> "unit":7 => BadField { list: 5, index: 1, fault: Shape }
"unit":"week", ->  => BadField { list: 5, index: 1, fault: Shape }
"until":19800 -> "until":"19800" => BadField { list: 5, index: 1, fault: Shape }
"until":19800 -> "until":-1 => BadField { list: 5, index: 1, fault: Shape }
,"until":19800 ->  => BadField { list: 5, index: 1, fault: Shape }
"until":19800 -> "until":19800,"week":1 => BadField { list: 5, index: 1, fault: Shape }
"repeat":{"days":[1,5,7],"every":2,"unit":"week","until":19800} -> "repeat":[] => BadField { list: 5, index: 1, fault: Shape }
"repeat":{"days":[1,5,7],"every":2,"unit":"week","until":19800} -> "repeat":false => BadField { list: 5, index: 1, fault: Shape }
"repeat":{"days":[1,5,7],"every":2,"unit":"week","until":19800} -> "repeat":{} => BadField { list: 5, index: 1, fault: Shape }
"repeat":{"days":[1,5,7],"every":2,"unit":"week","until":19800}, ->  => BadField { list: 5, index: 1, fault: Shape }
"#;

/// The values of an event or of its repeat make none, or it is of a later version.
const EVENTS: &str = r#"
"priority":65535 -> "priority":65536 => BadField { list: 5, index: 0, fault: Event(BigNumber) }
"order":3 -> "order":65536 => BadField { list: 5, index: 1, fault: Event(BigNumber) }
"share":600 -> "share":3601 => BadField { list: 5, index: 2, fault: Event(BigShare) }
"share":0,"target":{"campaign":4} -> "share":1,"target":{"campaign":4} => BadField { list: 5, index: 1, fault: Event(InterruptCampaign) }
"to":1704070800 -> "to":1704067200 => BadField { list: 5, index: 2, fault: Event(EmptyTime) }
"to":1704070800 -> "to":4102444801 => BadField { list: 5, index: 2, fault: Event(PastRange) }
"date":19723 -> "date":47482 => BadField { list: 5, index: 1, fault: Event(PastRange) }
"repeat":null -> "repeat":{"days":[],"every":1,"unit":"day","until":null} => BadField { list: 5, index: 0, fault: Event(AlwaysRepeats) }
"days":[1,5,7],"every":2,"unit":"week" -> "days":[],"every":2,"unit":"hour" => BadField { list: 5, index: 1, fault: Event(HourDaypart) }
"until":19800 -> "until":19722 => BadField { list: 5, index: 1, fault: Event(UntilBeforeBase) }
"until":null -> "until":19722 => BadField { list: 5, index: 2, fault: Event(UntilBeforeBase) }
"every":2 -> "every":0 => BadField { list: 5, index: 1, fault: Repeat(ZeroStep) }
"every":2 -> "every":1001 => BadField { list: 5, index: 1, fault: Repeat(BigStep(1001)) }
[1,5,7] -> [] => BadField { list: 5, index: 1, fault: Repeat(NoWeekday) }
"days":[] -> "days":[1] => BadField { list: 5, index: 2, fault: Repeat(StrayDays) }
"unit":"week" -> "unit":"year" => BadField { list: 5, index: 1, fault: Repeat(StrayDays) }
"until":19800 -> "until":47482 => BadField { list: 5, index: 1, fault: Repeat(BadDay) }
"until":19800 -> "until":4294967295 => BadField { list: 5, index: 1, fault: Repeat(BadDay) }
"unit":"week" -> "unit":"month-weekday" => BadField { list: 5, index: 1, fault: Later }
"#;

/// A row is named that isn't there, in each place where one is named; and an id stands twice, in each list.
const AMONG: &str = r#"
"default":1 -> "default":3 => Dangling { kind: Layout, id: 3 }
{"media":7,"seconds":3600} -> {"media":8,"seconds":3600} => Dangling { kind: Media, id: 8 }
[1,2,1] -> [1,3,1] => Dangling { kind: Layout, id: 3 }
{"layout":2} -> {"layout":4294967295} => Dangling { kind: Layout, id: 4294967295 }
{"campaign":4} -> {"campaign":5} => Dangling { kind: Campaign, id: 5 }
"daypart":9 -> "daypart":8 => Dangling { kind: Daypart, id: 8 }
"files":[ -> "files":[{"id":7,"length":3,"md5":"900150983cd24fb0d6963f7d28e17f72"}, => Double { kind: Media, id: 7 }
{"id":2,"regions" -> {"id":1,"regions" => Double { kind: Layout, id: 1 }
"campaigns":[ -> "campaigns":[{"id":4,"layouts":[9]}, => Double { kind: Campaign, id: 4 }
"dayparts":[ -> "dayparts":[{"end":0,"exceptions":[],"id":9,"start":0}, => Double { kind: Daypart, id: 9 }
{"id":3,"order" -> {"id":1,"order" => Double { kind: Event, id: 1 }
"#;

/// The text says a valid snapshot, in another spelling.
const SPELLINGS: &str = r#"
{"campaigns" -> { "campaigns" => NotCanonical(1)
{"campaigns" ->  {"campaigns" => NotCanonical(0)
"default":1, -> "default":1,"default":1, => NotCanonical(43)
"default":1, -> "default":9,"default":1, => NotCanonical(40)
"default":1,"events":[], -> "events":[],"default":1, => NotCanonical(31)
{"offset":0}} -> {"offset":0}}  => NotCanonical(234)
"9001 -> "\u0039001 => NotCanonical(89)
"seconds":10 -> "seconds":10  => NotCanonical(195)
"media":1,"seconds":10 -> "seconds":10,"media":1 => NotCanonical(174)
"campaigns" -> "c\u0061mpaigns" => NotCanonical(3)
"files":[ -> "files":[{"id":2,"length":3,"md5":"900150983cd24fb0d6963f7d28e17f72"}, => NotCanonical(69)
"layouts":[ -> "layouts":[{"id":2,"regions":[{"id":1,"items":[{"media":1,"seconds":10}]}]}, => NotCanonical(142)
"version":1, -> "version":1,"version":1, => NotCanonical(215)
"length":3 -> "length":1,"length":3 => NotCanonical(80)
{"campaigns":[],"dayparts":[], -> {"dayparts":[],"campaigns":[], => NotCanonical(2)
"#;

/// Lists that don't ascend, and exceptions.
const ORDERS: &str = r#"
{"day":6,"end":75600,"start":36000} -> {"day":7,"end":75600,"start":36000},{"day":6,"end":1,"start":0} => NotCanonical(84)
"campaigns":[ -> "campaigns":[{"id":5,"layouts":[1]}, => NotCanonical(20)
"dayparts":[ -> "dayparts":[{"end":0,"exceptions":[],"id":10,"start":0}, => NotCanonical(77)
"events":[ -> "events":[{"id":4,"order":0,"priority":0,"repeat":null,"share":0,"target":{"layout":1},"when":{"always":true}}, => NotCanonical(165)
"#;

/// Two faults at once, of checks that follow each other: the first one is the answer.
const TWO_FAULTS: &str = r#"
"version":1 -> "version":3 ; {"offset":0}} -> {"offset":0} => NotJson
"version":1 -> "version":null ; {"offset":0} -> {"offset":841} => BadField { list: 0, index: 0, fault: Shape }
"version":1 -> "version":3 ; "campaigns":[], ->  => Version(3)
"default":1 -> "default":0 ; {"offset":0} -> {"offset":841} => BadField { list: 0, index: 0, fault: Shape }
{"offset":0} -> {"offset":841} ; "length":3 -> "length":0 => BadField { list: 0, index: 0, fault: Zone(OffsetRange(841)) }
"length":3 -> "length":0 ; "seconds":10 -> "seconds":0 => BadField { list: 1, index: 0, fault: Shape }
"files":[ -> "files":[{"id":1,"length":3,"md5":"900150983cd24fb0d6963f7d28e17f72"}, ; "seconds":10 -> "seconds":0 => Double { kind: Media, id: 1 }
"seconds":10 -> "seconds":0 ; "campaigns":[] -> "campaigns":[0] => BadField { list: 2, index: 0, fault: Layout(ZeroSeconds(1, 0)) }
"campaigns":[] -> "campaigns":[0] ; "dayparts":[] -> "dayparts":[0] => BadField { list: 3, index: 0, fault: Shape }
"dayparts":[] -> "dayparts":[0] ; "events":[] -> "events":[0] => BadField { list: 4, index: 0, fault: Shape }
"events":[] -> "events":[0] ; "default":1 -> "default":2 => BadField { list: 5, index: 0, fault: Shape }
"default":1 -> "default":2 ; "media":1 -> "media":2 => Dangling { kind: Layout, id: 2 }
"default":1 -> "default":2 ; {"campaigns" ->  {"campaigns" => Dangling { kind: Layout, id: 2 }
"#;

/// The same within a list, an entry and what is named.
const TWO_ROW_FAULTS: &str = r#"
{"media":7,"seconds":3600} -> {"media":8,"seconds":3600} ; [1,2,1] -> [1,3,1] => Dangling { kind: Media, id: 8 }
[1,2,1] -> [1,3,1] ; {"layout":2} -> {"layout":4} => Dangling { kind: Layout, id: 3 }
{"layout":1},"when":{"from" -> {"layout":4},"when":{"from" ; "daypart":9 -> "daypart":8 => Dangling { kind: Layout, id: 4 }
{"id":2,"regions" -> {"id":1,"regions" ; "seconds":3600 -> "seconds":3601 => BadField { list: 2, index: 1, fault: Layout(TooLong(3601)) }
{"id":2,"regions" -> {"id":1,"regions" ; "default":1 -> "default":5 => Double { kind: Layout, id: 1 }
"unit":"week" -> "unit":"month-weekday" ; {"id":2,"order":3,"priority":0, -> {"id":0,"order":3,"priority":0, => BadField { list: 5, index: 1, fault: Later }
"every":2 -> "every":0 ; {"campaign":4} -> {"campaign":0} => BadField { list: 5, index: 1, fault: Shape }
"every":2 -> "every":0 ; "order":3 -> "order":65536 => BadField { list: 5, index: 1, fault: Repeat(ZeroStep) }
"order":3 -> "order":65536 ; "date":19723 -> "date":47482 => BadField { list: 5, index: 1, fault: Event(BigNumber) }
"priority":65535 -> "priority":65536 ; {"id":2,"order":3,"priority":0, -> {"id":0,"order":3,"priority":0, => BadField { list: 5, index: 0, fault: Event(BigNumber) }
"#;

/// The dates of a daypart aren't of their form, or make none.
const DATES: &str = r#"
"dates":[{"date":20148,"end":39600,"start":36000},{"date":20149,"end":0,"start":0}], ->  => BadField { list: 4, index: 0, fault: Shape }
"dates":[ -> "dates":null,"date":[ => BadField { list: 4, index: 0, fault: Shape }
"dates":[{"date":20148,"end":39600,"start":36000},{"date":20149,"end":0,"start":0}] -> "dates":null => BadField { list: 4, index: 0, fault: Shape }
"dates":[{ -> "dates":[1,{ => BadField { list: 4, index: 0, fault: Shape }
{"date":20148, -> { => BadField { list: 4, index: 0, fault: Shape }
{"date":20148, -> {"date":20148,"day":6, => BadField { list: 4, index: 0, fault: Shape }
"date":20148 -> "day":6 => BadField { list: 4, index: 0, fault: Shape }
"date":20148 -> "date":-1 => BadField { list: 4, index: 0, fault: Shape }
"date":20148 -> "date":"20148" => BadField { list: 4, index: 0, fault: Shape }
"date":20148 -> "date":20148.0 => BadField { list: 4, index: 0, fault: Shape }
"date":20148 -> "date":4294967296 => BadField { list: 4, index: 0, fault: Shape }
"end":39600 -> "end":null => BadField { list: 4, index: 0, fault: Shape }
"date":20149 -> "date":47482 => BadField { list: 4, index: 0, fault: Daypart(BadDate(47482)) }
"date":20149 -> "date":4294967295 => BadField { list: 4, index: 0, fault: Daypart(BadDate(4294967295)) }
"date":20149 -> "date":20148 => BadField { list: 4, index: 0, fault: Daypart(DoubleDate(20148)) }
"end":39600 -> "end":86400 => BadField { list: 4, index: 0, fault: Daypart(BadTime(86400)) }
"end":39600 -> "end":86400 ; "day":6 -> "day":8 => BadField { list: 4, index: 0, fault: Daypart(BadTime(86400)) }
"end":75600 -> "end":86401 ; "end":39600 -> "end":86400 => BadField { list: 4, index: 0, fault: Daypart(BadTime(86401)) }
"date":20148 -> "date":47482 ; "day":6 -> "day":8 => BadField { list: 4, index: 0, fault: Daypart(BadWeekday(8)) }
"date":20148 -> "date":47482 ; "date":20149 -> "date":47482 => BadField { list: 4, index: 0, fault: Daypart(BadDate(47482)) }
{"date":20148,"end":39600,"start":36000},{"date":20149,"end":0,"start":0} -> {"date":20149,"end":0,"start":0},{"date":20148,"end":39600,"start":36000} => NotCanonical(50)
"dates":[{ -> "dates": [{ => NotCanonical(37)
"#;

/// The layer of an event, or a repeat by the weekday of the month.
const LAYERS: &str = r#"
"id":1,"layer":0, -> "id":1, => BadField { list: 5, index: 0, fault: Shape }
"id":1,"layer":0 -> "id":1,"layer":1 ; "share":0 -> "share":1 => BadField { list: 5, index: 0, fault: Event(OverlayForm) }
"id":1,"layer":0 -> "id":0,"layer":1 => BadField { list: 5, index: 0, fault: Shape }
"id":1,"layer":0 -> "id":1,"colour":0,"layer":1 => BadField { list: 5, index: 0, fault: Shape }
"id":1,"layer":0 -> "id":1,"layer":1 ; "target":{"layout":1} -> "target":{"campaign":1} => BadField { list: 5, index: 0, fault: Event(OverlayForm) }
"id":1,"layer":0 -> "id":1,"layer":2 => BadField { list: 5, index: 0, fault: Event(BadLayer) }
"id":1,"layer":0 -> "id":1,"layer":4294967295 => BadField { list: 5, index: 0, fault: Event(BadLayer) }
"id":1,"layer":0 -> "id":1,"layer":2 ; "order":0 -> "order":65536 => BadField { list: 5, index: 0, fault: Event(BigNumber) }
"id":1,"layer":0 -> "id":1,"layer":1.0 => BadField { list: 5, index: 0, fault: Shape }
"id":1,"layer":0 -> "id":1,"layer":1e0 => BadField { list: 5, index: 0, fault: Shape }
"id":1,"layer":0 -> "id":1,"layer":"1" => BadField { list: 5, index: 0, fault: Shape }
"id":1,"layer":0 -> "id":1,"layer":-1 => BadField { list: 5, index: 0, fault: Shape }
"id":1,"layer":0 -> "id":1,"layer":null => BadField { list: 5, index: 0, fault: Shape }
"id":1,"layer":0 -> "id":1,"layer":4294967296 => BadField { list: 5, index: 0, fault: Shape }
"unit":"month-weekday" -> "unit":"month_weekday" => BadField { list: 5, index: 1, fault: Shape }
"days":[] -> "days":[1] => BadField { list: 5, index: 1, fault: Repeat(StrayDays) }
"every":1 -> "every":0 => BadField { list: 5, index: 1, fault: Repeat(ZeroStep) }
"id":1,"layer":0 -> "layer":0,"id":1 => NotCanonical(219)
"#;

/// What the other version has, or lacks.
const OTHER_VERSIONS: &str = r#"
"version":2 -> "version":3 => Version(3)
"version":2 -> "version":1 => BadField { list: 4, index: 0, fault: Later }
"version":2 -> "version":1 ; "id":9,"start" -> "start" => BadField { list: 4, index: 0, fault: Later }
"version":2 -> "version":1 ; "dates":[{"date":20148,"end":39600,"start":36000},{"date":20149,"end":0,"start":0}], ->  => BadField { list: 5, index: 0, fault: Shape }
"version":2 -> "version":1 ; "dates":[{"date":20148,"end":39600,"start":36000},{"date":20149,"end":0,"start":0}], ->  ; "id":1,"layer":0, -> "id":1, => BadField { list: 5, index: 1, fault: Later }
"#;

/// A text with one replacement, or several.
fn replaced(alloc: Global, text: &str, edits: &str) -> Result<String, Fail> {
    let mut other = String::from_str(alloc, text)?;
    for edit in edits.split(" ; ") {
        let (old, new) = edit.split_once(" -> ").ok_or("no replacement")?;
        other = edited(alloc, other.as_str(), old, new)?;
    }
    Ok(other)
}

/// Sees that each line of a table is so of a good text, and that it has so many lines.
fn expect_lines(
    rt: &impl Abort,
    alloc: Global,
    text: &str,
    table: &str,
    count: usize,
) -> Result<(), Fail> {
    let mut seen = 0usize;
    for line in table.trim().split("\n") {
        let (edits, shown) = line.split_once(" => ").ok_or("no fault")?;
        let other = replaced(alloc, text, edits)?;
        let fault = read(alloc, other.as_bytes())
            .err()
            .ok_or("no fault is found")?;
        let found = format!(in alloc; "{fault:?}")?;
        assert_eq!(rt; found.as_str(), shown, "{line}");
        seen = seen.saturating_add(1);
    }
    assert_eq!(rt; seen, count);
    Ok(())
}

#[test]
fn faults_of_the_top(rt: HostRuntime) -> Result<(), Fail> {
    let alloc = rt.alloc();
    expect_lines(&rt, alloc, PLAIN, NOT_JSON, 22)?;
    expect_lines(&rt, alloc, PLAIN, TOPS, 56)?;
    expect_lines(&rt, alloc, PLAIN, VERSIONS_AND_ZONES, 12)
}

#[test]
fn faults_of_rows(rt: HostRuntime) -> Result<(), Fail> {
    let alloc = rt.alloc();
    expect_lines(&rt, alloc, PLAIN, FILES, 23)?;
    expect_lines(&rt, alloc, PLAIN, LAYOUTS, 27)?;
    expect_lines(&rt, alloc, BUSY, CAMPAIGNS, 11)
}

#[test]
fn faults_of_schedules(rt: HostRuntime) -> Result<(), Fail> {
    let alloc = rt.alloc();
    expect_lines(&rt, alloc, BUSY, DAYPARTS, 25)?;
    expect_lines(&rt, alloc, BUSY, EVENT_FORMS, 50)?;
    expect_lines(&rt, alloc, BUSY, EVENTS, 19)
}

#[test]
fn faults_of_version_2(rt: HostRuntime) -> Result<(), Fail> {
    let alloc = rt.alloc();
    expect_lines(&rt, alloc, DATED, DATES, 22)?;
    expect_lines(&rt, alloc, DATED, LAYERS, 18)?;
    expect_lines(&rt, alloc, DATED, OTHER_VERSIONS, 5)?;
    let shape = r#""version":1 -> "version":2 => BadField { list: 4, index: 0, fault: Shape }"#;
    expect_lines(&rt, alloc, BUSY, shape, 1)
}

#[test]
fn faults_among_rows(rt: HostRuntime) -> Result<(), Fail> {
    let alloc = rt.alloc();
    expect_lines(&rt, alloc, BUSY, AMONG, 11)?;
    expect_lines(&rt, alloc, PLAIN, SPELLINGS, 15)?;
    expect_lines(&rt, alloc, BUSY, ORDERS, 4)
}

#[test]
fn the_first_of_two_faults(rt: HostRuntime) -> Result<(), Fail> {
    let alloc = rt.alloc();
    expect_lines(&rt, alloc, PLAIN, TWO_FAULTS, 13)?;
    expect_lines(&rt, alloc, BUSY, TWO_ROW_FAULTS, 10)
}
