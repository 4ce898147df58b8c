//! Schedules worked by hand, as manifests with the lines that they give.
use crate::tests::{expect, source_of};
use sg_outside::MemSink;
use std::alloc::Global;
use std::process::Abort;
use std::test::Fail;

// A schedule as the parts of its manifest, the moments that are asked, and the lines that they give.
#[derive(Drop)]
struct Case {
    campaigns: &'static str,
    dayparts: &'static str,
    events: &'static str,
    layouts: &'static str,
    zone: &'static str,
    moments: &'static str,
    lines: &'static str,
}

// Each layout has one region of one medium of the same number. Layout 1 lasts 10 seconds, 2 lasts 20, 3 lasts 30.
const SHORT: &str =
    r#"{"id":1,"regions":[{"id":1,"items":[{"media":1,"seconds":10}]}]},{"id":2,"regions":[{"id":1,"items":[{"media":2,"seconds":20}]}]},{"id":3,"regions":[{"id":1,"items":[{"media":3,"seconds":30}]}]}"#;

// Here layout 1 lasts 10 seconds, 2 lasts 60, 3 lasts 30, and 4 lasts 20.
const HOURLY: &str =
    r#"{"id":1,"regions":[{"id":1,"items":[{"media":1,"seconds":10}]}]},{"id":2,"regions":[{"id":1,"items":[{"media":2,"seconds":60}]}]},{"id":3,"regions":[{"id":1,"items":[{"media":3,"seconds":30}]}]},{"id":4,"regions":[{"id":1,"items":[{"media":4,"seconds":20}]}]}"#;

const FILES: &str =
    r#"{"id":1,"length":3,"md5":"900150983cd24fb0d6963f7d28e17f72"},{"id":2,"length":3,"md5":"900150983cd24fb0d6963f7d28e17f72"},{"id":3,"length":3,"md5":"900150983cd24fb0d6963f7d28e17f72"},{"id":4,"length":3,"md5":"900150983cd24fb0d6963f7d28e17f72"},{"id":5,"length":3,"md5":"900150983cd24fb0d6963f7d28e17f72"},{"id":6,"length":3,"md5":"900150983cd24fb0d6963f7d28e17f72"},{"id":7,"length":3,"md5":"900150983cd24fb0d6963f7d28e17f72"}"#;

fn manifest_of(alloc: Global, case: &Case) -> Result<String, Fail> {
    let (campaigns, dayparts, events) = (case.campaigns, case.dayparts, case.events);
    let (layouts, zone) = (case.layouts, case.zone);
    Ok(format!(in alloc;
        "{{\"campaigns\":[{campaigns}],\"dayparts\":[{dayparts}],\"default\":1,\"events\":[{events}],\"files\":[{FILES}],\"layouts\":[{layouts}],\"version\":1,\"zone\":{{{zone}}}}}"
    )?)
}

fn expect_all(rt: &impl Abort, alloc: Global, cases: &[Case]) -> Result<(), Fail> {
    for case in cases {
        let manifest = manifest_of(alloc, case)?;
        let moments = case.moments;
        let words = format!(in alloc; "preview {moments}")?;
        let source = source_of(alloc, manifest.as_str())?;
        let out = MemSink::new(alloc);
        expect(rt, alloc, words.as_str(), source, out, 0, case.lines)?;
    }
    Ok(())
}

#[test]
fn events_and_priorities(rt: HostRuntime) -> Result<(), Fail> {
    let cases: [Case; 5] = [
        // An event in its time.
        Case {
            campaigns: r#""#,
            dayparts: r#""#,
            events: r#"{"id":5,"order":0,"priority":0,"repeat":null,"share":0,"target":{"layout":2},"when":{"from":1000,"to":2000}}"#,
            layouts: SHORT,
            zone: r#""offset":0"#,
            moments: "999 1000 1999 2000",
            lines: "999 e0 l1 s990 o9 r1:m1\n1000 e5 l2 s1000 o0 r1:m2\n1999 e5 l2 s1980 o19 r1:m2\n2000 e0 l1 s2000 o0 r1:m1\n",
        },
        // The greater priority.
        Case {
            campaigns: r#""#,
            dayparts: r#""#,
            events: r#"{"id":1,"order":0,"priority":1,"repeat":null,"share":0,"target":{"layout":2},"when":{"from":0,"to":3000}},{"id":2,"order":0,"priority":2,"repeat":null,"share":0,"target":{"layout":3},"when":{"from":1000,"to":2000}}"#,
            layouts: SHORT,
            zone: r#""offset":0"#,
            moments: "999 1000 1999 2000 3000",
            lines: "999 e1 l2 s980 o19 r1:m2\n1000 e2 l3 s990 o10 r1:m3\n1999 e2 l3 s1980 o19 r1:m3\n2000 e1 l2 s2000 o0 r1:m2\n3000 e0 l1 s3000 o0 r1:m1\n",
        },
        // Equal priorities by id.
        Case {
            campaigns: r#""#,
            dayparts: r#""#,
            events: r#"{"id":1,"order":0,"priority":1,"repeat":null,"share":0,"target":{"layout":2},"when":{"always":true}},{"id":2,"order":0,"priority":1,"repeat":null,"share":0,"target":{"layout":3},"when":{"always":true}}"#,
            layouts: SHORT,
            zone: r#""offset":0"#,
            moments: "0 20 50",
            lines: "0 e1 l2 s0 o0 r1:m2\n20 e2 l3 s20 o0 r1:m3\n50 e1 l2 s50 o0 r1:m2\n",
        },
        // Equal priorities by order.
        Case {
            campaigns: r#""#,
            dayparts: r#""#,
            events: r#"{"id":1,"order":5,"priority":1,"repeat":null,"share":0,"target":{"layout":2},"when":{"always":true}},{"id":2,"order":0,"priority":1,"repeat":null,"share":0,"target":{"layout":3},"when":{"always":true}}"#,
            layouts: SHORT,
            zone: r#""offset":0"#,
            moments: "0 30",
            lines: "0 e2 l3 s0 o0 r1:m3\n30 e1 l2 s30 o0 r1:m2\n",
        },
        // A campaign in turn.
        Case {
            campaigns: r#"{"id":1,"layouts":[2,3,2]}"#,
            dayparts: r#""#,
            events: r#"{"id":4,"order":0,"priority":0,"repeat":null,"share":0,"target":{"campaign":1},"when":{"always":true}}"#,
            layouts: SHORT,
            zone: r#""offset":0"#,
            moments: "0 20 50 70",
            lines: "0 e4 l2 s0 o0 r1:m2\n20 e4 l3 s20 o0 r1:m3\n50 e4 l2 s50 o0 r1:m2\n70 e4 l2 s70 o0 r1:m2\n",
        },
    ];
    expect_all(&rt, rt.alloc(), &cases)
}

#[test]
fn dayparts_repeats_and_zones(rt: HostRuntime) -> Result<(), Fail> {
    let cases: [Case; 7] = [
        // A daypart over midnight.
        Case {
            campaigns: r#""#,
            dayparts: r#"{"end":7200,"exceptions":[{"day":6,"end":10800,"start":72000}],"id":1,"start":79200}"#,
            events: r#"{"id":7,"order":0,"priority":0,"repeat":{"days":[],"every":1,"unit":"day","until":null},"share":0,"target":{"layout":2},"when":{"date":20140,"daypart":1}}"#,
            layouts: SHORT,
            zone: r#""offset":0"#,
            moments: "1740882600 1740884399 1740884400 1740969000",
            lines: "1740882600 e7 l2 s1740882600 o0 r1:m2\n1740884399 e7 l2 s1740884380 o19 r1:m2\n1740884400 e0 l1 s1740884400 o0 r1:m1\n1740969000 e0 l1 s1740969000 o0 r1:m1\n",
        },
        // Day 31 by the month.
        Case {
            campaigns: r#""#,
            dayparts: r#""#,
            events: r#"{"id":7,"order":0,"priority":0,"repeat":{"days":[],"every":1,"unit":"month","until":null},"share":0,"target":{"layout":2},"when":{"from":1743415200,"to":1743418800}}"#,
            layouts: SHORT,
            zone: r#""offset":0"#,
            moments: "1746007200 1746093600 1748685600",
            lines: "1746007200 e0 l1 s1746007200 o0 r1:m1\n1746093600 e0 l1 s1746093600 o0 r1:m1\n1748685600 e7 l2 s1748685600 o0 r1:m2\n",
        },
        // 29 February by the year.
        Case {
            campaigns: r#""#,
            dayparts: r#""#,
            events: r#"{"id":7,"order":0,"priority":0,"repeat":{"days":[],"every":1,"unit":"year","until":null},"share":0,"target":{"layout":2},"when":{"from":1709164800,"to":1709168400}}"#,
            layouts: SHORT,
            zone: r#""offset":0"#,
            moments: "1740700800 1740787200 1835395200",
            lines: "1740700800 e0 l1 s1740700800 o0 r1:m1\n1740787200 e0 l1 s1740787200 o0 r1:m1\n1835395200 e7 l2 s1835395200 o0 r1:m2\n",
        },
        // Two weekdays of each second week.
        Case {
            campaigns: r#""#,
            dayparts: r#""#,
            events: r#"{"id":7,"order":0,"priority":0,"repeat":{"days":[1,5],"every":2,"unit":"week","until":null},"share":0,"target":{"layout":2},"when":{"from":1735722000,"to":1735725600}}"#,
            layouts: SHORT,
            zone: r#""offset":0"#,
            moments: "1735549200 1735722000 1735894800 1736154000 1736758800",
            lines: "1735549200 e0 l1 s1735549200 o0 r1:m1\n1735722000 e0 l1 s1735722000 o0 r1:m1\n1735894800 e7 l2 s1735894800 o0 r1:m2\n1736154000 e0 l1 s1736154000 o0 r1:m1\n1736758800 e7 l2 s1736758800 o0 r1:m2\n",
        },
        // On the last day.
        Case {
            campaigns: r#""#,
            dayparts: r#""#,
            events: r#"{"id":7,"order":0,"priority":0,"repeat":{"days":[1,5],"every":2,"unit":"week","until":20101},"share":0,"target":{"layout":2},"when":{"from":1735722000,"to":1735725600}}"#,
            layouts: SHORT,
            zone: r#""offset":0"#,
            moments: "1736758800",
            lines: "1736758800 e7 l2 s1736758800 o0 r1:m2\n",
        },
        // After the last day.
        Case {
            campaigns: r#""#,
            dayparts: r#""#,
            events: r#"{"id":7,"order":0,"priority":0,"repeat":{"days":[1,5],"every":2,"unit":"week","until":20100},"share":0,"target":{"layout":2},"when":{"from":1735722000,"to":1735725600}}"#,
            layouts: SHORT,
            zone: r#""offset":0"#,
            moments: "1736758800",
            lines: "1736758800 e0 l1 s1736758800 o0 r1:m1\n",
        },
        // Clocks that change.
        Case {
            campaigns: r#""#,
            dayparts: r#""#,
            events: r#"{"id":7,"order":0,"priority":0,"repeat":{"days":[],"every":1,"unit":"day","until":null},"share":0,"target":{"layout":2},"when":{"from":1735698600,"to":1735699200}}"#,
            layouts: SHORT,
            zone: r#""posix":"CET-1CEST,M3.5.0,M10.5.0/3""#,
            moments: "1743296399 1743296400 1761438600 1761439200 1761440400 1761442200",
            lines: "1743296399 e0 l1 s1743299990 o9 r1:m1\n1743296400 e0 l1 s1743303600 o0 r1:m1\n1761438600 e7 l2 s1761445800 o0 r1:m2\n1761439200 e0 l1 s1761446400 o0 r1:m1\n1761440400 e0 l1 s1761444000 o0 r1:m1\n1761442200 e7 l2 s1761445800 o0 r1:m2\n",
        },
    ];
    expect_all(&rt, rt.alloc(), &cases)
}

#[test]
fn interrupts(rt: HostRuntime) -> Result<(), Fail> {
    let cases: [Case; 9] = [
        // An interrupt of 600 seconds.
        Case {
            campaigns: r#""#,
            dayparts: r#""#,
            events: r#"{"id":1,"order":0,"priority":0,"repeat":null,"share":0,"target":{"layout":2},"when":{"always":true}},{"id":9,"order":0,"priority":0,"repeat":null,"share":600,"target":{"layout":3},"when":{"always":true}}"#,
            layouts: HOURLY,
            zone: r#""offset":0"#,
            moments: "0 60 120 150 3540",
            lines: "0 e1 l2 s0 o0 r1:m2\n60 e1 l2 s60 o0 r1:m2\n120 e9 l3 s120 o0 r1:m3\n150 e1 l2 s150 o0 r1:m2\n3540 e1 l2 s3540 o0 r1:m2\n",
        },
        // A second more.
        Case {
            campaigns: r#""#,
            dayparts: r#""#,
            events: r#"{"id":1,"order":0,"priority":0,"repeat":null,"share":0,"target":{"layout":2},"when":{"always":true}},{"id":9,"order":0,"priority":0,"repeat":null,"share":601,"target":{"layout":3},"when":{"always":true}}"#,
            layouts: HOURLY,
            zone: r#""offset":0"#,
            moments: "3599",
            lines: "3599 e1 l2 s3570 o29 r1:m2\n",
        },
        // An hour of interrupts.
        Case {
            campaigns: r#""#,
            dayparts: r#""#,
            events: r#"{"id":1,"order":0,"priority":0,"repeat":null,"share":0,"target":{"layout":2},"when":{"always":true}},{"id":9,"order":0,"priority":0,"repeat":null,"share":3599,"target":{"layout":3},"when":{"always":true}}"#,
            layouts: HOURLY,
            zone: r#""offset":0"#,
            moments: "0 3599",
            lines: "0 e9 l3 s0 o0 r1:m3\n3599 e9 l3 s3570 o29 r1:m3\n",
        },
        // A last normal play.
        Case {
            campaigns: r#""#,
            dayparts: r#""#,
            events: r#"{"id":1,"order":0,"priority":0,"repeat":null,"share":0,"target":{"layout":2},"when":{"always":true}},{"id":9,"order":0,"priority":0,"repeat":null,"share":3570,"target":{"layout":3},"when":{"always":true}}"#,
            layouts: HOURLY,
            zone: r#""offset":0"#,
            moments: "3569 3570",
            lines: "3569 e9 l3 s3540 o29 r1:m3\n3570 e1 l2 s3570 o0 r1:m2\n",
        },
        // Two interrupts in rounds.
        Case {
            campaigns: r#""#,
            dayparts: r#""#,
            events: r#"{"id":1,"order":0,"priority":0,"repeat":null,"share":0,"target":{"layout":2},"when":{"always":true}},{"id":10,"order":0,"priority":0,"repeat":null,"share":60,"target":{"layout":3},"when":{"always":true}},{"id":11,"order":0,"priority":0,"repeat":null,"share":50,"target":{"layout":4},"when":{"always":true}}"#,
            layouts: HOURLY,
            zone: r#""offset":0"#,
            moments: "660 690 1410 1429 1430 3540",
            lines: "660 e10 l3 s660 o0 r1:m3\n690 e1 l2 s690 o0 r1:m2\n1410 e11 l4 s1410 o0 r1:m4\n1429 e11 l4 s1410 o19 r1:m4\n1430 e1 l2 s1430 o0 r1:m2\n3540 e1 l2 s3540 o0 r1:m2\n",
        },
        // Interrupts that fill the hour exactly.
        Case {
            campaigns: r#""#,
            dayparts: r#""#,
            events: r#"{"id":1,"order":0,"priority":0,"repeat":null,"share":0,"target":{"layout":2},"when":{"always":true}},{"id":9,"order":0,"priority":0,"repeat":null,"share":1800,"target":{"layout":3},"when":{"always":true}},{"id":10,"order":0,"priority":0,"repeat":null,"share":1800,"target":{"layout":3},"when":{"always":true}}"#,
            layouts: HOURLY,
            zone: r#""offset":0"#,
            moments: "0 30 3570 3599",
            lines: "0 e9 l3 s0 o0 r1:m3\n30 e10 l3 s30 o0 r1:m3\n3570 e10 l3 s3570 o0 r1:m3\n3599 e10 l3 s3570 o29 r1:m3\n",
        },
        // Interrupts that leave one second.
        Case {
            campaigns: r#""#,
            dayparts: r#""#,
            events: r#"{"id":1,"order":0,"priority":0,"repeat":null,"share":0,"target":{"layout":2},"when":{"always":true}},{"id":9,"order":0,"priority":0,"repeat":null,"share":3599,"target":{"layout":5},"when":{"always":true}}"#,
            layouts: r#"{"id":1,"regions":[{"id":1,"items":[{"media":1,"seconds":10}]}]},{"id":2,"regions":[{"id":1,"items":[{"media":2,"seconds":60}]}]},{"id":5,"regions":[{"id":1,"items":[{"media":5,"seconds":59}]}]}"#,
            zone: r#""offset":0"#,
            moments: "0 3598 3599",
            lines: "0 e9 l5 s0 o0 r1:m5\n3598 e9 l5 s3540 o58 r1:m5\n3599 e1 l2 s3599 o0 r1:m2\n",
        },
        // Three interrupts of one, three and two plays.
        Case {
            campaigns: r#""#,
            dayparts: r#""#,
            events: r#"{"id":1,"order":0,"priority":0,"repeat":null,"share":0,"target":{"layout":2},"when":{"always":true}},{"id":10,"order":0,"priority":0,"repeat":null,"share":30,"target":{"layout":3},"when":{"always":true}},{"id":11,"order":0,"priority":0,"repeat":null,"share":60,"target":{"layout":4},"when":{"always":true}},{"id":12,"order":0,"priority":0,"repeat":null,"share":20,"target":{"layout":1},"when":{"always":true}}"#,
            layouts: HOURLY,
            zone: r#""offset":0"#,
            moments: "539 540 570 1170 1790 2400 3020 3570 3589 3590",
            lines: "539 e1 l2 s480 o59 r1:m2\n540 e10 l3 s540 o0 r1:m3\n570 e1 l2 s570 o0 r1:m2\n1170 e11 l4 s1170 o0 r1:m4\n1790 e12 l1 s1790 o0 r1:m1\n2400 e11 l4 s2400 o0 r1:m4\n3020 e12 l1 s3020 o0 r1:m1\n3570 e11 l4 s3570 o0 r1:m4\n3589 e11 l4 s3570 o19 r1:m4\n3590 e1 l2 s3590 o0 r1:m2\n",
        },
        // Interrupts go by id, whatever their order.
        Case {
            campaigns: r#""#,
            dayparts: r#""#,
            events: r#"{"id":1,"order":0,"priority":0,"repeat":null,"share":0,"target":{"layout":2},"when":{"always":true}},{"id":9,"order":5,"priority":0,"repeat":null,"share":1800,"target":{"layout":3},"when":{"always":true}},{"id":10,"order":0,"priority":0,"repeat":null,"share":1800,"target":{"layout":4},"when":{"always":true}}"#,
            layouts: HOURLY,
            zone: r#""offset":0"#,
            moments: "0 30 50",
            lines: "0 e9 l3 s0 o0 r1:m3\n30 e10 l4 s30 o0 r1:m4\n50 e9 l3 s50 o0 r1:m3\n",
        },
    ];
    expect_all(&rt, rt.alloc(), &cases)
}

#[test]
fn campaigns_and_regions(rt: HostRuntime) -> Result<(), Fail> {
    let cases: [Case; 2] = [
        // A campaign longer than the hour, with a layout twice.
        Case {
            campaigns: r#"{"id":1,"layouts":[6,6,7]}"#,
            dayparts: r#""#,
            events: r#"{"id":4,"order":0,"priority":0,"repeat":null,"share":0,"target":{"campaign":1},"when":{"always":true}}"#,
            layouts: r#"{"id":1,"regions":[{"id":1,"items":[{"media":1,"seconds":10}]}]},{"id":6,"regions":[{"id":1,"items":[{"media":6,"seconds":1500}]}]},{"id":7,"regions":[{"id":1,"items":[{"media":7,"seconds":1000}]}]}"#,
            zone: r#""offset":0"#,
            moments: "0 1499 1500 3000 3599 3600",
            lines: "0 e4 l6 s0 o0 r1:m6\n1499 e4 l6 s0 o1499 r1:m6\n1500 e4 l6 s1500 o0 r1:m6\n3000 e4 l7 s3000 o0 r1:m7\n3599 e4 l7 s3000 o599 r1:m7\n3600 e4 l6 s3600 o0 r1:m6\n",
        },
        // Two regions.
        Case {
            campaigns: r#""#,
            dayparts: r#""#,
            events: r#""#,
            layouts: r#"{"id":1,"regions":[{"id":1,"items":[{"media":1,"seconds":4},{"media":4,"seconds":6}]},{"id":2,"items":[{"media":2,"seconds":20},{"media":3,"seconds":5}]}]}"#,
            zone: r#""offset":0"#,
            moments: "23 24",
            lines: "23 e0 l1 s0 o23 r1:m1 r2:m3\n24 e0 l1 s0 o24 r1:m4 r2:m3\n",
        },
    ];
    expect_all(&rt, rt.alloc(), &cases)
}

// More plays than an hour has seconds: 57 events, each with a campaign of 64 layouts of a second.
#[test]
fn more_plays_than_seconds(rt: HostRuntime) -> Result<(), Fail> {
    let alloc = rt.alloc();
    let mut layouts = String::new(alloc);
    let mut ids = String::new(alloc);
    for id in 1..65u32 {
        let comma = if id > 1 { "," } else { "" };
        let layout = format!(in alloc;
            "{comma}{{\"id\":{id},\"regions\":[{{\"id\":1,\"items\":[{{\"media\":1,\"seconds\":1}}]}}]}}"
        )?;
        layouts.push_str(layout.as_str())?;
        ids.push_str(format!(in alloc; "{comma}{id}")?.as_str())?;
    }
    let mut events = String::new(alloc);
    for id in 1..58u32 {
        let comma = if id > 1 { "," } else { "" };
        let event = format!(in alloc;
            "{comma}{{\"id\":{id},\"order\":0,\"priority\":0,\"repeat\":null,\"share\":0,\"target\":{{\"campaign\":1}},\"when\":{{\"always\":true}}}}"
        )?;
        events.push_str(event.as_str())?;
    }
    let campaigns = format!(in alloc; "{{\"id\":1,\"layouts\":[{ids}]}}")?;
    let manifest = format!(in alloc;
        "{{\"campaigns\":[{campaigns}],\"dayparts\":[],\"default\":1,\"events\":[{events}],\"files\":[{FILES}],\"layouts\":[{layouts}],\"version\":1,\"zone\":{{\"offset\":0}}}}"
    )?;
    expect(
        &rt,
        alloc,
        "preview 0 63 64 3599 3600",
        source_of(alloc, manifest.as_str())?,
        MemSink::new(alloc),
        0,
        "0 e1 l1 s0 o0 r1:m1\n63 e1 l64 s63 o0 r1:m1\n64 e2 l1 s64 o0 r1:m1\n3599 e57 l16 s3599 o0 r1:m1\n3600 e1 l1 s3600 o0 r1:m1\n",
    )
}

/// A manifest of version 2 with layouts of 10, 20 and 30 seconds and these overlays: the id, the order, the priority, the
/// layout, and the local seconds from which and up to which it is shown.
fn manifest_with(
    alloc: Global,
    overlays: &[(u32, u32, u32, u32, u32, u32)],
) -> Result<String, Fail> {
    let mut events = String::new(alloc);
    for (id, order, priority, layout, from, to) in overlays {
        if !events.as_str().is_empty() {
            events.push_str(",")?;
        }
        let event = format!(in alloc;
            "{{\"id\":{id},\"layer\":1,\"order\":{order},\"priority\":{priority},\"repeat\":null,\"share\":0,\"target\":{{\"layout\":{layout}}},\"when\":{{\"from\":{from},\"to\":{to}}}}}"
        )?;
        events.push_str(event.as_str())?;
    }
    let events = events.as_str();
    Ok(format!(in alloc;
        "{{\"campaigns\":[],\"dayparts\":[],\"default\":1,\"events\":[{events}],\"files\":[{FILES}],\"layouts\":[{SHORT}],\"version\":2,\"zone\":{{\"offset\":0}}}}"
    )?)
}

#[test]
fn overlays_are_shown_above_the_picture(rt: HostRuntime) -> Result<(), Fail> {
    let alloc = rt.alloc();
    // One overlay in its time.
    let one = [(4, 0, 0, 2, 1000, 2000)];
    // Two take turns while both are active, by order before id, and fill 50 seconds together.
    let two = [(4, 1, 0, 2, 1000, 2000), (6, 0, 0, 3, 1500, 2500)];
    // The greater priority is shown alone while it is active.
    let ranked = [(4, 0, 1, 2, 1000, 2000), (6, 0, 2, 3, 1500, 1800)];
    for (overlays, words, lines) in [
        (
            one.as_slice(),
            "preview 999 1000 1999 2000",
            "999 e0 l1 s990 o9 r1:m1\n1000 e0 l1 s1000 o0 r1:m1 v4 l2 s1000 o0 r1:m2\n1999 e0 l1 s1990 o9 r1:m1 v4 l2 s1980 o19 r1:m2\n2000 e0 l1 s2000 o0 r1:m1\n",
        ),
        (
            two.as_slice(),
            "preview 1499 1500 1530 2000 2500",
            "1499 e0 l1 s1490 o9 r1:m1 v4 l2 s1480 o19 r1:m2\n1500 e0 l1 s1500 o0 r1:m1 v6 l3 s1500 o0 r1:m3\n1530 e0 l1 s1530 o0 r1:m1 v4 l2 s1530 o0 r1:m2\n2000 e0 l1 s2000 o0 r1:m1 v6 l3 s1980 o20 r1:m3\n2500 e0 l1 s2500 o0 r1:m1\n",
        ),
        (
            ranked.as_slice(),
            "preview 1499 1500 1799 1800",
            "1499 e0 l1 s1490 o9 r1:m1 v4 l2 s1480 o19 r1:m2\n1500 e0 l1 s1500 o0 r1:m1 v6 l3 s1500 o0 r1:m3\n1799 e0 l1 s1790 o9 r1:m1 v6 l3 s1770 o29 r1:m3\n1800 e0 l1 s1800 o0 r1:m1 v4 l2 s1800 o0 r1:m2\n",
        ),
    ] {
        let manifest = manifest_with(alloc, overlays)?;
        let source = source_of(alloc, manifest.as_str())?;
        expect(&rt, alloc, words, source, MemSink::new(alloc), 0, lines)?;
    }
    Ok(())
}
