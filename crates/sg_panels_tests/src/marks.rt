// Which screens are marked, which spares take their places, and the lines that tell it.
use crate::shelf::{disk, live, paint, screen, screens};
use sg_base::MediaId;
use sg_disk::Fuse;
use sg_outside::MemSink;
use sg_panels::PaintFault;
use std::alloc::Global;
use std::process::Abort;
use std::test::Fail;

// The calls of a panel by number: 1 clears it, 2 to 4 show the first region, and 5 to 7 the second.
struct Case {
    what: &'static str,
    panels: [&'static [u64]; 2],
    spares: [&'static [u64]; 2],
    lines: &'static str,
    live: [bool; 2],
    spare: [bool; 2],
}

const CASES: [Case; 7] = [
    Case {
        what: "no call fails",
        panels: [&[], &[]],
        spares: [&[], &[]],
        lines: "",
        live: [true, true],
        spare: [true, true],
    },
    Case {
        what: "the second panel fails its second bytes, and the first spare takes its place",
        panels: [&[], &[6]],
        spares: [&[], &[]],
        lines: "panel 2 dropped\npanel 2 replaced\n",
        live: [true, true],
        spare: [false, true],
    },
    Case {
        what: "the first spare fails its first begin, the second one shows the picture",
        panels: [&[], &[6]],
        spares: [&[2], &[]],
        lines: "panel 2 dropped\npanel 2 dropped\npanel 2 replaced\n",
        live: [true, true],
        spare: [false, false],
    },
    Case {
        what: "both spares fail",
        panels: [&[1], &[]],
        spares: [&[1], &[7]],
        lines: "panel 1 dropped\npanel 1 dropped\npanel 1 dropped\n",
        live: [false, true],
        spare: [false, false],
    },
    Case {
        what: "both panels fail, each is replaced by the next spare",
        panels: [&[4], &[5]],
        spares: [&[], &[]],
        lines: "panel 1 dropped\npanel 1 replaced\npanel 2 dropped\npanel 2 replaced\n",
        live: [true, true],
        spare: [false, false],
    },
    Case {
        what: "the first takes both spares, so none is left for the second",
        panels: [&[3], &[3]],
        spares: [&[3], &[]],
        lines: "panel 1 dropped\npanel 1 dropped\npanel 1 replaced\npanel 2 dropped\n",
        live: [true, false],
        spare: [false, false],
    },
    Case {
        what: "every screen fails",
        panels: [&[1], &[1]],
        spares: [&[1], &[1]],
        lines: "panel 1 dropped\npanel 1 dropped\npanel 1 dropped\npanel 2 dropped\n",
        live: [false, false],
        spare: [false, false],
    },
];

const PICTURE: [(u32, MediaId); 2] = [(1, MediaId(1)), (2, MediaId(3))];

#[test]
fn spares_take_the_places_of_screens_that_fail(rt: HostRuntime) -> Result<(), Fail> {
    let alloc = rt.alloc();
    for case in &CASES {
        paints(&rt, alloc, case)?;
    }
    Ok(())
}

fn paints(rt: &impl Abort, alloc: Global, case: &Case) -> Result<(), Fail> {
    let mut disk = disk(alloc)?;
    let mut panels = screens(alloc, &case.panels)?;
    let mut spares = screens(alloc, &case.spares)?;
    let mut out = MemSink::new(alloc);
    let painted = paint(
        alloc,
        &mut panels,
        &mut spares,
        &PICTURE,
        &mut disk,
        &mut out,
    )?;
    assert_eq!(rt; painted, Ok(()), "{}", case.what);
    assert_eq!(rt; out.bytes(), case.lines.as_bytes(), "{}", case.what);
    let panels = live(alloc, panels.as_slice())?;
    assert_eq!(rt; panels.as_slice(), case.live.as_slice(), "{}", case.what);
    let spares = live(alloc, spares.as_slice())?;
    assert_eq!(rt; spares.as_slice(), case.spare.as_slice(), "{}", case.what);
    Ok(())
}

#[test]
fn a_marked_screen_is_called_no_more(rt: HostRuntime) -> Result<(), Fail> {
    let alloc = rt.alloc();
    let mut disk = disk(alloc)?;
    let mut panels = Vec::new(alloc);
    // Were it called again, its seventh call would pass, and it would be live.
    panels.push(screen(alloc, &[6])?)?;
    let mut spares = Vec::new(alloc);
    let mut out = MemSink::new(alloc);
    for _ in 0..3 {
        let painted = paint(
            alloc,
            &mut panels,
            &mut spares,
            &PICTURE,
            &mut disk,
            &mut out,
        )?;
        assert_eq!(rt; painted, Ok(()));
    }
    assert_eq!(rt; out.bytes(), b"panel 1 dropped\n".as_slice());
    Ok(())
}

#[test]
fn a_disk_that_fails_ends_the_painting(rt: HostRuntime) -> Result<(), Fail> {
    let alloc = rt.alloc();
    let mut disk = disk(alloc)?;
    let mut panels = screens(alloc, &[&[1], &[]])?;
    let mut spares = Vec::new(alloc);
    let mut out = MemSink::new(alloc);
    // The call for the length passes, and so does the first read of the second panel.
    disk.set_fuse(Fuse::Fault(2));
    let painted = paint(
        alloc,
        &mut panels,
        &mut spares,
        &PICTURE,
        &mut disk,
        &mut out,
    )?;
    assert_eq!(rt; painted, Err(PaintFault::Disk));
    assert_eq!(rt; out.bytes(), b"panel 1 dropped\n".as_slice());
    Ok(())
}

#[test]
fn a_sink_that_fails_ends_the_painting(rt: HostRuntime) -> Result<(), Fail> {
    let alloc = rt.alloc();
    let mut disk = disk(alloc)?;
    let mut panels = screens(alloc, &[&[2]])?;
    let mut spares = Vec::new(alloc);
    let mut out = MemSink::new(alloc).with_failing(vec![in alloc; 1]?);
    let painted = paint(
        alloc,
        &mut panels,
        &mut spares,
        &PICTURE,
        &mut disk,
        &mut out,
    )?;
    assert_eq!(rt; painted, Err(PaintFault::Write));
    assert_eq!(rt; out.bytes(), b"".as_slice());
    Ok(())
}
