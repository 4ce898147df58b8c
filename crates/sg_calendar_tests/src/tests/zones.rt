//! Local seconds by the C library (`TZ=.. date -d @moment`).

use sg_base::{Moment, Rows, ZoneRule};
use sg_calendar::{Zone, ZoneFault};
use std::alloc::{AllocError, Global};
use std::test::Fail;

fn posix(alloc: Global, text: &[u8]) -> Result<ZoneRule, AllocError> {
    Ok(ZoneRule::Posix(Rows::from_vec(text.to_vec(alloc)?)))
}

// The seconds before and at each change of clocks in 2025, with zones to the east and the west, in the
// southern half of the world, with quoted names, and with changes before midnight and after the next one.
#[test]
fn zones_tell_local_seconds(rt: HostRuntime) -> Result<(), Fail> {
    let table = [
        ("CET-1CEST,M3.5.0,M10.5.0/3", 1_743_296_399, 1_743_299_999),
        ("CET-1CEST,M3.5.0,M10.5.0/3", 1_743_296_400, 1_743_303_600),
        ("CET-1CEST,M3.5.0,M10.5.0/3", 1_761_440_399, 1_761_447_599),
        ("CET-1CEST,M3.5.0,M10.5.0/3", 1_761_440_400, 1_761_444_000),
        (
            "<-03>3<-02>,M3.5.0/-2,M10.5.0/-1",
            1_743_296_399,
            1_743_285_599,
        ),
        (
            "<-03>3<-02>,M3.5.0/-2,M10.5.0/-1",
            1_743_296_400,
            1_743_289_200,
        ),
        (
            "<-03>3<-02>,M3.5.0/-2,M10.5.0/-1",
            1_761_440_399,
            1_761_433_199,
        ),
        (
            "<-03>3<-02>,M3.5.0/-2,M10.5.0/-1",
            1_761_440_400,
            1_761_429_600,
        ),
        ("IST-2IDT,M3.4.4/26,M10.5.0", 1_743_119_999, 1_743_127_199),
        ("IST-2IDT,M3.4.4/26,M10.5.0", 1_743_120_000, 1_743_130_800),
        ("IST-2IDT,M3.4.4/26,M10.5.0", 1_761_433_199, 1_761_443_999),
        ("IST-2IDT,M3.4.4/26,M10.5.0", 1_761_433_200, 1_761_440_400),
        ("AEST-10AEDT,M10.1.0,M4.1.0/3", 1_743_868_799, 1_743_908_399),
        ("AEST-10AEDT,M10.1.0,M4.1.0/3", 1_743_868_800, 1_743_904_800),
        ("AEST-10AEDT,M10.1.0,M4.1.0/3", 1_759_593_599, 1_759_629_599),
        ("AEST-10AEDT,M10.1.0,M4.1.0/3", 1_759_593_600, 1_759_633_200),
        ("<-04>4<-03>,J60/0,J300/0", 1_740_801_599, 1_740_787_199),
        ("<-04>4<-03>,J60/0,J300/0", 1_740_801_600, 1_740_790_800),
        ("<-04>4<-03>,J60/0,J300/0", 1_761_533_999, 1_761_523_199),
        ("<-04>4<-03>,J60/0,J300/0", 1_761_534_000, 1_761_519_600),
        ("<+0330>-3:30", 1_740_882_600, 1_740_895_200),
        ("UTC0", 0, 0),
        ("<+14>-14", 4_102_444_799, 4_102_495_199),
        ("<-1159>11:59:59", 0, -43_199),
    ];
    for (text, moment, local) in table {
        let zone = Zone::read(&posix(rt.alloc(), text.as_bytes())?)?;
        let moment = Moment::new(moment).ok_or("after 2099")?;
        assert_eq!(rt; zone.local(moment)?.second(), local, "{text}");
    }
    Ok(())
}

#[test]
fn zones_are_refused(rt: HostRuntime) -> Result<(), Fail> {
    let long = [b'A'; 65];
    let texts = [
        b"".as_slice(),
        b"hello".as_slice(),
        b"CET-1CEST".as_slice(),
        b"CET-25".as_slice(),
        b"CET-1CEST,M3.5.0,M10.5.0/3 ".as_slice(),
        b"CET\x7F-1".as_slice(),
        b"<C\xC3\x89T>-1".as_slice(),
        b"UTC0\n".as_slice(),
        long.as_slice(),
    ];
    for text in texts {
        let fault = Zone::read(&posix(rt.alloc(), text)?).err();
        assert_eq!(rt; fault, Some(ZoneFault::BadZone), "{text:?}");
    }
    for minutes in [-841, 841, i32::MIN, i32::MAX] {
        let fault = Zone::read(&ZoneRule::Offset(minutes)).err();
        assert_eq!(rt; fault, Some(ZoneFault::OffsetRange(minutes)));
    }
    for (minutes, local) in [(-840, -50_400), (0, 0), (840, 50_400)] {
        let moment = Moment::new(0).ok_or("after 2099")?;
        assert_eq!(rt;
            Zone::read(&ZoneRule::Offset(minutes))?
                .local(moment)?
                .second(),
            local
        );
    }
    Ok(())
}

#[test]
fn faults_of_zones_are_told(rt: HostRuntime) -> Result<(), Fail> {
    let table = [
        (
            ZoneFault::OffsetRange(841),
            "an offset of 841 minutes is more than 14 hours",
        ),
        (ZoneFault::BadZone, "the text is no POSIX time zone"),
        (ZoneFault::Memory, "out of memory"),
    ];
    for (fault, want) in table {
        let told = format!(in rt.alloc(); "{fault}")?;
        assert_eq!(rt; told.as_str(), want);
    }
    Ok(())
}
