// Clocks: moments that come in their order, calls that fail, and the clock of the machine.
use sg_base::Moment;
use sg_devices::{Clock, ClockFailed, MemClock, SystemClock};
use std::test::Fail;

/// The moment at this second, which is one.
fn moment(second: u32) -> Result<Moment, Fail> {
    match Moment::new(second) {
        Some(moment) => Ok(moment),
        None => Err(Fail::new("no moment")),
    }
}

#[test]
fn moments_come_in_their_order_and_then_no_more(rt: HostRuntime) -> Result<(), Fail> {
    let alloc = rt.alloc();
    // The last moment of all, and one before it: a clock may go back.
    let coming = vec![in alloc; moment(4_102_444_799)?, moment(0)?]?;
    let mut clock = MemClock::new(alloc, coming);
    assert_eq!(rt; clock.now()?.seconds(), 4_102_444_799);
    assert_eq!(rt; clock.now()?.seconds(), 0);
    assert_eq!(rt; clock.faults(), 0);
    assert_eq!(rt; clock.now(), Err(ClockFailed));
    assert_eq!(rt; clock.now(), Err(ClockFailed));
    assert_eq!(rt; clock.faults(), 2);
    Ok(())
}

#[test]
fn a_call_that_fails_loses_no_moment(rt: HostRuntime) -> Result<(), Fail> {
    let alloc = rt.alloc();
    let coming = vec![in alloc; moment(10)?, moment(20)?]?;
    let mut clock = MemClock::new(alloc, coming).with_failing(vec![in alloc; 2]?);
    assert_eq!(rt; clock.now()?.seconds(), 10);
    assert_eq!(rt; clock.now(), Err(ClockFailed));
    assert_eq!(rt; clock.now()?.seconds(), 20);
    assert_eq!(rt; clock.faults(), 1);
    assert_eq!(rt; ClockFailed.to_string(alloc)?.as_str(), "the clock failed");
    Ok(())
}

#[test]
fn the_clock_of_the_machine_gives_moments(rt: HostRuntime) -> Result<(), Fail> {
    let mut clock = SystemClock::new(rt.clone()?);
    // 2024-01-01, before this was written.
    assert!(rt; clock.now()?.seconds() > 1_704_067_200);
    assert_eq!(rt; clock.faults(), 0);
    Ok(())
}
