// Worked hours: what is expected was worked out by hand. One loop is built again and again.
use sg_voice::{Interrupt, Loop, Play, Slot, build_loop, seconds_of, slot_at};

const MINUTE: Play = Play {
    event: 1,
    layout: 2,
    seconds: 60,
};

fn slot(event: u32, layout: u32, place: u32, seconds: u32) -> Slot {
    Slot {
        event,
        layout,
        place,
        seconds,
    }
}

#[test]
fn one_interrupt_has_its_share(rt: HostRuntime) -> Result<(), std::alloc::AllocError> {
    let mut hour = Loop::reserve(rt.alloc())?;
    let rows = [
        (600, 0, slot(1, 2, 0, 60)),
        (600, 60, slot(1, 2, 60, 60)),
        (600, 120, slot(9, 3, 120, 30)),
        (600, 150, slot(1, 2, 150, 60)),
        (600, 3540, slot(1, 2, 3540, 60)),
        (601, 3599, slot(1, 2, 3570, 30)),
        (3599, 0, slot(9, 3, 0, 30)),
        (3570, 3569, slot(9, 3, 3540, 30)),
        (3570, 3570, slot(1, 2, 3570, 30)),
    ];
    for (share, p, want) in rows {
        assert!(rt; 0 < share && share <= 3600 && p < 3600);
        let interrupt = Interrupt {
            event: 9,
            layout: 3,
            seconds: 30,
            share,
        };
        build_loop(&[MINUTE], &[interrupt], &mut hour);
        assert_eq!(rt; slot_at(&hour, p), want, "share {share} at {p}");
    }
    Ok(())
}

#[test]
fn interrupts_play_in_rounds(rt: HostRuntime) -> Result<(), std::alloc::AllocError> {
    let mut hour = Loop::reserve(rt.alloc())?;
    let interrupts = [
        Interrupt {
            event: 10,
            layout: 3,
            seconds: 30,
            share: 60,
        },
        Interrupt {
            event: 11,
            layout: 4,
            seconds: 20,
            share: 50,
        },
    ];
    build_loop(&[MINUTE], &interrupts, &mut hour);
    let rows = [
        (660, slot(10, 3, 660, 30)),
        (690, slot(1, 2, 690, 60)),
        (1410, slot(11, 4, 1410, 20)),
        (1429, slot(11, 4, 1410, 20)),
        (1430, slot(1, 2, 1430, 60)),
        (3540, slot(1, 2, 3540, 60)),
    ];
    for (p, want) in rows {
        assert!(rt; p < 3600);
        assert_eq!(rt; slot_at(&hour, p), want, "at {p}");
    }
    assert_eq!(rt; seconds_of(&hour, 10), 60);
    assert_eq!(rt; seconds_of(&hour, 11), 60);
    Ok(())
}

#[test]
fn interrupts_fill_the_hour(rt: HostRuntime) -> Result<(), std::alloc::AllocError> {
    let mut hour = Loop::reserve(rt.alloc())?;
    // the share that each of two interrupts asks for, and what each of them and the normal play get
    let rows = [
        (600, 600, 2400),
        (1770, 1770, 60),
        (1800, 1800, 0),
        (3600, 1800, 0),
    ];
    for (share, want, rest) in rows {
        assert!(rt; 0 < share && share <= 3600);
        let first = Interrupt {
            event: 9,
            layout: 3,
            seconds: 30,
            share,
        };
        let second = Interrupt { event: 10, ..first };
        build_loop(&[MINUTE], &[first, second], &mut hour);
        assert_eq!(rt; seconds_of(&hour, 9), want, "share {share}");
        assert_eq!(rt; seconds_of(&hour, 10), want, "share {share}");
        assert_eq!(rt; seconds_of(&hour, 1), rest, "share {share}");
    }
    Ok(())
}

#[test]
fn normal_plays_come_in_turn(rt: HostRuntime) -> Result<(), std::alloc::AllocError> {
    let mut hour = Loop::reserve(rt.alloc())?;
    let first = Play {
        event: 1,
        layout: 2,
        seconds: 20,
    };
    let second = Play {
        event: 2,
        layout: 3,
        seconds: 30,
    };
    build_loop(&[first, second], &[], &mut hour);
    let rows = [
        (0, slot(1, 2, 0, 20)),
        (20, slot(2, 3, 20, 30)),
        (50, slot(1, 2, 50, 20)),
        (3599, slot(2, 3, 3570, 30)),
    ];
    for (p, want) in rows {
        assert!(rt; p < 3600);
        assert_eq!(rt; slot_at(&hour, p), want, "at {p}");
    }
    Ok(())
}

#[test]
fn a_long_list_is_cut(rt: HostRuntime) -> Result<(), std::alloc::AllocError> {
    let mut hour = Loop::reserve(rt.alloc())?;
    let first = Play {
        event: 1,
        layout: 2,
        seconds: 2000,
    };
    let second = Play {
        event: 2,
        layout: 3,
        seconds: 1700,
    };
    let never = Play {
        event: 3,
        layout: 4,
        seconds: 10,
    };
    build_loop(&[first, second, never], &[], &mut hour);
    assert_eq!(rt; slot_at(&hour, 1999), slot(1, 2, 0, 2000));
    assert_eq!(rt; slot_at(&hour, 2000), slot(2, 3, 2000, 1600));
    assert_eq!(rt; slot_at(&hour, 3599), slot(2, 3, 2000, 1600));
    assert_eq!(rt; seconds_of(&hour, 3), 0);
    Ok(())
}
