// The plays of short lives, by the rules for slots, the clock and the end of the input.
ghost use Rattle.sg_playing.specs.Plays.{IsNamed};

use sg_base::{LocalSec, Moment, PlayBody};
use sg_playing::{Playing, Rounds, ShownSlot};
use std::alloc::{AllocError, Global};
use std::process::Abort;
use std::test::Fail;

// A turn: its moment, and the switch number, the event, the layout and the begin of the slot that it shows.
type Row = (u32, Option<(u32, u32, u32, i64)>);

// A play: its event, its layout, and its two moments.
type Play = (u32, u32, u32, u32);

struct Case {
    what: &'static str,
    turns: &'static [Row],
    plays: &'static [Play],
}

const CASES: [Case; 9] = [
    Case {
        what: "a life without a turn",
        turns: &[],
        plays: &[],
    },
    Case {
        what: "nothing is shown",
        turns: &[(0, None), (5, None)],
        plays: &[],
    },
    Case {
        what: "a slot of 10 seconds, the next one, and a clock that goes back",
        turns: &[
            (0, Some((1, 0, 1, 0))),
            (5, Some((1, 0, 1, 0))),
            (10, Some((1, 0, 1, 10))),
            (3, Some((1, 0, 1, 0))),
        ],
        plays: &[(0, 1, 0, 10)],
    },
    Case {
        what: "the input ends at 5",
        turns: &[(0, Some((1, 0, 1, 0))), (5, Some((1, 0, 1, 0)))],
        plays: &[(0, 1, 0, 5)],
    },
    Case {
        what: "the clock goes back in one slot, which then goes on",
        turns: &[
            (100, Some((1, 4, 2, 90))),
            (120, Some((1, 4, 2, 90))),
            (110, Some((1, 4, 2, 90))),
            (130, Some((1, 4, 2, 90))),
        ],
        plays: &[(4, 2, 100, 120), (4, 2, 110, 130)],
    },
    Case {
        what: "the same slot of the next snapshot is another one",
        turns: &[
            (10, Some((1, 0, 1, 10))),
            (15, Some((2, 0, 1, 10))),
            (20, Some((2, 0, 1, 20))),
        ],
        plays: &[(0, 1, 10, 15), (0, 1, 15, 20)],
    },
    Case {
        what: "another event, another layout, another begin, each at once",
        turns: &[
            (10, Some((1, 1, 1, 0))),
            (11, Some((1, 2, 1, 0))),
            (12, Some((1, 2, 3, 0))),
            (13, Some((1, 2, 3, -1))),
        ],
        plays: &[(1, 1, 10, 11), (2, 1, 11, 12), (2, 3, 12, 13)],
    },
    Case {
        what: "a play without a second isn't recorded",
        turns: &[
            (10, Some((1, 1, 1, 0))),
            (10, Some((1, 2, 2, 0))),
            (12, Some((1, 3, 3, 0))),
        ],
        plays: &[(2, 2, 10, 12)],
    },
    Case {
        what: "a play ends where nothing is shown",
        turns: &[
            (10, Some((1, 1, 1, 0))),
            (14, None),
            (20, Some((1, 1, 1, 0))),
            (21, Some((1, 1, 1, 0))),
        ],
        plays: &[(1, 1, 10, 14), (1, 1, 20, 21)],
    },
];

fn play_of(body: PlayBody) -> Play {
    (
        body.event,
        body.layout,
        body.from.seconds(),
        body.to.seconds(),
    )
}

// The slot of a row, if it has one.
fn slot_of(row: &Option<(u32, u32, u32, i64)>) -> Option<ShownSlot>
    ensures { IsNamed result }
{
    match row {
        Some((number, event, layout, start)) => Some(ShownSlot {
            number: *number,
            event: *event,
            layout: (*layout).max(1),
            start: LocalSec::new(*start),
        }),
        None => None,
    }
}

fn plays_of(alloc: Global, turns: &[Row]) -> Result<Vec<Play>, AllocError> {
    let mut playing = Playing::new();
    let mut plays = Vec::new(alloc);
    for (second, row) in turns {
        let Some(moment) = Moment::new(*second) else {
            return Ok(plays);
        };
        if let Some(body) = playing.show(moment, &slot_of(row)) {
            plays.push(play_of(body))?;
        }
    }
    if let Some(body) = playing.close() {
        plays.push(play_of(body))?;
    }
    Ok(plays)
}

fn expect_plays(rt: &impl Abort, alloc: Global, case: &Case) -> Result<(), Fail> {
    let plays = plays_of(alloc, case.turns)?;
    assert_eq!(rt; plays.as_slice(), case.plays, "{}", case.what);
    Ok(())
}

#[test]
fn each_life_has_its_plays(rt: HostRuntime) -> Result<(), Fail> {
    for case in &CASES {
        expect_plays(&rt, rt.alloc(), case)?;
    }
    Ok(())
}

// How many turns it is from one that syncs to the next, and which of the first seven sync.
const ROUNDS: [(u32, [bool; 7]); 4] = [
    (0, [false; 7]),
    (1, [true; 7]),
    (3, [true, false, false, true, false, false, true]),
    (
        4_294_967_295,
        [true, false, false, false, false, false, false],
    ),
];

#[test]
fn the_first_turn_syncs_and_then_each_after_so_many(rt: HostRuntime) {
    for (every, syncs) in &ROUNDS {
        let mut rounds = Rounds::new(*every);
        for wanted in syncs {
            assert_eq!(rt; rounds.turn(), *wanted, "every {every}");
        }
    }
}
