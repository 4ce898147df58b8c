// Which pieces are missing, and which is asked for, by the rules for cut replies and for parts of files that are staged.
ghost use Rattle.std.specs.Prelude.{◌≤◌, All, nat_le};
ghost use Rattle.sg_base.specs.declared.file.Listed.{Listed};
ghost use Rattle.sg_missing.specs.Missing.{AreFiles};

use sg_base::{Listed, MediaId};
use sg_missing::{Staging, Wanted, count_missing, keeps_part, next_piece};
use std::process::Abort;

// A store that has each file up to an id whole, and a part of another.
#[derive(Drop)]
struct Store {
    whole: u32,
    part: Option<(Listed, u32)>,
}

impl Staging for Store {
    ghost holds = { λ s f. nat_le f.media.0 s.whole };

    ghost part = { λ s. s.part };

    fn held(&self, file: &Listed) -> bool {
        file.media.0 <= self.whole
    }

    fn staged(&self) -> Option<(Listed, u32)> {
        self.part
    }
}

// A medium of 70,000 bytes and one of 65,536.
const FIRST: Listed = Listed {
    media: MediaId(1),
    length: 70_000,
    md5: [1; 16],
};

const SECOND: Listed = Listed {
    media: MediaId(2),
    length: 65_536,
    md5: [2; 16],
};

struct Case {
    what: &'static str,
    whole: u32,
    part: Option<(Listed, u32)>,
    missing: u32,
    next: Option<(u32, u32, u32)>,
    kept: bool,
}

const CASES: [Case; 8] = [
    Case {
        what: "a first sync",
        whole: 0,
        part: None,
        missing: 3,
        next: Some((1, 0, 65_536)),
        kept: false,
    },
    Case {
        what: "the first reply was cut in its body",
        whole: 0,
        part: Some((FIRST, 1_000)),
        missing: 3,
        next: Some((1, 1_000, 64_536)),
        kept: true,
    },
    Case {
        what: "its first piece is whole",
        whole: 0,
        part: Some((FIRST, 65_536)),
        missing: 2,
        next: Some((1, 65_536, 4_464)),
        kept: true,
    },
    Case {
        what: "all but its last byte",
        whole: 0,
        part: Some((FIRST, 69_999)),
        missing: 2,
        next: Some((1, 69_999, 1)),
        kept: true,
    },
    Case {
        what: "the first is whole",
        whole: 1,
        part: None,
        missing: 1,
        next: Some((2, 0, 65_536)),
        kept: false,
    },
    Case {
        what: "both are whole",
        whole: 2,
        part: None,
        missing: 0,
        next: None,
        kept: false,
    },
    Case {
        what: "a part of the second, where the first is missing",
        whole: 0,
        part: Some((SECOND, 1_000)),
        missing: 3,
        next: Some((1, 0, 65_536)),
        kept: false,
    },
    Case {
        what: "a part of a file that isn't listed any more",
        whole: 0,
        part: Some((
            Listed {
                media: MediaId(1),
                length: 70_000,
                md5: [3; 16],
            },
            1_000,
        )),
        missing: 3,
        next: Some((1, 0, 65_536)),
        kept: false,
    },
];

// The two media, by their ids.
fn files() -> [Listed; 2]
    ensures files { AreFiles result }
    ensures short { All (λ (f : Listed). f.length ≤ 67108864) result }
{
    [FIRST, SECOND]
}

// The medium, the place and the length of a piece.
fn piece_of(wanted: Option<Wanted>) -> Option<(u32, u32, u32)> {
    match wanted {
        Some(wanted) => Some((wanted.file.media.0, wanted.at, wanted.count)),
        None => None,
    }
}

fn expect_pieces(rt: &impl Abort, case: &Case) {
    if let Some((file, count)) = &case.part {
        assert!(rt; *count < file.length, "{}", case.what);
    }
    let store = Store {
        whole: case.whole,
        part: case.part,
    };
    let files = files();
    assert_eq!(rt;
        count_missing(&files, &store),
        case.missing,
        "{}",
        case.what
    );
    assert_eq!(rt;
        piece_of(next_piece(&files, &store)),
        case.next,
        "{}",
        case.what
    );
    assert_eq!(rt; keeps_part(&files, &store), case.kept, "{}", case.what);
}

#[test]
fn each_state_of_a_sync_has_its_next_piece(rt: HostRuntime) {
    for case in &CASES {
        expect_pieces(&rt, case);
    }
}
