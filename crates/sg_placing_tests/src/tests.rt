// Gaps and shelves by example.
ghost use Rattle.std.specs.Prelude.{◌≡◌, ◌≤◌, ◌<◌, ◌^◌, All, true};
ghost use Rattle.sg_placing.specs.Placing.{IsPlaced};

use sg_base::limits::MAX_FILE_LEN;
use sg_base::{Listed, MediaId};
use sg_disk::DATA;
use sg_placing::{Placed, Shelf, find_file, find_media, is_listed, longest_gap, lowest_gap};
use std::test::Fail;

const ROOM: u64 = 131_072;

// What a test can't go on with.
#[derive(Clone, Copy, Debug, Drop)]
struct Unmet;

// A file of so many bytes, whose first is this one of the data area.
fn file(media: u32, first: u32, length: u32) -> Placed {
    Placed {
        file: Listed {
            media: MediaId(media),
            length,
            md5: [(media & 127) as u8; 16],
        },
        place: DATA + u64::from(first),
    }
}

// Whether a file lies in the data area.
fn is_placed(placed: &Placed) -> bool
    ensures { result ≡ true → IsPlaced 131072 placed.now }
{
    let length = u64::from(placed.file.length);
    placed.file.media.0 != 0
        && length != 0
        && length <= MAX_FILE_LEN
        && length <= ROOM
        && placed.place >= DATA
        && placed.place <= DATA + ROOM - length
}

fn are_placed(files: &[Placed]) -> bool
    ensures { result ≡ true → All (IsPlaced 131072) files.now }
{
    for placed in files {
        if !is_placed(placed) {
            return false;
        }
    }
    true
}

// Whether the longest gap has so many bytes, and the lowest one for each of these needs begins there, counted from the front of
// the data area.
fn has_gaps(
    current: &[Placed],
    staged: &[Placed],
    longest: u32,
    lowest: &[(u32, Option<u64>)],
) -> Result<bool, Fail> {
    if !are_placed(current) || !are_placed(staged) {
        return Err(Unmet)?;
    }
    let mut right = longest_gap(ROOM, current, staged) == longest;
    for (need, first) in lowest {
        let found = lowest_gap(ROOM, current, staged, *need);
        right &= found.map(|place| place.saturating_sub(DATA)) == *first;
    }
    Ok(right)
}

#[test]
fn one_gap_is_found(rt: HostRuntime) -> Result<(), Fail> {
    let all = [(1, Some(0)), (131_072, Some(0)), (131_073, None)];
    assert!(rt; has_gaps(&[], &[], 131_072, &all)?, "all is free");
    let behind = [(61_072, Some(70_000)), (61_073, None)];
    assert!(rt;
        has_gaps(&[file(1, 0, 70_000)], &[], 61_072, &behind)?,
        "a gap at the end"
    );
    let before = [(131_071, Some(0)), (131_072, None)];
    assert!(rt;
        has_gaps(&[], &[file(1, 131_071, 1)], 131_071, &before)?,
        "a gap at the front"
    );
    let full = [file(2, 65_536, 65_536)];
    assert!(rt;
        has_gaps(&full, &[file(1, 0, 65_536)], 0, &[(1, None)])?,
        "nothing is free"
    );
    Ok(())
}

#[test]
fn the_lowest_gap_that_fits_is_found(rt: HostRuntime) -> Result<(), Fail> {
    // Gaps at both ends and between, of 1,000, 3,000 and 125,072 bytes.
    let lowest = [
        (1_000, Some(0)),
        (1_001, Some(2_000)),
        (3_000, Some(2_000)),
        (3_001, Some(6_000)),
        (125_072, Some(6_000)),
        (125_073, None),
    ];
    let current = [file(1, 1_000, 1_000)];
    let staged = [file(2, 5_000, 1_000)];
    assert!(rt; has_gaps(&current, &staged, 125_072, &lowest)?);
    // The files of a list may lie in any order.
    let current = [file(1, 9_000, 122_072), file(2, 0, 1_000)];
    let staged = [file(4, 6_000, 2_000), file(3, 1_000, 500)];
    let lowest = [(1_000, Some(1_500)), (4_500, Some(1_500)), (4_501, None)];
    assert!(rt; has_gaps(&current, &staged, 4_500, &lowest)?);
    Ok(())
}

#[test]
fn a_shelf_keeps_the_files_that_are_listed(rt: HostRuntime) -> Result<(), Fail> {
    let [one, two, three] = [file(1, 0, 10), file(2, 10, 10), file(3, 20, 10)];
    // The same id and length with another digest is another file.
    let other = Listed {
        md5: [9; 16],
        ..two.file
    };
    let mut shelf = Shelf::reserve(rt.alloc())?;
    shelf.push(one);
    shelf.push(two);
    shelf.push(three);
    assert_eq!(rt; find_file(shelf.as_slice(), &two.file), Some(two));
    assert_eq!(rt; find_file(shelf.as_slice(), &other), None);
    assert_eq!(rt; find_media(shelf.as_slice(), MediaId(3)), Some(three));
    assert_eq!(rt; find_media(shelf.as_slice(), MediaId(4)), None);
    assert!(rt; is_listed(&[one.file, two.file], &two.file));
    assert!(rt; !is_listed(&[one.file, two.file], &other));
    shelf.keep(&[three.file, other, one.file]);
    assert_eq!(rt; shelf.as_slice().len(), 2);
    assert_eq!(rt; find_media(shelf.as_slice(), MediaId(2)), None);
    shelf.clear();
    assert!(rt; shelf.as_slice().is_empty());
    Ok(())
}
