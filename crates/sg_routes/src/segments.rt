//! The segments of a path.

ghost use Rattle.std.specs.Prelude.{◌≡◌, ◌<◌, ◌≤◌, length, count_by, position, IfSome};
ghost use Rattle.std.specs.List.{before_first, after_first};
ghost use Rattle.sg_routes.specs.Paths.{fits, fits_one, is_slash, segment, segments};

/// How many segments a path has, the one before its first slash included.
pub fn segment_count(path: &[u8]) -> usize
    ensures { result ≡ length (segments path.now) }
{
    slash_count(path) + 1
}

fn slash_count(path: &[u8]) -> usize
    ensures count { result ≡ count_by is_slash path.now }
    ensures bound { result ≤ length path.now }
{
    path.iter().filter(|byte| **byte == b'/').count()
}

/// A segment of a path, counted from 0; none where there are fewer.
#[tactic(auto, using(crate::proofs::SegmentLemmas::segment_step, crate::proofs::SegmentLemmas::front_segment))]
pub fn segment(path: &[u8], index: usize) -> &[u8]
    ensures { result.now ≡ segment index (segments path.now) }
{
    let mut rest = path;
    for _i in 0..index {
        rest = behind(rest);
    }
    front(rest)
}

// What stands before the first slash.
fn front(path: &[u8]) -> &[u8]
    ensures { result.now ≡ before_first is_slash path.now }
{
    match first_slash(path) {
        None => path,
        Some(place) => &path[..place],
    }
}

// What stands behind the first slash; nothing where there is none.
fn behind(path: &[u8]) -> &[u8]
    ensures { result.now ≡ after_first is_slash path.now }
{
    match first_slash(path) {
        None => &[],
        Some(place) => &path[place + 1..],
    }
}

fn first_slash(path: &[u8]) -> Option<usize>
    ensures place { result ≡ position is_slash path.now }
    ensures bound { IfSome result (λ place. place < length path.now) }
{
    path.iter().position(|byte| *byte == b'/')
}

/// Whether a path fits a pattern, segment by segment.
#[tactic(auto, using(crate::proofs::SegmentLemmas::fits_step, crate::proofs::SegmentLemmas::fits_length))]
pub fn fits(pattern: &[u8], path: &[u8]) -> bool
    ensures { result ≡ fits (segments pattern.now) (segments path.now) }
{
    let count = segment_count(pattern);
    if segment_count(path) != count {
        return false;
    }
    for index in 0..count {
        if !fits_one(segment(pattern, index), segment(path, index)) {
            return false;
        }
    }
    true
}

// Whether a segment fits that of a pattern: a word is itself, and a parameter anything but nothing.
fn fits_one(pattern: &[u8], segment: &[u8]) -> bool
    ensures { result ≡ fits_one pattern.now segment.now }
{
    if pattern == b"{}".as_slice() {
        !segment.is_empty()
    } else {
        segment == pattern
    }
}
