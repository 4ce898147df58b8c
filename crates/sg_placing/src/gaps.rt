// The gaps that placed files leave in a data area.
ghost use Rattle.std.specs.Prelude.{◌≡◌, ◌⊎◌, ℕ, ◌+◌, ◌<◌, ◌≤◌, ◌++◌, All, IfSome, IfNone};
ghost use Rattle.sg_placing.specs.Placing.{end_of, IsPlaced, AreClearOf, IsFree, IsLowest, IsLongest, NoneEndsBetween};

use crate::placed::Placed;
use sg_base::limits::MAX_ROOM;
use sg_disk::DATA;

/// The front of the lowest gap that has `need` bytes, in a data area of `room` bytes with these current and staged files.
/// `None` where there is no such gap. It goes over the files at most once for each file and once more, since no file is in
/// the way twice.
pub fn lowest_gap(room: u64, current: &[Placed], staged: &[Placed], need: u32) -> Option<u64>
    requires room { room ≤ MAX_ROOM }
    requires current { All (IsPlaced room) current.now }
    requires staged { All (IsPlaced room) staged.now }
    ensures found { IfSome result (IsLowest room (current.now ++ staged.now) need) }
    ensures none { IfNone result ((q : ℕ) → IsFree room (current.now ++ staged.now) need q → ⊥) }
{
    let end = DATA + room;
    let mut place = DATA;
    while place + u64::from(need) <= end {
        let behind = past(room, current, place, need);
        let next = past(room, staged, behind, need);
        if next == place {
            return Some(place);
        }
        place = next;
    }
    None
}

// Passes the files that are in the way of `need` bytes at a place, each as it comes in the list.
fn past(room: u64, files: &[Placed], place: u64, need: u32) -> u64
    requires room { room ≤ MAX_ROOM }
    requires files { All (IsPlaced room) files.now }
    requires place { place ≤ DATA + room }
    ensures high { result ≤ DATA + room }
    ensures behind { place ≤ result }
    ensures none_between { (q : ℕ) → place ≤ q → AreClearOf files.now need q → result ≤ q }
    ensures clear { result ≡ place → AreClearOf files.now need place }
{
    let mut at = place;
    for file in files {
        let end = file.end(room);
        if file.place < at + u64::from(need) && at < end {
            at = end;
        }
    }
    at
}

/// The length of the longest gap in a data area of `room` bytes with these current and staged files, 0 where there is none.
/// Each gap begins at the front of the area or behind a file, so it goes over the files once for each file and once more.
pub fn longest_gap(room: u64, current: &[Placed], staged: &[Placed]) -> u32
    requires room { room ≤ MAX_ROOM }
    requires current { All (IsPlaced room) current.now }
    requires staged { All (IsPlaced room) staged.now }
    ensures { IsLongest room (current.now ++ staged.now) result }
{
    let first = gap_at(room, current, staged, DATA);
    let second = longest_behind(room, current, current, staged, first);
    longest_behind(room, staged, current, staged, second)
}

// The longest of the gaps behind these files, or the one that was found before.
fn longest_behind(
    room: u64,
    files: &[Placed],
    current: &[Placed],
    staged: &[Placed],
    before: u32,
) -> u32
    requires room { room ≤ MAX_ROOM }
    requires files { All (IsPlaced room) files.now }
    requires current { All (IsPlaced room) current.now }
    requires staged { All (IsPlaced room) staged.now }
    ensures found { (result ≡ before) ⊎ ((place : ℕ)
        × IsFree room (current.now ++ staged.now) result place) }
    ensures more { before ≤ result }
    ensures most { All (λ p. (n q : ℕ) → end_of p ≤ q
        → NoneEndsBetween (current.now ++ staged.now) (end_of p) q
        → IsFree room (current.now ++ staged.now) n q → n ≤ result) files.now }
{
    let mut longest = before;
    for file in files {
        longest = longest.max(gap_at(room, current, staged, file.end(room)));
    }
    longest
}

// How many bytes are free from a place on.
fn gap_at(room: u64, current: &[Placed], staged: &[Placed], place: u64) -> u32
    requires room { room ≤ MAX_ROOM }
    requires current { All (IsPlaced room) current.now }
    requires staged { All (IsPlaced room) staged.now }
    requires low { DATA ≤ place }
    requires high { place ≤ DATA + room }
    ensures found { 0 < result → IsFree room (current.now ++ staged.now) result place }
    ensures most { (n q : ℕ) → place ≤ q → NoneEndsBetween (current.now ++ staged.now) place q
        → IsFree room (current.now ++ staged.now) n q → n ≤ result }
{
    let limit = first_behind(room, current, place, DATA + room);
    let end = first_behind(room, staged, place, limit);
    end.saturating_sub(place) as u32
}

// The least of a limit and the places of the files that end behind a place.
fn first_behind(room: u64, files: &[Placed], place: u64, limit: u64) -> u64
    requires room { room ≤ MAX_ROOM }
    requires files { All (IsPlaced room) files.now }
    ensures within { result ≤ limit }
    ensures clear { (n : ℕ) → place + n ≤ result → AreClearOf files.now n place }
    ensures most { (n q : ℕ) → q + n ≤ limit → NoneEndsBetween files.now place q
        → AreClearOf files.now n q → q + n ≤ result }
{
    let mut least = limit;
    for file in files {
        if place < file.end(room) {
            least = least.min(file.place);
        }
    }
    least
}
