// The search for the end of a head, which goes on where it stopped.
ghost use Rattle.std.specs.Prelude.{◌≡◌, ℕ, ◌<◌, ◌≤◌, true, false, List, ◌++◌, length};
ghost use Rattle.sg_http.specs.Search.{BeginsWith, Searches, end_from};

/// How far a search for the end of a head came. It holds for every longer stream.
#[derive(Clone, Copy, Debug, PartialEq, Eq)]
pub struct Progress {
    /// The bytes before this place needn't be looked at again.
    pub at: usize,
    /// A byte of the head that is neither CR nor LF came before this place.
    pub begun: bool,
}

/// Nothing was looked at.
pub const START: Progress = Progress {
    at: 0,
    begun: false,
};

// What bytes begin with.
pub(crate) enum Line {
    // A line's end and an empty line, of so many bytes together.
    Empty(usize),
    // A byte that begins no empty line.
    Full,
    // Too few bytes to tell.
    Open,
}

// What a search found.
pub(crate) enum Search {
    // The end of the empty line.
    Ended(usize),
    // None yet.
    GoesOn(Progress),
}

/// Searches for the end of the head, from where an earlier search of a front of these bytes came to.
pub(crate) fn find_head_end(bytes: &[u8], from: Progress) -> Search
    requires { from.at ≤ length bytes.now }
    ensures { Searches bytes.now from.begun from.at result }
{
    if from.begun {
        return find_empty_line(bytes, from.at);
    }
    let at = skip_newlines(bytes, from.at);
    if at == bytes.len() {
        return Search::GoesOn(Progress { at, begun: false });
    }
    find_empty_line(bytes, at)
}

/// Searches for the first empty line from a place on.
pub(crate) fn find_empty_line(bytes: &[u8], from: usize) -> Search
    requires { from ≤ length bytes.now }
    ensures { Searches bytes.now true from result }
{
    for at in from..bytes.len() {
        match line_at(&bytes[at..]) {
            Line::Empty(count) => return Search::Ended(at + count),
            Line::Full => {}
            Line::Open => return Search::GoesOn(Progress { at, begun: true }),
        }
    }
    Search::GoesOn(Progress {
        at: bytes.len(),
        begun: true,
    })
}

fn line_at(bytes: &[u8]) -> Line
    ensures { BeginsWith bytes.now result }
{
    if bytes.is_empty() {
        return Line::Open;
    }
    if bytes[0] != b'\n' {
        return Line::Full;
    }
    if bytes.len() < 2 {
        return Line::Open;
    }
    if bytes[1] == b'\n' {
        return Line::Empty(2);
    }
    if bytes[1] != b'\r' {
        return Line::Full;
    }
    if bytes.len() < 3 {
        return Line::Open;
    }
    if bytes[2] == b'\n' {
        Line::Empty(3)
    } else {
        Line::Full
    }
}

// The place of the first byte from `from` on that is neither CR nor LF, or the end.
fn skip_newlines(bytes: &[u8], from: usize) -> usize
    requires { from ≤ length bytes.now }
    ensures within { result ≤ length bytes.now }
    ensures passed { (more : List ℕ) →
        end_from false from (bytes.now ++ more) ≡ end_from false result (bytes.now ++ more) }
    ensures begun { result < length bytes.now → (more : List ℕ) →
        end_from false result (bytes.now ++ more) ≡ end_from true result (bytes.now ++ more) }
{
    for at in from..bytes.len() {
        if bytes[at] != b'\r' && bytes[at] != b'\n' {
            return at;
        }
    }
    bytes.len()
}
