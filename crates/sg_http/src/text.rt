// Small readings of bytes: numbers, names and blanks.
ghost use Rattle.std.specs.Prelude.{◌≡◌, ◌+◌, ◌≤◌, ◌<◌, ◌^◌, min, if◌then◌else◌, Some, None, reverse, codes};
ghost use Rattle.std.specs.Str.{str_eq_ignore_ascii_case};
ghost use Rattle.std.specs.Str.Parse.{digits_value};
ghost use Rattle.httparse.specs.Grammar.{is_ows, skip_ows, trim_ows};
ghost use Rattle.sg_http.specs.Fields.{is_number, asks_to_close};

/// The number that digits write, or `most` where it is more. `None` where they aren't digits alone, or there are none.
pub fn number(value: &[u8], most: u64) -> Option<u64>
    requires { most ≤ 2 ^ 40 }
    ensures { result ≡
        (if is_number value.now then Some (min (digits_value 10 value.now) most) else None) }
{
    if value.is_empty() {
        return None;
    }
    let mut n = 0u64;
    for i in 0..value.len() {
        if !value[i].is_ascii_digit() {
            return None;
        }
        n = (n * 10 + u64::from(value[i] - b'0')).min(most);
    }
    Some(n)
}

/// Whether two names are one, compared without case.
pub(crate) fn is_same_name(name: &[u8], other: &[u8]) -> bool
    ensures { result ≡ str_eq_ignore_ascii_case name.now other.now }
{
    name.eq_ignore_ascii_case(other)
}

/// Whether one of the parts of a value between commas is `close`.
pub(crate) fn asks_to_close(value: &[u8]) -> bool
    ensures { result ≡ asks_to_close value.now }
{
    value.split(|b| *b == b',').any(|part| is_close(part))
}

#[tactic(auto, unfolding(httparse::specs::Grammar::trim_ows))]
fn is_close(part: &[u8]) -> bool
    ensures { result ≡ str_eq_ignore_ascii_case (trim_ows part.now) (codes "close") }
{
    is_same_name(trim_end(trim_start(part)), b"close")
}

fn trim_start(part: &[u8]) -> &[u8]
    ensures { result.now ≡ skip_ows part.now }
{
    for i in 0..part.len() {
        if !is_blank(part[i]) {
            return &part[i..];
        }
    }
    &part[part.len()..]
}

fn trim_end(part: &[u8]) -> &[u8]
    ensures { result.now ≡ reverse (skip_ows (reverse part.now)) }
{
    let mut end = part.len();
    while end > 0 && is_blank(part[end - 1]) {
        end -= 1;
    }
    &part[..end]
}

fn is_blank(b: u8) -> bool
    ensures { result ≡ is_ows b }
{
    b == b' ' || b == b'\t'
}
