// Numbers in the bodies of replies.
ghost use Rattle.std.specs.Prelude.{◌≡◌, ◌≢◌, ℕ, ◌<◌, ◌≤◌, ◌^◌, ◌++◌, MatchOption, codes, decimal};
ghost use Rattle.sg_exchange.specs.Ends.{Names, number_text};

use itoa::Buffer;

// The number from `low` to `high` whose text the bytes are, after `before` and with a closing brace.
pub(crate) fn number_named(bytes: &[u8], before: &[u8], low: u32, high: u32) -> Option<u32>
    ensures { Names (number_text before.now) low high bytes.now result }
{
    let Some(number) = number_after(bytes, before) else {
        return None;
    };
    if number < low || high < number {
        return None;
    }
    Some(number)
}

// The number that the bytes name, at any size.
fn number_after(bytes: &[u8], before: &[u8]) -> Option<u32>
    ensures { MatchOption result ((n : ℕ) → n < 2 ^ 32 → bytes.now ≢ number_text before.now n)
        (λ n. bytes.now ≡ number_text before.now n) }
{
    let Some(after) = bytes.strip_prefix(before) else {
        return None;
    };
    let Some(digits) = after.strip_suffix(b"}") else {
        return None;
    };
    number(digits)
}

// The number whose digits these are, without a zero before them.
fn number(digits: &[u8]) -> Option<u32>
    ensures { MatchOption result ((n : ℕ) → n < 2 ^ 32 → digits.now ≢ decimal n)
        (λ n. digits.now ≡ decimal n) }
{
    let Ok(text) = str::from_utf8(digits) else {
        return None;
    };
    let Ok(number) = text.parse::<u32>() else {
        return None;
    };
    let mut buffer = Buffer::new();
    if buffer.format(number).as_bytes() == digits {
        Some(number)
    } else {
        None
    }
}
