//! Numbers as values.

ghost use Rattle.std.specs.Prelude.{◌≡◌, ◌<◌, ◌≤◌, ◌^◌, ℕ, IfOk, IfSome, MatchOption, decimal};
ghost use Rattle.sg_values.specs.Values.{number_at, ranged};

use std::alloc::{AllocError, Global};

/// The number from `low` to `high` that a word is; `None` if it is none: it has a sign, a leading zero or another byte than
/// digits, or the number is out of the range.
pub fn number_in(alloc: Global, word: &str, low: u64, high: u64) -> Result<Option<u64>, AllocError>
    ensures value { IfOk result (λ o. o ≡ number_at low high word.now) }
    ensures bound { IfOk result (λ o. IfSome o (λ n. (low ≤ n) × (n ≤ high))) }
{
    match decimal_in(alloc, word)? {
        Some(number) => Ok(ranged(low, high, number)),
        None => Ok(None),
    }
}

// The number, if it is in the range.
fn ranged(low: u64, high: u64, number: u64) -> Option<u64>
    ensures value { result ≡ ranged low high number }
    ensures bound { IfSome result (λ n. (low ≤ n) × (n ≤ high)) }
{
    if low <= number && number <= high {
        Some(number)
    } else {
        None
    }
}

// The number that a word is: read leniently, written again and compared.
fn decimal_in(alloc: Global, word: &str) -> Result<Option<u64>, AllocError>
    ensures { IfOk result (λ o. MatchOption o
        ((n : ℕ) → n < 2 ^ 64 → word.now ≡ decimal n → ⊥)
        (λ n. (n < 2 ^ 64) × (word.now ≡ decimal n))) }
{
    let Ok(number) = word.parse::<u64>() else {
        return Ok(None);
    };
    let written = number.to_string(alloc)?;
    if written.as_str() == word {
        Ok(Some(number))
    } else {
        Ok(None)
    }
}
