//! Values of options. A word that is none is as good as no word.

ghost use Rattle.std.specs.Prelude.{◌≡◌, IfOk, option_map};
ghost use Rattle.sg_words.specs.Table.{key, moment, number, number_or, place, place_if, room, room_of};

use sg_base::limits::{LAST_MOMENT, MAX_ROOM, ROOM_UNIT};
use sg_base::{Moment, is_key};
use sg_values::{is_place, number_in};
use std::alloc::{AllocError, Global};

/// A path or an address.
pub(crate) fn place(word: Option<&str>) -> Option<&str>
    ensures { option_map (λ s. s.now) result ≡ place (option_map (λ s. s.now) word.entry) }
{
    let word = word?;
    if is_place(word) { Some(word) } else { None }
}

/// A path, or that there is no word.
pub(crate) fn place_if(word: Option<&str>) -> Option<Option<&str>>
    ensures { option_map (λ o. option_map (λ s. s.now) o) result
        ≡ place_if (option_map (λ s. s.now) word.entry) }
{
    match word {
        Some(word) => {
            if is_place(word) {
                Some(Some(word))
            } else {
                None
            }
        }
        None => Some(None),
    }
}

/// A key.
pub(crate) fn key(word: Option<&str>) -> Option<&str>
    ensures { option_map (λ s. s.now) result ≡ key (option_map (λ s. s.now) word.entry) }
{
    let word = word?;
    if is_key(word.as_bytes()) {
        Some(word)
    } else {
        None
    }
}

/// A number of a range.
pub(crate) fn number(
    alloc: Global,
    low: u32,
    high: u32,
    word: Option<&str>,
) -> Result<Option<u32>, AllocError>
    ensures { IfOk result (λ o. o ≡ number low high (option_map (λ s. s.now) word.entry)) }
{
    match word {
        Some(word) => match number_in(alloc, word, u64::from(low), u64::from(high))? {
            Some(number) => Ok(Some(number as u32)),
            None => Ok(None),
        },
        None => Ok(None),
    }
}

/// A number of a range, or this other one without a word.
pub(crate) fn number_or(
    alloc: Global,
    low: u32,
    high: u32,
    other: u32,
    word: Option<&str>,
) -> Result<Option<u32>, AllocError>
    ensures { IfOk result (λ o. o ≡ number_or low high other (option_map (λ s. s.now) word.entry)) }
{
    match word {
        Some(_) => number(alloc, low, high, word),
        None => Ok(Some(other)),
    }
}

/// A moment.
pub(crate) fn moment(alloc: Global, word: Option<&str>) -> Result<Option<Moment>, AllocError>
    ensures { IfOk result (λ o. o ≡ moment (option_map (λ s. s.now) word.entry)) }
{
    match word {
        Some(word) => match number_in(alloc, word, 0, u64::from(LAST_MOMENT))? {
            Some(number) => Ok(Moment::new(number as u32)),
            None => Ok(None),
        },
        None => Ok(None),
    }
}

/// The length of a data area.
pub(crate) fn room(alloc: Global, word: Option<&str>) -> Result<Option<u64>, AllocError>
    ensures { IfOk result (λ o. o ≡ room (option_map (λ s. s.now) word.entry)) }
{
    match word {
        Some(word) => Ok(room_of(number_in(alloc, word, ROOM_UNIT, MAX_ROOM)?)),
        None => Ok(None),
    }
}

fn room_of(number: Option<u64>) -> Option<u64>
    ensures { result ≡ room_of number }
{
    let number = number?;
    if number % ROOM_UNIT == 0 {
        Some(number)
    } else {
        None
    }
}
