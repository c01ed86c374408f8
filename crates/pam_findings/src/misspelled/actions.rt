//! The right words for one that is wrong after `=`.

ghost use Rattle.std.specs.Prelude.{◌≡◌, ◌<◌, IfOk, Some, map, slice_get};
ghost use Rattle.std.specs.Char.{to_ascii_lowercase};
ghost use Rattle.std.specs.Option.{option_and_then, option_map};
ghost use Rattle.pam_findings.specs.misspelled.Actions.{after_sign, digits_of, nearest_action, number_words, numbers, unless_number};

use crate::misspelled::right_words::in_lowercase;
use pam_spelling::nearest;
use std::alloc::{AllocError, Global};

/// The numbers that have a word here: 1 to this one.
const NUMBERS: usize = 20;

/// The word for a number, and its digits.
#[tactic(auto, unfolding(crate::specs::misspelled::Actions::numbers))]
fn number_at(place: usize) -> (&'static str, &'static str)
    requires { place < NUMBERS }
    ensures { slice_get numbers place ≡ Some (result.0.now, result.1.now) }
{
    match place {
        0 => ("one", "1"),
        1 => ("two", "2"),
        2 => ("three", "3"),
        3 => ("four", "4"),
        4 => ("five", "5"),
        5 => ("six", "6"),
        6 => ("seven", "7"),
        7 => ("eight", "8"),
        8 => ("nine", "9"),
        9 => ("ten", "10"),
        10 => ("eleven", "11"),
        11 => ("twelve", "12"),
        12 => ("thirteen", "13"),
        13 => ("fourteen", "14"),
        14 => ("fifteen", "15"),
        15 => ("sixteen", "16"),
        16 => ("seventeen", "17"),
        17 => ("eighteen", "18"),
        18 => ("nineteen", "19"),
        19 => ("twenty", "20"),
        _ => unreachable!(),
    }
}

/// The word for a number.
fn name_at(place: usize) -> &'static [u8]
    requires { place < NUMBERS }
    ensures { slice_get number_words place ≡ Some result.now }
{
    number_at(place).0.as_bytes()
}

/// The digits of a word for a number.
fn digits_of(word: &[u8]) -> Option<&'static [u8]>
    ensures { option_map (λ digits. digits.now) result ≡ digits_of word.now }
{
    for place in 0..NUMBERS {
        let (name, digits) = number_at(place);
        if name.as_bytes() == word {
            return Some(digits.as_bytes());
        }
    }
    None
}

/// The words that one after `=` is compared with.
pub(crate) fn after_sign(alloc: Global) -> Result<Vec<&'static [u8]>, AllocError>
    ensures { IfOk result (λ words. map (λ w. w.now) words.items ≡ after_sign) }
{
    let others = [
        "ignore".as_bytes(),
        "bad".as_bytes(),
        "die".as_bytes(),
        "ok".as_bytes(),
        "reset".as_bytes(),
    ];
    let mut words = Vec::from_slice(alloc, &others)?;
    for place in 0..NUMBERS {
        words.push(name_at(place))?;
    }
    words.push("done".as_bytes())?;
    Ok(words)
}

/// The word, if it is none for a number.
fn unless_number<'a>(word: Option<&'a [u8]>) -> Option<&'a [u8]>
    ensures { option_map (λ w. w.now) result ≡ option_and_then unless_number (option_map (λ w. w.now) word.entry) }
{
    let word = word?;
    match digits_of(word) {
        Some(_) => None,
        None => Some(word),
    }
}

/// The digits of a word for a number; else the nearest action, unless a word for a number is nearer.
pub(crate) fn nearest_action(
    alloc: Global,
    word: &[u8],
) -> Result<Option<&'static [u8]>, AllocError>
    ensures { IfOk result (λ found. option_map (λ w. w.now) found ≡ nearest_action (map to_ascii_lowercase word.now)) }
{
    let lower = in_lowercase(alloc, word)?;
    if let Some(digits) = digits_of(&lower) {
        return Ok(Some(digits));
    }
    let words = after_sign(alloc)?;
    Ok(unless_number(nearest(&words, &lower)))
}
