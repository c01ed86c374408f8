//! The numbers that an option gives: the most paths of a page (`--limit`), and the number of a module (`--asks`).

ghost use Rattle.std.specs.Prelude.{◌≡◌};
ghost use Rattle.pam_words.specs.Values.{number_in as number_in_text};
ghost use Rattle.pam_words.specs.Words.{number_parser as parser_of_numbers};

use clap::builder::ValueParser;

/// The least value of `--limit` and `--asks`.
const LEAST_NUMBER: u32 = 1;

/// The greatest value of `--limit` and `--asks`.
const MOST_NUMBER: u32 = 1_000_000;

/// The limit if `--limit` is not given.
pub(crate) const DEFAULT_LIMIT: u32 = 1000;

/// Returns the parser with which `clap` checks a number.
pub(crate) fn number_parser<'a>() -> ValueParser<'a>
    ensures { result ≡ parser_of_numbers }
{
    ValueParser::unsigned(LEAST_NUMBER as u64, MOST_NUMBER as u64)
}

/// Parses a number. Returns `None` for any text that `clap` does not accept as one.
pub(crate) fn number_in(text: &str) -> Option<u32>
    ensures { result ≡ number_in_text text.now }
{
    let Ok(number) = text.parse::<u32>() else {
        return None;
    };
    if number < LEAST_NUMBER || MOST_NUMBER < number {
        return None;
    }
    Some(number)
}
