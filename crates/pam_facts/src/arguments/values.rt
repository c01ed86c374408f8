//! The values of arguments that have to be a number or one of some words.

ghost use Rattle.std.specs.Prelude.{◌≡◌, map};
ghost use Rattle.std.specs.List.{list_all, list_any};
ghost use Rattle.std.specs.Char.{is_ascii_digit};
ghost use Rattle.std.specs.Str.{bytes_eq};
ghost use Rattle.pam_codes.specs.Code.{same_name};
ghost use Rattle.pam_facts.specs.arguments.Values.{booleans, form_named, is_number, is_octal_digit, takes, unsigned};
ghost use Rattle.pam_facts.specs.arguments.Views.{form_view};

use crate::arguments::cuts::has_part;

/// The values that an argument takes.
#[derive(Clone, Copy, Debug, PartialEq, Eq)]
pub enum Wanted<'t> {
    /// Digits, perhaps with a sign in front.
    Number,
    /// The same, or `never`.
    NumberOrNever,
    /// Digits from 0 to 7, perhaps with a sign in front.
    Octal,
    /// `true`, `yes`, `on`, `1`, `false`, `no`, `off` or `0`, in any case.
    Boolean,
    /// One of these words, which have `|` between them.
    OneOf(&'t [u8]),
}

/// The words of a boolean value.
static BOOLEANS: [&[u8]; 8] = [b"true", b"yes", b"on", b"1", b"false", b"no", b"off", b"0"];

#[tactic(auto, unfolding(crate::specs::arguments::Values::booleans))]
fn booleans() -> &'static [&'static [u8]]
    ensures { map (λ word. word.now) result.now ≡ booleans }
{
    &BOOLEANS
}

/// A value without one sign in front.
#[tactic(auto, unfolding(crate::specs::arguments::Values::unsigned))]
fn unsigned(value: &[u8]) -> &[u8]
    ensures { result.now ≡ unsigned value.now }
{
    match value {
        [first, rest @ ..] if *first == b'+' || *first == b'-' => rest,
        _ => value,
    }
}

/// Whether each byte of a text is a digit.
fn all_decimal(text: &[u8]) -> bool
    ensures { result ≡ list_all is_ascii_digit text.now }
{
    text.iter().all(|byte| byte.is_ascii_digit())
}

/// Whether each byte of a text is a digit from 0 to 7.
fn all_octal(text: &[u8]) -> bool
    ensures { result ≡ list_all is_octal_digit text.now }
{
    text.iter().all(|byte| b'0' <= *byte && *byte <= b'7')
}

/// Whether a value is a number.
fn is_decimal(value: &[u8]) -> bool
    ensures { result ≡ is_number is_ascii_digit value.now }
{
    let digits = unsigned(value);
    !digits.is_empty() && all_decimal(digits)
}

/// Whether a value is an octal number.
fn is_octal(value: &[u8]) -> bool
    ensures { result ≡ is_number is_octal_digit value.now }
{
    let digits = unsigned(value);
    !digits.is_empty() && all_octal(digits)
}

/// Whether a value is one of some words, in any case.
pub(crate) fn is_any(words: &[&[u8]], value: &[u8]) -> bool
    ensures { result ≡ list_any (λ word. same_name value.now word.now) words.now }
{
    words.iter().any(|word| value.eq_ignore_ascii_case(word))
}

/// Whether a word is one of some words.
pub(crate) fn is_listed(words: &[&[u8]], word: &[u8]) -> bool
    ensures { result ≡ list_any (λ listed. bytes_eq word.now listed.now) words.now }
{
    words.iter().any(|listed| word == *listed)
}

/// Whether a value is a boolean one.
fn is_boolean(value: &[u8]) -> bool
    ensures { result ≡ list_any (same_name value.now) booleans }
{
    is_any(booleans(), value)
}

impl<'t> Wanted<'t> {
    /// The values that a text of the table names.
    #[tactic(auto, unfolding(crate::specs::arguments::Values::form_named))]
    pub(crate) fn named(text: &'t [u8]) -> Wanted<'t>
        ensures { form_view result ≡ form_named text.now }
    {
        if text == b"number".as_slice() {
            Wanted::Number
        } else if text == b"number-or-never".as_slice() {
            Wanted::NumberOrNever
        } else if text == b"octal".as_slice() {
            Wanted::Octal
        } else if text == b"bool".as_slice() {
            Wanted::Boolean
        } else {
            Wanted::OneOf(text)
        }
    }

    /// Whether a value is one of these.
    pub fn takes(self, value: &[u8]) -> bool
        ensures { result ≡ takes (form_view self.entry) value.now }
    {
        match self {
            Wanted::Number => is_decimal(value),
            Wanted::NumberOrNever => is_decimal(value) || value == b"never".as_slice(),
            Wanted::Octal => is_octal(value),
            Wanted::Boolean => is_boolean(value),
            Wanted::OneOf(words) => has_part(words, b'|', value),
        }
    }
}
