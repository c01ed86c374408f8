//! The numbers of codes, in decimal digits.

ghost use Rattle.std.specs.Prelude.{◌≡◌, ◌+◌, ◌<◌, [], ◌∷◌, MatchOption};
ghost use Rattle.std.specs.Char.{IsNotAsciiDigit};
ghost use Rattle.pam_paths.specs.inner.CursorText.{IsCodeOf};

use pam_codes::Code;

/// The value of a decimal digit.
fn digit(byte: u8) -> Option<u8>
    ensures { MatchOption result (IsNotAsciiDigit byte) (λ value. (value < 10) × (byte ≡ 48 + value)) }
{
    if byte.is_ascii_digit() {
        Some(byte - b'0')
    } else {
        None
    }
}

/// The code of a one-digit number.
#[tactic(auto, using(crate::proofs::CodeDigits::one_within))]
fn one_digit(ones: u8) -> Option<Code>
    ensures { IsCodeOf (ones ∷ []) result }
{
    Code::new(digit(ones)?)
}

/// The code of a two-digit number, which does not begin with zero.
#[tactic(auto, using(crate::proofs::CodeDigits::two_within))]
fn two_digits(tens: u8, ones: u8) -> Option<Code>
    ensures { IsCodeOf (tens ∷ ones ∷ []) result }
{
    if tens == b'0' {
        return None;
    }
    Code::new(10 * digit(tens)? + digit(ones)?)
}

/// The code of a number in decimal digits without leading zeros.
pub(crate) fn code_of(digits: &[u8]) -> Option<Code>
    ensures { IsCodeOf digits.now result }
{
    match digits.len() {
        1 => one_digit(digits[0]),
        2 => two_digits(digits[0], digits[1]),
        _ => None,
    }
}
