//! NUMBER of a test: one to nine digits, with at most one `-` before them.

ghost use Rattle.std.specs.Prelude.{◌≡◌, ◌≤◌, ◌≤ℤ◌, IfSome, IsTrue, pos};
ghost use Rattle.std.specs.Char.{is_ascii_digit};
ghost use Rattle.std.specs.List.{list_all};
ghost use Rattle.std.specs.Option.{option_map};
ghost use Rattle.pam_codes.specs.Action.{decimal_value, is_jump_text};
ghost use Rattle.pam_policy.specs.text.Tests.{natural_of, number_of};

/// A number has fewer digits than this.
const TOO_MANY_DIGITS: usize = 10;

fn has_digits_alone(text: &[u8]) -> bool
    ensures { result ≡ list_all is_ascii_digit text.now }
{
    text.iter().all(|byte| byte.is_ascii_digit())
}

/// Whether a text is one to nine digits.
fn is_natural(text: &[u8]) -> bool
    ensures { result ≡ is_jump_text text.now }
{
    if text.is_empty() || text.len() >= TOO_MANY_DIGITS {
        return false;
    }
    has_digits_alone(text)
}

/// The value of one to nine digits.
fn value(digits: &[u8]) -> u32
    requires { IsTrue (is_jump_text digits.now) }
    ensures value { result ≡ decimal_value digits.now }
    ensures bound { result ≤ 999999999 }
{
    let mut number = 0;
    for digit in digits {
        number = 10 * number + u32::from(*digit - b'0');
    }
    number
}

fn natural(text: &[u8]) -> Option<i32>
    ensures value { result ≡ option_map pos (natural_of text.now) }
    ensures bound { IfSome result (λ n. pos 0 ≤ℤ n) }
{
    if is_natural(text) {
        Some(value(text) as i32)
    } else {
        None
    }
}

/// The number of a text, if it is one.
#[tactic(auto, unfolding(crate::specs::text::Tests::number_of))]
pub(crate) fn number(text: &[u8]) -> Option<i32>
    ensures { result ≡ number_of text.now }
{
    if text.starts_with(b"-") {
        Some(-natural(text.split_at(1).1)?)
    } else {
        natural(text)
    }
}
