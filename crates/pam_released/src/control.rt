//! The control of a rule, as released Linux-PAM reads it.

ghost use Rattle.std.specs.Prelude.{◌≡◌, ◌<◌, ◌≤◌, ◌%◌, ℕ, List, IfSome, MatchOption, drop, false, find, length, true};
ghost use Rattle.std.specs.Char.{is_ascii_digit};
ghost use Rattle.std.specs.List.{prefix_len};
ghost use Rattle.std.specs.Option.{option_map};
ghost use Rattle.pam_codes.specs.Action.{IsAction, decimal_value};
ghost use Rattle.pam_codes.specs.Code.{all_codes};
ghost use Rattle.pam_released.specs.Control.{action_at, action_of_bits, action_of_int, action_of_number, after_spaces, begins, equals_at};
ghost use Rattle.pam_released.specs.Control.{is_space, jump_at, jump_over, name_of};
ghost use Rattle.pam_released.specs.inner.Numbers.{value_or_more};
ghost use Rattle.pam_released.specs.Control.{all_bad, released_actions, subject_at};
ghost use Rattle.pam_released.specs.Rules.{control_actions};
ghost use Rattle.pam_released.specs.inner.Pair.{code_after, pair_at};

use crate::release::Release;
use pam_codes::{Action, CODES, Code, Control, Subject};

/// The longest jump that is stored. A longer one is stored as this one, since no list has as many items.
const MOST_ITEMS: u64 = 999_999_999;

/// The largest `int` of C.
const LARGEST_INT: u64 = 2_147_483_647;

/// The numbers of 32 bits.
const BITS: u64 = 4_294_967_296;

/// `isspace`.
fn is_space(byte: u8) -> bool
    ensures { result ≡ is_space byte }
{
    byte == b' ' || (8 < byte && byte < 14)
}

fn after_spaces(text: &[u8]) -> &[u8]
    ensures value { result.now ≡ after_spaces text.now }
    ensures shorter { length result.now ≤ length text.now }
{
    let mut rest = text;
    while let Some((first, after)) = rest.split_first() {
        if !is_space(*first) {
            return rest;
        }
        rest = after;
    }
    rest
}

/// The bytes after `name`, if the text begins with it.
fn after_name<'a>(name: &[u8], text: &'a [u8]) -> Option<&'a [u8]>
    ensures value { MatchOption result (begins name.now text.now ≡ false)
        (λ rest. (begins name.now text.now ≡ true) × (rest.now ≡ drop (length name.now) text.now)) }
    ensures shorter { IfSome result (λ rest. length rest.now ≤ length text.now) }
{
    if text.starts_with(name) {
        Some(text.split_at(name.len()).1)
    } else {
        None
    }
}

/// The code with this number and the bytes after its name, if the text begins with it.
fn code_after(number: u8, text: &[u8]) -> Option<(Code, &[u8])>
    requires { number < CODES }
    ensures value { option_map (λ p. (p.0, p.1.now)) result ≡ code_after text.now number }
    ensures shorter { IfSome result (λ p. length p.1.now ≤ length text.now) }
{
    let Some(code) = Code::new(number) else {
        return None;
    };
    let Some(rest) = after_name(code.name().as_bytes(), text) else {
        return None;
    };
    Some((code, rest))
}

/// The code whose name the text begins with, and the bytes after it.
fn code_at(text: &[u8]) -> Option<(Code, &[u8])>
    ensures value { option_map (λ p. (p.0, p.1.now)) result
        ≡ option_map {U = ℕ × List ℕ} (λ code. (code, drop (length (name_of code)) text.now)) (find (λ code. begins (name_of code) text.now) all_codes) }
    ensures shorter { IfSome result (λ p. length p.1.now ≤ length text.now) }
{
    for number in 0..CODES as u8 {
        if let Some(found) = code_after(number, text) {
            return Some(found);
        }
    }
    None
}

/// What the text begins with: the name of a code, `incomplete` or `default`; and the bytes after it.
#[tactic(auto, unfolding(crate::specs::Control::subject_at))]
fn subject_at(text: &[u8]) -> Option<(Subject, &[u8])>
    ensures value { option_map (λ p. (p.0, p.1.now)) result ≡ subject_at text.now }
    ensures shorter { IfSome result (λ p. length p.1.now ≤ length text.now) }
{
    if let Some((code, rest)) = code_at(text) {
        return Some((Subject::Named(code), rest));
    }
    if let Some(rest) = after_name(b"incomplete", text) {
        return Some((Subject::Incomplete, rest));
    }
    let rest = after_name(b"default", text)?;
    Some((Subject::Default, rest))
}

/// The bytes after an equals sign, if the text begins with one.
#[tactic(auto, unfolding(crate::specs::Control::equals_at))]
fn equals_at(text: &[u8]) -> Option<&[u8]>
    ensures value { option_map (λ rest. rest.now) result ≡ equals_at text.now }
    ensures shorter { IfSome result (λ rest. length rest.now < length text.now) }
{
    match text.split_first() {
        Some((b'=', rest)) => Some(rest),
        _ => None,
    }
}

fn digits_len(text: &[u8]) -> usize
    ensures value { result ≡ prefix_len is_ascii_digit text.now }
    ensures bound { result ≤ length text.now }
{
    text.iter().take_while(|byte| byte.is_ascii_digit()).count()
}

/// The last 32 bits of the value of digits.
fn last_bits(digits: &[u8]) -> u64
    ensures { result ≡ decimal_value digits.now % 4294967296 }
{
    let mut bits = 0;
    for digit in digits {
        bits = (10 * bits + u64::from(digit.saturating_sub(b'0'))) % BITS;
    }
    bits
}

/// The value of digits, or `BITS` if it is more.
fn value_or_more(digits: &[u8]) -> u64
    ensures { result ≡ value_or_more digits.now }
{
    let mut value = 0;
    for digit in digits {
        value = BITS.min(10 * value + u64::from(digit.saturating_sub(b'0')));
    }
    value
}

fn jump_over(items: u64) -> Action
    requires { 0 < items }
    ensures action { result ≡ jump_over items }
    ensures bound { IsAction result }
{
    Action::Jump(MOST_ITEMS.min(items) as u32)
}

/// The action that 1.5.2 makes of a number, by its last 32 bits.
fn action_of_bits(bits: u64) -> Option<Action>
    ensures value { result ≡ action_of_bits bits }
    ensures action { IfSome result IsAction }
{
    if bits == 0 {
        return None;
    }
    if bits <= LARGEST_INT {
        return Some(jump_over(bits));
    }
    Some(match bits {
        4_294_967_295 => Action::Ok,
        4_294_967_294 => Action::Done,
        4_294_967_292 => Action::Die,
        4_294_967_291 => Action::Reset,
        _ => Action::Bad,
    })
}

/// The action that 1.7.0 makes of a number.
fn action_of_int(number: u64) -> Option<Action>
    ensures value { result ≡ action_of_int number }
    ensures action { IfSome result IsAction }
{
    if number == 0 || number > LARGEST_INT {
        return None;
    }
    Some(jump_over(number))
}

/// The action that a release makes of the number with these digits.
fn action_of_number(release: Release, digits: &[u8]) -> Option<Action>
    ensures value { result ≡ action_of_number release (decimal_value digits.now) }
    ensures action { IfSome result IsAction }
{
    match release {
        Release::Older => action_of_bits(last_bits(digits)),
        Release::Newer => action_of_int(value_or_more(digits)),
    }
}

/// The action of the number at the start of the text, and the remaining bytes; `None` where there is none, or it is a fault.
#[tactic(auto, unfolding(crate::specs::Control::jump_at))]
fn jump_at(release: Release, text: &[u8]) -> Option<(Action, &[u8])>
    ensures value { option_map (λ p. (p.0, p.1.now)) result ≡ jump_at release text.now }
    ensures action { IfSome result (λ p. IsAction p.0) }
    ensures shorter { IfSome result (λ p. length p.1.now ≤ length text.now) }
{
    let (digits, rest) = text.split_at(digits_len(text));
    match action_of_number(release, digits) {
        Some(action) => Some((action, rest)),
        None => None,
    }
}

/// What the text begins with: the name of an action, or a number; and the bytes after it.
#[tactic(auto, unfolding(crate::specs::Control::action_at))]
fn action_at(release: Release, text: &[u8]) -> Option<(Action, &[u8])>
    ensures value { option_map (λ p. (p.0, p.1.now)) result ≡ action_at release text.now }
    ensures action { IfSome result (λ p. IsAction p.0) }
    ensures shorter { IfSome result (λ p. length p.1.now ≤ length text.now) }
{
    if let Some(rest) = after_name(b"ignore", text) {
        Some((Action::Ignore, rest))
    } else if let Some(rest) = after_name(b"ok", text) {
        Some((Action::Ok, rest))
    } else if let Some(rest) = after_name(b"done", text) {
        Some((Action::Done, rest))
    } else if let Some(rest) = after_name(b"bad", text) {
        Some((Action::Bad, rest))
    } else if let Some(rest) = after_name(b"die", text) {
        Some((Action::Die, rest))
    } else if let Some(rest) = after_name(b"reset", text) {
        Some((Action::Reset, rest))
    } else {
        jump_at(release, text)
    }
}

/// The pair at the start of the text, and the bytes after it; `None` if it has a fault.
fn pair_at(release: Release, text: &[u8]) -> Option<(Subject, Action, &[u8])>
    ensures value { option_map (λ p. ((p.0, p.1), p.2.now)) result ≡ pair_at release text.now }
    ensures action { IfSome result (λ p. IsAction p.1) }
    ensures shorter { IfSome result (λ p. length p.2.now < length text.now) }
{
    let Some((subject, rest)) = subject_at(text) else {
        return None;
    };
    let Some(rest) = equals_at(after_spaces(rest)) else {
        return None;
    };
    let Some((action, rest)) = action_at(release, after_spaces(rest)) else {
        return None;
    };
    Some((subject, action, rest))
}

/// The control that makes each answer a failure.
pub(crate) fn all_bad() -> Control
    ensures { result ≡ all_bad }
{
    Control::of([None; CODES], Action::Bad)
}

/// The control with the inside of brackets: all actions are bad where it has a fault.
fn bracket_control(release: Release, inside: &[u8]) -> Control
    ensures { result ≡ released_actions release inside.now }
{
    let mut named = [None; CODES];
    let mut default = None;
    let mut rest = after_spaces(inside);
    while !rest.is_empty() {
        let Some((subject, action, after)) = pair_at(release, rest) else {
            return all_bad();
        };
        rest = after_spaces(after);
        match subject {
            Subject::Named(code) => named[usize::from(code.number())] = Some(action),
            Subject::Incomplete => {}
            Subject::Default => default = default.or(Some(action)),
        }
    }
    Control::of(named, default.unwrap_or(Action::Bad))
}

/// The control with this text: a keyword, or the inside of brackets.
pub(crate) fn control(release: Release, text: &[u8]) -> Control
    ensures { result ≡ control_actions release text.now }
{
    match Control::read(text) {
        Ok(control) if !text.starts_with(b"[") => control,
        _ => bracket_control(release, text),
    }
}
