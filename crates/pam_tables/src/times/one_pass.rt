//! Whether a line has a rule and no fault, found in one pass over its lists. A line with a fault is read again.

ghost use Rattle.std.specs.Prelude.{◌≡◌, ◌≤◌, ◌<◌, ◌==◌, ◌||◌, ℕ, [], Ok, Some, length, true, IfSome};
ghost use Rattle.std.specs.List.{prefix_len};
ghost use Rattle.pam_tables.specs.times.inner.Checks.{line_checked, list_checked};
ghost use Rattle.pam_tables.specs.times.inner.OnePass.{PassesItem, before, is_inside, onward, token_ends};
ghost use Rattle.pam_tables.specs.times.Reading.{rule_of, semicolon_cut};

use crate::times::logic::{skip_blanks, skip_not};
use crate::times::reading::{Field, check_token};
use pam_text::ByteSet;

/// The bytes that end a token of a list that a `;` may end.
#[derive(Drop)]
pub(crate) struct TokenEnds {
    set: ByteSet<'static>,
    ghost ends: { set.bytes.now ≡ token_ends },
}

impl TokenEnds {
    pub(crate) fn new() -> Self {
        TokenEnds {
            set: ByteSet::of(b" \t\r!&|;"),
        }
    }

    #[inline(always)]
    fn inside_len(&self, text: &[u8]) -> usize
        ensures value { result ≡ prefix_len is_inside text.now }
        ensures bound { result ≤ length text.now }
    {
        text.iter().take_while(|b| !self.set.has(**b)).count()
    }
}

/// Skips an item and the blanks after it. Returns `None` if there is none, or it has a fault.
#[inline(always)]
fn past_item<'a>(field: Field, text: &'a [u8], ends: &TokenEnds) -> Option<&'a [u8]>
    ensures item { IfSome result (λ left. PassesItem field text.now left.now) }
    ensures bound { IfSome result (λ left. length left.now ≤ length text.now) }
{
    let begin = skip_not(text).1;
    let (token, rest) = begin.split_at(ends.inside_len(begin));
    if token.is_empty() {
        return None;
    }
    match check_token(field, token) {
        Ok(()) => Some(skip_blanks(rest)),
        Err(_) => None,
    }
}

fn is_joint(byte: u8) -> bool
    ensures { result ≡ (byte == 38 || byte == 124) }
{
    byte == b'&' || byte == b'|'
}

/// Skips a list without a fault, up to its `;` or the end of the text. Returns `None` if the list has a fault.
#[inline(always)]
fn past_list<'a>(field: Field, text: &'a [u8], ends: &TokenEnds) -> Option<&'a [u8]>
    ensures list { IfSome result (λ end. list_checked field (before text.now) ≡ Ok tt) }
    ensures end { IfSome result (λ end. onward text.now ≡ end.now) }
{
    let mut rest = text;
    while let Some(left) = past_item(field, rest, ends) {
        let Some((first, after)) = left.split_first() else {
            return Some(left);
        };
        if *first == b';' {
            return Some(left);
        }
        if !is_joint(*first) {
            return None;
        }
        rest = after;
    }
    None
}

/// Skips a list without a fault and its `;`. Returns `None` if the list has a fault, or no `;` ends it.
#[inline(always)]
fn past_field<'a>(field: Field, text: &'a [u8], ends: &TokenEnds) -> Option<&'a [u8]>
    ensures list { IfSome result (λ after. list_checked field (before text.now) ≡ Ok tt) }
    ensures cut { IfSome result (λ after. semicolon_cut text.now ≡ Some (before text.now, after.now)) }
{
    let end = past_list(field, text, ends)?;
    let (_, after) = end.split_first()?;
    Some(after)
}

/// Whether a line has a rule. If not, it is blank or has a fault.
// Not inlined: among the values of its caller each byte takes more instructions.
#[inline(never)]
pub(crate) fn is_rule(line: &[u8], ends: &TokenEnds) -> bool
    ensures { result ≡ true → (number : ℕ) → line_checked (rule_of number line.now) ≡ Ok true }
{
    let Some(terminals) = past_field(Field::Services, line, ends) else {
        return false;
    };
    let Some(users) = past_field(Field::Terminals, terminals, ends) else {
        return false;
    };
    let Some(times) = past_field(Field::Users, users, ends) else {
        return false;
    };
    match past_list(Field::Times, times, ends) {
        Some(end) => end.is_empty(),
        None => false,
    }
}
