//! Logic lists of time.conf(5): items joined by `&` and `|`.

ghost use Rattle.std.specs.Prelude.{◌≡◌, ◌≤◌, length, IfSome, MatchOption};
ghost use Rattle.std.specs.List.{prefix_len};
ghost use Rattle.pam_codes.specs.Tokens.{is_blank};
ghost use Rattle.pam_tables.specs.times.Entry.{differ};
ghost use Rattle.pam_tables.specs.times.inner.Fact.{meets};
ghost use Rattle.pam_tables.specs.times.Logic.{is_token_byte, signs_of, items_of};
ghost use Rattle.pam_tables.specs.times.inner.Logic.{join, list_value};
ghost use Rattle.pam_tables.specs.times.inner.OnePass.{IsLeft, before, onward};
ghost use Rattle.pam_tables.specs.times.inner.Items.{HasNoItem, IsAfterNot, IsFirstItem, IsShorter, items_left, items_of_next};

use crate::times::fact::Fact;
use pam_text::is_text_blank;

/// The operator before an item of a list.
#[derive(Clone, Copy)]
pub(crate) enum Joint {
    /// None: the first item.
    First,
    And,
    Or,
}

impl Joint {
    /// Returns the value of a list up to an item, given its value before the item. The item is evaluated only if it
    /// can change that value.
    #[inline(always)]
    fn join(self, before: bool, is_inverted: bool, token: &[u8], fact: &Fact<'_>) -> bool
        ensures { result ≡ join self before (differ is_inverted (meets fact.now token.now)) }
    {
        match self {
            Joint::And => before && is_inverted != fact.meets(token),
            Joint::First => before || is_inverted != fact.meets(token),
            Joint::Or => before || is_inverted != fact.meets(token),
        }
    }
}

/// Whether a byte is a part of a token: neither a blank nor `!`, `&` or `|`.
// Most bytes of tokens are between `&` and `|`, so that one comparison of a difference is enough.
#[inline(always)]
pub fn is_token_byte(byte: u8) -> bool
    ensures { result ≡ is_token_byte byte }
{
    (b'&' < byte && byte < b'|')
        || !(is_text_blank(byte) || byte == b'!' || byte == b'&' || byte == b'|')
}

#[inline(always)]
fn token_len(bytes: &[u8]) -> usize
    ensures value { result ≡ prefix_len is_token_byte bytes.now }
    ensures bound { result ≤ length bytes.now }
{
    bytes.iter().take_while(|b| is_token_byte(**b)).count()
}

/// Whether a byte is a blank. Most bytes are above all blanks, so one comparison is enough for them.
#[inline(always)]
fn is_blank(byte: u8) -> bool
    ensures { result ≡ is_blank byte }
{
    byte <= b' ' && is_text_blank(byte)
}

/// Removes leading blanks.
#[inline(always)]
pub(crate) fn skip_blanks(bytes: &[u8]) -> &[u8]
    ensures signs { signs_of bytes.now ≡ signs_of result.now }
    ensures before { signs_of (before bytes.now) ≡ signs_of (before result.now) }
    ensures onward { onward bytes.now ≡ onward result.now }
    ensures first { prefix_len is_blank result.now ≡ 0 }
    ensures bound { length result.now ≤ length bytes.now }
{
    let mut rest = bytes;
    while let Some((first, after)) = rest.split_first() {
        if !is_blank(*first) {
            return rest;
        }
        rest = after;
    }
    rest
}

/// Removes leading blanks, and a `!` with the blanks after it. Returns whether there was one, and the text after it.
#[inline(always)]
pub(crate) fn skip_not(text: &[u8]) -> (bool, &[u8])
    ensures signs { IsAfterNot result.0 text.now result.1.now }
    ensures before { IsLeft result.0 text.now result.1.now }
    ensures first { prefix_len is_blank result.1.now ≡ 0 }
    ensures bound { length result.1.now ≤ length text.now }
{
    let rest = skip_blanks(text);
    if !rest.is_empty() && rest[0] == b'!' {
        return (true, skip_blanks(rest.split_at(1).1));
    }
    (false, rest)
}

/// An item of a list, without the operator before it.
#[derive(Clone, Copy)]
pub(crate) struct Item<'a> {
    pub(crate) is_inverted: bool,
    pub(crate) token: &'a [u8],
    /// The text after the item.
    pub(crate) rest: &'a [u8],
}

/// What comes after an item.
#[derive(Clone, Copy)]
pub(crate) enum Next<'a> {
    End,
    /// An operator, and the text after it.
    Joint(Joint, &'a [u8]),
    /// Neither an operator nor the end.
    Fault,
}

/// Splits off the first item. Returns `None` if no item comes first.
#[inline(always)]
pub(crate) fn first_item(text: &[u8]) -> Option<Item<'_>>
    ensures item { MatchOption result (HasNoItem text.now) (λ item. IsFirstItem text.now item) }
    ensures bound { IfSome result (λ item. length item.rest.now ≤ length text.now) }
{
    let (is_inverted, begin) = skip_not(text);
    let (token, rest) = begin.split_at(token_len(begin));
    if token.is_empty() {
        return None;
    }
    Some(Item {
        is_inverted,
        token,
        rest,
    })
}

/// Returns what comes next in a text after an item.
#[inline(always)]
pub(crate) fn next_joint(text: &[u8]) -> Next<'_>
    ensures items { items_left text.now ≡ items_of_next result }
    ensures shorter { IsShorter result text.now }
{
    let Some((first, after)) = skip_blanks(text).split_first() else {
        return Next::End;
    };
    if *first == b'&' {
        return Next::Joint(Joint::And, after);
    }
    if *first == b'|' {
        return Next::Joint(Joint::Or, after);
    }
    Next::Fault
}

/// Whether a text is a list that is true, given which tokens the fact meets. Inlined, so that it is compiled once for
/// names and once for times.
#[inline(always)]
pub(crate) fn is_true(text: &[u8], fact: &Fact<'_>) -> bool
    ensures { result ≡ list_value (meets fact.now) (items_of text.now) }
{
    let mut value = false;
    let mut joint = Joint::First;
    let mut rest = text;
    while let Some(item) = first_item(rest) {
        value = joint.join(value, item.is_inverted, item.token, fact);
        match next_joint(item.rest) {
            Next::End => return value,
            Next::Joint(next, after) => {
                joint = next;
                rest = after;
            }
            Next::Fault => return false,
        }
    }
    false
}
