//! The last line of a time table.

ghost use Rattle.std.specs.Prelude.{◌≡◌, ◌==◌, ◌≤◌, ◌∷◌, [], length, not};
ghost use Rattle.std.specs.List.{list_all, prefix_len};
ghost use Rattle.pam_text.specs.Blanks.{is_text_blank};
ghost use Rattle.pam_released.specs.Lines.{before_hash, ends_in_backslash, has_hash};
ghost use Rattle.pam_released.specs.tables.inner.Pieces.{filled_after, front_of, is_filled_by};
ghost use Rattle.pam_released.specs.tables.Times.{ends_in_rule, has_word};

use crate::laws::manual_lines;
use pam_text::{cut, is_text_blank};

fn is_blank(text: &[u8]) -> bool
    ensures { result ≡ list_all is_text_blank text.now }
{
    text.iter().all(|b| is_text_blank(*b))
}

fn has_word(text: &[u8]) -> bool
    ensures { result ≡ has_word text.now }
{
    !is_blank(text)
}

/// The number of bytes before the first `#`.
fn text_len(line: &[u8]) -> usize
    ensures value { result ≡ prefix_len (λ b. not (b == 35)) line.now }
    ensures bound { result ≤ length line.now }
{
    line.iter().take_while(|b| **b != b'#').count()
}

/// The bytes before the first `#`.
fn before_hash(line: &[u8]) -> &[u8]
    ensures { result.now ≡ before_hash line.now }
{
    line.split_at(text_len(line)).0
}

fn ends_in_backslash(text: &[u8]) -> bool
    ensures { result ≡ ends_in_backslash text.now }
{
    match text.split_last() {
        Some((last, _)) => *last == b'\\',
        None => false,
    }
}

/// All but the last byte.
fn front_of(text: &[u8]) -> &[u8]
    ensures { result.now ≡ front_of text.now }
{
    match text.split_last() {
        Some((_, front)) => front,
        None => b"",
    }
}

/// Whether the line that goes on with `text`, and goes on after it, has a word, where it has one before if `filled`.
fn filled_after(filled: bool, text: &[u8]) -> bool
    ensures { result ≡ filled_after filled text.now }
{
    ends_in_backslash(text) && (filled || has_word(front_of(text)))
}

fn has_hash(line: &[u8]) -> bool
    ensures { result ≡ has_hash line.now }
{
    line.contains(&b'#')
}

/// Whether the last physical line has no comment, and its line has a word, where it has one before if `filled`.
#[tactic(auto, unfolding(crate::specs::tables::inner::Pieces::is_filled_by))]
fn is_filled_by(filled: bool, last: &[u8]) -> bool
    ensures { result ≡ is_filled_by filled (last.now ∷ []) }
{
    !has_hash(last) && (filled || has_word(before_hash(last)))
}

/// Whether the line that no line feed ends has a rule, and no comment ends it. A physical line without its comment that ends
/// in a backslash goes on with the next one.
#[tactic(auto, unfolding(crate::specs::tables::Times::ends_in_rule))]
pub(crate) fn ends_in_rule(bytes: &[u8]) -> bool
    ensures { result ≡ ends_in_rule bytes.now }
{
    manual_lines();
    let mut rest = bytes;
    let mut is_filled = false;
    while let Some((line, after)) = cut(rest, b'\n') {
        is_filled = filled_after(is_filled, before_hash(line));
        rest = after;
    }
    is_filled_by(is_filled, rest)
}
