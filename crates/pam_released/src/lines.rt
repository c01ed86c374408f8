//! Physical lines, and which of them go on.

ghost use Rattle.std.specs.Prelude.{◌≡◌, ◌==◌, ◌+◌, ◌*◌, ◌<◌, ◌≤◌, ◌∷◌, [], IfSome, MatchOption, length, not};
ghost use Rattle.std.specs.List.{list_all, prefix_len};
ghost use Rattle.pam_released.specs.Bracket.{begins_in_blank, part};
ghost use Rattle.pam_released.specs.Findings.{ends_in_blank};
ghost use Rattle.pam_released.specs.Lines.{before_hash, ends_in_backslash, ends_in_feed, goes_on, has_hash, is_blank_line, is_space_or_tab};
ghost use Rattle.pam_released.specs.Lines.{physical_lines, without_end_blanks};

use memchr::memchr;

/// The number of bytes before the first line feed.
pub(crate) fn line_len(bytes: &[u8]) -> usize
    ensures value { result ≡ prefix_len (λ b. not (b == 10)) bytes.now }
    ensures bound { result ≤ length bytes.now }
{
    match memchr(b'\n', bytes) {
        Some(index) => index,
        None => bytes.len(),
    }
}

/// The number of bytes before the first `#`.
fn text_len(line: &[u8]) -> usize
    ensures value { result ≡ prefix_len (λ b. not (b == 35)) line.now }
    ensures bound { result ≤ length line.now }
{
    match memchr(b'#', line) {
        Some(index) => index,
        None => line.len(),
    }
}

/// The first physical line, without its line feed, and the bytes after it; `None` if there are no bytes.
pub(crate) fn split_line(bytes: &[u8]) -> Option<(&[u8], &[u8])>
    ensures value { MatchOption result (physical_lines bytes.now ≡ [])
        (λ p. physical_lines bytes.now ≡ p.0.now ∷ physical_lines p.1.now) }
    ensures shorter { IfSome result (λ p. length p.1.now < length bytes.now) }
    ensures bound { IfSome result (λ p. length p.0.now + 1 + 2 * length p.1.now ≤ 2 * length bytes.now) }
{
    if bytes.is_empty() {
        return None;
    }
    let (line, after) = bytes.split_at(line_len(bytes));
    if after.is_empty() {
        return Some((line, after));
    }
    Some((line, after.split_at(1).1))
}

/// The bytes before the first `#`.
pub(crate) fn before_hash(line: &[u8]) -> &[u8]
    ensures { result.now ≡ before_hash line.now }
{
    line.split_at(text_len(line)).0
}

pub(crate) fn has_hash(line: &[u8]) -> bool
    ensures { result ≡ has_hash line.now }
{
    line.contains(&b'#')
}

#[inline(always)]
pub(crate) fn is_space_or_tab(byte: u8) -> bool
    ensures { result ≡ is_space_or_tab byte }
{
    byte == b' ' || byte == b'\t'
}

fn is_blank(text: &[u8]) -> bool
    ensures { result ≡ list_all is_space_or_tab text.now }
{
    text.iter().all(|byte| is_space_or_tab(*byte))
}

/// Whether a line is blank, but for a comment.
pub(crate) fn is_blank_line(line: &[u8]) -> bool
    ensures { result ≡ is_blank_line line.now }
{
    is_blank(before_hash(line))
}

/// Whether no line has a byte other than blanks and comments.
pub(crate) fn are_blank_lines(bytes: &[u8]) -> bool
    ensures { result ≡ list_all is_blank_line (physical_lines bytes.now) }
{
    let mut rest = bytes;
    while let Some((line, after)) = split_line(rest) {
        if !is_blank_line(line) {
            return false;
        }
        rest = after;
    }
    true
}

/// Whether the last byte is a line feed.
pub(crate) fn ends_in_feed(bytes: &[u8]) -> bool
    ensures { result ≡ ends_in_feed bytes.now }
{
    match bytes.split_last() {
        Some((last, _)) => *last == b'\n',
        None => false,
    }
}

pub(crate) fn ends_in_backslash(line: &[u8]) -> bool
    ensures { result ≡ ends_in_backslash line.now }
{
    match line.split_last() {
        Some((last, _)) => *last == b'\\',
        None => false,
    }
}

pub(crate) fn ends_in_blank(line: &[u8]) -> bool
    ensures { result ≡ ends_in_blank line.now }
{
    match line.split_last() {
        Some((last, _)) => is_space_or_tab(*last),
        None => false,
    }
}

fn begins_in_blank(text: &[u8]) -> bool
    ensures { result ≡ begins_in_blank text.now }
{
    match text.split_first() {
        Some((first, _)) => is_space_or_tab(*first),
        None => false,
    }
}

/// The line without the spaces and tabs at its end.
pub(crate) fn without_end_blanks(line: &[u8]) -> &[u8]
    ensures { result.now ≡ without_end_blanks line.now }
{
    let mut text = line;
    while let Some((last, front)) = text.split_last() {
        if !is_space_or_tab(*last) {
            return text;
        }
        text = front;
    }
    text
}

/// Whether the next line goes on with this one.
pub(crate) fn goes_on(line: &[u8]) -> bool
    ensures { result ≡ goes_on line.now }
{
    !has_hash(line) && ends_in_backslash(without_end_blanks(line))
}

/// Whether what the line adds to its logical line begins with a blank: its backslash is read as a space.
pub(crate) fn part_begins_in_blank(line: &[u8]) -> bool
    ensures { result ≡ begins_in_blank (part line.now) }
{
    if !goes_on(line) {
        return begins_in_blank(before_hash(line));
    }
    let text = without_end_blanks(line);
    text.len() == 1 || begins_in_blank(text)
}
