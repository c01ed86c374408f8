//! The text of a file, with comments removed and continued lines joined: pam.conf(5).

ghost use Rattle.std.specs.Prelude.{◌≡◌, ◌∷◌, ◌++◌, ◌+◌, ◌^◌, ◌≤◌, ◌<◌, ◌==◌, ◌||◌, [], ℕ, List, length, not, if◌then◌else◌, true};
ghost use Rattle.std.specs.Prelude.{MatchOption, IfOk, IfSome, OnOk};
ghost use Rattle.std.specs.Result.{OnErr};
ghost use Rattle.std.specs.List.{prefix_len};
ghost use Rattle.pam_text.specs.Blanks.{is_text_blank};
ghost use Rattle.pam_text.specs.Text.{text_of};
ghost use Rattle.pam_text.specs.inner.Text.{past_comment, is_plain};

use crate::blanks::is_text_blank;
use crate::source::Source;
use memchr::{memchr, memchr3};
use std::alloc::AllocError;

/// The number of bytes that are looked at one by one before a search by vectors, which costs more than a look at a few:
/// most empty comments and most pieces between joints end within these. Lines with words and comments after words are
/// usually longer.
const NEAR_BYTES: usize = 4;

/// The remaining text of a file, as pam.conf(5) reads it, line by line.
#[derive(Drop)]
pub struct Text<'a> {
    rest: &'a [u8],
    line: u32,
    ghost counted: { line + length rest.now < 2 ^ 32 },
}

/// A line of a text, without its line feed, and the number, from 1, of the line of the file in which it begins.
#[derive(Clone, Copy)]
pub struct Line<'a> {
    pub number: u32,
    pub bytes: &'a [u8],
}

impl<'a> Text<'a> {
    ghost use Rattle.pam_text.specs.Text.{filled_lines, first_line, after_line, text_lines};
    ghost use Rattle.pam_text.specs.Left.{begins_filled, text_left};
    ghost use Rattle.pam_text.specs.inner.Left.{line_from, rest_from};

    /// The whole text of a file.
    pub fn of(file: Source<'a>) -> Self
        ensures { text_left result ≡ text_of 1 file.entry.bytes.now }
    {
        Text {
            rest: file.bytes,
            line: 1,
        }
    }

    /// Returns the next line. A line in one piece is a slice of the file; a joined one replaces the contents of `joined`.
    /// If an allocation fails, the text is unchanged, and what `joined` holds is not specified.
    pub fn next_line<'b>(&mut self, joined: &'b mut Vec<u8>) -> Result<Option<Line<'b>>, AllocError>
    where
        'a: 'b,
        ensures lines { IfOk result (λ l. MatchOption l (text_lines (text_left self.old) ≡ [])
            (λ line. text_lines (text_left self.old) ≡ (line.number, line.bytes.now) ∷ text_lines (text_left self.new))) }
        ensures line { IfOk result (λ l. MatchOption l (text_left self.old ≡ [])
            (λ line. (line.number ≡ self.old.line) × (line.bytes.now ≡ first_line (text_left self.old)))) }
        ensures rest { OnOk result (text_left self.new ≡ after_line (text_left self.old)) }
        ensures shorter { IfOk result (λ l. IfSome l (λ _. length self.new.rest.now < length self.old.rest.now)) }
        ensures unchanged { OnErr result (self.new ≡ self.old) }
    {
        let number = self.line;
        let (front, after) = self.rest.split_at(far_plain_len(self.rest));
        match first_byte(after) {
            None => {
                self.rest = after;
                if front.is_empty() {
                    return Ok(None);
                }
                Ok(Some(Line {
                    number,
                    bytes: front,
                }))
            }
            Some(step) => {
                let mut next = Text {
                    rest: step.after,
                    line: number + step.feeds,
                };
                if step.byte == b'\n' {
                    *self = next;
                    return Ok(Some(Line {
                        number,
                        bytes: front,
                    }));
                }
                joined.clear();
                joined.extend_from_slice(front)?;
                joined.push(step.byte)?;
                next.join_line(joined)?;
                *self = next;
                Ok(Some(Line {
                    number,
                    bytes: joined.as_slice(),
                }))
            }
        }
    }

    /// Skips blank lines and comments, and the blanks with which the next line with another byte begins.
    // Not inlined: inside its callers each byte takes more instructions.
    #[inline(never)]
    pub fn skip_blanks(&mut self)
        ensures lines { filled_lines (text_lines (text_left self.new)) ≡ filled_lines (text_lines (text_left self.old)) }
        ensures first { begins_filled self.new.rest.now ≡ true }
        ensures shorter { length self.new.rest.now ≤ length self.old.rest.now }
    {
        let mut rest = self.rest;
        let mut line = self.line;
        while let Some((first, after)) = rest.split_first() {
            if is_blank_or_feed(*first) {
                rest = after;
                line += feed_count(*first);
            } else if *first == b'#' {
                rest = after.split_at(comment_len(after)).1;
            } else {
                break;
            }
        }
        self.rest = rest;
        self.line = line;
    }

    /// Appends the next line to `joined`.
    fn join_line(&mut self, joined: &mut Vec<u8>) -> Result<(), AllocError>
        ensures line { OnOk result (joined.new.items ≡ joined.old.items ++ first_line (text_left self.old)) }
        ensures rest { OnOk result (text_left self.new ≡ after_line (text_left self.old)) }
        ensures shorter { OnOk result (length self.new.rest.now ≤ length self.old.rest.now) }
    {
        self.take_joints(joined)?;
        while let Some(byte) = self.take_run(joined)? {
            if byte == b'\n' {
                return Ok(());
            }
            joined.push(byte)?;
            self.take_joints(joined)?;
        }
        Ok(())
    }

    /// Appends a space for each leading backslash that a line feed follows.
    fn take_joints(&mut self, joined: &mut Vec<u8>) -> Result<(), AllocError>
        ensures line { OnOk result (joined.new.items ++ first_line (text_left self.new) ≡ joined.old.items ++ first_line (text_left self.old)) }
        ensures rest { OnOk result (after_line (text_left self.new) ≡ after_line (text_left self.old)) }
        ensures shorter { OnOk result (length self.new.rest.now ≤ length self.old.rest.now) }
    {
        while let Some(after) = after_joint(self.rest) {
            joined.push(b' ')?;
            self.rest = after;
            self.line += 1;
        }
        Ok(())
    }

    /// Appends the leading plain bytes to `joined`, and returns the byte of the text that follows them.
    fn take_run(&mut self, joined: &mut Vec<u8>) -> Result<Option<u8>, AllocError>
        ensures line { IfOk result (λ b. joined.old.items ++ first_line (text_left self.old) ≡ joined.new.items ++ line_from b (text_left self.new)) }
        ensures rest { IfOk result (λ b. after_line (text_left self.old) ≡ rest_from b (text_left self.new)) }
        ensures shorter { IfOk result (λ b. MatchOption b (length self.new.rest.now ≤ length self.old.rest.now)
            (λ _. length self.new.rest.now < length self.old.rest.now)) }
    {
        let (front, after) = self.rest.split_at(plain_len(self.rest));
        append(joined, front)?;
        match first_byte(after) {
            None => {
                self.rest = after;
                Ok(None)
            }
            Some(step) => {
                self.rest = step.after;
                self.line += step.feeds;
                Ok(Some(step.byte))
            }
        }
    }
}

#[inline(always)]
fn is_blank_or_feed(byte: u8) -> bool
    ensures { result ≡ (is_text_blank byte || byte == 10) }
{
    is_text_blank(byte) || byte == b'\n'
}

/// 1 for a line feed, so that a line is counted without a branch.
#[inline(always)]
fn feed_count(byte: u8) -> u32
    ensures { result ≡ (if byte == 10 then 1 else 0) }
{
    u32::from(byte == b'\n')
}

/// Appends `bytes`. Between joints there are often none, and then no copy is made.
fn append(joined: &mut Vec<u8>, bytes: &[u8]) -> Result<(), AllocError>
    ensures { OnOk result (joined.new.items ≡ joined.old.items ++ bytes.now) }
{
    if bytes.is_empty() {
        return Ok(());
    }
    joined.extend_from_slice(bytes)
}

/// Whether `byte` means itself everywhere: it is no line feed, `#` or backslash.
#[inline(always)]
fn is_plain(byte: u8) -> bool
    ensures { result ≡ is_plain byte }
{
    !(byte == b'\n' || byte == b'#' || byte == b'\\')
}

/// The number of plain bytes before the first line feed, `#` or backslash.
#[inline(always)]
fn plain_len(bytes: &[u8]) -> usize
    ensures value { result ≡ prefix_len is_plain bytes.now }
    ensures bound { result ≤ length bytes.now }
{
    for index in 0..NEAR_BYTES {
        if index == bytes.len() || !is_plain(bytes[index]) {
            return index;
        }
    }
    NEAR_BYTES + far_plain_len(bytes.split_at(NEAR_BYTES).1)
}

/// Like `plain_len`, for many bytes.
fn far_plain_len(bytes: &[u8]) -> usize
    ensures value { result ≡ prefix_len is_plain bytes.now }
    ensures bound { result ≤ length bytes.now }
{
    match memchr3(b'\n', b'#', b'\\', bytes) {
        Some(index) => index,
        None => bytes.len(),
    }
}

/// A byte of the text, the bytes of the file after it, and the number of line feeds that it takes up.
#[derive(Clone, Copy)]
struct TextByte<'a> {
    byte: u8,
    after: &'a [u8],
    feeds: u32,
}

/// The first byte of the text of `bytes`; `None` if the text is empty.
#[inline(always)]
fn first_byte(bytes: &[u8]) -> Option<TextByte<'_>>
    ensures text { MatchOption result ((line : ℕ) → text_of line bytes.now ≡ [])
        (λ s. (line : ℕ) → text_of line bytes.now ≡ (line, s.byte) ∷ text_of (line + s.feeds) s.after.now) }
    ensures bound { IfSome result (λ s. (s.feeds + length s.after.now ≤ length bytes.now) × (length s.after.now < length bytes.now)) }
{
    let (first, after) = skip_comment(bytes).split_first()?;
    match *first {
        b'\n' => Some(TextByte {
            byte: b'\n',
            after,
            feeds: 1,
        }),
        b'\\' => Some(backslash_byte(after)),
        byte => Some(TextByte {
            byte,
            after,
            feeds: 0,
        }),
    }
}

/// The step of a backslash before `after`: a space if a line feed follows, also after a comment; else the backslash.
fn backslash_byte(after: &[u8]) -> TextByte<'_>
    ensures text { (bytes : List ℕ) (line : ℕ) → past_comment bytes ≡ 92 ∷ after.now
        → text_of line bytes ≡ (line, result.byte) ∷ text_of (line + result.feeds) result.after.now }
    ensures bound { result.feeds + length result.after.now ≤ length after.now }
{
    match after_feed(skip_comment(after)) {
        Some(joined) => TextByte {
            byte: b' ',
            after: joined,
            feeds: 1,
        },
        None => TextByte {
            byte: b'\\',
            after,
            feeds: 0,
        },
    }
}

/// The bytes after a leading line feed, if there is one.
fn after_feed(bytes: &[u8]) -> Option<&[u8]>
    ensures value { MatchOption result ((more : List ℕ) → bytes.now ≡ 10 ∷ more → ⊥) (λ r. bytes.now ≡ 10 ∷ r.now) }
    ensures bound { IfSome result (λ r. length r.now < length bytes.now) }
{
    let (first, rest) = bytes.split_first()?;
    if *first == b'\n' { Some(rest) } else { None }
}

/// The bytes after a leading backslash and line feed, if there are these.
#[inline(always)]
fn after_joint(bytes: &[u8]) -> Option<&[u8]>
    ensures value { IfSome result (λ r. bytes.now ≡ 92 ∷ 10 ∷ r.now) }
    ensures bound { IfSome result (λ r. length r.now + 1 < length bytes.now) }
{
    if bytes.len() >= 2 && bytes[0] == b'\\' && bytes[1] == b'\n' {
        Some(bytes.split_at(2).1)
    } else {
        None
    }
}

/// Returns `bytes` without a leading comment. The line feed of the comment stays.
#[inline(always)]
fn skip_comment(bytes: &[u8]) -> &[u8]
    ensures value { result.now ≡ past_comment bytes.now }
    ensures bound { length result.now ≤ length bytes.now }
{
    if !bytes.is_empty() && bytes[0] == b'#' {
        bytes.split_at(far_comment_len(bytes)).1
    } else {
        bytes
    }
}

/// The number of bytes before the first line feed.
#[inline(always)]
fn comment_len(bytes: &[u8]) -> usize
    ensures value { result ≡ prefix_len (λ b. not (b == 10)) bytes.now }
    ensures bound { result ≤ length bytes.now }
{
    for index in 0..NEAR_BYTES {
        if index == bytes.len() || bytes[index] == b'\n' {
            return index;
        }
    }
    NEAR_BYTES + far_comment_len(bytes.split_at(NEAR_BYTES).1)
}

/// Like `comment_len`, for many bytes.
fn far_comment_len(bytes: &[u8]) -> usize
    ensures value { result ≡ prefix_len (λ b. not (b == 10)) bytes.now }
    ensures bound { result ≤ length bytes.now }
{
    match memchr(b'\n', bytes) {
        Some(index) => index,
        None => bytes.len(),
    }
}
