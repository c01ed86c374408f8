//! The line and the column at which a word stands in its file.

ghost use Rattle.std.specs.Prelude.{◌≡◌, ◌<◌, ◌≤◌, ◌+◌, ◌^◌, nat_eq, count_by, length, reverse};
ghost use Rattle.std.specs.List.{common_prefix_len};
ghost use Rattle.pam_findings.specs.misspelled.Spots.{is_feed, line_len, spot_after, spot_of};

use crate::misspelled::offsets::offset_of;
use crate::misspelled::pieces::Span;

/// Where a word stands in its file.
#[derive(Clone, Copy)]
pub struct Spot {
    /// The number of the line of the file, from 1: of a rule in several lines that on which the word begins.
    pub line: usize,
    /// In bytes, from 1.
    pub column: usize,
    /// The number of bytes: all of the word, but of a word in brackets that goes on in the next line those before its backslash.
    pub len: usize,
}

/// The number of line feeds.
pub fn line_feeds(bytes: &[u8]) -> usize
    ensures value { result ≡ count_by is_feed bytes.now }
    ensures bound { result ≤ length bytes.now }
{
    bytes.iter().filter(|byte| **byte == b'\n').count()
}

/// The number of bytes after the last line feed.
fn last_line_len(bytes: &[u8]) -> usize
    ensures value { result ≡ line_len (reverse bytes.now) }
    ensures bound { result ≤ length bytes.now }
{
    bytes
        .iter()
        .rev()
        .take_while(|byte| **byte != b'\n')
        .count()
}

/// The number of bytes with which both begin.
fn common_len(word: &[u8], bytes: &[u8]) -> usize
    ensures { result ≡ common_prefix_len nat_eq word.now bytes.now }
{
    for index in 0..word.len() {
        if index == bytes.len() || word[index] != bytes[index] {
            return index;
        }
    }
    word.len()
}

/// The spot of a word that stands this far from the start of these bytes, whose first line has a number.
fn spot_after(number: usize, bytes: &[u8], word: &[u8], offset: usize) -> Spot
    requires small { number < 2 ^ 32 }
    requires within { offset < length bytes.now }
    ensures { result ≡ spot_after number bytes.now word.now offset }
{
    let (before, there) = bytes.split_at(offset);
    Spot {
        line: number + line_feeds(before),
        column: last_line_len(before) + 1,
        len: common_len(word, there),
    }
}

/// The spot of a piece of a line, of the bytes from this line on.
pub(crate) fn spot_of(number: usize, bytes: &[u8], piece: Span<'_>) -> Option<Spot>
    requires small { number < 2 ^ 32 }
    ensures { result ≡ spot_of number bytes.now (piece.entry.start, piece.entry.bytes.now) }
{
    match offset_of(bytes, piece.start) {
        Some(offset) => Some(spot_after(number, bytes, piece.bytes, offset)),
        None => None,
    }
}
