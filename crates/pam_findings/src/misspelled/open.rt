//! The word of a line whose bracket stays open.

ghost use Rattle.std.specs.Prelude.{◌≡◌, ◌≤◌, ◌<◌, ◌==◌, ◌+◌, false, MatchOption, drop, length, not, slice_index};
ghost use Rattle.std.specs.List.{prefix_len};
ghost use Rattle.std.specs.Option.{option_map};
ghost use Rattle.pam_findings.specs.misspelled.Open.{open_piece};
ghost use Rattle.pam_findings.specs.misspelled.inner.Opening.{Skips, StaysOpen};
ghost use Rattle.pam_findings.specs.misspelled.inner.Spans.{span_view};
ghost use Rattle.pam_text.specs.Blanks.{is_text_blank};

use crate::misspelled::pieces::Span;
use pam_codes::closing_bracket;
use pam_text::{is_text_blank, text_blank_len};

/// The number of bytes before the first blank.
fn plain_len(bytes: &[u8]) -> usize
    ensures value { result ≡ prefix_len (λ b. not (is_text_blank b)) bytes.now }
    ensures bound { result ≤ length bytes.now }
{
    bytes
        .iter()
        .take_while(|byte| !is_text_blank(**byte))
        .count()
}

/// The number of bytes of the word with which these begin; `None` if its bracket stays open.
fn word_len(bytes: &[u8]) -> Option<usize>
    requires some { 0 < length bytes.now }
    requires word { is_text_blank (slice_index bytes.now 0) ≡ false }
    ensures { MatchOption result (StaysOpen bytes.now) (λ len. (0 < len) × Skips len bytes.now) }
{
    if bytes[0] != b'[' {
        return Some(plain_len(bytes));
    }
    match closing_bracket(bytes.split_at(1).1) {
        Some(len) => Some(len + 2),
        None => None,
    }
}

/// The word whose bracket stays open, with all bytes of the line after it.
pub(crate) fn open_piece(line: &[u8]) -> Option<Span<'_>>
    ensures { option_map span_view result ≡ open_piece line.now }
{
    let mut passed = 0;
    let mut rest = line;
    loop {
        let start = text_blank_len(rest);
        let word = rest.split_at(start).1;
        if word.is_empty() {
            return None;
        }
        match word_len(word) {
            Some(len) => {
                passed += start + len;
                rest = word.split_at(len).1;
            }
            None => {
                return Some(Span {
                    start: passed + start,
                    bytes: word,
                });
            }
        }
    }
}
