//! The words of a line, each beside its start.

ghost use Rattle.std.specs.Prelude.{◌≡◌, ◌≤◌, ◌+◌, IfSome, length};
ghost use Rattle.std.specs.Option.{option_map};
ghost use Rattle.pam_conf.specs.Remaining.{words_left};
ghost use Rattle.pam_findings.specs.misspelled.Pieces.{piece_at};
ghost use Rattle.pam_findings.specs.misspelled.inner.Spans.{span_view};

use pam_conf::Words;
use pam_text::text_blank_len;

/// A piece of a text, beside its start.
#[derive(Clone, Copy)]
pub(crate) struct Span<'a> {
    /// The number of bytes of the text before it.
    pub start: usize,
    /// As it is written.
    pub bytes: &'a [u8],
}

/// The word of a line after this many, as it is written.
pub(crate) fn word_at(line: &[u8], number: usize) -> Option<Span<'_>>
    ensures value { option_map span_view result ≡ piece_at words_left number line.now }
    ensures bound { IfSome result (λ word. word.start + length word.bytes.now ≤ length line.now) }
{
    let Ok(mut words) = Words::of(line) else {
        return None;
    };
    let mut passed = 0;
    let mut rest = line;
    for _ in 0..number {
        let (word, others) = words.split_first()?;
        let end = text_blank_len(rest) + word.len();
        passed += end;
        rest = rest.split_at(end).1;
        words = others;
    }
    let (word, _) = words.split_first()?;
    Some(Span {
        start: passed + text_blank_len(rest),
        bytes: word,
    })
}
