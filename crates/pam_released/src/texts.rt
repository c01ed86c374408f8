//! The texts of the words of a line, as released Linux-PAM cuts them.

ghost use Rattle.std.specs.Prelude.{◌≡◌, ◌+◌, ◌∷◌, ◌≤◌, ℕ, IfOk, List, length, not};
ghost use Rattle.std.specs.List.{prefix_len};
ghost use Rattle.pam_released.specs.Lines.{is_space_or_tab};
ghost use Rattle.pam_released.specs.Words.{Inside, Outside, Word, line_feed, line_words, released_words, texts_in};
ghost use Rattle.pam_released.specs.inner.Numbered.{line_view};

use crate::assembly::LogicalLine;
use crate::lines::is_space_or_tab;
use pam_text::Texts;
use std::alloc::{AllocError, Global};

/// The number of bytes before the first blank.
fn plain_len(bytes: &[u8]) -> usize
    ensures value { result ≡ prefix_len (λ b. not (is_space_or_tab b)) bytes.now }
    ensures bound { result ≤ length bytes.now }
{
    bytes
        .iter()
        .take_while(|byte| !is_space_or_tab(**byte))
        .count()
}

/// The plain word at the start of `bytes`, and the bytes after it.
fn split_plain(bytes: &[u8]) -> (&[u8], &[u8])
    ensures value { (feed : List ℕ) → texts_in feed Word bytes.now ≡ result.0.now ∷ texts_in feed Outside result.1.now }
    ensures shorter { length result.1.now + prefix_len (λ b. not (is_space_or_tab b)) bytes.now ≤ length bytes.now }
{
    bytes.split_at(plain_len(bytes))
}

/// The text of the word after an opening bracket, and the bytes after the closing one; `feed` is the line feed after the bytes.
fn split_inside<'a>(
    alloc: Global,
    feed: &[u8],
    bytes: &'a [u8],
) -> Result<(Vec<u8>, &'a [u8]), AllocError>
    ensures value { IfOk result (λ p. texts_in feed.now Inside bytes.now ≡ p.0.items ∷ texts_in feed.now Outside p.1.now) }
    ensures shorter { IfOk result (λ p. length p.1.now ≤ length bytes.now) }
{
    let mut text = Vec::new(alloc);
    let mut rest = bytes;
    while let Some((first, after)) = rest.split_first() {
        rest = after;
        if *first == b']' {
            return Ok((text, rest));
        }
        match after.split_first() {
            Some((next, later)) if *first == b'\\' && *next == b']' => {
                text.push(b']')?;
                rest = later;
            }
            _ => text.push(*first)?,
        }
    }
    text.extend_from_slice(feed)?;
    Ok((text, rest))
}

/// The texts of the words of a line, after which `feed` is the line feed, if there is one.
fn words_before(alloc: Global, feed: &[u8], line: &[u8]) -> Result<Texts, AllocError>
    ensures { IfOk result (λ texts. texts ≡ released_words feed.now line.now) }
{
    let mut texts = Texts::new(alloc);
    let mut rest = line;
    while let Some((first, after)) = rest.split_first() {
        if is_space_or_tab(*first) {
            rest = after;
        } else if *first == b'[' {
            let (text, later) = split_inside(alloc, feed, after)?;
            texts.push(&text)?;
            rest = later;
        } else {
            let (text, later) = split_plain(rest);
            texts.push(text)?;
            rest = later;
        }
    }
    Ok(texts)
}

/// The line feed that ends a line, if it has one.
fn line_feed(is_fed: bool) -> &'static [u8]
    ensures { result.now ≡ line_feed is_fed }
{
    if is_fed { b"\n" } else { b"" }
}

/// The texts of the words of a logical line.
pub(crate) fn words(alloc: Global, line: &LogicalLine) -> Result<Texts, AllocError>
    ensures { IfOk result (λ texts. texts ≡ line_words (line_view line.now)) }
{
    words_before(alloc, line_feed(line.is_fed), &line.text)
}
