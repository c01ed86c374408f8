//! The words of a line.

ghost use Rattle.std.specs.Prelude.{◌≡◌, ◌∷◌, ◌≤◌, [], IfOk, MatchOption, drop, if◌then◌else◌, length, not};
ghost use Rattle.std.specs.List.{join_with_byte, prefix_len};
ghost use Rattle.std.specs.Option.{option_map};
ghost use Rattle.pam_text.specs.Blanks.{is_text_blank};
ghost use Rattle.pam_policy.specs.text.Words.{words_of};
ghost use Rattle.pam_policy.specs.text.inner.Words.{IsNext, comes_next, first_of, is_empty};

use crate::text::error::PolicyFault;
use pam_text::{is_text_blank, text_blank_len};
use std::alloc::{AllocError, Global};
use std::marker::Model;

/// The number of bytes before the first blank.
fn word_len(text: &[u8]) -> usize
    ensures value { result ≡ prefix_len (λ b. not (is_text_blank b)) text.now }
    ensures bound { result ≤ length text.now }
{
    text.iter().take_while(|b| !is_text_blank(**b)).count()
}

/// The first word of a line before its comment, and what is after the word.
fn first_word(line: &[u8]) -> Option<(&[u8], &[u8])>
    ensures { MatchOption result (words_of line.now ≡ []) (λ p. words_of line.now ≡ p.0.now ∷ words_of p.1.now) }
{
    let text = line.split_at(text_blank_len(line)).1;
    if text.is_empty() || text.starts_with(b"#") {
        return None;
    }
    Some(text.split_at(word_len(text)))
}

/// The words of a line, with one space between them.
pub(crate) fn with_spaces(alloc: Global, line: &[u8]) -> Result<Vec<u8>, AllocError>
    ensures { IfOk result (λ text. text.items ≡ join_with_byte 32 (words_of line.now)) }
{
    let Some((first, after_first)) = first_word(line) else {
        return Ok(Vec::new(alloc));
    };
    let mut text = Vec::from_slice(alloc, first)?;
    let mut rest = after_first;
    'others: while let Some((word, after)) = first_word(rest) {
        text.push(b' ')?;
        text.extend_from_slice(word)?;
        rest = after;
    }
    Ok(text)
}

/// The words of a line that are not read yet.
#[derive(Drop)]
pub(crate) struct Words<'a> {
    rest: &'a [u8],
}

impl<'a> Model for Words<'a> {
    ghost use Rattle.std.specs.Prelude.{ℕ, List};
    ghost use Rattle.pam_policy.specs.text.Words.{words_of};

    ghost Value = { List (List ℕ) };

    ghost view = { λ w. words_of w.rest.now };
}

impl<'a> Words<'a> {
    /// All words of a line.
    pub(crate) fn of(line: &'a [u8]) -> Self
        ensures { result ≡ words_of line.now }
    {
        Words { rest: line }
    }

    /// Whether no word is left.
    pub(crate) fn is_empty(&self) -> bool
        ensures { result ≡ is_empty self.now }
    {
        first_word(self.rest).is_none()
    }

    /// Takes the next word, which is needed.
    pub(crate) fn next(&mut self) -> Result<&'a [u8], PolicyFault>
        ensures { IsNext result self.old self.new }
    {
        let Some((word, rest)) = first_word(self.rest) else {
            return Err(PolicyFault::MissingField);
        };
        self.rest = rest;
        Ok(word)
    }

    /// The next word, which is not taken.
    pub(crate) fn peek(&self) -> Option<&'a [u8]>
        ensures { option_map (λ word. word.now) result ≡ first_of self.now }
    {
        match first_word(self.rest) {
            Some((word, _)) => Some(word),
            None => None,
        }
    }

    /// Takes the next word if it is this one.
    pub(crate) fn take(&mut self, keyword: &[u8]) -> bool
        ensures comes { result ≡ comes_next keyword.now self.old }
        ensures rest { self.new ≡ (if result then drop 1 self.old else self.old) }
    {
        let Some((word, rest)) = first_word(self.rest) else {
            return false;
        };
        if word != keyword {
            return false;
        }
        self.rest = rest;
        true
    }
}
