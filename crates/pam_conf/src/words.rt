//! The words of a line: pam.conf(5), on brackets in arguments.
ghost use Rattle.std.specs.Prelude.{◌≡◌, ◌==◌, ◌≤◌, ◌<◌, ◌-◌, ◌∷◌, [], Some, None, Ok, Err, not, true, map, take, drop};
ghost use Rattle.std.specs.Prelude.{IfOk, IfSome, IsTrue, MatchOption, MatchResult, IsSome, false, length, slice_index};
ghost use Rattle.std.specs.List.{list_any, prefix_len, onto_first};
ghost use Rattle.std.specs.Option.{option_map};
ghost use Rattle.pam_codes.specs.Tokens.{is_blank};
ghost use Rattle.pam_conf.specs.Words.{Bracket, has_no_blank, words_in, words_of, words_or_fault};
ghost use Rattle.pam_conf.specs.inner.FirstWord.{words_from};
ghost use Rattle.pam_conf.specs.Words.{unescaped, text_of_word};

use crate::error::FaultKind;
use pam_codes::{ControlError, closing_bracket};
use pam_text::{Texts, is_text_blank};
use std::alloc::{AllocError, Global};

/// The number of leading blanks.
fn blank_len(bytes: &[u8]) -> usize
    ensures value { result ≡ prefix_len is_blank bytes.now }
    ensures bound { result ≤ length bytes.now }
{
    bytes.iter().take_while(|b| is_text_blank(**b)).count()
}

/// The number of bytes before the first blank.
fn plain_len(bytes: &[u8]) -> usize
    ensures value { result ≡ prefix_len (λ b. not (is_blank b)) bytes.now }
    ensures bound { result ≤ length bytes.now }
{
    bytes.iter().take_while(|b| !is_text_blank(**b)).count()
}

/// The number of bytes up to the closing bracket, this one included; `None` if no bracket closes.
// Not inlined, so that the readers of words without brackets stay short enough to be.
#[inline(never)]
fn inside_len(inside: &[u8]) -> Option<usize>
    ensures value { MatchOption result (words_in (Bracket false) inside.now ≡ None)
        (λ n. option_map (onto_first 91) (words_in (Bracket false) inside.now) ≡ words_from (Some (91 ∷ take n inside.now, drop n inside.now))) }
    ensures bound { IfSome result (λ n. n ≤ length inside.now) }
{
    Some(closing_bracket(inside)? + 1)
}

/// The length of the leading word, as it is written.
#[inline(always)]
fn word_len(bytes: &[u8]) -> Result<usize, ControlError>
    requires something { 0 < length bytes.now }
    requires word { prefix_len is_blank bytes.now ≡ 0 }
    ensures value { MatchResult result (λ n. words_of bytes.now ≡ words_from (Some (take n bytes.now, drop n bytes.now)))
        (λ e. words_or_fault bytes.now ≡ Err (FaultKind.Control e)) }
    ensures bound { IfOk result (λ n. (0 < n) × (n ≤ length bytes.now)) }
{
    if bytes[0] != b'[' {
        return Ok(plain_len(bytes));
    }
    match inside_len(bytes.split_at(1).1) {
        Some(len) => Ok(len + 1),
        None => Err(ControlError::OpenBracket),
    }
}

/// The first word of a line, as it is written, and the bytes after it; `None` if there is no word.
#[inline(always)]
fn first_word(line: &[u8]) -> Result<Option<(&[u8], &[u8])>, ControlError>
    ensures value { MatchResult result (λ o. words_of line.now ≡ words_from (option_map (λ p. (p.0.now, p.1.now)) o))
        (λ e. words_or_fault line.now ≡ Err (FaultKind.Control e)) }
    ensures bound { IfOk result (λ o. IfSome o (λ p. length p.1.now < length line.now)) }
{
    let rest = line.split_at(blank_len(line)).1;
    if rest.is_empty() {
        return Ok(None);
    }
    match word_len(rest) {
        Ok(len) => Ok(Some(rest.split_at(len))),
        Err(error) => Err(error),
    }
}

/// Like `first_word`, without the fault of a bracket that stays open.
#[inline(always)]
pub(crate) fn split_word(line: &[u8]) -> Option<(&[u8], &[u8])>
    ensures { IfSome result (λ p. words_of line.now ≡ words_from (Some (p.0.now, p.1.now))) }
{
    match first_word(line) {
        Ok(found) => found,
        Err(_) => None,
    }
}

/// The bytes after `word`, if the line begins with it and a blank. Faster than a look at each byte of the first word.
#[inline(always)]
pub(crate) fn after_word<'a>(line: &'a [u8], word: &[u8]) -> Option<&'a [u8]>
    requires something { 0 < length word.now }
    requires plain { has_no_blank word.now ≡ true }
    requires bare { slice_index word.now 0 ≡ 91 → ⊥ }
    ensures { IfSome result (λ rest. words_of line.now ≡ words_from (Some (word.now, rest.now))) }
{
    let len = word.len();
    // The byte after the word rules out most other words.
    if line.len() <= len || !is_text_blank(line[len]) {
        return None;
    }
    if !line.starts_with(word) {
        return None;
    }
    Some(line.split_at(len).1)
}

fn has_bracket(line: &[u8]) -> bool
    ensures { result ≡ list_any (λ b. b == 91) line.now }
{
    line.contains(&b'[')
}

/// The fault of a line in which a bracket stays open, if there is one.
fn open_bracket(line: &[u8]) -> Option<ControlError>
    ensures { MatchOption result (IsSome (words_of line.now)) (λ e. words_or_fault line.now ≡ Err (FaultKind.Control e)) }
{
    if !has_bracket(line) {
        return None;
    }
    let mut rest = line;
    while !rest.is_empty() {
        match first_word(rest) {
            Ok(Some((_, after))) => rest = after,
            Ok(None) => return None,
            Err(error) => return Some(error),
        }
    }
    None
}

/// Whether each bracket of a line is closed.
pub(crate) fn is_closed(line: &[u8]) -> bool
    ensures { IsTrue result → IsSome (words_of line.now) }
{
    open_bracket(line).is_none()
}

/// The remaining words of a line in which each bracket is closed.
#[derive(Clone, Copy)]
pub struct Words<'a> {
    rest: &'a [u8],
    ghost closed: { IsSome (words_of rest.now) },
}

impl<'a> Words<'a> {
    ghost use Rattle.pam_conf.specs.Remaining.{words_to_come};

    /// The words of a line, or its fault if a bracket stays open.
    pub fn of(line: &'a [u8]) -> Result<Words<'a>, FaultKind>
        ensures { MatchResult result (λ words. words_or_fault line.now ≡ Ok (words_to_come words)) (λ kind. words_or_fault line.now ≡ Err kind) }
    {
        match open_bracket(line) {
            Some(error) => Err(FaultKind::Control(error)),
            None => Ok(Words { rest: line }),
        }
    }

    /// Returns the first word, as it is written, and the words after it.
    pub fn split_first(self) -> Option<(&'a [u8], Words<'a>)>
        ensures value { MatchOption result (words_to_come self.entry ≡ []) (λ p. words_to_come self.entry ≡ p.0.now ∷ words_to_come p.1) }
        ensures shorter { IfSome result (λ p. length p.1.rest.now < length self.entry.rest.now) }
    {
        match first_word(self.rest) {
            Ok(Some((word, rest))) => Some((word, Words { rest })),
            Ok(None) | Err(_) => None,
        }
    }

    /// The texts of the words.
    pub(crate) fn texts(self, alloc: Global) -> Result<Texts, AllocError>
        ensures { IfOk result (λ texts. texts ≡ map text_of_word (words_to_come self.entry)) }
    {
        let mut texts = Texts::new(alloc);
        let mut inside = Vec::new(alloc);
        let mut words = self;
        while let Some((word, after)) = words.split_first() {
            texts.push(text_of(word, &mut inside)?)?;
            words = after;
        }
        Ok(texts)
    }
}

/// A copy of the remaining words of a line.
#[derive(Drop)]
pub(crate) struct OwnedWords {
    bytes: Vec<u8>,
    ghost closed: { IsSome (words_of bytes.items) },
}

impl OwnedWords {
    ghost use Rattle.pam_conf.specs.inner.Owned.{owned_words};
    ghost use Rattle.pam_conf.specs.Remaining.{words_to_come};

    /// Copies words, as they are written.
    pub(crate) fn of(alloc: Global, words: Words<'_>) -> Result<OwnedWords, AllocError>
        ensures { IfOk result (λ owned. owned_words owned ≡ words_to_come words.entry) }
    {
        let bytes = Vec::from_slice(alloc, words.rest)?;
        Ok(OwnedWords { bytes })
    }

    pub(crate) fn words(&self) -> Words<'_>
        ensures { words_to_come result ≡ owned_words self.now }
    {
        Words {
            rest: self.bytes.as_slice(),
        }
    }
}

/// The number of bytes that spell the first byte of a text between brackets: two at `\]`.
fn spelling_len(inside: &[u8]) -> usize
    requires { 0 < length inside.now }
    ensures bound { result ≤ length inside.now }
    ensures positive { 0 < result }
    ensures text { unescaped inside.now
        ≡ slice_index inside.now (result - 1) ∷ unescaped (drop result inside.now) }
{
    if inside.len() >= 2 && inside[0] == b'\\' && inside[1] == b']' {
        2
    } else {
        1
    }
}

/// Replaces each `\]` by `]`, from the left.
fn unescape(word: &mut Vec<u8>)
    ensures { word.new.items ≡ unescaped word.old.items }
{
    let mut kept = 0;
    let mut read = 0;
    while read < word.len() {
        read += spelling_len(&word[read..]);
        word[kept] = word[read - 1];
        kept += 1;
    }
    word.truncate(kept);
}

/// The text of a word: itself, or if it has brackets the unescaped text between them, which replaces the contents of
/// `inside`.
#[inline(always)]
pub fn text_of<'a>(word: &'a [u8], inside: &'a mut Vec<u8>) -> Result<&'a [u8], AllocError>
    ensures { IfOk result (λ text. text.now ≡ text_of_word word.now) }
{
    if word.is_empty() || word[0] != b'[' {
        return Ok(word);
    }
    inside.clear();
    inside.extend_from_slice(word.split_at(1).1)?;
    inside.pop();
    unescape(inside);
    Ok(inside.as_slice())
}

/// Like `text_of`, as a copy.
pub(crate) fn word_text(alloc: Global, word: &[u8]) -> Result<Vec<u8>, AllocError>
    ensures { IfOk result (λ text. text.items ≡ text_of_word word.now) }
{
    let mut inside = Vec::new(alloc);
    text_of(word, &mut inside)?.to_vec(alloc)
}
