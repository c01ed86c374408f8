//! Lists of texts that are passed in one piece.

ghost use Rattle.std.specs.Prelude.{◌≡◌, IfOk, take, MatchOption, drop, map, string_bytes};
ghost use Rattle.std.specs.List.{AllByRecursion};
ghost use Rattle.std.specs.Str.{IsUtf8};
ghost use Rattle.pam_text.specs.Texts.{cut_lengths};

use crate::memory::first;
use std::alloc::{AllocError, Global};

/// A list of texts: the length of each, and the bytes of all, one text after the other. Where there are fewer bytes than the lengths
/// say, the last texts are shorter.
#[derive(Clone, Copy)]
pub(crate) struct Packed<'a> {
    pub(crate) lengths: &'a [u32],
    pub(crate) bytes: &'a [u8],
}

/// The bytes after the first ones, of which there are at most as many as `count`.
#[tactic(auto, using(crate::proofs::Firsts::drop_fewer))]
fn after_first(bytes: &[u8], count: usize) -> &[u8]
    ensures { result.now ≡ drop count bytes.now }
{
    &bytes[count.min(bytes.len())..]
}

impl<'a> Packed<'a> {
    /// Returns the texts.
    pub(crate) fn texts(self, alloc: Global) -> Result<Vec<&'a [u8]>, AllocError>
        ensures { IfOk result (λ texts. map (λ t. t.now) texts.items ≡ cut_lengths self.entry.lengths.now self.entry.bytes.now) }
    {
        let mut texts = Vec::new(alloc);
        let mut rest = self.bytes;
        for length in self.lengths {
            texts.push(first(rest, *length as usize))?;
            rest = after_first(rest, *length as usize);
        }
        Ok(texts)
    }
}

/// Returns a word, or `None` if it is not UTF-8.
fn word_of(alloc: Global, text: &[u8]) -> Result<Option<String>, AllocError>
    ensures { IfOk result (λ r. MatchOption r (¬ (IsUtf8 text.now)) (λ word. (string_bytes word ≡ text.now) × IsUtf8 text.now)) }
{
    match std::str::from_utf8(text) {
        Ok(word) => Ok(Some(String::from_str(alloc, word)?)),
        Err(_) => Ok(None),
    }
}

/// Returns the words, or `None` if one is not UTF-8.
pub(crate) fn words_of(alloc: Global, texts: &[&[u8]]) -> Result<Option<Vec<String>>, AllocError>
    ensures { IfOk result (λ r. MatchOption r (¬ (AllByRecursion IsUtf8 (map (λ t. t.now) texts.now)))
        (λ words. (map string_bytes words.items ≡ map (λ t. t.now) texts.now) × AllByRecursion IsUtf8 (map (λ t. t.now) texts.now))) }
{
    let mut words = Vec::new(alloc);
    for text in texts {
        match word_of(alloc, text)? {
            Some(word) => words.push(word)?,
            None => return Ok(None),
        }
    }
    Ok(Some(words))
}
