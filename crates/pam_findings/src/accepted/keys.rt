//! Words that name a finding and its place, and the key that they make.

ghost use Rattle.std.specs.Prelude.{◌≡◌, IfOk, map};
ghost use Rattle.std.specs.List.{join_with_byte};
ghost use Rattle.pam_findings.specs.accepted.Keys.{is_digits, is_finding, is_number, is_numbered};

use pam_conf::Kind;
use std::alloc::{AllocError, Global};

/// Whether a text is one or two digits.
fn is_digits(text: &[u8]) -> bool
    ensures { result ≡ is_digits text.now }
{
    (text.len() == 1 || text.len() == 2) && text.iter().all(|byte| byte.is_ascii_digit())
}

/// Whether a word is these letters and then one or two digits.
fn is_numbered(word: &[u8], letters: &[u8]) -> bool
    ensures { result ≡ is_numbered word.now letters.now }
{
    word.starts_with(letters) && is_digits(word.split_at(letters.len()).1)
}

/// Whether a word is the number of a finding.
#[tactic(auto, unfolding(crate::specs::accepted::Keys::is_number))]
fn is_number(word: &[u8]) -> bool
    ensures { result ≡ is_number word.now }
{
    is_numbered(word, b"E")
        || is_numbered(word, b"L")
        || is_numbered(word, b"S")
        || is_numbered(word, b"A")
        || is_numbered(word, b"T")
        || is_numbered(word, b"TE")
}

/// Whether words are the number of a finding and its place.
pub(crate) fn is_finding(words: &[&[u8]]) -> bool
    ensures { result ≡ is_finding (map (λ word. word.now) words.now) }
{
    match words {
        [number] | [number, _] => is_number(number),
        [number, _, kind] => is_number(number) && Kind::from_name(kind).is_some(),
        _ => false,
    }
}

/// The key of words: one space between each two.
pub(crate) fn key_of(alloc: Global, words: &[&[u8]]) -> Result<Vec<u8>, AllocError>
    ensures { IfOk result (λ key. key.items ≡ join_with_byte 32 (map (λ word. word.now) words.now)) }
{
    let Some((first, others)) = words.split_first() else {
        return Ok(Vec::new(alloc));
    };
    let mut key = Vec::from_slice(alloc, first)?;
    for word in others {
        key.push(b' ')?;
        key.extend_from_slice(word)?;
    }
    Ok(key)
}
