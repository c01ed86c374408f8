//! A list of texts in one piece of memory.

ghost use Rattle.std.specs.Prelude.{◌≡◌, ◌∷◌, ◌++◌, [], if◌then◌else◌, is_ok, length};
ghost use Rattle.std.specs.Iterator.{YieldsFirstRef, item_count};

use std::alloc::{AllocError, Global};
use std::marker::Model;

/// A list of texts whose bytes are in one buffer: a text takes four bytes of memory besides its own.
#[derive(Debug, Drop)]
pub struct Texts {
    bytes: Vec<u8>,
    lengths: Vec<u32>,
}

impl Model for Texts {
    ghost use Rattle.std.specs.Prelude.{◌≡◌, ℕ, List, length, sum};
    ghost use Rattle.pam_text.specs.Texts.{cut_lengths};

    ghost Value = { List (List ℕ) };

    ghost view = { λ t. cut_lengths t.lengths.items t.bytes.items };

    ghost invariant = { λ t. sum t.lengths.items ≡ length t.bytes.items };
}

impl Texts {
    /// Returns an empty list. Does not allocate.
    pub fn new(alloc: Global) -> Texts
        ensures { result ≡ [] }
    {
        Texts {
            bytes: Vec::new(alloc),
            lengths: Vec::new(alloc),
        }
    }

    /// Appends a copy of `text`; if it fails, the list is unchanged. A text of 4 GiB or more counts as a failed
    /// allocation.
    pub fn push(&mut self, text: &[u8]) -> Result<(), AllocError>
        ensures { self.new ≡ (if is_ok result then self.old ++ text.now ∷ [] else self.old) }
    {
        let Ok(length) = u32::try_from(text.len()) else {
            return Err(AllocError);
        };
        let start = self.bytes.len();
        self.bytes.extend_from_slice(text)?;
        match self.lengths.push(length) {
            Ok(()) => Ok(()),
            Err(_) => {
                self.bytes.truncate(start);
                Err(AllocError)
            }
        }
    }

    /// The number of texts.
    pub fn len(&self) -> usize
        ensures { result ≡ length self.now }
    {
        self.lengths.len()
    }

    /// Returns an iterator over the texts.
    pub fn iter(&self) -> TextsIter<'_>
        ensures { result ≡ self.now }
    {
        TextsIter {
            bytes: self.bytes.as_slice(),
            lengths: self.lengths.as_slice(),
        }
    }
}

/// An iterator over a list of texts.
#[derive(Drop)]
pub struct TextsIter<'a> {
    bytes: &'a [u8],
    lengths: &'a [u32],
}

/// Seen as the remaining texts.
impl<'a> Model for TextsIter<'a> {
    ghost use Rattle.std.specs.Prelude.{◌≡◌, ℕ, List, length, sum};
    ghost use Rattle.pam_text.specs.Texts.{cut_lengths};

    ghost Value = { List (List ℕ) };

    ghost view = { λ t. cut_lengths t.lengths.now t.bytes.now };

    ghost invariant = { λ t. sum t.lengths.now ≡ length t.bytes.now };
}

impl<'a> Iterator for TextsIter<'a> {
    type Item = &'a [u8];

    ghost next_gives = { YieldsFirstRef (λ rest. rest) };

    ghost remaining = { item_count (λ rest. rest) };

    fn next(&mut self) -> Option<&'a [u8]> {
        let (length, lengths) = self.lengths.split_first()?;
        let (text, bytes) = self.bytes.split_at(*length as usize);
        self.bytes = bytes;
        self.lengths = lengths;
        Some(text)
    }
}
