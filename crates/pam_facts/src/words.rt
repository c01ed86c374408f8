//! The words of a line.

ghost use Rattle.std.specs.Prelude.{◌≡◌, ◌∷◌, ◌≤◌, ◌<◌, [], MatchOption, length, not};
ghost use Rattle.std.specs.List.{prefix_len};
ghost use Rattle.std.specs.Iterator.{YieldsFirstRef, item_count};
ghost use Rattle.pam_text.specs.Blanks.{is_table_blank};
ghost use Rattle.pam_facts.specs.Words.{words_of};

use pam_text::is_table_blank;

/// The number of leading blanks.
fn blank_len(text: &[u8]) -> usize
    ensures value { result ≡ prefix_len is_table_blank text.now }
    ensures bound { result ≤ length text.now }
{
    text.iter().take_while(|b| is_table_blank(**b)).count()
}

/// The number of bytes before the first blank.
fn word_len(text: &[u8]) -> usize
    ensures value { result ≡ prefix_len (λ b. not (is_table_blank b)) text.now }
    ensures bound { result ≤ length text.now }
{
    text.iter().take_while(|b| !is_table_blank(**b)).count()
}

/// The first word of a line, and the bytes after it.
pub(crate) fn first_word(line: &[u8]) -> Option<(&[u8], &[u8])>
    ensures { MatchOption result (words_of line.now ≡ []) (λ p. words_of line.now ≡ p.0.now ∷ words_of p.1.now) }
{
    let rest = line.split_at(blank_len(line)).1;
    if rest.is_empty() {
        return None;
    }
    Some(rest.split_at(word_len(rest)))
}

/// An iterator over the words of a line.
#[derive(Drop)]
pub(crate) struct Words<'a> {
    rest: &'a [u8],
}

impl<'a> Words<'a> {
    pub(crate) fn of(rest: &'a [u8]) -> Self
        ensures { words_of result.rest.now ≡ words_of rest.now }
    {
        Words { rest }
    }
}

impl<'a> Iterator for Words<'a> {
    type Item = &'a [u8];

    ghost next_gives = { YieldsFirstRef (λ s. words_of s.rest.now) };

    ghost remaining = { item_count (λ s. words_of s.rest.now) };

    fn next(&mut self) -> Option<&'a [u8]> {
        let (word, rest) = first_word(self.rest)?;
        self.rest = rest;
        Some(word)
    }
}
