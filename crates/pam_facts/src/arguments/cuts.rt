//! Texts that are cut at a byte, and marks in front of them.

ghost use Rattle.std.specs.Prelude.{◌≡◌, ℕ, List, drop, take};
ghost use Rattle.std.specs.Iterator.{YieldsFirstRef, item_count};
ghost use Rattle.std.specs.List.{list_any};
ghost use Rattle.std.specs.Option.{option_map};
ghost use Rattle.std.specs.Str.{bytes_eq};
ghost use Rattle.pam_facts.specs.arguments.Cuts.{after, before, has_mark, parts_of, without_mark};
ghost use Rattle.pam_facts.specs.arguments.inner.Cuts.{parts_left};

use pam_text::cut;

/// The texts between separators.
#[derive(Drop)]
pub(crate) struct Parts<'t> {
    separator: u8,
    rest: Option<&'t [u8]>,
}

impl<'t> Parts<'t> {
    /// The parts of a text, of which there is at least one; none where there is no text.
    pub(crate) fn of(text: Option<&'t [u8]>, separator: u8) -> Self
        ensures { parts_left result.separator (option_map (λ t. t.now) result.rest) ≡ parts_left separator (option_map (λ t. t.now) text.entry) }
    {
        Parts {
            separator,
            rest: text,
        }
    }
}

impl<'t> Iterator for Parts<'t> {
    type Item = &'t [u8];

    ghost next_gives = { YieldsFirstRef (λ s. parts_left s.separator (option_map (λ t. t.now) s.rest)) };

    ghost remaining = { item_count (λ s. parts_left s.separator (option_map (λ t. t.now) s.rest)) };

    fn next(&mut self) -> Option<&'t [u8]> {
        let text = self.rest?;
        match cut(text, self.separator) {
            Some((part, rest)) => {
                self.rest = Some(rest);
                Some(part)
            }
            None => {
                self.rest = None;
                Some(text)
            }
        }
    }
}

/// The texts before and after the first separator; all of it is before where there is none.
#[tactic(auto, unfolding(crate::specs::arguments::Cuts::before, crate::specs::arguments::Cuts::after))]
pub(crate) fn cut_once(text: &[u8], separator: u8) -> (&[u8], Option<&[u8]>)
    ensures before { result.0.now ≡ before separator text.now }
    ensures after { option_map (λ t. t.now) result.1 ≡ after separator text.now }
{
    match cut(text, separator) {
        Some((front, rest)) => (front, Some(rest)),
        None => (text, None),
    }
}

/// Whether a word is one of the parts of a text.
pub(crate) fn has_part(text: &[u8], separator: u8, word: &[u8]) -> bool
    ensures { result ≡ list_any (bytes_eq word.now) (parts_of separator text.now) }
{
    for part in Parts::of(Some(text), separator) {
        if part == word {
            return true;
        }
    }
    false
}

/// Whether a text begins with a mark.
pub(crate) fn has_mark(text: &[u8], mark: u8) -> bool
    ensures { result ≡ has_mark mark text.now }
{
    match text {
        [first, ..] => *first == mark,
        [] => false,
    }
}

/// A text without the mark in front.
pub(crate) fn without_mark(text: &[u8], mark: u8) -> &[u8]
    ensures { result.now ≡ without_mark mark text.now }
{
    match text {
        [first, rest @ ..] if *first == mark => rest,
        _ => text,
    }
}

/// The first bytes of a word, at most this many, and the others.
pub(crate) fn split(word: &[u8], count: usize) -> (&[u8], &[u8])
    ensures front { result.0.now ≡ take count word.now }
    ensures rest { result.1.now ≡ drop count word.now }
{
    if word.len() < count {
        word.split_at(word.len())
    } else {
        word.split_at(count)
    }
}
