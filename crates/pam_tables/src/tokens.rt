//! The tokens of a list, as in access.conf(5): checking them and matching them.

ghost use Rattle.std.specs.Prelude.{◌≡◌, ◌≤◌, ◌∷◌, ◌||◌, [], List, Ok, MatchOption, length, map, not, ◌==◌};
ghost use Rattle.std.specs.List.{prefix_len};
ghost use Rattle.std.specs.Iterator.{YieldsFirstRef, item_count};
ghost use Rattle.pam_tables.specs.Error.{verdict};
ghost use Rattle.pam_tables.specs.Lines.{is_among, is_blank};
ghost use Rattle.pam_tables.specs.Lists.{list_matches as list_matches_of};
ghost use Rattle.pam_tables.specs.Tokens.{tokens_of, each_token};

use crate::error::TableFault;
use crate::lines::trim_end;
use crate::lists::{ListState, Mark};
use pam_text::{ByteSet, is_table_blank};

/// The length of the leading separators and blanks.
fn gap_len(text: &[u8], separators: &ByteSet<'_>) -> usize
    ensures value { result ≡ prefix_len (λ b. is_among separators.now.bytes.now b || is_blank b) text.now }
    ensures bound { result ≤ length text.now }
{
    text.iter()
        .take_while(|b| separators.has(**b) || is_table_blank(**b))
        .count()
}

/// The length of the text before the first separator.
fn part_len(text: &[u8], separators: &ByteSet<'_>) -> usize
    ensures value { result ≡ prefix_len (λ b. not (is_among separators.now.bytes.now b)) text.now }
    ensures bound { result ≤ length text.now }
{
    text.iter().take_while(|b| !separators.has(**b)).count()
}

/// Splits off the first token. Returns it and the text after it.
pub(crate) fn first_token<'a>(
    text: &'a [u8],
    separators: &ByteSet<'_>,
) -> Option<(&'a [u8], &'a [u8])>
    ensures { MatchOption result (tokens_of separators.now.bytes.now text.now ≡ [])
        (λ p. tokens_of separators.now.bytes.now text.now ≡ p.0.now ∷ tokens_of separators.now.bytes.now p.1.now) }
{
    let rest = text.split_at(gap_len(text, separators)).1;
    if rest.is_empty() {
        return None;
    }
    let (part, after) = rest.split_at(part_len(rest, separators));
    Some((trim_end(part), after))
}

/// Whether a list has a token.
pub(crate) fn has_token(text: &[u8], separators: &ByteSet<'_>) -> bool
    ensures { result ≡ not (length (tokens_of separators.now.bytes.now text.now) == 0) }
{
    gap_len(text, separators) < text.len()
}

/// An iterator over the tokens of a list.
#[derive(Drop)]
pub struct Tokens<'a, 's> {
    rest: &'a [u8],
    separators: &'s ByteSet<'s>,
}

impl<'a, 's> Tokens<'a, 's> {
    /// The tokens of a list: the texts between separators, without blanks at their ends, but for empty ones.
    pub fn of(rest: &'a [u8], separators: &'s ByteSet<'s>) -> Self
        ensures { tokens_of result.separators.now.bytes.now result.rest.now ≡ tokens_of separators.now.bytes.now rest.now }
    {
        Tokens { rest, separators }
    }
}

impl<'a, 's> Iterator for Tokens<'a, 's> {
    type Item = &'a [u8];

    ghost next_gives = { YieldsFirstRef (λ s. tokens_of s.separators.now.bytes.now s.rest.now) };

    ghost remaining = { item_count (λ s. tokens_of s.separators.now.bytes.now s.rest.now) };

    fn next(&mut self) -> Option<&'a [u8]> {
        let (token, rest) = first_token(self.rest, self.separators)?;
        self.rest = rest;
        Some(token)
    }
}

/// What the tokens of a field are matched against.
pub(crate) trait Matcher {
    ghost use Rattle.std.specs.Prelude.{◌≡◌, ℕ, List, Ok, Result};
    ghost use Rattle.pam_tables.specs.Error.{verdict};
    ghost use Rattle.pam_tables.specs.declared.error.TableFault.{TableFault};
    ghost use Rattle.pam_tables.specs.declared.lists.Mark.{Mark as MarkOf};

    ghost Meaning: { Type 0 };

    ghost meant: { List ℕ → Result Meaning TableFault };

    ghost marked: { Self → Meaning → MarkOf };

    /// Returns the fault of a token, if it has one.
    fn check(token: &[u8]) -> Result<(), TableFault>
        ensures { result ≡ verdict (meant token.now) };

    /// Matches a token. If the token has a fault, the mark means nothing.
    fn mark(&self, token: &[u8]) -> Mark
        ensures { (meaning : Meaning) → meant token.now ≡ Ok meaning → result ≡ marked self.now meaning };
}

/// Checks the tokens of a list, from the left.
pub(crate) fn check_tokens<M: Matcher>(
    text: &[u8],
    separators: &ByteSet<'_>,
) -> Result<(), TableFault>
    ensures { result ≡ verdict (each_token M.meant (tokens_of separators.now.bytes.now text.now)) }
{
    for token in Tokens::of(text, separators) {
        M::check(token)?;
    }
    Ok(())
}

/// Matches a list. If a token has a fault, the answer means nothing.
pub(crate) fn list_matches<M: Matcher>(matcher: &M, text: &[u8], separators: &ByteSet<'_>) -> bool
    ensures { (meanings : List M.Meaning) → each_token M.meant (tokens_of separators.now.bytes.now text.now) ≡ Ok meanings
        → result ≡ list_matches_of (map (M.marked matcher.now) meanings) }
{
    let mut parts = ListState::new();
    for token in Tokens::of(text, separators) {
        parts = parts.then(matcher.mark(token));
    }
    parts.matches()
}
