//! The arguments that a module knows.

ghost use Rattle.std.specs.Prelude.{◌≡◌};
ghost use Rattle.pam_facts.specs.arguments.Rows.{begins, ends_in_equals, is_longer, is_same, is_whole, may_follow, row_of, stem};
ghost use Rattle.pam_facts.specs.arguments.Views.{row_view};

use crate::arguments::cuts::{cut_once, has_mark, split, without_mark};

/// An argument: the word, or its beginning where that ends in `=`.
#[derive(Clone, Copy)]
pub(crate) struct Row<'t> {
    pub(crate) argument: &'t [u8],
    /// Whether the word counts in any case.
    any_case: bool,
    /// Whether `=` and anything may follow.
    may_have_value: bool,
    /// Whether the module takes each word that begins so for this one.
    may_be_longer: bool,
    /// The values that are right, if not all are.
    pub(crate) value: Option<&'t [u8]>,
    /// The kinds in which the module then stores passwords by a hash that is broken.
    pub(crate) weak_in: Option<&'t [u8]>,
    /// The kinds in which the module reads it, if not those of most.
    pub(crate) kinds: Option<&'t [u8]>,
}

/// Whether two words are one.
fn is_same(any_case: bool, word: &[u8], other: &[u8]) -> bool
    ensures { result ≡ is_same any_case word.now other.now }
{
    if any_case {
        word.eq_ignore_ascii_case(other)
    } else {
        word == other
    }
}

/// Whether a word begins so.
pub(crate) fn begins(any_case: bool, word: &[u8], front: &[u8]) -> bool
    ensures { result ≡ begins any_case word.now front.now }
{
    is_same(any_case, split(word, front.len()).0, front)
}

fn ends_in_equals(argument: &[u8]) -> bool
    ensures { result ≡ ends_in_equals argument.now }
{
    argument.ends_with(b"=")
}

/// An argument without the `=` at its end.
fn stem(argument: &[u8]) -> &[u8]
    ensures { result.now ≡ stem argument.now }
{
    if ends_in_equals(argument) {
        split(argument, argument.len().saturating_sub(1)).0
    } else {
        argument
    }
}

impl<'t> Row<'t> {
    /// The row that a word of the table is.
    #[tactic(auto, unfolding(crate::specs::arguments::Rows::row_of))]
    pub(crate) fn of(word: &'t [u8]) -> Row<'t>
        ensures { row_view result ≡ row_of word.now }
    {
        let (form, kinds) = cut_once(word, b'@');
        let (valued, weak_in) = cut_once(form, b'!');
        let (marked, value) = cut_once(valued, b':');
        let bare = without_mark(marked, b'*');
        let plain = without_mark(bare, b'?');
        Row {
            argument: without_mark(plain, b'~'),
            any_case: has_mark(marked, b'*'),
            may_have_value: has_mark(bare, b'?'),
            may_be_longer: has_mark(plain, b'~'),
            value,
            weak_in,
            kinds,
        }
    }

    /// Whether these bytes may follow the argument.
    fn may_follow(&self, rest: &[u8]) -> bool
        ensures { result ≡ may_follow (row_view self.now) rest.now }
    {
        match rest {
            [] => true,
            [first, ..] => {
                ends_in_equals(self.argument) || self.may_have_value && *first == b'='
            }
        }
    }

    /// Whether a word is the argument, perhaps with its value.
    #[tactic(auto, unfolding(crate::specs::arguments::Rows::is_whole))]
    pub(crate) fn is_whole(&self, word: &[u8]) -> bool
        ensures { result ≡ is_whole (row_view self.now) word.now }
    {
        let (front, rest) = split(word, self.argument.len());
        is_same(self.any_case, front, self.argument) && self.may_follow(rest)
    }

    /// Whether the module takes a word for the argument, since it begins so.
    #[tactic(auto, unfolding(crate::specs::arguments::Rows::is_longer))]
    pub(crate) fn is_longer(&self, word: &[u8]) -> bool
        ensures { result ≡ is_longer (row_view self.now) word.now }
    {
        let stem = stem(self.argument);
        self.may_be_longer && is_same(self.any_case, split(word, stem.len()).0, stem)
    }
}
