//! Tests of the arguments of a module.

ghost use Rattle.std.specs.Prelude.{◌≡◌, ◌≤◌, ◌<◌, ◌==◌, IfOk, IfSome, length, nat_eq, position};
ghost use Rattle.std.specs.List.{list_any, prefix_len, starts_with};
ghost use Rattle.std.specs.Str.{bytes_eq};
ghost use Rattle.std.specs.Option.{option_map};
ghost use Rattle.pam_tables.specs.Options.{value_of};
ghost use Rattle.pam_policy.specs.text.Tests.{argument_key, compares, comparison_of, has_wanted, holds};
ghost use Rattle.pam_policy.specs.text.Tests.{is_key_byte, key_of, key_value, last_value, number_wanted};
ghost use Rattle.pam_policy.specs.text.Tests.{test_of, test_view, text_wanted, value_compares, wanted_of, wanted_view};

use crate::text::number::number;
use pam_text::Texts;
use std::alloc::{AllocError, Global};

/// How a number has to compare with another.
#[derive(Clone, Copy, Debug, PartialEq, Eq)]
pub enum Comparison {
    Below,
    AtMost,
    Above,
    AtLeast,
}

/// What is wanted of the arguments of a module.
#[derive(Clone, Copy)]
pub enum Wanted<'a> {
    /// An argument that is this text.
    Argument(&'a [u8]),
    /// An argument that begins with this text, which ends in `=`.
    Beginning(&'a [u8]),
    /// The last argument that begins with the key and `=` goes on with a number, which compares so with this one.
    Number(&'a [u8], Comparison, i32),
}

/// A test of the arguments of a module, without its brackets.
#[derive(Clone, Copy)]
pub struct Test<'a> {
    /// Whether it has `!`, so that it holds where what is wanted is not there.
    pub is_inverted: bool,
    pub wanted: Wanted<'a>,
}

/// The number of bytes before the first of `<`, `>` and `=`.
fn key_len(text: &[u8]) -> usize
    ensures value { result ≡ prefix_len is_key_byte text.now }
    ensures bound { result ≤ length text.now }
{
    text.iter()
        .take_while(|b| !(**b == b'<' || **b == b'>' || **b == b'='))
        .count()
}

/// Cuts a text after the comparison that it begins with.
#[tactic(auto, unfolding(crate::specs::text::Tests::comparison_of))]
fn cut_comparison(text: &[u8]) -> Option<(Comparison, &[u8])>
    ensures { option_map (λ p. (p.0, p.1.now)) result ≡ comparison_of text.now }
{
    if text.starts_with(b"<=") {
        Some((Comparison::AtMost, text.split_at(2).1))
    } else if text.starts_with(b">=") {
        Some((Comparison::AtLeast, text.split_at(2).1))
    } else if text.starts_with(b"<") {
        Some((Comparison::Below, text.split_at(1).1))
    } else if text.starts_with(b">") {
        Some((Comparison::Above, text.split_at(1).1))
    } else {
        None
    }
}

/// The key, the comparison and the number of a text, if it is that.
#[tactic(auto, unfolding(crate::specs::text::Tests::number_wanted))]
fn number_wanted(text: &[u8]) -> Option<Wanted<'_>>
    ensures { option_map wanted_view result ≡ number_wanted text.now }
{
    let (key, rest) = text.split_at(key_len(text));
    if key.is_empty() {
        return None;
    }
    let (comparison, digits) = cut_comparison(rest)?;
    Some(Wanted::Number(key, comparison, number(digits)?))
}

fn text_wanted(text: &[u8]) -> Wanted<'_>
    ensures { wanted_view result ≡ text_wanted text.now }
{
    if text.ends_with(b"=") {
        Wanted::Beginning(text)
    } else {
        Wanted::Argument(text)
    }
}

#[tactic(auto, unfolding(crate::specs::text::Tests::wanted_of))]
fn read_wanted(text: &[u8]) -> Option<Wanted<'_>>
    ensures { option_map wanted_view result ≡ wanted_of text.now }
{
    if text.is_empty() {
        return None;
    }
    match number_wanted(text) {
        Some(wanted) => Some(wanted),
        None => Some(text_wanted(text)),
    }
}

fn equals_at(argument: &[u8]) -> Option<usize>
    ensures value { result ≡ position (λ b. b == 61) argument.now }
    ensures bound { IfSome result (λ i. i < length argument.now) }
{
    argument.iter().position(|byte| *byte == b'=')
}

/// The key of an argument: its text up to and with its first `=`, or else the text.
#[tactic(auto, unfolding(crate::specs::text::Tests::argument_key))]
pub fn argument_key(argument: &[u8]) -> &[u8]
    ensures { result.now ≡ argument_key argument.now }
{
    match equals_at(argument) {
        Some(index) => argument.split_at(index + 1).0,
        None => argument,
    }
}

/// What is after a text with which an argument begins.
fn after<'a>(text: &[u8], argument: &'a [u8]) -> Option<&'a [u8]>
    ensures { option_map (λ v. v.now) result ≡ value_of text.now argument.now }
{
    argument.strip_prefix(text)
}

/// The value of an argument with this key.
fn value<'a>(key: &[u8], argument: &'a [u8]) -> Option<&'a [u8]>
    ensures { option_map (λ v. v.now) result ≡ key_value key.now argument.now }
{
    after(b"=", after(key, argument)?)
}

/// The value of the last argument with this key.
fn last_value<'a>(key: &[u8], arguments: &'a Texts) -> Option<&'a [u8]>
    ensures { option_map (λ v. v.now) result ≡ last_value key.now arguments.now }
{
    let mut last = None;
    for argument in arguments.iter() {
        last = value(key, argument).or(last);
    }
    last
}

impl Comparison {
    fn holds(self, number: i32, other: i32) -> bool
        ensures { result ≡ compares self number other }
    {
        match self {
            Comparison::Below => number < other,
            Comparison::AtMost => number <= other,
            Comparison::Above => number > other,
            Comparison::AtLeast => number >= other,
        }
    }

    /// Whether a value is a number that compares so with this one.
    fn holds_of_value(self, wanted: i32, value: &[u8]) -> bool
        ensures { result ≡ value_compares self wanted value.now }
    {
        match number(value) {
            Some(number) => self.holds(number, wanted),
            None => false,
        }
    }
}

/// Whether an argument is this text.
fn has_argument(text: &[u8], arguments: &Texts) -> bool
    ensures { result ≡ list_any (λ argument. bytes_eq argument text.now) arguments.now }
{
    arguments.iter().any(|argument| argument == text)
}

/// Whether an argument begins with this text.
fn has_beginning(text: &[u8], arguments: &Texts) -> bool
    ensures { result ≡ list_any (λ argument. starts_with nat_eq argument text.now) arguments.now }
{
    arguments.iter().any(|argument| argument.starts_with(text))
}

impl<'a> Wanted<'a> {
    fn is_in(&self, arguments: &Texts) -> bool
        ensures { result ≡ has_wanted arguments.now (wanted_view self.now) }
    {
        match self {
            Wanted::Argument(text) => has_argument(text, arguments),
            Wanted::Beginning(text) => has_beginning(text, arguments),
            Wanted::Number(key, comparison, number) => match last_value(key, arguments) {
                Some(value) => comparison.holds_of_value(*number, value),
                None => false,
            },
        }
    }
}

impl<'a> Test<'a> {
    /// The test of a text between brackets, if it is one.
    #[tactic(auto, unfolding(crate::specs::text::Tests::test_of))]
    pub(crate) fn read(text: &'a [u8]) -> Option<Test<'a>>
        ensures { option_map test_view result ≡ test_of text.now }
    {
        if text.starts_with(b"!") {
            Some(Test {
                is_inverted: true,
                wanted: read_wanted(text.split_at(1).1)?,
            })
        } else {
            Some(Test {
                is_inverted: false,
                wanted: read_wanted(text)?,
            })
        }
    }

    /// Whether the test holds of the arguments of a rule.
    #[tactic(auto, unfolding(crate::specs::text::Tests::holds))]
    pub fn holds(&self, arguments: &Texts) -> bool
        ensures { result ≡ holds (test_view self.now) arguments.now }
    {
        if self.is_inverted {
            !self.wanted.is_in(arguments)
        } else {
            self.wanted.is_in(arguments)
        }
    }

    /// The key of the arguments that the test looks at: with `=` if they have values.
    pub fn key(&self, alloc: Global) -> Result<Vec<u8>, AllocError>
        ensures { IfOk result (λ key. key.items ≡ key_of (wanted_view self.now.wanted)) }
    {
        match self.wanted {
            Wanted::Argument(text) | Wanted::Beginning(text) => {
                Vec::from_slice(alloc, argument_key(text))
            }
            Wanted::Number(key, _, _) => {
                let mut key = Vec::from_slice(alloc, key)?;
                key.push(b'=')?;
                Ok(key)
            }
        }
    }
}
