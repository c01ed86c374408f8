//! Events: a module of a name is asked, with some arguments, and answers one of some codes.

ghost use Rattle.std.specs.Prelude.{◌≡◌, ◌≤◌, ◌<◌, ◌==◌, Err, IfOk, IfSome, MatchResult, Ok, length, map, position};
ghost use Rattle.std.specs.List.{prefix_len};
ghost use Rattle.std.specs.Option.{option_map};
ghost use Rattle.std.specs.Str.{bytes_eq};
ghost use Rattle.pam_policy.specs.text.Events.{codes_or_bare, event_of, event_view, is_keyword, is_name, is_name_byte, names_module};
ghost use Rattle.pam_policy.specs.text.Events.{or_bad, tests_before, without_so};
ghost use Rattle.pam_policy.specs.text.Tests.{test_view};
ghost use Rattle.pam_policy.specs.text.inner.Error.{GivesPart};
ghost use Rattle.pam_policy.specs.text.inner.Events.{next_test, opened_test};

use crate::text::codes::{Codes, codes_in};
use crate::text::error::PolicyFault;
use crate::text::test::Test;
use pam_facts::known::name_of_path;
use pam_facts::module_name;
use std::alloc::Global;

/// A module of a name is asked, its arguments meet tests, and it answers one of some codes.
#[derive(Drop)]
pub struct Event<'a> {
    /// The name of a module, with or without `.so`; or with a slash, the path of one.
    pub name: &'a [u8],
    pub tests: Vec<Test<'a>>,
    pub codes: Codes,
}

/// The number of bytes before the first of `[`, `]` and `=`.
fn name_len(word: &[u8]) -> usize
    ensures value { result ≡ prefix_len is_name_byte word.now }
    ensures bound { result ≤ length word.now }
{
    word.iter()
        .take_while(|b| !(**b == b'[' || **b == b']' || **b == b'='))
        .count()
}

fn is_word(keyword: &[u8], word: &[u8]) -> bool
    ensures { result ≡ bytes_eq keyword.now word.now }
{
    keyword == word
}

fn is_keyword(word: &[u8]) -> bool
    ensures { result ≡ is_keyword word.now }
{
    is_word(b"or", word)
        || is_word(b"and", word)
        || is_word(b"with", word)
        || is_word(b"without", word)
        || is_word(b"before", word)
}

/// Whether a text is not empty and no keyword.
#[tactic(auto, using(crate::proofs::TextProofs::ServiceSteps::bytes_there))]
pub(crate) fn is_name(text: &[u8]) -> bool
    ensures { result ≡ is_name text.now }
{
    !text.is_empty() && !is_keyword(text)
}

fn end_of_test(text: &[u8]) -> Option<usize>
    ensures value { result ≡ position (λ b. b == 93) text.now }
    ensures bound { IfSome result (λ i. i < length text.now) }
{
    text.iter().position(|byte| *byte == b']')
}

/// The test after a bracket, and what is after its end.
#[tactic(auto, unfolding(crate::specs::text::inner::Events::opened_test))]
fn opened_test(text: &[u8]) -> Option<(Test<'_>, &[u8])>
    ensures value { option_map (λ p. (test_view p.0, p.1.now)) result ≡ opened_test text.now }
    ensures shorter { IfSome result (λ p. length p.1.now < length text.now) }
{
    let (inside, rest) = text.split_at(end_of_test(text)?);
    let test = Test::read(inside)?;
    Some((test, rest.split_at(1).1))
}

/// The test with which a text begins, if it begins with a bracket, and what is after it.
#[tactic(auto, unfolding(crate::specs::text::inner::Events::next_test))]
fn next_test(text: &[u8]) -> Result<Option<(Test<'_>, &[u8])>, PolicyFault>
    ensures value { MatchResult result (λ read. next_test text.now ≡ Ok (option_map (λ p. (test_view p.0, p.1.now)) read))
        (λ fault. next_test text.now ≡ Err fault) }
    ensures shorter { IfOk result (λ read. IfSome read (λ p. length p.1.now < length text.now)) }
{
    match text.split_first() {
        Some((first, inside)) if *first == b'[' => match opened_test(inside) {
            Some(read) => Ok(Some(read)),
            None => Err(PolicyFault::BadEvent),
        },
        _ => Ok(None),
    }
}

/// The tests with which a text begins, and what is after them.
fn read_tests(alloc: Global, text: &[u8]) -> Result<(Vec<Test<'_>>, &[u8]), PolicyFault>
    ensures { GivesPart (λ p. (map test_view p.0.items, p.1.now)) result (or_bad (tests_before text.now)) }
{
    let mut tests = Vec::new(alloc);
    let mut rest = text;
    'each: while let Some((test, after)) = next_test(rest)? {
        tests.push(test)?;
        rest = after;
    }
    Ok((tests, rest))
}

/// The codes after `=`, or those of a bare name.
#[tactic(auto, unfolding(crate::specs::text::Events::codes_or_bare))]
fn read_codes(bare: Option<Codes>, text: &[u8]) -> Result<Codes, PolicyFault>
    ensures { result ≡ codes_or_bare bare text.now }
{
    match text.split_first() {
        Some((first, codes)) => {
            if *first == b'=' {
                Ok(Codes::Given(codes_in(codes)?))
            } else {
                Err(PolicyFault::BadEvent)
            }
        }
        None => bare.ok_or(PolicyFault::NoAnswers),
    }
}

/// The name of a module without `.so`, if it ends so.
pub(crate) fn without_so(name: &[u8]) -> &[u8]
    ensures { result.now ≡ without_so name.now }
{
    if name.ends_with(b".so") {
        name.split_at(name.len() - 3).0
    } else {
        name
    }
}

impl<'a> Event<'a> {
    /// The event of a word, where a bare name means these codes, or may not be.
    #[tactic(auto, unfolding(crate::specs::text::Events::event_of))]
    pub(crate) fn read(
        alloc: Global,
        bare: Option<Codes>,
        word: &'a [u8],
    ) -> Result<Event<'a>, PolicyFault>
        ensures { GivesPart event_view result (event_of bare word.now) }
    {
        let (name, text) = word.split_at(name_len(word));
        if !is_name(name) {
            return Err(PolicyFault::BadEvent);
        }
        let (tests, text) = read_tests(alloc, text)?;
        let codes = read_codes(bare, text)?;
        Ok(Event { name, tests, codes })
    }

    /// Whether the event speaks of the module at a path, which has to be one of the system if the event is strict.
    #[tactic(auto, unfolding(crate::specs::text::Events::names_module))]
    pub fn names(&self, path: &[u8], is_strict: bool) -> bool
        ensures { result ≡ names_module self.now.name.now is_strict path.now }
    {
        if self.name.contains(&b'/') {
            return path == self.name;
        }
        if is_strict {
            match module_name(path) {
                Some(name) => name == without_so(self.name),
                None => false,
            }
        } else {
            without_so(name_of_path(path)) == without_so(self.name)
        }
    }
}
