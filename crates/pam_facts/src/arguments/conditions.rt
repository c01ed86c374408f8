//! What pam_succeed_if is to judge: pam_succeed_if(8).

ghost use Rattle.std.specs.Prelude.{◌≡◌, map};
ghost use Rattle.pam_facts.specs.arguments.Conditions.{can_be_judged, fields, flags, is_field, is_flag, is_test, tests};
ghost use Rattle.pam_facts.specs.arguments.inner.Conditions.{fits, is_start, next_part};

use crate::arguments::values::{is_any, is_listed};
use pam_text::Texts;

/// The words that are flags, wherever they stand.
static FLAGS: [&[u8]; 6] = [
    b"debug",
    b"use_uid",
    b"quiet",
    b"quiet_fail",
    b"quiet_success",
    b"audit",
];

/// What is looked at, in any case.
static FIELDS: [&[u8]; 13] = [
    b"user", b"login", b"name", b"uid", b"gid", b"shell", b"home", b"dir", b"homedir", b"ruser",
    b"rhost", b"tty", b"service",
];

/// What it is tested for, in any case.
static TESTS: [&[u8]; 22] = [
    b"<",
    b"lt",
    b"<=",
    b"le",
    b">",
    b"gt",
    b">=",
    b"ge",
    b"eq",
    b"ne",
    b"=",
    b"!=",
    b"=~",
    b"glob",
    b"!~",
    b"noglob",
    b"in",
    b"notin",
    b"ingroup",
    b"notingroup",
    b"innetgr",
    b"notinnetgr",
];

/// A part of a condition.
#[derive(Clone, Copy)]
enum Part {
    Field,
    Test,
    Value,
}

#[tactic(auto, unfolding(crate::specs::arguments::Conditions::flags))]
fn flags() -> &'static [&'static [u8]]
    ensures { map (λ word. word.now) result.now ≡ flags }
{
    &FLAGS
}

#[tactic(auto, unfolding(crate::specs::arguments::Conditions::fields))]
fn fields() -> &'static [&'static [u8]]
    ensures { map (λ word. word.now) result.now ≡ fields }
{
    &FIELDS
}

#[tactic(auto, unfolding(crate::specs::arguments::Conditions::tests))]
fn tests() -> &'static [&'static [u8]]
    ensures { map (λ word. word.now) result.now ≡ tests }
{
    &TESTS
}

fn is_flag(word: &[u8]) -> bool
    ensures { result ≡ is_flag word.now }
{
    is_listed(flags(), word)
}

fn is_field(word: &[u8]) -> bool
    ensures { result ≡ is_field word.now }
{
    is_any(fields(), word)
}

fn is_test(word: &[u8]) -> bool
    ensures { result ≡ is_test word.now }
{
    is_any(tests(), word)
}

impl Part {
    /// The part that comes after this one: after the value the field of the next condition.
    fn next(self) -> Part
        ensures { result ≡ next_part self }
    {
        match self {
            Part::Field => Part::Test,
            Part::Test => Part::Value,
            Part::Value => Part::Field,
        }
    }

    /// Whether a word may be this part.
    fn fits(self, word: &[u8]) -> bool
        ensures { result ≡ fits self word.now }
    {
        match self {
            Part::Field => is_field(word),
            Part::Test => is_test(word),
            Part::Value => true,
        }
    }

    /// Whether no condition has begun.
    fn is_start(self) -> bool
        ensures { result ≡ is_start self }
    {
        match self {
            Part::Field => true,
            Part::Test | Part::Value => false,
        }
    }
}

/// Whether the words of a rule without its flags are conditions.
pub(crate) fn can_be_judged(words: &Texts) -> bool
    ensures { result ≡ can_be_judged words.now }
{
    let mut part = Part::Field;
    for word in words.iter() {
        if is_flag(word) {
            continue;
        }
        if !part.fits(word) {
            return false;
        }
        part = part.next();
    }
    part.is_start()
}
