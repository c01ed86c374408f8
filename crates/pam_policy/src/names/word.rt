//! Words of a rule that name nothing of a host, each once.

ghost use Rattle.std.specs.Prelude.{◌≡◌, ◌∷◌, [], IfOk, OnOk, map};
ghost use Rattle.std.specs.List.{list_any};
ghost use Rattle.std.specs.Option.{option_map};
ghost use Rattle.std.specs.Str.{bytes_eq};
ghost use Rattle.pam_policy.specs.names.Words.{misnamed_view, says_same, with_word, word_view};

use std::alloc::{AllocError, Global};

/// A word that names nothing.
#[derive(Debug, Drop, PartialEq)]
pub struct Word {
    /// As it is written.
    pub text: Vec<u8>,
    /// The nearest right word, if one is near.
    pub nearest: Option<Vec<u8>>,
}

/// The key of a test that no argument has.
#[derive(Debug, Drop, PartialEq)]
pub struct Argument {
    /// The name of the module in its event, as it is written.
    pub name: Vec<u8>,
    /// With `=` if the arguments have values.
    pub key: Vec<u8>,
    /// The nearest key that such a module has.
    pub nearest: Vec<u8>,
}

/// A word of a rule that names nothing of a host.
#[derive(Debug, Drop, PartialEq)]
pub enum Misnamed {
    /// P3: the name of a token is no service.
    NoService(Word),
    /// P3: the rule fits no service.
    FitsNone,
    /// P4: no call has the module of an event, nor is one of its name known.
    NoModule(Word),
    /// P7: no module of an event has an argument with the key of a test, and a near one is there.
    NoArgument(Argument),
}

fn owned_if_any(alloc: Global, word: Option<&[u8]>) -> Result<Option<Vec<u8>>, AllocError>
    ensures { IfOk result (λ owned. option_map (λ w. w.items) owned ≡ option_map (λ w. w.now) word.entry) }
{
    match word {
        Some(word) => Ok(Some(Vec::from_slice(alloc, word)?)),
        None => Ok(None),
    }
}

impl Word {
    /// A word, and the nearest right one.
    pub(crate) fn of(alloc: Global, text: &[u8], nearest: Option<&[u8]>) -> Result<Word, AllocError>
        ensures { IfOk result (λ word. word_view word ≡ record { text = text.now; nearest = option_map (λ w. w.now) nearest.entry }) }
    {
        let nearest = owned_if_any(alloc, nearest)?;
        let text = Vec::from_slice(alloc, text)?;
        Ok(Word { text, nearest })
    }
}

fn is_same(text: &[u8], other: &[u8]) -> bool
    ensures { result ≡ bytes_eq text.now other.now }
{
    text == other
}

/// Whether the same is said of the same word.
fn says_same(misnamed: &Misnamed, other: &Misnamed) -> bool
    ensures { result ≡ says_same (misnamed_view misnamed.now) (misnamed_view other.now) }
{
    match (misnamed, other) {
        (Misnamed::NoService(word), Misnamed::NoService(other)) => is_same(&word.text, &other.text),
        (Misnamed::FitsNone, Misnamed::FitsNone) => true,
        (Misnamed::NoModule(word), Misnamed::NoModule(other)) => is_same(&word.text, &other.text),
        (Misnamed::NoArgument(argument), Misnamed::NoArgument(other)) => {
            is_same(&argument.name, &other.name) && is_same(&argument.key, &other.key)
        }
        _ => false,
    }
}

fn is_said(said: &[Misnamed], misnamed: &Misnamed) -> bool
    ensures { result ≡ list_any (λ other. says_same (misnamed_view misnamed.now) (misnamed_view other)) said.now }
{
    said.iter().any(|other| says_same(misnamed, other))
}

/// Appends what is said of a word, unless it is said already.
pub(crate) fn say(said: &mut Vec<Misnamed>, misnamed: Misnamed) -> Result<(), AllocError>
    ensures { OnOk result (map misnamed_view said.new.items ≡ with_word (map misnamed_view said.old.items) (misnamed_view misnamed)) }
{
    if !is_said(said, &misnamed) {
        said.push(misnamed)?;
    }
    Ok(())
}
