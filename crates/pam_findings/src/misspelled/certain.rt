//! Whether the nearest right word is certain: no other right word is as near.

ghost use Rattle.std.specs.Prelude.{◌≡◌, IfOk, false, filter, map, not};
ghost use Rattle.std.specs.Option.{option_map};
ghost use Rattle.std.specs.Str.{bytes_eq};
ghost use Rattle.pam_facts.specs.arguments.Modules.{name_part};
ghost use Rattle.pam_findings.specs.misspelled.Certain.{is_alone, is_certain, is_certain_argument, is_certain_fault, is_certain_word};
ghost use Rattle.pam_findings.specs.misspelled.Certain.{known_arguments, others, words_of_control, words_of_fault};

use crate::misspelled::actions::after_sign;
use crate::misspelled::right_words::{controls, in_lowercase, kinds, values};
use pam_codes::ControlError;
use pam_conf::FaultKind;
use pam_facts::arguments::Arguments;
use pam_facts::module_name;
use pam_spelling::nearest;
use pam_text::cut;
use std::alloc::{AllocError, Global};

fn is_other(word: &[u8], found: &[u8]) -> bool
    ensures { result ≡ not (bytes_eq word.now found.now) }
{
    word != found
}

/// The words but one.
fn all_others<'a>(
    alloc: Global,
    words: &[&'a [u8]],
    found: &[u8],
) -> Result<Vec<&'a [u8]>, AllocError>
    ensures { IfOk result (λ rest. rest.items ≡ filter (λ w. not (bytes_eq w.now found.now)) words.now) }
{
    words
        .iter()
        .copied()
        .filter(|word| is_other(word, found))
        .collect(alloc)
}

/// The same, by their bytes.
fn others<'a>(alloc: Global, words: &[&'a [u8]], found: &[u8]) -> Result<Vec<&'a [u8]>, AllocError>
    ensures { IfOk result (λ rest. map (λ w. w.now) rest.items ≡ others (map (λ w. w.now) words.now) found.now) }
{
    let rest = all_others(alloc, words, found)?;
    Ok(rest)
}

/// Whether a word that was found among others is the nearest also where it comes after all of them.
fn is_alone<'a>(
    alloc: Global,
    words: &[&'a [u8]],
    word: &[u8],
    found: &'a [u8],
) -> Result<bool, AllocError>
    ensures { IfOk result (λ alone. alone ≡ is_alone (map (λ w. w.now) words.now) word.now found.now) }
{
    let mut rest = others(alloc, words, found)?;
    rest.push(found)?;
    match nearest(&rest, word) {
        Some(first) => Ok(found == first),
        None => Ok(false),
    }
}

/// Whether the word that was found, if one was, is alone.
pub(crate) fn is_certain<'a>(
    alloc: Global,
    words: &[&'a [u8]],
    word: &[u8],
    found: Option<&'a [u8]>,
) -> Result<bool, AllocError>
    ensures { IfOk result (λ certain. certain ≡ is_certain (map (λ w. w.now) words.now) word.now (option_map (λ w. w.now) found.entry)) }
{
    match found {
        Some(found) => is_alone(alloc, words, word, found),
        None => Ok(false),
    }
}

/// The words with which one in a control is compared.
fn words_of_control(alloc: Global, error: ControlError) -> Result<Vec<&'static [u8]>, AllocError>
    ensures { IfOk result (λ words. map (λ w. w.now) words.items ≡ words_of_control error) }
{
    match error {
        ControlError::BadControl => controls(alloc),
        ControlError::BadValue => values(alloc),
        ControlError::BadAction => after_sign(alloc),
        ControlError::ZeroJump | ControlError::OpenBracket => Ok(Vec::new(alloc)),
    }
}

/// The words with which one is compared that is wrong by a fault, unless it is the name of a file.
fn words_of_fault(alloc: Global, fault: FaultKind) -> Result<Vec<&'static [u8]>, AllocError>
    ensures { IfOk result (λ words. map (λ w. w.now) words.items ≡ words_of_fault fault) }
{
    match fault {
        FaultKind::BadKind => kinds(alloc),
        FaultKind::Control(error) => words_of_control(alloc, error),
        _ => Ok(Vec::new(alloc)),
    }
}

/// Whether the word that was found for one that is wrong by a fault is certain, if it is no name of a file.
fn is_certain_word<'a>(
    alloc: Global,
    fault: FaultKind,
    word: &[u8],
    found: Option<&'a [u8]>,
) -> Result<bool, AllocError>
    ensures { IfOk result (λ certain. certain ≡ is_certain_word fault word.now (option_map (λ w. w.now) found.entry)) }
{
    let words: Vec<&'a [u8]> = words_of_fault(alloc, fault)?;
    let lower = in_lowercase(alloc, word)?;
    is_certain(alloc, &words, &lower, found)
}

/// Whether the word that was found for one that is wrong by a fault is certain, where these are the names of files.
pub(crate) fn is_certain_fault<'a>(
    alloc: Global,
    names: &[&'a [u8]],
    fault: FaultKind,
    word: &[u8],
    found: Option<&'a [u8]>,
) -> Result<bool, AllocError>
    ensures { IfOk result (λ certain. certain
        ≡ is_certain_fault (map (λ w. w.now) names.now) fault word.now (option_map (λ w. w.now) found.entry)) }
{
    match fault {
        FaultKind::NoService => is_certain(alloc, names, word, found),
        _ => is_certain_word(alloc, fault, word, found),
    }
}

/// The name of an argument: the word up to its first `=`, and with it.
#[tactic(auto, unfolding(pam_facts::specs::arguments::Cuts::after))]
pub fn name_part(word: &[u8]) -> &[u8]
    ensures { result.now ≡ name_part word.now }
{
    match cut(word, b'=') {
        Some((_, value)) => word.split_at(word.len().saturating_sub(value.len())).0,
        None => word,
    }
}

/// The arguments that the module at a path knows.
fn known_arguments(
    alloc: Global,
    arguments: &Arguments,
    path: &[u8],
) -> Result<Vec<&'static [u8]>, AllocError>
    ensures { IfOk result (λ known. map (λ w. w.now) known.items ≡ known_arguments path.now) }
{
    let Some(name) = module_name(path) else {
        return Ok(Vec::new(alloc));
    };
    match arguments.of(name) {
        Some(known) => known.arguments(alloc),
        None => Ok(Vec::new(alloc)),
    }
}

/// Whether the argument that was found for one of the module at a path is certain.
pub(crate) fn is_certain_argument(
    alloc: Global,
    arguments: &Arguments,
    path: &[u8],
    word: &[u8],
    found: Option<&'static [u8]>,
) -> Result<bool, AllocError>
    ensures { IfOk result (λ certain. certain ≡ is_certain_argument path.now word.now (option_map (λ w. w.now) found.entry)) }
{
    let known = known_arguments(alloc, arguments, path)?;
    is_certain(alloc, &known, name_part(word), found)
}
