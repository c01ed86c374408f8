//! What is said of a word that is wrong: the nearest right one, or else how to mend it.

ghost use Rattle.std.specs.Prelude.{◌≡◌, IfOk, map};
ghost use Rattle.std.specs.Option.{option_map};
ghost use Rattle.pam_codes.specs.Code.{code_names};
ghost use Rattle.pam_report.specs.Mistakes as spec;
ghost use Rattle.pam_report.specs.declared.fault.naming.Meant.TheVariants as meant;
ghost use Rattle.pam_spelling.specs.Nearest.{nearest};

use super::push_pieces;
use crate::services::lowered;
use pam_codes::{CODES, Code, Piece};
use pam_explain::explanations;
use pam_spelling::nearest;
use std::alloc::{AllocError, Global};

/// What a wrong word stands for.
#[derive(Clone, Copy)]
pub(crate) enum Meant {
    Kind,
    Code,
    Drawing,
    Form,
    Level,
    Answers,
    Setting,
    Candidate,
    File,
    Number,
    Key,
    NoCode,
}

#[tactic(auto, unfolding(crate::specs::Mistakes::said_of))]
fn said_of(meant: Meant) -> &'static str
    ensures { result.now ≡ spec.said_of meant }
{
    match meant {
        Meant::Kind => "is no kind",
        Meant::Code => "is no return code",
        Meant::Drawing | Meant::Form => "is no format",
        Meant::Level => "is no level",
        Meant::Answers => "is no value of --answers",
        Meant::Setting => "is not KEY=CODES",
        Meant::Candidate => "is not NAME=FILE, or its NAME has a slash",
        Meant::File => "is a folder",
        Meant::Number => "is the number of no fault or finding",
        Meant::Key => "of --set names no module",
        Meant::NoCode => "of --set has no code",
    }
}

#[tactic(auto, unfolding(crate::specs::Mistakes::mending_of))]
fn mending_of(meant: Meant) -> &'static str
    ensures { result.now ≡ spec.mending_of meant }
{
    match meant {
        Meant::Kind => "write auth, account, password or session",
        Meant::Code => "write one as success",
        Meant::Drawing => "write dot, mermaid or svg",
        Meant::Form => "write short, full, json, sarif or patch",
        Meant::Level => "write error, warning or note",
        Meant::Answers => "write any or possible",
        Meant::Setting => "write one as pam_unix.so=success",
        Meant::Candidate => "write one as sshd=candidate",
        Meant::File => "write the file of a service, or --dir before it",
        Meant::Number => "write one as S2, or none to list all",
        Meant::Key => "write the name of one as pam_unix.so, with its ending",
        Meant::NoCode => "write one as success",
    }
}

/// What is said of the nearest name, if there is one.
pub(super) fn hint(alloc: Global, near: Option<&[u8]>) -> Result<Vec<u8>, AllocError>
    ensures { IfOk result (λ text. text.items ≡ spec.hint (option_map (λ n. n.now) near.entry)) }
{
    let mut text = Vec::new(alloc);
    if let Some(name) = near {
        text.extend_from_slice(b"; did you mean \"")?;
        text.extend_from_slice(name)?;
        text.extend_from_slice(b"\"?")?;
    }
    Ok(text)
}

/// The nearest right word, or else how to mend it.
fn hint_or(alloc: Global, near: Option<&[u8]>, mending: &[u8]) -> Result<Vec<u8>, AllocError>
    ensures { IfOk result (λ text. text.items ≡ spec.hint_or (option_map (λ n. n.now) near.entry) mending.now) }
{
    if near.is_some() {
        return hint(alloc, near);
    }
    let mut text = Vec::new(alloc);
    text.extend_from_slice(b"; ")?;
    text.extend_from_slice(mending)?;
    Ok(text)
}

/// The bytes of a long word that are shown.
const MAX_SHOWN: usize = 64;

/// The bytes of a word that are shown.
fn front_of(word: &[u8]) -> &[u8]
    ensures { result.now ≡ spec.front_of word.now }
{
    if word.len() > MAX_SHOWN {
        word.split_at(MAX_SHOWN).0
    } else {
        word
    }
}

/// What stands for the others.
fn dots_after(word: &[u8]) -> &'static [u8]
    ensures { result.now ≡ spec.dots_after word.now }
{
    if word.len() > MAX_SHOWN { b".." } else { b"" }
}

/// What is said of a wrong word, and a hint.
fn text_with<'x>(
    alloc: Global,
    word: &'x [u8],
    said: &'x [u8],
    hint: &'x [u8],
) -> Result<Vec<u8>, AllocError>
    ensures { IfOk result (λ text. text.items ≡ spec.text_with word.now said.now hint.now) }
{
    let mut text = Vec::new(alloc);
    push_pieces(
        &mut text,
        &[
            Piece::Bytes(b": \""),
            Piece::Bytes(front_of(word)),
            Piece::Bytes(dots_after(word)),
            Piece::Bytes(b"\" "),
            Piece::Bytes(said),
            Piece::Bytes(hint),
        ],
    )?;
    Ok(text)
}

/// What is said of a wrong word, with the nearest right one, or else how to mend it.
pub(super) fn named_text(
    alloc: Global,
    meant: Meant,
    near: Option<&[u8]>,
    word: &[u8],
) -> Result<Vec<u8>, AllocError>
    ensures { IfOk result (λ text. text.items ≡ spec.named_text meant (option_map (λ n. n.now) near.entry) word.now) }
{
    let hint = hint_or(alloc, near, mending_of(meant).as_bytes())?;
    text_with(alloc, word, said_of(meant).as_bytes(), &hint)
}

/// The names of all codes.
fn names_of_codes(alloc: Global) -> Result<Vec<&'static [u8]>, AllocError>
    ensures { IfOk result (λ names. map (λ n. n.now) names.items ≡ code_names) }
{
    let mut names = Vec::new(alloc);
    for number in 0..CODES as u8 {
        match Code::new(number) {
            Some(code) => names.push(code.name().as_bytes())?,
            None => unreachable!(),
        }
    }
    Ok(names)
}

fn nearest_code(alloc: Global, word: &[u8]) -> Result<Option<&'static [u8]>, AllocError>
    ensures { IfOk result (λ found. option_map (λ w. w.now) found ≡ nearest code_names word.now) }
{
    let names = names_of_codes(alloc)?;
    Ok(nearest(&names, word))
}

#[tactic(auto, unfolding(crate::specs::Mistakes::right_words))]
fn nearest_kind(word: &[u8]) -> Option<&'static [u8]>
    ensures { option_map (λ w. w.now) result ≡ nearest (spec.right_words meant.Kind) word.now }
{
    let words: [&[u8]; 4] = [b"auth", b"account", b"password", b"session"];
    nearest(&words, word)
}

#[tactic(auto, unfolding(crate::specs::Mistakes::right_words))]
fn nearest_drawing(word: &[u8]) -> Option<&'static [u8]>
    ensures { option_map (λ w. w.now) result ≡ nearest (spec.right_words meant.Drawing) word.now }
{
    let words: [&[u8]; 3] = [b"dot", b"mermaid", b"svg"];
    nearest(&words, word)
}

#[tactic(auto, unfolding(crate::specs::Mistakes::right_words))]
fn nearest_form(word: &[u8]) -> Option<&'static [u8]>
    ensures { option_map (λ w. w.now) result ≡ nearest (spec.right_words meant.Form) word.now }
{
    let words: [&[u8]; 5] = [b"short", b"full", b"json", b"sarif", b"patch"];
    nearest(&words, word)
}

#[tactic(auto, unfolding(crate::specs::Mistakes::right_words))]
fn nearest_level(word: &[u8]) -> Option<&'static [u8]>
    ensures { option_map (λ w. w.now) result ≡ nearest (spec.right_words meant.Level) word.now }
{
    let words: [&[u8]; 3] = [b"error", b"warning", b"note"];
    nearest(&words, word)
}

#[tactic(auto, unfolding(crate::specs::Mistakes::right_words))]
fn nearest_answers(word: &[u8]) -> Option<&'static [u8]>
    ensures { option_map (λ w. w.now) result ≡ nearest (spec.right_words meant.Answers) word.now }
{
    let words: [&[u8]; 2] = [b"any", b"possible"];
    nearest(&words, word)
}

/// The nearest of the words that are right.
#[tactic(auto, unfolding(crate::specs::Mistakes::right_words))]
fn nearest_right(
    alloc: Global,
    meant: Meant,
    word: &[u8],
) -> Result<Option<&'static [u8]>, AllocError>
    ensures { IfOk result (λ found. option_map (λ w. w.now) found ≡ nearest (spec.right_words meant) word.now) }
{
    match meant {
        Meant::Kind => Ok(nearest_kind(word)),
        Meant::Code => nearest_code(alloc, word),
        Meant::Drawing => Ok(nearest_drawing(word)),
        Meant::Form => Ok(nearest_form(word)),
        Meant::Level => Ok(nearest_level(word)),
        Meant::Answers => Ok(nearest_answers(word)),
        Meant::Setting
        | Meant::Candidate
        | Meant::File
        | Meant::Number
        | Meant::Key
        | Meant::NoCode => Ok(nearest(&[], word)),
    }
}

/// What is said of a word that is not one of few right ones, whatever their case.
pub(super) fn word_text(alloc: Global, meant: Meant, word: &[u8]) -> Result<Vec<u8>, AllocError>
    ensures { IfOk result (λ text. text.items ≡ spec.word_text meant word.now) }
{
    let lower = lowered(alloc, word)?;
    let near = nearest_right(alloc, meant, &lower)?;
    named_text(alloc, meant, near, word)
}

/// Returns the number of the first fault or finding with this name, whatever its case.
fn number_of_name(name: &str) -> Option<&'static [u8]>
    ensures { option_map (λ n. n.now) result ≡ spec.number_of_name name.now }
{
    for explanation in explanations() {
        if explanation.name.eq_ignore_ascii_case(name) {
            return Some(explanation.number.as_bytes());
        }
    }
    None
}

/// What is said of a word that is the number of no fault or finding.
pub(super) fn number_text(alloc: Global, word: &str) -> Result<Vec<u8>, AllocError>
    ensures { IfOk result (λ text. text.items ≡ spec.number_text word.now) }
{
    named_text(alloc, Meant::Number, number_of_name(word), word.as_bytes())
}
