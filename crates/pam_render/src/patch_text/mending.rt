//! The mendings of a check: a word that is wrong is replaced by the nearest right word, if that is certain.

ghost use Rattle.std.specs.Prelude.{◌≡◌, ◌++◌, IfOk, OnOk, map};
ghost use Rattle.std.specs.Option.{option_map};
ghost use Rattle.std.specs.List.{list_all};
ghost use Rattle.pam_findings.specs.misspelled.Cursors.{IsAt};
ghost use Rattle.pam_findings.specs.misspelled.MisspelledView.{misspelled_view};
ghost use Rattle.pam_render.specs.parts.CheckNames.{word_of};
ghost use Rattle.pam_render.specs.patch_text.Mendings.{are_alike, certain_word, has_sign, if_any, is_mendable, is_plain, is_right_text};
ghost use Rattle.pam_render.specs.patch_text.Mendings.{mending_by, mending_if, mending_of, mending_of_word, mendings_of, takes_in, word_there, wrong_part};
ghost use Rattle.pam_render.specs.patch_text.inner.Views.{mending_view, mendings_view};

use crate::full_text::bytes_after;
use crate::parts::word_at;
use pam_conf::Files;
use pam_facts::known::name_of_path;
use pam_findings::host::{Finding, Place, Problem};
use pam_findings::misspelled::{Cursor, Misspelled, Spot, name_part};
use std::alloc::{AllocError, Global};

/// Bytes of a file give way to a text.
#[derive(Clone, Copy)]
pub(super) struct Mending<'a> {
    /// The position of the file.
    pub file: usize,
    /// The line of the rule.
    pub line: usize,
    /// The line of the file.
    pub at: usize,
    /// How many bytes of the file are left from the first of them on.
    pub from: usize,
    /// How many come after the last of them.
    pub after: usize,
    pub text: &'a [u8],
}

/// The part of a word that is wrong, and how many bytes of the word come before it.
fn wrong_part(problem: Problem, word: &[u8]) -> (usize, &[u8])
    ensures before { result.0 ≡ (wrong_part problem word.now).0 }
    ensures part { result.1.now ≡ (wrong_part problem word.now).1 }
{
    match problem {
        Problem::Argument { .. } => (0, name_part(word)),
        Problem::NoModule { .. } => {
            let name = name_of_path(word);
            (word.len().saturating_sub(name.len()), name)
        }
        _ => (0, word),
    }
}

/// Whether a byte is a part of a word wherever it stands.
fn is_plain(byte: u8) -> bool
    ensures { result ≡ is_plain byte }
{
    byte > 32 && byte < 127 && byte != b'#' && byte != b'[' && byte != b'\\' && byte != b']'
}

fn are_plain(word: &[u8]) -> bool
    ensures { result ≡ list_all is_plain word.now }
{
    word.iter().all(|byte| is_plain(*byte))
}

fn has_sign(word: &[u8]) -> bool
    ensures { result ≡ has_sign word.now }
{
    word.iter().any(|byte| *byte == b'=')
}

/// Whether a value is neither lost nor needed.
fn are_alike(word: &[u8], other: &[u8]) -> bool
    ensures { result ≡ are_alike word.now other.now }
{
    if has_sign(word) {
        has_sign(other)
    } else {
        !has_sign(other)
    }
}

fn is_right_text(part: &[u8], nearest: &[u8]) -> bool
    ensures { result ≡ is_right_text part.now nearest.now }
{
    are_plain(nearest) && are_alike(part, nearest) && part != nearest
}

/// Whether a control takes in a file.
fn takes_in(word: &[u8]) -> bool
    ensures { result ≡ takes_in word.now }
{
    word == b"include".as_slice() || word == b"substack".as_slice()
}

fn is_mendable(problem: Problem, nearest: &[u8]) -> bool
    ensures { result ≡ is_mendable problem nearest.now }
{
    match problem {
        Problem::Walk(_) => false,
        _ => !takes_in(nearest),
    }
}

/// The bytes from a word on, of those from its line on.
fn word_there<'a>(line: &'a [u8], spot: Spot, word: &[u8]) -> &'a [u8]
    ensures { result.now ≡ word_there line.now spot word.now }
{
    let there = bytes_after(spot.column.saturating_sub(1), line);
    bytes_after(spot.len.saturating_sub(word.len()), there)
}

/// The nearest right word, if no other one is as near.
fn certain_word(word: &Misspelled) -> Option<&[u8]>
    ensures { option_map (λ w. w.now) result ≡ certain_word (misspelled_view word.now) }
{
    if !word.is_certain {
        return None;
    }
    match &word.nearest {
        Some(nearest) => Some(nearest),
        None => None,
    }
}

/// The place of a finding, and its word.
#[derive(Clone, Copy)]
struct Wrong<'x> {
    file: usize,
    line: usize,
    problem: Problem,
    /// The line of the word.
    at: usize,
    word: &'x [u8],
}

/// The mending of the word, if it is at the front of these bytes of its file as it is told.
fn mending_if<'a>(wrong: Wrong<'_>, nearest: &'a [u8], there: &[u8]) -> Option<Mending<'a>>
    ensures { option_map mending_view result
        ≡ mending_if wrong.entry.file wrong.entry.line wrong.entry.problem wrong.entry.at wrong.entry.word.now nearest.now there.now }
{
    let (before, part) = wrong_part(wrong.problem, wrong.word);
    if !(there.starts_with(wrong.word)
        && is_mendable(wrong.problem, nearest)
        && is_right_text(part, nearest))
    {
        return None;
    }
    let there = bytes_after(before, there);
    Some(Mending {
        file: wrong.file,
        line: wrong.line,
        at: wrong.at,
        from: there.len(),
        after: bytes_after(part.len(), there).len(),
        text: nearest,
    })
}

/// The mending of a word at a spot of a file.
fn mending_by<'a>(
    cursor: &mut Cursor<'_>,
    entry: &(Place, Finding),
    word: &[u8],
    nearest: &'a [u8],
    file: usize,
    spot: Spot,
) -> Option<Mending<'a>>
    requires { IsAt cursor.old }
    ensures at { IsAt cursor.new }
    ensures same { cursor.new.files ≡ cursor.old.files }
    ensures mending { option_map mending_view result ≡ mending_by cursor.old.files.now entry.now word.now nearest.now file spot }
{
    cursor.seek(Some(file), spot.line);
    let wrong = Wrong {
        file,
        line: entry.0.line,
        problem: entry.1.problem,
        at: spot.line,
        word,
    };
    mending_if(wrong, nearest, word_there(cursor.rest(), spot, word))
}

fn mending_of_word<'a>(
    cursor: &mut Cursor<'_>,
    entry: &(Place, Finding),
    word: &'a Misspelled,
) -> Option<Mending<'a>>
    requires { IsAt cursor.old }
    ensures at { IsAt cursor.new }
    ensures same { cursor.new.files ≡ cursor.old.files }
    ensures mending { option_map mending_view result ≡ mending_of_word cursor.old.files.now entry.now (misspelled_view word.now) }
{
    let nearest = certain_word(word)?;
    let file = entry.0.file?;
    let spot = word.spot?;
    mending_by(cursor, entry, &word.word, nearest, file, spot)
}

/// The mending of a finding with the word that it is about.
#[tactic(auto, unfolding(crate::specs::patch_text::Mendings::mending_of))]
fn mending_of<'a>(
    cursor: &mut Cursor<'_>,
    entry: &(Place, Finding),
    word: Option<&'a Misspelled>,
) -> Option<Mending<'a>>
    requires { IsAt cursor.old }
    ensures at { IsAt cursor.new }
    ensures same { cursor.new.files ≡ cursor.old.files }
    ensures mending { option_map mending_view result ≡ mending_of cursor.old.files.now entry.now (word_of word.entry) }
{
    match word {
        Some(word) => mending_of_word(cursor, entry, word),
        None => None,
    }
}

/// Appends a mending, if there is one.
fn push_if_any<'a>(
    mending: Option<Mending<'a>>,
    mendings: &mut Vec<Mending<'a>>,
) -> Result<(), AllocError>
    ensures { OnOk result (mendings_view mendings.new.items ≡ mendings_view mendings.old.items ++ if_any (option_map mending_view mending.entry)) }
{
    if let Some(mending) = mending {
        mendings.push(mending)?;
    }
    Ok(())
}

/// The mendings of findings, each with the word that is wrong at its position. Takes time linear in the files and the findings, if these are
/// in the order of their places.
pub(super) fn mendings_of<'a>(
    alloc: Global,
    files: &Files,
    found: &[(Place, Finding)],
    words: &'a [Option<Misspelled>],
) -> Result<Vec<Mending<'a>>, AllocError>
    ensures { IfOk result (λ m. mendings_view m.items ≡ mendings_of files.now (map (option_map misspelled_view) words.now) found.now) }
{
    let mut cursor = Cursor::new(files);
    let mut mendings = Vec::new(alloc);
    for (position, entry) in found.iter().enumerate() {
        let word = word_at(words, position);
        let mending = mending_of(&mut cursor, entry, word);
        push_if_any(mending, &mut mendings)?;
    }
    Ok(mendings)
}
