//! Reads the candidates: the values of `--with`, and the words of `check` that are files.

ghost use Rattle.std.specs.Prelude.{◌≡◌, ◌++◌, IfOk, OnOk, codes, map};
ghost use Rattle.clap.specs.Words.{found_of, rows_of};
ghost use Rattle.pam_words.specs.Candidates.{are_candidates as are_candidates_in, files_among, given_by, has_slash as has_slash_in};
ghost use Rattle.pam_words.specs.Candidates.{is_candidate as is_candidate_text, services_among};
ghost use Rattle.pam_words.specs.Values.{candidates_given, candidates_of, texts_of};
ghost use Rattle.pam_words.specs.Wanted.{Gives, candidate_view};

use crate::reading::knowledge::has;
use crate::reading::values;
use crate::wanted::{Candidate, Usage};
use clap::ArgMatches;
use pam_facts::known::name_of_path;
use pam_text::Texts;
use std::alloc::{AllocError, Global};

pub(crate) fn has_slash(text: &[u8]) -> bool
    ensures { result ≡ has_slash_in text.now }
{
    text.iter().any(|byte| *byte == b'/')
}

/// Appends the words that are files. The name of each is what is after its last slash.
fn push_files<'a>(given: &mut Vec<Candidate<'a>>, words: &[&'a str]) -> Result<(), AllocError>
    ensures { OnOk result (map candidate_view given.new.items
        ≡ map candidate_view given.old.items ++ files_among (map (λ s. s.now) words.now)) }
{
    for word in words {
        if has_slash(word.as_bytes()) {
            given.push(Candidate {
                name: name_of_path(word.as_bytes()),
                file: word,
            })?;
        }
    }
    Ok(())
}

/// Cuts `NAME=FILE`. Without a `=` the file is empty.
pub(crate) fn cut<'a>(text: &'a str) -> Candidate<'a>
    ensures { candidate_view result ≡ given_by text.now }
{
    let (name, file) = text.split_once('=').unwrap_or((text, ""));
    Candidate {
        name: name.as_bytes(),
        file,
    }
}

/// Appends what each text gives.
fn push_texts<'a>(given: &mut Vec<Candidate<'a>>, texts: &[&'a str]) -> Result<(), AllocError>
    ensures { OnOk result (map candidate_view given.new.items
        ≡ map candidate_view given.old.items ++ map given_by (map (λ s. s.now) texts.now)) }
{
    for text in texts {
        given.push(cut(text))?;
    }
    Ok(())
}

/// What is given as candidates, in order.
fn given<'a>(alloc: Global, matches: &ArgMatches<'a>) -> Result<Vec<Candidate<'a>>, AllocError>
    ensures { IfOk result (λ given. map candidate_view given.items ≡ candidates_given (rows_of (found_of matches.now))) }
{
    let mut given = Vec::new(alloc);
    if let Some(words) = values(matches, "name") {
        push_files(&mut given, words)?;
    }
    if let Some(texts) = values(matches, "with") {
        push_texts(&mut given, texts)?;
    }
    Ok(given)
}

/// Whether a name without a slash and a file are given, not beside `--conf`.
pub(crate) fn is_candidate(has_conf: bool, given: &Candidate<'_>) -> bool
    ensures { result ≡ is_candidate_text has_conf (candidate_view given.now) }
{
    !has_conf && !given.name.is_empty() && !given.file.is_empty() && !has_slash(given.name)
}

/// Whether each is a candidate, and none is given beside `--conf`.
fn are_candidates(has_conf: bool, given: &[Candidate<'_>]) -> bool
    ensures { result ≡ are_candidates_in has_conf (map candidate_view given.now) }
{
    for candidate in given {
        if !is_candidate(has_conf, candidate) {
            return false;
        }
    }
    true
}

/// Returns the candidates. None may be given beside `--conf`.
pub(crate) fn candidates<'a>(
    alloc: Global,
    matches: &ArgMatches<'a>,
) -> Result<Vec<Candidate<'a>>, Usage>
    ensures { Gives (λ v. map candidate_view v.items) (candidates_of (rows_of (found_of matches.now))) result }
{
    let Ok(given) = given(alloc, matches) else {
        return Err(Usage::Memory);
    };
    if are_candidates(has(matches, "conf"), &given) {
        Ok(given)
    } else {
        Err(Usage::CandidateForm)
    }
}

/// Copies the names of services. That of a file is what is after its last slash.
fn copies(alloc: Global, words: &[&str]) -> Result<Texts, AllocError>
    ensures { IfOk result (λ names. names ≡ services_among (map (λ s. s.now) words.now)) }
{
    let mut names = Texts::new(alloc);
    for word in words {
        names.push(name_of_path(word.as_bytes()))?;
    }
    Ok(names)
}

/// The services that are named, in order.
pub(crate) fn services(alloc: Global, matches: &ArgMatches<'_>) -> Result<Texts, AllocError>
    ensures { IfOk result (λ names. names ≡ services_among (texts_of (codes "name") (rows_of (found_of matches.now)))) }
{
    match values(matches, "name") {
        Some(words) => copies(alloc, words),
        None => Ok(Texts::new(alloc)),
    }
}
