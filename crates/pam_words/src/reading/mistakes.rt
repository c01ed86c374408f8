//! Says what is wrong with words that are refused.

ghost use Rattle.std.specs.Prelude.{◌≡◌, IfOk, codes, find, is_none, is_some, map};
ghost use Rattle.std.specs.Option.{option_map};
ghost use Rattle.clap.specs.Words.{found_of, rows_of};
ghost use Rattle.pam_words.specs.Decisions.{code_named, comma_parts};
ghost use Rattle.pam_words.specs.Mistakes as spec;
ghost use Rattle.pam_words.specs.Mistakes.{mistake_of, mistake_view};
ghost use Rattle.pam_words.specs.Values.{texts_of};

use crate::mistake::Mistake;
use crate::reading::candidates::{cut, has_slash, is_candidate};
use crate::reading::knowledge::has;
use crate::reading::settings::key_and_codes;
use crate::reading::{command_name, is_on, refused, text, values};
use crate::wanted::Usage;
use crate::words::command_for;
use clap::ArgMatches;
use pam_codes::Code;
use pam_facts::known::name_of_path;
use std::alloc::Global;
use std::convert::AsStr;

/// Whether a command says what is wrong.
fn tells(command: &str) -> bool
    ensures { result ≡ spec.tells command.now }
{
    command == "check"
        || command == "compare"
        || command == "policy"
        || command == "outcomes"
        || command == "graph"
        || command == "needs"
}

fn source_mistake<'a>(command: &str, matches: &ArgMatches<'_>) -> Mistake<'a>
    ensures { mistake_view result ≡ spec.source_mistake command.now (rows_of (found_of matches.now)) }
{
    if command == "compare" {
        Mistake::BothForms
    } else if has(matches, "vendor-dir") && !has(matches, "dir") {
        Mistake::VendorAlone
    } else {
        Mistake::ManySources
    }
}

/// Returns the first of these names, between commas, that is none of a code.
fn first_unnamed(names: &[u8]) -> Option<&[u8]>
    ensures { option_map (λ n. n.now) result ≡ find (λ name. is_none (code_named name)) (comma_parts names.now) }
{
    names
        .split(|byte| *byte == b',')
        .find(|name| Code::from_name(name).is_none())
}

/// Returns the first name in CODES that is none of a code.
fn wrong_code(text: &[u8]) -> Option<&[u8]>
    ensures { option_map (λ n. n.now) result ≡ spec.wrong_code text.now }
{
    if text == b"any".as_slice() {
        return None;
    }
    if text.starts_with(b"but:") {
        return first_unnamed(text.split_at(4).1);
    }
    first_unnamed(text)
}

/// Returns the first name in the CODES of KEY=CODES that is none of a code.
fn wrong_in_setting(text: &str) -> Option<&[u8]>
    ensures { option_map (λ n. n.now) result ≡ spec.wrong_in_setting text.now }
{
    match key_and_codes(text) {
        Some((_, codes)) => wrong_code(codes.as_bytes()),
        None => None,
    }
}

/// Returns the first of these texts in whose CODES a name is none of a code.
fn first_with_wrong_code<'a>(texts: &[&'a str]) -> Option<&'a str>
    ensures { option_map (λ t. t.now) result ≡ find (λ text. is_some (spec.wrong_in_setting text)) (map (λ t. t.now) texts.now) }
{
    for text in texts {
        if wrong_in_setting(text).is_some() {
            return Some(text);
        }
    }
    None
}

/// Returns the first of these texts that is not KEY=CODES.
fn setting_mistake<'a>(texts: &[&'a str]) -> Option<&'a str>
    ensures { option_map (λ t. t.now) result ≡ spec.setting_mistake (map (λ t. t.now) texts.now) }
{
    for text in texts {
        if key_and_codes(text).is_none() {
            return Some(text);
        }
    }
    None
}

fn code_mistake<'a>(texts: &[&'a str]) -> Option<&'a [u8]>
    ensures { option_map (λ n. n.now) result ≡ spec.code_mistake (map (λ t. t.now) texts.now) }
{
    match first_with_wrong_code(texts) {
        Some(text) => wrong_in_setting(text),
        None => None,
    }
}

/// Whether a SERVICE ends in a slash.
fn is_folder(word: &str) -> bool
    ensures { result ≡ spec.is_folder word.now }
{
    has_slash(word.as_bytes()) && name_of_path(word.as_bytes()).is_empty()
}

fn first_folder<'a>(words: &[&'a str]) -> Option<&'a str>
    ensures { option_map (λ w. w.now) result ≡ find spec.is_folder (map (λ w. w.now) words.now) }
{
    for word in words {
        if is_folder(word) {
            return Some(word);
        }
    }
    None
}

/// Returns the first of these texts that gives no candidate.
fn first_without<'a>(texts: &[&'a str]) -> Option<&'a str>
    ensures { option_map (λ t. t.now) result ≡ find spec.gives_none (map (λ t. t.now) texts.now) }
{
    for text in texts {
        if !is_candidate(false, &cut(text)) {
            return Some(text);
        }
    }
    None
}

/// Returns the first SERVICE that ends in a slash.
fn folder_given<'a>(matches: &ArgMatches<'a>) -> Option<&'a str>
    ensures { option_map (λ w. w.now) result ≡ find spec.is_folder (texts_of (codes "name") (rows_of (found_of matches.now))) }
{
    match values(matches, "name") {
        Some(words) => first_folder(words),
        None => None,
    }
}

/// Returns the first value of `--with` that gives no candidate.
fn none_given<'a>(matches: &ArgMatches<'a>) -> Option<&'a str>
    ensures { option_map (λ t. t.now) result ≡ find spec.gives_none (texts_of (codes "with") (rows_of (found_of matches.now))) }
{
    match values(matches, "with") {
        Some(texts) => first_without(texts),
        None => None,
    }
}

fn wrong_candidate<'a>(matches: &ArgMatches<'a>) -> Option<Mistake<'a>>
    ensures { option_map mistake_view result ≡ spec.wrong_candidate (texts_of (codes "name") (rows_of (found_of matches.now)))
        (texts_of (codes "with") (rows_of (found_of matches.now))) }
{
    if let Some(word) = folder_given(matches) {
        return Some(Mistake::Folder(word));
    }
    match none_given(matches) {
        Some(text) => Some(Mistake::Candidate(text)),
        None => None,
    }
}

fn candidate_mistake<'a>(matches: &ArgMatches<'a>) -> Option<Mistake<'a>>
    ensures { option_map mistake_view result ≡ spec.candidate_mistake (rows_of (found_of matches.now)) }
{
    if has(matches, "conf") {
        return Some(Mistake::BesideConf);
    }
    wrong_candidate(matches)
}

/// Returns the first name in values of `--set` that is none of a code.
fn code_given<'a>(matches: &ArgMatches<'a>) -> Option<&'a [u8]>
    ensures { option_map (λ n. n.now) result ≡ spec.code_mistake (texts_of (codes "set") (rows_of (found_of matches.now))) }
{
    match values(matches, "set") {
        Some(texts) => code_mistake(texts),
        None => None,
    }
}

/// Returns the first value of `--set` that is not KEY=CODES.
fn setting_given<'a>(matches: &ArgMatches<'a>) -> Option<&'a str>
    ensures { option_map (λ t. t.now) result ≡ spec.setting_mistake (texts_of (codes "set") (rows_of (found_of matches.now))) }
{
    match values(matches, "set") {
        Some(texts) => setting_mistake(texts),
        None => None,
    }
}

fn settings_mistake<'a>(usage: &Usage, matches: &ArgMatches<'a>) -> Option<Mistake<'a>>
    ensures { option_map mistake_view result ≡ spec.mistake_of_settings (rows_of (found_of matches.now)) usage.now }
{
    match usage {
        Usage::CodeName => match code_given(matches) {
            Some(name) => Some(Mistake::Code(name)),
            None => None,
        },
        Usage::SettingForm => match setting_given(matches) {
            Some(text) => Some(Mistake::Setting(text)),
            None => None,
        },
        _ => None,
    }
}

fn form_mistake<'a>(matches: &ArgMatches<'a>) -> Mistake<'a>
    ensures { mistake_view result ≡ spec.form_mistake (rows_of (found_of matches.now)) }
{
    if is_on(matches, "json") {
        Mistake::BesideJson
    } else {
        Mistake::Form(text(matches, "format"))
    }
}

fn format_mistake<'a>(command: &str, matches: &ArgMatches<'a>) -> Option<Mistake<'a>>
    ensures { option_map mistake_view result ≡ spec.format_mistake command.now (rows_of (found_of matches.now)) }
{
    if command == "graph" {
        Some(Mistake::Drawing(text(matches, "format")))
    } else if command == "check" {
        Some(form_mistake(matches))
    } else {
        None
    }
}

/// Returns what is wrong with the values of a command that is refused so.
fn mistake_for<'a>(usage: &Usage, command: &str, matches: &ArgMatches<'a>) -> Option<Mistake<'a>>
    ensures { option_map mistake_view result ≡ spec.mistake_for command.now (rows_of (found_of matches.now)) usage.now }
{
    match usage {
        Usage::Source => Some(source_mistake(command, matches)),
        Usage::KindName => Some(Mistake::Kind(text(matches, "kind"))),
        Usage::FormatName => format_mistake(command, matches),
        Usage::LevelName => Some(Mistake::Level(text(matches, "fail-on"))),
        Usage::AnswersName => Some(Mistake::Answers(text(matches, "answers"))),
        Usage::Login => Some(Mistake::NoUser),
        Usage::Moment => Some(Mistake::NoMoment),
        Usage::CandidateForm => candidate_mistake(matches),
        _ => settings_mistake(usage, matches),
    }
}

fn mistake_in<'a>(usage: &Usage, command: &str, matches: &ArgMatches<'a>) -> Option<Mistake<'a>>
    ensures { option_map mistake_view result ≡ spec.mistake_in usage.now command.now (rows_of (found_of matches.now)) }
{
    if tells(command) {
        mistake_for(usage, command, matches)
    } else {
        None
    }
}

/// Says what is wrong with the words of a command line that `request` has refused so, if the command says it. Fails where `clap` refuses
/// the words, or an allocation fails. Borrows the words.
#[inline(never)]
pub fn find_mistake<'a, S: AsStr>(
    alloc: Global,
    words: &'a [S],
    usage: &Usage,
) -> Result<Option<Mistake<'a>>, Usage>
    ensures { IfOk result (λ m. option_map mistake_view m ≡ mistake_of usage.now (map S.text words.entry.now)) }
{
    let Ok(command) = command_for(alloc, command_name(words)) else {
        return Err(Usage::Memory);
    };
    let matches = match command.try_get_matches_from(words) {
        Ok(matches) => matches,
        Err(error) => return Err(refused(error)),
    };
    match matches.subcommand() {
        Some((name, inner)) => Ok(mistake_in(usage, name, inner)),
        None => unreachable!(),
    }
}
