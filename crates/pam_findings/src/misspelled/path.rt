//! The path of the module that a line names, and its arguments.

ghost use Rattle.std.specs.Prelude.{◌≡◌, IfOk, drop};
ghost use Rattle.std.specs.Option.{option_map};
ghost use Rattle.pam_conf.specs.FaultWord.{first_word, from_kind};
ghost use Rattle.pam_conf.specs.Remaining.{words_to_come};
ghost use Rattle.pam_findings.specs.misspelled.Paths.{after_first, after_path, argument_in, argument_text, path_in, path_text};

use pam_conf::{Form, Words, text_of};
use std::alloc::AllocError;

fn after_first(words: Words<'_>) -> Words<'_>
    ensures { words_to_come result ≡ after_first (words_to_come words.entry) }
{
    match words.split_first() {
        Some((_, others)) => others,
        None => words,
    }
}

/// The words from the kind on.
fn from_kind(form: Form, words: Words<'_>) -> Words<'_>
    ensures { words_to_come result ≡ from_kind form (words_to_come words.entry) }
{
    match form {
        Form::Dir => words,
        Form::Single => after_first(words),
    }
}

fn first_word(words: Words<'_>) -> Option<&[u8]>
    ensures { option_map (λ w. w.now) result ≡ first_word (words_to_come words.entry) }
{
    match words.split_first() {
        Some((word, _)) => Some(word),
        None => None,
    }
}

/// The path, whose text may replace the contents of `inside`.
fn path_text<'a>(
    form: Form,
    words: Words<'a>,
    inside: &'a mut Vec<u8>,
) -> Result<Option<&'a [u8]>, AllocError>
    ensures { IfOk result (λ w. option_map (λ t. t.now) w ≡ path_text form (words_to_come words.entry)) }
{
    match first_word(after_first(after_first(from_kind(form, words)))) {
        Some(word) => Ok(Some(text_of(word, inside)?)),
        None => Ok(None),
    }
}

/// The path that a line names, if it has one. The text of a word in brackets replaces the contents of `inside`.
pub(crate) fn path_in<'a>(
    form: Form,
    line: &'a [u8],
    inside: &'a mut Vec<u8>,
) -> Result<Option<&'a [u8]>, AllocError>
    ensures { IfOk result (λ w. option_map (λ t. t.now) w ≡ path_in form line.now) }
{
    match Words::of(line) {
        Ok(words) => path_text(form, words, inside),
        Err(_) => Ok(None),
    }
}

/// The words after the path.
fn after_path(form: Form, words: Words<'_>) -> Words<'_>
    ensures { words_to_come result ≡ after_path form (words_to_come words.entry) }
{
    after_first(after_first(after_first(from_kind(form, words))))
}

/// The words after this many.
fn after_some(number: usize, words: Words<'_>) -> Words<'_>
    ensures { words_to_come result ≡ drop number (words_to_come words.entry) }
{
    let mut rest = words;
    for _ in 0..number {
        rest = after_first(rest);
    }
    rest
}

/// The argument at a position, whose text may replace the contents of `inside`.
fn argument_text<'a>(
    form: Form,
    words: Words<'a>,
    position: usize,
    inside: &'a mut Vec<u8>,
) -> Result<Option<&'a [u8]>, AllocError>
    ensures { IfOk result (λ w. option_map (λ t. t.now) w ≡ argument_text form position (words_to_come words.entry)) }
{
    match first_word(after_some(position, after_path(form, words))) {
        Some(word) => Ok(Some(text_of(word, inside)?)),
        None => Ok(None),
    }
}

/// The argument at a position, from 0, of the rule in a line, if it has one. The text of a word in brackets replaces the contents
/// of `inside`.
pub(crate) fn argument_in<'a>(
    form: Form,
    line: &'a [u8],
    position: usize,
    inside: &'a mut Vec<u8>,
) -> Result<Option<&'a [u8]>, AllocError>
    ensures { IfOk result (λ w. option_map (λ t. t.now) w ≡ argument_in form position line.now) }
{
    match Words::of(line) {
        Ok(words) => argument_text(form, words, position, inside),
        Err(_) => Ok(None),
    }
}
