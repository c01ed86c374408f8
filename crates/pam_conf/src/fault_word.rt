//! The word that is wrong in a line with a fault.
ghost use Rattle.std.specs.Prelude.{◌≡◌, IfOk};
ghost use Rattle.std.specs.Option.{option_map};
ghost use Rattle.pam_conf.specs.FaultWord.{control_text, faulty_word, first_word as first_of, from_kind, kind_text, second_word as second_of};
ghost use Rattle.pam_conf.specs.FaultWord.{target_text, target_word as target_of_words, undashed, word_at_fault};
ghost use Rattle.pam_conf.specs.Remaining.{words_to_come};
ghost use Rattle.pam_conf.specs.Rule.{without_folder_of};

use crate::error::FaultKind;
use crate::rule::Form;
use crate::words::{Words, text_of};
use pam_codes::{ControlError, is_name};
use std::alloc::AllocError;

/// The words from the kind on.
fn from_kind(form: Form, words: Words<'_>) -> Words<'_>
    ensures { words_to_come result ≡ from_kind form (words_to_come words.entry) }
{
    match form {
        Form::Dir => words,
        Form::Single => match words.split_first() {
            Some((_, others)) => others,
            None => words,
        },
    }
}

fn leading_word(words: Words<'_>) -> Option<&[u8]>
    ensures { option_map (λ w. w.now) result ≡ first_of (words_to_come words.entry) }
{
    match words.split_first() {
        Some((word, _)) => Some(word),
        None => None,
    }
}

fn second_word(words: Words<'_>) -> Option<&[u8]>
    ensures { option_map (λ w. w.now) result ≡ second_of (words_to_come words.entry) }
{
    match words.split_first() {
        Some((_, others)) => leading_word(others),
        None => None,
    }
}

/// A kind without its dash.
fn undashed(text: &[u8]) -> &[u8]
    ensures { result.now ≡ undashed text.now }
{
    let Some((first, rest)) = text.split_first() else {
        return text;
    };
    if *first == b'-' { rest } else { text }
}

/// A target without the folder's prefix.
fn without_folder(text: &[u8]) -> &[u8]
    ensures { result.now ≡ without_folder_of text.now }
{
    let folder = b"/etc/pam.d/";
    if text.starts_with(folder) {
        &text[folder.len()..]
    } else {
        text
    }
}

/// The kind, whose text may replace the contents of `inside`.
fn kind_text<'a>(words: Words<'a>, inside: &'a mut Vec<u8>) -> Result<Option<&'a [u8]>, AllocError>
    ensures { IfOk result (λ w. option_map (λ t. t.now) w ≡ kind_text (words_to_come words.entry)) }
{
    let Some(word) = leading_word(words) else {
        return Ok(None);
    };
    Ok(Some(undashed(text_of(word, inside)?)))
}

/// The word of the target, as it is written.
fn target_word<'a>(words: Words<'a>, inside: &mut Vec<u8>) -> Result<Option<&'a [u8]>, AllocError>
    ensures { IfOk result (λ w. option_map (λ t. t.now) w ≡ target_of_words (words_to_come words.entry)) }
{
    let Some((word, others)) = words.split_first() else {
        return Ok(None);
    };
    if is_name(b"@include", text_of(word, inside)?) {
        return Ok(leading_word(others));
    }
    Ok(second_word(others))
}

/// The name of the target, which may replace the contents of `inside`.
fn target_text<'a>(
    words: Words<'a>,
    inside: &'a mut Vec<u8>,
) -> Result<Option<&'a [u8]>, AllocError>
    ensures { IfOk result (λ w. option_map (λ t. t.now) w ≡ target_text (words_to_come words.entry)) }
{
    let Some(word) = target_word(words, inside)? else {
        return Ok(None);
    };
    Ok(Some(without_folder(text_of(word, inside)?)))
}

/// The control, if the whole of it is the wrong word.
fn control_text(error: ControlError, words: Words<'_>) -> Option<&[u8]>
    ensures { option_map (λ w. w.now) result ≡ control_text error (words_to_come words.entry) }
{
    match error {
        ControlError::BadControl => second_word(words),
        ControlError::BadValue
        | ControlError::BadAction
        | ControlError::ZeroJump
        | ControlError::OpenBracket => None,
    }
}

/// Like `word_at_fault`, of the words of the line.
#[tactic(auto, unfolding(crate::specs::FaultWord::faulty_word))]
fn faulty_word<'a>(
    form: Form,
    words: Words<'a>,
    fault: FaultKind,
    inside: &'a mut Vec<u8>,
) -> Result<Option<&'a [u8]>, AllocError>
    ensures { IfOk result (λ w. option_map (λ t. t.now) w ≡ faulty_word form fault (words_to_come words.entry)) }
{
    match fault {
        FaultKind::BadKind => kind_text(from_kind(form, words), inside),
        FaultKind::Control(error) => Ok(control_text(error, from_kind(form, words))),
        FaultKind::BadTarget
        | FaultKind::Cycle
        | FaultKind::TooDeep
        | FaultKind::NoService
        | FaultKind::TooManyFollowed => target_text(words, inside),
        FaultKind::NulByte
        | FaultKind::MissingField
        | FaultKind::MissingTarget
        | FaultKind::TooManyModules
        | FaultKind::IncludeInSingleFile
        | FaultKind::FileTooLong
        | FaultKind::Memory => Ok(None),
    }
}

/// The word that is wrong in a line with this fault: a kind without its dash (E3), a control as it is written (E4), or the name of
/// a target (E10, E11, E12, E15, E18). `None` for another fault, and where the line has no such word. The text of a word in
/// brackets replaces the contents of `inside`.
pub fn word_at_fault<'a>(
    form: Form,
    line: &'a [u8],
    fault: FaultKind,
    inside: &'a mut Vec<u8>,
) -> Result<Option<&'a [u8]>, AllocError>
    ensures { IfOk result (λ w. option_map (λ t. t.now) w ≡ word_at_fault form fault line.now) }
{
    match Words::of(line) {
        Ok(words) => faulty_word(form, words, fault, inside),
        Err(_) => Ok(None),
    }
}
