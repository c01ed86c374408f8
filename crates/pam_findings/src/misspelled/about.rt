//! The piece of a line that a finding is about.

ghost use Rattle.std.specs.Prelude.{◌≡◌, ◌+◌, IfOk};
ghost use Rattle.std.specs.Option.{option_and_then, option_map};
ghost use Rattle.pam_conf.specs.Remaining.{words_left};
ghost use Rattle.pam_findings.specs.misspelled.About.{kind_at, of_fault, piece_of, target_at, target_of, word_of};
ghost use Rattle.pam_findings.specs.misspelled.Pairs.{wrong_piece};
ghost use Rattle.pam_findings.specs.misspelled.inner.Spans.{span_view};

use crate::misspelled::open::open_piece;
use crate::misspelled::pairs::wrong_piece;
use crate::misspelled::pieces::{Span, word_at};
use crate::misspelled::word::Wrong;
use pam_codes::{ControlError, is_name};
use pam_conf::{FaultKind, Form, Words, text_of};
use std::alloc::AllocError;

/// The words before the kind.
fn kind_at(form: Form) -> usize
    ensures { result ≡ kind_at form }
{
    match form {
        Form::Dir => 0,
        Form::Single => 1,
    }
}

/// The words before the target. The text of a word in brackets replaces the contents of `inside`.
fn target_at(line: &[u8], inside: &mut Vec<u8>) -> Result<usize, AllocError>
    ensures { IfOk result (λ number. number ≡ target_at (words_left line.now)) }
{
    let Ok(words) = Words::of(line) else {
        return Ok(0);
    };
    let Some((first, _)) = words.split_first() else {
        return Ok(0);
    };
    if is_name(b"@include", text_of(first, inside)?) {
        Ok(1)
    } else {
        Ok(2)
    }
}

fn target_of<'a>(line: &'a [u8], inside: &mut Vec<u8>) -> Result<Option<Span<'a>>, AllocError>
    ensures { IfOk result (λ piece. option_map span_view piece ≡ target_of line.now) }
{
    let number = target_at(line, inside)?;
    Ok(word_at(line, number))
}

/// The control, or the word in it that is wrong by this error.
fn in_control(form: Form, error: ControlError, line: &[u8]) -> Option<Span<'_>>
    ensures { option_map span_view result ≡ option_and_then (wrong_piece error) (word_of line.now (kind_at form + 1)) }
{
    let control = word_at(line, kind_at(form) + 1)?;
    wrong_piece(error, control)
}

/// The same, or the word whose bracket stays open.
fn of_control(form: Form, error: ControlError, line: &[u8]) -> Option<Span<'_>>
    ensures { option_map span_view result ≡ of_fault form (FaultKind.Control error) line.now }
{
    match error {
        ControlError::OpenBracket => open_piece(line),
        ControlError::BadControl
        | ControlError::BadValue
        | ControlError::BadAction
        | ControlError::ZeroJump => in_control(form, error, line),
    }
}

/// The piece that a fault is about. The text of a word in brackets replaces the contents of `inside`.
fn of_fault<'a>(
    form: Form,
    fault: FaultKind,
    line: &'a [u8],
    inside: &mut Vec<u8>,
) -> Result<Option<Span<'a>>, AllocError>
    ensures { IfOk result (λ piece. option_map span_view piece ≡ of_fault form fault line.now) }
{
    match fault {
        FaultKind::BadKind => Ok(word_at(line, kind_at(form))),
        FaultKind::Control(error) => Ok(of_control(form, error, line)),
        _ => target_of(line, inside),
    }
}

/// The argument at a position, from 0.
fn argument_of(form: Form, position: usize, line: &[u8]) -> Option<Span<'_>>
    ensures { option_map span_view result ≡ word_of line.now (kind_at form + 3 + position) }
{
    // There are no more words than bytes.
    if position >= line.len() {
        return None;
    }
    word_at(line, kind_at(form) + 3 + position)
}

/// The piece that a finding is about, if the line has it. The text of a word in brackets replaces the contents of `inside`.
pub(crate) fn piece_of<'a>(
    form: Form,
    wrong: Wrong,
    line: &'a [u8],
    inside: &mut Vec<u8>,
) -> Result<Option<Span<'a>>, AllocError>
    ensures { IfOk result (λ piece. option_map span_view piece ≡ piece_of form wrong line.now) }
{
    match wrong {
        Wrong::Fault(fault) => of_fault(form, fault, line, inside),
        Wrong::Target => target_of(line, inside),
        Wrong::NoModule | Wrong::Path => Ok(word_at(line, kind_at(form) + 2)),
        Wrong::Argument(position, _) => Ok(argument_of(form, position, line)),
    }
}
