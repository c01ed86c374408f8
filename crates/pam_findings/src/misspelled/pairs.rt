//! The word that is wrong between the brackets of a control.

ghost use Rattle.std.specs.Prelude.{◌≡◌, ◌≤◌, ◌<◌, ◌+◌, ◌^◌, IfSome, length};
ghost use Rattle.std.specs.Option.{option_map};
ghost use Rattle.pam_codes.specs.Tokens.{tokens_of};
ghost use Rattle.pam_findings.specs.misspelled.Pairs.{between, in_brackets, is_action, is_right, place_in_pair, wrong_from, wrong_in};
ghost use Rattle.pam_findings.specs.misspelled.Pairs.{wrong_piece, wrong_token};
ghost use Rattle.pam_findings.specs.misspelled.inner.Spans.{span_view};

use crate::misspelled::pieces::Span;
use pam_codes::{Action, ControlError, Subject, closing_bracket, first_token};
use pam_text::text_blank_len;

/// The number of tokens of a pair: the value, the `=` and the action.
const PAIR_LEN: usize = 3;

/// Whether a word may stand after `=`, also a jump over no items.
fn is_action(word: &[u8]) -> bool
    ensures { result ≡ is_action word.now }
{
    match Action::from_name(word) {
        Err(ControlError::BadAction) => false,
        Ok(_) | Err(_) => true,
    }
}

/// Whether a word is right where this error comes from.
fn is_right(error: ControlError, word: &[u8]) -> bool
    ensures { result ≡ is_right error word.now }
{
    match error {
        ControlError::BadValue => Subject::from_name(word).is_ok(),
        ControlError::BadAction => is_action(word),
        ControlError::BadControl | ControlError::ZeroJump | ControlError::OpenBracket => true,
    }
}

/// The tokens of a pair before the one that this error comes from.
fn place_in_pair(error: ControlError) -> usize
    ensures { result ≡ place_in_pair error }
{
    match error {
        ControlError::BadAction => PAIR_LEN - 1,
        ControlError::BadValue
        | ControlError::BadControl
        | ControlError::ZeroJump
        | ControlError::OpenBracket => 0,
    }
}

/// The first word that is wrong by this error, of the text between brackets.
#[tactic(auto, using(crate::proofs::MisspelledProofs::Thirds::shorter))]
fn first_wrong(error: ControlError, text: &[u8]) -> Option<&[u8]>
    ensures { option_map (λ w. w.now) result ≡ wrong_token error (tokens_of text.now) }
{
    let mut passed = place_in_pair(error);
    let mut rest = text;
    while let Some((token, others)) = first_token(rest) {
        if passed > 0 {
            passed -= 1;
        } else {
            if !is_right(error, token) {
                return Some(token);
            }
            passed = PAIR_LEN - 1;
        }
        rest = others;
    }
    None
}

/// The text between the brackets of a control as it is written.
fn between(control: &[u8]) -> &[u8]
    ensures value { result.now ≡ between control.now }
    ensures bound { length result.now ≤ length control.now }
{
    let Some((_, text)) = control.split_first() else {
        return b"";
    };
    match closing_bracket(text) {
        Some(len) => &text[..len],
        None => b"",
    }
}

/// The word that is wrong by this error in a control as it is written: the control itself if it is none at all.
pub(crate) fn wrong_in(error: ControlError, control: &[u8]) -> Option<&[u8]>
    ensures { option_map (λ w. w.now) result ≡ wrong_in error control.now }
{
    match error {
        ControlError::BadControl => Some(control),
        ControlError::BadValue
        | ControlError::BadAction
        | ControlError::ZeroJump
        | ControlError::OpenBracket => first_wrong(error, between(control)),
    }
}

/// The first token that is wrong by this error, of the text between brackets.
fn wrong_token(error: ControlError, text: &[u8]) -> Option<Span<'_>>
    ensures value { option_map span_view result ≡ wrong_from error (place_in_pair error) text.now }
    ensures bound { IfSome result (λ token. token.start ≤ length text.now) }
{
    let mut skipped = place_in_pair(error);
    let mut passed = 0;
    let mut rest = text;
    while let Some((token, _)) = first_token(rest) {
        let start = text_blank_len(rest);
        let end = start + token.len();
        let after = rest.split_at(end).1;
        if skipped > 0 {
            skipped -= 1;
        } else {
            if !is_right(error, token) {
                return Some(Span {
                    start: passed + start,
                    bytes: token,
                });
            }
            skipped = PAIR_LEN - 1;
        }
        passed += end;
        rest = after;
    }
    None
}

/// The token that is wrong by this error in a control, as a piece of its line.
fn in_brackets(error: ControlError, control: Span<'_>) -> Option<Span<'_>>
    requires bound { control.start + length control.bytes.now < 2 ^ 63 }
    ensures { option_map span_view result ≡ in_brackets error (span_view control.entry) }
{
    let token = wrong_token(error, between(control.bytes))?;
    Some(Span {
        start: control.start + 1 + token.start,
        bytes: token.bytes,
    })
}

/// The piece that is wrong by this error in a control, which is a piece of its line: the control itself if it is none at all.
pub(crate) fn wrong_piece(error: ControlError, control: Span<'_>) -> Option<Span<'_>>
    requires bound { control.start + length control.bytes.now < 2 ^ 63 }
    ensures { option_map span_view result ≡ wrong_piece error (span_view control.entry) }
{
    match error {
        ControlError::BadControl => Some(control),
        ControlError::BadValue
        | ControlError::BadAction
        | ControlError::ZeroJump
        | ControlError::OpenBracket => in_brackets(error, control),
    }
}
