//! The rules that a reader of a file keeps: pam.conf(5), on `service` and `type`.
ghost use Rattle.std.specs.Prelude.{◌≡◌, IfSome, IsOk, IsOkAnd, IsTrue, List, Ok, Some, ℕ};
ghost use Rattle.pam_conf.specs.inner.FirstWord.{words_from};
ghost use Rattle.pam_conf.specs.inner.Kept.{kept_view};
ghost use Rattle.pam_conf.specs.Lines.{at_line, line_rule_of};
ghost use Rattle.pam_conf.specs.Rule.{RuleText, body_of};
ghost use Rattle.pam_conf.specs.inner.Wanted.{kind_name, wants, with_rule};
ghost use Rattle.pam_conf.specs.Words.{text_of_word, words_of, words_or_fault};

use crate::kept::{KeptRule, has_service, is_of};
use crate::rule::{Form, Kind, dashed_kind, is_same};
use crate::words::{after_word, is_closed, split_word};
use pam_codes::{Control, is_name};

/// Which rules of a file a reader keeps. It checks all of them.
#[derive(Clone, Copy)]
pub(crate) enum Wanted<'a> {
    All,
    /// The rules that apply to this kind.
    OfKind(Kind),
    /// The rules of pam.conf that name one of these two services, which are in lowercase.
    OfServices(&'a [u8], &'a [u8]),
}

/// Whether `rule` is wanted.
pub(crate) fn is_wanted(rule: &KeptRule, wanted: Wanted<'_>) -> bool
    ensures { result ≡ wants wanted.entry (kept_view rule.now) }
{
    match wanted {
        Wanted::All => true,
        Wanted::OfKind(kind) => is_of(rule, kind),
        Wanted::OfServices(service, other) => {
            has_service(rule, service) || has_service(rule, other)
        }
    }
}

/// Whether a line certainly has no fault, and a rule that calls a module and is not wanted. Does not allocate.
pub(crate) fn is_unwanted(form: Form, line: &[u8], wanted: Wanted<'_>) -> bool
    ensures { IsTrue result → (number : ℕ) (rules : List RuleText) →
        with_rule wanted.entry rules (at_line number (line_rule_of form number line.now)) ≡ Ok rules }
{
    match form {
        Form::Dir => match wanted {
            Wanted::OfKind(kind) => has_other_kind(line, kind),
            _ => false,
        },
        Form::Single => match wanted {
            Wanted::OfServices(service, other) => has_other_service(line, service, other),
            _ => false,
        },
    }
}

/// Whether a line, in a folder, certainly has no fault, and calls a module for another kind.
fn has_other_kind(line: &[u8], wanted: Kind) -> bool
    ensures { IsTrue result → (number : ℕ) (rules : List RuleText) →
        with_rule (Wanted.OfKind wanted) rules (at_line number (line_rule_of Form.Dir number line.now)) ≡ Ok rules }
{
    match leading_kind(line) {
        Some((kind, rest)) => !is_same(wanted, kind) && calls_module(rest),
        None => has_other_word(line, wanted),
    }
}

/// Like `has_other_kind`, in whatever way the kind is written.
fn has_other_word(line: &[u8], wanted: Kind) -> bool
    ensures { IsTrue result → (number : ℕ) (rules : List RuleText) →
        with_rule (Wanted.OfKind wanted) rules (at_line number (line_rule_of Form.Dir number line.now)) ≡ Ok rules }
{
    let Some((first, rest)) = split_word(line) else {
        return false;
    };
    if !is_plain(first) || is_name(b"@include", first) {
        return false;
    }
    match dashed_kind(first) {
        Err(_) => false,
        Ok((_, kind)) => !is_same(wanted, kind) && calls_module(rest),
    }
}

/// The kind that a line begins with, as most are written: with no blank before it, and in lowercase.
#[inline(always)]
fn leading_kind(line: &[u8]) -> Option<(Kind, &[u8])>
    ensures { IfSome result (λ p. words_of line.now ≡ words_from (Some (kind_name p.0, p.1.now))) }
{
    if let Some(rest) = after_word(line, b"auth") {
        Some((Kind::Auth, rest))
    } else if let Some(rest) = after_word(line, b"account") {
        Some((Kind::Account, rest))
    } else if let Some(rest) = after_word(line, b"password") {
        Some((Kind::Password, rest))
    } else if let Some(rest) = after_word(line, b"session") {
        Some((Kind::Session, rest))
    } else {
        None
    }
}

/// Whether a line, in pam.conf, certainly has no fault, and calls a module for a service that is neither of these two.
fn has_other_service(line: &[u8], service: &[u8], other: &[u8]) -> bool
    ensures { IsTrue result → (number : ℕ) (rules : List RuleText) →
        with_rule (Wanted.OfServices service.entry other.entry) rules (at_line number (line_rule_of Form.Single number line.now)) ≡ Ok rules }
{
    let Some((first, rest)) = split_word(line) else {
        return false;
    };
    if !is_plain(first) || is_name(b"@include", first) {
        return false;
    }
    if is_name(service, first) || is_name(other, first) {
        return false;
    }
    let Some((kind, rest)) = split_word(rest) else {
        return false;
    };
    if !is_plain(kind) {
        return false;
    }
    match dashed_kind(kind) {
        Err(_) => false,
        Ok(_) => calls_module(rest),
    }
}

/// Whether a word is its own text: it has no brackets.
fn is_plain(word: &[u8]) -> bool
    ensures { IsTrue result → text_of_word word.now ≡ word.now }
{
    !word.is_empty() && word[0] != b'['
}

/// Whether the rest of a line, from a control on, certainly has no fault, and calls a module.
// That it is neither `include` nor `substack` need not be asked: neither is a control.
fn calls_module(rest: &[u8]) -> bool
    ensures { IsTrue result → (form : Form) → IsOkAnd (words_or_fault rest.now) (λ words. IsOk (body_of form words)) }
{
    let Some((control, rest)) = split_word(rest) else {
        return false;
    };
    match Control::check(control) {
        Err(_) => false,
        Ok(()) => match split_word(rest) {
            Some((_, rest)) => is_closed(rest),
            None => false,
        },
    }
}
