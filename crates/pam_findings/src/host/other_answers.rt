//! S10: where `other` answers for a service that has rules for the other one of auth and account, or a file without a rule.

ghost use Rattle.std.specs.Prelude.{◌≡◌, ◌↔◌, IfOk, OnOk, true};
ghost use Rattle.pam_conf.specs.Survey.{surveyed};
ghost use Rattle.pam_conf.specs.SurveyText.{survey_text};
ghost use Rattle.pam_findings.specs.host.OtherAnswers.{HasOwnRules, has_no_rule, is_only_included, partner};
ghost use Rattle.pam_findings.specs.host.inner.Lefts.{IsLeft, SaysLeft};
ghost use Rattle.pam_findings.specs.host.inner.Table.{Adds};

use crate::host::judging::Stacked;
use crate::host::problem::{Problem, Spot};
use crate::host::stacks::Checker;
use crate::host::targets::Targets;
use crate::host::unasked::never_asks;
use pam_conf::{Kind, Survey, is_sound};
use std::alloc::AllocError;

/// The other one of auth and account; `None` for the other kinds.
fn partner(kind: Kind) -> Option<Kind>
    ensures { result ≡ partner kind }
{
    match kind {
        Kind::Auth => Some(Kind::Account),
        Kind::Account => Some(Kind::Auth),
        Kind::Password | Kind::Session => None,
    }
}

/// Whether the service has rules of its own for a kind, where there is an `other`.
fn has_own_rules(checker: &Checker<'_, '_>, name: &[u8], kind: Kind) -> Result<bool, AllocError>
    ensures { IfOk result (λ own. (own ≡ true) ↔ HasOwnRules checker.now.rules.now name.now kind) }
{
    let survey = checker.rules.survey(checker.alloc, name, kind)?;
    Ok(!survey.other_answers)
}

/// Whether a file has this name, and no rule.
fn has_no_rule(checker: &Checker<'_, '_>, name: &[u8]) -> Result<bool, AllocError>
    ensures { IfOk result (λ none. none ≡ has_no_rule checker.now.rules.now name.now) }
{
    let Some(file) = checker.files.find(name) else {
        return Ok(false);
    };
    let Some(rules) = checker.rules.rules(checker.alloc, file)? else {
        return Ok(false);
    };
    Ok(rules.is_empty())
}

/// Whether `other` answers for one of auth and account, though the service has rules for the other one, or a file without a rule;
/// and then whether it has such a file.
pub(crate) fn other_answers(
    checker: &Checker<'_, '_>,
    name: &[u8],
    kind: Kind,
    survey: &Survey,
) -> Result<Option<bool>, AllocError>
    ensures { survey_text survey.now ≡ surveyed checker.now.rules.now name.now kind →
        IfOk result (SaysLeft checker.now.rules.now name.now kind) }
{
    if !survey.other_answers || survey.is_empty() || !is_sound(checker.rules, survey) {
        return Ok(None);
    }
    let Some(partner) = partner(kind) else {
        return Ok(None);
    };
    let has_own = has_own_rules(checker, name, partner)?;
    let has_no_rule = has_no_rule(checker, name)?;
    let is_service = (has_own || has_no_rule) && !checker.targets.has(name);
    let is_asked_for = is_service && !never_asks(name, kind);
    Ok(is_asked_for.then_some(has_no_rule))
}

/// Whether no program asks for the service: it has no rules of its own for the kind of this survey, and its file is one that others include.
pub(crate) fn is_only_included(targets: &Targets<'_>, name: &[u8], survey: &Survey) -> bool
    ensures { result ≡ is_only_included targets.now name.now (survey_text survey.now) }
{
    survey.other_answers && targets.has(name)
}

/// Appends S10 of a stack, where `other` answers, which may be known to let nobody in.
pub(crate) fn push_other(
    spots: &mut Vec<Spot>,
    at: Stacked,
    left: Option<bool>,
    lets_nobody_in: bool,
) -> Result<(), AllocError>
    ensures { OnOk result (Adds (IsLeft at left lets_nobody_in) spots.old.items spots.new.items) }
{
    let Some(has_no_rule) = left else {
        return Ok(());
    };
    spots.push(Spot {
        file: at.home,
        line: 0,
        problem: Problem::OtherAnswers {
            service: at.service,
            kind: at.kind,
            has_no_rule,
            lets_nobody_in,
        },
    })?;
    Ok(())
}
