//! Stacks whose walk a limit ends: it is not known which modules they ask, so each may ask by every rule of its kind.

ghost use Rattle.std.specs.Prelude.{◌≡◌, IfOk, IsFalse, IsTrue, OnOk, length, map, true};
ghost use Rattle.pam_conf.specs.Rule.{rule_view};
ghost use Rattle.pam_conf.specs.SurveyText.{survey_text};
ghost use Rattle.pam_facts.specs.Kinds.{has_kind};
ghost use Rattle.pam_findings.specs.host.StackProblems.{IsCutOff};
ghost use Rattle.pam_findings.specs.host.inner.CutOff.{OfAmong, OfCut, OfFile, OfFiles, OfKinds};
ghost use Rattle.pam_findings.specs.host.inner.Meeting.{Changes, also_met};
ghost use Rattle.pam_findings.specs.host.inner.Table.{Adds};

use crate::host::met::Met;
use crate::host::problem::{Problem, Spot};
use pam_conf::{Kind, Rule, RuleFiles, Survey};
use pam_facts::Kinds;
use std::alloc::{AllocError, Global};

/// Whether a limit ended the walk.
fn is_cut_off(survey: &Survey) -> bool
    ensures yes { IsTrue result → IsCutOff (survey_text survey.now) }
    ensures no { IsFalse result → IsCutOff (survey_text survey.now) → ⊥ }
{
    survey.stack.is_none() && !survey.reached.is_empty()
}

/// The stacks whose walk a limit ended, and this one, if it is such.
pub(crate) fn with_cut_off(
    cut_off: Option<Met>,
    survey: &Survey,
    service: usize,
    kind: Kind,
) -> Result<Option<Met>, AllocError>
    ensures { IfOk result (λ more. Changes (IsCutOff (survey_text survey.now)) (also_met service kind cut_off) cut_off more) }
{
    if !is_cut_off(survey) {
        return Ok(cut_off);
    }
    let more = Met::with(cut_off, service, kind)?;
    Ok(Some(more))
}

fn has_kind(kinds: Kinds, kind: Kind) -> bool
    ensures { result ≡ has_kind kind kinds }
{
    match kind {
        Kind::Auth => kinds.auth,
        Kind::Account => kinds.account,
        Kind::Password => kinds.password,
        Kind::Session => kinds.session,
    }
}

/// Appends S3 of a rule, if it has one of these kinds.
fn push_rule(
    asked: &mut Vec<Spot>,
    file: usize,
    rule: &Rule,
    kinds: Kinds,
) -> Result<(), AllocError>
    ensures { OnOk result (Adds (OfKinds kinds file (rule_view rule.now)) asked.old.items asked.new.items) }
{
    let Some(kind) = rule.kind else {
        return Ok(());
    };
    if has_kind(kinds, kind) {
        asked.push(Spot {
            file: Some(file),
            line: rule.line,
            problem: Problem::NeverAsked,
        })?;
    }
    Ok(())
}

/// Appends S3 of those rules of a file that have one of these kinds.
fn push_rules(
    asked: &mut Vec<Spot>,
    file: usize,
    rules: &[Rule],
    kinds: Kinds,
) -> Result<(), AllocError>
    ensures { OnOk result (Adds (OfAmong kinds file (map rule_view rules.now)) asked.old.items asked.new.items) }
{
    for rule in rules {
        push_rule(asked, file, rule, kinds)?;
    }
    Ok(())
}

/// The same of a file, by its position.
fn push_file(
    alloc: Global,
    asked: &mut Vec<Spot>,
    rules: &RuleFiles<'_>,
    file: usize,
    kinds: Kinds,
) -> Result<(), AllocError>
    ensures { OnOk result (Adds (OfFile rules.now kinds file) asked.old.items asked.new.items) }
{
    let Some(found) = rules.rules(alloc, file)? else {
        return Ok(());
    };
    push_rules(asked, file, &found, kinds)?;
    Ok(())
}

/// The same of all files.
fn push_files(
    alloc: Global,
    asked: &mut Vec<Spot>,
    rules: &RuleFiles<'_>,
    kinds: Kinds,
) -> Result<(), AllocError>
    ensures { OnOk result (Adds (OfFiles rules.now kinds (length rules.now.entries)) asked.old.items asked.new.items) }
{
    for file in 0..rules.len() {
        push_file(alloc, asked, rules, file, kinds)?;
    }
    Ok(())
}

/// Appends S3 of each rule of the kinds of the stacks whose walk a limit ended.
pub(crate) fn push_cut_off(
    alloc: Global,
    asked: &mut Vec<Spot>,
    rules: &RuleFiles<'_>,
    cut_off: Option<Met>,
) -> Result<(), AllocError>
    ensures { OnOk result (Adds (OfCut rules.now cut_off) asked.old.items asked.new.items) }
{
    let Some(met) = cut_off else {
        return Ok(());
    };
    push_files(alloc, asked, rules, met.kinds)?;
    Ok(())
}
