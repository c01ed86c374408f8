//! The files of a check that cannot be read, and the services that take no rules from them.

ghost use Rattle.std.specs.Prelude.{◌≡◌, IfOk, false, not, slice_index_or};
ghost use Rattle.std.specs.List.{filter};
ghost use Rattle.pam_conf.specs.Survey.{surveyed};
ghost use Rattle.pam_conf.specs.SurveyText.{survey_text};
ghost use Rattle.pam_report.specs.Left.{has_unread, reaches_unread, services_left, takes_unread};

use pam_conf::{Files, Kind, RuleFiles, Survey, checked_services};
use pam_text::Texts;
use std::alloc::{AllocError, Global};

/// Whether a file cannot be read.
pub(crate) fn has_unread(unread: &[bool]) -> bool
    ensures { result ≡ has_unread unread.now }
{
    unread.iter().any(|is_so| *is_so)
}

/// Whether the file at a position cannot be read.
fn is_unread(unread: &[bool], file: usize) -> bool
    ensures { result ≡ slice_index_or unread.now file false }
{
    file < unread.len() && unread[file]
}

/// Whether a walk reaches a file that cannot be read.
fn reaches_unread(unread: &[bool], survey: &Survey) -> bool
    ensures { result ≡ reaches_unread unread.now (survey_text survey.now) }
{
    survey.reached.iter().any(|file| is_unread(unread, *file))
}

/// Whether the walk of a service for a kind reaches such a file.
fn stack_takes_unread(
    alloc: Global,
    rules: &RuleFiles<'_>,
    unread: &[bool],
    service: &[u8],
    kind: Kind,
) -> Result<bool, AllocError>
    ensures { IfOk result (λ takes. takes ≡ reaches_unread unread.now (surveyed rules.now service.now kind)) }
{
    let survey = rules.survey(alloc, service, kind)?;
    Ok(reaches_unread(unread, &survey))
}

/// Whether a stack of a service takes rules from such a file.
fn takes_unread(
    alloc: Global,
    rules: &RuleFiles<'_>,
    unread: &[bool],
    service: &[u8],
) -> Result<bool, AllocError>
    ensures { IfOk result (λ takes. takes ≡ takes_unread rules.now unread.now service.now) }
{
    if stack_takes_unread(alloc, rules, unread, service, Kind::Auth)? {
        return Ok(true);
    }
    if stack_takes_unread(alloc, rules, unread, service, Kind::Account)? {
        return Ok(true);
    }
    if stack_takes_unread(alloc, rules, unread, service, Kind::Password)? {
        return Ok(true);
    }
    stack_takes_unread(alloc, rules, unread, service, Kind::Session)
}

/// Those of these services that take no rules from such a file.
fn left_of(
    alloc: Global,
    rules: &RuleFiles<'_>,
    unread: &[bool],
    services: &Texts,
) -> Result<Texts, AllocError>
    ensures { IfOk result (λ left. left ≡ filter (λ service. not (takes_unread rules.now unread.now service)) services.now) }
{
    let mut left = Texts::new(alloc);
    for service in services.iter() {
        if !takes_unread(alloc, rules, unread, service)? {
            left.push(service)?;
        }
    }
    Ok(left)
}

/// The services that are checked, but those that take rules from a file that cannot be read. Takes the time of a check.
pub(crate) fn services_left(
    alloc: Global,
    files: &Files,
    unread: &[bool],
    named: &Texts,
) -> Result<Texts, AllocError>
    ensures { IfOk result (λ left. left ≡ services_left files.now unread.now named.now) }
{
    let rules = RuleFiles::read(alloc, files)?;
    let services = checked_services(alloc, files, &rules, named)?;
    left_of(alloc, &rules, unread, &services)
}
