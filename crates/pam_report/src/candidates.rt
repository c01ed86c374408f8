//! The candidates of a check, and whether some service that is checked reads each.

ghost use Rattle.std.specs.Prelude.{◌≡◌, IfOk, MatchResult, None, find, map, not, option_map};
ghost use Rattle.pam_conf.specs.Survey.{surveyed};
ghost use Rattle.pam_conf.specs.SurveyText.{survey_text};
ghost use Rattle.pam_report.specs.Candidates.{first_unused, has_fault as has_fault_in, is_named as is_named_in, is_read as is_read_in};
ghost use Rattle.pam_report.specs.Candidates.{may_read as may_read_in, service_may_read as service_may_read_in, services_read};
ghost use Rattle.pam_report.specs.inner.Candidates.{IsUnused};
ghost use Rattle.pam_words.specs.Wanted.{candidate_view};

use crate::fault::Fault;
use pam_conf::{Files, Kind, RuleFiles, Survey, checked_services};
use pam_text::Texts;
use pam_words::Candidate;
use std::alloc::{AllocError, Global};

/// The services whose files are read: those that are checked, and `other`.
fn services_read(
    alloc: Global,
    files: &Files,
    rules: &RuleFiles<'_>,
    named: &Texts,
) -> Result<Texts, AllocError>
    requires { rules.now ≡ files.now }
    ensures { IfOk result (λ services. services ≡ services_read files.now named.now) }
{
    let mut services = checked_services(alloc, files, rules, named)?;
    services.push(b"other")?;
    Ok(services)
}

/// Whether the file at a position has this name.
fn is_named(rules: &RuleFiles<'_>, name: &[u8], file: usize) -> bool
    ensures { result ≡ is_named_in rules.now name.now file }
{
    match rules.name(file) {
        Some(found) => name == found,
        None => false,
    }
}

/// Whether the file at a position has a fault of its own.
fn has_fault(rules: &RuleFiles<'_>, file: usize) -> bool
    ensures { result ≡ has_fault_in rules.now file }
{
    match rules.faults(file) {
        Some(faults) => faults.len() != 0,
        None => false,
    }
}

/// Whether a walk reads the file of this name, or may be meant to, since it meets a fault.
fn may_read(rules: &RuleFiles<'_>, name: &[u8], survey: &Survey) -> bool
    ensures { result ≡ may_read_in rules.now name.now (survey_text survey.now) }
{
    let is_faulty = survey.faults.len() != 0;
    survey.reached.iter().any(|file| is_named(rules, name, *file)
        || has_fault(rules, *file)
        || is_faulty)
}

/// Whether the walk of a service for a kind may read the file of this name.
fn stack_may_read(
    alloc: Global,
    rules: &RuleFiles<'_>,
    name: &[u8],
    service: &[u8],
    kind: Kind,
) -> Result<bool, AllocError>
    ensures { IfOk result (λ reads. reads ≡ may_read_in rules.now name.now (surveyed rules.now service.now kind)) }
{
    let survey = rules.survey(alloc, service, kind)?;
    Ok(may_read(rules, name, &survey))
}

/// Whether a walk of a service may read the file of this name.
fn service_may_read(
    alloc: Global,
    rules: &RuleFiles<'_>,
    name: &[u8],
    service: &[u8],
) -> Result<bool, AllocError>
    ensures { IfOk result (λ reads. reads ≡ service_may_read_in rules.now name.now service.now) }
{
    if stack_may_read(alloc, rules, name, service, Kind::Auth)? {
        return Ok(true);
    }
    if stack_may_read(alloc, rules, name, service, Kind::Account)? {
        return Ok(true);
    }
    if stack_may_read(alloc, rules, name, service, Kind::Password)? {
        return Ok(true);
    }
    stack_may_read(alloc, rules, name, service, Kind::Session)
}

/// Whether one of these services may read the file of this name.
fn is_read(
    alloc: Global,
    rules: &RuleFiles<'_>,
    services: &Texts,
    name: &[u8],
) -> Result<bool, AllocError>
    ensures { IfOk result (λ reads. reads ≡ is_read_in rules.now services.now name.now) }
{
    for service in services.iter() {
        if service_may_read(alloc, rules, name, service)? {
            return Ok(true);
        }
    }
    Ok(false)
}

/// The first of these candidates whose file none of these services reads.
fn first_unread<'a>(
    alloc: Global,
    rules: &RuleFiles<'_>,
    services: &Texts,
    candidates: &[Candidate<'a>],
) -> Result<Option<&'a [u8]>, AllocError>
    ensures { IfOk result (λ found. option_map (λ n. n.now) found
        ≡ find (λ name. not (is_read_in rules.now services.now name)) (map (λ c. c.0) (map candidate_view candidates.now))) }
{
    for candidate in candidates {
        if !is_read(alloc, rules, services, candidate.name)? {
            return Ok(Some(candidate.name));
        }
    }
    Ok(None)
}

/// The first candidate whose file no service that is checked reads. Takes the time of a check for each candidate at most.
pub(crate) fn first_unused<'a>(
    alloc: Global,
    files: &Files,
    named: &Texts,
    candidates: &[Candidate<'a>],
) -> Result<Option<&'a [u8]>, AllocError>
    ensures { IfOk result (λ found. option_map (λ n. n.now) found
        ≡ first_unused files.now named.now (map candidate_view candidates.now)) }
{
    if candidates.is_empty() {
        return Ok(None);
    }
    let rules = RuleFiles::read(alloc, files)?;
    let services = services_read(alloc, files, &rules, named)?;
    first_unread(alloc, &rules, &services, candidates)
}

/// Refuses candidates of which no service that is checked reads one.
pub(crate) fn require_used(
    alloc: Global,
    files: &Files,
    named: &Texts,
    candidates: &[Candidate<'_>],
) -> Result<(), Fault>
    ensures { let unused = first_unused files.now named.now (map candidate_view candidates.now) in
        MatchResult result (λ _. unused ≡ None) (IsUnused unused) }
{
    match first_unused(alloc, files, named, candidates) {
        Ok(None) => Ok(()),
        Ok(Some(_)) => Err(Fault::UnusedCandidate),
        Err(_) => Err(Fault::Memory),
    }
}
