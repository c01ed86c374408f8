//! The findings of the rules of policies.

ghost use Rattle.std.specs.Prelude.{◌≡◌, ◌++◌, IfOk, OnOk, filter, map};
ghost use Rattle.pam_policy.specs.host.Findings.{finding_view};
ghost use Rattle.pam_render.specs.parts.Policy as spec;
ghost use Rattle.pam_render.specs.parts.PolicyView.{host_view, rule_view, told_view};

use crate::parts::check::{Counts, is_level};
use crate::parts::policy::host::is_of_class;
use crate::parts::policy::told::{PolicyHost, ToldFinding, ToldRule};
use pam_findings::host::Level;
use pam_policy::host::Finding;
use pam_report::{JudgedPolicy, policy_level};
use std::alloc::{AllocError, Global};

/// Appends the rules of a policy.
fn push_rules<'x>(
    told: &mut Vec<ToldRule<'x>>,
    policy: &'x JudgedPolicy<'_>,
) -> Result<(), AllocError>
    ensures { OnOk result (map rule_view told.new.items ≡ map rule_view told.old.items ++ spec.rules_of_policy policy.now) }
{
    for (rule, report) in policy.rules.iter().zip(&policy.reports) {
        told.push(ToldRule {
            policy: policy.name.as_bytes(),
            line: rule.line,
            text: &rule.text,
            report,
        })?;
    }
    Ok(())
}

/// Returns the rules of policies.
pub(super) fn rules_of<'x>(
    alloc: Global,
    policies: &'x [JudgedPolicy<'_>],
) -> Result<Vec<ToldRule<'x>>, AllocError>
    ensures { IfOk result (λ told. map rule_view told.items ≡ spec.rules_of policies.now) }
{
    let mut told = Vec::new(alloc);
    for policy in policies {
        push_rules(&mut told, policy)?;
    }
    Ok(told)
}

/// Returns the class that a finding is about, if it is about one.
fn class_of(finding: Finding<'_>) -> Option<usize>
    ensures { result ≡ spec.class_of (finding_view finding.entry) }
{
    match finding {
        Finding::Broken(class, _) | Finding::Impossible(class) | Finding::NotKnown(class) => {
            Some(class)
        }
        Finding::Misnamed(_) | Finding::SaysNothing(_) => None,
    }
}

/// Returns the places that are of a class, of these.
fn places_of_class(
    alloc: Global,
    host: &PolicyHost<'_>,
    spoken: &[usize],
    class: usize,
) -> Result<Vec<usize>, AllocError>
    ensures { IfOk result (λ places. places.items ≡ filter (spec.is_of_class (host_view host.now) class) spoken.now) }
{
    let mut places = Vec::new(alloc);
    for position in spoken {
        if is_of_class(host, class, *position) {
            places.push(*position)?;
        }
    }
    Ok(places)
}

/// Returns the places that are of the class of a finding, of these.
fn places_of(
    alloc: Global,
    host: &PolicyHost<'_>,
    spoken: &[usize],
    finding: Finding<'_>,
) -> Result<Vec<usize>, AllocError>
    ensures { IfOk result (λ places. places.items ≡ spec.places_of (host_view host.now) spoken.now (finding_view finding.entry)) }
{
    match class_of(finding) {
        Some(class) => places_of_class(alloc, host, spoken, class),
        None => Ok(Vec::new(alloc)),
    }
}

/// Appends the findings of a rule.
fn push_found<'x>(
    alloc: Global,
    host: &PolicyHost<'_>,
    rule: ToldRule<'x>,
    found: &mut Vec<ToldFinding<'x>>,
) -> Result<(), AllocError>
    ensures { OnOk result (map told_view found.new.items
        ≡ map told_view found.old.items ++ spec.found_of_rule (host_view host.now) (rule_view rule.entry)) }
{
    let findings = rule.report.findings(alloc)?;
    for finding in &findings {
        let places = places_of(alloc, host, &rule.report.places, *finding)?;
        found.push(ToldFinding {
            rule,
            finding: *finding,
            places,
        })?;
    }
    Ok(())
}

/// Returns the findings of rules.
pub(super) fn found_of<'x>(
    alloc: Global,
    host: &PolicyHost<'_>,
    rules: &[ToldRule<'x>],
) -> Result<Vec<ToldFinding<'x>>, AllocError>
    ensures { IfOk result (λ found. map told_view found.items ≡ spec.found_of (host_view host.now) (map rule_view rules.now)) }
{
    let mut found = Vec::new(alloc);
    for rule in rules {
        push_found(alloc, host, *rule, &mut found)?;
    }
    Ok(found)
}

/// Returns the number of findings of a level.
fn found_at(found: &[ToldFinding<'_>], level: Level) -> usize
    ensures { result ≡ spec.found_at level (map told_view found.now) }
{
    found
        .iter()
        .filter(|told| is_level(policy_level(&told.finding), level))
        .count()
}

/// Counts findings by levels.
pub(super) fn counts_of(found: &[ToldFinding<'_>]) -> Counts
    ensures { result ≡ spec.counts_of (map told_view found.now) }
{
    Counts {
        errors: found_at(found, Level::Error),
        warnings: found_at(found, Level::Warning),
        notes: found_at(found, Level::Note),
    }
}
