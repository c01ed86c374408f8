//! What the stacks of a host say of the rules of policies.

ghost use Rattle.std.specs.Prelude.{◌≡◌, All, IfOk, length, map};
ghost use Rattle.pam_conf.specs.Services.{services_in};
ghost use Rattle.pam_policy.specs.host.HostStacks.{HasGraph};
ghost use Rattle.pam_policy.specs.host.Told.{told_stacks};
ghost use Rattle.pam_policy.specs.names.Host.{host_view};
ghost use Rattle.pam_policy.specs.text.Rules.{rule_view};
ghost use Rattle.pam_report.specs.Policy.{IsJudgedBy, host_of, name_at, rules_in};
ghost use Rattle.pam_report.specs.inner.Policy.{AreNamed, rules_read};

use super::JudgedPolicy;
use super::answering::PolicyRequest;
use pam_conf::RuleFiles;
use pam_facts::Facts;
use pam_policy::host::HostStacks;
use pam_policy::names::{Host, calls_in};
use pam_policy::rules::JudgeError;
use pam_policy::text::Policy;
use std::alloc::Global;

/// The name of the policy at a position, empty if it has none.
fn name_at<'a>(names: &[&'a str], position: usize) -> &'a str
    ensures { result.now ≡ name_at (map (λ n. n.now) names.now) position }
{
    match names.get(position) {
        Some(name) => *name,
        None => "",
    }
}

/// Judges the rules of a policy with this name.
fn judge_one<'a>(
    alloc: Global,
    facts: &Facts<'_>,
    host: &Host<'_>,
    stacks: &HostStacks,
    name: &'a str,
    policy: Policy<'a>,
) -> Result<JudgedPolicy<'a>, JudgeError>
    requires graphs { All HasGraph stacks.now.classes.items }
    ensures name { IfOk result (λ judged. judged.name.now ≡ name.now) }
    ensures rules { IfOk result (λ judged. rules_in judged ≡ map rule_view policy.entry.rules.items) }
    ensures reports { IfOk result (IsJudgedBy (host_view host.now) (told_stacks facts.now stacks.now)) }
{
    let Policy { rules } = policy;
    let reports = stacks.judge(alloc, facts, host, &rules)?;
    Ok(JudgedPolicy {
        name,
        rules,
        reports,
    })
}

/// Judges the rules of policies with these names.
fn judge_each<'a>(
    alloc: Global,
    facts: &Facts<'_>,
    host: &Host<'_>,
    stacks: &HostStacks,
    names: &[&'a str],
    policies: Vec<Policy<'a>>,
) -> Result<Vec<JudgedPolicy<'a>>, JudgeError>
    requires graphs { All HasGraph stacks.now.classes.items }
    ensures names { IfOk result (λ judged. AreNamed (map (λ n. n.now) names.now) (length policies.entry.items) judged.items) }
    ensures rules { IfOk result (λ judged. map rules_in judged.items ≡ rules_read policies.entry.items) }
    ensures reports { IfOk result (λ judged. All (IsJudgedBy (host_view host.now) (told_stacks facts.now stacks.now)) judged.items) }
{
    let mut judged = Vec::new(alloc);
    for policy in policies {
        let name = name_at(names, judged.len());
        let one = judge_one(alloc, facts, host, stacks, name, policy)?;
        judged.push(one)?;
    }
    Ok(judged)
}

/// Judges the rules of policies at the stacks of a host. No rule that is read has more events than can be judged, so only memory can
/// be wanting.
pub(super) fn judge_policies<'a>(
    asked: &PolicyRequest<'_, 'a>,
    facts: &Facts<'_>,
    stacks: &HostStacks,
    policies: Vec<Policy<'a>>,
) -> Result<Vec<JudgedPolicy<'a>>, JudgeError>
    requires services { stacks.now.services ≡ services_in asked.now.files.now.form asked.now.files.now.entries }
    requires graphs { All HasGraph stacks.now.classes.items }
    ensures names { IfOk result (λ judged. AreNamed (map (λ n. n.now) asked.now.names.now) (length policies.entry.items) judged.items) }
    ensures rules { IfOk result (λ judged. map rules_in judged.items ≡ rules_read policies.entry.items) }
    ensures reports { let host = host_of asked.now.files.now asked.now.inputs.now facts.now in
        IfOk result (λ judged. All (IsJudgedBy host (told_stacks facts.now stacks.now)) judged.items) }
{
    let alloc = asked.alloc;
    let files = RuleFiles::read(alloc, asked.files)?;
    let calls = calls_in(alloc, &files)?;
    let known = facts.names(alloc)?;
    let host = Host {
        services: &stacks.services,
        calls: &calls,
        known: &known,
        there: asked.inputs.there(),
    };
    judge_each(alloc, facts, &host, stacks, asked.names, policies)
}
