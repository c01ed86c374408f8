//! The reply of the `policy` command, or its first fault.

ghost use Rattle.std.specs.Prelude.{◌≡◌, [], All, IfErr, MatchResult, None, Option, is_some, map};
ghost use Rattle.jiff.specs.Types.{DateTime as DateTimeText};
ghost use Rattle.pam_conf.specs.Services.{services_in};
ghost use Rattle.pam_policy.specs.host.HostStacks.{AreHostStacks, HasGraph};
ghost use Rattle.pam_report.specs.Candidates.{IfUsed, first_unused};
ghost use Rattle.pam_report.specs.Finds.{Finds};
ghost use Rattle.pam_report.specs.Memory.{WantsOnly};
ghost use Rattle.pam_report.specs.Policy.{IsPolicy, IsTimed, sources_of};
ghost use Rattle.pam_report.specs.declared.fault.Fault.{Fault as FaultText};
ghost use Rattle.pam_report.specs.inner.Candidates.{IsUnused};
ghost use Rattle.pam_report.specs.inner.Policy.{FindsByRules, FindsPolicyAt, FindsPolicyOf, HasItsFiles, asked_wants, policy_text, rules_read};
ghost use Rattle.pam_words.specs.Wanted.{candidate_view};

use super::PolicyReply;
use super::judging::judge_policies;
use super::reading::read_policies;
use super::stacks::stacks_at;
use crate::candidates::require_used;
use crate::fault::{Fault, facts_fault};
use crate::inputs::Inputs;
use crate::report::compared_keys::are_keys;
use crate::report::replies::Reply;
use jiff::civil::DateTime;
use pam_conf::Files;
use pam_facts::Facts;
use pam_facts::settings::Setting;
use pam_policy::host::HostStacks;
use pam_policy::text::Policy;
use pam_tables::times::MomentError;
use pam_text::Texts;
use pam_words::{Candidate, LevelName, Login};
use std::alloc::Global;

/// What is asked of policies, and of which host.
#[derive(Clone, Copy)]
pub(crate) struct PolicyRequest<'x, 'a> {
    pub alloc: Global,
    /// The configuration, which has no files if none is given.
    pub files: &'x Files,
    pub kept: Option<&'a Files>,
    pub inputs: &'a Inputs,
    pub candidates: &'x [Candidate<'a>],
    /// The names of the policies.
    pub names: &'x [&'a str],
    pub fail_on: LevelName,
    pub login: Login<'a>,
    pub settings: &'x [Setting<'a>],
    pub moment: Option<Result<DateTime, MomentError>>,
}

/// Returns what these stacks say of policies.
fn judged_at<'a>(
    asked: &PolicyRequest<'_, 'a>,
    facts: &Facts<'_>,
    policies: Vec<Policy<'a>>,
    stacks: HostStacks,
) -> Result<Reply<'a>, Fault>
    requires files { HasItsFiles asked.now }
    requires services { stacks.services ≡ services_in asked.now.files.now.form asked.now.files.now.entries }
    requires graphs { All HasGraph stacks.classes.items }
    ensures answer { (moment : Option DateTimeText) → AreHostStacks (sources_of (policy_text asked.now) asked.now.files.now asked.now.inputs.now facts.now moment) stacks
        → FindsPolicyOf asked.now facts.now moment (rules_read policies.entry.items) result }
    ensures fault { IfErr result (λ fault. fault ≡ FaultText.Memory) }
{
    match judge_policies(asked, facts, &stacks, policies) {
        Ok(policies) => Ok(Reply::Policy(PolicyReply {
            files: asked.kept,
            stacks,
            policies,
            fail_on: asked.fail_on,
        })),
        Err(_) => Err(Fault::Memory),
    }
}

/// Returns what the stacks of the host say of policies.
fn judged<'a>(
    asked: &PolicyRequest<'_, 'a>,
    facts: &Facts<'_>,
    policies: Vec<Policy<'a>>,
    moment: Option<DateTime>,
) -> Result<Reply<'a>, Fault>
    requires { HasItsFiles asked.now }
    ensures answer { FindsPolicyOf asked.now facts.now moment (rules_read policies.entry.items) result }
    ensures wants { WantsOnly (asked_wants asked.now (is_some moment)) result }
{
    match stacks_at(asked, facts, moment) {
        Ok(stacks) => judged_at(asked, facts, policies, stacks),
        Err(fault) => Err(fault),
    }
}

/// Like `judged`, if each key that is set is the name of a module.
fn keyed<'a>(
    asked: &PolicyRequest<'_, 'a>,
    facts: &Facts<'_>,
    policies: Vec<Policy<'a>>,
    moment: Option<DateTime>,
) -> Result<Reply<'a>, Fault>
    requires { HasItsFiles asked.now }
    ensures answer { FindsPolicyAt asked.now facts.now moment (rules_read policies.entry.items) result }
    ensures wants { WantsOnly (asked_wants asked.now (is_some moment)) result }
{
    match are_keys(asked.alloc, asked.files, asked.files, asked.settings) {
        Ok(true) => judged(asked, facts, policies, moment),
        Ok(false) => Err(Fault::NoSuchKey),
        Err(_) => Err(Fault::Memory),
    }
}

/// Like `keyed`, if the moment is valid.
fn timed<'a>(
    asked: &PolicyRequest<'_, 'a>,
    facts: &Facts<'_>,
    policies: Vec<Policy<'a>>,
) -> Result<Reply<'a>, Fault>
    requires { HasItsFiles asked.now }
    ensures answer { Finds result (IsTimed (policy_text asked.now) asked.now.files.now asked.now.inputs.now asked.now.moment facts.now (rules_read policies.entry.items)) }
    ensures wants { WantsOnly (asked_wants asked.now (is_some asked.now.moment)) result }
{
    match asked.moment {
        None => keyed(asked, facts, policies, None),
        Some(Ok(moment)) => keyed(asked, facts, policies, Some(moment)),
        Some(Err(error)) => Err(Fault::Moment(error)),
    }
}

/// Like `timed`, if the policies have no fault.
fn by_rules<'a>(asked: &PolicyRequest<'_, 'a>, facts: &Facts<'_>) -> Result<Reply<'a>, Fault>
    requires { HasItsFiles asked.now }
    ensures answer { FindsByRules asked.now facts.now result }
    ensures wants { WantsOnly (asked_wants asked.now (is_some asked.now.moment)) result }
{
    match read_policies(asked.alloc, asked.inputs.policies()) {
        Ok(policies) => timed(asked, facts, policies),
        Err(fault) => Err(fault),
    }
}

/// Like `by_rules`, if the facts file has no fault.
fn by_facts<'a>(asked: &PolicyRequest<'_, 'a>) -> Result<Reply<'a>, Fault>
    requires { HasItsFiles asked.now }
    ensures answer { Finds result (IsPolicy (policy_text asked.now) asked.now.files.now asked.now.inputs.now) }
    ensures wants { WantsOnly (asked_wants asked.now (is_some asked.now.moment)) result }
{
    match Facts::read(asked.alloc, asked.inputs.facts_file()) {
        Ok(facts) => by_rules(asked, &facts),
        Err(error) => Err(facts_fault(error)),
    }
}

/// Refuses candidates of which no service reads one.
fn require_read(asked: &PolicyRequest<'_, '_>) -> Result<(), Fault>
    ensures { let unused = first_unused asked.now.files.now [] (map candidate_view asked.now.candidates.now) in
        MatchResult result (λ _. unused ≡ None) (IsUnused unused) }
{
    let named = Texts::new(asked.alloc);
    require_used(asked.alloc, asked.files, &named, asked.candidates)
}

/// Returns what a host says of policies, or the first fault: of a candidate that no service reads, then of the facts file, then of the
/// policies in turn, then of the moment, then of a key that is set, then of the tables.
// Not inlined, so that a command uses no stack for the values of the others.
#[inline(never)]
pub(crate) fn answer_policy<'a>(asked: &PolicyRequest<'_, 'a>) -> Result<Reply<'a>, Fault>
    requires { HasItsFiles asked.now }
    ensures answer { Finds result (IfUsed (first_unused asked.now.files.now [] (map candidate_view asked.now.candidates.now))
        (IsPolicy (policy_text asked.now) asked.now.files.now asked.now.inputs.now)) }
    ensures wants { WantsOnly (asked_wants asked.now (is_some asked.now.moment)) result }
{
    match require_read(asked) {
        Ok(()) => by_facts(asked),
        Err(fault) => Err(fault),
    }
}
