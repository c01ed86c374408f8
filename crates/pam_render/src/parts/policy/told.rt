//! A host, its rules and their findings, as the lines of policies use them.

ghost use Rattle.std.specs.Prelude.{◌≡◌, IfOk, map};
ghost use Rattle.pam_report.specs.ReplyViews.{policy_view};
ghost use Rattle.pam_render.specs.parts.Policy as spec;
ghost use Rattle.pam_render.specs.parts.PolicyView.{host_view, rule_view};
ghost use Rattle.pam_render.specs.parts.inner.Told.{IsToldOf};

use crate::parts::check::slices;
use crate::parts::policy::found::{found_of, rules_of};
use pam_conf::Files;
use pam_policy::host::{Finding, HostPlace, RuleReport, SpokenPlaces, StackClass};
use pam_report::PolicyReply;
use std::alloc::{AllocError, Global};

/// The stacks of a host.
#[derive(Drop)]
pub struct PolicyHost<'x> {
    /// The configuration, if it is given.
    pub files: Option<&'x Files>,
    /// The names of the services, by position.
    pub services: Vec<&'x [u8]>,
    pub places: &'x [HostPlace],
    pub classes: &'x [StackClass],
}

/// A rule of a policy, and what a host says of it.
#[derive(Clone, Copy)]
pub struct ToldRule<'x> {
    /// The name of the policy.
    pub policy: &'x [u8],
    /// From 1.
    pub line: u32,
    /// The words of the line, with one space between them.
    pub text: &'x [u8],
    pub report: &'x RuleReport,
}

/// A finding of a rule.
#[derive(Drop)]
pub struct ToldFinding<'x> {
    pub rule: ToldRule<'x>,
    pub finding: Finding<'x>,
    /// The positions of the places of which the rule speaks and that are of the class of the finding.
    pub places: Vec<usize>,
}

/// What the lines of policies use.
#[derive(Drop)]
pub(super) struct Told<'x> {
    pub host: PolicyHost<'x>,
    pub rules: Vec<ToldRule<'x>>,
    pub found: Vec<ToldFinding<'x>>,
    /// The number of stacks of which some rule speaks.
    pub stacks: usize,
}

/// Returns the number of stacks of which some of these rules speaks.
fn spoken_count(alloc: Global, rules: &[ToldRule<'_>]) -> Result<usize, AllocError>
    ensures { IfOk result (λ count. count ≡ spec.spoken_count (map rule_view rules.now)) }
{
    let mut spoken = SpokenPlaces::new(alloc);
    for rule in rules {
        spoken.add(rule.report)?;
    }
    Ok(spoken.count())
}

/// Returns the stacks of a reply, with the names of their services.
fn host_of<'x>(alloc: Global, reply: &'x PolicyReply<'_>) -> Result<PolicyHost<'x>, AllocError>
    ensures { IfOk result (λ host. host_view host ≡ spec.host_of (policy_view reply.now)) }
{
    let services = slices(alloc, &reply.stacks.services)?;
    Ok(PolicyHost {
        files: reply.files,
        services,
        places: &reply.stacks.places,
        classes: &reply.stacks.classes,
    })
}

/// Returns what the lines of a reply use.
pub(super) fn told_of<'x>(alloc: Global, reply: &'x PolicyReply<'_>) -> Result<Told<'x>, AllocError>
    ensures { IfOk result (IsToldOf (policy_view reply.now)) }
{
    let host = host_of(alloc, reply)?;
    let rules = rules_of(alloc, &reply.policies)?;
    let found = found_of(alloc, &host, &rules)?;
    let stacks = spoken_count(alloc, &rules)?;
    Ok(Told {
        host,
        rules,
        found,
        stacks,
    })
}
