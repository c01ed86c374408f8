//! The rules of the policies of a request.

ghost use Rattle.std.specs.Prelude.{◌≡◌, ◌∷◌, ◌++◌, [], IfErr, MatchResult, Ok, OnOk, map};
ghost use Rattle.std.specs.Option.{option_map_or};
ghost use Rattle.pam_policy.specs.text.Policy.{rules_of};
ghost use Rattle.pam_policy.specs.text.Rules.{rule_view};
ghost use Rattle.pam_report.specs.Policy.{policies_of};
ghost use Rattle.pam_report.specs.declared.fault.Fault.{Fault as FaultText};
ghost use Rattle.pam_report.specs.inner.Policy.{IsUnread, IsUnreadAlone, rules_read};

use crate::fault::{Fault, policy_fault};
use pam_policy::text::Policy;
use pam_policy::text::laws::rules_are_few;
use pam_text::Texts;
use std::alloc::Global;

/// Reads the policy of a number, which follows others with so many rules.
fn read_one<'a>(
    alloc: Global,
    bytes: &'a [u8],
    number: usize,
    before: usize,
) -> Result<Policy<'a>, Fault>
    ensures { MatchResult result (λ policy. rules_of bytes.now before ≡ Ok (map rule_view policy.rules.items))
        (IsUnreadAlone number (rules_of bytes.now before)) }
{
    match Policy::read(alloc, bytes, before) {
        Ok(policy) => Ok(policy),
        Err(error) => Err(policy_fault(number, error)),
    }
}

/// Appends a policy.
fn add<'a>(policies: &mut Vec<Policy<'a>>, policy: Policy<'a>) -> Result<(), Fault>
    ensures items { OnOk result (policies.new.items ≡ policies.old.items ++ policy.entry ∷ []) }
    ensures fault { IfErr result (λ fault. fault ≡ FaultText.Memory) }
{
    match policies.push(policy) {
        Ok(()) => Ok(()),
        Err(_) => Err(Fault::Memory),
    }
}

/// Reads policies in their order, where the rules of all together are counted.
fn read_each<'a>(alloc: Global, texts: &'a Texts) -> Result<Vec<Policy<'a>>, Fault>
    ensures { MatchResult result (λ policies. policies_of texts.now ≡ Ok (rules_read policies.items)) (IsUnread (policies_of texts.now)) }
{
    rules_are_few();
    let mut policies = Vec::new(alloc);
    let mut before = 0;
    for bytes in texts.iter() {
        let policy = read_one(alloc, bytes, policies.len() + 1, before)?;
        before += policy.rules.len();
        add(&mut policies, policy)?;
    }
    Ok(policies)
}

/// Reads the policies that are given, or returns the first fault of the first that has one.
#[tactic(auto, unfolding(crate::specs::Policy::policies_from))]
pub(super) fn read_policies<'a>(
    alloc: Global,
    texts: Option<&'a Texts>,
) -> Result<Vec<Policy<'a>>, Fault>
    ensures { let told = policies_of (option_map_or (λ t. t.now) texts.entry []) in
        MatchResult result (λ policies. told ≡ Ok (rules_read policies.items)) (IsUnread told) }
{
    match texts {
        Some(texts) => read_each(alloc, texts),
        None => Ok(Vec::new(alloc)),
    }
}
