//! The names of the files that rules include.

ghost use Rattle.std.specs.Prelude.{◌≡◌, ℕ, IfOk, List, OnOk, false, map};
ghost use Rattle.std.specs.List.{list_any};
ghost use Rattle.std.specs.Option.{option_map_or};
ghost use Rattle.std.specs.Str.{bytes_eq};
ghost use Rattle.pam_conf.specs.Rule.{rule_view};
ghost use Rattle.pam_conf.specs.Targets.{is_target, names_target};
ghost use Rattle.pam_findings.specs.host.inner.Targets.{AddsNames, AreTargets, names_in_file};

use pam_conf::{Body, NameList, Rule, RuleFiles};
use std::alloc::{AllocError, Global};
use std::marker::Model;

/// The names of the files that a rule without a fault includes, or has as a substack, with an index, so that a search takes constant time.
#[derive(Drop)]
pub(crate) struct Targets<'x> {
    rules: &'x RuleFiles<'x>,
    names: NameList,
}

/// Seen as the files whose rules include them.
impl<'x> Model for Targets<'x> {
    ghost use Rattle.pam_conf.specs.Files.{Folder};
    ghost use Rattle.pam_findings.specs.host.inner.Targets.{AreTargets};

    ghost Value = { Folder };

    ghost view = { λ t. t.rules.now };

    ghost invariant = { λ t. AreTargets t.rules.now t.names };
}

/// The name of the file that a rule includes, if it includes one.
fn included(rule: &Rule) -> Option<&[u8]>
    ensures { (name : List ℕ) → names_target name (rule_view rule.now) ≡ option_map_or (λ target. bytes_eq name target.now) result false }
{
    match &rule.body {
        Body::Module(..) => None,
        Body::Include(target) | Body::Sub(target) => Some(target),
    }
}

/// Adds the name of the file that a rule includes, if it includes one.
fn add_target(alloc: Global, names: &mut NameList, rule: &Rule) -> Result<(), AllocError>
    ensures { OnOk result (AddsNames (λ name. names_target name (rule_view rule.now)) names.old names.new) }
{
    let Some(target) = included(rule) else {
        return Ok(());
    };
    names.add(alloc, target)?;
    Ok(())
}

/// Adds the names of the files that rules include.
fn add_targets(alloc: Global, names: &mut NameList, rules: &[Rule]) -> Result<(), AllocError>
    ensures { OnOk result (AddsNames (λ name. list_any (names_target name) (map rule_view rules.now)) names.old names.new) }
{
    for rule in rules {
        add_target(alloc, names, rule)?;
    }
    Ok(())
}

/// Adds the names of the files that the rules of the file at a position include.
fn add_file(
    alloc: Global,
    names: &mut NameList,
    rules: &RuleFiles<'_>,
    position: usize,
) -> Result<(), AllocError>
    ensures { OnOk result (AddsNames (names_in_file rules.now position) names.old names.new) }
{
    match rules.rules(alloc, position)? {
        Some(rules) => add_targets(alloc, names, &rules),
        None => Ok(()),
    }
}

/// The names of the files that the rules of all files include.
fn target_names(alloc: Global, rules: &RuleFiles<'_>) -> Result<NameList, AllocError>
    ensures { IfOk result (λ names. AreTargets rules.now names) }
{
    let mut names = NameList::new(alloc);
    for position in 0..rules.len() {
        add_file(alloc, &mut names, rules, position)?;
    }
    Ok(names)
}

impl<'x> Targets<'x> {
    /// The names of the files that rules without a fault include. Takes time linear in the rules.
    pub(crate) fn of(alloc: Global, rules: &'x RuleFiles<'x>) -> Result<Targets<'x>, AllocError>
        ensures { IfOk result (λ targets. targets ≡ rules.now) }
    {
        let names = target_names(alloc, rules)?;
        Ok(Targets { rules, names })
    }

    /// Whether a rule without a fault includes the file of this name, or has it as a substack.
    pub(crate) fn has(&self, name: &[u8]) -> bool
        ensures { result ≡ is_target self.now name.now }
    {
        self.names.has(name)
    }
}
