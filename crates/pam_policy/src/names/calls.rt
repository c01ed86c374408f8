//! The calls of modules by the rules of a configuration.

ghost use Rattle.std.specs.Prelude.{◌≡◌, ◌∷◌, ◌++◌, [], IfOk, OnOk, filter_map, map};
ghost use Rattle.std.specs.Option.{option_map, option_map_or};
ghost use Rattle.pam_conf.specs.Files.{bytes_at};
ghost use Rattle.pam_conf.specs.Rule.{rule_view};
ghost use Rattle.pam_policy.specs.names.Calls.{called_by, calls_in, calls_of};
ghost use Rattle.pam_policy.specs.names.Host.{call_view};

use crate::names::host::Call;
use pam_conf::{Body, Rule, RuleFiles};
use pam_text::Texts;
use std::alloc::{AllocError, Global};

fn copied(alloc: Global, texts: &Texts) -> Result<Texts, AllocError>
    ensures { IfOk result (λ copy. copy ≡ texts.now) }
{
    let mut copy = Texts::new(alloc);
    for text in texts.iter() {
        copy.push(text)?;
    }
    Ok(copy)
}

/// The call of a rule, if it is one of a module.
fn call_of(alloc: Global, rule: &Rule) -> Result<Option<Call>, AllocError>
    ensures { IfOk result (λ call. option_map call_view call ≡ called_by (rule_view rule.now).body) }
{
    match &rule.body {
        Body::Module(_, path, arguments) => Ok(Some(Call {
            path: Vec::from_slice(alloc, path)?,
            arguments: copied(alloc, arguments)?,
        })),
        Body::Include(_) | Body::Sub(_) => Ok(None),
    }
}

/// Appends the call of a rule, if it is one of a module.
fn push_call(alloc: Global, calls: &mut Vec<Call>, rule: &Rule) -> Result<(), AllocError>
    ensures { OnOk result (map call_view calls.new.items
        ≡ map call_view calls.old.items ++ filter_map (λ rule. called_by rule.body) (rule_view rule.now ∷ [])) }
{
    if let Some(call) = call_of(alloc, rule)? {
        calls.push(call)?;
    }
    Ok(())
}

/// Appends the calls of rules.
fn push_calls(alloc: Global, calls: &mut Vec<Call>, rules: &[Rule]) -> Result<(), AllocError>
    ensures { OnOk result (map call_view calls.new.items
        ≡ map call_view calls.old.items ++ filter_map (λ rule. called_by rule.body) (map rule_view rules.now)) }
{
    for rule in rules {
        push_call(alloc, calls, rule)?;
    }
    Ok(())
}

/// Appends the calls of the file at a position.
fn push_file(
    alloc: Global,
    calls: &mut Vec<Call>,
    rules: &RuleFiles<'_>,
    position: usize,
) -> Result<(), AllocError>
    ensures { OnOk result (map call_view calls.new.items
        ≡ map call_view calls.old.items ++ option_map_or (calls_of rules.now.form) (bytes_at position rules.now.entries) []) }
{
    match rules.rules(alloc, position)? {
        Some(rules) => push_calls(alloc, calls, &rules),
        None => Ok(()),
    }
}

/// The calls of modules by the rules without a fault, of all files.
#[tactic(auto, unfolding(crate::specs::names::Calls::calls_in))]
pub fn calls_in(alloc: Global, rules: &RuleFiles<'_>) -> Result<Vec<Call>, AllocError>
    ensures { IfOk result (λ calls. map call_view calls.items ≡ calls_in rules.now) }
{
    let mut calls = Vec::new(alloc);
    for position in 0..rules.len() {
        push_file(alloc, &mut calls, rules, position)?;
    }
    Ok(calls)
}
