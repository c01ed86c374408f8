//! Rules that include a file which only the vendor folder has: L10.

ghost use Rattle.std.specs.Prelude.{◌≡◌, ◌++◌, OnOk};
ghost use Rattle.std.specs.List.{flat_map};
ghost use Rattle.pam_conf.specs.Rule.{rule_view};
ghost use Rattle.pam_findings.specs.host.FileProblems.{includes_vendor, is_of_vendor};
ghost use Rattle.pam_findings.specs.host.inner.Own.{vendor_spots, vendor_spots_in};

use crate::host::problem::{Problem, Spot};
use crate::host::stacks::Checker;
use pam_conf::{Body, Files, Rule};
use std::alloc::AllocError;

/// Whether only the vendor folder has the file of this name.
fn is_of_vendor(files: &Files, vendor_start: usize, name: &[u8]) -> bool
    ensures { result ≡ is_of_vendor files.now vendor_start name.now }
{
    match files.find(name) {
        Some(position) => vendor_start <= position,
        None => false,
    }
}

/// Whether a rule includes such a file, or has it as a substack.
fn includes_vendor(files: &Files, vendor_start: usize, rule: &Rule) -> bool
    ensures { result ≡ includes_vendor files.now vendor_start (rule_view rule.now).body }
{
    match &rule.body {
        Body::Module { .. } => false,
        Body::Include(target) | Body::Sub(target) => is_of_vendor(files, vendor_start, target),
    }
}

/// Appends L10 of a rule, if it has it.
fn push_rule(
    spots: &mut Vec<Spot>,
    files: &Files,
    vendor_start: usize,
    file: usize,
    rule: &Rule,
) -> Result<(), AllocError>
    ensures { OnOk result (spots.new.items ≡ spots.old.items ++ vendor_spots files.now vendor_start file (rule_view rule.now)) }
{
    if includes_vendor(files, vendor_start, rule) {
        spots.push(Spot {
            file: Some(file),
            line: rule.line,
            problem: Problem::IncludedFromVendor {
                is_at_include: rule.kind.is_none(),
            },
        })?;
    }
    Ok(())
}

/// Appends L10 of these rules of a file.
fn push_rules(
    spots: &mut Vec<Spot>,
    files: &Files,
    vendor_start: usize,
    file: usize,
    rules: &[Rule],
) -> Result<(), AllocError>
    ensures { OnOk result (spots.new.items
        ≡ spots.old.items ++ flat_map (λ rule. vendor_spots files.now vendor_start file (rule_view rule)) rules.now) }
{
    for rule in rules {
        push_rule(spots, files, vendor_start, file, rule)?;
    }
    Ok(())
}

/// Appends L10 of the rules of the file at a position.
pub(crate) fn push_from_vendor(
    checker: &Checker<'_, '_>,
    spots: &mut Vec<Spot>,
    file: usize,
) -> Result<(), AllocError>
    ensures { OnOk result (spots.new.items ≡ spots.old.items ++ vendor_spots_in checker.now.files.now checker.now.vendor_start file) }
{
    let files = checker.files;
    if files.len() <= checker.vendor_start {
        return Ok(());
    }
    let Some(rules) = checker.rules.rules(checker.alloc, file)? else {
        return Ok(());
    };
    push_rules(spots, files, checker.vendor_start, file, &rules)
}
