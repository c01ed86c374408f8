//! Mended bytes, read again.

ghost use Rattle.std.specs.Prelude.{◌≡◌, ◌∷◌, ◌+◌, ◌++◌, [], IfOk, List, OnOk, drop, filter_map, length, map, ℕ};
ghost use Rattle.pam_conf.specs.Rule.{rule_view};
ghost use Rattle.pam_render.specs.patch_text.Mended as spec;
ghost use Rattle.pam_render.specs.patch_text.Mended.{are_among, begins_with, is_certain, len_before, lines_from, lines_of};
ghost use Rattle.pam_render.specs.patch_text.Mended.{module_line, module_lines, past, reading_of, run_len};
ghost use Rattle.pam_render.specs.patch_text.inner.Views.{first_faults, first_rules, mending_view, mendings_view, reading_view};

use crate::full_text::bytes_after;
use crate::patch_text::mending::Mending;
use pam_conf::{Body, Files, Form, Rule, RuleFault, RuleFiles};
use std::alloc::{AllocError, Global};

/// What is read of bytes.
#[derive(Drop)]
pub(super) struct Reading {
    /// The lines of rules of modules.
    pub modules: Vec<usize>,
    /// The lines of faults.
    pub faults: Vec<usize>,
    /// The number of rules and faults.
    pub count: usize,
}

/// The line of a rule of a module.
fn module_line(rule: &Rule) -> Option<usize>
    ensures { result ≡ module_line (rule_view rule.now) }
{
    match &rule.body {
        Body::Module(..) => Some(rule.line),
        Body::Include(_) | Body::Sub(_) => None,
    }
}

fn lines_of_modules(alloc: Global, rules: &[Rule]) -> Result<Vec<usize>, AllocError>
    ensures { IfOk result (λ lines. lines.items ≡ filter_map (λ rule. module_line (rule_view rule)) rules.now) }
{
    rules
        .iter()
        .filter_map(|rule| module_line(rule))
        .collect(alloc)
}

/// The lines of rules of modules.
fn module_lines(alloc: Global, rules: &[Rule]) -> Result<Vec<usize>, AllocError>
    ensures { IfOk result (λ lines. lines.items ≡ module_lines (map rule_view rules.now)) }
{
    let lines = lines_of_modules(alloc, rules)?;
    Ok(lines)
}

fn fault_lines(alloc: Global, faults: &[RuleFault]) -> Result<Vec<usize>, AllocError>
    ensures { IfOk result (λ lines. lines.items ≡ map (λ fault. fault.line) faults.now) }
{
    faults.iter().map(|fault| fault.line).collect(alloc)
}

/// A folder of one file, which has no name.
fn alone(alloc: Global, form: Form, bytes: &[u8]) -> Result<Files, AllocError>
    ensures { IfOk result (λ files. files ≡ record { form = form; entries = ([], bytes.now) ∷ [] }) }
{
    let mut files = Files::new(alloc, form);
    files.put(Vec::new(alloc), Vec::from_slice(alloc, bytes)?)?;
    Ok(files)
}

fn faults_of<'x>(read: &'x RuleFiles<'_>) -> &'x [RuleFault]
    ensures { result.now ≡ first_faults read.now }
{
    match read.faults(0) {
        Some(faults) => faults,
        None => &[],
    }
}

fn rules_of(alloc: Global, read: &RuleFiles<'_>) -> Result<Vec<Rule>, AllocError>
    ensures { IfOk result (λ rules. map rule_view rules.items ≡ first_rules read.now) }
{
    match read.rules(alloc, 0)? {
        Some(rules) => Ok(rules),
        None => Ok(Vec::new(alloc)),
    }
}

fn count_of(rules: &[Rule], faults: &[RuleFault]) -> usize
    ensures { result ≡ length (map rule_view rules.now) + length faults.now }
{
    rules.len() + faults.len()
}

/// What is read of the first file of a folder.
fn first_reading(alloc: Global, read: &RuleFiles<'_>) -> Result<Reading, AllocError>
    ensures { IfOk result (λ reading. reading_view reading ≡ spec.reading (first_rules read.now) (first_faults read.now)) }
{
    let rules = rules_of(alloc, read)?;
    let faults = faults_of(read);
    let modules = module_lines(alloc, &rules)?;
    let lines = fault_lines(alloc, faults)?;
    Ok(Reading {
        modules,
        faults: lines,
        count: count_of(&rules, faults),
    })
}

/// Reads bytes as a file of the configuration.
pub(super) fn reading_of(alloc: Global, form: Form, bytes: &[u8]) -> Result<Reading, AllocError>
    ensures { IfOk result (λ reading. reading_view reading ≡ reading_of form bytes.now) }
{
    let files = alone(alloc, form, bytes)?;
    let read = RuleFiles::read(alloc, &files)?;
    let reading = first_reading(alloc, &read)?;
    Ok(reading)
}

/// The lines after the first ones, none if there are no more than these.
fn lines_after(count: usize, lines: &[usize]) -> &[usize]
    ensures { result.now ≡ drop count lines.now }
{
    if count < lines.len() {
        lines.split_at(count).1
    } else {
        &[]
    }
}

/// How many lines at the front are this one.
fn run_len(lines: &[usize], line: usize) -> usize
    ensures { result ≡ run_len lines.now line }
{
    lines.iter().take_while(|other| **other == line).count()
}

/// The lines after those at the front that are this one.
fn past(lines: &[usize], line: usize) -> &[usize]
    ensures { result.now ≡ past lines.now line }
{
    lines_after(run_len(lines, line), lines)
}

/// Whether each line is among others, in their order.
fn are_among(lines: &[usize], others: &[usize]) -> bool
    ensures { result ≡ are_among lines.now others.now }
{
    let mut left = lines;
    for other in others {
        left = past(left, *other);
    }
    left.is_empty()
}

fn own_lines(alloc: Global, mendings: &[Mending<'_>]) -> Result<Vec<usize>, AllocError>
    ensures { IfOk result (λ lines. lines.items ≡ map (λ m. m.line) mendings.now) }
{
    mendings.iter().map(|mending| mending.line).collect(alloc)
}

/// The lines of mendings.
fn lines_of(alloc: Global, mendings: &[Mending<'_>]) -> Result<Vec<usize>, AllocError>
    ensures { IfOk result (λ lines. lines.items ≡ lines_of (mendings_view mendings.now)) }
{
    let lines = own_lines(alloc, mendings)?;
    Ok(lines)
}

/// Whether mendings are certain, by what is read before and after them.
pub(super) fn is_certain(
    alloc: Global,
    mendings: &[Mending<'_>],
    old: &Reading,
    new: &Reading,
) -> Result<bool, AllocError>
    ensures { IfOk result (λ certain. certain ≡ is_certain (mendings_view mendings.now) (reading_view old.now) (reading_view new.now)) }
{
    let lines = lines_of(alloc, mendings)?;
    Ok(
        are_among(&lines, &new.modules)
            && are_among(&new.faults, &old.faults)
            && new.count == old.count,
    )
}

/// How many lines at the front come before another one.
fn len_before(line: usize, lines: &[usize]) -> usize
    ensures { result ≡ len_before line lines.now }
{
    lines.iter().take_while(|other| **other < line).count()
}

/// The lines from that with a number on.
fn lines_from(line: usize, lines: &[usize]) -> &[usize]
    ensures { result.now ≡ lines_from line lines.now }
{
    lines_after(len_before(line, lines), lines)
}

fn begins_with(line: usize, lines: &[usize]) -> bool
    ensures { result ≡ begins_with line lines.now }
{
    match lines.split_first() {
        Some((first, _)) => *first == line,
        None => false,
    }
}

/// Appends a mending, if the lines begin with its own.
#[tactic(auto, unfolding(crate::specs::patch_text::Mended::kept))]
fn push_kept<'a>(
    lines: &[usize],
    mending: Mending<'a>,
    kept: &mut Vec<Mending<'a>>,
) -> Result<(), AllocError>
    ensures { OnOk result ((mendings : List spec.Mending) (before : List ℕ) → lines.now ≡ lines_from mending.entry.line before →
        mendings_view kept.new.items ++ spec.kept lines.now mendings
        ≡ mendings_view kept.old.items ++ spec.kept before (mending_view mending.entry ∷ mendings)) }
{
    if begins_with(mending.line, lines) {
        kept.push(mending)?;
    }
    Ok(())
}

/// The mendings of these lines, if both are in order.
#[tactic(auto, unfolding(crate::specs::patch_text::Mended::kept))]
pub(super) fn kept<'a>(
    alloc: Global,
    lines: &[usize],
    mendings: &[Mending<'a>],
) -> Result<Vec<Mending<'a>>, AllocError>
    ensures { IfOk result (λ kept. mendings_view kept.items ≡ spec.kept lines.now (mendings_view mendings.now)) }
{
    let mut rest = lines;
    let mut kept = Vec::new(alloc);
    for mending in mendings {
        rest = lines_from(mending.line, rest);
        push_kept(rest, *mending, &mut kept)?;
    }
    Ok(kept)
}
