//! The rules of the lines of a file: pam.conf(5).
ghost use Rattle.std.specs.Prelude.{◌≡◌, ◌<◌, ◌∷◌, ◌++◌, [], IfOk, IfSome, IsTrue, List, MatchOption, Ok, OnOk, filter, length, map, ℕ};
ghost use Rattle.std.specs.List.{cons_option, list_all};
ghost use Rattle.std.specs.Option.{option_map};
ghost use Rattle.std.specs.Result.{result_transpose};
ghost use Rattle.pam_codes.specs.Tokens.{is_blank};
ghost use Rattle.pam_text.specs.Left.{text_left};
ghost use Rattle.pam_text.specs.Text.{text_of, lines_of};
ghost use Rattle.pam_text.specs.Gives.{Gives};
ghost use Rattle.pam_conf.specs.Tells.{ErrorTells, FaultTells};
ghost use Rattle.pam_conf.specs.inner.Tells.{KindTells};
ghost use Rattle.pam_conf.specs.FileRules.{line_results};
ghost use Rattle.pam_conf.specs.inner.Kept.{kept_view};
ghost use Rattle.pam_conf.specs.Lines.{at_line, fault_of_source, line_rule_of, rules_in, rules_of};
ghost use Rattle.pam_conf.specs.inner.Lines.{fault_at as fault_at_line};
ghost use Rattle.pam_conf.specs.Rule.{RuleText, rule_view};
ghost use Rattle.pam_conf.specs.inner.Progress.{in_file};
ghost use Rattle.pam_conf.specs.Walk.{rules_at};
ghost use Rattle.pam_conf.specs.inner.Wanted.{with_rule, only_wanted, wants};

use crate::conf_error::ConfError;
use crate::error::{FaultKind, RuleFault};
use crate::faults::fault_in;
use crate::files::Files;
use crate::kept::{KeptRule, whole_rules};
use crate::rule::{Form, Rule, line_rule};
use crate::wanted::{Wanted, is_unwanted, is_wanted};
use crate::words::Words;
use pam_text::{Line, Source, SourceFault, Text, is_text_blank};
use std::alloc::{AllocError, AllocFailed, Global};

/// Reads the rules of a file in the order of its lines: pam.conf(5). Fails with the first fault: `FileTooLong` (E16)
/// comes before `NulByte` (E1), and that before the faults of lines. A failed allocation has line 0.
pub fn rules(alloc: Global, bytes: &[u8], form: Form) -> Result<Vec<Rule>, RuleFault>
    ensures { Gives FaultTells (λ rules. map rule_view rules.items) result (rules_of form bytes.now) }
{
    let kept = wanted_rules(alloc, bytes, form, Wanted::All)?;
    Ok(whole_rules(alloc, kept.as_slice())?)
}

/// Like `rules`, but returns only the wanted ones, as a walk keeps them. A fault in another rule is still an error.
#[tactic(auto, unfolding(crate::specs::Lines::rules_of))]
pub(crate) fn wanted_rules(
    alloc: Global,
    bytes: &[u8],
    form: Form,
    wanted: Wanted<'_>,
) -> Result<Vec<KeptRule>, RuleFault>
    ensures { Gives FaultTells (λ rules. map kept_view rules.items) result (only_wanted wanted.entry (rules_of form bytes.now)) }
{
    match Source::of(bytes) {
        Ok(source) => text_rules(alloc, form, source, wanted),
        Err(fault) => Err(source_fault(fault)),
    }
}

/// Reads the wanted rules of the file at a position.
pub(crate) fn file_rules(
    alloc: Global,
    files: &Files,
    file: usize,
    wanted: Wanted<'_>,
) -> Result<Vec<KeptRule>, ConfError>
    requires { file < length files.now.entries }
    ensures { Gives ErrorTells (λ rules. map kept_view rules.items) result (in_file file (only_wanted wanted.entry (rules_at files.now file))) }
{
    let bytes = files.bytes(file).unwrap_or(b"");
    wanted_rules(alloc, bytes, files.form(), wanted).map_err(|found| fault_in(file, found))
}

/// The fault of a file as a whole.
pub(crate) fn source_fault(fault: SourceFault) -> RuleFault
    ensures { result ≡ fault_of_source fault }
{
    match fault {
        SourceFault::TooLong => RuleFault {
            kind: FaultKind::FileTooLong,
            line: 0,
        },
        SourceFault::NulByte(line) => RuleFault {
            kind: FaultKind::NulByte,
            line: line as usize,
        },
    }
}

/// The wanted rules of all lines.
fn text_rules(
    alloc: Global,
    form: Form,
    source: Source<'_>,
    wanted: Wanted<'_>,
) -> Result<Vec<KeptRule>, RuleFault>
    ensures { Gives FaultTells (λ rules. map kept_view rules.items) result
        (only_wanted wanted.entry (rules_in form (lines_of (text_of 1 source.entry.bytes.now)))) }
{
    let mut text = Text::of(source);
    let mut joined = Vec::new(alloc);
    let mut rules = Vec::new(alloc);
    while let Some(line) = next_filled_line(&mut text, &mut joined)? {
        if !is_passed_over(form, line.bytes, wanted) {
            take_rule(alloc, form, line, wanted, &mut rules)?;
        }
    }
    Ok(rules)
}

/// Skips blank lines, which have no rule, and returns the next line.
pub(crate) fn next_filled_line<'b, 'a: 'b>(
    text: &mut Text<'a>,
    joined: &'b mut Vec<u8>,
) -> Result<Option<Line<'b>>, AllocError>
    ensures rules { IfOk result (λ l. MatchOption l ((form : Form) → line_results form (lines_of (text_left text.old)) ≡ [])
        (λ line. (form : Form) → line_results form (lines_of (text_left text.old))
        ≡ cons_option (result_transpose (at_line line.number (line_rule_of form line.number line.bytes.now)))
        (line_results form (lines_of (text_left text.new))))) }
    ensures shorter { IfOk result (λ l. IfSome l (λ _. length text.new.rest.now < length text.old.rest.now)) }
{
    text.skip_blanks();
    text.next_line(joined)
}

/// Appends `rule` if it is wanted.
fn keep(
    rules: &mut Vec<KeptRule>,
    rule: KeptRule,
    wanted: Wanted<'_>,
) -> Result<(), AllocFailed<KeptRule>>
    ensures { OnOk result (map kept_view rules.new.items
        ≡ map kept_view rules.old.items ++ filter (wants wanted.entry) (kept_view rule ∷ [])) }
{
    if !is_wanted(&rule, wanted) {
        return Ok(());
    }
    rules.push(rule)
}

pub(crate) fn is_blank_line(bytes: &[u8]) -> bool
    ensures { result ≡ list_all is_blank bytes.now }
{
    bytes.iter().all(|byte| is_text_blank(*byte))
}

/// Whether a line certainly has no fault, and no rule that is wanted. Does not allocate.
fn is_passed_over(form: Form, line: &[u8], wanted: Wanted<'_>) -> bool
    ensures { IsTrue result → (number : ℕ) (rules : List RuleText) →
        with_rule wanted.entry rules (at_line number (line_rule_of form number line.now)) ≡ Ok rules }
{
    is_blank_line(line) || is_unwanted(form, line, wanted)
}

/// Appends the rule of a line, if it has one and it is wanted.
// A function of its own, so that the place for a rule, which is large, is not prepared for each line.
#[inline(never)]
fn take_rule(
    alloc: Global,
    form: Form,
    line: Line<'_>,
    wanted: Wanted<'_>,
    rules: &mut Vec<KeptRule>,
) -> Result<(), RuleFault>
    ensures { let meant = at_line line.entry.number (line_rule_of form line.entry.number line.entry.bytes.now) in
        Gives FaultTells (λ _. map kept_view rules.new.items) result (with_rule wanted.entry (map kept_view rules.old.items) meant) }
{
    if let Some(rule) = numbered_rule(alloc, form, line)? {
        keep(rules, rule, wanted)?;
    }
    Ok(())
}

/// The rule of a line, if it has one.
pub(crate) fn numbered_rule(
    alloc: Global,
    form: Form,
    line: Line<'_>,
) -> Result<Option<KeptRule>, RuleFault>
    ensures { Gives FaultTells (option_map kept_view) result
        (at_line line.entry.number (line_rule_of form line.entry.number line.entry.bytes.now)) }
{
    match read_line(alloc, form, line) {
        Ok(rule) => Ok(rule),
        Err(kind) => Err(fault_at(line.number as usize, kind)),
    }
}

/// Like `numbered_rule`, without the line of a fault.
fn read_line(alloc: Global, form: Form, line: Line<'_>) -> Result<Option<KeptRule>, FaultKind>
    ensures { Gives KindTells (option_map kept_view) result (line_rule_of form line.entry.number line.entry.bytes.now) }
{
    let words = Words::of(line.bytes)?;
    line_rule(alloc, form, line.number as usize, words)
}

/// A fault at `line`; a failed allocation has line 0.
fn fault_at(line: usize, kind: FaultKind) -> RuleFault
    ensures { result ≡ fault_at_line line kind }
{
    match kind {
        FaultKind::Memory => RuleFault { kind, line: 0 },
        _ => RuleFault { kind, line },
    }
}
