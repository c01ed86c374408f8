//! The findings of a file.

ghost use Rattle.std.specs.Prelude.{◌≡◌, [], ◌++◌, ◌≤◌, IfOk, OnOk, length, map};
ghost use Rattle.std.specs.List.{prefix_len};
ghost use Rattle.pam_conf.specs.Words.{Between};
ghost use Rattle.pam_text.specs.Text.{text_lines, text_of};
ghost use Rattle.pam_released.specs.Findings.{comes_before, differences_at, findings_of, line_findings, located, merged};
ghost use Rattle.pam_released.specs.Findings.{rule_findings, used_after};
ghost use Rattle.pam_released.specs.Laws.{SameRules};
ghost use Rattle.pam_released.specs.Lines.{physical_lines};
ghost use Rattle.pam_released.specs.Reader.{state_of};

use crate::difference::Difference;
use crate::finding::{Finding, comes_before, push_those};
use crate::lines::{goes_on, is_blank_line, split_line};
use crate::reader::Reader;
use crate::rows::{
    drops_blank, ends_the_file, goes_on_over_blank, has_backslash_blank, has_backslash_comment,
    has_return, is_cut,
};
use crate::rules::push_rule_differences;
use pam_conf::Form;
use pam_text::{Source, Text};
use std::alloc::{AllocError, Global};

/// The places at which Linux-PAM 1.5.2 or 1.7.0 reads a configuration file otherwise than the manual pages say, in the order
/// of lines and then of numbers, each once. Where there is none and the file has no fault, both releases read the same rules.
/// Takes time linear in the file.
#[tactic(auto, unfolding(crate::specs::Findings::findings_of))]
pub fn findings(alloc: Global, source: Source<'_>, form: Form) -> Result<Vec<Finding>, AllocError>
    ensures found { IfOk result (λ found. found.items ≡ findings_of form source.entry.bytes.now) }
    ensures silence { IfOk result (λ found. found.items ≡ [] → SameRules form source.entry.bytes.now) }
{
    let at_lines = line_findings(alloc, source)?;
    let at_rules = rule_findings(alloc, source, form)?;
    let found = merged(alloc, &at_lines, &at_rules)?;
    Ok(found)
}

/// The number of findings, from the front on, that come before `second`.
fn count_before(second: Finding, findings: &[Finding]) -> usize
    ensures value { result ≡ prefix_len (comes_before second) findings.now }
    ensures bound { result ≤ length findings.now }
{
    findings
        .iter()
        .take_while(|first| comes_before(second, **first))
        .count()
}

/// Two lists of findings, each in order, as one.
fn merged(
    alloc: Global,
    findings: &[Finding],
    others: &[Finding],
) -> Result<Vec<Finding>, AllocError>
    ensures { IfOk result (λ all. all.items ≡ merged findings.now others.now) }
{
    let mut all = Vec::new(alloc);
    let mut rest = others;
    for finding in findings {
        let (before, after) = rest.split_at(count_before(*finding, rest));
        all.extend_from_slice(before)?;
        all.push(*finding)?;
        rest = after;
    }
    all.extend_from_slice(rest)?;
    Ok(all)
}

/// The findings of rules: L6 and L8.
fn rule_findings(alloc: Global, source: Source<'_>, form: Form) -> Result<Vec<Finding>, AllocError>
    ensures { IfOk result (λ found. found.items ≡ rule_findings form (text_lines (text_of 1 source.entry.bytes.now))) }
{
    let mut text = Text::of(source);
    let mut joined = Vec::new(alloc);
    let mut found = Vec::new(alloc);
    while let Some(line) = text.next_line(&mut joined)? {
        push_rule_differences(alloc, form, line, &mut found)?;
    }
    Ok(found)
}

/// The findings of physical lines: all but L6 and L8.
fn line_findings(alloc: Global, source: Source<'_>) -> Result<Vec<Finding>, AllocError>
    ensures { IfOk result (λ found. found.items ≡ line_findings 1 0 Between (physical_lines source.entry.bytes.now)) }
{
    let mut found = Vec::new(alloc);
    let mut rest = source.bytes;
    let mut number: u32 = 1;
    let mut used: usize = 0;
    let mut reader = Reader::Between;
    while let Some((line, after)) = split_line(rest) {
        push_differences(number, used, reader, line, after, &mut found)?;
        number += 1;
        used = used_after(used, line);
        reader = reader.after_line(line);
        rest = after;
    }
    Ok(found)
}

/// Appends the differences at `line`, after which `rest` comes.
#[tactic(auto, unfolding(crate::specs::Findings::differences_at))]
fn push_differences(
    number: u32,
    used: usize,
    reader: Reader,
    line: &[u8],
    rest: &[u8],
    found: &mut Vec<Finding>,
) -> Result<(), AllocError>
    ensures { OnOk result (found.new.items ≡ found.old.items
        ++ map (located number) (differences_at used (state_of reader) line.now (physical_lines rest.now))) }
{
    let tests = [
        (has_return(line), Difference::CarriageReturn),
        (
            goes_on_over_blank(line, rest),
            Difference::ContinuedOverBlank,
        ),
        (has_backslash_blank(line), Difference::BackslashBlank),
        (has_backslash_comment(line), Difference::BackslashComment),
        (ends_the_file(line, rest), Difference::EndsInContinuation),
        (is_cut(used, line), Difference::LongLine),
        (drops_blank(reader, line), Difference::DroppedBlank),
    ];
    push_those(found, number, &tests)
}

/// The bytes that 1.5.2 has read of a logical line when it comes to the line after `line`.
fn used_after(used: usize, line: &[u8]) -> usize
    requires { used ≤ 4194304 }
    ensures { result ≡ used_after used line.now }
{
    if is_blank_line(line) {
        used
    } else if goes_on(line) {
        used + line.len() + 1
    } else {
        0
    }
}
