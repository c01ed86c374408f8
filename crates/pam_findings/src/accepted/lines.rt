//! The lines of an accept file.

ghost use Rattle.std.specs.Prelude.{map};
ghost use Rattle.pam_findings.specs.accepted.Error.{Gives};
ghost use Rattle.pam_findings.specs.accepted.Lines.{accepted_lines, lines_from, physical_lines};
ghost use Rattle.pam_findings.specs.accepted.inner.Lines.{AddsLine};
ghost use Rattle.pam_findings.specs.accepted.Views.{line_view};

use crate::accepted::error::AcceptError;
use crate::accepted::keys::{is_finding, key_of};
use crate::accepted::words::words;
use pam_text::Source;
use std::alloc::Global;

/// A line that accepts a finding.
#[derive(Drop)]
pub struct AcceptLine {
    /// From 1.
    pub number: u32,
    /// The number and the place of the finding, with one space between words.
    pub key: Vec<u8>,
}

/// Adds a line, if it has words.
fn add_line(
    alloc: Global,
    number: u32,
    line: &[u8],
    lines: &mut Vec<AcceptLine>,
) -> Result<(), AcceptError>
    ensures { AddsLine number line.now (map line_view lines.old.items) (map line_view lines.new.items) result }
{
    let words = words(alloc, line)?;
    if words.is_empty() {
        return Ok(());
    }
    if !is_finding(&words) {
        return Err(AcceptError::BadAccept(number));
    }
    let key = key_of(alloc, &words)?;
    lines.push(AcceptLine { number, key })?;
    Ok(())
}

/// The lines that have words, or the first fault.
fn lines_in(alloc: Global, source: Source<'_>) -> Result<Vec<AcceptLine>, AcceptError>
    ensures { Gives (λ lines. map line_view lines.items) result (lines_from 1 (physical_lines source.entry.bytes.now)) }
{
    let mut lines = Vec::new(alloc);
    let mut number = 0;
    for line in source.bytes.split(|byte| *byte == b'\n') {
        number += 1;
        add_line(alloc, number, line, &mut lines)?;
    }
    Ok(lines)
}

/// The lines of an accept file that have words, or its first fault.
pub(crate) fn read_lines(alloc: Global, bytes: &[u8]) -> Result<Vec<AcceptLine>, AcceptError>
    ensures { Gives (λ lines. map line_view lines.items) result (accepted_lines bytes.now) }
{
    lines_in(alloc, Source::of(bytes)?)
}
