//! All faults of a table: reading it gives the first alone.

ghost use Rattle.std.specs.Prelude.{◌≡◌, ◌∷◌, ◌++◌, [], IfOk, OnOk};
ghost use Rattle.pam_text.specs.Text.{text_lines, text_of};
ghost use Rattle.pam_tables.specs.times.Faults.{line_fault, line_faults, time_faults};
ghost use Rattle.pam_tables.specs.times.Reading.{rule_of};

use crate::times::error::{TimeError, TimeFault};
use crate::times::one_pass::TokenEnds;
use crate::times::reading::check_line;
use pam_text::{Line, Source, Text};
use std::alloc::{AllocError, Global};

/// Appends the fault of a line, if it has one.
fn push_fault(
    faults: &mut Vec<TimeError>,
    line: u32,
    checked: Result<bool, TimeFault>,
) -> Result<(), AllocError>
    ensures { OnOk result (faults.new.items ≡ faults.old.items ++ line_fault line checked) }
{
    match checked {
        Ok(_) => Ok(()),
        Err(fault) => {
            faults.push(TimeError { fault, line })?;
            Ok(())
        }
    }
}

/// Appends the fault of a line, if it has one.
fn push_line(
    faults: &mut Vec<TimeError>,
    line: Line<'_>,
    ends: &TokenEnds,
) -> Result<(), AllocError>
    ensures { OnOk result (faults.new.items ≡ faults.old.items ++ line_fault line.entry.number (rule_of line.entry.number line.entry.bytes.now)) }
{
    push_fault(faults, line.number, check_line(line.bytes, ends))
}

/// Returns one fault.
fn one(alloc: Global, error: TimeError) -> Result<Vec<TimeError>, AllocError>
    ensures { IfOk result (λ faults. faults.items ≡ error ∷ []) }
{
    let mut faults = Vec::new(alloc);
    faults.push(error)?;
    Ok(faults)
}

fn faults_of_lines(alloc: Global, source: Source<'_>) -> Result<Vec<TimeError>, AllocError>
    ensures { IfOk result (λ faults. faults.items ≡ line_faults (text_lines (text_of 1 source.entry.bytes.now))) }
{
    let mut text = Text::of(source);
    let mut joined = Vec::new(alloc);
    let ends = TokenEnds::new();
    let mut faults = Vec::new(alloc);
    while let Some(line) = text.next_line(&mut joined)? {
        push_line(&mut faults, line, &ends)?;
    }
    Ok(faults)
}

/// Returns all faults of a time table: the one of the table as a whole, or else the first of each line, from the top.
#[tactic(auto, unfolding(crate::specs::times::Faults::time_faults))]
pub fn time_faults(alloc: Global, bytes: &[u8]) -> Result<Vec<TimeError>, AllocError>
    ensures { IfOk result (λ faults. faults.items ≡ time_faults bytes.now) }
{
    match Source::of(bytes) {
        Ok(source) => faults_of_lines(alloc, source),
        Err(fault) => one(alloc, TimeError::from(fault)),
    }
}
