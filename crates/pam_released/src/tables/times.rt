//! The findings of a time table.

ghost use Rattle.std.specs.Prelude.{◌≡◌, ◌++◌, IfOk, OnOk};
ghost use Rattle.pam_text.specs.Text.{text_lines, text_of};
ghost use Rattle.pam_tables.specs.times.Reading.{cut_fields};
ghost use Rattle.pam_released.specs.tables.Findings.{found_at};
ghost use Rattle.pam_released.specs.tables.Times.{has_past_midnight, have_long, have_odd_byte, last_number};
ghost use Rattle.pam_released.specs.tables.Times.{time_findings, time_tests};
ghost use Rattle.pam_released.specs.tables.Times.{unfinished_line};

use crate::tables::difference::TableDifference;
use crate::tables::finding::{TableFinding, push_those};
use crate::tables::last_line::ends_in_rule;
use crate::tables::rows;
use pam_tables::times::parts::cut_fields;
use pam_text::{Line, Source, Text};
use std::alloc::{AllocError, Global};

/// The lines of a time table that Linux-PAM 1.5.2 to 1.7.0 reads otherwise than time.conf(5) says, T1 to T4, in the order of
/// lines and then of numbers, each once. Takes time linear in the table.
#[tactic(auto, unfolding(crate::specs::tables::Times::time_findings))]
pub fn time_findings(alloc: Global, source: Source<'_>) -> Result<Vec<TableFinding>, AllocError>
    ensures { IfOk result (λ found. found.items ≡ time_findings source.entry.bytes.now) }
{
    let unfinished = unfinished_line(alloc, source)?;
    let mut text = Text::of(source);
    let mut joined = Vec::new(alloc);
    let mut found = Vec::new(alloc);
    while let Some(line) = text.next_line(&mut joined)? {
        push_differences(unfinished, line, &mut found)?;
    }
    Ok(found)
}

/// The number of the line with a rule that no line feed ends; 0 where there is none.
#[tactic(auto, unfolding(crate::specs::tables::Times::unfinished_line))]
fn unfinished_line(alloc: Global, source: Source<'_>) -> Result<u32, AllocError>
    ensures { IfOk result (λ number. number ≡ unfinished_line source.entry.bytes.now) }
{
    if ends_in_rule(source.bytes) {
        last_number(alloc, source)
    } else {
        Ok(0)
    }
}

/// The number of the last line; 0 where there is none.
fn last_number(alloc: Global, source: Source<'_>) -> Result<u32, AllocError>
    ensures { IfOk result (λ number. number ≡ last_number 0 (text_lines (text_of 1 source.entry.bytes.now))) }
{
    let mut text = Text::of(source);
    let mut joined = Vec::new(alloc);
    let mut number = 0;
    while let Some(line) = text.next_line(&mut joined)? {
        number = line.number;
    }
    Ok(number)
}

/// Appends the differences at a line.
fn push_differences(
    unfinished: u32,
    line: Line<'_>,
    found: &mut Vec<TableFinding>,
) -> Result<(), AllocError>
    ensures { OnOk result (found.new.items
        ≡ found.old.items ++ found_at line.entry.number (time_tests unfinished line.entry.number line.entry.bytes.now)) }
{
    let (odd, long, late) = match cut_fields(line.bytes) {
        Some(fields) => (
            rows::have_odd_byte(fields),
            rows::have_long(fields),
            rows::has_past_midnight(fields.times),
        ),
        None => (false, false, false),
    };
    let tests = [
        (line.number == unfinished, TableDifference::TimeNoLineFeed),
        (odd, TableDifference::OddBytes),
        (long, TableDifference::LongField),
        (late, TableDifference::FinishMinute),
    ];
    push_those(found, line.number, &tests)
}
