//! The text of `check`: a line for each finding, and a last line with their numbers.

ghost use Rattle.pam_codes.specs.Out.{Writes};
ghost use Rattle.pam_render.specs.text.Check.{checked_line, counted, last_line, levels_text, unused_heading, unused_line};
ghost use Rattle.pam_report.specs.Unused.{unused_view};

mod finding;
mod heading;
mod met;
mod table;

use crate::parts::{CheckLine, CheckLines, Counts, stacks_of};
use crate::sentences::{put_name, put_unused_said};
use crate::text::form::AsText;
use finding::put_finding;
use heading::put_heading;
use pam_codes::{Device, Out, Piece};
use pam_report::{UnusedLine, unused_row};
use std::io::Write;
use table::put_table_finding;

/// Writes a number and what is counted, as `1 error` or `2 errors`.
#[tactic(auto, unfolding(crate::specs::text::Check::counted))]
pub(crate) fn put_counted<W: Write>(
    count: usize,
    name: &str,
    out: &mut Out<W>,
) -> Result<(), Device>
    ensures { Writes W.contents out.old out.new result (counted count name.now) }
{
    out.put_line(&[
        Piece::Number(count as u64),
        Piece::Bytes(b" "),
        Piece::Bytes(name.as_bytes()),
    ])?;
    if count == 1 {
        return Ok(());
    }
    out.put(b"s")
}

/// Writes `ERRORS, WARNINGS, NOTES`.
fn put_levels<W: Write>(counts: Counts, out: &mut Out<W>) -> Result<(), Device>
    ensures { Writes W.contents out.old out.new result (levels_text counts) }
{
    put_counted(counts.errors, "error", out)?;
    out.put(b", ")?;
    put_counted(counts.warnings, "warning", out)?;
    out.put(b", ")?;
    put_counted(counts.notes, "note", out)
}

/// Writes how many were checked of what has this name, the number of stacks, and those of findings.
#[tactic(auto, unfolding(crate::specs::text::Check::checked_line))]
pub(crate) fn put_checked<W: Write>(
    count: usize,
    name: &str,
    stacks: usize,
    counts: Counts,
    out: &mut Out<W>,
) -> Result<(), Device>
    ensures { Writes W.contents out.old out.new result (checked_line count name.now stacks counts) }
{
    out.put(b"checked ")?;
    put_counted(count, name, out)?;
    out.put(b", ")?;
    put_counted(stacks, "stack", out)?;
    out.put(b": ")?;
    put_levels(counts, out)?;
    out.put(b"\n")
}

/// Writes the last line.
fn put_last_line<W: Write>(services: usize, counts: Counts, out: &mut Out<W>) -> Result<(), Device>
    ensures { Writes W.contents out.old out.new result (last_line services counts) }
{
    put_checked(services, "service", stacks_of(services), counts, out)
}

/// Writes `:LINE: LEVEL: NUMBER NAME: `.
fn put_unused_heading<W: Write>(line: &UnusedLine, out: &mut Out<W>) -> Result<(), Device>
    ensures { Writes W.contents out.old out.new result (unused_heading (unused_view line.now)) }
{
    out.put_line(&[
        Piece::Bytes(b":"),
        Piece::Number(u64::from(line.number())),
        Piece::Bytes(b": "),
    ])?;
    put_heading(line.level(), unused_row(), out)
}

/// Writes S8 of a line of this file.
#[tactic(auto, unfolding(crate::specs::text::Check::unused_line))]
fn put_unused<W: Write>(file: &[u8], line: &UnusedLine, out: &mut Out<W>) -> Result<(), Device>
    ensures { Writes W.contents out.old out.new result (unused_line file.now (unused_view line.now)) }
{
    put_name(file, out)?;
    put_unused_heading(line, out)?;
    put_unused_said(line, out)?;
    out.put(b"\n")
}

impl CheckLines for AsText {
    ghost use Rattle.pam_render.specs.text.Check.{line_text};

    ghost line = { line_text };

    fn put_line<W: Write>(&self, content: CheckLine<'_>, out: &mut Out<W>) -> Result<(), Device> {
        match content {
            CheckLine::Found(found) => put_finding(found, out),
            CheckLine::InTable { paths, finding } => put_table_finding(paths, finding, out),
            CheckLine::Unused { file, line } => put_unused(file, line, out),
            CheckLine::Last { services, counts } => put_last_line(services, counts, out),
        }
    }
}
