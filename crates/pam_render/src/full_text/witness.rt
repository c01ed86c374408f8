//! The way in of S2 as a table, a line for each module that is asked.

ghost use Rattle.std.specs.Prelude.{◌≡◌, ◌≤◌, map, max};
ghost use Rattle.std.specs.List.{flat_map};
ghost use Rattle.pam_codes.specs.Out.{Writes};
ghost use Rattle.pam_render.specs.full_text.Witness as spec;
ghost use Rattle.pam_render.specs.full_text.inner.Witness.{AreWidths, row_view, row_within};
ghost use Rattle.pam_render.specs.parts.CheckNames.{names_view};

use crate::full_text::cells::width;
use crate::full_text::excerpt::{Part, digits, put_parts};
use crate::full_text::window::{MAX_BYTES, MAX_COLUMNS, first_bytes};
use crate::parts::{Names, path_of};
use pam_codes::{Code, Device, Out};
use pam_conf::Stack;
use pam_drawing::name_of;
use pam_facts::known::name_of_path;
use pam_findings::host::{Answered, Finding, Met, Problem, WayIn};
use std::io::Write;

/// A module that is asked.
#[derive(Clone, Copy)]
struct Row<'x> {
    number: usize,
    /// The path of the file with its rule, and the line.
    path: &'x [u8],
    line: usize,
    name: &'x [u8],
    code: Code,
}

/// The columns that the cells of rows need.
#[derive(Clone, Copy)]
struct Widths {
    number: usize,
    place: usize,
    name: usize,
}

/// The columns in which a name is shown.
fn shown_width(name: &[u8]) -> usize
    ensures value { result ≡ spec.shown_width name.now }
    ensures bound { result ≤ 72 }
{
    width(first_bytes(MAX_BYTES, name)).min(MAX_COLUMNS)
}

/// The columns of `FILE:LINE`.
fn place_width(row: &Row<'_>) -> usize
    ensures { result ≡ spec.place_width (row_view row.now) }
{
    shown_width(row.path) + (1 + digits(row.line as u64))
}

/// The columns that a row and others need.
fn widened(widths: Widths, row: &Row<'_>) -> Widths
    ensures number { result.number ≡ max widths.number (spec.number_width (row_view row.now)) }
    ensures place { result.place ≡ max widths.place (spec.place_width (row_view row.now)) }
    ensures name { result.name ≡ max widths.name (spec.name_width (row_view row.now)) }
{
    Widths {
        number: widths.number.max(digits(row.number as u64)),
        place: widths.place.max(place_width(row)),
        name: widths.name.max(shown_width(row.name)),
    }
}

/// A module that is asked, with the place of its rule.
fn row_of<'x>(names: &Names<'x>, stack: &'x Stack, answer: &Answered) -> Row<'x>
    ensures { row_view result ≡ spec.row_of (names_view names.now).paths stack.now answer.now }
{
    match stack.module(answer.number) {
        Some(module) => Row {
            number: answer.number,
            path: path_of(names, Some(module.file)),
            line: module.line,
            name: name_of_path(&module.path),
            code: answer.code,
        },
        None => Row {
            number: answer.number,
            path: b"",
            line: 0,
            name: b"",
            code: answer.code,
        },
    }
}

/// The columns that the rows of a way in need.
fn widths_of<'x>(names: &'x Names<'x>, stack: &'x Stack, answers: &[Answered]) -> Widths
    ensures { AreWidths (map (spec.row_of (names_view names.now).paths stack.now) answers.now) result }
{
    let mut widths = Widths {
        number: 0,
        place: 0,
        name: 0,
    };
    for answer in answers {
        widths = widened(widths, &row_of(names, stack, answer));
    }
    widths
}

/// Writes a row, each of its cells up to the end of its column.
#[tactic(auto, unfolding(crate::specs::full_text::Witness::row_line))]
fn put_row<W: Write>(widths: Widths, row: &Row<'_>, out: &mut Out<W>) -> Result<(), Device>
    ensures { Writes W.contents out.old out.new result (row_within widths (row_view row.now)) }
{
    put_parts(
        &[
            Part::Text(b"  "),
            Part::Number(row.number as u64),
            Part::Repeated(
                widths.number.saturating_sub(digits(row.number as u64)),
                b' ',
            ),
            Part::Text(b"  "),
            Part::Shown(MAX_COLUMNS, first_bytes(MAX_BYTES, row.path)),
            Part::Text(b":"),
            Part::Number(row.line as u64),
            Part::Repeated(widths.place.saturating_sub(place_width(row)), b' '),
            Part::Text(b"  "),
            Part::Shown(MAX_COLUMNS, first_bytes(MAX_BYTES, row.name)),
            Part::Repeated(widths.name.saturating_sub(shown_width(row.name)), b' '),
            Part::Text(b"  "),
            Part::Text(name_of(row.code)),
            Part::Text(b"\n"),
        ],
        out,
    )
}

/// Writes the rows of a way in.
fn put_rows<'x, W: Write>(
    names: &'x Names<'x>,
    stack: &'x Stack,
    answers: &[Answered],
    widths: Widths,
    out: &mut Out<W>,
) -> Result<(), Device>
    ensures { Writes W.contents out.old out.new result
        (flat_map (λ answer. row_within widths (spec.row_of (names_view names.now).paths stack.now answer)) answers.now) }
{
    for answer in answers {
        put_row(widths, &row_of(names, stack, answer), out)?;
    }
    Ok(())
}

/// Writes the table of a way in, and an empty line.
fn put_table<'x, W: Write>(
    names: &'x Names<'x>,
    way: &'x WayIn,
    out: &mut Out<W>,
) -> Result<(), Device>
    ensures { Writes W.contents out.old out.new result (spec.table_of (spec.rows_of (names_view names.now).paths way.now)) }
{
    let answers = way.answers.as_slice();
    let widths = widths_of(names, &way.stack, answers);
    put_rows(names, &way.stack, answers, widths, out)?;
    out.put(b"\n")
}

fn put_way<'x, W: Write>(
    names: &'x Names<'x>,
    way: &'x Option<WayIn>,
    out: &mut Out<W>,
) -> Result<(), Device>
    ensures { Writes W.contents out.old out.new result (spec.way_table (names_view names.now).paths way.now) }
{
    match way {
        Some(way) => put_table(names, way, out),
        None => Ok(()),
    }
}

/// Writes the table of the first service that meets a problem.
fn put_first<'x, W: Write>(
    names: &'x Names<'x>,
    met: Option<Met>,
    out: &mut Out<W>,
) -> Result<(), Device>
    ensures { Writes W.contents out.old out.new result (spec.first_table (names_view names.now) met) }
{
    let Some(met) = met else {
        return Ok(());
    };
    match names.ways_in.get(met.first) {
        Some(way) => put_way(names, way, out),
        None => Ok(()),
    }
}

/// Writes the modules of the way in of S2; nothing for another problem.
pub(super) fn put_witness<W: Write>(
    names: &Names<'_>,
    finding: Finding,
    out: &mut Out<W>,
) -> Result<(), Device>
    ensures { Writes W.contents out.old out.new result (spec.witness (names_view names.now) finding.met finding.problem) }
{
    match finding.problem {
        Problem::LetsAnybodyIn { .. } => put_first(names, finding.met, out),
        _ => Ok(()),
    }
}
