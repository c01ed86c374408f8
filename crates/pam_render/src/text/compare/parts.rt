//! The parts of a line of `compare`.

ghost use Rattle.std.specs.Prelude.{Some, option_map};
ghost use Rattle.std.specs.List.{flat_map};
ghost use Rattle.pam_codes.specs.Out.{Writes};
ghost use Rattle.pam_render.specs.text.Compare.{fault_text, head_text, only_count, place_text, rule_place, side_text};
ghost use Rattle.pam_render.specs.parts.ComparedView.{head_view};
ghost use Rattle.pam_render.specs.text.inner.CompareParts.{part_text};
ghost use Rattle.pam_report.specs.ReplyViews.{side_files};

use super::asked::put_all_asked;
use super::modules::{put_arguments, put_module, put_module_changes};
use crate::parts::{Head, file_of, file_of_rule, line_of_rule};
use crate::sentences::put_name;
use crate::text::check::put_counted;
use pam_changes::{AskedModule, StackPair};
use pam_codes::{Device, Out, Piece};
use pam_conf::{ConfError, Files, Stack};
use pam_findings::host::Problem;
use pam_report::kind_name;
use std::io::Write;

/// A part of a line.
#[derive(Clone, Copy)]
pub(super) enum Part<'x> {
    Text(&'x [u8]),
    Number(usize),
    /// A number and what is counted, as `1 stack` or `2 stacks`.
    Counted {
        count: usize,
        name: &'x str,
    },
    /// `; N services WHERE`, but nothing for none.
    Only {
        count: usize,
        place: &'x [u8],
    },
    /// A name, in which no byte can end or change the line.
    Name(&'x [u8]),
    Head(Head<'x>),
    /// A module of a stack, by its number: its path, and which of those with this path it is, unless it is the first, with a text after
    /// that.
    Module {
        place: &'x [u8],
        stack: &'x Stack,
        number: usize,
    },
    /// ` FILE:LINE` of the rule of a module, by its number, if there is a file.
    Place {
        files: Option<&'x Files>,
        stack: &'x Stack,
        number: usize,
    },
    /// The arguments of a module, by its number.
    Arguments {
        stack: &'x Stack,
        number: usize,
    },
    /// Modules that are asked, and their answers.
    Asked {
        pair: &'x StackPair,
        asked: &'x [AskedModule],
    },
    /// What changes in the modules.
    Changes(&'x StackPair),
    /// What a configuration says of a service: its first fault, or that it accepts it.
    Side {
        files: Option<&'x Files>,
        fault: &'x Option<ConfError>,
    },
}

/// Writes `; N services WHERE`, but nothing for none.
fn put_only_count<W: Write>(count: usize, place: &[u8], out: &mut Out<W>) -> Result<(), Device>
    ensures { Writes W.contents out.old out.new result (only_count count place.now) }
{
    if count == 0 {
        return Ok(());
    }
    out.put(b"; ")?;
    put_counted(count, "service", out)?;
    out.put(place)
}

/// Writes `SERVICE KIND`.
fn put_head<W: Write>(head: Head<'_>, out: &mut Out<W>) -> Result<(), Device>
    ensures { Writes W.contents out.old out.new result (head_text (head_view head.entry)) }
{
    put_name(head.service, out)?;
    out.put(b" ")?;
    out.put(kind_name(head.kind).as_bytes())
}

/// Writes ` FILE:LINE`.
fn put_file<W: Write>(file: &[u8], line: usize, out: &mut Out<W>) -> Result<(), Device>
    ensures { Writes W.contents out.old out.new result (place_text (Some file.now) line) }
{
    out.put(b" ")?;
    put_name(file, out)?;
    out.put_line(&[Piece::Bytes(b":"), Piece::Number(line as u64)])
}

/// Writes ` FILE:LINE`, if there is a file.
fn put_place<W: Write>(file: Option<&[u8]>, line: usize, out: &mut Out<W>) -> Result<(), Device>
    ensures { Writes W.contents out.old out.new result (place_text (option_map (λ f. f.now) file.entry) line) }
{
    match file {
        Some(file) => put_file(file, line, out),
        None => Ok(()),
    }
}

/// Writes ` FILE:LINE` of the rule of a module, if there is a file.
fn put_rule_place<W: Write>(
    files: Option<&Files>,
    stack: &Stack,
    number: usize,
    out: &mut Out<W>,
) -> Result<(), Device>
    ensures { Writes W.contents out.old out.new result (rule_place (side_files files.entry) stack.now number) }
{
    put_place(
        file_of_rule(files, stack, number),
        line_of_rule(stack, number),
        out,
    )
}

/// Writes `NUMBER NAME FILE:LINE`.
#[tactic(auto, unfolding(crate::specs::text::Compare::fault_text))]
fn put_fault<W: Write>(
    files: Option<&Files>,
    fault: &ConfError,
    out: &mut Out<W>,
) -> Result<(), Device>
    ensures { Writes W.contents out.old out.new result (fault_text (side_files files.entry) fault.now) }
{
    let problem = Problem::Fault(fault.kind);
    out.put_line(&[
        Piece::Bytes(problem.number().as_bytes()),
        Piece::Bytes(b" "),
        Piece::Bytes(problem.name().as_bytes()),
    ])?;
    put_place(file_of(files, fault), fault.line, out)
}

/// Writes what a configuration says of a service.
fn put_side<W: Write>(
    files: Option<&Files>,
    fault: &Option<ConfError>,
    out: &mut Out<W>,
) -> Result<(), Device>
    ensures { Writes W.contents out.old out.new result (side_text (side_files files.entry) fault.now) }
{
    match fault {
        Some(fault) => put_fault(files, fault, out),
        None => out.put(b"accepted"),
    }
}

fn put_part<W: Write>(part: &Part<'_>, out: &mut Out<W>) -> Result<(), Device>
    ensures { Writes W.contents out.old out.new result (part_text part.now) }
{
    match part {
        Part::Text(text) => out.put(text),
        Part::Number(number) => out.put_number(*number as u64),
        Part::Counted { count, name } => put_counted(*count, name, out),
        Part::Only { count, place } => put_only_count(*count, place, out),
        Part::Name(name) => put_name(name, out),
        Part::Head(head) => put_head(*head, out),
        Part::Module {
            place,
            stack,
            number,
        } => put_module(place, stack, *number, out),
        Part::Place {
            files,
            stack,
            number,
        } => put_rule_place(*files, stack, *number, out),
        Part::Arguments { stack, number } => put_arguments(stack, *number, out),
        Part::Asked { pair, asked } => put_all_asked(pair, asked, out),
        Part::Changes(pair) => put_module_changes(pair, out),
        Part::Side { files, fault } => put_side(*files, fault, out),
    }
}

/// Writes parts in turn.
pub(super) fn put_parts<W: Write>(parts: &[Part<'_>], out: &mut Out<W>) -> Result<(), Device>
    ensures { Writes W.contents out.old out.new result (flat_map part_text parts.now) }
{
    for part in parts {
        put_part(part, out)?;
    }
    Ok(())
}
