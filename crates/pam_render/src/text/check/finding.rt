//! A line for a finding.

ghost use Rattle.std.specs.Prelude.{◌≡◌};
ghost use Rattle.std.specs.List.{flat_map};
ghost use Rattle.pam_codes.specs.Out.{Writes};
ghost use Rattle.pam_findings.specs.host.Levels.{level_of};
ghost use Rattle.pam_findings.specs.host.Rows.{row_of};
ghost use Rattle.pam_render.specs.text.Check.{answer_text, answers_text, finding_line, first_way_in, heading_text, is_its_own, kind_of_service};
ghost use Rattle.pam_render.specs.text.Check.{met_of_cause, met_unless, met_unless_named, next_answer, number_text, of_service, place_text};
ghost use Rattle.pam_render.specs.text.Check.{rest_text, sentence, subject_text};
ghost use Rattle.pam_render.specs.text.Check.{way_and_met, way_in_at, way_text, where_text};
ghost use Rattle.pam_render.specs.parts.CheckNames.{names_view, word_of};

use super::heading::put_heading;
use super::met::{put_met, put_met_if_any};
use crate::parts::{FoundProblem, Names, path_of, spot_of, text_at};
use crate::sentences::{put_name, put_said};
use pam_codes::{Device, Out, Piece};
use pam_conf::{Form, Kind, Stack};
use pam_drawing::name_of;
use pam_facts::known::name_of_path;
use pam_findings::host::{Answered, Finding, Met, Place, Problem, WayIn};
use pam_findings::misspelled::{Misspelled, Spot};
use pam_report::{kind_name, path_at, stack_of};
use std::io::Write;

/// Writes `:LINE`, but nothing for a file as a whole.
pub(super) fn put_line_number<W: Write>(line: usize, out: &mut Out<W>) -> Result<(), Device>
    ensures { Writes W.contents out.old out.new result (number_text line) }
{
    if line == 0 {
        return Ok(());
    }
    out.put_line(&[Piece::Bytes(b":"), Piece::Number(line as u64)])
}

/// Writes `:LINE:COLUMN` where a word begins, or the line of the finding.
fn put_where<W: Write>(line: usize, spot: Option<Spot>, out: &mut Out<W>) -> Result<(), Device>
    ensures { Writes W.contents out.old out.new result (where_text line spot) }
{
    match spot {
        Some(spot) => out.put_line(&[
            Piece::Bytes(b":"),
            Piece::Number(spot.line as u64),
            Piece::Bytes(b":"),
            Piece::Number(spot.column as u64),
        ]),
        None => put_line_number(line, out),
    }
}

/// Writes `PATH:LINE: `, or `PATH:LINE:COLUMN: ` where a word begins.
#[tactic(auto, unfolding(crate::specs::text::Check::place_text))]
fn put_place<W: Write>(
    names: &Names<'_>,
    place: &Place,
    spot: Option<Spot>,
    out: &mut Out<W>,
) -> Result<(), Device>
    ensures { Writes W.contents out.old out.new result (place_text (names_view names.now).paths place.now spot) }
{
    put_name(path_of(names, place.file), out)?;
    put_where(place.line, spot, out)?;
    out.put(b": ")
}

/// Writes ` of SERVICE` in pam.conf.
fn put_of_service<W: Write>(
    names: &Names<'_>,
    service: Option<usize>,
    out: &mut Out<W>,
) -> Result<(), Device>
    ensures { Writes W.contents out.old out.new result (of_service names.now.form (names_view names.now).services service) }
{
    let Some(service) = service else {
        return Ok(());
    };
    match names.form {
        Form::Dir => Ok(()),
        Form::Single => {
            out.put(b" of ")?;
            put_name(text_at(&names.services, service), out)
        }
    }
}

/// Writes the kind and, in pam.conf, the service of a stack.
fn put_kind<W: Write>(
    names: &Names<'_>,
    kind: Kind,
    service: Option<usize>,
    out: &mut Out<W>,
) -> Result<(), Device>
    ensures { Writes W.contents out.old out.new result (kind_of_service (names_view names.now) kind service) }
{
    out.put(kind_name(kind).as_bytes())?;
    put_of_service(names, service, out)
}

/// Writes ` NUMBER NAME CODE`.
#[tactic(auto, unfolding(crate::specs::text::Check::answer_text))]
fn put_answer<W: Write>(stack: &Stack, answer: &Answered, out: &mut Out<W>) -> Result<(), Device>
    ensures { Writes W.contents out.old out.new result (answer_text stack.now answer.now) }
{
    out.put_line(&[
        Piece::Bytes(b" "),
        Piece::Number(answer.number as u64),
        Piece::Bytes(b" "),
    ])?;
    put_name(name_of_path(path_at(stack, answer.number)), out)?;
    out.put_line(&[Piece::Bytes(b" "), Piece::Bytes(name_of(answer.code))])
}

fn put_next_answers<W: Write>(
    stack: &Stack,
    answers: &[Answered],
    out: &mut Out<W>,
) -> Result<(), Device>
    ensures { Writes W.contents out.old out.new result (flat_map (next_answer stack.now) answers.now) }
{
    for answer in answers {
        out.put(b",")?;
        put_answer(stack, answer, out)?;
    }
    Ok(())
}

/// Writes `: NUMBER NAME CODE, NUMBER NAME CODE`.
#[tactic(auto, unfolding(crate::specs::text::Check::answers_text))]
fn put_answers<W: Write>(
    stack: &Stack,
    answers: &[Answered],
    out: &mut Out<W>,
) -> Result<(), Device>
    ensures { Writes W.contents out.old out.new result (answers_text stack.now answers.now) }
{
    let Some((first, others)) = answers.split_first() else {
        return Ok(());
    };
    out.put(b":")?;
    put_answer(stack, first, out)?;
    put_next_answers(stack, others, out)
}

fn put_way<W: Write>(way: &Option<WayIn>, out: &mut Out<W>) -> Result<(), Device>
    ensures { Writes W.contents out.old out.new result (way_text way.now) }
{
    match way {
        Some(way) => put_answers(&way.stack, &way.answers, out),
        None => Ok(()),
    }
}

/// Writes the first way in of a service.
fn put_way_in<W: Write>(names: &Names<'_>, service: usize, out: &mut Out<W>) -> Result<(), Device>
    ensures { Writes W.contents out.old out.new result (way_in_at names.now.ways_in.now service) }
{
    match names.ways_in.get(service) {
        Some(way) => put_way(way, out),
        None => Ok(()),
    }
}

/// Writes the kind and the service of a problem of a whole stack.
fn put_subject<W: Write>(
    names: &Names<'_>,
    stack: Option<(Option<usize>, Kind)>,
    out: &mut Out<W>,
) -> Result<(), Device>
    ensures { Writes W.contents out.old out.new result (subject_text (names_view names.now) stack) }
{
    match stack {
        Some((service, kind)) => put_kind(names, kind, service, out),
        None => Ok(()),
    }
}

/// Writes the first way in of the first service that meets a problem.
fn put_first_way<W: Write>(
    names: &Names<'_>,
    met: Option<Met>,
    out: &mut Out<W>,
) -> Result<(), Device>
    ensures { Writes W.contents out.old out.new result (first_way_in names.now.ways_in.now met) }
{
    match met {
        Some(met) => put_way_in(names, met.first, out),
        None => Ok(()),
    }
}

/// Whether one service alone meets a problem, and the name of the file is its name.
fn is_its_own(names: &Names<'_>, file: Option<usize>, met: Met) -> bool
    ensures { result ≡ is_its_own (names_view names.now) file met }
{
    met.services == 1 && name_of_path(path_of(names, file)) == text_at(&names.services, met.first)
}

/// Writes the stacks that meet a problem of which a file is the cause, unless the file says so.
fn put_met_of_cause<W: Write>(
    names: &Names<'_>,
    file: Option<usize>,
    met: Option<Met>,
    out: &mut Out<W>,
) -> Result<(), Device>
    ensures { Writes W.contents out.old out.new result (met_of_cause (names_view names.now) file met) }
{
    match met {
        Some(met) if !is_its_own(names, file, met) => put_met(&names.services, met, out),
        _ => Ok(()),
    }
}

/// The same, unless the problem names its service.
fn put_met_unless_named<W: Write>(
    names: &Names<'_>,
    file: Option<usize>,
    met: Option<Met>,
    service: Option<usize>,
    out: &mut Out<W>,
) -> Result<(), Device>
    ensures { Writes W.contents out.old out.new result (met_unless_named (names_view names.now) file met service) }
{
    match service {
        Some(_) => Ok(()),
        None => put_met_of_cause(names, file, met, out),
    }
}

/// Writes the first way in, and the stacks that meet S2.
fn put_way_and_met<W: Write>(
    names: &Names<'_>,
    file: Option<usize>,
    met: Option<Met>,
    service: Option<usize>,
    out: &mut Out<W>,
) -> Result<(), Device>
    ensures { Writes W.contents out.old out.new result (way_and_met (names_view names.now) file met service) }
{
    put_first_way(names, met, out)?;
    put_met_unless_named(names, file, met, service, out)
}

/// Writes the stacks that meet a problem of a line, or of a whole stack.
fn put_met_unless<W: Write>(
    names: &Names<'_>,
    file: Option<usize>,
    met: Option<Met>,
    stack: Option<(Option<usize>, Kind)>,
    out: &mut Out<W>,
) -> Result<(), Device>
    ensures { Writes W.contents out.old out.new result (met_unless (names_view names.now) file met stack) }
{
    match stack {
        Some((service, _)) => put_met_unless_named(names, file, met, service, out),
        None => put_met_if_any(&names.services, met, out),
    }
}

/// Writes the first way in, and the stacks that meet the problem.
fn put_rest<W: Write>(
    names: &Names<'_>,
    file: Option<usize>,
    finding: Finding,
    out: &mut Out<W>,
) -> Result<(), Device>
    ensures { Writes W.contents out.old out.new result (rest_text (names_view names.now) file finding.met finding.problem) }
{
    match finding.problem {
        Problem::LetsAnybodyIn { service, .. } => {
            put_way_and_met(names, file, finding.met, service, out)
        }
        _ => put_met_unless(names, file, finding.met, stack_of(finding.problem), out),
    }
}

/// Writes what is wrong, how to mend it, and which stacks meet it; with the word that is wrong, if it is known.
#[tactic(auto, unfolding(crate::specs::text::Check::sentence))]
fn put_sentence<W: Write>(
    names: &Names<'_>,
    place: &Place,
    finding: Finding,
    word: Option<&Misspelled>,
    out: &mut Out<W>,
) -> Result<(), Device>
    ensures { Writes W.contents out.old out.new result
        (sentence (names_view names.now) place.now finding.met finding.problem (word_of word.entry)) }
{
    put_subject(names, stack_of(finding.problem), out)?;
    put_said(place.line, finding.problem, word, out)?;
    put_rest(names, place.file, finding, out)
}

/// Writes `LEVEL: NUMBER NAME: `.
fn put_problem_heading<W: Write>(problem: Problem, out: &mut Out<W>) -> Result<(), Device>
    ensures { Writes W.contents out.old out.new result (heading_text (level_of problem) (row_of problem)) }
{
    put_heading(problem.level(), problem.row(), out)
}

/// Writes `PLACE: LEVEL: NUMBER NAME: SENTENCE`.
#[tactic(auto, unfolding(crate::specs::text::Check::finding_line))]
pub(super) fn put_finding<W: Write>(found: FoundProblem<'_>, out: &mut Out<W>) -> Result<(), Device>
    ensures { Writes W.contents out.old out.new result
        (finding_line (names_view found.entry.names.now) found.entry.entry.now (word_of found.entry.word)) }
{
    let FoundProblem { names, entry, word } = found;
    let place = &entry.0;
    let finding = entry.1;
    put_place(names, place, spot_of(word), out)?;
    put_problem_heading(finding.problem, out)?;
    put_sentence(names, place, finding, word, out)?;
    out.put(b"\n")
}
