//! A line for a finding, a problem of a table, or a line that says nothing of the host.

ghost use Rattle.std.specs.Prelude.{◌≡◌};
ghost use Rattle.std.specs.Option.{option_map};
ghost use Rattle.pam_codes.specs.Out.{Writes};
ghost use Rattle.pam_explain.specs.Views.{explanation_view};
ghost use Rattle.pam_render.specs.parts.Check.{text_at};
ghost use Rattle.pam_render.specs.parts.CheckNames.{names_view, word_of};
ghost use Rattle.pam_report.specs.TablePaths.{table_paths_view};
ghost use Rattle.pam_report.specs.Unused.{unused_view};
ghost use Rattle.pam_render.specs.json_text.Check.{finding_json, line_if_any, met_unless, other_json, service_count, service_of};
ghost use Rattle.pam_render.specs.json_text.Check.{services_array, table_json, unused_json};
ghost use Rattle.pam_render.specs.json_text.Header.{kind_name};
ghost use Rattle.pam_render.specs.json_text.inner.Written.{finding_value};

use super::values::FindingValue;
use crate::json_lines::{Member, put_line};
use crate::parts::{FoundProblem, Names, path_of, spot_of, text_at, told_line};
use crate::sentences::level_name;
use pam_codes::{Device, Out};
use pam_conf::Kind;
use pam_explain::Explanation;
use pam_findings::host::{Level, Met, Problem};
use pam_findings::misspelled::Spot;
use pam_findings::tables::TableFinding;
use pam_report::{TablePaths, UnusedLine, kind_name, stack_of, unused_row};
use std::io::Write;

/// Returns a line, but none for a file as a whole.
fn line_if_any(line: usize) -> Option<u64>
    ensures { result ≡ line_if_any line }
{
    if line == 0 { None } else { Some(line as u64) }
}

/// Returns the column of a word.
fn column_of(spot: Option<Spot>) -> Option<u64>
    ensures { result ≡ option_map (λ s. s.column) spot }
{
    match spot {
        Some(spot) => Some(spot.column as u64),
        None => None,
    }
}

/// Returns the length of a word.
fn len_of(spot: Option<Spot>) -> Option<u64>
    ensures { result ≡ option_map (λ s. s.len) spot }
{
    match spot {
        Some(spot) => Some(spot.len as u64),
        None => None,
    }
}

/// Returns the stacks that meet a problem, unless it names its service.
fn met_unless(met: Option<Met>, service: Option<usize>) -> Option<Met>
    ensures { result ≡ met_unless met service }
{
    match service {
        Some(_) => None,
        None => met,
    }
}

fn service_count(met: Option<Met>) -> u64
    ensures { result ≡ service_count met }
{
    match met {
        Some(met) => met.services as u64,
        None => 0,
    }
}

/// Returns the service that a problem of a whole stack names.
fn service_of(problem: Problem) -> Option<usize>
    ensures { result ≡ service_of problem }
{
    match stack_of(problem) {
        Some((service, _)) => service,
        None => None,
    }
}

/// Returns the name of a service.
fn name_of_service<'x>(names: &Names<'x>, service: Option<usize>) -> Option<&'x [u8]>
    ensures { option_map (λ s. s.now) result ≡ option_map (text_at (names_view names.now).services) service }
{
    match service {
        Some(service) => Some(text_at(&names.services, service)),
        None => None,
    }
}

/// Returns the first services that meet a problem as a value.
fn services_of<'x>(names: &'x Names<'x>, met: Option<Met>) -> FindingValue<'x>
    ensures { finding_value result ≡ services_array (names_view names.now).services met }
{
    FindingValue::Services {
        services: &names.services,
        met,
    }
}

/// Returns the name of the kind of a stack.
fn type_of(stack: Option<(Option<usize>, Kind)>) -> Option<&'static [u8]>
    ensures { option_map (λ s. s.now) result ≡ option_map kind_name (option_map (λ s. s.1) stack) }
{
    match stack {
        Some((_, kind)) => Some(kind_name(kind).as_bytes()),
        None => None,
    }
}

/// Writes the line of a finding, with the word that is wrong if it is known.
#[tactic(auto, unfolding(crate::specs::json_text::Check::finding_json))]
pub(super) fn put_finding<W: Write>(found: FoundProblem<'_>, out: &mut Out<W>) -> Result<(), Device>
    ensures { let names = names_view found.entry.names.now in
        let entry = found.entry.entry.now in
        Writes W.contents out.old out.new result (finding_json names entry.0 entry.1 (word_of found.entry.word)) }
{
    let FoundProblem { names, entry, word } = found;
    let place = &entry.0;
    let finding = entry.1;
    let problem = finding.problem;
    let spot = spot_of(word);
    let row = problem.row();
    let service = service_of(problem);
    let met = met_unless(finding.met, service);
    let said = FindingValue::Said {
        line: place.line,
        problem,
        word,
    };
    let answers = FindingValue::Answers {
        ways: names.ways_in,
        met: finding.met,
        problem,
    };
    put_line(
        &[
            Member::text("kind", b"finding"),
            Member::readable("file", path_of(names, place.file)),
            Member::number_if_any("line", line_if_any(told_line(place.line, spot))),
            Member::number_if_any("column", column_of(spot)),
            Member::number_if_any("length", len_of(spot)),
            Member::text("level", level_name(problem.level()).as_bytes()),
            Member::text("number", row.number.as_bytes()),
            Member::text("name", row.name.as_bytes()),
            Member::written("sentence", said),
            Member::readable_if_any("service", name_of_service(names, service)),
            Member::readable_if_any("type", type_of(stack_of(problem))),
            Member::written("types", FindingValue::Types(met)),
            Member::written("services", services_of(names, met)),
            Member::number("service_count", service_count(met)),
            Member::written("answers", answers),
        ],
        out,
    )
}

/// Writes the line of a problem that no stack meets.
#[tactic(auto, unfolding(crate::specs::json_text::Check::other_json))]
fn put_other<'x, W: Write>(
    file: &'x [u8],
    line: usize,
    level: Level,
    row: &'static Explanation,
    said: FindingValue<'x>,
    out: &mut Out<W>,
) -> Result<(), Device>
    ensures { Writes W.contents out.old out.new result (other_json file.now line level (explanation_view row.now) (finding_value said.entry)) }
{
    put_line(
        &[
            Member::text("kind", b"finding"),
            Member::readable("file", file),
            Member::number_if_any("line", line_if_any(line)),
            Member::null("column"),
            Member::null("length"),
            Member::text("level", level_name(level).as_bytes()),
            Member::text("number", row.number.as_bytes()),
            Member::text("name", row.name.as_bytes()),
            Member::written("sentence", said),
            Member::null("service"),
            Member::null("type"),
            Member::written("types", FindingValue::Types(None)),
            Member::written("services", FindingValue::Types(None)),
            Member::number("service_count", 0),
            Member::written("answers", FindingValue::Types(None)),
        ],
        out,
    )
}

/// Writes the line of a problem of a table.
pub(super) fn put_table_finding<W: Write>(
    paths: &TablePaths<'_>,
    finding: TableFinding,
    out: &mut Out<W>,
) -> Result<(), Device>
    ensures { Writes W.contents out.old out.new result (table_json (table_paths_view paths.now) finding) }
{
    let problem = finding.problem;
    put_other(
        paths.of(finding.table, finding.number),
        finding.line as usize,
        problem.level(),
        problem.row(),
        FindingValue::TableSaid(problem),
        out,
    )
}

/// Writes the line of S8, of a line of this file that says nothing of the host.
pub(super) fn put_unused<W: Write>(
    file: &[u8],
    line: &UnusedLine,
    out: &mut Out<W>,
) -> Result<(), Device>
    ensures { Writes W.contents out.old out.new result (unused_json file.now (unused_view line.now)) }
{
    put_other(
        file,
        line.number() as usize,
        line.level(),
        unused_row(),
        FindingValue::Unused(line),
        out,
    )
}
