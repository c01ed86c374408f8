//! The results: one for each finding, in the order of the text.

ghost use Rattle.std.specs.Prelude.{◌≡◌, ◌==◌, ◌||◌, length, map, not};
ghost use Rattle.std.specs.List.{enumerate_from, flat_map};
ghost use Rattle.std.specs.Option.{option_map};
ghost use Rattle.pam_findings.specs.misspelled.MisspelledView.{misspelled_view};
ghost use Rattle.pam_render.specs.json_text.inner.Written.{finding_value};
ghost use Rattle.pam_render.specs.parts.CheckNames.{names_view, word_of};
ghost use Rattle.pam_render.specs.sarif.Results as spec;
ghost use Rattle.pam_render.specs.sarif.Rules.{text_object};
ghost use Rattle.pam_render.specs.sarif.inner.Written.{found_text, numbered_text, tables_text, unused_text};
ghost use Rattle.pam_report.specs.ReplyViews.{check_view};
ghost use Rattle.pam_report.specs.TablePaths.{table_paths_view};
ghost use Rattle.pam_report.specs.Unused.{unused_view};
ghost use Rattle.pam_text.specs.Out.{Writes};
ghost use Rattle.serde_json.specs.Written.{compact_text};

use crate::json_lines::{Elements, Member, Written, put_comma, put_more, put_object};
use crate::json_text::FindingValue;
use crate::parts::{FoundProblem, Names, path_of, spot_of, word_at};
use crate::sarif::location::{Located, put_locations};
use crate::sentences::level_name;
use pam_findings::host::{Finding, Level, Place};
use pam_findings::misspelled::Misspelled;
use pam_findings::tables::TableFinding;
use pam_report::{CheckReply, TablePaths, UnusedLine, unused_row};
use pam_text::{Device, Out};
use std::io::Write;

fn put_message<W: Write>(said: FindingValue<'_>, out: &mut Out<W>) -> Result<(), Device>
    ensures { Writes W.contents out.old out.new result (compact_text (text_object (finding_value said.entry))) }
{
    put_object(&[Member::written("text", said)], out)
}

/// A member of a result.
#[derive(Clone, Copy)]
enum ResultValue<'x> {
    /// What is said.
    Message(FindingValue<'x>),
    /// Where it is.
    Locations(Located<'x>),
}

impl Written for ResultValue<'_> {
    ghost use Rattle.pam_render.specs.sarif.inner.Written.{result_value};

    ghost value = { result_value };

    fn put<W: Write>(&self, out: &mut Out<W>) -> Result<(), Device> {
        match self {
            ResultValue::Message(said) => put_message(*said, out),
            ResultValue::Locations(located) => put_locations(*located, out),
        }
    }
}

/// Writes the result of what has this number.
#[tactic(auto, unfolding(crate::specs::sarif::Results::result_object))]
fn put_result<'x, W: Write>(
    number: &'static str,
    level: Level,
    said: FindingValue<'x>,
    located: Located<'x>,
    out: &mut Out<W>,
) -> Result<(), Device>
    ensures { let place = located.entry in
        Writes W.contents out.old out.new result
        (compact_text (spec.result_object number.now level (finding_value said.entry) place.path.now place.line place.spot)) }
{
    put_object(
        &[
            Member::text("ruleId", number.as_bytes()),
            Member::text("level", level_name(level).as_bytes()),
            Member::written("message", ResultValue::Message(said)),
            Member::written("locations", ResultValue::Locations(located)),
        ],
        out,
    )
}

/// Writes the result of a finding, with the word that is wrong if it is known.
fn put_finding<W: Write>(found: FoundProblem<'_>, out: &mut Out<W>) -> Result<(), Device>
    ensures { let entry = found.entry.entry.now in
        Writes W.contents out.old out.new result
        (compact_text (spec.finding_result (names_view found.entry.names.now) entry.0 entry.1 (word_of found.entry.word))) }
{
    let FoundProblem { names, entry, word } = found;
    let place = &entry.0;
    let problem = entry.1.problem;
    let line = place.line;
    let said = FindingValue::Said {
        line,
        problem,
        word,
    };
    let located = Located {
        path: path_of(names, place.file),
        line,
        spot: spot_of(word),
    };
    put_result(problem.number(), problem.level(), said, located, out)
}

/// Writes the result of the finding at a position, with a comma before it unless it is the first.
fn put_numbered<W: Write>(
    names: &Names<'_>,
    words: &[Option<Misspelled>],
    position: usize,
    entry: &(Place, Finding),
    out: &mut Out<W>,
) -> Result<(), Device>
    ensures { Writes W.contents out.old out.new result
        (numbered_text (names_view names.now) (map (option_map misspelled_view) words.now) (position, entry.now)) }
{
    put_comma(position > 0, out)?;
    let word = word_at(words, position);
    put_finding(FoundProblem { names, entry, word }, out)
}

/// Writes the results of findings, each with the word that is wrong at its position.
fn put_findings<W: Write>(
    names: &Names<'_>,
    found: &[(Place, Finding)],
    words: &[Option<Misspelled>],
    out: &mut Out<W>,
) -> Result<(), Device>
    ensures { Writes W.contents out.old out.new result
        (flat_map (numbered_text (names_view names.now) (map (option_map misspelled_view) words.now)) (enumerate_from 0 found.now)) }
{
    for (position, entry) in found.iter().enumerate() {
        put_numbered(names, words, position, entry, out)?;
    }
    Ok(())
}

/// Writes results of problems of tables.
#[derive(Clone, Copy)]
struct TableResults<'x> {
    paths: &'x TablePaths<'x>,
}

impl Elements<TableFinding> for TableResults<'_> {
    ghost use Rattle.pam_render.specs.sarif.Results.{table_result};
    ghost use Rattle.pam_report.specs.TablePaths.{table_paths_view};

    ghost element = { λ results finding. table_result (table_paths_view results.paths.now) finding };

    fn put_element<W: Write>(
        &self,
        finding: &TableFinding,
        out: &mut Out<W>,
    ) -> Result<(), Device> {
        put_table_result(self.paths, *finding, out)
    }
}

fn put_table_result<W: Write>(
    paths: &TablePaths<'_>,
    finding: TableFinding,
    out: &mut Out<W>,
) -> Result<(), Device>
    ensures { Writes W.contents out.old out.new result (compact_text (spec.table_result (table_paths_view paths.now) finding)) }
{
    let problem = finding.problem;
    put_result(
        problem.number(),
        problem.level(),
        FindingValue::TableSaid(problem),
        Located {
            path: paths.of(finding.table, finding.number),
            line: finding.line as usize,
            spot: None,
        },
        out,
    )
}

/// Writes results of lines that say nothing of the host (S8).
#[derive(Clone, Copy)]
struct UnusedResults<'x> {
    accept: &'x [u8],
    facts: &'x [u8],
}

impl Elements<UnusedLine> for UnusedResults<'_> {
    ghost use Rattle.pam_render.specs.sarif.Results.{unused_result};
    ghost use Rattle.pam_report.specs.Unused.{unused_view};

    ghost element = { λ results line. unused_result results.accept.now results.facts.now (unused_view line) };

    fn put_element<W: Write>(&self, line: &UnusedLine, out: &mut Out<W>) -> Result<(), Device> {
        put_unused(self.accept, self.facts, line, out)
    }
}

fn put_unused<W: Write>(
    accept: &[u8],
    facts: &[u8],
    line: &UnusedLine,
    out: &mut Out<W>,
) -> Result<(), Device>
    ensures { Writes W.contents out.old out.new result (compact_text (spec.unused_result accept.now facts.now (unused_view line.now))) }
{
    put_result(
        unused_row().number,
        line.level(),
        FindingValue::Unused(line),
        Located {
            path: line.file(accept, facts),
            line: line.number() as usize,
            spot: None,
        },
        out,
    )
}

/// Writes the results of the findings of a check.
fn put_found<W: Write>(
    names: &Names<'_>,
    reply: &CheckReply<'_>,
    out: &mut Out<W>,
) -> Result<(), Device>
    ensures { Writes W.contents out.old out.new result (found_text (names_view names.now) (check_view reply.now)) }
{
    put_findings(names, &reply.found, &reply.misspelled, out)
}

/// Writes the results of problems of tables, after those of findings.
fn put_tables<W: Write>(reply: &CheckReply<'_>, out: &mut Out<W>) -> Result<(), Device>
    ensures { Writes W.contents out.old out.new result (tables_text (check_view reply.now)) }
{
    let results = TableResults {
        paths: &reply.table_paths,
    };
    put_more(
        &results,
        !reply.found.as_slice().is_empty(),
        &reply.tables,
        out,
    )
}

/// Whether there are results before those of lines that say nothing.
fn are_before(found: &[(Place, Finding)], tables: &[TableFinding]) -> bool
    ensures { result ≡ (not (length found.now == 0) || not (length tables.now == 0)) }
{
    !found.is_empty() || !tables.is_empty()
}

/// Writes the results of lines that say nothing of the host, after the others.
fn put_unused_lines<W: Write>(reply: &CheckReply<'_>, out: &mut Out<W>) -> Result<(), Device>
    ensures { Writes W.contents out.old out.new result (unused_text (check_view reply.now)) }
{
    let results = UnusedResults {
        accept: reply.accept.as_bytes(),
        facts: reply.facts.as_bytes(),
    };
    put_more(
        &results,
        are_before(reply.found.as_slice(), reply.tables.as_slice()),
        &reply.unused,
        out,
    )
}

/// Writes the results of a check.
pub(super) fn put_results<W: Write>(
    names: &Names<'_>,
    reply: &CheckReply<'_>,
    out: &mut Out<W>,
) -> Result<(), Device>
    ensures { Writes W.contents out.old out.new result (compact_text (spec.results_array (names_view names.now) (check_view reply.now))) }
{
    out.put(b"[")?;
    put_found(names, reply, out)?;
    put_tables(reply, out)?;
    put_unused_lines(reply, out)?;
    out.put(b"]")
}
