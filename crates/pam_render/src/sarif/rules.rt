//! What each number means that a result has.

ghost use Rattle.std.specs.Prelude.{◌≡◌, ◌++◌, bytes_eq, false, map};
ghost use Rattle.std.specs.List.{list_any};
ghost use Rattle.pam_explain.specs.Views.{explanation_view};
ghost use Rattle.pam_findings.specs.host.Rows.{row_of};
ghost use Rattle.pam_findings.specs.tables.Rows.{row_of as row_of_table};
ghost use Rattle.pam_render.specs.json_lines.Line.{joined, separated};
ghost use Rattle.pam_render.specs.sarif.Rules as spec;
ghost use Rattle.pam_report.specs.ReplyViews.{check_view};
ghost use Rattle.pam_report.specs.Unused.{unused_row};
ghost use Rattle.pam_text.specs.Out.{Writes};
ghost use Rattle.serde_json.specs.Written.{comma_if, compact_text};

use crate::json_lines::{Member, Part, Written, put_comma, put_joined, put_object};
use pam_explain::{Explanation, explanations};
use pam_findings::host::{Finding, Place};
use pam_findings::tables::TableFinding;
use pam_report::{CheckReply, unused_row};
use pam_text::{Device, Out};
use std::io::Write;

/// Parts of a text, one after another.
#[derive(Clone, Copy)]
struct PartsValue<'x> {
    parts: &'x [Part<'x>],
}

impl Written for PartsValue<'_> {
    ghost use Rattle.std.specs.Prelude.{map};
    ghost use Rattle.pam_render.specs.json_lines.Line.{joined};

    ghost value = { λ text. joined (map (λ part. part.0.now) text.parts.now) };

    fn put<W: Write>(&self, out: &mut Out<W>) -> Result<(), Device> {
        put_joined(self.parts, out)
    }
}

fn put_text<W: Write>(parts: &[Part<'_>], out: &mut Out<W>) -> Result<(), Device>
    ensures { Writes W.contents out.old out.new result (compact_text (spec.text_object (joined (map (λ part. part.0.now) parts.now)))) }
{
    put_object(&[Member::written("text", PartsValue { parts })], out)
}

/// A text as SARIF has it.
#[derive(Clone, Copy)]
struct TextValue<'x> {
    parts: &'x [Part<'x>],
}

impl Written for TextValue<'_> {
    ghost use Rattle.std.specs.Prelude.{map};
    ghost use Rattle.pam_render.specs.json_lines.Line.{joined};
    ghost use Rattle.pam_render.specs.sarif.Rules.{text_object};

    ghost value = { λ text. text_object (joined (map (λ part. part.0.now) text.parts.now)) };

    fn put<W: Write>(&self, out: &mut Out<W>) -> Result<(), Device> {
        put_text(self.parts, out)
    }
}

/// Whether a finding has a number.
fn is_of_finding(found: &[(Place, Finding)], number: &str) -> bool
    ensures { result ≡ list_any (λ entry. bytes_eq (row_of entry.1.problem).number number.now) found.now }
{
    found.iter().any(|entry| entry.1.problem.number() == number)
}

/// Whether a problem of a table has a number.
fn is_of_table(tables: &[TableFinding], number: &str) -> bool
    ensures { result ≡ list_any (λ finding. bytes_eq (row_of_table finding.problem).number number.now) tables.now }
{
    tables
        .iter()
        .any(|finding| finding.problem.number() == number)
}

/// Whether a line that says nothing of the host has a number.
fn is_of_unused(number: &str) -> bool
    ensures { result ≡ bytes_eq unused_row.number number.now }
{
    unused_row().number == number
}

/// Whether a result has a number.
fn is_found(reply: &CheckReply<'_>, number: &str) -> bool
    ensures { result ≡ spec.is_found (check_view reply.now) number.now }
{
    is_of_finding(&reply.found, number)
        || is_of_table(&reply.tables, number)
        || reply.unused.len() > 0 && is_of_unused(number)
}

/// Writes the rule of a number.
#[tactic(auto, unfolding(crate::specs::sarif::Rules::rule_object))]
fn put_rule<W: Write>(explanation: &Explanation, out: &mut Out<W>) -> Result<(), Device>
    ensures { Writes W.contents out.old out.new result (compact_text (spec.rule_object (explanation_view explanation.now))) }
{
    let meaning = Part(explanation.meaning.as_bytes());
    let linux_pam = Part(explanation.linux_pam.as_bytes());
    let mending = Part(explanation.mending.as_bytes());
    put_object(
        &[
            Member::text("id", explanation.number.as_bytes()),
            Member::text("name", explanation.name.as_bytes()),
            Member::written("shortDescription", TextValue { parts: &[meaning] }),
            Member::written(
                "fullDescription",
                TextValue {
                    parts: &[meaning, Part(b"\nLinux-PAM: "), linux_pam],
                },
            ),
            Member::written(
                "help",
                TextValue {
                    parts: &[Part(b"To mend it: "), mending],
                },
            ),
        ],
        out,
    )
}

/// Writes a rule, with a comma before it unless it is the first.
fn put_next_rule<W: Write>(
    later: bool,
    explanation: &Explanation,
    out: &mut Out<W>,
) -> Result<(), Device>
    ensures { Writes W.contents out.old out.new result (comma_if later ++ compact_text (spec.rule_object (explanation_view explanation.now))) }
{
    put_comma(later, out)?;
    put_rule(explanation, out)
}

/// Writes the rules of the numbers that results have, without the brackets.
fn put_all_rules<W: Write>(reply: &CheckReply<'_>, out: &mut Out<W>) -> Result<(), Device>
    ensures { Writes W.contents out.old out.new result (separated false (spec.rules_of (check_view reply.now))) }
{
    let mut later = false;
    for explanation in explanations() {
        if is_found(reply, explanation.number) {
            put_next_rule(later, &explanation, out)?;
            later = true;
        }
    }
    Ok(())
}

/// Writes the rules of the numbers that results have.
pub(super) fn put_rules<W: Write>(reply: &CheckReply<'_>, out: &mut Out<W>) -> Result<(), Device>
    ensures { Writes W.contents out.old out.new result (compact_text (spec.rules_array (check_view reply.now))) }
{
    out.put(b"[")?;
    put_all_rules(reply, out)?;
    out.put(b"]")
}
