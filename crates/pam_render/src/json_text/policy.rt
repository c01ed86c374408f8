//! The JSON of `policy`: a line for each finding, for each rule, and a last line with their numbers.

ghost use Rattle.std.specs.Prelude.{◌≡◌, option_map};
ghost use Rattle.pam_codes.specs.Out.{Writes};
ghost use Rattle.pam_policy.specs.host.Findings.{finding_view};
ghost use Rattle.pam_render.specs.json_text.Policy.{decision_of, found_json, rule_json, total_json, verdict_name};
ghost use Rattle.pam_render.specs.parts.PolicyView.{host_view, rule_view, told_view};

mod values;

use crate::json_lines::{Member, put_line};
use crate::json_text::form::AsJson;
use crate::parts::{Counts, PolicyHost, PolicyLine, PolicyLines, ToldFinding, ToldRule};
use crate::sentences::level_name;
use pam_codes::{Device, Out};
use pam_drawing::name_of;
use pam_policy::host::{Finding, Standing};
use pam_report::{policy_level, policy_name, policy_number};
use std::io::Write;
use values::PolicyValue;

/// Returns what the stack decides in the run that breaks a rule.
fn decision_of(finding: Finding<'_>) -> Option<&'static [u8]>
    ensures { option_map (λ name. name.now) result ≡ decision_of (finding_view finding.entry) }
{
    match finding {
        Finding::Broken(_, run) => Some(name_of(run.decision)),
        _ => None,
    }
}

/// Writes the line of a finding.
#[tactic(auto, unfolding(crate::specs::json_text::Policy::found_json))]
fn put_found<'x, W: Write>(
    host: &'x PolicyHost<'x>,
    told: &'x ToldFinding<'x>,
    out: &mut Out<W>,
) -> Result<(), Device>
    ensures { Writes W.contents out.old out.new result (found_json (host_view host.now) (told_view told.now)) }
{
    let finding = told.finding;
    let places = &told.places;
    put_line(
        &[
            Member::text("kind", b"finding"),
            Member::text("number", policy_number(&finding).as_bytes()),
            Member::text("name", policy_name(&finding).as_bytes()),
            Member::text("level", level_name(policy_level(&finding)).as_bytes()),
            Member::readable("policy", told.rule.policy),
            Member::number("line", u64::from(told.rule.line)),
            Member::readable("rule", told.rule.text),
            Member::written("sentence", PolicyValue::Sentence { host, told }),
            Member::written("stacks", PolicyValue::Stacks { host, places }),
            Member::readable_if_any("decision", decision_of(finding)),
            Member::written("steps", PolicyValue::Steps { host, finding }),
        ],
        out,
    )
}

fn verdict_name(standing: Standing) -> &'static str
    ensures { result.now ≡ verdict_name standing }
{
    match standing {
        Standing::Holds => "holds",
        Standing::Broken => "broken",
        Standing::NotKnown => "not known",
    }
}

/// Writes the line of a rule.
#[tactic(auto, unfolding(crate::specs::json_text::Policy::rule_json))]
fn put_rule<W: Write>(rule: ToldRule<'_>, out: &mut Out<W>) -> Result<(), Device>
    ensures { Writes W.contents out.old out.new result (rule_json (rule_view rule.entry)) }
{
    let members: [Member<'_, ()>; 6] = [
        Member::text("kind", b"rule"),
        Member::readable("policy", rule.policy),
        Member::number("line", u64::from(rule.line)),
        Member::readable("rule", rule.text),
        Member::text("verdict", verdict_name(rule.report.standing()).as_bytes()),
        Member::number("stacks", rule.report.places.len() as u64),
    ];
    put_line(&members, out)
}

/// Writes the last line.
#[tactic(auto, unfolding(crate::specs::json_text::Policy::total_json))]
fn put_total<W: Write>(
    rules: usize,
    stacks: usize,
    counts: Counts,
    out: &mut Out<W>,
) -> Result<(), Device>
    ensures { Writes W.contents out.old out.new result (total_json rules stacks counts) }
{
    let members: [Member<'_, ()>; 6] = [
        Member::text("kind", b"total"),
        Member::number("rules", rules as u64),
        Member::number("stacks", stacks as u64),
        Member::number("errors", counts.errors as u64),
        Member::number("warnings", counts.warnings as u64),
        Member::number("notes", counts.notes as u64),
    ];
    put_line(&members, out)
}

impl PolicyLines for AsJson {
    ghost use Rattle.pam_render.specs.json_text.Policy.{line_json};

    ghost line = { line_json };

    fn put_line<W: Write>(&self, content: PolicyLine<'_>, out: &mut Out<W>) -> Result<(), Device> {
        match content {
            PolicyLine::Found { host, told } => put_found(host, told, out),
            PolicyLine::Judged(rule) => put_rule(rule, out),
            PolicyLine::Last {
                rules,
                stacks,
                counts,
            } => put_total(rules, stacks, counts, out),
        }
    }
}
