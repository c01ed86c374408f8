//! The JSON of `outcomes`: in how many ways a stack comes to each decision, and the first of them.

ghost use Rattle.std.specs.Prelude.{map};
ghost use Rattle.std.specs.List.{flat_map};
ghost use Rattle.pam_codes.specs.Out.{Writes, WritesAndFlushes};
ghost use Rattle.pam_report.specs.ReplyViews.{outcome_view, outcomes_view};
ghost use Rattle.pam_render.specs.json_text.Outcomes.{outcome_json, outcomes_json, total_members};
ghost use Rattle.pam_render.specs.json_lines.Line.{line};

use crate::json_lines::{Member, put_line};
use crate::json_text::header::put_stack;
use crate::json_text::steps::PathValue;
use crate::parts::ModulePaths;
use pam_codes::{Device, Out};
use pam_drawing::name_of;
use pam_report::{Outcome, OutcomesReply};
use std::io::Write;

/// Writes the line of a decision.
#[tactic(auto, unfolding(crate::specs::json_text::Outcomes::outcome_json))]
fn put_outcome<'x, W: Write>(
    modules: &'x ModulePaths<'x>,
    outcome: &'x Outcome,
    out: &mut Out<W>,
) -> Result<(), Device>
    ensures { Writes W.contents out.old out.new result (outcome_json modules.now (outcome_view outcome.now)) }
{
    let steps = PathValue::Steps {
        modules,
        steps: outcome.first.steps(),
    };
    put_line(
        &[
            Member::text("kind", b"outcome"),
            Member::text("decision", name_of(outcome.decision)),
            Member::written("ways", PathValue::Ways(outcome.count)),
            Member::written("cursor", PathValue::Cursor(&outcome.first)),
            Member::written("steps", steps),
        ],
        out,
    )
}

fn put_outcomes<W: Write>(
    modules: &ModulePaths<'_>,
    outcomes: &[Outcome],
    out: &mut Out<W>,
) -> Result<(), Device>
    ensures { Writes W.contents out.old out.new result (flat_map (outcome_json modules.now) (map outcome_view outcomes.now)) }
{
    for outcome in outcomes {
        put_outcome(&*modules, outcome, out)?;
    }
    Ok(())
}

/// Writes the line of all ways.
fn put_total<W: Write>(total: Option<u128>, out: &mut Out<W>) -> Result<(), Device>
    ensures { Writes W.contents out.old out.new result (line (total_members total)) }
{
    put_line(
        &[
            Member::text("kind", b"total"),
            Member::written("ways", PathValue::Ways(total)),
        ],
        out,
    )
}

pub(crate) fn write_outcomes<W: Write>(
    reply: &OutcomesReply<'_>,
    out: &mut Out<W>,
) -> Result<(), Device>
    ensures { WritesAndFlushes W.contents out.old out.new result (outcomes_json (outcomes_view reply.now)) }
{
    put_stack(reply.service, reply.kind, reply.stack.modules(), out)?;
    let paths = ModulePaths::of(&reply.stack);
    put_outcomes(&paths, &reply.outcomes.found, out)?;
    put_total(reply.outcomes.total, out)?;
    out.finish()
}
