//! The text of `outcomes`: in how many ways a stack comes to each decision, and the first of them.

ghost use Rattle.std.specs.Prelude.{map};
ghost use Rattle.std.specs.List.{flat_map};
ghost use Rattle.pam_codes.specs.Out.{Writes, WritesAndFlushes};
ghost use Rattle.pam_paths.specs.Steps.{step_seen};
ghost use Rattle.pam_report.specs.ReplyViews.{outcome_view, outcomes_view};
ghost use Rattle.pam_render.specs.parts.Ways.{count_text};
ghost use Rattle.pam_render.specs.text.Outcomes.{named_step, named_steps, next_step};
ghost use Rattle.pam_render.specs.text.Outcomes.{outcome_line, outcomes_text, total_line};

use crate::parts::{ModulePaths, UNCOUNTED};
use crate::text::header::put_header;
use crate::text::word::put_shown_word;
use itoa::Buffer;
use pam_codes::{Device, Out};
use pam_drawing::name_of;
use pam_facts::known::name_of_path;
use pam_paths::PathStep;
use pam_report::{Outcome, OutcomesReply};
use std::io::Write;

/// Writes a number, or 2^128 with a plus for one that is not below it.
fn put_count<W: Write>(count: Option<u128>, out: &mut Out<W>) -> Result<(), Device>
    ensures { Writes W.contents out.old out.new result (count_text count) }
{
    let Some(count) = count else {
        return out.put(UNCOUNTED);
    };
    let mut buffer = Buffer::new();
    out.put(buffer.format(count).as_bytes())
}

/// Writes ` NAME CLASS`.
#[tactic(auto, unfolding(crate::specs::text::Outcomes::named_step))]
fn put_named_step<W: Write>(
    modules: &ModulePaths<'_>,
    step: &PathStep,
    out: &mut Out<W>,
) -> Result<(), Device>
    ensures { Writes W.contents out.old out.new result (named_step modules.now (step_seen step.now)) }
{
    out.put(b" ")?;
    put_shown_word(name_of_path(modules.path(step.number())), out)?;
    out.put(b" ")?;
    step.class().write_text(out)
}

fn put_next_step<W: Write>(
    modules: &ModulePaths<'_>,
    step: &PathStep,
    out: &mut Out<W>,
) -> Result<(), Device>
    ensures { Writes W.contents out.old out.new result (next_step modules.now (step_seen step.now)) }
{
    out.put(b",")?;
    put_named_step(modules, step, out)
}

fn put_next_steps<W: Write>(
    modules: &ModulePaths<'_>,
    steps: &[PathStep],
    out: &mut Out<W>,
) -> Result<(), Device>
    ensures { Writes W.contents out.old out.new result (flat_map (next_step modules.now) (map step_seen steps.now)) }
{
    for step in steps {
        put_next_step(modules, step, out)?;
    }
    Ok(())
}

/// Writes `: NAME CLASS, NAME CLASS`.
#[tactic(auto, unfolding(crate::specs::text::Outcomes::named_steps))]
fn put_named_steps<W: Write>(
    modules: &ModulePaths<'_>,
    steps: &[PathStep],
    out: &mut Out<W>,
) -> Result<(), Device>
    ensures { Writes W.contents out.old out.new result (named_steps modules.now (map step_seen steps.now)) }
{
    let Some((first, others)) = steps.split_first() else {
        return Ok(());
    };
    out.put(b":")?;
    put_named_step(modules, first, out)?;
    put_next_steps(modules, others, out)
}

/// Writes `DECISION COUNT ways, first CURSOR: STEPS`.
#[tactic(auto, unfolding(crate::specs::text::Outcomes::outcome_line))]
fn put_outcome<W: Write>(
    modules: &ModulePaths<'_>,
    outcome: &Outcome,
    out: &mut Out<W>,
) -> Result<(), Device>
    ensures { Writes W.contents out.old out.new result (outcome_line modules.now (outcome_view outcome.now)) }
{
    out.put(name_of(outcome.decision))?;
    out.put(b" ")?;
    put_count(outcome.count, out)?;
    out.put(b" ways, first ")?;
    outcome.first.cursor().write_text(out)?;
    put_named_steps(modules, outcome.first.steps(), out)?;
    out.put(b"\n")
}

fn put_outcomes<W: Write>(
    modules: &ModulePaths<'_>,
    outcomes: &[Outcome],
    out: &mut Out<W>,
) -> Result<(), Device>
    ensures { Writes W.contents out.old out.new result (flat_map (outcome_line modules.now) (map outcome_view outcomes.now)) }
{
    for outcome in outcomes {
        put_outcome(modules, outcome, out)?;
    }
    Ok(())
}

/// Writes `total COUNT ways`.
#[tactic(auto, unfolding(crate::specs::text::Outcomes::total_line))]
fn put_total<W: Write>(total: Option<u128>, out: &mut Out<W>) -> Result<(), Device>
    ensures { Writes W.contents out.old out.new result (total_line total) }
{
    out.put(b"total ")?;
    put_count(total, out)?;
    out.put(b" ways\n")
}

pub(crate) fn write_outcomes<W: Write>(
    reply: &OutcomesReply<'_>,
    out: &mut Out<W>,
) -> Result<(), Device>
    ensures { WritesAndFlushes W.contents out.old out.new result (outcomes_text (outcomes_view reply.now)) }
{
    put_header(reply.service, reply.kind, reply.stack.modules(), out)?;
    let paths = ModulePaths::of(&reply.stack);
    put_outcomes(&paths, &reply.outcomes.found, out)?;
    put_total(reply.outcomes.total, out)?;
    out.finish()
}
