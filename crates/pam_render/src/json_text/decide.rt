//! The JSON of `decide`: the modules that a run asks, and the decision.

ghost use Rattle.std.specs.Prelude.{◌≡◌, map};
ghost use Rattle.pam_codes.specs.Out.{Writes, WritesAndFlushes};
ghost use Rattle.pam_report.specs.ReplyViews.{asked_view, run_view};
ghost use Rattle.pam_render.specs.json_text.Decide.{action_name, decision_members, jump_of, run_json, step_json, steps_json};
ghost use Rattle.pam_render.specs.json_lines.Line.{line};

use crate::json_lines::{Member, put_line};
use crate::json_text::header::put_stack;
use pam_codes::{Action, Device, Out};
use pam_dispatch::Decision;
use pam_drawing::{impression_name, name_of};
use pam_report::{AskedModule, RunReply};
use std::io::Write;

fn action_name(action: Action) -> &'static [u8]
    ensures { result.now ≡ action_name action }
{
    match action {
        Action::Ignore => b"ignore",
        Action::Ok => b"ok",
        Action::Done => b"done",
        Action::Bad => b"bad",
        Action::Die => b"die",
        Action::Reset => b"reset",
        Action::Jump(_) => b"jump",
    }
}

/// Returns how many items an action jumps over.
fn jump_of(action: Action) -> Option<u64>
    ensures { result ≡ jump_of action }
{
    match action {
        Action::Jump(items) => Some(u64::from(items)),
        _ => None,
    }
}

/// Writes the line of a module that is asked.
#[tactic(auto, unfolding(crate::specs::json_text::Decide::step_json))]
fn put_step<W: Write>(asked: &AskedModule, out: &mut Out<W>) -> Result<(), Device>
    ensures { Writes W.contents out.old out.new result (step_json (asked_view asked.now)) }
{
    let members: [Member<'_, ()>; 8] = [
        Member::text("kind", b"step"),
        Member::number("number", asked.number as u64),
        Member::readable("path", &asked.path),
        Member::text("code", name_of(asked.code)),
        Member::text("action", action_name(asked.action)),
        Member::number_if_any("jump", jump_of(asked.action)),
        Member::text("impression", impression_name(asked.state.impression)),
        Member::text("status", name_of(asked.state.status)),
    ];
    put_line(&members, out)
}

fn put_steps<W: Write>(asked: &[AskedModule], out: &mut Out<W>) -> Result<(), Device>
    ensures { Writes W.contents out.old out.new result (steps_json (map asked_view asked.now)) }
{
    for module in asked {
        put_step(module, out)?;
    }
    Ok(())
}

fn put_decision<W: Write>(decision: Decision, out: &mut Out<W>) -> Result<(), Device>
    ensures { Writes W.contents out.old out.new result (line (decision_members decision)) }
{
    let members: [Member<'_, ()>; 2] = [
        Member::text("kind", b"decision"),
        Member::text("code", name_of(decision.code())),
    ];
    put_line(&members, out)
}

pub(crate) fn write_run<W: Write>(run: &RunReply<'_>, out: &mut Out<W>) -> Result<(), Device>
    ensures { WritesAndFlushes W.contents out.old out.new result (run_json (run_view run.now)) }
{
    put_stack(run.service, run.kind, run.modules, out)?;
    put_steps(&run.trace.asked, out)?;
    put_decision(run.trace.decision, out)?;
    out.finish()
}
