//! The text of `decide`: the modules that a run asks, and the decision.

ghost use Rattle.std.specs.Prelude.{◌≡◌, map};
ghost use Rattle.pam_codes.specs.Out.{Writes, WritesAndFlushes};
ghost use Rattle.pam_codes.specs.SetText.{name_of};
ghost use Rattle.pam_report.specs.ReplyViews.{asked_view, run_view};
ghost use Rattle.pam_render.specs.text.Decide.{action_text, asked_text, code_text, decision_text};
ghost use Rattle.pam_render.specs.text.Decide.{outcome_text, path_text, run_text, state_text, trace_text};

use crate::text::header::put_header;
use crate::text::word::put_word;
use pam_codes::{Action, Code, Device, Out, Piece};
use pam_dispatch::{Decision, State};
use pam_drawing::{impression_name, name_of};
use pam_report::{AskedModule, RunReply};
use std::io::Write;

#[tactic(auto, unfolding(crate::specs::text::Decide::action_text))]
fn put_action<W: Write>(action: Action, out: &mut Out<W>) -> Result<(), Device>
    ensures { Writes W.contents out.old out.new result (action_text action) }
{
    if let Action::Jump(_) = action {
        return out.put_line(&[Piece::Bytes(b"jump:"), action.piece()]);
    }
    out.put_line(&[action.piece()])
}

/// Writes a code with a space before and after it.
#[tactic(auto, unfolding(crate::specs::text::Decide::code_text))]
fn put_code<W: Write>(code: Code, out: &mut Out<W>) -> Result<(), Device>
    ensures { Writes W.contents out.old out.new result (code_text code) }
{
    out.put_line(&[
        Piece::Bytes(b" "),
        Piece::Bytes(name_of(code)),
        Piece::Bytes(b" "),
    ])
}

/// Writes ` IMPRESSION STATUS` and a line feed.
#[tactic(auto, unfolding(crate::specs::text::Decide::state_text))]
fn put_state<W: Write>(state: State, out: &mut Out<W>) -> Result<(), Device>
    ensures { Writes W.contents out.old out.new result (state_text state) }
{
    out.put_line(&[
        Piece::Bytes(b" "),
        Piece::Bytes(impression_name(state.impression)),
        Piece::Bytes(b" "),
        Piece::Bytes(name_of(state.status)),
        Piece::Bytes(b"\n"),
    ])
}

/// Writes ` CODE ACTION IMPRESSION STATUS`, with the state after the action.
fn put_outcome<W: Write>(
    code: Code,
    action: Action,
    state: State,
    out: &mut Out<W>,
) -> Result<(), Device>
    ensures { Writes W.contents out.old out.new result (outcome_text code action state) }
{
    put_code(code, out)?;
    put_action(action, out)?;
    put_state(state, out)
}

/// Writes `NUMBER PATH`.
fn put_path<W: Write>(number: usize, path: &[u8], out: &mut Out<W>) -> Result<(), Device>
    ensures { Writes W.contents out.old out.new result (path_text number path.now) }
{
    out.put_line(&[Piece::Number(number as u64), Piece::Bytes(b" ")])?;
    put_word(path, out)
}

/// Writes the line of a module that is asked.
fn put_asked<W: Write>(asked: &AskedModule, out: &mut Out<W>) -> Result<(), Device>
    ensures { Writes W.contents out.old out.new result (asked_text (asked_view asked.now)) }
{
    put_path(asked.number, &asked.path, out)?;
    put_outcome(asked.code, asked.action, asked.state, out)
}

/// Writes the lines of the modules that are asked.
fn put_trace<W: Write>(asked: &[AskedModule], out: &mut Out<W>) -> Result<(), Device>
    ensures { Writes W.contents out.old out.new result (trace_text (map asked_view asked.now)) }
{
    for module in asked {
        put_asked(module, out)?;
    }
    Ok(())
}

#[tactic(auto, unfolding(crate::specs::text::Decide::decision_text))]
fn put_decision<W: Write>(decision: Decision, out: &mut Out<W>) -> Result<(), Device>
    ensures { Writes W.contents out.old out.new result (decision_text decision) }
{
    out.put_line(&[
        Piece::Bytes(b"decision "),
        Piece::Bytes(name_of(decision.code())),
        Piece::Bytes(b"\n"),
    ])
}

pub(crate) fn write_run<W: Write>(run: &RunReply<'_>, out: &mut Out<W>) -> Result<(), Device>
    ensures { WritesAndFlushes W.contents out.old out.new result (run_text (run_view run.now)) }
{
    put_header(run.service, run.kind, run.modules, out)?;
    put_trace(&run.trace.asked, out)?;
    put_decision(run.trace.decision, out)?;
    out.finish()
}
