//! Replies, written as text.

ghost use Rattle.std.specs.Prelude.{◌≡◌, MatchOption, false, map};
ghost use Rattle.pam_render.specs.parts.Findings.{is_check};
ghost use Rattle.pam_render.specs.parts.Prints.{PrintsBy};
ghost use Rattle.pam_report.specs.Reply.{Check};
ghost use Rattle.pam_report.specs.ReplyViews.{check_view, reply_view};
ghost use Rattle.pam_render.specs.text.Answer.{Answers};
ghost use Rattle.pam_render.specs.text.inner.Leaves.{Prints};
ghost use Rattle.pam_render.specs.text.Text.{IsTextIn};
ghost use Rattle.pam_words.specs.Wanted.{candidate_view};
ghost use Rattle.pam_words.specs.declared.wanted.OutputForm.TheVariants.{Full, Json, Patch, Sarif};

use crate::full_text::write_full;
use crate::json_text::print_if_any;
use crate::parts::{with_write_fault, write_check, write_compared, write_policy, write_stacks};
use crate::patch_text::write_patch;
use crate::sarif::write_sarif;
use crate::text::about::{write_known, write_version};
use crate::text::decide::write_run;
use crate::text::drawing::write_drawing;
use crate::text::explain::{write_explanation, write_explanations};
use crate::text::form::AsText;
use crate::text::needs::write_needs;
use crate::text::outcomes::write_outcomes;
use crate::text::paths::PageText;
use crate::text::released::write_released;
use crate::text::tables::{write_access, write_time};
use pam_codes::Out;
use pam_report::{CheckReply, Fault, Inputs, Reply, Status, reply_to};
use pam_words::{OutputForm, Request};
use std::alloc::Global;
use std::io::Write;

/// Writes the text of a reply in a form, and flushes once, at its end. A reply that has no JSON, SARIF, full text or
/// patch is written as text.
///
/// For a page of paths, a cursor that is refused is found before the first byte is written; for a page, a drawing, a check and
/// policies, so is want of memory. Nothing is allocated after it.
pub fn print<W: Write>(
    alloc: Global,
    reply: &Reply<'_>,
    output: OutputForm,
    out: &mut Out<W>,
) -> Result<(), Fault>
    ensures { PrintsBy W.contents (IsTextIn output) out.old out.new result (reply_view reply.now) }
{
    match output {
        OutputForm::PlainText => print_text(alloc, reply, out),
        OutputForm::Full => print_full(alloc, reply, out),
        OutputForm::Json => print_json(alloc, reply, out),
        OutputForm::Sarif => print_sarif(alloc, reply, out),
        OutputForm::Patch => print_patch(alloc, reply, out),
    }
}

/// Writes the JSON of a reply, or its text if it has none.
// Not inlined, so that a command uses no stack for the values of the others.
#[inline(never)]
fn print_json<W: Write>(alloc: Global, reply: &Reply<'_>, out: &mut Out<W>) -> Result<(), Fault>
    ensures { PrintsBy W.contents (IsTextIn Json) out.old out.new result (reply_view reply.now) }
{
    match print_if_any(alloc, reply, out) {
        Some(written) => written,
        None => print_text(alloc, reply, out),
    }
}

/// Writes the full text of a check, or the text of another reply.
#[inline(never)]
fn print_full<W: Write>(alloc: Global, reply: &Reply<'_>, out: &mut Out<W>) -> Result<(), Fault>
    ensures { PrintsBy W.contents (IsTextIn Full) out.old out.new result (reply_view reply.now) }
{
    match check_in(reply) {
        Some(check) => write_full(alloc, check, out),
        None => print_text(alloc, reply, out),
    }
}

/// Writes the SARIF of a check, or the text of another reply.
#[inline(never)]
fn print_sarif<W: Write>(alloc: Global, reply: &Reply<'_>, out: &mut Out<W>) -> Result<(), Fault>
    ensures { PrintsBy W.contents (IsTextIn Sarif) out.old out.new result (reply_view reply.now) }
{
    match check_in(reply) {
        Some(check) => write_sarif(alloc, check, out),
        None => print_text(alloc, reply, out),
    }
}

/// Writes the patch of a check, or the text of another reply.
#[inline(never)]
fn print_patch<W: Write>(alloc: Global, reply: &Reply<'_>, out: &mut Out<W>) -> Result<(), Fault>
    ensures { PrintsBy W.contents (IsTextIn Patch) out.old out.new result (reply_view reply.now) }
{
    match check_in(reply) {
        Some(check) => write_patch(alloc, check, out),
        None => print_text(alloc, reply, out),
    }
}

/// Returns the check that a reply is, if it is one.
fn check_in<'x>(reply: &'x Reply<'_>) -> Option<&'x CheckReply<'x>>
    ensures { MatchOption result (is_check (reply_view reply.now) ≡ false)
        (λ check. reply_view reply.now ≡ Check (check_view check.now)) }
{
    match reply {
        Reply::Check(check) => Some(check),
        _ => None,
    }
}

/// Writes the text of a reply.
fn print_text<W: Write>(alloc: Global, reply: &Reply<'_>, out: &mut Out<W>) -> Result<(), Fault>
    ensures { Prints W.contents out.old out.new result (reply_view reply.now) }
{
    match reply {
        Reply::Stacks(stacks) => with_write_fault(write_stacks(&AsText, alloc, stacks, out)),
        Reply::Released(readings) => with_write_fault(write_released(readings, out)),
        Reply::Run(run) => with_write_fault(write_run(run, out)),
        Reply::Access(access) => with_write_fault(write_access(*access, out)),
        Reply::Time(answer) => with_write_fault(write_time(*answer, out)),
        Reply::Outcomes(outcomes) => with_write_fault(write_outcomes(outcomes, out)),
        Reply::Check(check) => write_check(&AsText, alloc, check, out),
        Reply::Compared(compared) => with_write_fault(write_compared(&AsText, compared, out)),
        Reply::Policy(policies) => write_policy(&AsText, alloc, policies, out),
        Reply::Needs(found) => with_write_fault(write_needs(found, out)),
        Reply::Explained(explanation) => with_write_fault(write_explanation(explanation, out)),
        Reply::Explanations => with_write_fault(write_explanations(out)),
        Reply::Facts => with_write_fault(write_known(out)),
        Reply::Version => with_write_fault(write_version(out)),
        Reply::Graph(drawing) => write_drawing(alloc, drawing, out),
        Reply::Paths(page) => PageText { alloc, page }.write(out),
    }
}

/// Answers a request: writes the text in the form that it asks for, and flushes once, at its end.
///
/// All faults but a failed write are found before the first byte is written. Inputs of another command have no files and
/// no tables that this one uses; see `Inputs::fits`.
pub fn answer<W: Write>(
    alloc: Global,
    request: &Request<'_>,
    inputs: &Inputs,
    out: &mut Out<W>,
) -> Result<Status, Fault>
    ensures { Answers W.contents out.old out.new result request.now.output request.now.service.now
        (map candidate_view request.now.candidates.items) request.now.task inputs.now }
{
    let reply = match reply_to(alloc, request, inputs) {
        Ok(reply) => reply,
        Err(fault) => return Err(fault),
    };
    let status = reply.status();
    let printed = print(alloc, &reply, request.output, out);
    // A call, since to prove the drop of each variant in place takes half a minute.
    drop(reply);
    match printed {
        Ok(()) => Ok(status),
        Err(fault) => Err(fault),
    }
}
