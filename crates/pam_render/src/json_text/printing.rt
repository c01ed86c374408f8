//! Replies, written as JSON.

ghost use Rattle.pam_report.specs.ReplyViews.{reply_view};
ghost use Rattle.pam_render.specs.json_text.Text.{PrintsIfAny};

use crate::json_text::decide::write_run;
use crate::json_text::form::AsJson;
use crate::json_text::needs::write_needs;
use crate::json_text::outcomes::write_outcomes;
use crate::json_text::paths::PageJson;
use crate::json_text::tables::{write_access, write_time};
use crate::parts::{with_write_fault, write_check, write_compared, write_policy, write_stacks};
use pam_codes::Out;
use pam_report::{Fault, Reply};
use std::alloc::Global;
use std::io::Write;

/// Writes the JSON of a reply, and flushes once, at its end. Returns `None`, and writes nothing, for a reply that has no JSON.
///
/// For a page of paths, a cursor that is refused is found before the first byte is written; for a page, a check and policies, so is
/// want of memory.
pub fn print_if_any<W: Write>(
    alloc: Global,
    reply: &Reply<'_>,
    out: &mut Out<W>,
) -> Option<Result<(), Fault>>
    ensures { PrintsIfAny W.contents out.old out.new result (reply_view reply.now) }
{
    match reply {
        Reply::Stacks(stacks) => Some(with_write_fault(write_stacks(&AsJson, alloc, stacks, out))),
        Reply::Run(run) => Some(with_write_fault(write_run(run, out))),
        Reply::Access(access) => Some(with_write_fault(write_access(*access, out))),
        Reply::Time(answer) => Some(with_write_fault(write_time(*answer, out))),
        Reply::Outcomes(outcomes) => Some(with_write_fault(write_outcomes(outcomes, out))),
        Reply::Paths(page) => Some(PageJson { page }.write(alloc, out)),
        Reply::Check(check) => Some(write_check(&AsJson, alloc, check, out)),
        Reply::Compared(compared) => Some(with_write_fault(write_compared(&AsJson, compared, out))),
        Reply::Policy(policies) => Some(write_policy(&AsJson, alloc, policies, out)),
        Reply::Needs(found) => Some(with_write_fault(write_needs(found, out))),
        _ => None,
    }
}
