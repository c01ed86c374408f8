//! What is written of policies.

ghost use Rattle.pam_report.specs.Reply.{Policy};
ghost use Rattle.pam_report.specs.ReplyViews.{policy_view};
ghost use Rattle.pam_render.specs.parts.Policy.{IsPolicyBy};
ghost use Rattle.pam_render.specs.parts.Prints.{PrintsBy};

use crate::parts::policy::told::told_of;
use crate::parts::policy::walk::{PolicyLines, write_told};
use crate::parts::writes::with_write_fault;
use pam_report::{Fault, PolicyReply};
use pam_text::Out;
use std::alloc::Global;
use std::io::Write;

/// Writes what a host says of policies, and flushes. Allocates lists of names, rules and findings before the first byte.
// Not inlined, so that a command uses no stack for the values of the others.
#[inline(never)]
pub fn write_policy<L: PolicyLines, W: Write>(
    lines: &L,
    alloc: Global,
    reply: &PolicyReply<'_>,
    out: &mut Out<W>,
) -> Result<(), Fault>
    ensures { PrintsBy W.contents (IsPolicyBy L.line) out.old out.new result (Policy (policy_view reply.now)) }
{
    match told_of(alloc, &*reply) {
        Ok(told) => with_write_fault(write_told(lines, &told, out)),
        Err(_) => Err(Fault::Memory),
    }
}
