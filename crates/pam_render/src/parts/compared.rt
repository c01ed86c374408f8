//! The walk over what changes from one configuration to another, line by line.

ghost use Rattle.std.specs.Prelude.{None};
ghost use Rattle.pam_text.specs.Out.{Writes, WritesAndFlushes};
ghost use Rattle.pam_report.specs.ReplyViews.{compare_view};
ghost use Rattle.pam_render.specs.parts.Compared.{compared_lines, if_first, lines_after, next_stack, only_in, presence};

mod line;
mod pair;
mod stack;

use crate::parts::changes::compared_count;
pub use line::{CompareLine, Configuration, DifferingStack, Head, RefusedStack, Side, StackOfOne};
use pam_changes::{ComparedService, ComparedStack};
use pam_report::CompareReply;
use pam_text::{Device, Out};
use stack::put_stack;
use std::io::Write;

/// How the lines of a comparison are written in a form of answers.
pub trait CompareLines {
    ghost use Rattle.std.specs.Prelude.{ℕ, List};
    ghost use Rattle.pam_text.specs.Out.{Writes};
    ghost use Rattle.pam_render.specs.parts.Compared.{Line};
    ghost use Rattle.pam_render.specs.parts.ComparedView.{line_view};

    /// The text of a line.
    ghost line: { Line → List ℕ };

    /// Writes a line.
    fn put_line<W: Write>(&self, content: CompareLine<'_>, out: &mut Out<W>) -> Result<(), Device>
        ensures { Writes W.contents out.old out.new result (line (line_view content.entry)) };
}

/// Writes which configuration alone has a service, but nothing for a service that both or neither has.
fn put_only<L: CompareLines, W: Write>(
    lines: &L,
    service: &ComparedService,
    out: &mut Out<W>,
) -> Result<(), Device>
    ensures { Writes W.contents out.old out.new result
        (only_in L.line service.now.name.items service.now.in_old service.now.in_new) }
{
    match (service.in_old, service.in_new) {
        (true, false) => lines.put_line(CompareLine::OnlyInOld(&service.name), out),
        (false, true) => lines.put_line(CompareLine::OnlyInNew(&service.name), out),
        _ => Ok(()),
    }
}

fn put_presence<L: CompareLines, W: Write>(
    lines: &L,
    services: &[ComparedService],
    position: usize,
    out: &mut Out<W>,
) -> Result<(), Device>
    ensures { Writes W.contents out.old out.new result (presence L.line services.now position) }
{
    match services.get(position) {
        Some(service) => put_only(lines, service, out),
        None => Ok(()),
    }
}

/// The same, unless the stack before was of this service too.
fn put_if_first<L: CompareLines, W: Write>(
    lines: &L,
    services: &[ComparedService],
    before: Option<usize>,
    position: usize,
    out: &mut Out<W>,
) -> Result<(), Device>
    ensures { Writes W.contents out.old out.new result (if_first L.line services.now before position) }
{
    if before == Some(position) {
        return Ok(());
    }
    put_presence(lines, services, position, out)
}

/// Writes what changes in a stack, after a line for a service that only one configuration has.
fn put_next_stack<L: CompareLines, W: Write>(
    lines: &L,
    reply: &CompareReply<'_>,
    before: Option<usize>,
    stack: &ComparedStack,
    out: &mut Out<W>,
) -> Result<(), Device>
    ensures { Writes W.contents out.old out.new result (next_stack L.line (compare_view reply.now) before stack.now) }
{
    put_if_first(lines, &reply.changes.services, before, stack.service, out)?;
    put_stack(lines, reply, stack, out)
}

/// Writes what changes in each stack.
fn put_stacks<L: CompareLines, W: Write>(
    lines: &L,
    reply: &CompareReply<'_>,
    stacks: &[ComparedStack],
    out: &mut Out<W>,
) -> Result<(), Device>
    ensures { Writes W.contents out.old out.new result (lines_after L.line (compare_view reply.now) None stacks.now) }
{
    let mut before = None;
    for stack in stacks {
        put_next_stack(lines, reply, before, stack, out)?;
        before = Some(stack.service);
    }
    Ok(())
}

/// Writes what changes, in the order of the stacks, and the last line, and flushes.
// Not inlined, so that a command uses no stack for the values of the others.
#[inline(never)]
pub fn write_compared<L: CompareLines, W: Write>(
    lines: &L,
    reply: &CompareReply<'_>,
    out: &mut Out<W>,
) -> Result<(), Device>
    ensures { WritesAndFlushes W.contents out.old out.new result (compared_lines L.line (compare_view reply.now)) }
{
    put_stacks(lines, reply, &reply.changes.stacks, out)?;
    let stacks = compared_count(&reply.changes.stacks);
    let counts = reply.changes.counts();
    lines.put_line(CompareLine::Last { stacks, counts }, out)?;
    out.finish()
}
