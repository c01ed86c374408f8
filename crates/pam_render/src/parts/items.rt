//! The walk over the items of a stack, in the order of pam.conf(5).

ghost use Rattle.std.specs.Prelude.{◌≡◌, ◌+◌, ◌≤◌, map};
ghost use Rattle.pam_conf.specs.ItemsOf.{items_of};
ghost use Rattle.pam_conf.specs.Stack.{depth};
ghost use Rattle.pam_report.specs.ReplyViews.{stack_view};
ghost use Rattle.pam_text.specs.Out.{Writes, WritesAndFlushes};
ghost use Rattle.pam_render.specs.parts.Items.{items_lines, stack_lines, stacks_lines};

mod line;

pub use line::{RulePlace, StackHead, StackLine};
use pam_conf::{Files, Form, Item};
use pam_report::StackReply;
use pam_text::{Device, Out};
use std::alloc::Global;
use std::io::Write;

/// How the lines of a stack are written in a form of answers.
pub trait StackLines {
    ghost use Rattle.std.specs.Prelude.{ℕ, List};
    ghost use Rattle.pam_text.specs.Out.{Writes};
    ghost use Rattle.pam_render.specs.parts.Items.{Line};
    ghost use Rattle.pam_render.specs.parts.ItemsView.{line_view};

    /// The text of a line.
    ghost line: { Line → List ℕ };

    /// Writes a line.
    fn put_line<W: Write>(&self, content: StackLine<'_>, out: &mut Out<W>) -> Result<(), Device>
        ensures { Writes W.contents out.old out.new result (line (line_view content.entry)) };
}

/// Writes the items of a list at a level. Those of a substack are one level deeper.
fn put_items<L: StackLines, W: Write>(
    lines: &L,
    files: &Files,
    level: usize,
    items: &[Item],
    out: &mut Out<W>,
) -> Result<(), Device>
    requires shallow { level + depth (items_of items.now) ≤ 16 }
    ensures { Writes W.contents out.old out.new result (items_lines L.line files.now level (items_of items.now)) }
{
    for item in items {
        let at = RulePlace { files, level };
        match item {
            Item::Module(module) => lines.put_line(StackLine::Module(at, module), out)?,
            Item::Sub(sub) => {
                lines.put_line(StackLine::Sub(at, sub), out)?;
                put_items(lines, files, level + 1, &sub.items, out)?;
            }
        }
    }
    Ok(())
}

fn put_in<L: StackLines, W: Write>(
    lines: &L,
    reply: &StackReply<'_>,
    files: &Files,
    out: &mut Out<W>,
) -> Result<(), Device>
    requires { (stack_view reply.now).files ≡ files.now }
    ensures { Writes W.contents out.old out.new result (stack_lines L.line (stack_view reply.now)) }
{
    let head = StackHead {
        service: reply.service,
        kind: reply.kind,
        modules: reply.stack.modules(),
    };
    lines.put_line(StackLine::Head(head), out)?;
    put_items(lines, files, 0, reply.stack.items(), out)
}

/// Writes the lines of a stack.
fn put_stack<L: StackLines, W: Write>(
    lines: &L,
    alloc: Global,
    reply: &StackReply<'_>,
    out: &mut Out<W>,
) -> Result<(), Device>
    ensures { Writes W.contents out.old out.new result (stack_lines L.line (stack_view reply.now)) }
{
    match reply.files {
        Some(files) => put_in(lines, reply, files, out),
        None => put_in(lines, reply, &Files::new(alloc, Form::Dir), out),
    }
}

/// Writes the lines of stacks, one stack after another.
fn put_stacks<L: StackLines, W: Write>(
    lines: &L,
    alloc: Global,
    replies: &[StackReply<'_>],
    out: &mut Out<W>,
) -> Result<(), Device>
    ensures { Writes W.contents out.old out.new result (stacks_lines L.line (map stack_view replies.now)) }
{
    for reply in replies {
        put_stack(lines, alloc, reply, out)?;
    }
    Ok(())
}

/// Writes the lines of stacks, and flushes.
pub fn write_stacks<L: StackLines, W: Write>(
    lines: &L,
    alloc: Global,
    replies: &[StackReply<'_>],
    out: &mut Out<W>,
) -> Result<(), Device>
    ensures { WritesAndFlushes W.contents out.old out.new result (stacks_lines L.line (map stack_view replies.now)) }
{
    put_stacks(lines, alloc, replies, out)?;
    out.finish()
}
