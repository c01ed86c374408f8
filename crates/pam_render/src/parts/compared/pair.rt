//! The lines of two stacks that are not the same.

ghost use Rattle.std.specs.List.{flat_map};
ghost use Rattle.pam_text.specs.Out.{Writes};
ghost use Rattle.pam_report.specs.ReplyViews.{compare_view};
ghost use Rattle.pam_render.specs.parts.Compared.{Arguments, change_if_any, changes_lines, decisions_lines, grave_lines, guard_lines};
ghost use Rattle.pam_render.specs.parts.Compared.{guards_lines, pair_lines, tells_lines, told_lines};
ghost use Rattle.pam_render.specs.parts.ComparedView.{head_view, stack_view};

use super::CompareLines;
use super::line::{CompareLine, Configuration, DifferingStack, StackOfOne};
use crate::parts::changes::is_grave;
use pam_changes::{Decisions, GuardingModule, MatchedPair, Shown, ShownChanges};
use pam_report::CompareReply;
use pam_text::{Device, Out};
use std::io::Write;

fn put_change_if_any<L: CompareLines, W: Write>(
    lines: &L,
    stack: DifferingStack<'_>,
    change: &'static [u8],
    shown: &Option<Shown>,
    out: &mut Out<W>,
) -> Result<(), Device>
    ensures { Writes W.contents out.old out.new result
        (change_if_any L.line (head_view stack.entry.head) stack.entry.pair.now change.now shown.now) }
{
    match shown {
        Some(shown) => lines.put_line(CompareLine::Change(stack, change, shown), out),
        None => Ok(()),
    }
}

/// Writes who is let in now, and who is no longer.
fn put_grave<L: CompareLines, W: Write>(
    lines: &L,
    stack: DifferingStack<'_>,
    changes: &ShownChanges,
    out: &mut Out<W>,
) -> Result<(), Device>
    ensures { Writes W.contents out.old out.new result (grave_lines L.line (head_view stack.entry.head) stack.entry.pair.now changes.now) }
{
    put_change_if_any(lines, stack, b"admits", &changes.admits, out)?;
    put_change_if_any(lines, stack, b"refuses", &changes.refuses, out)
}

/// Writes which failure changes, or that no decision does.
fn put_tells<L: CompareLines, W: Write>(
    lines: &L,
    stack: DifferingStack<'_>,
    tells: &Option<Shown>,
    out: &mut Out<W>,
) -> Result<(), Device>
    ensures { Writes W.contents out.old out.new result (tells_lines L.line (head_view stack.entry.head) stack.entry.pair.now tells.now) }
{
    match tells {
        Some(shown) => lines.put_line(CompareLine::Change(stack, b"tells", shown), out),
        None => lines.put_line(CompareLine::Same(stack), out),
    }
}

/// Writes who is let in now, and who is no longer; only if there is neither, which failure changes.
fn put_changes<L: CompareLines, W: Write>(
    lines: &L,
    stack: DifferingStack<'_>,
    changes: &ShownChanges,
    out: &mut Out<W>,
) -> Result<(), Device>
    ensures { Writes W.contents out.old out.new result (changes_lines L.line (head_view stack.entry.head) stack.entry.pair.now changes.now) }
{
    if is_grave(changes) {
        put_grave(lines, stack, changes, out)
    } else {
        put_tells(lines, stack, &changes.tells, out)
    }
}

fn put_decisions<L: CompareLines, W: Write>(
    lines: &L,
    stack: DifferingStack<'_>,
    out: &mut Out<W>,
) -> Result<(), Device>
    ensures { Writes W.contents out.old out.new result
        (decisions_lines L.line (head_view stack.entry.head) stack.entry.pair.now stack.entry.pair.now.decisions) }
{
    match &stack.pair.decisions {
        Decisions::Known(changes) => put_changes(lines, stack, changes, out),
        Decisions::NotKnown => lines.put_line(CompareLine::NotKnown(stack.head), out),
    }
}

/// Writes the arguments of modules that are matched.
fn put_arguments<L: CompareLines, W: Write>(
    lines: &L,
    stack: DifferingStack<'_>,
    matched: &[MatchedPair],
    out: &mut Out<W>,
) -> Result<(), Device>
    ensures { Writes W.contents out.old out.new result
        (flat_map (λ m. L.line (Arguments (head_view stack.entry.head) stack.entry.pair.now m)) matched.now) }
{
    for modules in matched {
        lines.put_line(CompareLine::Arguments(stack, *modules), out)?;
    }
    Ok(())
}

/// Writes the modules that a stack alone has, and that guard a login.
fn put_guards<L: CompareLines, W: Write>(
    lines: &L,
    stack: StackOfOne<'_>,
    guards: &[GuardingModule],
    out: &mut Out<W>,
) -> Result<(), Device>
    ensures { Writes W.contents out.old out.new result (guard_lines L.line (stack_view stack.entry) guards.now) }
{
    for guarding in guards {
        lines.put_line(CompareLine::Guard(stack, *guarding), out)?;
    }
    Ok(())
}

/// Writes the modules that guard a login, and that were removed or added.
fn put_all_guards<L: CompareLines, W: Write>(
    lines: &L,
    reply: &CompareReply<'_>,
    differing: DifferingStack<'_>,
    out: &mut Out<W>,
) -> Result<(), Device>
    ensures { Writes W.contents out.old out.new result
        (guards_lines L.line (compare_view reply.now) (head_view differing.entry.head) differing.entry.pair.now) }
{
    let DifferingStack { head, pair } = differing;
    let old = StackOfOne {
        head,
        configuration: Configuration::Old,
        files: reply.old,
        stack: &pair.old,
    };
    let new = StackOfOne {
        head,
        configuration: Configuration::New,
        files: reply.new,
        stack: &pair.new,
    };
    put_guards(lines, old, &pair.guards.removed, out)?;
    put_guards(lines, new, &pair.guards.added, out)
}

/// Writes what changes in the decisions, and which modules that guard a login were removed or added.
fn put_told<L: CompareLines, W: Write>(
    lines: &L,
    reply: &CompareReply<'_>,
    stack: DifferingStack<'_>,
    out: &mut Out<W>,
) -> Result<(), Device>
    ensures { Writes W.contents out.old out.new result
        (told_lines L.line (compare_view reply.now) (head_view stack.entry.head) stack.entry.pair.now) }
{
    put_decisions(lines, stack, out)?;
    put_all_guards(lines, reply, stack, out)
}

/// Writes the lines of two stacks.
pub(super) fn put_pair<L: CompareLines, W: Write>(
    lines: &L,
    reply: &CompareReply<'_>,
    stack: DifferingStack<'_>,
    out: &mut Out<W>,
) -> Result<(), Device>
    ensures { Writes W.contents out.old out.new result
        (pair_lines L.line (compare_view reply.now) (head_view stack.entry.head) stack.entry.pair.now) }
{
    put_arguments(lines, stack, &stack.pair.modules.arguments, out)?;
    put_told(lines, reply, stack, out)
}
