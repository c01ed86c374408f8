//! The lines of two stacks that are not the same.

ghost use Rattle.std.specs.Prelude.{◌≡◌};
ghost use Rattle.pam_codes.specs.Out.{Writes};
ghost use Rattle.pam_render.specs.parts.ComparedView.{head_view, stack_view};
ghost use Rattle.pam_render.specs.text.Compare.{argument_line, change_line, counted_in, guard_line, guard_words, not_known_line, same_line};

use super::parts::{Part, put_parts};
use crate::parts::{
    Configuration, DifferingStack, Head, StackOfOne, change_name, configuration_name,
};
use pam_changes::{Guard, GuardingModule, MatchedPair, Shown};
use pam_codes::{Device, Out};
use pam_compare::MAX_SITUATIONS;
use pam_drawing::name_of;
use std::io::Write;

/// Writes `SERVICE KIND CHANGE: CODE becomes CODE where MODULE CODE, MODULE CODE`.
#[tactic(auto, unfolding(crate::specs::text::Compare::change_line))]
pub(super) fn put_change<'x, W: Write>(
    stack: DifferingStack<'x>,
    change: &'x [u8],
    shown: &'x Shown,
    out: &mut Out<W>,
) -> Result<(), Device>
    ensures { Writes W.contents out.old out.new result (change_line (head_view stack.entry.head) stack.entry.pair.now change.now shown.now) }
{
    let DifferingStack { head, pair } = stack;
    put_parts(
        &[
            Part::Head(head),
            Part::Text(b" "),
            Part::Text(change),
            Part::Text(b": "),
            Part::Text(name_of(shown.witness.old.code())),
            Part::Text(b" becomes "),
            Part::Text(name_of(shown.witness.new.code())),
            Part::Text(b" where "),
            Part::Asked {
                pair,
                asked: &shown.asked,
            },
            Part::Text(b"\n"),
        ],
        out,
    )
}

/// Writes `SERVICE KIND same decisions`, and what changes in the modules.
#[tactic(auto, unfolding(crate::specs::text::Compare::same_line))]
pub(super) fn put_same<W: Write>(stack: DifferingStack<'_>, out: &mut Out<W>) -> Result<(), Device>
    ensures { Writes W.contents out.old out.new result (same_line (head_view stack.entry.head) stack.entry.pair.now) }
{
    let DifferingStack { head, pair } = stack;
    put_parts(
        &[
            Part::Head(head),
            Part::Text(b" same decisions"),
            Part::Changes(pair),
            Part::Text(b"\n"),
        ],
        out,
    )
}

/// Writes `SERVICE KIND not known: more than N situations`.
#[tactic(auto, unfolding(crate::specs::text::Compare::not_known_line))]
pub(super) fn put_not_known<W: Write>(head: Head<'_>, out: &mut Out<W>) -> Result<(), Device>
    ensures { Writes W.contents out.old out.new result (not_known_line (head_view head.entry)) }
{
    put_parts(
        &[
            Part::Head(head),
            Part::Text(b" not known: more than "),
            Part::Number(MAX_SITUATIONS),
            Part::Text(b" situations\n"),
        ],
        out,
    )
}

/// Writes `SERVICE KIND arguments of MODULE: "ARGUMENTS" becomes "ARGUMENTS"`.
#[tactic(auto, unfolding(crate::specs::text::Compare::argument_line))]
pub(super) fn put_argument_line<'x, W: Write>(
    stack: DifferingStack<'x>,
    matched: MatchedPair,
    out: &mut Out<W>,
) -> Result<(), Device>
    ensures { Writes W.contents out.old out.new result (argument_line (head_view stack.entry.head) stack.entry.pair.now matched) }
{
    let DifferingStack { head, pair } = stack;
    put_parts(
        &[
            Part::Head(head),
            Part::Text(b" arguments of "),
            Part::Module {
                place: b"",
                stack: &pair.old,
                number: matched.old,
            },
            Part::Text(b": \""),
            Part::Arguments {
                stack: &pair.old,
                number: matched.old,
            },
            Part::Text(b"\" becomes \""),
            Part::Arguments {
                stack: &pair.new,
                number: matched.new,
            },
            Part::Text(b"\"\n"),
        ],
        out,
    )
}

/// Returns what a module does that guards a login.
fn guard_words(guard: Guard) -> &'static [u8]
    ensures { result.now ≡ guard_words guard }
{
    match guard {
        Guard::Checks => b"checks who logs in",
        Guard::Refuses => b"may refuse a login",
        Guard::Counts => b"counts failed logins",
    }
}

/// Returns what comes after the number of a module that a configuration alone has.
fn counted_in(configuration: Configuration) -> &'static [u8]
    ensures { result.now ≡ counted_in configuration }
{
    match configuration {
        Configuration::Old => b"",
        Configuration::New => b" of new",
    }
}

/// Writes `SERVICE KIND removed: MODULE, which counts failed logins (old FILE:LINE)`.
#[tactic(auto, unfolding(crate::specs::text::Compare::guard_line))]
pub(super) fn put_guard<W: Write>(
    one: StackOfOne<'_>,
    guarding: GuardingModule,
    out: &mut Out<W>,
) -> Result<(), Device>
    ensures { Writes W.contents out.old out.new result (guard_line (stack_view one.entry) guarding) }
{
    let StackOfOne {
        head,
        configuration,
        files,
        stack,
    } = one;
    let GuardingModule { number, guard } = guarding;
    put_parts(
        &[
            Part::Head(head),
            Part::Text(b" "),
            Part::Text(change_name(configuration)),
            Part::Text(b": "),
            Part::Module {
                place: counted_in(configuration),
                stack,
                number,
            },
            Part::Text(b", which "),
            Part::Text(guard_words(guard)),
            Part::Text(b" ("),
            Part::Text(configuration_name(configuration)),
            Part::Place {
                files,
                stack,
                number,
            },
            Part::Text(b")\n"),
        ],
        out,
    )
}
