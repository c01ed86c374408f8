//! The lines of two stacks that are not the same.

ghost use Rattle.std.specs.Prelude.{◌≡◌};
ghost use Rattle.pam_codes.specs.Out.{Writes};
ghost use Rattle.pam_render.specs.json_lines.Line.{line};
ghost use Rattle.pam_render.specs.parts.ComparedView.{head_view, stack_view};
ghost use Rattle.pam_render.specs.json_text.Compare.{arguments_json, change_json, guard_json, guard_name, new_modules, not_known_members, old_modules};
ghost use Rattle.pam_render.specs.json_text.Compare.{same_json};
ghost use Rattle.pam_render.specs.json_text.inner.Written.{change_value};

use super::values::{ChangeValue, line_in};
use crate::json_lines::{Member, put_line};
use crate::parts::{
    DifferingStack, Head, StackOfOne, change_name, configuration_name, file_of_rule, line_of_rule,
    occurrence,
};
use pam_changes::{Guard, GuardingModule, MatchedPair, Shown, StackPair};
use pam_codes::{Device, Out};
use pam_compare::MAX_SITUATIONS;
use pam_drawing::name_of;
use pam_report::{kind_name, path_at};
use std::io::Write;

/// Writes two decisions, and the modules that are asked with the answers that lead to them.
#[tactic(auto, unfolding(crate::specs::json_text::Compare::change_json))]
pub(super) fn put_change<'x, W: Write>(
    stack: DifferingStack<'x>,
    change: &'static [u8],
    shown: &'x Shown,
    out: &mut Out<W>,
) -> Result<(), Device>
    ensures { Writes W.contents out.old out.new result (change_json (head_view stack.entry.head) stack.entry.pair.now change.now shown.now) }
{
    let DifferingStack { head, pair } = stack;
    let steps = ChangeValue::Steps {
        pair,
        asked: &shown.asked,
    };
    put_line(
        &[
            Member::text("kind", b"change"),
            Member::readable("service", head.service),
            Member::text("type", kind_name(head.kind).as_bytes()),
            Member::text("change", change),
            Member::text("old", name_of(shown.witness.old.code())),
            Member::text("new", name_of(shown.witness.new.code())),
            Member::written("steps", steps),
        ],
        out,
    )
}

/// Writes that the decisions are the same, and what changes in the modules.
#[tactic(auto, unfolding(crate::specs::json_text::Compare::same_json))]
pub(super) fn put_same<W: Write>(stack: DifferingStack<'_>, out: &mut Out<W>) -> Result<(), Device>
    ensures { Writes W.contents out.old out.new result (same_json (head_view stack.entry.head) stack.entry.pair.now) }
{
    let DifferingStack { head, pair } = stack;
    let modules = &pair.modules;
    put_line(
        &[
            Member::text("kind", b"same_decisions"),
            Member::readable("service", head.service),
            Member::text("type", kind_name(head.kind).as_bytes()),
            Member::written("removed", old_modules(pair, &modules.removed)),
            Member::written("added", new_modules(pair, &modules.added)),
            Member::written("moved", old_modules(pair, &modules.moved)),
            Member::written("controls", old_modules(pair, &modules.controls)),
        ],
        out,
    )
}

/// Returns modules that the old stack has as a value.
fn old_modules<'x>(pair: &'x StackPair, numbers: &'x [usize]) -> ChangeValue<'x>
    ensures { change_value result ≡ old_modules pair.now numbers.now }
{
    ChangeValue::OldModules { pair, numbers }
}

/// Returns modules that the new stack alone has as a value.
fn new_modules<'x>(pair: &'x StackPair, numbers: &'x [usize]) -> ChangeValue<'x>
    ensures { change_value result ≡ new_modules pair.now numbers.now }
{
    ChangeValue::NewModules { pair, numbers }
}

/// Writes that the stacks can be in too many situations.
pub(super) fn put_not_known<W: Write>(head: Head<'_>, out: &mut Out<W>) -> Result<(), Device>
    ensures { Writes W.contents out.old out.new result (line (not_known_members (head_view head.entry))) }
{
    let members: [Member<'_, ()>; 4] = [
        Member::text("kind", b"not_known"),
        Member::readable("service", head.service),
        Member::text("type", kind_name(head.kind).as_bytes()),
        Member::number("situations", MAX_SITUATIONS as u64),
    ];
    put_line(&members, out)
}

/// Writes the arguments of two modules that are matched.
#[tactic(auto, unfolding(crate::specs::json_text::Compare::arguments_json))]
pub(super) fn put_arguments<'x, W: Write>(
    stack: DifferingStack<'x>,
    matched: MatchedPair,
    out: &mut Out<W>,
) -> Result<(), Device>
    ensures { Writes W.contents out.old out.new result (arguments_json (head_view stack.entry.head) stack.entry.pair.now matched) }
{
    let DifferingStack { head, pair } = stack;
    let old = ChangeValue::Arguments {
        stack: &pair.old,
        number: matched.old,
    };
    let new = ChangeValue::Arguments {
        stack: &pair.new,
        number: matched.new,
    };
    put_line(
        &[
            Member::text("kind", b"arguments"),
            Member::readable("service", head.service),
            Member::text("type", kind_name(head.kind).as_bytes()),
            Member::readable("module", path_at(&pair.old, matched.old)),
            Member::number("occurrence", occurrence(&pair.old, matched.old) as u64),
            Member::text("counted_in", b"old"),
            Member::written("old", old),
            Member::written("new", new),
        ],
        out,
    )
}

/// Returns the name of what a module does that guards a login.
fn guard_name(guard: Guard) -> &'static [u8]
    ensures { result.now ≡ guard_name guard }
{
    match guard {
        Guard::Checks => b"checks",
        Guard::Refuses => b"refuses",
        Guard::Counts => b"counts",
    }
}

/// Writes a module that a configuration alone has, and that guards a login.
#[tactic(auto, unfolding(crate::specs::json_text::Compare::guard_json))]
pub(super) fn put_guard<W: Write>(
    one: StackOfOne<'_>,
    guarding: GuardingModule,
    out: &mut Out<W>,
) -> Result<(), Device>
    ensures { Writes W.contents out.old out.new result (guard_json (stack_view one.entry) guarding) }
{
    let StackOfOne {
        head,
        configuration,
        files,
        stack,
    } = one;
    let GuardingModule { number, guard } = guarding;
    let file = file_of_rule(files, stack, number);
    let members: [Member<'_, ()>; 10] = [
        Member::text("kind", b"guard"),
        Member::readable("service", head.service),
        Member::text("type", kind_name(head.kind).as_bytes()),
        Member::text("change", change_name(configuration)),
        Member::readable("module", path_at(stack, number)),
        Member::number("occurrence", occurrence(stack, number) as u64),
        Member::text("counted_in", configuration_name(configuration)),
        Member::text("guard", guard_name(guard)),
        Member::readable_if_any("file", file),
        Member::number_if_any("line", line_in(file, line_of_rule(stack, number))),
    ];
    put_line(&members, out)
}
