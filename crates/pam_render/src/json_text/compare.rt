//! The JSON of `compare`: a line for each change, and a last line with their numbers.

ghost use Rattle.pam_codes.specs.Out.{Writes};
ghost use Rattle.pam_render.specs.json_lines.Line.{line};
ghost use Rattle.pam_render.specs.json_text.Compare.{compared_json, only_members};

mod modules;
mod pair;
mod stack;
mod values;

use crate::json_lines::{Member, put_line};
use crate::json_text::form::AsJson;
use crate::parts::{CompareLine, CompareLines};
use pair::{put_arguments, put_change, put_guard, put_not_known, put_same};
use pam_changes::Counts;
use pam_codes::{Device, Out};
use stack::{put_as, put_refused};
use std::io::Write;

/// Writes the line of a service that one configuration alone has.
fn put_only_line<W: Write>(
    name: &[u8],
    configuration: &'static [u8],
    out: &mut Out<W>,
) -> Result<(), Device>
    ensures { Writes W.contents out.old out.new result (line (only_members name.now configuration.now)) }
{
    let members: [Member<'_, ()>; 3] = [
        Member::text("kind", b"only"),
        Member::readable("service", name),
        Member::text("configuration", configuration),
    ];
    put_line(&members, out)
}

/// Writes the last line.
#[tactic(auto, unfolding(crate::specs::json_text::Compare::compared_json))]
fn put_counts<W: Write>(stacks: usize, counts: Counts, out: &mut Out<W>) -> Result<(), Device>
    ensures { Writes W.contents out.old out.new result (compared_json stacks counts) }
{
    let members: [Member<'_, ()>; 9] = [
        Member::text("kind", b"compared"),
        Member::number("stacks", stacks as u64),
        Member::number("equal", counts.equal as u64),
        Member::number("same_decisions", counts.same_decisions as u64),
        Member::number("changed", counts.changed as u64),
        Member::number("refused", counts.refused as u64),
        Member::number("not_known", counts.not_known as u64),
        Member::number("only_in_old", counts.only_in_old as u64),
        Member::number("only_in_new", counts.only_in_new as u64),
    ];
    put_line(&members, out)
}

impl CompareLines for AsJson {
    ghost use Rattle.pam_render.specs.json_text.Compare.{line_json};

    ghost line = { line_json };

    fn put_line<W: Write>(&self, content: CompareLine<'_>, out: &mut Out<W>) -> Result<(), Device> {
        match content {
            CompareLine::OnlyInOld(name) => put_only_line(name, b"old", out),
            CompareLine::OnlyInNew(name) => put_only_line(name, b"new", out),
            CompareLine::Refused(stack) => put_refused(stack, out),
            CompareLine::As { head, first } => put_as(head, first, out),
            CompareLine::Arguments(stack, matched) => put_arguments(stack, matched, out),
            CompareLine::Change(stack, change, shown) => put_change(stack, change, shown, out),
            CompareLine::Same(stack) => put_same(stack, out),
            CompareLine::NotKnown(head) => put_not_known(head, out),
            CompareLine::Guard(stack, guarding) => put_guard(stack, guarding, out),
            CompareLine::Last { stacks, counts } => put_counts(stacks, counts, out),
        }
    }
}
