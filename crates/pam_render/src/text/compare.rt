//! The text of `compare`: a line for each change, and a last line with their numbers.

ghost use Rattle.std.specs.Prelude.{◌++◌};
ghost use Rattle.pam_codes.specs.Out.{Writes};
ghost use Rattle.pam_render.specs.sentences.Shown.{shown_name};
ghost use Rattle.pam_render.specs.text.Compare.{last_line};

mod asked;
mod modules;
mod pair;
mod parts;
mod stack;

use crate::parts::{CompareLine, CompareLines};
use crate::sentences::put_name;
use crate::text::form::AsText;
use pair::{put_argument_line, put_change, put_guard, put_not_known, put_same};
use pam_changes::Counts;
use pam_codes::{Device, Out};
use parts::{Part, put_parts};
use stack::{put_as, put_refused};
use std::io::Write;

/// Writes `SERVICE` and where alone it is.
fn put_only_line<W: Write>(name: &[u8], place: &[u8], out: &mut Out<W>) -> Result<(), Device>
    ensures { Writes W.contents out.old out.new result (shown_name name.now ++ place.now) }
{
    put_name(name, out)?;
    out.put(place)
}

/// Writes the last line.
#[tactic(auto, unfolding(crate::specs::text::Compare::last_line))]
fn put_last_line<W: Write>(stacks: usize, counts: Counts, out: &mut Out<W>) -> Result<(), Device>
    ensures { Writes W.contents out.old out.new result (last_line stacks counts) }
{
    put_parts(
        &[
            Part::Text(b"compared "),
            Part::Counted {
                count: stacks,
                name: "stack",
            },
            Part::Text(b": "),
            Part::Number(counts.equal),
            Part::Text(b" equal, "),
            Part::Number(counts.same_decisions),
            Part::Text(b" with the same decisions, "),
            Part::Number(counts.changed),
            Part::Text(b" changed, "),
            Part::Number(counts.refused),
            Part::Text(b" refused, "),
            Part::Number(counts.not_known),
            Part::Text(b" not known"),
            Part::Only {
                count: counts.only_in_old,
                place: b" only in old",
            },
            Part::Only {
                count: counts.only_in_new,
                place: b" only in new",
            },
            Part::Text(b"\n"),
        ],
        out,
    )
}

impl CompareLines for AsText {
    ghost use Rattle.pam_render.specs.text.Compare.{line_text};

    ghost line = { line_text };

    fn put_line<W: Write>(&self, content: CompareLine<'_>, out: &mut Out<W>) -> Result<(), Device> {
        match content {
            CompareLine::OnlyInOld(name) => put_only_line(name, b" only in old\n", out),
            CompareLine::OnlyInNew(name) => put_only_line(name, b" only in new\n", out),
            CompareLine::Refused(stack) => put_refused(stack, out),
            CompareLine::As { head, first } => put_as(head, first, out),
            CompareLine::Arguments(stack, matched) => put_argument_line(stack, matched, out),
            CompareLine::Change(stack, change, shown) => put_change(stack, change, shown, out),
            CompareLine::Same(stack) => put_same(stack, out),
            CompareLine::NotKnown(head) => put_not_known(head, out),
            CompareLine::Guard(stack, guarding) => put_guard(stack, guarding, out),
            CompareLine::Last { stacks, counts } => put_last_line(stacks, counts, out),
        }
    }
}
