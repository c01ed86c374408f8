//! A stack that is refused, and one that was shown before.

ghost use Rattle.pam_codes.specs.Out.{Writes};
ghost use Rattle.pam_render.specs.text.Compare.{as_line, refused_line};
ghost use Rattle.pam_render.specs.parts.ComparedView.{head_view, side_view};

use super::parts::{Part, put_parts};
use crate::parts::{Head, RefusedStack};
use pam_codes::{Device, Out};
use std::io::Write;

/// Writes `SERVICE KIND refused: old FAULT, new FAULT`.
#[tactic(auto, unfolding(crate::specs::text::Compare::refused_line))]
pub(super) fn put_refused<W: Write>(stack: RefusedStack<'_>, out: &mut Out<W>) -> Result<(), Device>
    ensures { Writes W.contents out.old out.new result
        (refused_line (head_view stack.entry.head) (side_view stack.entry.old) (side_view stack.entry.new)) }
{
    let RefusedStack { head, old, new } = stack;
    put_parts(
        &[
            Part::Head(head),
            Part::Text(b" refused: old "),
            Part::Side {
                files: old.files,
                fault: old.fault,
            },
            Part::Text(b", new "),
            Part::Side {
                files: new.files,
                fault: new.fault,
            },
            Part::Text(b"\n"),
        ],
        out,
    )
}

/// Writes `SERVICE KIND as SERVICE KIND`.
#[tactic(auto, unfolding(crate::specs::text::Compare::as_line))]
pub(super) fn put_as<'x, W: Write>(
    head: Head<'x>,
    first: Head<'x>,
    out: &mut Out<W>,
) -> Result<(), Device>
    ensures { Writes W.contents out.old out.new result (as_line (head_view head.entry) (head_view first.entry)) }
{
    put_parts(
        &[
            Part::Head(head),
            Part::Text(b" as "),
            Part::Head(first),
            Part::Text(b"\n"),
        ],
        out,
    )
}
