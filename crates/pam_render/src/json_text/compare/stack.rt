//! A stack that is refused, and one that was shown before.

ghost use Rattle.pam_codes.specs.Out.{Writes};
ghost use Rattle.pam_render.specs.json_lines.Line.{line};
ghost use Rattle.pam_render.specs.json_text.Compare.{as_members, refused_json};
ghost use Rattle.pam_render.specs.parts.ComparedView.{head_view, side_view};

use super::values::ChangeValue;
use crate::json_lines::{Member, put_line};
use crate::parts::{Head, RefusedStack};
use pam_codes::{Device, Out};
use pam_report::kind_name;
use std::io::Write;

/// Writes the first fault of each configuration.
#[tactic(auto, unfolding(crate::specs::json_text::Compare::refused_json))]
pub(super) fn put_refused<W: Write>(stack: RefusedStack<'_>, out: &mut Out<W>) -> Result<(), Device>
    ensures { Writes W.contents out.old out.new result
        (refused_json (head_view stack.entry.head) (side_view stack.entry.old) (side_view stack.entry.new)) }
{
    let RefusedStack { head, old, new } = stack;
    let old = ChangeValue::Fault {
        files: old.files,
        fault: old.fault,
    };
    let new = ChangeValue::Fault {
        files: new.files,
        fault: new.fault,
    };
    put_line(
        &[
            Member::text("kind", b"refused"),
            Member::readable("service", head.service),
            Member::text("type", kind_name(head.kind).as_bytes()),
            Member::written("old", old),
            Member::written("new", new),
        ],
        out,
    )
}

/// Writes at which stack the same items were met first.
pub(super) fn put_as<'x, W: Write>(
    head: Head<'x>,
    first: Head<'x>,
    out: &mut Out<W>,
) -> Result<(), Device>
    ensures { Writes W.contents out.old out.new result (line (as_members (head_view head.entry) (head_view first.entry))) }
{
    let members: [Member<'_, ()>; 5] = [
        Member::text("kind", b"as"),
        Member::readable("service", head.service),
        Member::text("type", kind_name(head.kind).as_bytes()),
        Member::readable("first_service", first.service),
        Member::text("first_type", kind_name(first.kind).as_bytes()),
    ];
    put_line(&members, out)
}
