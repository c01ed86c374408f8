//! The first line of an answer about a stack.

ghost use Rattle.pam_codes.specs.Out.{Writes};
ghost use Rattle.pam_render.specs.json_text.Header.{stack_members};
ghost use Rattle.pam_render.specs.json_lines.Line.{line};

use crate::json_lines::{Member, put_line};
use pam_codes::{Device, Out};
use pam_conf::Kind;
use pam_report::kind_name;
use std::io::Write;

/// Writes the line of a stack, with the service in lowercase.
pub(crate) fn put_stack<W: Write>(
    service: &str,
    kind: Kind,
    modules: usize,
    out: &mut Out<W>,
) -> Result<(), Device>
    ensures { Writes W.contents out.old out.new result (line (stack_members service.now kind modules)) }
{
    let members: [Member<'_, ()>; 4] = [
        Member::text("kind", b"stack"),
        Member::lowercase("service", service.as_bytes()),
        Member::text("type", kind_name(kind).as_bytes()),
        Member::number("modules", modules as u64),
    ];
    put_line(&members, out)
}
